//! What is read of each kind of step.
use crate::texts::WHOLE;
use ordup_entries::{Answer, LimitAnswer, Settings, Step, read_entry};
use ordup_grammar::ScopeWord;
use std::test::*;

/// Whether these are the settings of the whole entry.
fn are_settings(settings: &Settings<'_>) -> bool {
    settings.every == 100
        && settings.remembers == 2
        && settings.origin.as_bytes() == b"00ff".as_slice()
        && settings.version.as_bytes() == b"0.2.0".as_slice()
        && settings.seconds == 60
        && settings.began.every == 1000
        && settings.began.remembers == 10
        && settings.began.origin.as_bytes() == b"00aa".as_slice()
        && settings.began.seconds == 0
}

/// Whether a step is the one at this index of the whole entry.
fn is_step_at(index: usize, step: &Step<'_>) -> bool {
    match (index, step) {
        (0, Step::Begin(settings)) => are_settings(settings),
        (1, Step::Declare(line)) => line.as_bytes() == b"object tea 5".as_slice(),
        (
            2,
            Step::Known {
                client,
                number,
                digest,
                epoch,
                age,
                answer: Answer::Acknowledged { place, epoch: of },
            },
        ) => {
            client.as_bytes() == b"ann".as_slice()
                && *number == 3
                && digest.as_bytes() == b"ab".as_slice()
                && *epoch == 1
                && *age == 17
                && *place == 7
                && *of == 1
        }
        (3, Step::Tell { site, count }) => site.as_bytes() == b"south".as_slice() && *count == 2,
        (
            4,
            Step::Ask {
                client,
                number,
                changes,
            },
        ) => {
            client.as_bytes() == b"ann".as_slice()
                && *number == 4
                && changes.as_bytes() == b"add:tea:-1 set:till:3".as_slice()
        }
        (5, Step::Settle { count }) => *count == 2,
        (6, Step::Wish(settings)) => are_settings(settings),
        (7, Step::Want(line)) => line.as_bytes() == b"start".as_slice(),
        (8, Step::Leave { site }) => site.as_bytes() == b"south".as_slice(),
        (9, Step::Gone { site, count }) => site.as_bytes() == b"south".as_slice() && *count == 0,
        (
            10,
            Step::Relimit {
                site,
                scope: ScopeWord::Object(object),
                amount,
                answer: LimitAnswer::InForce { place },
            },
        ) => {
            site.as_bytes() == b"south".as_slice()
                && object.as_bytes() == b"tea".as_slice()
                && *amount == 20
                && *place == 7
        }
        (
            11,
            Step::Relimit {
                scope: ScopeWord::All,
                amount,
                answer: LimitAnswer::Refused { number, name },
                ..
            },
        ) => { *amount == 0 && *number == 25 && name.as_bytes() == b"LagOver".as_slice() }
        (12, Step::Elapsed { seconds }) => *seconds == 5,
        (
            13,
            Step::Answered {
                client,
                number,
                digest,
                answer: Answer::Refused {
                    number: refusal,
                    name,
                },
            },
        ) => {
            client.as_bytes() == b"ann".as_slice()
                && *number == 4
                && digest.as_bytes() == b"cd".as_slice()
                && *refusal == 9
                && name.as_bytes() == b"OutOfRange".as_slice()
        }
        _ => false,
    }
}

// shows: read_entry found
#[test]
fn each_kind_of_step_is_read(rt: HostRuntime) {
    let entry = match read_entry(rt.alloc(), WHOLE.as_bytes()) {
        Ok(entry) => entry,
        Err(error) => panic!(&rt; "the whole entry is refused: {error:?}"),
    };
    assert_eq!(&rt; entry.header().epoch, 2);
    assert_eq!(&rt; entry.header().version.as_bytes(), b"0.2.0".as_slice());
    assert_eq!(&rt; entry.header().writer.as_bytes(), b"p1-17".as_slice());
    assert_eq!(&rt; entry.steps().len(), 14);
    for (index, step) in entry.steps().iter().enumerate() {
        assert!(&rt; is_step_at(index, step), "step {index}");
    }
}
