//! Names, and the numbers and names of refusals.
use ordup_objects::{Name, Refusal, SiteId};
use std::test::Fail;
use test_fixtures::{expect, expect_eq};

/// Makes names at the edges of their bytes and lengths.
// shows: Name::new name ok err
#[test]
fn which_bytes_are_a_name(rt: HostRuntime) {
    for name in ["a", "a_9", "z0_", "abcdefghijklmnop"] {
        expect!(&rt; Name::new(name.as_bytes()).is_ok(), name);
    }
    for name in [
        // 17 bytes.
        "abcdefghijklmnopq",
        "",
        "9x",
        "_x",
        "Q",
        "aQ",
        "a-b",
        "a b",
        "a{",
        "a`",
    ] {
        expect!(&rt; Name::new(name.as_bytes()).is_err(), name);
    }
}

/// Those that no script shows: each prints its name, and then its field.
// shows: Refusal::number
#[test]
fn numbers_names_and_texts_of_refusals(rt: HostRuntime) -> Result<(), Fail> {
    let site = SiteId::new(3);
    for (refusal, number, name, text) in [
        (Refusal::LogFull, 13, "LogFull", "LogFull"),
        (Refusal::Behind { applied: 5 }, 21, "Behind", "Behind 5"),
        (
            Refusal::NotYet { number: 1_000_000 },
            22,
            "NotYet",
            "NotYet 1000000",
        ),
        (Refusal::Stopped, 23, "Stopped", "Stopped"),
        (Refusal::HeadPending, 24, "HeadPending", "HeadPending"),
        (Refusal::LagOver, 25, "LagOver", "LagOver"),
        (Refusal::NoMemory, 26, "NoMemory", "NoMemory"),
        (Refusal::Mixed { site }, 27, "Mixed", "Mixed 3"),
    ] {
        expect_eq!(&rt; refusal.number(), number);
        expect_eq!(&rt; refusal.name(), name);
        expect_eq!(&rt; refusal.to_string(rt.alloc())?.as_str(), text);
    }
    Ok(())
}
