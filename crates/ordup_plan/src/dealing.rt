ghost use Rattle.std.specs.Prelude.{◌≡◌, ◌<◌, IfOk, sum_by, vec_len};
ghost use Rattle.ordup_plan.specs.Dealing.{AreDealt};

use ordup_objects::MessageSet;
use std::alloc::{AllocError, Global};

// promise dealt all: set i is dealt to caller (i-1) mod CALLERS + 1, in order
/// Deals sets to callers as cards are dealt: one to each caller in turn, and then again from the first caller on.
pub(crate) fn deal(
    alloc: Global,
    sets: Vec<MessageSet>,
    callers: u8,
) -> Result<Vec<Vec<MessageSet>>, AllocError>
    requires { 0 < callers }
    ensures dealt { IfOk result (λ hands. AreDealt callers sets.items hands.items) }
    ensures all { IfOk result (λ hands. sum_by vec_len hands.items ≡ vec_len sets) }
{
    let mut hands = Vec::new(alloc);
    for _ in 0..callers {
        hands.push(Vec::new(alloc))?;
    }
    let mut turn = 0;
    for set in sets {
        hands[turn].push(set)?;
        turn += 1;
        if turn == hands.len() {
            turn = 0;
        }
    }
    Ok(hands)
}
