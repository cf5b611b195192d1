//! Each growth refused in turn: a script writes a prefix of its answers, and it and a plan end in `NoMemory`.
use ordup_script::{PlanFault, ScriptFault, read_plan, run_script};
use std::alloc::{AllocError, Global};
use std::process::Abort;
use std::test::Fail;
use test_fixtures::expect;
use test_fixtures::readers::PieceReader;
use test_fixtures::transcripts::{FIRST_RUN, parts};
use test_memory_fixtures::Scarce;

/// A shop and a depot: goods in a group, rounds of each, a swap, and queries that end and are given up.
const SHOP: &str = "\
> # tea, rice and salt, in bags
> object tea 40
ok object tea
> object rice 20
ok object rice
> object salt 5
ok object salt
> group dry rice salt
ok group dry
> site shop 4
ok site shop
> site depot 4
ok site depot
> limit shop object tea 6
ok limit shop
> limit shop count 9
ok limit shop
> limit depot group dry 10
ok limit depot
> limit depot all 100
ok limit depot
> start
ok start
> propose add:tea:-5 add:rice:-4
ok proposed 1
> settle
ok acked 1
> propose mul:salt:2 max:tea:37
ok proposed 2
> settle
ok round 2 shop
> begin audit shop 20
ok begun audit 1
> read audit tea
ok read audit tea value 40 import 5 total 5
> send shop
ok sent shop 1
> send shop
ok sent shop 2
> apply shop
ok applied shop 1
> apply shop
ok applied shop 2
> read audit tea
ok read audit tea value 37 import 2 total 7
> read audit rice
ok read audit rice value 16 import 0 total 7
> end audit
ok end audit place 1 sum 93 total 7 reads 3
> settle
ok waiting 2 shop
> report shop
ok reported shop 2
> settle
ok acked 2
> propose add:tea:1 add:tea:2
refused 12 Repeated
> propose take:rice:salt take:salt:rice
ok proposed 3
> settle
ok round 3 depot
> send depot
ok sent depot 1
> send depot
ok sent depot 2
> send depot
ok sent depot 3
> apply depot
ok applied depot 1
> apply depot
ok applied depot 2
> apply depot
ok applied depot 3
> report depot
ok reported depot 3
> settle
ok acked 3
> begin early depot 0
ok begun early 3
> read early salt
ok read early salt value 16 import 0 total 0
> abandon early
ok abandoned early
> show shop
ok show shop sent 2 applied 2 reported 2 rounds 1 tea=37 rice=16 salt=10
> show depot
ok show depot sent 3 applied 3 reported 3 rounds 1 tea=37 rice=10 salt=16
";

/// Runs a script that is read in pieces with this count of allocations: why it did not end, if it did not.
fn run_with(
    alloc: Global,
    script: &[u8],
    at_once: usize,
    allocations: u64,
    output: &mut Vec<u8>,
) -> Option<ScriptFault> {
    let scarce = Scarce::new(alloc, allocations);
    let mut input = PieceReader::new(script, at_once, usize::MAX);
    run_script(&scarce, &mut input, output).err()
}

/// How many growths the script of a transcript meets, which is read in pieces: each of them is refused in turn, and a prefix of its
/// answers is written then. How much of them was written at most.
fn growths_of(
    rt: &(impl Abort + AllocGlobal),
    transcript: &str,
    at_once: usize,
) -> Result<(u64, usize), AllocError> {
    let (script, answers) = parts(rt.alloc(), transcript)?;
    let mut most_written = 0;
    for allocations in 0..400u64 {
        let mut output: Vec<u8> = Vec::new(rt.alloc());
        let Some(fault) = run_with(rt.alloc(), &script, at_once, allocations, &mut output) else {
            expect!(rt; output.as_slice() == answers.as_slice());
            return Ok((allocations, most_written));
        };
        expect!(rt; fault == ScriptFault::NoMemory, allocations);
        expect!(rt; answers.starts_with(&output), allocations);
        most_written = most_written.max(output.len());
    }
    panic!(rt; "the script did not end")
}

/// Refuses each growth of two scripts in turn.
// shows: run_script Runs.NoMemory; want of memory
#[test]
fn a_script_with_each_growth_refused(rt: HostRuntime) -> Result<(), Fail> {
    let (growths, most_written) = growths_of(&rt, SHOP, 7)?;
    expect!(&rt; growths >= 20 && most_written > 0, growths);
    // Read whole, it writes nothing before its last line is answered.
    let (growths, most_written) = growths_of(&rt, FIRST_RUN, 64)?;
    expect!(&rt; growths >= 20 && most_written == 0, growths);
    Ok(())
}

const PLAN: &[u8] = b"object tea 40
object rice 20
group dry rice
site shop 4
limit shop group dry 6
start
propose add:tea:-5
propose set:rice:7 take:tea:rice
propose mul:tea:2
";

/// Reads the plan with this count of allocations: how many sets it has.
fn read_with(alloc: Global, allocations: u64) -> Result<usize, PlanFault> {
    let scarce = Scarce::new(alloc, allocations);
    let plan = read_plan(&scarce, &mut PieceReader::new(PLAN, 7, usize::MAX))?;
    let sets = plan.sets.len();
    // Dropped by a call, which is proved once for all tests: docs/DECISIONS.md, Tests.
    drop(plan);
    Ok(sets)
}

/// Refuses each growth of a plan in turn.
// shows: want of memory
#[test]
fn a_plan_with_each_growth_refused(rt: HostRuntime) {
    for allocations in 0..200u64 {
        let outcome = read_with(rt.alloc(), allocations);
        if outcome == Ok(3) {
            expect!(&rt; allocations >= 10, allocations);
            return;
        }
        expect!(&rt; outcome == Err(PlanFault::NoMemory), allocations);
    }
    panic!(rt; "the plan was not read");
}
