//! Runs with the fronts that processes see at their end (how many entries and links there are). Also a run whose four
//! processes wait until all have begun.

ghost use Rattle.std.specs.Prelude.{◌≤◌};
ghost use Rattle.smx_run.specs.declared.run.TheConstants.{MAX_WORKERS};

use super::gates::{FourInside, OneByOne};
use super::made::front;
use smx_run::{Gate, NoGate, Report, run_programs};
use smx_shared::Front;
use smx_text::read_programs;
use std::mem::forget;
use std::process::Abort;
use std::sync::Wait;
use std::thread::Threads;

/// Returns the report of a run of the programs in this text, with this gate.
pub fn report_of<R: AllocGlobal + Abort + Threads + Wait + Sync, G: Gate + Sync>(
    rt: &R,
    text: &[u8],
    workers: usize,
    gate: &G,
) -> Report
    requires { (1 ≤ workers) × (workers ≤ MAX_WORKERS) }
{
    let programs = read_programs(rt.alloc(), text).expect(rt, "programs");
    run_programs(rt, rt.alloc(), programs, workers, gate).expect(rt, "a report")
}

const THREE_PROGRAMS: &[u8] = b"programs 1
driver ip mux 4 8 3 16
process 0
clone ip
clone ip
process 1
process 2
clone ip
end
";

// Five processes that each open two streams, and link one below the other.
const FIVE_LINKS: &[u8] = b"programs 1
driver ip mux 64 8 3 16
driver eth leaf 64 8 3 16
process 0
clone ip
clone eth
link 0 1
process 1
clone ip
clone eth
link 0 1
process 2
clone ip
clone eth
link 0 1
process 3
clone ip
clone eth
link 0 1
process 4
clone ip
clone eth
link 0 1
end
";

// Runs the programs on this number of workers. Checks that the report has a front for each of `processes` processes,
// and that the first three fronts are `first`.
fn begins_with<R: AllocGlobal + Abort + Threads + Wait + Sync, G: Gate + Sync>(
    rt: &R,
    text: &[u8],
    workers: usize,
    gate: &G,
    processes: usize,
    first: [Front; 3],
)
    requires { (1 ≤ workers) × (workers ≤ MAX_WORKERS) }
{
    let report = report_of(rt, text, workers, gate);
    assert_eq!(rt; report.fronts.as_slice().len(), processes);
    assert!(rt; report.fronts.as_slice().starts_with(&first));
    forget(report);
}

// Runs on one worker, and on two workers with five processes that go on one by one. Each of the first three fronts is
// seen before any command of a later process is performed.
#[test]
fn a_front_is_seen_before_the_next_program_of_its_worker(rt: HostRuntime) {
    let first = [front(2, 0, false), front(2, 0, false), front(3, 0, false)];
    begins_with(&rt, THREE_PROGRAMS, 1, &NoGate, 3, first);
    let first = [front(3, 1, false), front(6, 2, false), front(9, 3, false)];
    begins_with(&rt, FIVE_LINKS, 2, &OneByOne::new(), 5, first);
}

const FOUR: &[u8] = b"programs 1
driver ip mux 4 8 3 16
driver eth leaf 2 8 3 16
process 0
clone ip
exit
process 1
clone ip
exit
process 2
clone ip
exit
process 3
clone ip
exit
end
";

#[test]
fn four_workers_are_inside_at_once(rt: HostRuntime) {
    let gate = FourInside::new();
    let report = report_of(&rt, FOUR, 4, &gate);
    assert!(rt; gate.met() == 4);
    assert_eq!(rt; report.entries.as_slice().len(), 8);
    forget(report);
}
