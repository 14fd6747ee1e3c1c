//! The calls that a gate gets during a run: right before and right after each command of each process.

ghost use Rattle.std.specs.Prelude.{◌≤◌, length};
ghost use Rattle.smx_run.specs.declared.run.TheConstants.{MAX_WORKERS};

use super::gates::Reported::{After, Before};
use super::gates::{Log, Reported};
use super::runs::report_of;
use std::mem::forget;
use std::process::Abort;
use std::sync::Wait;
use std::thread::Threads;

/// Six programs, one of them without a command. Those of processes 0 and 2 have a command that is refused.
pub const SIX: &[u8] = b"programs 1
driver ip mux 4 8 3 16
process 0
clone ip
clone eth
process 1
process 2
close 3
process 3
clone ip
clone ip
close 0
process 4
clone ip
exit
process 5
clone ip
dup 0
close 1
close 0
exit
end
";

/// The calls that a gate gets during a run of `SIX` on one worker.
pub const IN_TURN: [Reported; 26] = [
    Before(0, 0),
    After(0, 0),
    Before(0, 1),
    After(0, 1),
    Before(2, 0),
    After(2, 0),
    Before(3, 0),
    After(3, 0),
    Before(3, 1),
    After(3, 1),
    Before(3, 2),
    After(3, 2),
    Before(4, 0),
    After(4, 0),
    Before(4, 1),
    After(4, 1),
    Before(5, 0),
    After(5, 0),
    Before(5, 1),
    After(5, 1),
    Before(5, 2),
    After(5, 2),
    Before(5, 3),
    After(5, 3),
    Before(5, 4),
    After(5, 4),
];

// The calls that each of three workers makes. The first worker runs processes 0 and 3, the second 1 and 4, and the
// third 2 and 5.
const BY_EACH: [&[Reported]; 3] = [
    &[
        Before(0, 0),
        After(0, 0),
        Before(0, 1),
        After(0, 1),
        Before(3, 0),
        After(3, 0),
        Before(3, 1),
        After(3, 1),
        Before(3, 2),
        After(3, 2),
    ],
    &[Before(4, 0), After(4, 0), Before(4, 1), After(4, 1)],
    &[
        Before(2, 0),
        After(2, 0),
        Before(5, 0),
        After(5, 0),
        Before(5, 1),
        After(5, 1),
        Before(5, 2),
        After(5, 2),
        Before(5, 3),
        After(5, 3),
        Before(5, 4),
        After(5, 4),
    ],
];

// Runs `SIX`, with one worker for each part and a log as the gate. Checks that each worker calls the gate exactly as
// its part says.
fn tells<R: AllocGlobal + Abort + Threads + Wait + Sync>(rt: &R, parts: &[&[Reported]])
    requires { (1 ≤ length parts.now) × (length parts.now ≤ MAX_WORKERS) }
{
    let log = Log::of(rt, 40);
    forget(report_of(rt, SIX, parts.len(), &log));
    for (worker, part) in parts.iter().enumerate() {
        assert!(rt; log.has_reports(worker as u32, parts.len() as u32, part));
    }
    forget(log);
}

#[test]
fn each_worker_tells_of_its_commands_in_turn(rt: HostRuntime) {
    tells(&rt, &[&IN_TURN]);
    tells(&rt, &BY_EACH);
}
