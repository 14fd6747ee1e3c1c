//! Workers that use a `Door` of the test's own, and the calls that a gate gets. A `Door` is the set of calls of a
//! system that a worker uses. Here each seat owns a system.

ghost use Rattle.std.specs.Prelude.{◌≡◌, [], All};

use super::gates::Log;
use super::gates::Reported::{After, Before};
use super::made::{clone_of, ip, numbered};
use smx_run::{SeatedProgram, run_assigned};
use smx_shared::{ApplyFault, Door, Front, System};
use smx_types::{Command, Commands, Entry, Process};
use std::alloc::Global;
use std::mem::forget;
use std::process::Abort;
use std::sync::Wait;
use std::sync::atomic::{AtomicU64, Ordering};

// Counts the calls of its seats.
#[derive(Drop)]
struct OwnDoor {
    calls: AtomicU64,
}

// A system that is not shared.
#[derive(Drop)]
struct OwnSeat {
    process: Process,
    system: System,
}

impl Door for OwnDoor {
    type Seat = OwnSeat;

    ghost use Rattle.smx_shared.specs.Seats.{entries_of};

    ghost is_seat = { λ _ _. Unit {0} };

    ghost known = { λ s. record {
      drivers = s.system.drivers;
      limit = s.system.limit;
      process = s.process;
      seen = s.system.history;
      own = entries_of s.process s.system.history;
    } };

    fn process(seat: &OwnSeat) -> Process {
        seat.process
    }

    fn call<R: Wait>(
        &self,
        _rt: &R,
        _alloc: Global,
        seat: &mut OwnSeat,
        command: &Command,
    ) -> Result<Entry, ApplyFault> {
        self.calls.fetch_add(1, Ordering::SeqCst);
        seat.system.apply(seat.process, command)
    }

    fn glance(&self, seat: &mut OwnSeat) -> Front {
        Front {
            entries: seat.system.entries().len() as u32,
            links: seat.system.config().link_count(),
            held: false,
        }
    }
}

// Returns a process with its seat and its program, which is `clone ip` three times. The seat owns a system that has no
// entry, and has room for only one.
fn job_of(rt: &(impl AllocGlobal + Abort), process: u32) -> SeatedProgram<OwnSeat>
    ensures { result.seat.system.history ≡ [] }
{
    let mut commands = Commands::new(rt.alloc());
    for _ in 0..3 {
        assert!(rt; commands.push(clone_of(rt, "ip")).is_ok());
    }
    let system = System::new(rt.alloc(), &[ip(rt, 4)], 1).expect(rt, "a system");
    let process = numbered(rt, process);
    SeatedProgram {
        seat: OwnSeat { process, system },
        program: commands,
    }
}

// Returns two processes for one worker.
fn assigned(
    rt: &(impl AllocGlobal + Abort),
    earlier: u32,
    later: u32,
) -> Vec<SeatedProgram<OwnSeat>>
    ensures { All (λ j. j.seat.system.history ≡ []) result.items }
{
    let both = vec![in rt.alloc(); job_of(rt, earlier), job_of(rt, later)];
    both.expect(rt, "room")
}

// Returns why a worker with these two processes stops.
fn works<R: AllocGlobal + Abort + Wait>(
    rt: &R,
    door: &OwnDoor,
    earlier: u32,
    later: u32,
    log: &Log,
) -> Option<ApplyFault> {
    run_assigned(rt, rt.alloc(), door, assigned(rt, earlier, later), log).err()
}

// Checks that a worker with these two processes stops when the history of the first is full. The log then has the
// gate's calls for the command that was performed and for the command that failed, and no other calls.
fn stops<R: AllocGlobal + Abort + Wait>(rt: &R, earlier: u32, later: u32) {
    let log = Log::of(rt, 12);
    let door = OwnDoor {
        calls: AtomicU64::new(0),
    };
    assert!(rt; works(rt, &door, earlier, later, &log) == Some(ApplyFault::HistoryFull));
    assert!(rt; door.calls.load(Ordering::SeqCst) == 2);
    let wanted = [
        Before(earlier, 0),
        After(earlier, 0),
        Before(earlier, 1),
        After(earlier, 1),
    ];
    assert!(rt; log.has(&wanted));
    forget(log);
}

#[test]
fn workers_stop_at_full_histories(rt: HostRuntime) {
    stops(&rt, 0, 2);
    stops(&rt, 1, 3);
}
