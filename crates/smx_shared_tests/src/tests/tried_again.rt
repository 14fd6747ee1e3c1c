//! Worked histories, calls of two seats, and a run. These tests also pass if any single allocation fails.
//! tests/refused_growths runs them many times, and each time another allocation fails.

ghost use Rattle.std.specs.Prelude.{◌≡◌, All};

use super::callers::{closes_with, last_two, opens, start};
use super::hangups::END_OF_FILE;
use super::made::{clone_of, front, ip, system_over, tells_of_want};
use super::worked::is_judged;
use smx_config::Verdict;
use smx_run::{NoGate, RunFault, run_programs};
use smx_shared::{Door, Seat, Shared};
use smx_text::read_programs;
use smx_types::{Command, Entry, Programs};
use std::mem::forget;
use std::process::Abort;
use std::sync::Wait;
use std::thread::Threads;

// Four worked histories: full queues on both sides of a link, three causes for dropping messages, deliveries, and a
// device that hangs up.
const WORKED: [&[u8]; 4] = [
    b"transcript 1
driver ip mux 4 8 3 16
driver eth leaf 2 8 3 16
0 clone ip = fd 0 0
0 clone eth = fd 1 0
0 link 0 1 = id 1
0 route 0 5 1 = done
0 write 0 5 00000001 = took 1
0 write 0 5 00000002 = took 2
0 write 0 5 00000003 = took 3
0 write 0 5 00000004 = took 4
0 write 0 5 00000005 = EAGAIN full
0 transmit eth 0 = got 1 5 00000001
0 write 0 5 00000005 = EAGAIN full
0 transmit eth 0 = got 2 5 00000002
0 write 0 5 00000005 = took 5
config
next 2 6
fd 0 0 ip 0
fd 0 1 eth 0
link 1 ip 0 eth 0 link
route ip 5 1
msg ip 0 w 5 5 00000005
msg eth 0 w 3 5 00000003
msg eth 0 w 4 5 00000004
full eth 0 w
end
",
    b"transcript 1
driver ip mux 4 8 3 16
driver eth leaf 2 8 3 16
0 clone ip = fd 0 0
0 clone eth = fd 1 0
0 link 0 1 = id 1
0 route 0 5 1 = done
0 write 0 5 aa = took 1
0 inject eth 0 9 bb = took 2
0 unlink 0 1 = done 2
0 write 0 5 cc = took 3
0 close 1 = done 1
0 close 0 = done 3
config
next 2 4
end
",
    b"transcript 1
driver ip mux 4 8 3 16
driver eth leaf 2 8 3 16
0 clone eth = fd 0 0
0 inject eth 0 9 aabb = took 1
0 read 0 = got 1 9 aabb
0 read 0 = EAGAIN empty
0 write 0 5 cc = took 2
0 transmit eth 0 = got 2 5 cc
0 exit = done
config
next 1 3
end
",
    END_OF_FILE,
];

#[test]
fn worked_histories(rt: HostRuntime) {
    for text in &WORKED {
        is_judged(&rt, *text, Verdict::Legal);
    }
}

// Returns a system over `ip`, with a limit of ten entries, shared by two processes. Tries again if memory ran out.
fn shared_by_two(rt: &(impl AllocGlobal + Abort)) -> (Shared, Vec<Seat>)
    ensures { All (λ s. s.shared ≡ result.0.name) result.1.items }
{
    match start(rt, system_over(rt, &[ip(rt, 4)], 10), 2) {
        Ok(both) => both,
        Err(_) => start(rt, system_over(rt, &[ip(rt, 4)], 10), 2).expect(rt, "a start"),
    }
}

// Performs a command by `call`. If memory runs out, checks that the other seat sees no entry, and calls again.
fn called(
    rt: &(impl AllocGlobal + Abort + Print + Wait),
    shared: &Shared,
    seat: &mut Seat,
    other: &mut Seat,
    command: &Command,
) -> Entry
    requires { (seat.old.shared ≡ shared.now.name) × (other.old.shared ≡ shared.now.name) }
    ensures { (seat.new.shared ≡ shared.now.name) × (other.new.shared ≡ shared.now.name) }
{
    match shared.call(rt, rt.alloc(), seat, command) {
        Ok(entry) => entry,
        Err(_) => {
            tells_of_want(rt, "a call");
            assert!(rt; shared.glance(other) == front(0, 0, false));
            let again = shared.call(rt, rt.alloc(), seat, command);
            again.expect(rt, "an answer")
        }
    }
}

// Performs a command by `try_call`. If memory runs out, checks that the other seat sees only one entry, and tries
// again.
fn tried(
    rt: &(impl AllocGlobal + Abort + Print),
    shared: &Shared,
    seat: &mut Seat,
    other: &mut Seat,
    command: &Command,
) -> Entry
    requires { (seat.old.shared ≡ shared.now.name) × (other.old.shared ≡ shared.now.name) }
    ensures { (seat.new.shared ≡ shared.now.name) × (other.new.shared ≡ shared.now.name) }
{
    match shared.try_call(rt.alloc(), seat, command) {
        Ok(entry) => entry,
        Err(_) => {
            tells_of_want(rt, "a call");
            assert!(rt; shared.glance(other) == front(1, 0, false));
            let again = shared.try_call(rt.alloc(), seat, command);
            again.expect(rt, "an answer")
        }
    }
}

// Calls with the first seat, and then tries with the second. Returns the first seat.
fn both_call(
    rt: &(impl AllocGlobal + Abort + Print + Wait),
    shared: &Shared,
    seats: Vec<Seat>,
) -> Seat
    requires { All (λ s. s.shared ≡ shared.now.name) seats.items }
    ensures { result.shared ≡ shared.now.name }
{
    let command = clone_of(rt, "ip");
    let (mut zero, mut one) = last_two(rt, shared, seats);
    let first = called(rt, shared, &mut zero, &mut one, &command);
    let second = tried(rt, shared, &mut one, &mut zero, &command);
    assert!(rt; opens(&first, 0));
    assert!(rt; opens(&second, 1));
    forget((first, second));
    zero
}

#[test]
fn calls_of_two_seats(rt: HostRuntime) {
    let (shared, seats) = shared_by_two(&rt);
    let zero = both_call(&rt, &shared, seats);
    closes_with(&rt, shared, zero, 2);
}

const TWO: &[u8] = b"programs 1
driver ip mux 4 8 3 16
process 0
clone ip
write 0 5 aa
exit
process 1
clone ip
exit
end
";

// Reads the two programs. Tries again if memory ran out.
fn two_programs(rt: &(impl AllocGlobal + Abort)) -> Programs {
    match read_programs(rt.alloc(), TWO) {
        Ok(programs) => programs,
        Err(_) => read_programs(rt.alloc(), TWO).expect(rt, "programs"),
    }
}

// Returns the number of entries of a run of the two programs on two workers.
fn entries_by_two<R: AllocGlobal + Abort + Threads + Wait + Sync>(
    rt: &R,
) -> Result<usize, RunFault> {
    let report = run_programs(rt, rt.alloc(), two_programs(rt), 2, &NoGate)?;
    let count = report.entries.as_slice().len();
    forget(report);
    Ok(count)
}

// If memory ran out, or a worker could not be started, the programs are run again. No other fault occurs.
#[test]
fn a_run_on_two_workers(rt: HostRuntime) {
    let mut entries = entries_by_two(&rt);
    if entries == Err(RunFault::NoMemory) || entries == Err(RunFault::NoThread) {
        tells_of_want(&rt, "a run");
        entries = entries_by_two(&rt);
    }
    assert!(rt; entries == Ok(5));
}
