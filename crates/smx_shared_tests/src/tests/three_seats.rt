//! Three seats, each on its own thread. Two seats look while the third has the turn, and one of the two also tries to
//! call. Then the seats meet (one takes over what the others knew), and a report of the system is gathered. In another
//! test, a seat meets a seat that has called on its own thread.

ghost use Rattle.std.specs.Prelude.{◌≡◌, All};

use super::callers::{last_of, last_two, opens, start};
use super::gates::is_reached;
use super::gathered::{OPENED, are_reported, are_strange};
use super::made::{clone_of, front, ip, read, system_over};
use smx_shared::{Door, Hold, Seat, Shared, TryFault};
use smx_types::Entry;
use std::mem::forget;
use std::process::Abort;
use std::sync::Wait;
use std::sync::atomic::{AtomicU64, Ordering};
use std::thread::{Threads, join};

// Whether the turn is held, and how many looks and tries have seen it held. The turn is given back when the sum of
// these looks and tries is three.
#[derive(Drop)]
struct Watched {
    held: AtomicU64,
    seen: AtomicU64,
}

impl Hold for Watched {
    fn inside(&self) {
        self.held.fetch_add(1, Ordering::SeqCst);
        is_reached(&self.seen, 3);
    }
}

// Calls, and keeps the turn until it was seen held three times. Checks that the call gets the stream with minor 1.
fn holds<R: AllocGlobal + Abort + Wait>(
    rt: &R,
    shared: &Shared,
    mut seat: Seat,
    watched: &Watched,
) -> Seat
    requires { seat.shared ≡ shared.now.name }
    ensures { result.shared ≡ shared.now.name }
{
    let ip = clone_of(rt, "ip");
    let answer = shared.call_holding(rt, rt.alloc(), &mut seat, &ip, watched);
    let entry = answer.expect(rt, "an answer");
    assert!(rt; opens(&entry, 1));
    forget(entry);
    seat
}

// Checks that a look sees the turn held, after one entry.
fn sees_it_held(rt: &impl Abort, shared: &Shared, mut seat: Seat, watched: &Watched) -> Seat
    requires { seat.shared ≡ shared.now.name }
    ensures { result.shared ≡ shared.now.name }
{
    assert!(rt; is_reached(&watched.held, 1));
    assert!(rt; shared.glance(&mut seat) == front(1, 0, true));
    watched.seen.fetch_add(1, Ordering::SeqCst);
    seat
}

// Checks that a look, and then a try, sees the turn held, after one entry.
fn tries_while_held(
    rt: &(impl AllocGlobal + Abort),
    shared: &Shared,
    seat: Seat,
    watched: &Watched,
) -> Seat
    requires { seat.shared ≡ shared.now.name }
    ensures { result.shared ≡ shared.now.name }
{
    let mut seat = sees_it_held(rt, shared, seat, watched);
    let fault = shared.try_call(rt.alloc(), &mut seat, &clone_of(rt, "ip"));
    assert!(rt; fault.err() == Some(TryFault::Busy(front(1, 0, true))));
    watched.seen.fetch_add(1, Ordering::SeqCst);
    seat
}

// Returns the first two seats. Both have seen by a look that the turn is held. The second has also seen it by a try.
fn two_look_on<R: AllocGlobal + Abort + Threads + Sync>(
    rt: &R,
    shared: &Shared,
    zero: Seat,
    one: Seat,
    watched: &Watched,
) -> (Seat, Seat)
    requires { (zero.shared ≡ shared.now.name) × (one.shared ≡ shared.now.name) }
    ensures { (result.0.shared ≡ shared.now.name) × (result.1.shared ≡ shared.now.name) }
{
    join(
        rt,
        || -> Seat
            requires { zero.shared ≡ shared.now.name }
            ensures { result.shared ≡ shared.entry.now.name }
        { sees_it_held(rt, shared, zero, watched) },
        || -> Seat
            requires { one.shared ≡ shared.now.name }
            ensures { result.shared ≡ shared.entry.now.name }
        { tries_while_held(rt, shared, one, watched) },
    )
}

// Returns the three seats. The third has held the turn, and the first two have seen it held.
fn three_on_threads<R: AllocGlobal + Abort + Threads + Wait + Sync>(
    rt: &R,
    shared: &Shared,
    zero: Seat,
    one: Seat,
    two: Seat,
) -> ((Seat, Seat), Seat)
    requires others { (zero.shared ≡ shared.now.name) × (one.shared ≡ shared.now.name) }
    requires last { two.shared ≡ shared.now.name }
    ensures others { (result.0.0.shared ≡ shared.now.name) × (result.0.1.shared ≡ shared.now.name) }
    ensures last { result.1.shared ≡ shared.now.name }
{
    let watched = Watched {
        held: AtomicU64::new(0),
        seen: AtomicU64::new(0),
    };
    let watch = &watched;
    join(
        rt,
        || -> (Seat, Seat)
            requires { (zero.shared ≡ shared.now.name) × (one.shared ≡ shared.now.name) }
            ensures { (result.0.shared ≡ shared.entry.now.name) × (result.1.shared ≡ shared.entry.now.name) }
        { two_look_on(rt, shared, zero, one, watch) },
        || -> Seat
            requires { two.shared ≡ shared.now.name }
            ensures { result.shared ≡ shared.entry.now.name }
        { holds(rt, shared, two, watch) },
    )
}

// The first seat calls. The first and the second see the third hold the turn. The second tries again, without a look
// before. The first looks, and meets the others.
fn three_meet<R: AllocGlobal + Abort + Threads + Wait + Sync>(
    rt: &R,
    shared: &Shared,
    mut seats: Vec<Seat>,
) -> Seat
    requires { All (λ s. s.shared ≡ shared.now.name) seats.items }
    ensures { result.shared ≡ shared.now.name }
{
    let ip = clone_of(rt, "ip");
    let two = last_of(rt, shared, &mut seats);
    let (mut zero, mut one) = last_two(rt, shared, seats);
    let first = shared.call(rt, rt.alloc(), &mut zero, &ip);
    assert!(rt; opens(&first.expect(rt, "an answer"), 0));
    assert!(rt; shared.glance(&mut one) == front(1, 0, false));
    let ((mut zero, mut one), two) = three_on_threads(rt, shared, zero, one, two);
    let third = shared.try_call(rt.alloc(), &mut one, &ip);
    assert!(rt; opens(&third.expect(rt, "an answer"), 2));
    assert!(rt; shared.glance(&mut zero) == front(3, 0, false));
    shared.meet(&mut zero, one);
    shared.meet(&mut zero, two);
    zero
}

// Checks that the entries are of these processes, in this order.
fn are_of(rt: &impl Abort, entries: &[Entry], processes: [u32; 3]) {
    assert_eq!(rt; entries.len(), 3);
    for number in 0..3 {
        assert_eq!(rt; entries[number].process.get(), processes[number]);
    }
}

#[test]
fn two_see_the_third_hold_the_turn(rt: HostRuntime) {
    let system = system_over(&rt, &[ip(&rt, 4)], 10);
    let (shared, seats) = start(&rt, system, 3).expect(&rt, "a start");
    let zero = three_meet(&rt, &shared, seats);
    let system = shared.close(zero).expect(&rt, "nobody has the turn");
    are_of(&rt, system.entries(), [0, 2, 1]);
    let want = read(&rt, OPENED);
    are_reported(&rt, &system, &want);
    are_strange(&rt, &system);
    forget(want);
    forget(system);
}

// Calls, and gets the stream with this minor.
fn gets<R: AllocGlobal + Abort + Wait>(rt: &R, shared: &Shared, seat: &mut Seat, minor: u32)
    requires { seat.old.shared ≡ shared.now.name }
    ensures { seat.new.shared ≡ shared.now.name }
{
    let answer = shared.call(rt, rt.alloc(), seat, &clone_of(rt, "ip"));
    let entry = answer.expect(rt, "an answer");
    assert!(rt; opens(&entry, minor));
    forget(entry);
}

// Calls, gets the stream with this minor, and returns the seat.
fn gets_and_ends<R: AllocGlobal + Abort + Wait>(
    rt: &R,
    shared: &Shared,
    mut seat: Seat,
    minor: u32,
) -> Seat
    requires { seat.shared ≡ shared.now.name }
    ensures { result.shared ≡ shared.now.name }
{
    gets(rt, shared, &mut seat, minor);
    seat
}

// The first seat calls. The third seat calls on its own thread and comes back. The second seat meets the third, and
// calls.
fn second_meets_third<R: AllocGlobal + Abort + Threads + Wait + Sync>(
    rt: &R,
    shared: &Shared,
    mut seats: Vec<Seat>,
) -> Seat
    requires { All (λ s. s.shared ≡ shared.now.name) seats.items }
    ensures { result.shared ≡ shared.now.name }
{
    let two = last_of(rt, shared, &mut seats);
    let (mut zero, mut one) = last_two(rt, shared, seats);
    gets(rt, shared, &mut zero, 0);
    let (two, ()) = join(
        rt,
        || -> Seat
            requires { two.shared ≡ shared.now.name }
            ensures { result.shared ≡ shared.entry.now.name }
        { gets_and_ends(rt, shared, two, 1) },
        || (),
    );
    shared.meet(&mut one, two);
    gets(rt, shared, &mut one, 2);
    one
}

#[test]
fn a_seat_meets_one_that_called_on_a_thread(rt: HostRuntime) {
    let system = system_over(&rt, &[ip(&rt, 4)], 10);
    let (shared, seats) = start(&rt, system, 3).expect(&rt, "a start");
    let one = second_meets_third(&rt, &shared, seats);
    let system = shared.close(one).expect(&rt, "nobody has the turn");
    are_of(&rt, system.entries(), [0, 2, 1]);
    forget(system);
}
