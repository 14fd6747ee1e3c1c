//! Two seats of a shared system, on one thread. They call, try (a call that fails if another seat has the turn), look,
//! and meet (one seat takes over what the other knew), until the history is full. A `Hold` is called exactly once, even
//! if the command or the call is refused.

ghost use Rattle.std.specs.Prelude.{◌≡◌, All};

use super::callers::{closes_with, last_two, opens, start};
use super::made::{clone_of, front, read, system_over};
use smx_shared::{ApplyFault, Door, Hold, Seat, Shared, TryFault};
use smx_types::{Command, Entry, Fault, Reply};
use std::mem::forget;
use std::process::Abort;
use std::sync::Wait;
use std::sync::atomic::{AtomicU64, Ordering};

// A `Hold` that counts its calls.
#[derive(Drop)]
struct Count {
    calls: AtomicU64,
}

impl Hold for Count {
    fn inside(&self) {
        self.calls.fetch_add(1, Ordering::SeqCst);
    }
}

// Returns the answer of a call. Checks that it called its `Hold` once.
fn held_once<R: AllocGlobal + Abort + Wait>(
    rt: &R,
    shared: &Shared,
    seat: &mut Seat,
    command: &Command,
) -> Result<Entry, ApplyFault>
    requires { seat.old.shared ≡ shared.now.name }
    ensures { seat.new.shared ≡ shared.now.name }
{
    let count = Count {
        calls: AtomicU64::new(0),
    };
    let answer = shared.call_holding(rt, rt.alloc(), seat, command, &count);
    assert!(rt; count.calls.load(Ordering::SeqCst) == 1);
    answer
}

// Checks that a call gets this reply, and calls its `Hold` once.
fn gets<R: AllocGlobal + Abort + Wait>(
    rt: &R,
    shared: &Shared,
    seat: &mut Seat,
    command: &Command,
    reply: &Reply,
)
    requires { seat.old.shared ≡ shared.now.name }
    ensures { seat.new.shared ≡ shared.now.name }
{
    let entry = held_once(rt, shared, seat, command).expect(rt, "an answer");
    assert!(rt; entry.reply == *reply);
    forget(entry);
}

// Performs a command that is moved into the call.
fn performs<R: AllocGlobal + Abort + Wait>(
    rt: &R,
    shared: &Shared,
    seat: &mut Seat,
    command: Command,
)
    requires { seat.old.shared ≡ shared.now.name }
    ensures { seat.new.shared ≡ shared.now.name }
{
    let mut command = command;
    assert!(rt; shared.perform(rt, rt.alloc(), seat, &mut command).is_ok());
}

// Opens two streams and links them; then a command is refused.
fn links<R: AllocGlobal + Abort + Wait>(rt: &R, shared: &Shared, seat: &mut Seat)
    requires { seat.old.shared ≡ shared.now.name }
    ensures { seat.new.shared ≡ shared.now.name }
{
    performs(rt, shared, seat, clone_of(rt, "ip"));
    performs(rt, shared, seat, clone_of(rt, "eth"));
    let link = Command::Link { fd: 0, arg: 1 };
    gets(rt, shared, seat, &link, &Reply::Id(1));
    let close = Command::Close { fd: 7 };
    let refused = Reply::Fault(Fault::BadDescriptor);
    gets(rt, shared, seat, &close, &refused);
}

// The other seat looks, and its try gets the stream with minor 1.
fn tries(rt: &(impl AllocGlobal + Abort), shared: &Shared, seat: &mut Seat)
    requires { seat.old.shared ≡ shared.now.name }
    ensures { seat.new.shared ≡ shared.now.name }
{
    assert!(rt; shared.glance(seat) == front(4, 1, false));
    let answer = shared.try_call(rt.alloc(), seat, &clone_of(rt, "ip"));
    let entry = answer.expect(rt, "an answer");
    assert!(rt; opens(&entry, 1));
    forget(entry);
}

// Checks that a call, a try and a `perform` are refused, since the history is full, and that nothing is added.
fn is_full<R: AllocGlobal + Abort + Wait>(rt: &R, shared: &Shared, seat: &mut Seat)
    requires { seat.old.shared ≡ shared.now.name }
    ensures { seat.new.shared ≡ shared.now.name }
{
    let exit = Command::CloseAll;
    let fault = held_once(rt, shared, seat, &exit).err();
    assert!(rt; fault == Some(ApplyFault::HistoryFull));
    let fault = shared.try_call(rt.alloc(), seat, &exit).err();
    assert!(rt; fault == Some(TryFault::HistoryFull));
    let mut exit = exit;
    let fault = shared.perform(rt, rt.alloc(), seat, &mut exit).err();
    assert!(rt; fault == Some(ApplyFault::HistoryFull));
    assert!(rt; exit == Command::CloseAll);
    assert!(rt; shared.glance(seat) == front(5, 1, false));
}

// Returns the second of two seats, which has met the first.
fn two_meet<R: AllocGlobal + Abort + Wait>(rt: &R, shared: &Shared, seats: Vec<Seat>) -> Seat
    requires { All (λ s. s.shared ≡ shared.now.name) seats.items }
    ensures { result.shared ≡ shared.now.name }
{
    let (mut zero, mut one) = last_two(rt, shared, seats);
    links(rt, shared, &mut zero);
    tries(rt, shared, &mut one);
    shared.meet(&mut one, zero);
    is_full(rt, shared, &mut one);
    one
}

const NOTHING_OPEN: &[u8] = b"transcript 1
driver ip mux 4 8 3 16
driver eth leaf 2 8 3 16
config
next 1 1
end
";

#[test]
fn two_seats_call_try_look_and_meet(rt: HostRuntime) {
    let want = read(&rt, NOTHING_OPEN);
    let system = system_over(&rt, want.drivers.as_slice(), 5);
    forget(want);
    let (shared, seats) = start(&rt, system, 2).expect(&rt, "a start");
    let one = two_meet(&rt, &shared, seats);
    closes_with(&rt, shared, one, 5);
}
