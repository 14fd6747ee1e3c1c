//! Steps of callers that share a system, used in several tests.

ghost use Rattle.std.specs.Prelude.{◌≡◌, ◌≤◌, All, IfOk};
ghost use Rattle.smx_types.specs.declared.limits.TheConstants.{MAX_PROCESSES};

use smx_shared::{Seat, Shared, System};
use smx_types::{Entry, NoMemory, Reply};
use std::mem::forget;
use std::process::Abort;

/// Shares the system among this number of processes, and returns a seat for each.
#[tactic(auto, using(crate::proofs::SeatLemmas::are_of))]
pub fn start(
    rt: &impl AllocGlobal,
    system: System,
    processes: usize,
) -> Result<(Shared, Vec<Seat>), NoMemory>
    requires { (1 ≤ processes) × (processes ≤ MAX_PROCESSES) }
    ensures { IfOk result (λ r. All (λ s. s.shared ≡ r.0.name) r.1.items) }
{
    Shared::start(rt.alloc(), system, processes)
}

/// Returns the first of these seats, and the others in order.
pub fn first_of(rt: &impl Abort, shared: &Shared, mut seats: Vec<Seat>) -> (Seat, Vec<Seat>)
    requires { All (λ s. s.shared ≡ shared.now.name) seats.items }
    ensures first { result.0.shared ≡ shared.now.name }
    ensures others { All (λ s. s.shared ≡ shared.now.name) result.1.items }
{
    assert!(rt; !seats.is_empty());
    let first = seats.remove(0);
    (first, seats)
}

/// Removes the last of these seats and returns it.
pub fn last_of(rt: &impl Abort, shared: &Shared, seats: &mut Vec<Seat>) -> Seat
    requires { All (λ s. s.shared ≡ shared.now.name) seats.old.items }
    ensures others { All (λ s. s.shared ≡ shared.now.name) seats.new.items }
    ensures last { result.shared ≡ shared.now.name }
{
    seats.pop().expect(rt, "a seat")
}

/// Returns the last two of these seats, in order.
pub fn last_two(rt: &impl Abort, shared: &Shared, mut seats: Vec<Seat>) -> (Seat, Seat)
    requires { All (λ s. s.shared ≡ shared.now.name) seats.items }
    ensures { (result.0.shared ≡ shared.now.name) × (result.1.shared ≡ shared.now.name) }
{
    let later = last_of(rt, shared, &mut seats);
    let earlier = last_of(rt, shared, &mut seats);
    (earlier, later)
}

/// Returns whether the reply of this entry is descriptor 0 of the stream with this minor.
pub fn opens(entry: &Entry, minor: u32) -> bool {
    entry.reply == Reply::Fd { fd: 0, minor }
}

/// Closes the system and checks that its history has this number of entries.
pub fn closes_with(rt: &impl Abort, shared: Shared, seat: Seat, entries: usize)
    requires { seat.shared ≡ shared.name }
{
    let system = shared.close(seat).expect(rt, "nobody has the turn");
    assert_eq!(rt; system.entries().len(), entries);
    forget(system);
}
