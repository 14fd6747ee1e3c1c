//! The calls of a shared system as a trait, so that another implementation can take the place of `Shared`.

use crate::front::Front;
use crate::shared_fault::ApplyFault;
use smx_types::{Command, Entry, Process};
use std::alloc::Global;
use std::sync::Wait;

/// A system that callers share, each with a seat of its own.
pub trait Door {
    ghost use Rattle.std.specs.Prelude.{◌≡◌, IfErr, IfOk, OnErr, OnOk};
    ghost use Rattle.smx_shared.specs.Calls.{AddsEntry, AnswersEntry, HasSeenMore, Refuses, SeesFront};
    ghost use Rattle.smx_shared.specs.Seats.{Known};

    /// The seat with which a caller calls.
    type Seat;

    // Whether the seat belongs to this door.
    ghost is_seat: { Self → Self.Seat → Type 0 };

    // The knowledge of a seat.
    ghost known: { Self.Seat → Known };

    /// Returns the process of a seat. Takes no memory.
    fn process(seat: &Self::Seat) -> Process
        ensures { result ≡ (known seat.now).process };

    /// Performs a command of the seat's process, and returns the one entry that this call added to the history. Fails
    /// if the history is full, or else if an allocation fails. A call that fails adds no entry. The allocator is for
    /// other doors: `Shared` doesn't use it, because its system has one already.
    fn call<R: Wait>(
        &self,
        rt: &R,
        alloc: Global,
        seat: &mut Self::Seat,
        command: &Command,
    ) -> Result<Entry, ApplyFault>
        requires { is_seat self.now seat.old }
        ensures seat { is_seat self.now seat.new }
        ensures seen { HasSeenMore (known seat.old) (known seat.new) }
        ensures answer { IfOk result (AnswersEntry (known seat.old) (known seat.new) command.now) }
        ensures refused { IfErr result (Refuses (known seat.old) (known seat.new)) };

    /// Performs a command as `call` does, but doesn't return the entry. On success, the door may have moved the command
    /// out of `command`. After a failure, `command` is unchanged.
    fn perform<R: Wait>(
        &self,
        rt: &R,
        alloc: Global,
        seat: &mut Self::Seat,
        command: &mut Command,
    ) -> Result<(), ApplyFault>
        requires { is_seat self.now seat.old }
        ensures seat { is_seat self.now seat.new }
        ensures seen { HasSeenMore (known seat.old) (known seat.new) }
        ensures added { OnOk result (AddsEntry (known seat.old) command.old (known seat.new)) }
        ensures refused { IfErr result (Refuses (known seat.old) (known seat.new)) }
        ensures kept { OnErr result (command.new ≡ command.old) }
    {
        self.call(rt, alloc, seat, command)?;
        Ok(())
    }

    /// Returns the front of the history, and whether a seat has the turn. Doesn't wait, and takes no memory.
    fn glance(&self, seat: &mut Self::Seat) -> Front
        requires { is_seat self.now seat.old }
        ensures seat { is_seat self.now seat.new }
        ensures seen { HasSeenMore (known seat.old) (known seat.new) }
        ensures front { SeesFront (known seat.old) (known seat.new) result };
}
