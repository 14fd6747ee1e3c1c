//! Why a call did nothing, and its code in C.

ghost use Rattle.std.specs.Prelude.{◌≡◌};
ghost use Rattle.muxsim_c.specs.Codes.{code, fault_of_entry, fault_of_line, fault_of_start};
ghost use Rattle.muxsim_c.specs.declared.call_fault.CallFault.TheVariants.{NoMemory};

use smx_session::{EntryFault, LineFault, StartFault};
use smx_types::NoMemory;

/// Why a call did nothing.
#[derive(Clone, Copy, Debug, PartialEq, Eq)]
pub enum CallFault {
    /// An allocation failed.
    NoMemory,
    /// The bytes are not a programs text.
    Text,
    /// The drivers are not valid.
    Drivers,
    /// The line is not a process with a command.
    Line,
    /// No command was performed yet.
    NoEntry,
    /// The text is longer than the buffer.
    NoRoom,
    /// There is no session.
    Closed,
    /// There is a session already.
    IsOpen,
}

/// Returns the code of an outcome, as `include/muxsim.h` defines it.
pub fn code_of(outcome: &Result<(), CallFault>) -> i32
    ensures { result ≡ code outcome.now }
{
    match outcome {
        Ok(()) => 0,
        Err(CallFault::NoMemory) => 1,
        Err(CallFault::Text) => 2,
        Err(CallFault::Drivers) => 3,
        Err(CallFault::Line) => 4,
        Err(CallFault::NoEntry) => 5,
        Err(CallFault::NoRoom) => 6,
        Err(CallFault::Closed) => 7,
        Err(CallFault::IsOpen) => 8,
    }
}

impl From<StartFault> for CallFault {
    ghost from_gives = { λ fault f. f ≡ fault_of_start fault };

    fn from(fault: StartFault) -> CallFault {
        match fault {
            StartFault::NoMemory => CallFault::NoMemory,
            StartFault::Text(_) => CallFault::Text,
            StartFault::Drivers(_) => CallFault::Drivers,
        }
    }
}

impl From<LineFault> for CallFault {
    ghost from_gives = { λ fault f. f ≡ fault_of_line fault };

    fn from(fault: LineFault) -> CallFault {
        match fault {
            LineFault::NoMemory => CallFault::NoMemory,
            LineFault::NoCommand => CallFault::Line,
        }
    }
}

impl From<EntryFault> for CallFault {
    ghost from_gives = { λ fault f. f ≡ fault_of_entry fault };

    fn from(fault: EntryFault) -> CallFault {
        match fault {
            EntryFault::NoMemory => CallFault::NoMemory,
            EntryFault::NoEntry => CallFault::NoEntry,
        }
    }
}

impl From<NoMemory> for CallFault {
    ghost from_gives = { λ _ t. t ≡ NoMemory };

    fn from(_error: NoMemory) -> CallFault {
        CallFault::NoMemory
    }
}
