//! The faults of a shared system, and the words that they print.

ghost use Rattle.std.specs.Prelude.{◌≡◌, Some};
ghost use Rattle.smx_shared.specs.Calls.{try_fault_of};
ghost use Rattle.smx_shared.specs.CloseFaults.{close_fault_words};
ghost use Rattle.smx_shared.specs.FaultWords.{apply_fault_words};
ghost use Rattle.smx_shared.specs.declared.shared_fault.ApplyFault.TheVariants as apply;

use crate::front::Front;
use smx_types::NoMemory;
use std::alloc::AllocError;
use std::fmt;

/// The reason why a command was not performed. Then nothing has changed. The fault prints as `history full` or `no
/// memory`.
#[derive(Clone, Copy, Debug, PartialEq, Eq)]
pub enum ApplyFault {
    /// There are as many entries as the limit allows.
    HistoryFull,
    /// An allocation failed.
    NoMemory,
}

impl From<NoMemory> for ApplyFault {
    ghost from_gives = { λ _ e. e ≡ apply.NoMemory };

    fn from(_error: NoMemory) -> ApplyFault {
        ApplyFault::NoMemory
    }
}

impl From<AllocError> for ApplyFault {
    ghost from_gives = { λ _ e. e ≡ apply.NoMemory };

    fn from(_error: AllocError) -> ApplyFault {
        ApplyFault::NoMemory
    }
}

impl fmt::Display for ApplyFault {
    ghost output = { λ fault. Some (apply_fault_words fault) };

    fn fmt<W: fmt::Write>(&self, f: &mut fmt::Formatter<W>) -> fmt::Result {
        match self {
            ApplyFault::HistoryFull => f.write_str("history full"),
            ApplyFault::NoMemory => f.write_str("no memory"),
        }
    }
}

impl std::error::Error for ApplyFault {}

/// The reason why `try_call` performed no command. Then no entry was added.
#[derive(Clone, Copy, Debug, PartialEq, Eq)]
pub enum TryFault {
    /// Another seat had the turn, as this front showed.
    Busy(Front),
    /// There are as many entries as the limit allows.
    HistoryFull,
    /// An allocation failed.
    NoMemory,
}

impl From<ApplyFault> for TryFault {
    ghost from_gives = { λ fault t. t ≡ try_fault_of fault };

    fn from(fault: ApplyFault) -> TryFault {
        match fault {
            ApplyFault::HistoryFull => TryFault::HistoryFull,
            ApplyFault::NoMemory => TryFault::NoMemory,
        }
    }
}

/// The reason why a shared system was not given back. The fault prints as `turn held`.
#[derive(Clone, Copy, Debug, PartialEq, Eq)]
pub enum CloseFault {
    /// Some caller never gave the turn back, as this front shows. The system is dropped.
    Held(Front),
}

impl fmt::Display for CloseFault {
    ghost output = { λ fault. Some (close_fault_words fault) };

    fn fmt<W: fmt::Write>(&self, f: &mut fmt::Formatter<W>) -> fmt::Result {
        f.write_str("turn held")
    }
}

impl std::error::Error for CloseFault {}
