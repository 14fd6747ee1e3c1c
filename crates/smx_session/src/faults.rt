//! The faults of a session: why it doesn't start, why it performs no line, and why it writes no entry.

ghost use Rattle.std.specs.Prelude.{◌≡◌, ◌≢◌, ◌⊎◌, Some};
ghost use Rattle.smx_config.specs.declared.config_fault.ConfigFault.TheVariants as config;
ghost use Rattle.smx_session.specs.FaultWords.{start_fault_words};
ghost use Rattle.smx_session.specs.declared.faults.LineFault.TheVariants as line_fault;
ghost use Rattle.smx_session.specs.declared.faults.StartFault.TheVariants.{NoMemory as memory, Text, Drivers};
ghost use Rattle.smx_text.specs.declared.text_fault.Cause.TheVariants as cause;

use smx_config::ConfigFault;
use smx_text::{Cause, TextFault};
use smx_types::NoMemory;
use std::fmt;

/// Why a text makes no session. It prints as `no memory`, `line 2: form` or `driver 3 marks`, for example.
#[derive(Clone, Copy, Debug, PartialEq, Eq)]
pub enum StartFault {
    /// An allocation failed.
    NoMemory,
    /// The bytes are not a text of programs. The cause is never out-of-memory.
    Text(TextFault),
    /// No configuration can have these drivers. The fault is never out-of-memory.
    Drivers(ConfigFault),
}

/// Why a line is not performed.
#[derive(Clone, Copy, Debug, PartialEq, Eq)]
pub enum LineFault {
    /// An allocation failed.
    NoMemory,
    /// The line is not a process with a command that the version allows.
    NoCommand,
}

/// Why no entry is written.
#[derive(Clone, Copy, Debug, PartialEq, Eq)]
pub enum EntryFault {
    /// An allocation failed.
    NoMemory,
    /// No command was performed yet.
    NoEntry,
}

impl From<TextFault> for StartFault {
    ghost from_gives = { λ fault f. ((f ≡ memory) × (fault.cause ≡ cause.NoMemory))
        ⊎ ((f ≡ Text fault) × (fault.cause ≢ cause.NoMemory)) };

    fn from(fault: TextFault) -> StartFault {
        match fault.cause {
            Cause::NoMemory => StartFault::NoMemory,
            _ => StartFault::Text(fault),
        }
    }
}

impl From<ConfigFault> for StartFault {
    ghost from_gives = { λ fault f. ((f ≡ memory) × (fault ≡ config.NoMemory))
        ⊎ ((f ≡ Drivers fault) × (fault ≢ config.NoMemory)) };

    fn from(fault: ConfigFault) -> StartFault {
        match fault {
            ConfigFault::NoMemory => StartFault::NoMemory,
            _ => StartFault::Drivers(fault),
        }
    }
}

impl From<NoMemory> for LineFault {
    ghost from_gives = { λ _ f. f ≡ line_fault.NoMemory };

    fn from(_error: NoMemory) -> LineFault {
        LineFault::NoMemory
    }
}

impl fmt::Display for StartFault {
    ghost output = { λ fault. Some (start_fault_words fault) };

    fn fmt<W: fmt::Write>(&self, f: &mut fmt::Formatter<W>) -> fmt::Result {
        match self {
            StartFault::NoMemory => f.write_str("no memory"),
            StartFault::Text(fault) => write!(f, "{fault}"),
            StartFault::Drivers(fault) => write!(f, "{fault}"),
        }
    }
}

impl std::error::Error for StartFault {}
