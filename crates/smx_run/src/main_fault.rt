//! How the program ends: what it has done, or why it fails, and the words that it then prints.

ghost use Rattle.std.specs.Prelude.{◌≡◌, true, false, None};
ghost use Rattle.smx_run.specs.Refusals.{IsKept, is_in_text};
ghost use Rattle.smx_run.specs.RunFaults.{run_fault_of};
ghost use Rattle.smx_run.specs.Statuses.{status_of, status_of_done};
ghost use Rattle.smx_run.specs.declared.main_fault.MainFault.TheVariants.{Refused, Text};
ghost use Rattle.smx_run.specs.declared.run_fault.RunFault.TheVariants.{NoMemory};

use crate::run_fault::RunFault;
use smx_config::{ConfigFault, Verdict};
use smx_text::{Cause, TextFault};
use smx_types::NoMemory;
use std::alloc::AllocError;
use std::fmt;
use thiserror::Error;

/// The work that the program has done.
#[derive(Clone, Copy, Debug, PartialEq, Eq)]
pub enum Done {
    /// The program wrote everything that it was asked for: a transcript, fronts, a picture, the answers of a live
    /// session, help or the version.
    Finished,
    /// The program judged a transcript and wrote the verdict.
    Judged(Verdict),
}

impl Done {
    /// Returns the program's exit status: 4 if the verdict is that a history is illegal or that its configuration
    /// differs, else 0. Takes no memory.
    pub fn status(&self) -> u8
        ensures { result ≡ status_of_done self.now }
    {
        match self {
            Done::Finished | Done::Judged(Verdict::Legal) => 0,
            Done::Judged(Verdict::Illegal { .. } | Verdict::ConfigDiffers) => 4,
        }
    }
}

/// Why the program failed. Prints the words that follow `muxsim: ` on standard error.
#[derive(Debug, Drop, Error)]
pub enum MainFault {
    /// The programs or the transcript were refused, or memory ran out.
    #[error("refused: {0}")]
    Refused(RunFault),
    /// The input is not a text of the expected kind, or memory ran out while the text was read.
    #[error("{}", TextWords(*.0))]
    Text(TextFault),
    /// More than 16,777,216 bytes were read.
    #[error("input too long")]
    TooLong,
    /// A read failed.
    #[error("read failed")]
    ReadFailed,
    /// A write or a flush failed, or a write took no byte.
    #[error("write failed")]
    WriteFailed,
}

impl MainFault {
    /// Returns the program's exit status: 1 for a refusal or out-of-memory, 3 for a text that is malformed or too
    /// long, 5 if input or output failed. Takes no memory.
    pub fn status(&self) -> u8
        ensures { result ≡ status_of self.now }
    {
        match self {
            MainFault::Refused(_) => 1,
            MainFault::Text(fault) => match fault.cause {
                Cause::NoMemory => 1,
                Cause::Header | Cause::Form | Cause::Many | Cause::Cut | Cause::Trailing => 3,
            },
            MainFault::TooLong => 3,
            MainFault::ReadFailed | MainFault::WriteFailed => 5,
        }
    }
}

impl From<NoMemory> for MainFault {
    ghost from_gives = { λ _ fault. fault ≡ Refused NoMemory };

    fn from(_error: NoMemory) -> MainFault {
        MainFault::Refused(RunFault::NoMemory)
    }
}

impl From<TextFault> for MainFault {
    ghost from_gives = { λ f fault. fault ≡ Text f };

    fn from(fault: TextFault) -> MainFault {
        MainFault::Text(fault)
    }
}

impl From<ConfigFault> for MainFault {
    ghost from_gives = { λ f fault. fault ≡ Refused (run_fault_of f) };

    fn from(fault: ConfigFault) -> MainFault {
        MainFault::Refused(RunFault::from(fault))
    }
}

impl From<RunFault> for MainFault {
    ghost from_gives = { λ f fault. fault ≡ Refused f };

    fn from(fault: RunFault) -> MainFault {
        MainFault::Refused(fault)
    }
}

impl From<AllocError> for MainFault {
    ghost from_gives = { λ _ fault. fault ≡ Refused NoMemory };

    fn from(_error: AllocError) -> MainFault {
        MainFault::Refused(RunFault::NoMemory)
    }
}

// The words of a fault of a text. Out-of-memory is not a fault of the text, and has the words of a refusal.
#[derive(Drop)]
struct TextWords(TextFault);

impl fmt::Display for TextWords {
    fn fmt<W: fmt::Write>(&self, f: &mut fmt::Formatter<W>) -> fmt::Result {
        match self.0.cause {
            Cause::NoMemory => write!(f, "refused: {}", RunFault::NoMemory),
            Cause::Header | Cause::Form | Cause::Many | Cause::Cut | Cause::Trailing => {
                write!(f, "{}", self.0)
            }
        }
    }
}

/// Why a filter failed, and the text in which the fault can be shown.
#[derive(Drop)]
pub struct Refusal {
    pub fault: MainFault,
    /// All that was read, if the fault is one of the text or of its drivers; else `None`.
    pub text: Option<Vec<u8>>,
}

impl Refusal {
    /// Returns the refusal for this fault. If the fault is one of the text or of its drivers, the refusal keeps the
    /// input; otherwise it keeps nothing.
    pub fn kept_for(fault: MainFault, input: Vec<u8>) -> Refusal
        ensures fault { result.fault ≡ fault }
        ensures kept { is_in_text fault ≡ true → IsKept result.text input.items }
        ensures given_up { is_in_text fault ≡ false → result.text ≡ None }
    {
        let text = match fault {
            MainFault::Text(_) | MainFault::Refused(RunFault::ConfigFault(_)) => Some(input),
            MainFault::Refused(_)
            | MainFault::TooLong
            | MainFault::ReadFailed
            | MainFault::WriteFailed => None,
        };
        Refusal { fault, text }
    }
}

impl From<MainFault> for Refusal {
    ghost from_gives = { λ f refusal. refusal ≡ record { fault = f; text = None } };

    fn from(fault: MainFault) -> Refusal {
        Refusal { fault, text: None }
    }
}
