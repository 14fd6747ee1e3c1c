//! The reasons why a run is refused, and the words that they print.

ghost use Rattle.std.specs.Prelude.{◌≡◌, Some};
ghost use Rattle.smx_run.specs.FaultWords.{run_fault_words};
ghost use Rattle.smx_run.specs.RunFaults.{fault_of_call, fault_of_worker, run_fault_of, worker_fault_of};
ghost use Rattle.smx_run.specs.declared.run_fault.RunFault.TheVariants as run;
ghost use Rattle.smx_run.specs.declared.run_fault.WorkerFault.TheVariants as worker;

use smx_config::ConfigFault;
use smx_shared::ApplyFault;
use smx_types::{NoMemory, Process};
use std::alloc::AllocError;
use std::fmt;

/// The reason why a run was refused.
#[derive(Clone, Copy, Debug, PartialEq, Eq)]
pub enum RunFault {
    /// An allocation failed.
    NoMemory,
    /// A worker's thread could not be started, or there was no memory for the values that the thread gets. Prints as
    /// `NoMemory` does. No contract knows whether a thread starts. So only tests show that a run then fails with
    /// `NoThread`, and not with `NoMemory`.
    NoThread,
    /// In the history, the entries of the process with this number are not those that its calls returned. By the law
    /// `refusals_have_few_causes`, no run is refused for this.
    Strange(u32),
    /// No configuration can have these drivers.
    ConfigFault(ConfigFault),
    /// The history is full.
    HistoryFull,
    /// A worker never gave the turn back. By the law `refusals_have_few_causes`, no run is refused for this.
    Held,
    /// A transcript has this number of entries, and more were asked for. No run is refused for this.
    FewEntries(usize),
    /// A page has no room for this number of entries. No run is refused for this.
    LongPage(usize),
}

/// The reason why no report was made of a system and its transcripts. The transcript of a process is the list of
/// entries that its caller has kept.
#[derive(Clone, Copy, Debug, PartialEq, Eq)]
pub enum GatherFault {
    /// In the history, the entries of this process are not its transcript.
    Strange(Process),
    /// An allocation failed.
    NoMemory,
}

/// Why the workers of a run failed.
#[derive(Clone, Copy)]
pub enum WorkerFault {
    /// An allocation failed.
    NoMemory,
    /// The thread of a worker could not be started, or there was no memory for the values that the thread gets.
    NoThread,
    /// The history is full.
    HistoryFull,
}

impl From<ConfigFault> for RunFault {
    ghost from_gives = { λ f e. e ≡ run_fault_of f };

    fn from(fault: ConfigFault) -> RunFault {
        match fault {
            ConfigFault::NoMemory => RunFault::NoMemory,
            ConfigFault::BadSpec(_, _) | ConfigFault::SameName(_) | ConfigFault::TooMany => {
                RunFault::ConfigFault(fault)
            }
        }
    }
}

impl From<NoMemory> for RunFault {
    ghost from_gives = { λ _ e. e ≡ run.NoMemory };

    fn from(_error: NoMemory) -> RunFault {
        RunFault::NoMemory
    }
}

impl From<ApplyFault> for RunFault {
    ghost from_gives = { λ f e. e ≡ fault_of_call f };

    fn from(fault: ApplyFault) -> RunFault {
        match fault {
            ApplyFault::HistoryFull => RunFault::HistoryFull,
            ApplyFault::NoMemory => RunFault::NoMemory,
        }
    }
}

impl From<WorkerFault> for RunFault {
    ghost from_gives = { λ f e. e ≡ fault_of_worker f };

    fn from(fault: WorkerFault) -> RunFault {
        match fault {
            WorkerFault::NoMemory => RunFault::NoMemory,
            WorkerFault::NoThread => RunFault::NoThread,
            WorkerFault::HistoryFull => RunFault::HistoryFull,
        }
    }
}

impl From<AllocError> for WorkerFault {
    ghost from_gives = { λ _ e. e ≡ worker.NoMemory };

    fn from(_error: AllocError) -> WorkerFault {
        WorkerFault::NoMemory
    }
}

impl From<ApplyFault> for WorkerFault {
    ghost from_gives = { λ f e. e ≡ worker_fault_of f };

    fn from(fault: ApplyFault) -> WorkerFault {
        match fault {
            ApplyFault::HistoryFull => WorkerFault::HistoryFull,
            ApplyFault::NoMemory => WorkerFault::NoMemory,
        }
    }
}

impl fmt::Display for RunFault {
    ghost output = { λ fault. Some (run_fault_words fault) };

    fn fmt<W: fmt::Write>(&self, f: &mut fmt::Formatter<W>) -> fmt::Result {
        match self {
            RunFault::NoMemory | RunFault::NoThread => f.write_str("no memory"),
            RunFault::Strange(process) => write!(f, "strange {process}"),
            RunFault::ConfigFault(fault) => write!(f, "{fault}"),
            RunFault::HistoryFull => f.write_str("history full"),
            RunFault::Held => f.write_str("turn held"),
            RunFault::FewEntries(count) => write!(f, "the transcript has {count} entries"),
            RunFault::LongPage(count) => write!(
                f,
                "a page has room for fewer than {count} entries, see replay --at"
            ),
        }
    }
}
