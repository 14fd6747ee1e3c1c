//! The result of a run: its drivers, its history and its final configuration.

ghost use Rattle.std.specs.Prelude.{◌≡◌, IfOk};
ghost use Rattle.std.specs.List.{list_any};
ghost use Rattle.smx_types.specs.Versions.{is_of_hangup, least_of_transcript};

use crate::command::{Entries, Entry};
use crate::driver::Drivers;
use crate::items::NoMemory;
use crate::version::Version;
use crate::view::ConfigView;
use std::alloc::Global;

/// The drivers of a run, its history and its final configuration, with the version of the text that states them.
#[derive(Debug, Drop, PartialEq)]
pub struct Transcript {
    pub version: Version,
    pub drivers: Drivers,
    /// The history: the commands that were performed, with their processes and replies, in order.
    pub entries: Entries,
    /// The configuration after the history, according to the transcript.
    pub view: ConfigView,
}

impl Transcript {
    /// Returns the earliest version that can express the transcript. This is version 2 exactly if the transcript has
    /// over 64 drivers, a command `hangup`, a reply `eof` or `ENXIO hangup`, or a hung-up stream in its configuration.
    /// Does not allocate.
    pub fn least(&self) -> Version
        ensures { result ≡ least_of_transcript self.now }
    {
        Version::least(
            self.drivers.as_slice(),
            are_of_hangup(self.entries.as_slice()) || !self.view.hungs.as_slice().is_empty(),
        )
    }

    /// Copies the transcript. Fails only if out of memory.
    pub fn copy(&self, alloc: Global) -> Result<Transcript, NoMemory>
        ensures { IfOk result (λ c. c ≡ self.now) }
    {
        Ok(Transcript {
            version: self.version,
            drivers: self.drivers.copy(alloc)?,
            entries: self.entries.copy(alloc)?,
            view: self.view.copy(alloc)?,
        })
    }
}

// Returns whether the command of some entry is a hangup, or the reply of some entry reports a hangup.
fn are_of_hangup(entries: &[Entry]) -> bool
    ensures { result ≡ list_any is_of_hangup entries.now }
{
    entries.iter().any(|entry| entry.is_of_hangup())
}
