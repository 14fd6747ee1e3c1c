//! A session: a configuration, the version of the session's texts, and the last entry.

ghost use Rattle.std.specs.Prelude.{◌≡◌, ℕ, List, ◌++◌, [], Err, IfErr, IfOk, IfSome, OnOk, OnErr};
ghost use Rattle.smx_model.specs.DriverList.{IsDriverList};
ghost use Rattle.smx_model.specs.KeptConfigurations.{IsKept};
ghost use Rattle.smx_model.specs.Views.{view};
ghost use Rattle.smx_text.specs.GrowingTranscripts.{BeginsTranscript};
ghost use Rattle.smx_text.specs.TranscriptText.{IsSpellableView};
ghost use Rattle.smx_words.specs.Spellable.{FitsEntry};
ghost use Rattle.smx_session.specs.Sessions.{HasNoLine, IsLastLine, IsNotPerformed, Performs, StartsAs, State};
ghost use Rattle.smx_session.specs.Sessions.{shown_lines};
ghost use Rattle.smx_session.specs.declared.faults.EntryFault.TheVariants.{NoEntry};

use crate::faults::{EntryFault, LineFault, StartFault};
use smx_config::Config;
use smx_text::{read_programs, transcript_opening, write_view};
use smx_types::{ConfigView, DriverSpec, Entry, NoMemory, Version};
use smx_words::{Spell, call_of_line};
use std::alloc::Global;
use std::marker::Model;

/// A configuration on which the commands of lines are performed. Contracts see the version of the session's texts, the
/// drivers, the configuration and the last entry.
#[derive(Debug, Drop)]
pub struct Session {
    version: Version,
    config: Config,
    last: Option<Entry>,
}

impl Model for Session {
    ghost Value = { State };

    ghost view = { λ s. record {
      version = s.version;
      drivers = s.config.drivers;
      configuration = s.config.configuration;
      last = s.last;
    } };
}

impl Session {
    /// Creates a session with the drivers and the version of a text of programs. Nothing is open, and the programs are
    /// not run. Fails with the first fault of the text, if the text has one. Otherwise fails with the first fault of
    /// its drivers, if they have one. Can also fail because it is out of memory.
    pub fn new(alloc: Global, programs: &[u8]) -> Result<Session, StartFault>
        ensures { StartsAs programs.now result }
    {
        let programs = read_programs(alloc, programs)?;
        let config = Config::new(alloc, programs.drivers())?;
        Ok(Session {
            version: programs.version(),
            config,
            last: None,
        })
    }

    /// Performs the command of a line, and keeps the entry: the process, the command and the reply. The line is
    /// `PROCESS COMMAND`, like the part of an entry's line before the `=`. Fails with `NoCommand` exactly if the line
    /// is not a process and a command of the session's version. Otherwise fails only because it is out of memory. A
    /// failure changes nothing.
    pub fn perform(&mut self, alloc: Global, line: &[u8]) -> Result<(), LineFault>
        ensures ok { OnOk result (Performs self.old line.now self.new) }
        ensures err { OnErr result (self.new ≡ self.old) }
        ensures none { IfErr result (IsNotPerformed self.old.version line.now) }
    {
        let Some((process, command)) = call_of_line(alloc, self.version, line)? else {
            return Err(LineFault::NoCommand);
        };
        let reply = self.config.step(process, &command)?;
        self.last = Some(Entry {
            process,
            command,
            reply,
        });
        Ok(())
    }

    /// Returns the view of the configuration: its parts, as lists of lines. Fails only if it is out of memory.
    pub fn show(&self) -> Result<ConfigView, NoMemory>
        ensures view { IfOk result (λ v. v ≡ view self.now.drivers self.now.configuration) }
        ensures kept { IsKept self.now.drivers self.now.configuration }
    {
        self.config.show()
    }

    /// Returns the version of the session's texts. Takes no memory.
    pub fn version(&self) -> Version
        ensures { result ≡ self.now.version }
    {
        self.version
    }

    /// Returns the drivers, which no line changes. Takes no memory.
    pub fn drivers(&self) -> &[DriverSpec]
        ensures value { result.now ≡ self.now.drivers }
        ensures valid { IsDriverList self.now.drivers }
    {
        self.config.drivers()
    }

    /// Returns the beginning of the session's transcript: the header and a line for each driver. Fails only if it is
    /// out of memory.
    pub fn opening(&self, alloc: Global) -> Result<Vec<u8>, NoMemory>
        ensures { IfOk result (λ v. BeginsTranscript self.now.version self.now.drivers [] v.items) }
    {
        transcript_opening(alloc, self.version(), self.drivers())
    }

    /// Returns the line of the last entry, with its line feed. Fails if there is no entry yet, or if it is out of
    /// memory.
    pub fn entry(&self, alloc: Global) -> Result<Vec<u8>, EntryFault>
        ensures line { IfOk result (λ v. IsLastLine self.now v.items) }
        ensures none { IfErr result (HasNoLine self.now) }
    {
        let mut text = Vec::new(alloc);
        self.write_entry(&mut text)?;
        Ok(text)
    }

    /// Appends the line of the last entry, with its line feed, to `out`. Fails if there is no entry yet; `out` is then
    /// unchanged. Also fails if it is out of memory; `out` may then contain anything.
    pub fn write_entry(&self, out: &mut Vec<u8>) -> Result<(), EntryFault>
        ensures written { OnOk result ((line : List ℕ) × IsLastLine self.now line
            × (out.new.items ≡ out.old.items ++ line)) }
        ensures fits { OnOk result (IfSome self.now.last FitsEntry) }
        ensures none { IfErr result (HasNoLine self.now) }
        ensures kept { result ≡ Err NoEntry → out.new.items ≡ out.old.items }
    {
        let Some(entry) = &self.last else {
            return Err(EntryFault::NoEntry);
        };
        match entry.write_line(out) {
            Ok(()) => Ok(()),
            Err(_) => Err(EntryFault::NoMemory),
        }
    }

    /// Returns the lines of the configuration, as in a transcript from `config` on, without the last line `end`.
    /// Fails only if it is out of memory.
    pub fn shown(&self, alloc: Global) -> Result<Vec<u8>, NoMemory>
        ensures written { IfOk result (λ v. v.items ≡ shown_lines self.now) }
        ensures spellable { OnOk result (IsSpellableView (view self.now.drivers self.now.configuration)) }
    {
        let view = self.show()?;
        let mut text = Vec::new(alloc);
        write_view(&mut text, &view)?;
        Ok(text)
    }
}
