//! Reads the transcript text.

ghost use Rattle.std.specs.Prelude.{◌≡◌, ◌≢◌, ◌<◌, [], length, refl, OnOk, IfErr};
ghost use Rattle.smx_types.specs.declared.command.Entry.{Entry as AnyEntry};
ghost use Rattle.smx_types.specs.declared.limits.TheConstants.{MAX_COMMANDS};
ghost use Rattle.smx_words.specs.Words.{line_of};
ghost use Rattle.smx_words.specs.Spelling.{entry_words};
ghost use Rattle.smx_words.specs.Spellable.{FitsDriver, FitsEntryIn};
ghost use Rattle.smx_text.specs.Grammar.{IsBegun, ReadsAny, line_text};
ghost use Rattle.smx_text.specs.Reading.{AnswersLine, AnswersText, RefusesLine};
ghost use Rattle.smx_text.specs.Drafts.{lines, grammar_of};
ghost use Rattle.smx_text.specs.TranscriptLines.{Driver as DriverLine, Config as ConfigLine, Next as NextLine, End};
ghost use Rattle.smx_text.specs.TranscriptLines.{Entry as EntryLine, TranscriptLine};
ghost use Rattle.smx_text.specs.TranscriptText.{transcript_grammar};
ghost use Rattle.smx_text.specs.declared.transcript.Stage.TheVariants.{History};

mod groups;

use crate::reading::{Draft, read};
use crate::text_fault::{Cause, TextFault};
use groups::push_if;
use smx_types::{
    ConfigView, DriverSpec, Entry, Items, MAX_COMMANDS, NoMemory, Transcript, Version,
};
use smx_words::{driver_of, entry_of, message_of, next_of};
use std::alloc::Global;

/// Parses a transcript text. Fails at the first invalid line; `Cause` describes each reason.
pub fn read_transcript(alloc: Global, bytes: &[u8]) -> Result<Transcript, TextFault>
    ensures { ReadsAny transcript_grammar bytes.now result }
{
    read::<TranscriptDraft>(alloc, bytes)
}

// How far a transcript was read.
#[derive(Clone, Copy, Debug, PartialEq, Eq)]
pub enum Stage {
    // The line `config` was not read yet: drivers and entries may follow.
    History,
    // The line read last is `config`.
    Config,
    // The line `next` was read.
    View,
}

// The draft of a transcript: the contents of the lines read so far.
#[derive(Debug, Drop)]
pub struct TranscriptDraft {
    pub stage: Stage,
    pub transcript: Transcript,
}

impl Draft for TranscriptDraft {
    type Whole = Transcript;

    ghost Line = { TranscriptLine };

    ghost grammar = { transcript_grammar };

    ghost version_of = { λ d. d.transcript.version };

    ghost lines = { lines };

    fn header(version: Version) -> &'static [u8] {
        match version {
            Version::V1 => b"transcript 1",
            Version::V2 => b"transcript 2",
        }
    }

    fn begin(alloc: Global, version: Version) -> TranscriptDraft {
        TranscriptDraft {
            stage: Stage::History,
            transcript: Transcript {
                version,
                drivers: Items::new(alloc),
                entries: Items::new(alloc),
                view: new_view(alloc, 0, 0),
            },
        }
    }

    fn add(&mut self, alloc: Global, text: &[u8]) -> Result<(), Cause> {
        match entry_of(alloc, self.transcript.version, text) {
            Ok(Some(entry)) => self.add_entry(entry),
            Ok(None) => self.add_other(alloc, text),
            Err(NoMemory) => {
                self.room_for_entry()?;
                Err(Cause::NoMemory)
            }
        }
    }

    fn finish(self) -> Option<Transcript> {
        if self.stage != Stage::View {
            return None;
        }
        Some(self.transcript)
    }

    ghost end_is = { λ v. refl };
}

fn new_view(alloc: Global, next_id: u32, next_serial: u32) -> ConfigView
    ensures { result ≡ record {
      next_id = next_id;
      next_serial = next_serial;
      fds = [];
      links = [];
      binds = [];
      routes = [];
      msgs = [];
      fulls = [];
      hungs = [];
    } }
{
    ConfigView {
        next_id,
        next_serial,
        fds: Items::new(alloc),
        links: Items::new(alloc),
        binds: Items::new(alloc),
        routes: Items::new(alloc),
        msgs: Items::new(alloc),
        fulls: Items::new(alloc),
        hungs: Items::new(alloc),
    }
}

impl TranscriptDraft {
    // Adds a line that is not an entry.
    fn add_other(&mut self, alloc: Global, text: &[u8]) -> Result<(), Cause>
        requires begun { IsBegun (grammar_of self.old) (lines self.old) }
        requires no_entry { (e : AnyEntry) → FitsEntryIn self.old.transcript.version e
            → text.now ≢ line_of (entry_words e) }
        requires no_end { text.now ≢ line_text (grammar_of self.old) End }
        ensures answers { AnswersText (grammar_of self.old) (lines self.old) text.now (lines self.new) result }
        ensures version { OnOk result (self.new.transcript.version ≡ self.old.transcript.version) }
    {
        match message_of(alloc, text) {
            Ok(Some(message)) => {
                return push_if(self.takes_msgs(), &mut self.transcript.view.msgs, message);
            }
            Err(NoMemory) if self.takes_msgs() => return Err(Cause::NoMemory),
            Err(NoMemory) => return Err(Cause::Form),
            Ok(None) => {}
        }
        if let Some(driver) = driver_of(text) {
            return self.add_driver(driver);
        }
        if text == b"config".as_slice() {
            return self.add_config();
        }
        match next_of(text) {
            Some((next_id, next_serial)) => self.add_next(alloc, next_id, next_serial),
            None => self.add_to_group(text),
        }
    }

    // Adds a driver. All drivers come before all entries.
    fn add_driver(&mut self, driver: DriverSpec) -> Result<(), Cause>
        requires begun { IsBegun (grammar_of self.old) (lines self.old) }
        requires fits { FitsDriver driver }
        ensures answers { AnswersLine (grammar_of self.old) (lines self.old) (DriverLine driver)
            (lines self.new) result }
        ensures version { OnOk result (self.new.transcript.version ≡ self.old.transcript.version) }
    {
        if self.stage != Stage::History || !self.transcript.entries.as_slice().is_empty() {
            return Err(Cause::Form);
        }
        if self.transcript.drivers.as_slice().len() >= self.transcript.version.max_drivers() {
            return Err(Cause::Many);
        }
        self.transcript.drivers.push(driver)?;
        Ok(())
    }

    // Adds an entry. All entries come before the configuration.
    fn add_entry(&mut self, entry: Entry) -> Result<(), Cause>
        requires begun { IsBegun (grammar_of self.old) (lines self.old) }
        requires fits { FitsEntryIn self.old.transcript.version entry }
        ensures answers { AnswersLine (grammar_of self.old) (lines self.old) (EntryLine entry)
            (lines self.new) result }
        ensures version { OnOk result (self.new.transcript.version ≡ self.old.transcript.version) }
    {
        self.room_for_entry()?;
        self.transcript.entries.push(entry)?;
        Ok(())
    }

    // Fails if an entry is not allowed as the next line, or if one more entry would be over the limit.
    fn room_for_entry(&self) -> Result<(), Cause>
        ensures history { OnOk result (self.now.stage ≡ History) }
        ensures few { OnOk result (length self.now.transcript.entries < MAX_COMMANDS) }
        ensures refused { IfErr result (λ why. (e : AnyEntry)
            → RefusesLine (grammar_of self.now) (lines self.now) (EntryLine e) why) }
    {
        if self.stage != Stage::History {
            return Err(Cause::Form);
        }
        if self.transcript.entries.as_slice().len() >= MAX_COMMANDS {
            return Err(Cause::Many);
        }
        Ok(())
    }

    // Adds the line `config`, which comes after all entries.
    fn add_config(&mut self) -> Result<(), Cause>
        requires begun { IsBegun (grammar_of self.old) (lines self.old) }
        ensures answers { AnswersLine (grammar_of self.old) (lines self.old) ConfigLine (lines self.new) result }
        ensures version { OnOk result (self.new.transcript.version ≡ self.old.transcript.version) }
    {
        if self.stage != Stage::History {
            return Err(Cause::Form);
        }
        self.stage = Stage::Config;
        Ok(())
    }

    // Adds the line `next` (the next id and the next serial), which comes right after `config`.
    fn add_next(&mut self, alloc: Global, next_id: u32, next_serial: u32) -> Result<(), Cause>
        requires begun { IsBegun (grammar_of self.old) (lines self.old) }
        ensures answers { AnswersLine (grammar_of self.old) (lines self.old) (NextLine next_id next_serial)
            (lines self.new) result }
        ensures version { OnOk result (self.new.transcript.version ≡ self.old.transcript.version) }
    {
        if self.stage != Stage::Config {
            return Err(Cause::Form);
        }
        self.stage = Stage::View;
        self.transcript.view = new_view(alloc, next_id, next_serial);
        Ok(())
    }
}
