//! Reads the programs text.

ghost use Rattle.std.specs.Prelude.{◌≡◌, ◌≢◌, ◌<◌, codes, length, refl, OnOk, IfErr};
ghost use Rattle.std.specs.List.{sum_by};
ghost use Rattle.smx_types.specs.ProgramLists.{AreWithinLimits, ProgramLists};
ghost use Rattle.smx_types.specs.declared.limits.TheConstants.{MAX_COMMANDS};
ghost use Rattle.smx_types.specs.declared.command.Command.{Command as AnyCommand};
ghost use Rattle.smx_words.specs.LineReading.{IsNoCommandLine};
ghost use Rattle.smx_words.specs.Spellable.{FitsCommandIn, FitsDriver};
ghost use Rattle.smx_text.specs.Drafts.{IsCounted};
ghost use Rattle.smx_text.specs.Grammar.{IsBegun, ReadsAny};
ghost use Rattle.smx_text.specs.Reading.{AnswersLine, AnswersText, RefusesLine};
ghost use Rattle.smx_text.specs.ProgramLines.{Command as CommandLine, Driver as DriverLine, Process as ProcessLine};
ghost use Rattle.smx_text.specs.ProgramLines.{Line};
ghost use Rattle.smx_text.specs.ProgramsText.{body, programs_grammar};

use crate::reading::{Draft, read};
use crate::text_fault::{Cause, TextFault};
use smx_types::{
    Command, Commands, DriverSpec, Drivers, MAX_COMMANDS, MAX_PROCESSES, NoMemory, ProgramList,
    Programs, Version,
};
use smx_words::{command_of, driver_of, process_of};
use std::alloc::Global;
use std::marker::Model;

/// Parses a programs text. Fails at the first invalid line; `Cause` describes each reason.
pub fn read_programs(alloc: Global, bytes: &[u8]) -> Result<Programs, TextFault>
    ensures { ReadsAny programs_grammar bytes.now result }
{
    read::<ProgramsDraft>(alloc, bytes)
}

// The draft of a programs text: the drivers and programs read so far, and the number of commands in all these programs.
#[derive(Debug, Drop)]
pub struct ProgramsDraft {
    version: Version,
    drivers: Vec<DriverSpec>,
    programs: Vec<Commands>,
    count: usize,
}

impl Model for ProgramsDraft {
    ghost Value = { ProgramLists };

    ghost view = { λ d.
        record { version = d.version; drivers = d.drivers.items; programs = d.programs.items } };

    ghost invariant = { λ d. IsCounted d.programs.items d.count };
}

impl Draft for ProgramsDraft {
    type Whole = Programs;

    ghost Line = { Line };

    ghost grammar = { programs_grammar };

    ghost version_of = { λ d. d.version };

    ghost lines = { body };

    fn header(version: Version) -> &'static [u8] {
        match version {
            Version::V1 => b"programs 1",
            Version::V2 => b"programs 2",
        }
    }

    fn begin(alloc: Global, version: Version) -> ProgramsDraft {
        ProgramsDraft {
            version,
            drivers: Vec::new(alloc),
            programs: Vec::new(alloc),
            count: 0,
        }
    }

    fn add(&mut self, alloc: Global, text: &[u8]) -> Result<(), Cause> {
        match command_of(alloc, self.version, text) {
            Ok(Some(command)) => self.add_command(command),
            Ok(None) => self.add_other(alloc, text),
            Err(NoMemory) => {
                self.room_for_command()?;
                Err(Cause::NoMemory)
            }
        }
    }

    fn finish(self) -> Option<Programs> {
        Some(in_version(
            self.version,
            Drivers::from_vec(self.drivers),
            ProgramList::from_vec(self.programs),
        ))
    }

    ghost end_is = { λ v. refl };
}

// Makes a `Programs` of this version from the two lists.
fn in_version(version: Version, drivers: Drivers, programs: ProgramList) -> Programs
    requires { AreWithinLimits (record { version = version; drivers = drivers; programs = programs }) }
    ensures { result ≡ record { version = version; drivers = drivers; programs = programs } }
{
    let Ok(programs) = Programs::new(drivers, programs) else {
        unreachable!()
    };
    match version {
        Version::V1 => programs,
        Version::V2 => programs.raised(),
    }
}

impl ProgramsDraft {
    // Adds a line that is not a command.
    fn add_other(&mut self, alloc: Global, text: &[u8]) -> Result<(), Cause>
        requires begun { IsBegun (programs_grammar self.old.version) (body self.old) }
        requires no_command { IsNoCommandLine self.old.version text.now }
        requires no_end { text.now ≢ codes "end" }
        ensures answers { AnswersText (programs_grammar self.old.version) (body self.old) text.now
            (body self.new) result }
        ensures version { OnOk result (self.new.version ≡ self.old.version) }
    {
        if let Some(driver) = driver_of(text) {
            return self.add_driver(driver);
        }
        match process_of(text) {
            Some(number) => self.add_process(alloc, number),
            None => Err(Cause::Form),
        }
    }

    // Adds a driver. All drivers come before all processes.
    fn add_driver(&mut self, driver: DriverSpec) -> Result<(), Cause>
        requires begun { IsBegun (programs_grammar self.old.version) (body self.old) }
        requires fits { FitsDriver driver }
        ensures answers { AnswersLine (programs_grammar self.old.version) (body self.old) (DriverLine driver)
            (body self.new) result }
        ensures version { OnOk result (self.new.version ≡ self.old.version) }
    {
        if !self.programs.is_empty() {
            return Err(Cause::Form);
        }
        if self.drivers.len() >= self.version.max_drivers() {
            return Err(Cause::Many);
        }
        self.drivers.push(driver)?;
        Ok(())
    }

    // Adds a process without commands. Processes are numbered from 0, in order.
    fn add_process(&mut self, alloc: Global, number: u32) -> Result<(), Cause>
        requires begun { IsBegun (programs_grammar self.old.version) (body self.old) }
        ensures answers { AnswersLine (programs_grammar self.old.version) (body self.old) (ProcessLine number)
            (body self.new) result }
        ensures version { OnOk result (self.new.version ≡ self.old.version) }
    {
        if number as usize != self.programs.len() {
            return Err(Cause::Form);
        }
        if number >= MAX_PROCESSES {
            return Err(Cause::Many);
        }
        self.programs.push(Commands::new(alloc))?;
        Ok(())
    }

    // Adds a command to the process whose line came last.
    fn add_command(&mut self, command: Command) -> Result<(), Cause>
        requires begun { IsBegun (programs_grammar self.old.version) (body self.old) }
        requires fits { FitsCommandIn self.old.version command }
        ensures answers { AnswersLine (programs_grammar self.old.version) (body self.old) (CommandLine command)
            (body self.new) result }
        ensures version { OnOk result (self.new.version ≡ self.old.version) }
    {
        self.room_for_command()?;
        let last = self.programs.len() - 1;
        self.programs[last].push(command)?;
        self.count += 1;
        Ok(())
    }

    // Fails if a command is not allowed as the next line, or if one more command would be over the limit.
    fn room_for_command(&self) -> Result<(), Cause>
        ensures some { OnOk result (0 < length self.now.programs) }
        ensures few { OnOk result (sum_by length self.now.programs < MAX_COMMANDS) }
        ensures refused { IfErr result (λ why. (c : AnyCommand)
            → RefusesLine (programs_grammar self.now.version) (body self.now) (CommandLine c) why) }
    {
        if self.programs.is_empty() {
            return Err(Cause::Form);
        }
        if self.count >= MAX_COMMANDS {
            return Err(Cause::Many);
        }
        Ok(())
    }
}
