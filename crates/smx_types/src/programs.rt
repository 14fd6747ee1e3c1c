//! Drivers, and a program of commands for each process.

ghost use Rattle.std.specs.Prelude.{◌≡◌, ◌≤◌, ◌↔◌, length, Some, IfOk, IfErr, IsOk, IsTrue};
ghost use Rattle.std.specs.List.{list_any, sum_by};
ghost use Rattle.smx_types.specs.FaultWords.{many_words};
ghost use Rattle.smx_types.specs.declared.limits.TheConstants.{MAX_COMMANDS};
ghost use Rattle.smx_types.specs.ProgramLists.{program_lists, raised, AreWithinLimits, ProgramLists};
ghost use Rattle.smx_types.specs.Versions.{is_hangup, least_of_programs};

use crate::command::{Command, Commands};
use crate::driver::{DriverSpec, Drivers};
use crate::items::{Items, NoMemory};
use crate::limits::{MAX_COMMANDS, MAX_DRIVERS, MAX_PROCESSES};
use crate::version::Version;
use std::alloc::Global;
use std::fmt;
use std::marker::Model;

/// The programs of all processes: the commands of process 0, then those of process 1, and so on.
pub type ProgramList = Items<Commands>;

/// The error of `Programs::new`: the lists exceed the limit for drivers, programs or commands. The error holds the
/// lists that the caller gave.
#[derive(Debug, Drop, PartialEq)]
pub struct Many {
    pub drivers: Drivers,
    pub programs: ProgramList,
}

impl Many {
    /// Copies the lists. Fails only if out of memory.
    pub fn copy(&self, alloc: Global) -> Result<Many, NoMemory>
        ensures { IfOk result (λ m. m ≡ self.now) }
    {
        Ok(Many {
            drivers: self.drivers.copy(alloc)?,
            programs: self.programs.copy(alloc)?,
        })
    }
}

impl fmt::Display for Many {
    ghost output = { λ _. Some many_words };

    fn fmt<W: fmt::Write>(&self, f: &mut fmt::Formatter<W>) -> fmt::Result {
        f.write_str("too many drivers, programs or commands")
    }
}

impl std::error::Error for Many {}

/// The drivers and programs of a run, and the version of their text. There are at most 128 drivers, 64 programs, and
/// 100,000 commands in all programs together. The version can express the drivers and programs.
#[derive(Debug, Drop, PartialEq)]
pub struct Programs {
    version: Version,
    drivers: Drivers,
    programs: ProgramList,
}

impl Model for Programs {
    ghost Value = { ProgramLists };

    ghost view = { λ p. record { version = p.version; drivers = p.drivers; programs = p.programs } };

    ghost invariant = { λ p.
        AreWithinLimits (record { version = p.version; drivers = p.drivers; programs = p.programs }) };

    ghost inverse = { λ lists.
        record { version = lists.version; drivers = lists.drivers; programs = lists.programs } };
}

impl Programs {
    /// Makes a `Programs` of these two lists, in the earliest version that can express them. Fails exactly if there are
    /// over 128 drivers, over 64 programs or over 100,000 commands. The error then holds both lists. Does not allocate.
    pub fn new(drivers: Drivers, programs: ProgramList) -> Result<Programs, Many>
        ensures taken { IfOk result (λ p. p ≡ program_lists drivers programs) }
        ensures given_back { IfErr result (λ m. m ≡ record { drivers = drivers; programs = programs }) }
        ensures within { IsOk result ↔ AreWithinLimits (program_lists drivers programs) }
    {
        if drivers.as_slice().len() > MAX_DRIVERS
            || programs.as_slice().len() > MAX_PROCESSES as usize
            || !are_few(programs.as_slice())
        {
            return Err(Many { drivers, programs });
        }
        let version = Version::least(drivers.as_slice(), hang_up(programs.as_slice()));
        Ok(Programs {
            version,
            drivers,
            programs,
        })
    }

    /// Changes the version to 2. Does not allocate.
    pub fn raised(self) -> Programs
        ensures { result ≡ raised self }
    {
        Programs {
            version: Version::V2,
            drivers: self.drivers,
            programs: self.programs,
        }
    }

    /// Returns the version of the programs text. Does not allocate.
    pub fn version(&self) -> Version
        ensures version { result ≡ self.now.version }
        ensures within { AreWithinLimits self.now }
    {
        self.version
    }

    /// Returns the earliest version that can express the drivers and programs: version 2 exactly if there are over 64
    /// drivers, or a command is a hangup. Does not allocate.
    pub fn least(&self) -> Version
        ensures { result ≡ least_of_programs self.now.drivers self.now.programs }
    {
        Version::least(self.drivers.as_slice(), hang_up(self.programs.as_slice()))
    }

    /// Returns the drivers. Does not allocate.
    pub fn drivers(&self) -> &[DriverSpec]
        ensures drivers { result.now ≡ self.now.drivers }
        ensures within { AreWithinLimits self.now }
    {
        self.drivers.as_slice()
    }

    /// Returns the program of each process. Does not allocate.
    pub fn programs(&self) -> &[Commands]
        ensures programs { result.now ≡ self.now.programs }
        ensures within { AreWithinLimits self.now }
    {
        self.programs.as_slice()
    }

    /// Returns the drivers, and the program of each process. Does not allocate.
    pub fn into_parts(self) -> (Drivers, ProgramList)
        ensures drivers { result.0 ≡ self.drivers }
        ensures programs { result.1 ≡ self.programs }
        ensures within { AreWithinLimits self }
    {
        (self.drivers, self.programs)
    }

    /// Copies the programs. Fails only if out of memory.
    pub fn copy(&self, alloc: Global) -> Result<Programs, NoMemory>
        ensures { IfOk result (λ c. c ≡ self.now) }
    {
        let drivers = self.drivers.copy(alloc)?;
        Ok(Programs {
            version: self.version,
            drivers,
            programs: self.programs.copy(alloc)?,
        })
    }
}

// Returns whether the programs have at most 100,000 commands together.
fn are_few(programs: &[Commands]) -> bool
    ensures { IsTrue result ↔ (sum_by length programs.now ≤ MAX_COMMANDS) }
{
    let mut room = MAX_COMMANDS;
    for commands in programs {
        let count = commands.as_slice().len();
        if count > room {
            return false;
        }
        room -= count;
    }
    true
}

// Returns whether a command of some program is a hangup.
fn hang_up(programs: &[Commands]) -> bool
    ensures { result ≡ list_any (list_any is_hangup) programs.now }
{
    programs
        .iter()
        .any(|commands| has_hangup(commands.as_slice()))
}

// Returns whether one of the commands is a hangup.
fn has_hangup(commands: &[Command]) -> bool
    ensures { result ≡ list_any is_hangup commands.now }
{
    commands.iter().any(|command| command.is_hangup())
}
