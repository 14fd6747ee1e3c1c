//! A configuration together with the history that led to it.

ghost use Rattle.std.specs.Prelude.{◌≡◌, ◌<◌, ◌≤◌, ◌↔◌, [], length, IfOk, IfErr, OnOk, OnErr, IsErrOf};
ghost use Rattle.smx_types.specs.declared.limits.TheConstants.{MAX_COMMANDS};
ghost use Rattle.smx_model.specs.Configuration.{empty};
ghost use Rattle.smx_model.specs.DriverList.{IsDriverList};
ghost use Rattle.smx_model.specs.Histories.{after};
ghost use Rattle.smx_config.specs.DriverFaults.{RefusesDrivers};
ghost use Rattle.smx_shared.specs.Recorded.{next_entry, recorded_of, with_entry, IsRecord, IsSoundSystem, Recorded};
ghost use Rattle.smx_shared.specs.declared.shared_fault.ApplyFault.TheVariants.{HistoryFull};

use crate::entry_sink::EntrySink;
use crate::shared_fault::ApplyFault;
use smx_config::{Config, ConfigFault};
use smx_types::{Command, Copied, DriverSpec, Entry, NoMemory, Process, Reply};
use std::alloc::Global;
use std::marker::Model;

/// A configuration and its history: one entry for each command that was performed, up to a limit. Contracts see the
/// drivers, the limit and the history. The sink receives the entries. The default sink is a vector, which keeps them
/// all.
#[derive(Debug)]
pub struct System<K: EntrySink = Vec<Entry>> {
    alloc: Global,
    config: Config,
    limit: usize,
    sink: K,
}

impl<K: EntrySink> Drop for System<K> {
    // Written by hand, so that functions drop a system with one call, not part by part.
    fn drop(self) {
        let System {
            alloc: _,
            config: _config,
            limit: _,
            sink: _sink,
        } = self;
    }
}

impl<K: EntrySink> Model for System<K> {
    ghost Value = { Recorded };

    ghost view = { λ s. recorded_of s.config s.limit (K.entries s.sink) };

    ghost invariant = { λ s. IsRecord s.config s.limit (K.entries s.sink) };
}

// Makes room for the next entry. Fails with `HistoryFull` exactly if the limit allows no further entry.
fn make_room<K: EntrySink>(sink: &mut K, limit: usize) -> Result<(), ApplyFault>
    ensures same { K.entries sink.new ≡ K.entries sink.old }
    ensures below { OnOk result (length (K.entries sink.old) < limit) }
    ensures room { OnOk result (K.has_room sink.new) }
    ensures full { IsErrOf result HistoryFull ↔ (limit ≤ length (K.entries sink.old)) }
{
    if sink.count() >= limit {
        return Err(ApplyFault::HistoryFull);
    }
    sink.make_room()?;
    Ok(())
}

impl System {
    /// Makes a system over these drivers, with no history. The system keeps the allocator for all later allocations.
    /// `limit` is the largest number of entries that the system can have, at most 100,000. Fails if the drivers are
    /// invalid, or if an allocation fails.
    pub fn new(alloc: Global, drivers: &[DriverSpec], limit: usize) -> Result<System, ConfigFault>
        requires { limit ≤ MAX_COMMANDS }
        ensures drivers { IfOk result (λ s. (s.drivers ≡ drivers.now) × IsDriverList drivers.now) }
        ensures limit { IfOk result (λ s. s.limit ≡ limit) }
        ensures empty { IfOk result (λ s. s.history ≡ []) }
        ensures refused { IfErr result (RefusesDrivers drivers.now) }
    {
        let config = Config::new(alloc, drivers)?;
        Ok(System::begin(alloc, config, limit, Vec::new(alloc)))
    }

    /// Returns the history. Takes no memory.
    pub fn entries(&self) -> &[Entry]
        ensures entries { result.now ≡ self.now.history }
        ensures sound { IsSoundSystem self.now }
    {
        self.sink.as_slice()
    }

    /// Returns a copy of this system. The copy keeps this allocator. Fails if an allocation fails.
    pub fn copy(&self, alloc: Global) -> Result<System, NoMemory>
        ensures { IfOk result (λ s. s ≡ self.now) }
    {
        let config = self.config.copy(alloc)?;
        let sink = Entry::copies(alloc, &self.sink)?;
        Ok(System {
            alloc,
            config,
            limit: self.limit,
            sink,
        })
    }
}

impl<K: EntrySink> System<K> {
    /// Makes a system from an empty configuration and a sink that was given no entry. Takes no memory.
    pub fn begin(alloc: Global, config: Config, limit: usize, sink: K) -> System<K>
        requires limited { limit ≤ MAX_COMMANDS }
        requires valid_drivers { IsDriverList config.drivers }
        requires fresh { config.configuration ≡ empty }
        requires unused { K.entries sink ≡ [] }
        ensures drivers { result.drivers ≡ config.drivers }
        ensures limit { result.limit ≡ limit }
        ensures empty { result.history ≡ [] }
    {
        System {
            alloc,
            config,
            limit,
            sink,
        }
    }

    /// Performs one command, adds its entry with the reply to the history, and returns that same entry. Fails with
    /// `HistoryFull` exactly if the history is full, which is tested first. Otherwise fails if an allocation fails;
    /// this can happen even for a command that would be refused, because a refused command gets an entry too. A
    /// failure changes nothing.
    pub fn apply(&mut self, process: Process, command: &Command) -> Result<Entry, ApplyFault>
        // The effect.
        ensures answer { IfOk result (λ e. e ≡ next_entry self.old process command.now) }
        ensures ok { OnOk result (self.new ≡ with_entry self.old process command.now) }
        // The refusals.
        ensures full { IsErrOf result HistoryFull ↔ (length self.old.history ≡ self.old.limit) }
        ensures err { OnErr result (self.new ≡ self.old) }
        // The state afterwards, in either case.
        ensures sound { IsSoundSystem self.new }
    {
        make_room(&mut self.sink, self.limit)?;
        let mut kept = command.copy(self.alloc)?;
        let command_again = command.copy(self.alloc)?;
        let (mut reply, reply_again) = self.config.step_twin(process, command)?;
        self.sink.add(process, &mut kept, &mut reply);
        Ok(Entry {
            process,
            command: command_again,
            reply: reply_again,
        })
    }

    /// Performs one command as `apply` does, but doesn't return the entry. Copies nothing: a sink that keeps the
    /// command moves it out of `command`. After a failure `command` is unchanged.
    pub fn perform(&mut self, process: Process, command: &mut Command) -> Result<(), ApplyFault>
        // The effect.
        ensures ok { OnOk result (self.new ≡ with_entry self.old process command.old) }
        // The refusals.
        ensures full { IsErrOf result HistoryFull ↔ (length self.old.history ≡ self.old.limit) }
        ensures err { OnErr result (self.new ≡ self.old) }
        ensures kept { OnErr result (command.new ≡ command.old) }
        // The state afterwards, in either case.
        ensures sound { IsSoundSystem self.new }
    {
        make_room(&mut self.sink, self.limit)?;
        let mut reply = Reply::Eof;
        self.config.perform(process, command, &mut reply)?;
        self.sink.add(process, command, &mut reply);
        Ok(())
    }

    /// Returns the configuration after the history. Takes no memory.
    pub fn config(&self) -> &Config
        ensures drivers { result.now.drivers ≡ self.now.drivers }
        ensures now { result.now.configuration ≡ after self.now.drivers self.now.history }
    {
        &self.config
    }

    /// Returns the number of entries of the history. Takes no memory.
    pub fn count(&self) -> usize
        ensures count { result ≡ length self.now.history }
        ensures sound { IsSoundSystem self.now }
    {
        self.sink.count()
    }

    /// Moves out the sink and the configuration. The sink was given the history, and the configuration is the one after
    /// the history. Takes no memory.
    pub fn into_parts(self) -> (K, Config)
        ensures given { K.entries result.0 ≡ self.history }
        ensures drivers { result.1.drivers ≡ self.drivers }
        ensures now { result.1.configuration ≡ after self.drivers self.history }
        ensures sound { IsSoundSystem self }
    {
        let System {
            alloc: _,
            config,
            limit: _,
            sink,
        } = self;
        (sink, config)
    }
}
