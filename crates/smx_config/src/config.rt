//! A configuration that one thread uses.

ghost use Rattle.std.specs.Option.{option_copied};
ghost use Rattle.std.specs.Prelude.{◌≡◌, [], length, IfOk, IfErr, IsOk, IsErr, IsTrue, OnOk, OnErr};
ghost use Rattle.smx_types.specs.declared.reply.Fault.{Fault};
ghost use Rattle.smx_types.specs.declared.reply.Reply.TheVariants as replies;
ghost use Rattle.smx_model.specs.Commands.{outcome, step};
ghost use Rattle.smx_model.specs.Configuration.{empty};
ghost use Rattle.smx_model.specs.DriverList.{IsDriverList};
ghost use Rattle.smx_model.specs.Hangups.{is_hung};
ghost use Rattle.smx_model.specs.KeptConfigurations.{IsKept};
ghost use Rattle.smx_model.specs.LawfulHistories.{delivered_by};
ghost use Rattle.smx_model.specs.Queues.{first_message};
ghost use Rattle.smx_model.specs.Settling.{next_place};
ghost use Rattle.smx_model.specs.Views.{view};
ghost use Rattle.smx_model.specs.Waits.{link_above, routed_link};
ghost use Rattle.smx_config.specs.DriverFaults.{RefusesDrivers};
ghost use Rattle.smx_tables.specs.Machine.{takes_no_memory};

use crate::config_fault::{ConfigFault, check_drivers};
use crate::hops::{Hops, forget_changed, no_hops};
use crate::marks::{Marks, copy_marks, no_marks};
use crate::settling::settle;
use crate::wakes::{Wakes, wakes_of};
use crate::waking::wake;
use smx_tables::{StepError, Tables};
use smx_types::{
    Command, ConfigView, DriverSpec, Link, Message, NoMemory, Place, Process, Reply, StreamId,
};
use std::alloc::Global;
use std::marker::Model;

/// Some drivers, and the configuration over these drivers. Contracts see both as one value.
#[derive(Debug)]
pub struct Config {
    tables: Tables,
    marks: Marks,
    hops: Hops,
}

impl Drop for Config {
    // Written by hand, so that functions drop a configuration with one call, not part by part.
    fn drop(self) {
        let Config {
            tables: _tables,
            marks: _marks,
            hops: _hops,
        } = self;
    }
}

impl Model for Config {
    ghost use Rattle.smx_tables.specs.Machine.{Machine};

    ghost Value = { Machine };

    ghost use Rattle.smx_config.specs.ModelOfConfig.{machine_of, ConfigInvariant};

    ghost view = { machine_of };

    ghost invariant = { ConfigInvariant };
}

impl Config {
    /// Makes the empty configuration over these drivers. The configuration keeps the allocator for all later
    /// allocations. Fails with the first of these faults: there are more than 128 drivers; a driver is invalid or has
    /// the name of an earlier one; an allocation fails.
    pub fn new(alloc: Global, drivers: &[DriverSpec]) -> Result<Config, ConfigFault>
        ensures drivers { IfOk result (λ c. (c.drivers ≡ drivers.now) × IsDriverList drivers.now) }
        ensures empty { IfOk result (λ c. c.configuration ≡ empty) }
        ensures refused { IfErr result (RefusesDrivers drivers.now) }
    {
        check_drivers(drivers)?;
        let tables = Tables::new(alloc, drivers)?;
        let count = tables.queues().place_count();
        let marks = no_marks(alloc, count)?;
        let hops = no_hops(alloc, count)?;
        Ok(Config {
            tables,
            marks,
            hops,
        })
    }

    /// Performs a command of a process. The reply and the new configuration are those of the model's command table,
    /// after messages have moved on. Nothing changes if the command is refused (its reply is then a `Reply::Fault`), or
    /// if an allocation fails. `dup`, `unbind`, `unroute`, `read`, `transmit`, `hangup` and every refused command don't
    /// allocate, so they always get a reply.
    pub fn step(&mut self, process: Process, command: &Command) -> Result<Reply, NoMemory>
        // The effect.
        ensures drivers { self.new.drivers ≡ self.old.drivers }
        ensures ok { IfOk result (λ r.
            step self.old.drivers self.old.configuration process command.now ≡ (self.new.configuration, r)) }
        // Replies and failures that change nothing.
        ensures fault { IfOk result (λ r. (f : Fault) → r ≡ replies.Fault f → self.new ≡ self.old) }
        ensures err { IfErr result (λ _. self.new ≡ self.old) }
        // Commands that always get a reply.
        ensures in_place { IsTrue (takes_no_memory command.now) → IsOk result }
        ensures refused { IsErr (outcome self.old.drivers self.old.configuration process command.now) → IsOk result }
    {
        let mut reply = Reply::Eof;
        self.perform(process, command, &mut reply)?;
        Ok(reply)
    }

    /// Performs a command as `step` does, but writes its reply to `reply`, so that no caller has to move the reply in
    /// memory.
    pub fn perform(
        &mut self,
        process: Process,
        command: &Command,
        reply: &mut Reply,
    ) -> Result<(), NoMemory>
        // The effect.
        ensures drivers { self.new.drivers ≡ self.old.drivers }
        ensures ok { OnOk result
            (step self.old.drivers self.old.configuration process command.now ≡ (self.new.configuration, reply.new)) }
        // Replies and failures that change nothing.
        ensures fault { OnOk result ((f : Fault) → reply.new ≡ replies.Fault f → self.new ≡ self.old) }
        ensures err { OnErr result (self.new ≡ self.old) }
        // Commands that always get a reply.
        ensures in_place { IsTrue (takes_no_memory command.now) → IsOk result }
        ensures refused { IsErr (outcome self.old.drivers self.old.configuration process command.now) → IsOk result }
    {
        let named = self.tables.message_stream(process, command);
        let wakes = wakes_of(&self.tables, process, command, named).unwrap_or(Wakes::Nothing);
        let answer = self.tables.perform(process, command, named, reply);
        if answer.is_ok() {
            forget_changed(&mut self.hops, command);
            wake(&self.tables, &mut self.marks, wakes, reply);
            settle(&mut self.tables, &mut self.marks, &mut self.hops);
        }
        match answer {
            Ok(()) => {
                reply.shrink();
                Ok(())
            }
            Err(StepError::Refused(fault)) => {
                *reply = Reply::Fault(fault);
                Ok(())
            }
            Err(StepError::NoMemory) => Err(NoMemory),
        }
    }

    /// Performs a command as `step` does, and returns its reply twice. Allocates memory for the second reply before the
    /// first change, so `read` and `transmit` allocate if they deliver a message. `dup`, `unbind`, `unroute`, `hangup`
    /// and every refused command don't allocate, so they always get a reply.
    pub fn step_twin(
        &mut self,
        process: Process,
        command: &Command,
    ) -> Result<(Reply, Reply), NoMemory>
        // The effect.
        ensures drivers { self.new.drivers ≡ self.old.drivers }
        ensures ok { IfOk result (λ r.
            step self.old.drivers self.old.configuration process command.now ≡ (self.new.configuration, r.0)) }
        ensures twice { IfOk result (λ r. r.1 ≡ r.0) }
        // Replies and failures that change nothing.
        ensures fault { IfOk result (λ r. (f : Fault) → r.0 ≡ replies.Fault f → self.new ≡ self.old) }
        ensures err { IfErr result (λ _. self.new ≡ self.old) }
        // Commands that always get a reply.
        ensures in_place { IsTrue (takes_no_memory command.now)
            → delivered_by (step self.old.drivers self.old.configuration process command.now).1 ≡ [] → IsOk result }
        ensures refused { IsErr (outcome self.old.drivers self.old.configuration process command.now) → IsOk result }
    {
        match self.tables.room_for_reply(process, command) {
            Ok(room) => {
                let reply = self.step(process, command)?;
                let again = room.copy_of(&reply);
                Ok((reply, again))
            }
            Err(StepError::Refused(fault)) => Ok((Reply::Fault(fault), Reply::Fault(fault))),
            Err(StepError::NoMemory) => Err(NoMemory),
        }
    }

    /// Returns the view of the configuration: the lines that show it. Fails if an allocation fails. Whichever commands
    /// came before, the links form no cycle, no stream is below two links, nothing is left of streams that no longer
    /// exist, and no message can move on.
    pub fn show(&self) -> Result<ConfigView, NoMemory>
        ensures view { IfOk result (λ v. v ≡ view self.now.drivers self.now.configuration) }
        ensures kept { IsKept self.now.drivers self.now.configuration }
    {
        self.tables.show()
    }

    /// Returns the same view as `show`, and consumes the configuration: no message is copied. Fails only if out of
    /// memory.
    pub fn into_view(self) -> Result<ConfigView, NoMemory>
        ensures { IfOk result (λ v. v ≡ view self.drivers self.configuration) }
    {
        let Config {
            tables,
            marks: _marks,
            hops: _hops,
        } = self;
        tables.into_view()
    }

    /// Returns the number of links, at most 1,024. Takes no memory.
    pub fn link_count(&self) -> u32
        ensures { result ≡ length self.now.configuration.links }
    {
        self.tables.links().len() as u32
    }

    /// Returns the first message at the place, if there is one. Takes no memory.
    pub fn first_message(&self, place: Place) -> Option<&Message>
        ensures { option_copied result ≡ first_message self.now.configuration.flow place }
    {
        self.tables.queues().front(place)
    }

    /// Returns the place to which a message with this address goes next from `place`, even if that next place is full.
    /// Takes no memory.
    pub fn next_place(&self, place: Place, addr: u32) -> Option<Place>
        ensures { result ≡ next_place self.now.drivers self.now.configuration place addr }
    {
        self.tables.next_place(place, addr)
    }

    /// Returns the link that the driver's route for the address names, if there is one. Takes no memory.
    pub fn routed_link(&self, driver: u8, addr: u32) -> Option<&Link>
        ensures { option_copied result
            ≡ routed_link self.now.configuration.links self.now.configuration.routes driver addr }
    {
        self.tables.routed_link(driver, addr)
    }

    /// Returns the link whose lower stream is this stream, if there is one. Takes no memory.
    pub fn link_above(&self, stream: StreamId) -> Option<&Link>
        ensures { option_copied result ≡ link_above self.now.configuration.links stream }
    {
        self.tables.links().above(stream)
    }

    /// Returns whether the stream's device has hung up. Takes no memory.
    pub fn is_hung(&self, stream: StreamId) -> bool
        ensures { result ≡ is_hung self.now.configuration.hungs stream }
    {
        self.tables.is_hung(stream)
    }

    /// Returns the drivers that the configuration was made with. No command changes them. Takes no memory.
    pub fn drivers(&self) -> &[DriverSpec]
        ensures value { result.now ≡ self.now.drivers }
        ensures list { IsDriverList self.now.drivers }
    {
        self.tables.drivers()
    }

    /// Copies the configuration. The copy keeps this allocator.
    pub fn copy(&self, alloc: Global) -> Result<Config, NoMemory>
        ensures { IfOk result (λ c. c ≡ self.now) }
    {
        Ok(Config {
            tables: self.tables.copy(alloc)?,
            marks: copy_marks(alloc, &self.marks)?,
            hops: self.hops.clone()?,
        })
    }
}
