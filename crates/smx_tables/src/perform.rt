//! The performance of one command. Messages move on afterwards, in `smx_config`.

ghost use Rattle.std.specs.Prelude.{◌≡◌, ◌≢◌, IfOk, IsTrue, Err};
ghost use Rattle.smx_model.specs.KeptConfigurations.{IsSound};
ghost use Rattle.smx_model.specs.KnownStreams.{IsKnown};
ghost use Rattle.smx_tables.specs.declared.step_error.StepError.TheVariants as step_error;
ghost use Rattle.smx_tables.specs.Machine.{takes_no_memory};
ghost use Rattle.smx_tables.specs.Refinement.{Refines, answer_of};
ghost use Rattle.smx_tables.specs.MessageStreams.{message_stream};

use crate::step_error::StepError;
use crate::tables::Tables;
use smx_types::{Command, Fault, LinkKind, Process, Reply, Side, StreamId};

impl Tables {
    /// Performs a command of a process, without moving messages on to other places. `named` is the result of
    /// `message_stream` for this command. Writes the reply to `reply`, so that no caller has to move the reply in
    /// memory. If the command is refused, or if an allocation fails, the tables have not changed. `dup`, `unbind`,
    /// `unroute`, `read`, `transmit` and `hangup` do not allocate.
    pub fn perform(
        &mut self,
        process: Process,
        command: &Command,
        named: Result<StreamId, Fault>,
        reply: &mut Reply,
    ) -> Result<(), StepError>
        requires sound { IsSound self.old.drivers self.old.configuration }
        requires known { IfOk named (IsKnown self.old.drivers) }
        requires named { named ≡ message_stream self.old.drivers self.old.configuration process command.now }
        ensures refines { Refines self.old self.new process command.now (answer_of result reply.new) }
        ensures in_place { IsTrue (takes_no_memory command.now) → result ≢ Err step_error.NoMemory }
    {
        match command {
            Command::OpenClone { driver } => self.open_clone(process, driver, reply),
            Command::OpenMinor { driver, minor } => {
                self.open_minor(process, driver, *minor, reply)
            }
            Command::Dup { fd } => self.dup(process, *fd, reply),
            Command::Close { fd } => self.close(process, *fd, reply),
            Command::CloseAll => self.close_all(process, reply),
            Command::Link { fd, arg } => {
                self.link_as(process, *fd, *arg, LinkKind::Ordinary, reply)
            }
            Command::Plink { fd, arg } => {
                self.link_as(process, *fd, *arg, LinkKind::Persistent, reply)
            }
            Command::Unlink { fd, which } => {
                self.unlink_as(process, *fd, *which, LinkKind::Ordinary, reply)
            }
            Command::Punlink { fd, which } => {
                self.unlink_as(process, *fd, *which, LinkKind::Persistent, reply)
            }
            Command::Bind { fd, addr } => self.bind(process, *fd, *addr, reply),
            Command::Unbind { fd } => self.unbind(process, *fd, reply),
            Command::Route { fd, addr, id } => self.route(process, *fd, *addr, *id, reply),
            Command::Unroute { fd, addr } => self.unroute(process, *fd, *addr, reply),
            Command::Write { addr, bytes, .. } => {
                self.send(named, Side::Write, *addr, bytes, reply)
            }
            Command::Read { .. } => self.read(named, reply),
            Command::Flush { fd, sides } => self.flush(process, *fd, *sides, reply),
            Command::Inject { addr, bytes, .. } => {
                self.send(named, Side::Read, *addr, bytes, reply)
            }
            Command::Transmit { .. } => self.receive(named, Side::Write, reply),
            Command::Hangup { driver, minor } => self.hangup(driver, *minor, reply),
        }
    }
}
