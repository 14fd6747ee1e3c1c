//! Opening, duplicating and closing descriptors, and hanging up streams.

ghost use Rattle.std.specs.Prelude.{◌≡◌, ◌≢◌, ℕ, ◌+◌, ◌<◌, ◌≤◌, true, length, vec_capacity, Some, Err};
ghost use Rattle.std.specs.List.{list_any};
ghost use Rattle.smx_types.specs.declared.command.Command.TheVariants.{OpenClone, OpenMinor, Dup, Close, CloseAll};
ghost use Rattle.smx_types.specs.declared.command.Command.TheVariants.{Hangup};
ghost use Rattle.smx_types.specs.declared.limits.TheConstants.{MAX_DESCRIPTORS};
ghost use Rattle.smx_types.specs.declared.reply.Reply.TheVariants.{Fd};
ghost use Rattle.smx_types.specs.declared.stream.StreamId.{StreamId};
ghost use Rattle.smx_model.specs.Configuration.{same_stream};
ghost use Rattle.smx_model.specs.KeptConfigurations.{IsSound};
ghost use Rattle.smx_streams.specs.StreamTables.{stream_at};
ghost use Rattle.smx_tables.specs.Closing.{closing};
ghost use Rattle.smx_tables.specs.declared.step_error.StepError.TheVariants as step_error;
ghost use Rattle.smx_tables.specs.Refinement.{HasOutcome, Refines, answer_of};

use crate::step_error::{StepError, done, refuse};
use crate::sweep::{reserve_for_sweep, sweep_and_reply};
use crate::tables::Tables;
use smx_streams::Streams;
use smx_types::{Fault, MAX_DESCRIPTORS, Name, Process, Reply, StreamId};

// Returns the reply that names a descriptor and its stream's minor.
fn fd_reply(opened: (u32, StreamId)) -> Reply
    ensures { result ≡ Fd opened.0 opened.1.minor }
{
    Reply::Fd {
        fd: opened.0,
        minor: u32::from(opened.1.minor),
    }
}

// Adds the streams of all descriptors of a process to `touched`.
fn touch_each(streams: &Streams, process: Process, touched: &mut Vec<StreamId>)
    requires { length touched.old.items + MAX_DESCRIPTORS ≤ vec_capacity touched.old }
    ensures named { (n : ℕ) (s : StreamId) → n < MAX_DESCRIPTORS → stream_at streams.now.fds process n ≡ Some s
        → list_any (same_stream s) touched.new.items ≡ true }
    ensures few { length touched.new.items ≤ length touched.old.items + MAX_DESCRIPTORS }
    ensures capacity { vec_capacity touched.new ≡ vec_capacity touched.old }
{
    for fd in 0..MAX_DESCRIPTORS {
        if let Some(stream) = streams.stream_of(process, fd) {
            touched.push_reserved(stream);
        }
    }
}

impl Tables {
    pub(crate) fn open_clone(
        &mut self,
        process: Process,
        name: &Name,
        reply: &mut Reply,
    ) -> Result<(), StepError>
        requires { IsSound self.old.drivers self.old.configuration }
        ensures { Refines self.old self.new process (OpenClone name.now) (answer_of result reply.new) }
    {
        let driver = self.driver_of(name)?;
        let opened = self.lists.streams.open_clone(process, driver)?;
        *reply = fd_reply(opened);
        Ok(())
    }

    pub(crate) fn open_minor(
        &mut self,
        process: Process,
        name: &Name,
        minor: u32,
        reply: &mut Reply,
    ) -> Result<(), StepError>
        ensures { Refines self.old self.new process (OpenMinor name.now minor) (answer_of result reply.new) }
    {
        let driver = self.driver_of(name)?;
        refuse(Fault::NoMinor, u32::from(self.minors_of(driver)) <= minor)?;
        let stream = StreamId {
            driver,
            minor: minor as u8,
        };
        refuse(Fault::Below, self.lists.links.is_below(stream))?;
        let opened = self.lists.streams.open_minor(process, driver, minor)?;
        *reply = fd_reply(opened);
        Ok(())
    }

    pub(crate) fn dup(
        &mut self,
        process: Process,
        fd: u32,
        reply: &mut Reply,
    ) -> Result<(), StepError>
        ensures refines { Refines self.old self.new process (Dup fd) (answer_of result reply.new) }
        ensures in_place { result ≢ Err step_error.NoMemory }
    {
        let opened = self.lists.streams.dup(process, fd)?;
        *reply = fd_reply(opened);
        Ok(())
    }

    // Closes the last descriptor of a stream that no link holds, and then sweeps: removes what belongs to streams that
    // no longer exist.
    fn close_last(
        &mut self,
        process: Process,
        fd: u32,
        stream: StreamId,
        reply: &mut Reply,
    ) -> Result<(), StepError>
        requires sound { IsSound self.old.drivers self.old.configuration }
        requires there { stream_at self.old.configuration.fds process fd ≡ Some stream }
        ensures { HasOutcome self.old self.new
            (closing self.old.drivers self.old.configuration process fd) (answer_of result reply.new) }
    {
        reserve_for_sweep(&mut self.room, &self.lists, 1)?;
        let _closed = self.lists.streams.close_fd(process, fd);
        self.room.touched.push_reserved(stream);
        *reply = sweep_and_reply(&self.drivers, &mut self.lists, &mut self.room);
        Ok(())
    }

    // If the stream still exists after the close, only the descriptor is removed, and nothing is allocated.
    pub(crate) fn close(
        &mut self,
        process: Process,
        fd: u32,
        reply: &mut Reply,
    ) -> Result<(), StepError>
        requires { IsSound self.old.drivers self.old.configuration }
        ensures { Refines self.old self.new process (Close fd) (answer_of result reply.new) }
    {
        let stream = self.stream_of(process, fd)?;
        if self.lists.streams.is_last(process, fd) {
            return self.close_last(process, fd, stream, reply);
        }
        let _stays = self.lists.streams.close_fd(process, fd);
        *reply = done(self.alloc);
        Ok(())
    }

    pub(crate) fn close_all(&mut self, process: Process, reply: &mut Reply) -> Result<(), StepError>
        requires { IsSound self.old.drivers self.old.configuration }
        ensures { Refines self.old self.new process CloseAll (answer_of result reply.new) }
    {
        reserve_for_sweep(&mut self.room, &self.lists, MAX_DESCRIPTORS as usize)?;
        touch_each(&self.lists.streams, process, &mut self.room.touched);
        self.lists.streams.close_process(process);
        *reply = sweep_and_reply(&self.drivers, &mut self.lists, &mut self.room);
        Ok(())
    }

    // A hangup needs no sweep: no stream ceases to exist.
    pub(crate) fn hangup(
        &mut self,
        name: &Name,
        minor: u32,
        reply: &mut Reply,
    ) -> Result<(), StepError>
        requires { IsSound self.old.drivers self.old.configuration }
        ensures refines { (process : ℕ)
            → Refines self.old self.new process (Hangup name.now minor) (answer_of result reply.new) }
        ensures in_place { result ≢ Err step_error.NoMemory }
    {
        let stream = self.leaf_stream(name, minor)?;
        self.lists.streams.hang(stream);
        *reply = done(self.alloc);
        Ok(())
    }
}
