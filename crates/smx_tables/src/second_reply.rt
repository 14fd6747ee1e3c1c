//! A second copy of a reply, in memory that is reserved before the command is performed.

ghost use Rattle.std.specs.Prelude.{◌≡◌, ◌≢◌, ◌≤◌, [], length, vec_capacity, IfOk, IfErr, IsTrue, Err};
ghost use Rattle.smx_model.specs.Commands.{after_outcome, outcome, read_outcome, receive_outcome, step};
ghost use Rattle.smx_model.specs.KeptConfigurations.{IsSound};
ghost use Rattle.smx_model.specs.LawfulHistories.{delivered_by};
ghost use Rattle.smx_tables.specs.declared.step_error.StepError.TheVariants as step_error;
ghost use Rattle.smx_tables.specs.Machine.{takes_no_memory};
ghost use Rattle.smx_tables.specs.SecondReplies.{HasRoomFor, HasRoomForReply, MakesRoom};
ghost use Rattle.smx_tables.specs.UnlinkTargets.{unlinks};

use crate::step_error::StepError;
use crate::tables::Tables;
use smx_types::{
    Bytes, Command, Fault, LinkKind, NoMemory, Place, Process, Reply, Serials, Side, StreamId,
    Which,
};
use std::alloc::Global;

/// Memory for a second copy of a reply: two empty lists with room for the bytes and for the serials of the reply.
#[derive(Drop)]
pub struct ReplyRoom {
    bytes: Vec<u8>,
    serials: Vec<u32>,
}

// Reserves room for these numbers of bytes and serials.
fn room_for(alloc: Global, bytes: usize, serials: usize) -> Result<ReplyRoom, NoMemory>
    ensures { IfOk result (HasRoomFor bytes serials) }
{
    Ok(ReplyRoom {
        bytes: Vec::with_capacity(alloc, bytes)?,
        serials: Vec::with_capacity(alloc, serials)?,
    })
}

fn no_room(alloc: Global) -> ReplyRoom
    ensures { HasRoomFor 0 0 result }
{
    ReplyRoom {
        bytes: Vec::new(alloc),
        serials: Vec::new(alloc),
    }
}

impl Tables {
    // Reserves room for the bytes of the first message on a side of a stream.
    fn room_for_first(&self, place: Place) -> Result<ReplyRoom, StepError>
        ensures makes { MakesRoom self.now (receive_outcome self.now.drivers self.now.configuration place) result }
        ensures in_place { delivered_by (after_outcome self.now.drivers self.now.configuration
            (receive_outcome self.now.drivers self.now.configuration place)).1 ≡ [] → result ≢ Err step_error.NoMemory }
    {
        let Some(message) = self.lists.queues.front(place) else {
            return Err(StepError::Refused(Fault::Empty));
        };
        Ok(room_for(self.alloc, message.bytes.as_slice().len(), 0)?)
    }

    // Reserves room for the serials of all messages.
    fn room_for_all(&self) -> Result<ReplyRoom, StepError>
        ensures ok { IfOk result (HasRoomFor 0 (length self.now.configuration.flow)) }
        ensures err { IfErr result (λ e. e ≡ step_error.NoMemory) }
    {
        Ok(room_for(self.alloc, 0, self.lists.queues.len())?)
    }

    // Reserves room for the serials of all messages. Fails if the removal of links is refused.
    #[tactic(auto, using(crate::proofs::DroppedLemmas::few_left))]
    fn room_for_unlink(
        &self,
        process: Process,
        fd: u32,
        which: Which,
        kind: LinkKind,
    ) -> Result<ReplyRoom, StepError>
        ensures { MakesRoom self.now
            (unlinks self.now.drivers self.now.configuration process fd which kind) result }
    {
        let stream = self.mux_stream(process, fd)?;
        self.check_targets(which, kind, stream)?;
        self.room_for_all()
    }

    /// Reserves room for a second copy of the reply to a command, before the command is performed. If the call already
    /// notices that the command is refused, it fails with the fault.
    #[tactic(auto, using(crate::proofs::DroppedLemmas::few_left))]
    pub fn room_for_reply(
        &self,
        process: Process,
        command: &Command,
    ) -> Result<ReplyRoom, StepError>
        requires { IsSound self.now.drivers self.now.configuration }
        ensures makes { MakesRoom self.now
            (outcome self.now.drivers self.now.configuration process command.now) result }
        ensures in_place { IsTrue (takes_no_memory command.now)
            → delivered_by (step self.now.drivers self.now.configuration process command.now).1 ≡ []
            → result ≢ Err step_error.NoMemory }
    {
        match command {
            Command::Read { fd } => {
                let stream = self.free_stream(process, *fd)?;
                if self.is_at_end(stream) {
                    return Ok(no_room(self.alloc));
                }
                let side = Side::Read;
                self.room_for_first(Place { stream, side })
            }
            Command::Transmit { driver, minor } => {
                let stream = self.live_leaf(driver, *minor)?;
                let side = Side::Write;
                self.room_for_first(Place { stream, side })
            }
            Command::Close { fd } => {
                let _stream = self.stream_of(process, *fd)?;
                self.room_for_all()
            }
            Command::CloseAll => self.room_for_all(),
            Command::Unlink { fd, which } => {
                self.room_for_unlink(process, *fd, *which, LinkKind::Ordinary)
            }
            Command::Punlink { fd, which } => {
                self.room_for_unlink(process, *fd, *which, LinkKind::Persistent)
            }
            Command::Flush { fd, .. } => {
                let _stream = self.live_stream(process, *fd)?;
                self.room_for_all()
            }
            Command::OpenClone { .. }
            | Command::OpenMinor { .. }
            | Command::Dup { .. }
            | Command::Link { .. }
            | Command::Plink { .. }
            | Command::Bind { .. }
            | Command::Unbind { .. }
            | Command::Route { .. }
            | Command::Unroute { .. }
            | Command::Write { .. }
            | Command::Inject { .. }
            | Command::Hangup { .. } => Ok(no_room(self.alloc)),
        }
    }
}

// Returns a list with these values, in the memory of the list `room`.
fn filled<T: Copy>(room: Vec<T>, values: &[T]) -> Vec<T>
    requires empty { room.items ≡ [] }
    requires room { length values.now ≤ vec_capacity room }
    ensures { result.items ≡ values.now }
{
    let mut made = room;
    let _ = made.extend_from_slice(values);
    made
}

impl ReplyRoom {
    /// Returns a copy of the reply. Does not allocate.
    pub fn copy_of(self, reply: &Reply) -> Reply
        requires { HasRoomForReply reply.now self }
        ensures { result ≡ reply.now }
    {
        match *reply {
            Reply::Fd { fd, minor } => Reply::Fd { fd, minor },
            Reply::Id(id) => Reply::Id(id),
            Reply::Took { serial } => Reply::Took { serial },
            Reply::Got {
                serial,
                addr,
                ref bytes,
            } => Reply::Got {
                serial,
                addr,
                bytes: Bytes::from_vec(filled(self.bytes, bytes.as_slice())),
            },
            Reply::Done { ref dropped } => Reply::Done {
                dropped: Serials::from_vec(filled(self.serials, dropped.as_slice())),
            },
            Reply::Eof => Reply::Eof,
            Reply::Fault(fault) => Reply::Fault(fault),
        }
    }
}
