//! Writing, reading and flushing messages, and the messages that devices bring and take.

ghost use Rattle.std.specs.Prelude.{◌≡◌, ◌≢◌, ◌==◌, ◌||◌, nat_lt, nat_le, length, IfOk, Err};
ghost use Rattle.smx_types.specs.declared.command.Command.TheVariants.{Flush};
ghost use Rattle.smx_types.specs.declared.limits.TheConstants.{NUMBER_END};
ghost use Rattle.smx_model.specs.Commands.{receive_outcome};
ghost use Rattle.smx_model.specs.DriverList.{max_of};
ghost use Rattle.smx_model.specs.KeptConfigurations.{IsSound};
ghost use Rattle.smx_model.specs.KnownStreams.{IsKnown};
ghost use Rattle.smx_model.specs.Queues.{is_full};
ghost use Rattle.smx_tables.specs.Refinement.{HasOutcome, Refines, answer_of};
ghost use Rattle.smx_tables.specs.declared.step_error.StepError.TheVariants as step_error;
ghost use Rattle.smx_tables.specs.Sending.{is_at_end, may_send, read_from, received_from, sent_to};

use crate::dropped_messages::drop_sides;
use crate::properties::max_of;
use crate::step_error::{StepError, refuse};
use crate::sweep::{reserve_for_sweep, sweep_and_reply};
use crate::tables::Tables;
use smx_types::{
    Bytes, DriverSpec, Fault, Message, NUMBER_END, Place, Process, Reply, Side, Sides, StreamId,
};

// Returns whether there are no bytes, or more than the driver allows for a message.
fn has_bad_size(drivers: &[DriverSpec], place: Place, bytes: &Bytes) -> bool
    ensures { result ≡ ((length bytes.now == 0) || nat_lt (max_of drivers.now place.stream.driver) (length bytes.now)) }
{
    let len = bytes.as_slice().len();
    len == 0 || len > max_of(drivers, place.stream.driver as usize) as usize
}

impl Tables {
    // Returns whether the place is full, or no serial is left.
    fn has_no_room(&self, place: Place) -> bool
        ensures { result
            ≡ (is_full self.now.configuration place || nat_le NUMBER_END self.now.configuration.next_serial) }
    {
        self.lists.queues.is_full(place) || self.lists.next_serial >= NUMBER_END
    }

    // Checks whether the bytes may be sent to the place. Fails with the first refusal that applies.
    fn check_send(&self, place: Place, bytes: &Bytes) -> Result<(), Fault>
        ensures { result ≡ may_send self.now.drivers self.now.configuration place bytes.now }
    {
        refuse(Fault::BadSize, has_bad_size(&self.drivers, place, bytes))?;
        refuse(Fault::Full, self.has_no_room(place))
    }

    // Sends a message to a side of the stream that the command names.
    pub(crate) fn send(
        &mut self,
        named: Result<StreamId, Fault>,
        side: Side,
        addr: u32,
        bytes: &Bytes,
        reply: &mut Reply,
    ) -> Result<(), StepError>
        requires { IfOk named (IsKnown self.old.drivers) }
        ensures { HasOutcome self.old self.new
            (sent_to self.old.drivers self.old.configuration named side addr bytes.now) (answer_of result reply.new) }
    {
        let stream = named?;
        let place = Place { stream, side };
        self.check_send(place, bytes)?;
        let bytes = bytes.copy(self.alloc)?;
        self.lists.queues.reserve_one()?;
        let serial = self.lists.next_serial;
        let message = Message {
            serial,
            addr,
            bytes,
        };
        self.lists.queues.put(place, message);
        self.lists.next_serial = serial + 1;
        *reply = Reply::Took { serial };
        Ok(())
    }

    fn receive_from(&mut self, place: Place, reply: &mut Reply) -> Result<(), StepError>
        ensures outcome { HasOutcome self.old self.new
            (receive_outcome self.old.drivers self.old.configuration place) (answer_of result reply.new) }
        ensures in_place { result ≢ Err step_error.NoMemory }
    {
        let Some(message) = self.lists.queues.take(place) else {
            return Err(StepError::Refused(Fault::Empty));
        };
        *reply = Reply::Got {
            serial: message.serial,
            addr: message.addr,
            bytes: message.bytes,
        };
        Ok(())
    }

    // Returns whether the stream is hung up and there is nothing to read.
    pub(crate) fn is_at_end(&self, stream: StreamId) -> bool
        ensures { result ≡ is_at_end self.now.configuration stream }
    {
        let side = Side::Read;
        self.lists.streams.is_hung(stream)
            && self.lists.queues.front(Place { stream, side }).is_none()
    }

    // Removes the first message on the read side of the stream that the command names, and replies with it. If the
    // stream is hung up and has no message there, replies with the end of file.
    pub(crate) fn read(
        &mut self,
        named: Result<StreamId, Fault>,
        reply: &mut Reply,
    ) -> Result<(), StepError>
        ensures outcome { HasOutcome self.old self.new
            (read_from self.old.drivers self.old.configuration named) (answer_of result reply.new) }
        ensures in_place { result ≢ Err step_error.NoMemory }
    {
        let stream = named?;
        if self.is_at_end(stream) {
            *reply = Reply::Eof;
            return Ok(());
        }
        let side = Side::Read;
        self.receive_from(Place { stream, side }, reply)
    }

    // Removes the first message on a side of the stream that the command names, and replies with it.
    pub(crate) fn receive(
        &mut self,
        named: Result<StreamId, Fault>,
        side: Side,
        reply: &mut Reply,
    ) -> Result<(), StepError>
        ensures outcome { HasOutcome self.old self.new
            (received_from self.old.drivers self.old.configuration named side) (answer_of result reply.new) }
        ensures in_place { result ≢ Err step_error.NoMemory }
    {
        let stream = named?;
        self.receive_from(Place { stream, side }, reply)
    }

    pub(crate) fn flush(
        &mut self,
        process: Process,
        fd: u32,
        sides: Sides,
        reply: &mut Reply,
    ) -> Result<(), StepError>
        requires { IsSound self.old.drivers self.old.configuration }
        ensures { Refines self.old self.new process (Flush fd sides) (answer_of result reply.new) }
    {
        let stream = self.live_stream(process, fd)?;
        let room = &mut self.room;
        reserve_for_sweep(room, &self.lists, 0)?;
        drop_sides(&mut self.lists.queues, stream, sides, &mut room.dropped);
        *reply = sweep_and_reply(&self.drivers, &mut self.lists, room);
        Ok(())
    }
}
