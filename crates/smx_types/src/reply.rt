//! Replies, and the faults for which commands are refused.

ghost use Rattle.std.specs.Prelude.{◌≡◌, IfOk};
ghost use Rattle.smx_types.specs.Versions.{tells_of_hangup};

use crate::items::{Copied, NoMemory};
use crate::message::{Bytes, Serials};
use std::alloc::Global;

/// Why a command was refused. A refused command changes nothing.
#[derive(Clone, Copy, Debug, PartialEq, Eq)]
pub enum Fault {
    /// `EBADF fd`: the process has no such open descriptor.
    BadDescriptor,
    /// `EINVAL below`: the stream is linked below a driver.
    Below,
    /// `EINVAL notmux`: the stream's driver is a leaf.
    NotMux,
    /// `EINVAL already`: the stream to be linked is already linked below a driver.
    AlreadyBelow,
    /// `EINVAL cycle`: the upper and the lower driver of the new link are the same, or links already lead down from the
    /// lower driver to the upper one.
    Cycle,
    /// `EAGAIN links`: there are 1,024 links, or no id is left.
    TooManyLinks,
    /// `EINVAL id`: no link has that id, or the command is not allowed to remove or use that link.
    NoLink,
    /// `ENXIO driver`: there is no driver with that name, or the command requires a device and the driver
    /// is a multiplexer.
    NoDriver,
    /// `ENXIO minor`: the driver has no free minor, it doesn't have this minor, or the stream of this minor doesn't
    /// exist.
    NoMinor,
    /// `EMFILE`: the process has 16 descriptors.
    TooManyDescriptors,
    /// `EADDRINUSE`: some stream of the driver is already bound to the address, or the stream of the command is already
    /// bound to some address.
    AddressInUse,
    /// `EINVAL unbound`: the stream has no address.
    Unbound,
    /// `EINVAL unrouted`: the driver has no route for the address.
    Unrouted,
    /// `EAGAIN full`: the queue is full, or no serial is left.
    Full,
    /// `EAGAIN empty`: the queue has no message.
    Empty,
    /// `ERANGE`: the message has no bytes, or is longer than the driver allows.
    BadSize,
    /// `ENXIO hangup`: the stream's device has hung up.
    HungUp,
}

/// The reply to a command.
#[derive(Debug, Drop, PartialEq)]
pub enum Reply {
    /// The new descriptor, and the minor of its stream.
    Fd {
        fd: u32,
        minor: u32,
    },
    /// The id of the new link.
    Id(u32),
    /// The message was accepted and has this serial.
    Took {
        serial: u32,
    },
    /// A message was delivered.
    Got {
        serial: u32,
        addr: u32,
        bytes: Bytes,
    },
    /// The command succeeded and dropped these messages, by rising serial.
    Done {
        dropped: Serials,
    },
    /// End of file: the device has hung up, and no message is left at the stream's read side.
    Eof,
    /// The command was refused.
    Fault(Fault),
}

impl Reply {
    /// Returns whether the reply reports a hangup: it is `Eof`, or the refusal `HungUp`. Does not allocate.
    pub fn tells_of_hangup(&self) -> bool
        ensures { result ≡ tells_of_hangup self.now }
    {
        matches!(self, Reply::Eof | Reply::Fault(Fault::HungUp))
    }

    /// Frees the unused capacity of the list of dropped serials. The value of the reply doesn't change.
    pub fn shrink(&mut self)
        ensures { self.new ≡ self.old }
    {
        if let Reply::Done { dropped } = self {
            dropped.shrink();
        }
    }

    /// Copies the reply. Fails only if out of memory.
    pub fn copy(&self, alloc: Global) -> Result<Reply, NoMemory>
        ensures { IfOk result (λ c. c ≡ self.now) }
    {
        Ok(match *self {
            Reply::Fd { fd, minor } => Reply::Fd { fd, minor },
            Reply::Id(id) => Reply::Id(id),
            Reply::Took { serial } => Reply::Took { serial },
            Reply::Got {
                serial,
                addr,
                ref bytes,
            } => Reply::Got {
                serial,
                addr,
                bytes: bytes.copy(alloc)?,
            },
            Reply::Done { ref dropped } => Reply::Done {
                dropped: dropped.copy(alloc)?,
            },
            Reply::Eof => Reply::Eof,
            Reply::Fault(fault) => Reply::Fault(fault),
        })
    }
}

impl Copied for Reply {
    fn copied(&self, alloc: Global) -> Result<Reply, NoMemory> {
        self.copy(alloc)
    }
}
