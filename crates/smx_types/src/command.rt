//! Commands, and the entries that record them in a history.

ghost use Rattle.std.specs.Prelude.{◌≡◌, IfOk};
ghost use Rattle.smx_types.specs.Versions.{is_hangup, is_of_hangup};

use crate::items::{Copied, Items, NoMemory};
use crate::message::Bytes;
use crate::name::Name;
use crate::reply::Reply;
use crate::stream::Process;
use std::alloc::Global;

/// The links that `Unlink` or `Punlink` removes.
#[derive(Clone, Copy, Debug, PartialEq, Eq)]
pub enum Which {
    /// The link with this id (streamio(7), I_UNLINK).
    Id(u32),
    /// All links that the command may remove (MUXID_ALL).
    All,
}

/// The sides of a stream that a flush empties.
#[derive(Clone, Copy, Debug, PartialEq, Eq)]
pub enum Sides {
    /// The read side.
    R,
    /// The write side.
    W,
    /// Both sides.
    RW,
}

/// A command of a process. In a command with a field `fd`, *the stream* is the stream that this descriptor names. A
/// descriptor, a minor or an id may be any number. If nothing has this number, the command is refused.
/// docs/COMMANDS.md lists the refusals of each command, in order.
#[derive(Debug, Drop, PartialEq)]
pub enum Command {
    /// Opens a new stream on the lowest minor that is not in use, as the lowest free descriptor of the process (SVR4
    /// Programmer's Guide: STREAMS, clone open).
    OpenClone {
        driver: Name,
    },
    /// Opens the stream of this minor. If the stream is open already, the new descriptor shares it (open(2)).
    OpenMinor {
        driver: Name,
        minor: u32,
    },
    /// Makes another descriptor of the stream (dup(2)).
    Dup {
        fd: u32,
    },
    /// Closes a descriptor (close(2)).
    Close {
        fd: u32,
    },
    /// Closes all descriptors of the process (exit(2)).
    CloseAll,
    /// Links the stream of the descriptor `arg` below the driver of the stream of `fd`, by an ordinary link. This link
    /// exists until it is removed, or until the stream of `fd` ends (streamio(7), I_LINK).
    Link {
        fd: u32,
        arg: u32,
    },
    /// Links as `Link` does, but by a persistent link, which exists until it is removed (I_PLINK).
    Plink {
        fd: u32,
        arg: u32,
    },
    /// Removes ordinary links that were made on the stream (I_UNLINK).
    Unlink {
        fd: u32,
        which: Which,
    },
    /// Removes persistent links that were made on any stream of the stream's driver (I_PUNLINK).
    Punlink {
        fd: u32,
        which: Which,
    },
    /// Binds the stream to an address of its driver (specific to this project).
    Bind {
        fd: u32,
        addr: u32,
    },
    /// Unbinds the stream from its address (specific to this project).
    Unbind {
        fd: u32,
    },
    /// Makes a route: the stream's driver sends messages for the address down its own link with this id (specific to
    /// this project).
    Route {
        fd: u32,
        addr: u32,
        id: u32,
    },
    /// Removes the route of the stream's driver for an address (specific to this project).
    Unroute {
        fd: u32,
        addr: u32,
    },
    /// Puts a message on the stream's write side (write(2)).
    Write {
        fd: u32,
        addr: u32,
        bytes: Bytes,
    },
    /// Removes and returns the first message of the stream's read side (read(2)).
    Read {
        fd: u32,
    },
    /// Empties queues of the stream (I_FLUSH).
    Flush {
        fd: u32,
        sides: Sides,
    },
    /// A message arrives from the device on the read side of a leaf's stream (specific to this project).
    Inject {
        driver: Name,
        minor: u32,
        addr: u32,
        bytes: Bytes,
    },
    /// The device removes the first message of the write side of a leaf's stream (specific to this project).
    Transmit {
        driver: Name,
        minor: u32,
    },
    /// The device of a leaf's stream hangs up: no more messages go out or come in. Messages that came in earlier can
    /// still be read (STREAMS guide, M_HANGUP).
    Hangup {
        driver: Name,
        minor: u32,
    },
}

/// The commands of a process, in order.
pub type Commands = Items<Command>;

/// A command that was performed, its process, and its reply.
#[derive(Debug, Drop, PartialEq)]
pub struct Entry {
    pub process: Process,
    pub command: Command,
    pub reply: Reply,
}

/// Entries in the order in which they were recorded.
pub type Entries = Items<Entry>;

impl Command {
    /// Returns whether the command is a hangup. Does not allocate.
    pub fn is_hangup(&self) -> bool
        ensures { result ≡ is_hangup self.now }
    {
        matches!(self, Command::Hangup { .. })
    }

    /// Copies the command. Fails only if out of memory.
    pub fn copy(&self, alloc: Global) -> Result<Command, NoMemory>
        ensures { IfOk result (λ c. c ≡ self.now) }
    {
        Ok(match *self {
            Command::OpenClone { driver } => Command::OpenClone { driver },
            Command::OpenMinor { driver, minor } => Command::OpenMinor { driver, minor },
            Command::Dup { fd } => Command::Dup { fd },
            Command::Close { fd } => Command::Close { fd },
            Command::CloseAll => Command::CloseAll,
            Command::Link { fd, arg } => Command::Link { fd, arg },
            Command::Plink { fd, arg } => Command::Plink { fd, arg },
            Command::Unlink { fd, which } => Command::Unlink { fd, which },
            Command::Punlink { fd, which } => Command::Punlink { fd, which },
            Command::Bind { fd, addr } => Command::Bind { fd, addr },
            Command::Unbind { fd } => Command::Unbind { fd },
            Command::Route { fd, addr, id } => Command::Route { fd, addr, id },
            Command::Unroute { fd, addr } => Command::Unroute { fd, addr },
            Command::Write {
                fd,
                addr,
                ref bytes,
            } => Command::Write {
                fd,
                addr,
                bytes: bytes.copy(alloc)?,
            },
            Command::Read { fd } => Command::Read { fd },
            Command::Flush { fd, sides } => Command::Flush { fd, sides },
            Command::Inject {
                driver,
                minor,
                addr,
                ref bytes,
            } => Command::Inject {
                driver,
                minor,
                addr,
                bytes: bytes.copy(alloc)?,
            },
            Command::Transmit { driver, minor } => Command::Transmit { driver, minor },
            Command::Hangup { driver, minor } => Command::Hangup { driver, minor },
        })
    }
}

impl Copied for Command {
    fn copied(&self, alloc: Global) -> Result<Command, NoMemory> {
        self.copy(alloc)
    }
}

impl Entry {
    /// Returns whether the command is a hangup, or the reply reports a hangup. Does not allocate.
    pub fn is_of_hangup(&self) -> bool
        ensures { result ≡ is_of_hangup self.now }
    {
        self.command.is_hangup() || self.reply.tells_of_hangup()
    }

    /// Copies the entry. Fails only if out of memory.
    pub fn copy(&self, alloc: Global) -> Result<Entry, NoMemory>
        ensures { IfOk result (λ c. c ≡ self.now) }
    {
        Ok(Entry {
            process: self.process,
            command: self.command.copy(alloc)?,
            reply: self.reply.copy(alloc)?,
        })
    }
}

impl Copied for Entry {
    fn copied(&self, alloc: Global) -> Result<Entry, NoMemory> {
        self.copy(alloc)
    }
}
