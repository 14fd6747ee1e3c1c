//! The view of a configuration, as a transcript shows it: one line for each part. The lines have the names of drivers,
//! and not their numbers.

ghost use Rattle.std.specs.Prelude.{◌≡◌, IfOk};

use crate::items::{Copied, Items, NoMemory};
use crate::link::LinkKind;
use crate::message::Message;
use crate::name::Name;
use crate::stream::{Process, Side};
use std::alloc::Global;

/// An open descriptor: its process, its number, and the driver and minor of its stream.
#[derive(Clone, Copy, Debug, PartialEq, Eq)]
pub struct DescriptorLine {
    pub process: Process,
    pub fd: u32,
    pub driver: Name,
    pub minor: u32,
}

/// A link: its id, its controlling stream, its lower stream and its kind.
#[derive(Clone, Copy, Debug, PartialEq, Eq)]
pub struct LinkLine {
    pub id: u32,
    pub ctl_driver: Name,
    pub ctl_minor: u32,
    pub lower_driver: Name,
    pub lower_minor: u32,
    pub kind: LinkKind,
}

/// A binding: the driver, the address, and the minor of the stream that is bound to the address.
#[derive(Clone, Copy, Debug, PartialEq, Eq)]
pub struct BindingLine {
    pub driver: Name,
    pub addr: u32,
    pub minor: u32,
}

/// A route: the driver, the address, and the id of the link down which the messages for the address go.
#[derive(Clone, Copy, Debug, PartialEq, Eq)]
pub struct RouteLine {
    pub driver: Name,
    pub addr: u32,
    pub id: u32,
}

/// A queued message and its place.
#[derive(Debug, Drop, PartialEq)]
pub struct MessageLine {
    pub driver: Name,
    pub minor: u32,
    pub side: Side,
    pub message: Message,
}

/// A place whose queue is full.
#[derive(Clone, Copy, Debug, PartialEq, Eq)]
pub struct FullLine {
    pub driver: Name,
    pub minor: u32,
    pub side: Side,
}

/// A stream whose device has hung up.
#[derive(Clone, Copy, Debug, PartialEq, Eq)]
pub struct HungLine {
    pub driver: Name,
    pub minor: u32,
}

/// The open descriptors in a view, sorted by process, then by descriptor number.
pub type DescriptorLines = Items<DescriptorLine>;

/// The links in a view, sorted by id.
pub type LinkLines = Items<LinkLine>;

/// The bindings in a view, sorted by driver number, then by address.
pub type BindingLines = Items<BindingLine>;

/// The routes in a view, sorted by driver number, then by address.
pub type RouteLines = Items<RouteLine>;

/// The queued messages in a view, sorted by place: by driver number, then by minor, and the write side before the read
/// side. The messages of one place are in the order of the queue.
pub type MessageLines = Items<MessageLine>;

/// The full places in a view, sorted as in `MessageLines`.
pub type FullLines = Items<FullLine>;

/// The hung-up streams in a view, sorted by driver number, then by minor.
pub type HungLines = Items<HungLine>;

/// The view of a configuration.
#[derive(Debug, Drop, PartialEq)]
pub struct ConfigView {
    /// The id that the next link gets. Ids start from 1.
    pub next_id: u32,
    /// The serial that the next message gets. Serials start from 1.
    pub next_serial: u32,
    pub fds: DescriptorLines,
    pub links: LinkLines,
    pub binds: BindingLines,
    pub routes: RouteLines,
    pub msgs: MessageLines,
    pub fulls: FullLines,
    pub hungs: HungLines,
}

impl MessageLine {
    /// Copies the line. Fails only if out of memory.
    pub fn copy(&self, alloc: Global) -> Result<MessageLine, NoMemory>
        ensures { IfOk result (λ c. c ≡ self.now) }
    {
        Ok(MessageLine {
            message: self.message.copy(alloc)?,
            ..*self
        })
    }
}

impl ConfigView {
    /// Copies the view. Fails only if out of memory.
    pub fn copy(&self, alloc: Global) -> Result<ConfigView, NoMemory>
        ensures { IfOk result (λ c. c ≡ self.now) }
    {
        Ok(ConfigView {
            next_id: self.next_id,
            next_serial: self.next_serial,
            fds: self.fds.copy(alloc)?,
            links: self.links.copy(alloc)?,
            binds: self.binds.copy(alloc)?,
            routes: self.routes.copy(alloc)?,
            msgs: self.msgs.copy(alloc)?,
            fulls: self.fulls.copy(alloc)?,
            hungs: self.hungs.copy(alloc)?,
        })
    }
}

impl Copied for MessageLine {
    fn copied(&self, alloc: Global) -> Result<MessageLine, NoMemory> {
        self.copy(alloc)
    }
}
