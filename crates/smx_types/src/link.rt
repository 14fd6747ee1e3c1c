//! Links below a multiplexing driver, and the driver's bindings and routes.

use crate::stream::StreamId;

/// The kind of a link, which decides how long the link exists. The command that made the link determines the kind.
#[derive(Clone, Copy, Debug, PartialEq, Eq)]
pub enum LinkKind {
    /// The link exists until it is removed or its controlling stream ends (streamio(7), I_LINK: the last close).
    Ordinary,
    /// The link exists until it is removed (streamio(7), I_PLINK).
    Persistent,
}

/// A link, which puts a stream below a multiplexing driver.
#[derive(Clone, Copy, Debug, PartialEq, Eq)]
pub struct Link {
    /// The multiplexor id (streamio(7), I_LINK): from 1 to 4,294,967,294, and never reused.
    pub id: u32,
    /// The controlling stream, by which the link was made. Its driver is the upper driver of the link.
    pub ctl: StreamId,
    /// The stream that is linked below.
    pub lower: StreamId,
    pub kind: LinkKind,
}

/// An address to which a stream of a driver is bound: messages for the address go up that stream. The driver is 0 to
/// 127, the minor 0 to 63.
#[derive(Clone, Copy, Debug, PartialEq, Eq)]
pub struct Binding {
    pub driver: u8,
    pub addr: u32,
    pub minor: u8,
}

/// A route: the id of the link down which a driver sends the messages for an address. The driver is 0 to 127.
#[derive(Clone, Copy, Debug, PartialEq, Eq)]
pub struct Route {
    pub driver: u8,
    pub addr: u32,
    pub id: u32,
}
