//! Plain values of a STREAMS multiplexer: the parts of its programs, replies and transcripts.
#![tactic(auto)]

mod command;
mod driver;
mod items;
mod limits;
mod link;
mod message;
mod name;
mod programs;
mod reply;
mod same;
mod stream;
mod transcript;
mod version;
mod view;

pub use command::{Command, Commands, Entries, Entry, Sides, Which};
pub use driver::{DriverKind, DriverSpec, Drivers, SpecFault};
pub use items::{Copied, Items, NoMemory};
pub use limits::{
    MAX_COMMANDS, MAX_DESCRIPTORS, MAX_DRIVERS, MAX_DRIVERS_OF_VERSION_1, MAX_HIGH, MAX_LINKS,
    MAX_MESSAGE, MAX_MINORS, MAX_PROCESSES, NUMBER_END,
};
pub use link::{Binding, Link, LinkKind, Route};
pub use message::{Bytes, Message, Messages, Serials};
pub use name::Name;
pub use programs::{Many, ProgramList, Programs};
pub use reply::{Fault, Reply};
pub use same::Same;
pub use stream::{Descriptor, Place, Process, Side, StreamId};
pub use transcript::Transcript;
pub use version::Version;
pub use view::{
    BindingLine, BindingLines, ConfigView, DescriptorLine, DescriptorLines, FullLine, FullLines,
    HungLine, HungLines, LinkLine, LinkLines, MessageLine, MessageLines, RouteLine, RouteLines,
};
