//! Reads and writes the two texts of muxsim, programs and transcripts. Each value has exactly one text.
#![tactic(auto)]

pub mod laws;
mod programs;
mod reading;
mod text_fault;
mod transcript;
pub mod worked_texts;
mod write;

pub use programs::read_programs;
pub use reading::next_line;
pub use smx_types::{
    Binding, BindingLine, BindingLines, Bytes, Command, Commands, ConfigView, Copied, Descriptor,
    DescriptorLine, DescriptorLines, DriverKind, DriverSpec, Drivers, Entries, Entry, Fault,
    FullLine, FullLines, HungLine, HungLines, Items, Link, LinkKind, LinkLine, LinkLines,
    MAX_COMMANDS, MAX_DESCRIPTORS, MAX_DRIVERS, MAX_DRIVERS_OF_VERSION_1, MAX_HIGH, MAX_LINKS,
    MAX_MESSAGE, MAX_MINORS, MAX_PROCESSES, Many, Message, MessageLine, MessageLines, Messages,
    NUMBER_END, Name, NoMemory, Place, Process, ProgramList, Programs, Reply, Route, RouteLine,
    RouteLines, Same, Serials, Side, Sides, SpecFault, StreamId, Transcript, Version, Which,
};
pub use text_fault::{Cause, TextFault};
pub use transcript::read_transcript;
pub use write::{
    add_entry_line, finish_transcript, transcript_opening, write_programs, write_transcript,
    write_view,
};
