//! The table of streams: the descriptors of each process, and a record of each stream that a descriptor names or that
//! is held. (A hold keeps a stream in the table even if no descriptor names it.)
#![tactic(auto)]

mod descriptors;
mod records;
mod rows;
mod stream_fault;
mod streams;

pub use stream_fault::StreamFault;
pub use streams::{Closed, Streams};
