//! The queues of all places (a place is one side of a stream). One store has the messages of all queues.
#![tactic(auto)]

mod bits;
mod chain;
mod flow_table;
mod places;
mod queues;
mod rings;

pub use bits::Bits;
pub use flow_table::{FlowTable, LeavingMessages};
pub use queues::{PlaceId, Queues};
pub use rings::Rings;
