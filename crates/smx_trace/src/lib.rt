//! Makes the replay and the trace of a transcript: performs the commands of the transcript in order, and ignores its
//! replies.
#![tactic(auto)]

mod changes;
pub mod laws;
mod moves;
mod pieces;
mod queues;
mod reasons;
mod replaying;

pub use changes::write_changes;
pub use replaying::{first_entries, replay, trace, trace_entry};
