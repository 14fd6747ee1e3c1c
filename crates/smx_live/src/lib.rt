//! Live sessions: lines are read from a feed, and each is answered at once to a sink.
#![tactic(auto)]

mod answers;
mod inbox;
pub mod laws_of_live;
mod live;
mod talk;

pub use live::live_text;
pub use talk::TurnFault;
