//! A configuration that one thread uses. It performs a command as the model's command table says, and then moves
//! messages on to other places until no message can move.
#![tactic(auto)]

mod config;
mod config_fault;
mod hops;
pub mod laws;
mod marks;
mod settling;
mod verdict;
mod wakes;
mod waking;

pub use config::Config;
pub use config_fault::ConfigFault;
pub use verdict::{Verdict, check_history};
