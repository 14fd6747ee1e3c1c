//! Sessions. A session performs the commands of lines on its configuration, one line after the other. The configuration
//! can be shown at any time.
#![tactic(auto)]

mod faults;
pub mod laws_of_sessions;
mod session;

pub use faults::{EntryFault, LineFault, StartFault};
pub use session::Session;
