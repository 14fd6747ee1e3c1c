//! The command line of muxsim: which job its words ask for.
#![tactic(auto)]

mod command_line;
mod command_list;
mod jobs;
mod subcommands;

pub use command_line::job;
pub use jobs::Job;
