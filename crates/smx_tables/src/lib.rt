//! All tables of a configuration as one value, and the effect of each command on them. Settling, which moves messages
//! on to other places after a command, is in `smx_config`.
#![tactic(auto)]

mod commands_of_addresses;
mod commands_of_links;
mod commands_of_messages;
mod commands_of_streams;
mod dropped_messages;
mod lists;
mod lookups;
mod perform;
mod places;
mod properties;
mod removal;
mod second_reply;
mod show;
mod step_error;
mod sweep;
mod tables;

pub use properties::{driver_of, is_mux, same_side};
pub use second_reply::ReplyRoom;
pub use step_error::StepError;
pub use tables::Tables;
