//! Reads and writes the words of one line of a text. Each value that can be on a line has exactly one spelling.
#![tactic(auto)]

pub mod laws;
mod reading;
mod writing;

pub use reading::command::command_of;
pub use reading::entry::{call_of_line, entry_of};
pub use reading::hex_word::spells_bytes;
pub use reading::line::{
    bind_of, descriptor_of, driver_of, full_of, hung_of, link_of, message_of, next_of, process_of,
    route_of,
};
pub use reading::number::number;
pub use reading::reply::reply_of;
pub use reading::word::{driver_kind, link_kind, name, side, sides, which};
pub use writing::entry::{write_entry, write_reply};
pub use writing::line::{write_next, write_process};
pub use writing::{Spell, write_lines};
