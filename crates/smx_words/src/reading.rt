//! Reads values from the words of a line.

pub mod command;
pub mod entry;
pub mod hex_word;
pub mod line;
pub mod number;
pub mod reply;
mod verb;
pub mod word;
