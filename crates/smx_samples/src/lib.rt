//! Long texts for tests, made of lines that are repeated with different numbers.
#![tactic(auto)]

mod parts;

pub use parts::{Part, text_of};
