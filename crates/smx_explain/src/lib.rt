//! Explains verdicts by the first line in which a transcript and its replay differ, and malformed texts by the column
//! in which a line becomes invalid.
#![tactic(auto)]

mod columns;
mod differences;
mod drivers;
mod fault;
mod hints;
mod kinds;
pub mod laws;
mod lines;
mod rows;
mod tables;

pub use differences::explain;
pub use drivers::DriverExplanation;
pub use fault::{FaultExplanation, explain_line};
pub use kinds::TextKind;
