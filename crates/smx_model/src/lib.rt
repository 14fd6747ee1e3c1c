//! The model: all definitions that contracts use for a configuration, and laws about them. A configuration is a record
//! of lists, and commands change it one after another. The crate has no running code.
#![tactic(auto)]

pub mod laws;
pub mod laws_of_configurations;
