//! A system: a configuration together with the one history that led to it. Threads can share a system.
#![tactic(auto)]

mod door;
mod entry_sink;
mod front;
pub mod laws_of_calls;
pub mod laws_of_systems;
mod seat_view;
mod shared;
mod shared_fault;
mod system;
mod turn_table;

pub use door::Door;
pub use entry_sink::{EntryCount, EntrySink};
pub use front::{Front, Fronts};
pub use shared::{Hold, Seat, Shared};
pub use shared_fault::{ApplyFault, CloseFault, TryFault};
pub use system::System;
