//! Runs the programs of all processes, on one thread or on several, and reports the one history that the run makes. Has
//! the readers, writers and faults of the program, too.
#![tactic(auto)]

mod assignments;
mod gathering;
mod input;
pub mod laws_of_runs;
mod main_fault;
mod output;
mod product;
mod run;
mod run_fault;
mod threads;
mod worker;

pub use gathering::{Report, gather};
pub use input::{Failed, Feed, MAX_INPUT, Source, read_all};
pub use main_fault::{Done, MainFault, Refusal};
pub use output::{Sink, Target, write_all};
pub use product::Product;
pub use run::{MAX_WORKERS, run_programs, run_system};
pub use run_fault::{GatherFault, RunFault};
pub use worker::{EndedProgram, Gate, NoGate, SeatedProgram, run_assigned};
