//! Filters. A filter is a call that reads bytes and writes bytes: it runs programs, judges a transcript, or makes a
//! replay, a trace, a picture or a page of one.
#![tactic(auto)]

mod check;
pub mod laws;
mod run;
mod transcripts;

pub use check::{check_explained, check_text};
pub use run::{run_explained, run_text};
pub use smx_run::{
    Done, Failed, Feed, MAX_INPUT, MainFault, Product, Refusal, Sink, Source, Target, read_all,
    write_all,
};
pub use transcripts::make_text;
