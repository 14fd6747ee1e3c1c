//! The page of a transcript: a step for each entry, with its trace and a picture of the configuration after it.
#![tactic(auto)]

mod frame;
pub mod laws_of_pages;
mod pages;

pub use pages::{MAX_PAGE, MAX_STEPS, PageFault, page};
