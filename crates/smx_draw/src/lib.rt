//! Pictures of a configuration: its drivers in layers, its streams, links and queues, as SVG or as a text for
//! Graphviz.
#![tactic(auto)]

mod form;
pub mod laws_of_pictures;
mod parts;
mod pieces;
mod queues;
mod svg;

pub use form::{Form, draw};
pub use svg::write_svg;
