//! The table of links between drivers. For any drivers a and b it has a bit, which says whether a path of links leads
//! from a to b. So the test for cycles reads one bit.
#![tactic(auto)]

mod links;
mod masks;
mod table;

pub use table::{LinkFault, LinkTable, a_link_has_one_upper_driver};
