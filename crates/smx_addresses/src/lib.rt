//! The bindings and routes of all drivers: for each address, the stream that is bound to it, and the link to which it
//! is routed.
#![tactic(auto)]

mod bindings;
mod routes;

pub use bindings::Bindings;
pub use routes::Routes;
