//! Tests through the public calls of the libraries only.
#![tactic(auto)]

#[cfg(test)]
mod tests;
