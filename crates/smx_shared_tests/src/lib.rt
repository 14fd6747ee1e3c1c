//! Tests of systems that threads share, and of runs, through the public calls of the libraries only.
#![tactic(auto)]

#[cfg(test)]
mod tests;
