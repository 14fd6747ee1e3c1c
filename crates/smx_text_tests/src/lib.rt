//! Tests of texts, and of the values in them, through the public calls of the libraries only.
#![tactic(auto)]

#[cfg(test)]
mod tests;
