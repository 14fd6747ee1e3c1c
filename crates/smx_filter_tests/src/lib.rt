//! Tests of the filters, through their public calls only.
#![tactic(auto)]

#[cfg(test)]
mod tests;
