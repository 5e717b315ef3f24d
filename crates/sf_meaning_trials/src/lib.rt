//! Tests of `sf_meaning`: movies by hand, each with one change, and what is found in them.
//!
//! They stand apart since a crate with tests is proved once more with them.
#![tactic(auto)]

#[cfg(test)]
mod tests;
