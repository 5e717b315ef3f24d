//! What `sf_file` and `sf_series` do, row by row, over files in memory.
//!
//! This crate has tests alone. They stand apart from the two crates since a crate that has tests is proved once more for
//! them.
#![tactic(auto)]

#[cfg(test)]
mod tests;
