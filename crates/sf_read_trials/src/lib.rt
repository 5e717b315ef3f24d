//! What `sf_movie`, `sf_extract` and `sf_reader` do, row by row, over files in memory.
//!
//! This crate has tests alone. They stand apart from the three crates since a crate that has tests is proved once
//! more for them.
#![tactic(auto)]

#[cfg(test)]
mod tests;
