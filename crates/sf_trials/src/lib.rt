//! What `run` of `sf_app` does, row by row, over objects in memory.
//!
//! This crate has tests alone: recordings, lists, extractions and movies that are made, with the bytes of their files and
//! the lines of their texts, and each call of the outside failing in turn.
#![tactic(auto)]

#[cfg(test)]
mod tests;
