//! Coded sample files, a format of this project, read as a stream.
//!
//! A coded file has a header with a setup, then records with a sample each, then an end
//! (specs/CodedFile.antt has the fields). `Coded` reads it from any source through one block of
//! 65,536 bytes. Where the source tells its bytes, its answers are what they say, up to the first
//! refusal, however the block falls.
#![tactic(auto)]

mod blocks;
mod coded;
mod fields;
mod reading;
mod types;

pub use coded::Coded;
pub use types::{CodedFault, CodedSample};

#[cfg(test)]
mod tests;
