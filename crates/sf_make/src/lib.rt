//! A generator of coded sample files, for whoever wants inputs of any length without a camera.
//!
//! `make_inputs` gives so many samples of each of so many tracks, video and sound by turns. What it gives is
//! defined sample by sample in specs/Generator.antt, and the bytes of a coded sample file with these samples
//! in specs/Writing.antt.
#![tactic(auto)]

mod generator;
mod laws;
mod writing;

pub use generator::make_inputs;
pub use laws::{coded_read_back, input_lengths, inputs_read_back};

#[cfg(test)]
mod tests;
