//! The tables of one track as they grow chunk by chunk, and the sample table box of a written file
//! (ISO/IEC 14496-12, 8.5.1).
//!
//! `Tables` keeps what the box says of each sample and each chunk. How long the box is and how long
//! the track lasts, now and after one more chunk, is known from totals, without a walk along the
//! samples. Adding a chunk takes no memory once there is room for it.
#![tactic(auto)]

mod encoding;
mod kept;
mod laws;
mod lengths;
mod runs;
mod tables;
mod totals;

pub use laws::{fewest_runs, one_more_chunk};
pub use tables::Tables;

#[cfg(test)]
mod tests;
