//! Times, and the types in which samples are handed on.
//!
//! Times are in microseconds (us) or in ticks, of which a track's timescale has so many a second
//! (ISO/IEC 14496-12, 8.4.2).
#![tactic(auto)]

mod laws;
mod times;
mod types;

pub use laws::{greatest_us, nearest_tick, rising_tick};
pub use times::{to_tick, to_us};
pub use types::{Chunk, Kind, Sample, Samples, Setup, Stored};

#[cfg(test)]
mod tests;
