//! Recording: what inputs say is read, put together into chunks, and written into a series of files.
//!
//! A `Pump` reads the coded sample file of one track sample by sample into a gatherer. The chunks
//! that it hands out are the chunks of the samples that it accepted: all samples of the input up to
//! its first fault, which the pump keeps. `record_serial` reads the headers of 1 to 16 inputs and makes
//! a pump of each; their chunks are handed to a series of files on a shelf, the earliest first, up to a limit.
#![tactic(auto)]

mod advance;
mod deal;
mod faults;
mod headers;
mod laws;
mod pump;
mod serial;
mod serial_end;

pub use faults::{InputFault, TrackFault};
pub use laws::record_surely;
pub use pump::{Pump, Stepped};
pub use serial::record_serial;
pub use serial_end::{SerialEnd, SerialOutcome};

#[cfg(test)]
mod tests;
