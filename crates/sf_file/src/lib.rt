//! One written file (ISO/IEC 14496-12): what stands in front of the samples, the samples' bytes chunk
//! by chunk, each chunk of one of 1 to 64 tracks, and the movie box at the end.
#![tactic(auto)]

mod faults;
mod laws;
mod open_track;
mod out_file;
mod pieces;
mod setups;
mod tracks;

pub use faults::FileFault;
pub use laws::{
    closed_file_means, held_chunks_are_writable, no_chunks, one_more_appended, one_more_chunk,
};
pub use out_file::{Closing, OutFile};
pub use setups::are_setups;
