//! The movie box of several tracks, both ways (ISO/IEC 14496-12, 8.2.1).
//!
//! `encode_moov` puts the box at the end of a byte string, from what the headers say of each track
//! (`TrackHead`) and the sample table box of each, which is copied once. `moov_size` says how long that
//! box is, with no table at hand. `read_headers` reads the headers of any movie box: those of the movie,
//! and of its tracks up to the first one in which something is wrong (`specs/TrakHeads.antt`).
#![tactic(auto)]

mod headers;
mod laws;
mod lengths;
mod media;
mod movie;
mod trak_heads;

pub use laws::length_of_movie_box;
pub use lengths::{MoovTotals, moov_size};
pub use movie::encode_moov;
pub use sf_layout::TrackHead;
pub use sf_meaning::HeadFault;
pub use trak_heads::{Headers, TrakHead, read_headers};

#[cfg(test)]
mod tests;
