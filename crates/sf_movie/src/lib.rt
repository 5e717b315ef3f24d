//! A movie that is read through a source, and any one of its samples (ISO/IEC 14496-12).
//!
//! `Movie::load` walks the boxes of a file by their heads and reads the movie box alone whole. It answers
//! the movie that the file's bytes are, or the first thing that is wrong with them (`specs/Loads.antt`). A
//! loaded movie is seen as that movie, with the sample entries of its tracks (`specs/Loaded.antt`), and
//! keeps the tables of each track as they stand in the file, never a list of the samples.
#![tactic(auto)]

mod load;
mod movie;
mod parts;
mod shown;
mod track;
mod walk;

pub use load::LoadFault;
pub use movie::Movie;
pub use sf_meaning::{MovieFault, PlainSample, TrackKind};
