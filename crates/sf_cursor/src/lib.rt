//! The samples of a track, each looked up in the tables that say it (ISO/IEC 14496-12, 8.6.1, 8.6.2, 8.7.3
//! to 8.7.5).
//!
//! A `Cursor` reads a sample table box whole and keeps its tables as they stand in the file: runs, one size
//! where all are the same, the chunks, the numbers of the sync samples. It is seen as the tables of
//! `specs/TrackSamples.antt` of sf_meaning, and gives any one of the samples that these list.
//! `specs/Cursor.antt` says which boxes it reads, and what is first wrong with those that it doesn't.
#![tactic(auto)]

mod boxes;
mod chunks;
mod cursor;
mod held;
mod look_up;
mod starts;
mod sums;
mod tables;
mod ticks;

pub use cursor::Cursor;
pub use sf_meaning::{MovieFault, PlainSample, TableFault};
pub use tables::SoundTables;

#[cfg(test)]
mod tests;
