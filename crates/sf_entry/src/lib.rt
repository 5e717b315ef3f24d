//! Sample entries: what the sample description box says of a track's samples (ISO/IEC 14496-12, 8.5.2).
//!
//! `read_asc` reads the configuration of sound as far as an entry needs it: the object type, the
//! sampling rate and the channels (`specs/Asc.antt`). `make_entry` makes the entry of a track from its
//! setup (`specs/TrackSetup.antt`). `read_stsd` reads the entries of a sample description box: what each
//! says, where it stands, and its data reference, or the first fault (`specs/Stsd.antt`).
#![tactic(auto)]

mod asc;
mod avc1;
mod esds;
mod laws;
mod mp4a;
mod stsd;
mod track_setup;
mod types;

pub use asc::{Asc, AscFault, read_asc};
pub use laws::{entries_are_read_back, lengths_have_a_width};
pub use stsd::read_stsd;
pub use track_setup::{SetupFault, TrackSetup, make_entry};
pub use types::{Entries, Entry, EntryAt, EntryFault};

#[cfg(test)]
mod tests;
