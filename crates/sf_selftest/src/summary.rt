//! What a self-test tells.

use sf_list::Items;

/// What was read back of a track.
#[derive(Clone, Copy, Debug, PartialEq, Eq)]
pub struct TrackSummary {
    /// How many samples it has.
    pub samples: u64,
    /// How many of them are sync samples.
    pub syncs: u64,
    /// How many bytes they have together.
    pub stored: u64,
    /// When the last one is decoded, in ticks; 0 without samples.
    pub last: u64,
}

/// What was read back of a file: of each of its tracks, in order, and how long the dump of all samples is, in bytes.
#[derive(Drop)]
pub struct Summary {
    pub tracks: Items<TrackSummary>,
    pub dump: u64,
}
