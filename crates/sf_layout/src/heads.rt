//! What the headers of a movie box say of a track.

use sf_tick::Kind;

/// What the headers of a movie box say of a track, and how long its tables are.
#[derive(Clone, Copy, Debug, PartialEq, Eq)]
pub struct TrackHead {
    pub kind: Kind,
    /// Ticks a second, at least 1.
    pub scale: u32,
    /// In pixels; of video alone.
    pub width: u16,
    /// In pixels; of video alone.
    pub height: u16,
    /// How long after the file's start the track begins, in microseconds.
    pub lead_us: u64,
    /// How long its samples last, in ticks.
    pub duration: u64,
    /// How many bytes its sample table box has.
    pub stbl_len: u64,
}
