//! What a gatherer is given.

use sf_tick::Kind;

/// How samples are timed and put into chunks.
#[derive(Clone, Copy, Debug, PartialEq, Eq)]
pub struct Options {
    /// The start, from which stored times count, in microseconds.
    pub start_us: u64,
    /// How long a chunk may last, in microseconds. With 0 each sample has a chunk of its own.
    pub interleave_us: u64,
}

/// What a gatherer was given. No call changes it.
#[derive(Clone, Copy, Debug)]
pub struct Given {
    pub track: u32,
    pub kind: Kind,
    /// Ticks a second.
    pub scale: u32,
    pub options: Options,
}

/// What is kept of the last sample: when it is decoded, counted from the start.
#[derive(Clone, Copy, Debug)]
pub struct LastSample {
    /// In microseconds.
    pub dts_us: u64,
    /// In ticks.
    pub decode: u64,
}
