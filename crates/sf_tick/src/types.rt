use sf_list::{Bytes, Items};

/// What a track's samples are.
#[derive(Clone, Copy, Debug, PartialEq, Eq)]
pub enum Kind {
    /// Video by ISO/IEC 14496-10.
    Avc,
    /// Sound by ISO/IEC 14496-3.
    Aac,
}

/// What an input says of its samples. Width and height (in pixels) matter for video alone,
/// channels for sound alone.
#[derive(Drop)]
pub struct Setup {
    pub kind: Kind,
    /// Ticks a second, 0 for the default of the kind.
    pub scale: u32,
    pub width: u16,
    pub height: u16,
    /// 0 where the configuration says it.
    pub channels: u16,
    pub config: Bytes,
}

/// A sample as an input states it.
#[derive(Drop)]
pub struct Sample {
    /// When it is decoded, in microseconds.
    pub dts_us: u64,
    /// When it is shown, in microseconds.
    pub pts_us: u64,
    /// Whether decoding can begin here.
    pub sync: bool,
    pub bytes: Bytes,
}

/// A sample as it is stored. Its times count from the start of the series of files.
#[derive(Drop)]
pub struct Stored {
    /// When it is decoded, in microseconds.
    pub dts_us: u64,
    /// When it is decoded, in ticks.
    pub decode: u64,
    /// When it is shown, in ticks.
    pub compose: u64,
    /// Whether decoding can begin here.
    pub sync: bool,
    pub bytes: Bytes,
}

/// A list of samples as they are stored.
pub type Samples = Items<Stored>;

/// Samples of one track that stand together in a file.
#[derive(Drop)]
pub struct Chunk {
    pub track: u32,
    /// Counts the chunks of the track, from 0.
    pub number: u64,
    /// When its first sample is decoded, in microseconds; 0 without samples.
    pub first_us: u64,
    pub samples: Samples,
    /// Whether it is the track's last chunk. Only a last chunk is empty.
    pub last: bool,
}
