/// A run of the decoding time box (ISO/IEC 14496-12, 8.6.1.2): so many samples with this delta. Of the
/// composition offset box (8.6.1.3): so many with this offset, as it stands in the file.
#[derive(Clone, Copy, Debug, PartialEq, Eq)]
pub struct TimeRun {
    pub count: u32,
    pub delta: u32,
}

/// An entry of the sample-to-chunk box (8.7.4).
#[derive(Clone, Copy, Debug, PartialEq, Eq)]
pub struct ChunkRun {
    /// The number of its first chunk, from 1.
    pub first: u32,
    /// Samples in each chunk.
    pub per: u32,
    /// Which sample entry describes them, from 1.
    pub description: u32,
}

/// A chunk: where it begins, how many samples it has, and their description.
#[derive(Clone, Copy)]
pub struct ChunkAt {
    pub place: u64,
    pub per: u32,
    pub description: u32,
}

/// The decode times that are left: from this one on, so many samples with this delta, then the runs.
#[derive(Clone, Copy)]
pub(crate) struct Times<'a> {
    /// In ticks.
    pub decode: u64,
    pub left: u32,
    pub delta: u32,
    pub runs: &'a [TimeRun],
}

/// The composition offsets that are left: so many samples with this one, as it stands in the file, then
/// the runs.
#[derive(Clone, Copy)]
pub(crate) struct Offsets<'a> {
    /// The version of the box, which says how an offset is read.
    pub version: u8,
    pub left: u32,
    pub word: u32,
    pub runs: &'a [TimeRun],
}

/// Which of the samples that are left are sync: all of them, or those with these numbers, from 1.
#[derive(Clone, Copy)]
pub(crate) enum Syncs<'a> {
    All,
    Numbers(&'a [u32]),
}

/// The places that are left: from this one on, so many samples of a chunk, then the chunks.
#[derive(Clone, Copy)]
pub(crate) struct Places<'a> {
    /// In bytes from the start of the file.
    pub place: u64,
    pub left: u32,
    pub description: u32,
    pub chunks: &'a [ChunkAt],
}
