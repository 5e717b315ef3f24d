//! The commands, with all that is asked of each.

use sf_list::{Items, Text};

/// How the work of a command is done.
#[derive(Clone, Copy, Debug, PartialEq, Eq)]
pub enum Threads {
    /// `--threads 0`: by the calling thread alone.
    Serial,
    /// `--threads 1`: by threads of its own.
    Threaded,
}

/// The numbers of `record`. Times are in microseconds, lengths in bytes; no limit is 0.
#[derive(Clone, Copy, Debug, PartialEq, Eq)]
pub struct RecordNumbers {
    pub start_us: u64,
    pub interleave_us: u64,
    pub max_bytes: u64,
    pub max_duration_us: u64,
    pub max_files: u64,
}

/// What `record` is asked: its inputs, and the stem of its files' names.
#[derive(Drop)]
pub struct RecordAsked {
    pub inputs: Items<Text>,
    pub numbers: RecordNumbers,
    pub threads: Threads,
    pub out: Text,
}

/// The numbers of `extract`: how many pages are kept, and the two water marks in bytes.
#[derive(Clone, Copy, Debug, PartialEq, Eq)]
pub struct ExtractNumbers {
    pub pages: u64,
    pub low: u64,
    pub high: u64,
}

/// What `extract` is asked: its movie, its plans as they were written, and the stem of its dumps' names.
#[derive(Drop)]
pub struct ExtractAsked {
    pub movie: Text,
    pub plans: Items<Text>,
    pub numbers: ExtractNumbers,
    pub threads: Threads,
    pub out: Text,
}

/// What `make` is asked: how many samples of each of how many tracks.
#[derive(Clone, Copy, Debug, PartialEq, Eq)]
pub struct MakeAsked {
    pub count: u64,
    pub tracks: u64,
    pub threads: Threads,
}

/// What is to be done.
#[derive(Drop)]
pub enum Command {
    /// The inputs are recorded.
    Record(RecordAsked),
    /// The plans are carried out on a movie.
    Extract(ExtractAsked),
    /// The samples of the movie of a name are listed.
    List(Text),
    /// Inputs are made, recorded and read out.
    Make(MakeAsked),
}
