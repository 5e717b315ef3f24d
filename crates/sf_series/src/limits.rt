//! The limits of a series of files, and what is said where one is met.

use sf_list::Text;

/// What the files of a series may not pass.
#[derive(Drop)]
pub struct Limits {
    /// The most bytes of a file, 0 for no such limit.
    pub max_bytes: u64,
    /// How long after its start a file goes on, in microseconds, 0 for no such limit.
    pub max_duration_us: u64,
    /// The most files, at least 1.
    pub max_files: u32,
    /// What the names of the files begin with.
    pub stem: Text,
}

/// Which limit ended a series. `sample` is the number, in its track and over all files, of the first sample of the
/// chunk that didn't go into a file.
#[derive(Clone, Copy, Debug, PartialEq, Eq)]
pub enum LimitShown {
    /// A file without samples would have so many bytes, more than `max`.
    Nothing {
        would_be: u64,
        max: u64,
    },
    /// The file would have so many bytes, more than `max`.
    Size {
        track: u32,
        sample: u64,
        would_be: u64,
        max: u64,
    },
    /// The movie box would have so many bytes, more than `max`.
    Movie {
        track: u32,
        sample: u64,
        would_be: u64,
        max: u64,
    },
    /// The track would have so many samples in the file, more than `max`.
    Count {
        track: u32,
        sample: u64,
        would_be: u64,
        max: u64,
    },
    /// A chunk with which the next file is to begin, and which begins at `at_us`, too long after the start of the last
    /// file, both in microseconds.
    Duration {
        track: u32,
        sample: u64,
        at_us: u64,
        file_start_us: u64,
        max_us: u64,
    },
}
