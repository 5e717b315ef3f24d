//! What is told of a series of files at its end.

use sf_list::Items;

/// What the files of a series hold.
#[derive(Drop)]
pub struct Report {
    /// The length of each closed file, in bytes.
    pub files: Items<u64>,
    /// How many samples of each track stand in files.
    pub tracks: Items<u64>,
}
