//! What is wrong with a movie.

ghost use Rattle.std.specs.Prelude.{◌≡◌};
ghost use Rattle.sf_meaning.specs.declared.faults.HeadFault.TheVariants as heads;
ghost use Rattle.sf_meaning.specs.declared.faults.TableFault.TheVariants as tables;
ghost use Rattle.sf_meaning.specs.declared.faults.MovieFault.TheVariants as movies;
ghost use Rattle.sf_meaning.specs.inner.Faults.{of_head, of_table, of_entry};

use sf_box::{BoxFault, FourCc};
use sf_entry::EntryFault;
use std::alloc::{AllocError, AllocFailed};

/// What is wrong with the headers of a movie. `at` is the place of the box meant; of a box that is
/// missing it is the place where the body of the box begins that should hold it.
#[derive(Clone, Copy, Debug, PartialEq, Eq)]
pub enum HeadFault {
    Missing { kind: FourCc, at: u64 },
    /// Its body ends before the fields that are needed.
    Short { kind: FourCc, at: u64 },
    /// Its timescale is 0.
    Scale0 { at: u64 },
    /// The empty edit of its edit list, or the media time after it, passes 2^40 seconds.
    EditTooLong { at: u64 },
    Tiling(BoxFault),
    NoMemory,
}

/// What is wrong with the tables of a track.
#[derive(Clone, Copy, Debug, PartialEq, Eq)]
pub enum TableFault {
    Missing { kind: FourCc, at: u64 },
    /// Its body ends before its last entry, or its entries end before the last sample.
    Short { kind: FourCc, at: u64 },
    NotRising { kind: FourCc, at: u64 },
    /// Sizes of another number of bits than 4, 8 or 16.
    FieldSize { at: u64, bits: u8 },
    /// More samples than a track may have.
    TooMany { at: u64, count: u32 },
    /// The decode times pass 2^40 seconds.
    SumTooLarge { at: u64 },
    /// A sample names a sample entry that isn't there.
    Description { at: u64, index: u32 },
    Tiling(BoxFault),
    NoMemory,
}

/// The first thing that is wrong with a movie file.
#[derive(Clone, Copy, Debug, PartialEq, Eq)]
pub enum MovieFault {
    /// A place in the file, or in `moov`, that is no whole box.
    Tiling(BoxFault),
    /// No movie box; `at` is the file's length.
    NoMoov { at: u64 },
    TwoMoov { at: u64 },
    /// The movie box is longer than 268,435,456 bytes.
    MoovTooLarge { at: u64, size: u64 },
    /// The movie box is compressed.
    Compressed { at: u64 },
    /// The 65th track.
    TooManyTracks { at: u64 },
    Head(HeadFault),
    Entry(EntryFault),
    Table(TableFault),
    /// A sample entry whose samples lie in another file.
    External { at: u64 },
    /// A sample ends past the end of the file. Samples count from 0.
    SampleOutside { track: u32, sample: u64 },
    /// A sample is longer than 67,108,864 bytes.
    SampleTooLarge { track: u32, sample: u64, size: u32 },
    NoMemory,
}

impl From<AllocError> for HeadFault {
    ghost from_gives = { λ _ e. e ≡ heads.NoMemory };

    fn from(_: AllocError) -> Self {
        HeadFault::NoMemory
    }
}

impl<T: Drop> From<AllocFailed<T>> for HeadFault {
    ghost from_gives = { λ _ e. e ≡ heads.NoMemory };

    fn from(_: AllocFailed<T>) -> Self {
        HeadFault::NoMemory
    }
}

impl From<AllocError> for TableFault {
    ghost from_gives = { λ _ e. e ≡ tables.NoMemory };

    fn from(_: AllocError) -> Self {
        TableFault::NoMemory
    }
}

impl<T: Drop> From<AllocFailed<T>> for TableFault {
    ghost from_gives = { λ _ e. e ≡ tables.NoMemory };

    fn from(_: AllocFailed<T>) -> Self {
        TableFault::NoMemory
    }
}

impl From<AllocError> for MovieFault {
    ghost from_gives = { λ _ e. e ≡ movies.NoMemory };

    fn from(_: AllocError) -> Self {
        MovieFault::NoMemory
    }
}

impl<T: Drop> From<AllocFailed<T>> for MovieFault {
    ghost from_gives = { λ _ e. e ≡ movies.NoMemory };

    fn from(_: AllocFailed<T>) -> Self {
        MovieFault::NoMemory
    }
}

impl From<HeadFault> for MovieFault {
    ghost from_gives = { λ f e. e ≡ of_head f };

    fn from(fault: HeadFault) -> Self {
        match fault {
            HeadFault::NoMemory => MovieFault::NoMemory,
            fault => MovieFault::Head(fault),
        }
    }
}

impl From<TableFault> for MovieFault {
    ghost from_gives = { λ f e. e ≡ of_table f };

    fn from(fault: TableFault) -> Self {
        match fault {
            TableFault::NoMemory => MovieFault::NoMemory,
            fault => MovieFault::Table(fault),
        }
    }
}

impl From<EntryFault> for MovieFault {
    ghost from_gives = { λ f e. e ≡ of_entry f };

    fn from(fault: EntryFault) -> Self {
        match fault {
            EntryFault::NoMemory => MovieFault::NoMemory,
            fault => MovieFault::Entry(fault),
        }
    }
}
