//! What is read of the entries of a sample description box.

ghost use Rattle.std.specs.Prelude.{◌≡◌};
ghost use Rattle.sf_entry.specs.declared.types.EntryFault.TheVariants.{NoMemory};

use sf_avc::AvcConfig;
use sf_box::FourCc;
use sf_list::{Bytes, Items};
use std::alloc::{AllocError, AllocFailed};

/// What a sample entry says of its samples.
#[derive(Drop)]
pub enum Entry {
    /// Video by ISO/IEC 14496-10, with its configuration.
    Avc(AvcConfig),
    /// Sound by ISO/IEC 14496-3, with its AudioSpecificConfig.
    Aac(Bytes),
    /// Anything else, by the type of the entry.
    Other(FourCc),
}

/// A sample entry where it stands.
#[derive(Drop)]
pub struct EntryAt {
    /// The place of the entry's head, in bytes.
    pub at: u64,
    /// How many bytes the whole entry takes, its head included.
    pub len: u64,
    /// The number of its data reference, from 1.
    pub reference: u16,
    pub entry: Entry,
}

/// Sample entries, in order.
pub type Entries = Items<EntryAt>;

/// Why a sample description box is refused.
#[derive(Clone, Copy, Debug, PartialEq, Eq)]
pub enum EntryFault {
    /// The box has no whole count, or fewer whole entries than it counts (at its body),
    /// or the fields of an entry aren't whole (at the entry).
    Short { at: u64 },
    /// An entry of video has no configuration box.
    NoAvcC { at: u64 },
    /// The configuration of an entry of video is refused.
    BadAvcC { at: u64 },
    NoMemory,
}

impl From<AllocError> for EntryFault {
    ghost from_gives = { λ _ fault. fault ≡ NoMemory };

    fn from(_error: AllocError) -> EntryFault {
        EntryFault::NoMemory
    }
}

impl<T: Drop> From<AllocFailed<T>> for EntryFault {
    ghost from_gives = { λ _ fault. fault ≡ NoMemory };

    fn from(_error: AllocFailed<T>) -> EntryFault {
        EntryFault::NoMemory
    }
}
