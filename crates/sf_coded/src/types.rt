ghost use Rattle.std.specs.Prelude.{◌≡◌};
ghost use Rattle.sf_coded.specs.CodedFile.{fault_place};
ghost use Rattle.sf_coded.specs.declared.types.CodedFault.TheVariants.{ReadFault, NoMemory};

use sf_tick::Sample;
use sf_world::Failed;
use std::alloc::AllocError;

/// Why a coded file is refused, in the order of its bytes. Places count bytes from the file's start.
#[derive(Clone, Copy, Debug, PartialEq, Eq)]
pub enum CodedFault {
    /// The first four bytes are others.
    Magic,
    /// The version isn't 1.
    Version(u16),
    /// The kind is neither 1 nor 2.
    KindCode(u16),
    /// The configuration is longer than 65,536 bytes.
    ConfigTooLong { len: u32 },
    /// A field, a payload or the next tag isn't whole. The place is the file's length.
    Truncated { at: u64 },
    /// The tag at the place is above 1.
    Tag { at: u64, tag: u8 },
    /// The record at the place has no payload.
    Empty { at: u64 },
    /// The payload of the record at the place is longer than 16,777,216 bytes.
    TooLong { at: u64, len: u32 },
    /// A byte follows the tag 0.
    Trailing { at: u64 },
    /// The source failed.
    ReadFault,
    NoMemory,
}

impl CodedFault {
    /// The place in the file at which what is refused begins; 0 where the file isn't refused.
    pub fn place(self) -> u64
        ensures { result ≡ fault_place self }
    {
        match self {
            CodedFault::Magic | CodedFault::ReadFault | CodedFault::NoMemory => 0,
            CodedFault::Version(_) => 4,
            CodedFault::KindCode(_) => 6,
            CodedFault::ConfigTooLong { .. } => 18,
            CodedFault::Truncated { at }
            | CodedFault::Tag { at, .. }
            | CodedFault::Empty { at }
            | CodedFault::TooLong { at, .. }
            | CodedFault::Trailing { at } => at,
        }
    }
}

/// A sample, and the place of its record's tag.
#[derive(Drop)]
pub struct CodedSample {
    pub at: u64,
    pub sample: Sample,
}

impl From<Failed> for CodedFault {
    ghost from_gives = { λ _ fault. fault ≡ ReadFault };

    fn from(_failed: Failed) -> CodedFault {
        CodedFault::ReadFault
    }
}

impl From<AllocError> for CodedFault {
    ghost from_gives = { λ _ fault. fault ≡ NoMemory };

    fn from(_error: AllocError) -> CodedFault {
        CodedFault::NoMemory
    }
}
