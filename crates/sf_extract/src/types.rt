//! What the calls of the extractor speak of.

ghost use Rattle.std.specs.Prelude.{◌≡◌};
ghost use Rattle.sf_extract.specs.declared.types.GiveFault.TheVariants.{NoMemory};

use std::alloc::AllocError;

/// A movie has no track of that number.
#[derive(Clone, Copy, Debug, PartialEq, Eq)]
pub struct NoTrack;

/// Which sync sample a seek leads to.
#[derive(Clone, Copy, Debug, PartialEq, Eq)]
pub enum Mode {
    /// The latest one until that time, or else the earliest one.
    Previous,
    /// The earliest one from that time on, or else the end.
    Next,
    /// The nearest one, the earlier one where two are as near.
    Closest,
}

/// Where the bytes of a sample lie in the file.
#[derive(Clone, Copy, Debug, PartialEq, Eq)]
pub struct Place {
    /// The first byte, counted from the start of the file.
    pub at: u64,
    /// How many bytes.
    pub len: u32,
}

/// A sample at which an extractor stands.
#[derive(Clone, Copy, Debug, PartialEq, Eq)]
pub struct Standing {
    pub track: u32,
    /// Its number, from 0.
    pub sample: u64,
    /// When it's shown, in microseconds from the start of the file.
    pub shown_us: i64,
}

/// A sync sample.
#[derive(Clone, Copy, Debug, PartialEq, Eq)]
pub struct Sync {
    /// Its number, from 0.
    pub sample: u64,
    /// When it's shown, in microseconds from the start of the file.
    pub shown_us: i64,
}

/// A sample that is refused: at this place of it, in bytes, the length of a unit isn't whole or passes the end.
#[derive(Clone, Copy, Debug, PartialEq, Eq)]
pub struct BadSample {
    pub track: u32,
    pub sample: u64,
    pub at: u64,
}

/// Why a sample isn't put into a dump.
#[derive(Clone, Copy, Debug, PartialEq, Eq)]
pub enum GiveFault {
    Bad(BadSample),
    NoMemory,
}

impl From<AllocError> for GiveFault {
    ghost from_gives = { λ _ fault. fault ≡ NoMemory };

    fn from(_error: AllocError) -> GiveFault {
        GiveFault::NoMemory
    }
}

/// What a run of a plan needs next.
#[derive(Clone, Copy, Debug, PartialEq, Eq)]
pub enum Turn {
    /// The bytes of a sample, which lie there.
    Read(Place),
    /// Nothing: every command was carried out.
    Done,
}
