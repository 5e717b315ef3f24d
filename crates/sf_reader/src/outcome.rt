//! How an extraction ends.

ghost use Rattle.std.specs.Prelude.{◌≡◌, ◌≢◌, []};
ghost use Rattle.sf_reader.specs.inner.Readers.{first_fault};

use sf_list::Items;
use sf_movie::MovieFault;
use std::alloc::Global;

/// How the extraction of plans from a movie ended. Readers, tracks, samples and commands count from 0.
#[derive(Clone, Copy, Debug, PartialEq, Eq)]
pub enum ExtractOutcome {
    /// Each dump is the whole readout of its plan.
    Done,
    /// The file isn't a movie that can be read.
    Refused(MovieFault),
    /// A command of a reader's plan names a track that the movie doesn't have.
    NoTrack {
        reader: u32,
        command: u64,
    },
    /// A sample of the lowest reader with a fault is refused: at this place of it, in bytes, the length of a
    /// unit isn't whole or passes the end.
    BadSample {
        reader: u32,
        track: u32,
        sample: u64,
        at: u64,
    },
    /// The source failed.
    ReadFault,
    /// The shelf or a sink of it failed.
    WriteFault,
    NoMemory,
}

/// The command of a reader's plan, from 0, that names a track which the movie doesn't have.
#[derive(Clone, Copy)]
pub(crate) struct Missing {
    pub reader: u32,
    pub command: u64,
}

/// The source of a movie, the length of each dump in bytes where all was done, and how it went.
#[derive(Drop)]
pub struct ExtractEnd<S> {
    pub source: S,
    pub dumps: Items<u64>,
    pub outcome: ExtractOutcome,
}

/// The first of two answers that tells a fault.
pub(crate) fn first_fault(first: ExtractOutcome, later: ExtractOutcome) -> ExtractOutcome
    ensures { result ≡ first_fault first later }
{
    match first {
        ExtractOutcome::Done => later,
        fault => fault,
    }
}

/// The lengths of dumps, where all was done.
pub(crate) fn where_done(alloc: Global, outcome: ExtractOutcome, lengths: Items<u64>) -> Items<u64>
    ensures done { outcome ≡ ExtractOutcome.Done → result ≡ lengths }
    ensures others { outcome ≢ ExtractOutcome.Done → result ≡ [] }
{
    match outcome {
        ExtractOutcome::Done => lengths,
        _ => Items::new(alloc),
    }
}
