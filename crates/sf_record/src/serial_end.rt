//! How the recording of several inputs ends.

ghost use Rattle.std.specs.Prelude.{◌≡◌, ℕ};
ghost use Rattle.sf_record.specs.Serial.{answer_at};

use crate::faults::{InputFault, TrackFault};
use sf_coded::CodedFault;
use sf_series::{LimitShown, Report, SeriesFault};

/// How the recording of several inputs ended. Tracks and inputs are numbered from 0.
#[derive(Clone, Copy, Debug, PartialEq, Eq)]
pub enum SerialOutcome {
    /// Each input is whole, and all samples are in the files.
    Done,
    /// The shelf or a sink of it failed.
    WriteFault,
    /// With more samples a file would have passed a limit.
    Limit(LimitShown),
    /// The input of a track is refused, the lowest of those with a fault.
    Refused { track: u32, fault: TrackFault },
    /// The source of an input failed, the lowest of those with a fault.
    ReadFault { input: u32 },
    NoMemory,
}

/// The sources of inputs that were recorded, in their order, and how it went.
#[derive(Drop)]
pub struct SerialEnd<S> {
    pub sources: Vec<S>,
    pub report: Report,
    pub outcome: SerialOutcome,
}

/// The answer for the fault of the input of this number.
pub(crate) fn answer_at(number: u32, fault: TrackFault) -> SerialOutcome
    ensures { result ≡ answer_at number fault }
{
    match fault.why {
        InputFault::Coded(CodedFault::ReadFault) => SerialOutcome::ReadFault { input: number },
        _ => SerialOutcome::Refused {
            track: number,
            fault,
        },
    }
}
