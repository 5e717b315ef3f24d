//! How the program ends.

ghost use Rattle.std.specs.Prelude.{◌≡◌};
ghost use Rattle.sf_app.specs.Status.{code_of};

use sf_meaning::MovieFault;
use sf_record::TrackFault;
use sf_series::LimitShown;

/// What is wrong with the words.
#[derive(Clone, Copy, Debug, PartialEq, Eq)]
pub enum UsageFault {
    /// The first word is missing or is no command.
    Command,
    /// The words after the command aren't what it takes.
    Words,
    /// The word of a plan, both counted from 0, isn't a plan: the byte at this place can't continue one, or the word ends too
    /// early there.
    PlanWord { reader: u32, at: u64 },
}

/// How the program ends. Inputs, tracks, samples, plans and their commands are numbered from 0; the reader of a plan has its
/// number.
#[derive(Clone, Copy, Debug, PartialEq, Eq)]
pub enum Status {
    /// The command did its whole work.
    Done,
    Usage(UsageFault),
    /// There is no such input.
    OpenFault {
        input: u32,
    },
    ReadFault {
        input: u32,
    },
    /// A file or the text couldn't be written.
    WriteFault,
    InputRefused {
        track: u32,
        fault: TrackFault,
    },
    MovieRefused(MovieFault),
    /// A plan reads a sample in which, at this place in bytes, the length of a unit isn't whole or passes the end.
    SampleRefused {
        reader: u32,
        track: u32,
        sample: u64,
        at: u64,
    },
    /// With more samples a file would pass a limit.
    LimitReached(LimitShown),
    /// A command of a plan names a track that the movie doesn't have.
    PlanRefused {
        reader: u32,
        command: u64,
    },
    NoMemory,
}

impl Status {
    /// The number with which the program ends.
    pub fn code(&self) -> u8
        ensures { result ≡ code_of self.now }
    {
        match self {
            Status::Done => 0,
            Status::Usage(_) => 2,
            Status::OpenFault { .. } => 3,
            Status::ReadFault { .. } => 4,
            Status::WriteFault => 5,
            Status::InputRefused { .. } => 6,
            Status::MovieRefused(_) => 7,
            Status::SampleRefused { .. } => 7,
            Status::LimitReached(_) => 8,
            Status::PlanRefused { .. } => 9,
            Status::NoMemory => 10,
        }
    }
}
