//! Why a series of files ends.

use crate::limits::LimitShown;
use sf_file::FileFault;
use sf_world::Denied;
use std::alloc::AllocError;

/// Why a series of files ended, or wasn't begun.
#[derive(Clone, Copy, Debug, PartialEq, Eq)]
pub enum SeriesFault {
    /// The shelf or a sink of it failed.
    WriteFault,
    /// The next chunk meets a limit, or a file without samples does.
    Limit(LimitShown),
    NoMemory,
}

impl From<FileFault> for SeriesFault {
    ghost use Rattle.std.specs.Prelude.{◌≡◌};
    ghost use Rattle.sf_series.specs.inner.Faults.{of_file};

    ghost from_gives = { λ given fault. fault ≡ of_file given };

    fn from(fault: FileFault) -> SeriesFault {
        match fault {
            FileFault::WriteFault => SeriesFault::WriteFault,
            FileFault::NoMemory => SeriesFault::NoMemory,
        }
    }
}

impl From<Denied> for SeriesFault {
    ghost use Rattle.std.specs.Prelude.{◌≡◌};
    ghost use Rattle.sf_series.specs.inner.Faults.{of_denied};

    ghost from_gives = { λ given fault. fault ≡ of_denied given };

    fn from(denied: Denied) -> SeriesFault {
        match denied {
            Denied::Failed => SeriesFault::WriteFault,
            Denied::NoMemory => SeriesFault::NoMemory,
        }
    }
}

impl From<LimitShown> for SeriesFault {
    ghost use Rattle.std.specs.Prelude.{◌≡◌};
    ghost use Rattle.sf_series.specs.declared.faults.SeriesFault.TheVariants.{Limit};

    ghost from_gives = { λ shown fault. fault ≡ Limit shown };

    fn from(shown: LimitShown) -> SeriesFault {
        SeriesFault::Limit(shown)
    }
}

impl From<AllocError> for SeriesFault {
    ghost use Rattle.std.specs.Prelude.{◌≡◌};
    ghost use Rattle.sf_series.specs.declared.faults.SeriesFault.TheVariants.{NoMemory};

    ghost from_gives = { λ _ fault. fault ≡ NoMemory };

    fn from(_error: AllocError) -> SeriesFault {
        SeriesFault::NoMemory
    }
}
