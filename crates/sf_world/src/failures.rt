ghost use Rattle.std.specs.Prelude.{◌≡◌};
ghost use Rattle.sf_world.specs.declared.failures.Denied.TheVariants.{NoMemory};

pub use std::alloc::AllocError as NoMemory;
use std::alloc::{AllocError, AllocFailed};

/// A call on the outside failed.
#[derive(Clone, Copy, Debug, PartialEq, Eq)]
pub struct Failed;

/// A call on the outside failed, or found no memory and changed nothing.
#[derive(Clone, Copy, Debug, PartialEq, Eq)]
pub enum Denied {
    Failed,
    NoMemory,
}

impl From<AllocError> for Denied {
    ghost from_gives = { λ _ denied. denied ≡ NoMemory };

    fn from(_error: AllocError) -> Denied {
        Denied::NoMemory
    }
}

impl<T: Drop> From<AllocFailed<T>> for Denied {
    ghost from_gives = { λ _ denied. denied ≡ NoMemory };

    fn from(_error: AllocFailed<T>) -> Denied {
        Denied::NoMemory
    }
}
