//! What is wrong with words.

ghost use Rattle.std.specs.Prelude.{◌≡◌};
ghost use Rattle.sf_words.specs.declared.faults.WordsFault.TheVariants.{NoMemory, Usage};

use std::alloc::AllocError;

/// What is wrong with the words.
#[derive(Clone, Copy, Debug, PartialEq, Eq)]
pub enum UsageFault {
    /// The first word is missing or is no command.
    Command,
    /// The words after the command aren't what it takes.
    Words,
}

/// Why no command was read.
#[derive(Clone, Copy, Debug, PartialEq, Eq)]
pub enum WordsFault {
    Usage(UsageFault),
    NoMemory,
}

impl From<UsageFault> for WordsFault {
    ghost from_gives = { λ usage fault. fault ≡ Usage usage };

    fn from(fault: UsageFault) -> WordsFault {
        WordsFault::Usage(fault)
    }
}

impl From<AllocError> for WordsFault {
    ghost from_gives = { λ _ fault. fault ≡ NoMemory };

    fn from(_error: AllocError) -> WordsFault {
        WordsFault::NoMemory
    }
}
