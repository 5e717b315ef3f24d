//! Why a movie isn't loaded.

ghost use Rattle.std.specs.Prelude.{◌≡◌, ◌≢◌, ◌⊎◌};
ghost use Rattle.sf_meaning.specs.declared.faults.MovieFault.TheVariants as faults;

use sf_meaning::MovieFault;

/// Why a movie wasn't loaded.
#[derive(Clone, Copy, Debug, PartialEq, Eq)]
pub enum LoadFault {
    /// The file isn't a movie that can be read. Want of memory is never told so.
    Refused(MovieFault),
    ReadFault,
    NoMemory,
}

/// What is wrong with the bytes of a movie, or that there was no memory to read it.
pub(crate) fn load_fault(fault: MovieFault) -> LoadFault
    ensures is { (result ≡ LoadFault.NoMemory) ⊎ (result ≡ LoadFault.Refused fault) }
    ensures no_memory { fault ≡ faults.NoMemory → result ≡ LoadFault.NoMemory }
    ensures only_there { result ≡ LoadFault.NoMemory → fault ≡ faults.NoMemory }
    ensures free { result ≢ LoadFault.Refused faults.NoMemory }
{
    match fault {
        MovieFault::NoMemory => LoadFault::NoMemory,
        fault => LoadFault::Refused(fault),
    }
}
