//! A movie that is read through its source, and its list.

ghost use Rattle.std.specs.Prelude.{◌≡◌, ◌⊎◌, ℕ, List, Some, Err};
ghost use Rattle.sf_app.specs.ListEnds.{Lists, list_answer};
ghost use Rattle.sf_app.specs.declared.list_text.PutFault.TheVariants as puts;
ghost use Rattle.sf_app.specs.inner.Load.{listed_fault, put_fault};
ghost use Rattle.sf_meaning.specs.Movie.{movie};
ghost use Rattle.sf_world.specs.Counts.{Rose};
ghost use Rattle.sf_world.specs.Views.{Unchanged};

use super::list_text::{PutFault, put_movie};
use sf_meaning::MovieFault;
use sf_movie::{LoadFault, Movie};
use sf_world::{Sink, Source};
use std::alloc::Global;

/// Why a movie wasn't listed, or not whole.
#[derive(Clone, Copy, Debug, PartialEq, Eq)]
pub enum ListFault {
    /// The file isn't a movie that can be listed. Want of memory is never told so.
    Refused(MovieFault),
    ReadFault,
    /// The text couldn't be written.
    WriteFault,
    NoMemory,
}

impl From<LoadFault> for ListFault {
    ghost from_gives = { λ fault list. list ≡ listed_fault fault };

    fn from(fault: LoadFault) -> ListFault {
        match fault {
            LoadFault::Refused(fault) => ListFault::Refused(fault),
            LoadFault::ReadFault => ListFault::ReadFault,
            LoadFault::NoMemory => ListFault::NoMemory,
        }
    }
}

impl From<PutFault> for ListFault {
    ghost from_gives = { λ fault list. list ≡ put_fault fault };

    fn from(fault: PutFault) -> ListFault {
        match fault {
            PutFault::WriteFault => ListFault::WriteFault,
            PutFault::NoMemory => ListFault::NoMemory,
            PutFault::NoMemoryWithin => ListFault::NoMemory,
        }
    }
}

/// Puts the list of the movie that a source holds into a text: a line for its start, then for each
/// track one line and a line for each of its samples. It reads the head of each box of the file, and
/// of the boxes only the movie box whole.
pub fn list_movie<S: Source, T: Sink>(
    alloc: Global,
    source: &mut S,
    text: &mut T,
) -> Result<(), ListFault>
    // What stands after each answer. A refusal and a failed read come before the first line.
    ensures lists { Lists result (S.seen source.old) (S.seen source.new) (T.seen text.old) (T.seen text.new) }

    // Where no count rose, the answer is the one that the bytes call for, or want of memory.
    ensures complete { (file : List ℕ) → (S.seen source.old).content ≡ Some file
        → ¬ Rose (S.seen source.old).faults (S.seen source.new).faults → ¬ Rose (T.seen text.old).faults (T.seen text.new).faults
        → (result ≡ Err ListFault.NoMemory) ⊎ (result ≡ list_answer (movie file)) }
    ensures source { Unchanged (S.seen source.old) (S.seen source.new) }
{
    let movie = Movie::load(alloc, source)?;
    put_movie(alloc, text, &movie)?;
    Ok(())
}
