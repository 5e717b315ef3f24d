//! The command `list`.

ghost use Rattle.std.specs.Prelude.{◌≡◌, ◌⊎◌, ℕ, List, Some};
ghost use Rattle.sf_app.specs.ListEnds.{Answered, ListEnds, Reads};
ghost use Rattle.sf_app.specs.ListText.{listed};
ghost use Rattle.sf_app.specs.Outside.{KeepInputs, outside_of};
ghost use Rattle.sf_app.specs.inner.Gathered.{TellsOrNot};
ghost use Rattle.sf_app.specs.inner.Listing.{plain_of};
ghost use Rattle.sf_app.specs.inner.Load.{read_status};
ghost use Rattle.sf_meaning.specs.Movie.{movie};
ghost use Rattle.sf_world.specs.Counts.{Rose};
ghost use Rattle.sf_world.specs.Views.{ShelfView};

use super::Status;
use super::answer_text::put_answer;
use super::list_text::{PutFault, put_movie};
use sf_movie::{LoadFault, Movie};
use sf_world::{Denied, Inputs, Sink};
use std::alloc::Global;

// The answer where a movie wasn't read.
fn status_of(fault: LoadFault) -> Status
    ensures { result ≡ read_status fault }
{
    match fault {
        LoadFault::Refused(fault) => Status::MovieRefused(fault),
        LoadFault::ReadFault => Status::ReadFault { input: 0 },
        LoadFault::NoMemory => Status::NoMemory,
    }
}

// Fetches the movie of a name, reads it, and gives its source back.
fn read_input<I: Inputs>(alloc: Global, inputs: &mut I, name: &str) -> Result<Movie, Status>
    ensures reads { Reads name.now (plain_of result) (I.seen inputs.old) (I.seen inputs.new) }
    ensures inputs { KeepInputs (I.seen inputs.old) (I.seen inputs.new) }
    ensures complete { (file : List ℕ) → (I.seen inputs.old).holds name.now ≡ Some file
        → ¬ Rose (I.seen inputs.old).misses (I.seen inputs.new).misses → ¬ Rose (I.seen inputs.old).faults (I.seen inputs.new).faults
        → Answered (plain_of result) (movie file) }
{
    let mut source = match inputs.fetch(name) {
        Ok(source) => source,
        Err(Denied::Failed) => return Err(Status::OpenFault { input: 0 }),
        Err(Denied::NoMemory) => return Err(Status::NoMemory),
    };
    let loaded = Movie::load(alloc, &mut source);
    inputs.give_back(source);
    match loaded {
        Ok(movie) => Ok(movie),
        Err(fault) => Err(status_of(fault)),
    }
}

// Puts the list of a movie into the text. It errs with the answer that the text doesn't tell yet: there
// was no memory before the first line.
fn tell_movie<T: Sink>(alloc: Global, text: &mut T, movie: &Movie) -> Result<Status, Status>
    ensures { TellsOrNot (listed movie.now.movie) result (T.seen text.old) (T.seen text.new) }
{
    match put_movie(alloc, text, movie) {
        Ok(()) => Ok(Status::Done),
        Err(PutFault::WriteFault) => Ok(Status::WriteFault),
        Err(PutFault::NoMemory) => Err(Status::NoMemory),
        Err(PutFault::NoMemoryWithin) => Ok(Status::NoMemory),
    }
}

/// Lists the movie of a name, and tells how it went.
pub(crate) fn run_list<I: Inputs, T: Sink>(
    alloc: Global,
    inputs: &mut I,
    name: &str,
    text: &mut T,
) -> Status
    ensures { (shelf : ShelfView) → ListEnds name.now result (outside_of (I.seen inputs.old) shelf (T.seen text.old))
        (outside_of (I.seen inputs.new) shelf (T.seen text.new)) }
{
    let status = match read_input(alloc, inputs, name) {
        Ok(movie) => match tell_movie(alloc, text, &movie) {
            Ok(status) => return status,
            Err(status) => status,
        },
        Err(status) => status,
    };
    let _put = put_answer(alloc, text, &status);
    status
}
