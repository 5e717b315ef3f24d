//! What holds of movies and plans, over bytes alone.

ghost use Rattle.std.specs.Prelude.{◌≡◌, ℕ, List, Ok};
ghost use Rattle.sf_movie.specs.Loaded.{Loaded};
ghost use Rattle.sf_movie.specs.Loads.{IsWithin};
ghost use Rattle.sf_extract.specs.Current.{unmoved};
ghost use Rattle.sf_extract.specs.Readout.{read_out, readout};
ghost use Rattle.sf_extract.specs.declared.plan.Command.{Command};
ghost use Rattle.sf_reader.specs.Extracted.{IsLoaded};
ghost use Rattle.sf_reader.specs.inner.Reading.{EndsWithin};

use sf_meaning::accepted_movies;

/// A law: what a plan reads out of a file that is this movie is the readout of the file's bytes and the plan.
#[tactic(auto, using(crate::proofs::WithinLemmas::readout_is))]
pub fn files_are_read_out()
    ensures { (file : List ℕ) (m : Loaded) (plan : List Command) → IsLoaded file m → readout file plan ≡ Ok (read_out file plan (unmoved m)) }
{}

/// A law: each sample of a movie that was loaded ends within the file.
#[tactic(auto, using(crate::proofs::WithinLemmas::ends_within))]
pub(crate) fn loaded_samples_end_within()
    ensures { (bytes : ℕ) (m : Loaded) → IsWithin bytes m → EndsWithin bytes m }
{
    accepted_movies();
}
