//! A file that is read back: its movie, and all of its samples.

ghost use Rattle.std.specs.Prelude.{◌≡◌, ◌⊎◌, ◌≤◌, [], ◌∷◌, length, Ok, IfOk, OnOk};
ghost use Rattle.sf_extract.specs.Current.{unmoved};
ghost use Rattle.sf_extract.specs.Plan.{plan_of};
ghost use Rattle.sf_extract.specs.Readout.{read_out};
ghost use Rattle.sf_meaning.specs.Movie.{movie};
ghost use Rattle.sf_meaning.specs.declared.movie.PlainMovie.{PlainMovie};
ghost use Rattle.sf_movie.specs.Loaded.{Loaded};
ghost use Rattle.sf_movie.specs.Loads.{IsWithin, OfTold};
ghost use Rattle.sf_reader.specs.Dumps.{told_length};
ghost use Rattle.sf_reader.specs.Extracted.{IsLoaded};
ghost use Rattle.sf_selftest.specs.SelfTest.{IsTested, whole_plan};
ghost use Rattle.sf_selftest.specs.inner.Made.{IsMade, IsReadWhole};

use crate::summary::Summary;
use crate::track::track_summaries;
use sf_extract::{Plan, PlanFault, read_plan};
use sf_list::Bytes;
use sf_meaning::accepted_movies;
use sf_movie::{LoadFault, Movie};
use sf_reader::{ExtractOutcome, extract_direct, files_are_read_out};
use sf_world::{Source, SureShelf, SureSource};
use std::alloc::{AllocError, Global};

// The word of the plan that selects each of so many tracks and reads to the end.
fn plan_word(tracks: u32) -> &'static str
    requires least { 1 ≤ tracks }
    requires most { tracks ≤ 8 }
    ensures { plan_of result.now ≡ Ok (whole_plan tracks) }
{
    match tracks {
        1 => "s0,e",
        2 => "s0,s1,e",
        3 => "s0,s1,s2,e",
        4 => "s0,s1,s2,s3,e",
        5 => "s0,s1,s2,s3,s4,e",
        6 => "s0,s1,s2,s3,s4,s5,e",
        7 => "s0,s1,s2,s3,s4,s5,s6,e",
        8 => "s0,s1,s2,s3,s4,s5,s6,s7,e",
        _ => unreachable!(),
    }
}

// The plan that selects each of so many tracks and reads to the end.
fn whole_plan(alloc: Global, tracks: u32) -> Result<Plan, AllocError>
    requires least { 1 ≤ tracks }
    requires most { tracks ≤ 8 }
    ensures { IfOk result (λ plan. plan ≡ whole_plan tracks) }
{
    match read_plan(alloc, plan_word(tracks)) {
        Ok(plan) => Ok(plan),
        Err(PlanFault::NoMemory) => Err(AllocError),
        Err(PlanFault::BadWord { .. }) => unreachable!(),
    }
}

// The movie of a source that holds one.
fn loaded(alloc: Global, source: &mut SureSource) -> Result<Movie, AllocError>
    requires { OfTold (⟦<SureSource as Source>⟧.seen source.old).content (λ file. (m : PlainMovie) × (movie file ≡ Ok m)) }
    ensures movie { OfTold (⟦<SureSource as Source>⟧.seen source.old).content (λ file. IfOk result (IsLoaded file)) }
    ensures within { IfOk result (IsWithin (⟦<SureSource as Source>⟧.seen source.old).size) }
    ensures source { (⟦<SureSource as Source>⟧.seen source.new).content ≡ (⟦<SureSource as Source>⟧.seen source.old).content }
{
    match Movie::load(alloc, source) {
        Ok(movie) => Ok(movie),
        Err(LoadFault::NoMemory) => Err(AllocError),
        Err(_) => unreachable!(),
    }
}

// The extraction is done, unless there was no memory.
fn extracted(outcome: ExtractOutcome) -> Result<(), AllocError>
    requires { (outcome ≡ ExtractOutcome.NoMemory) ⊎ (outcome ≡ ExtractOutcome.Done) }
    ensures { OnOk result (outcome ≡ ExtractOutcome.Done) }
{
    match outcome {
        ExtractOutcome::Done => Ok(()),
        ExtractOutcome::NoMemory => Err(AllocError),
        _ => unreachable!(),
    }
}

// The only length that is told.
fn only_length(lengths: &[u64]) -> u64
    requires { length lengths.now ≡ 1 }
    ensures { lengths.now ≡ result ∷ [] }
{
    lengths[0]
}

// The length of the dump of a plan, in bytes, by which a source is read out whole.
fn dump_length(alloc: Global, source: SureSource, plan: Plan) -> Result<u64, AllocError>
    requires { OfTold (⟦<SureSource as Source>⟧.seen source).content (IsReadWhole plan) }
    ensures { OfTold (⟦<SureSource as Source>⟧.seen source).content (λ file. IfOk result (λ len. (m : Loaded) → IsLoaded file m → len ≡ told_length (read_out file plan (unmoved m)).dump)) }
{
    let mut plans = Vec::with_capacity(alloc, 1)?;
    plans.push_reserved(plan);
    let mut shelf = SureShelf::new(alloc);
    let end = extract_direct(alloc, source, plans, "make", &mut shelf);
    extracted(end.outcome)?;
    Ok(only_length(end.dumps.as_slice()))
}

/// Reads back a file that was made of so many samples of each of so many tracks.
pub(crate) fn read_back(
    alloc: Global,
    file: Bytes,
    count: u32,
    tracks: u32,
) -> Result<Summary, AllocError>
    requires least { 1 ≤ tracks }
    requires most { tracks ≤ 8 }
    requires made { IsMade count tracks file }
    ensures { IfOk result (IsTested count tracks) }
{
    accepted_movies();
    files_are_read_out();
    let plan = whole_plan(alloc, tracks)?;
    let mut source = SureSource::new(alloc, file);
    let movie = loaded(alloc, &mut source)?;
    let summaries = track_summaries(alloc, &movie, tracks)?;
    let dump = dump_length(alloc, source, plan)?;
    Ok(Summary {
        tracks: summaries,
        dump,
    })
}
