//! The file into which generated inputs are recorded.

ghost use Rattle.std.specs.Prelude.{◌≡◌, ◌⊎◌, ◌≤◌, List, [], ◌∷◌, ℕ, length, map, Some, IfOk, OnOk};
ghost use Rattle.sf_series.specs.Series.{AreLimits};
ghost use Rattle.sf_world.specs.Views.{told_source};
ghost use Rattle.sf_selftest.specs.SelfTest.{no_limits};
ghost use Rattle.sf_selftest.specs.inner.Made.{IsMade};

use sf_gather::Options;
use sf_list::{Bytes, Text};
use sf_make::make_inputs;
use sf_record::{SerialOutcome, record_surely};
use sf_series::Limits;
use sf_world::{Shelf, Source, SureShelf, SureSource};
use std::alloc::{AllocError, Global};

/// How samples are put into chunks: of at most a second, from the start 0 on.
const USUAL: Options = Options {
    start_us: 0,
    interleave_us: 1_000_000,
};

// No limits: one file, of whatever length.
fn no_limits(alloc: Global) -> Result<Limits, AllocError>
    ensures limits { IfOk result (λ limits. limits ≡ no_limits) }
    ensures within { IfOk result AreLimits }
{
    Ok(Limits {
        max_bytes: 0,
        max_duration_us: 0,
        max_files: 1,
        stem: Text::from_str(alloc, "make")?,
    })
}

// Sources of these bytes.
fn sources_of(alloc: Global, inputs: Vec<Bytes>) -> Result<Vec<SureSource>, AllocError>
    ensures { IfOk result (λ sources. map (λ s. ⟦<SureSource as Source>⟧.seen s) sources.items ≡ map (λ bytes. told_source bytes 0) inputs.items) }
{
    let mut sources = Vec::with_capacity(alloc, inputs.len())?;
    for input in inputs {
        sources.push(SureSource::new(alloc, input))?;
    }
    Ok(sources)
}

// The recording is done, unless there was no memory.
fn recorded(outcome: SerialOutcome) -> Result<(), AllocError>
    requires { (outcome ≡ SerialOutcome.NoMemory) ⊎ (outcome ≡ SerialOutcome.Done) }
    ensures { OnOk result (outcome ≡ SerialOutcome.Done) }
{
    match outcome {
        SerialOutcome::Done => Ok(()),
        SerialOutcome::NoMemory => Err(AllocError),
        _ => unreachable!(),
    }
}

// A copy of the only file of a shelf.
fn only_file(alloc: Global, shelf: &SureShelf) -> Result<Bytes, AllocError>
    requires { (file : List ℕ) × ((⟦<SureShelf as Shelf>⟧.seen shelf.now).files ≡ Some (file ∷ [])) }
    ensures { IfOk result (λ file. (⟦<SureShelf as Shelf>⟧.seen shelf.now).files ≡ Some (file ∷ [])) }
{
    match shelf.file(0) {
        Some(file) => Bytes::from_slice(alloc, file),
        None => unreachable!(),
    }
}

/// The file into which so many samples of each of so many tracks are recorded.
pub(crate) fn made_file(alloc: Global, count: u32, tracks: u32) -> Result<Bytes, AllocError>
    requires samples { count ≤ 200000 }
    requires least { 1 ≤ tracks }
    requires most { tracks ≤ 8 }
    ensures { IfOk result (IsMade count tracks) }
{
    let sources = sources_of(alloc, make_inputs(alloc, count, tracks)?)?;
    let limits = no_limits(alloc)?;
    let mut shelf = SureShelf::new(alloc);
    let end = record_surely(alloc, sources, USUAL, limits, &mut shelf);
    recorded(end.outcome)?;
    only_file(alloc, &shelf)
}
