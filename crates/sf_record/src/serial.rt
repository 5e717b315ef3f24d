//! Several inputs are recorded into a series of files, on one thread.

ghost use Rattle.std.specs.Prelude.{◌≡◌, ℕ, ◌+◌, ◌≤◌, ◌⊎◌, ◌++◌, List, [], length, map, replicate, slice_get, Some, None, vec_capacity, vec_len, IfOk};
ghost use Rattle.sf_world.specs.Views.{ShelfView, SourceView};
ghost use Rattle.sf_gather.specs.declared.given.Options.{Options};
ghost use Rattle.sf_series.specs.Core.{State};
ghost use Rattle.sf_series.specs.Series.{AreLimits};
ghost use Rattle.sf_record.specs.Called.{NothingFailed, TellBytes, called_for};
ghost use Rattle.sf_record.specs.Said.{said_in};
ghost use Rattle.sf_record.specs.Serial.{AreOptions, ComeBack, KeepsMade, SerialEnds, asked_for, gave};
ghost use Rattle.sf_record.specs.inner.Deal.{Deals, PumpsOver};
ghost use Rattle.sf_record.specs.inner.Finishing.{WriteEnds, outcome_by, unbegun, untaken_as};
ghost use Rattle.sf_record.specs.inner.InTurn.{InTurn};
ghost use Rattle.sf_record.specs.inner.Headers.{AllOpened};

use crate::deal::{deal, lowest_fault};
use crate::headers::{Opening, Untaken};
use crate::pump::Pump;
use crate::serial_end::{SerialEnd, SerialOutcome, answer_at};
use sf_entry::TrackSetup;
use sf_gather::Options;
use sf_list::Items;
use sf_series::{Limits, Report, Series, SeriesFault, setups_fit};
use sf_world::{Shelf, Source};
use std::alloc::{AllocError, Global};

// What a recording takes memory for before it reads anything.
#[derive(Drop)]
struct Room<S: Source> {
    opening: Opening<S>,
    // For the sources that are given back.
    back: Vec<S>,
    // The report where no file is made.
    nothing: Report,
}

// Room for so many inputs.
fn make_room<S: Source>(alloc: Global, inputs: usize) -> Result<Room<S>, AllocError>
    ensures none { IfOk result (λ r. (r.opening.pumps.items ≡ []) × (r.opening.setups.items ≡ []) × (r.opening.rest.items ≡ []) × (r.opening.untaken ≡ None)) }
    ensures pumps { IfOk result (λ r. vec_len r.opening.pumps + inputs ≤ vec_capacity r.opening.pumps) }
    ensures setups { IfOk result (λ r. vec_len r.opening.setups + inputs ≤ vec_capacity r.opening.setups) }
    ensures rest { IfOk result (λ r. vec_len r.opening.rest + inputs ≤ vec_capacity r.opening.rest) }
    ensures back { IfOk result (λ r. (r.back.items ≡ []) × (vec_len r.back + inputs ≤ vec_capacity r.back)) }
    ensures nothing { IfOk result (λ r. (r.nothing.files ≡ []) × (r.nothing.tracks ≡ replicate inputs 0)) }
{
    Ok(Room {
        opening: Opening::new(alloc, inputs)?,
        back: Vec::with_capacity(alloc, inputs)?,
        nothing: Report {
            files: Items::new(alloc),
            tracks: Items::from_vec(vec![in alloc; 0u64; inputs]?),
        },
    })
}

// The sources of pumps after those that are there, for which there is room.
fn sources_of<S: Source>(pumps: Vec<Pump<S>>, back: Vec<S>) -> Vec<S>
    requires room { vec_len back + length pumps.items ≤ vec_capacity back }
    ensures sources { map (λ s. S.seen s) result.items ≡ map (λ s. S.seen s) back.items ++ map (λ p. p.coded.source) pumps.items }
    ensures len { vec_len result ≡ vec_len back + length pumps.items }
    ensures capacity { vec_capacity result ≡ vec_capacity back }
{
    let mut sources = back;
    for pump in pumps {
        sources.push_reserved(pump.give_source());
    }
    sources
}

// Sources after those that are there, for which there is room.
fn with_rest<S: Source>(back: Vec<S>, rest: Vec<S>) -> Vec<S>
    requires room { vec_len back + length rest.items ≤ vec_capacity back }
    ensures { result.items ≡ back.items ++ rest.items }
{
    let mut sources = back;
    for source in rest {
        sources.push_reserved(source);
    }
    sources
}

// The answer where the header of an input isn't taken.
fn untaken_outcome(number: u32, untaken: Untaken) -> SerialOutcome
    ensures { result ≡ untaken_as number untaken }
{
    match untaken {
        Untaken::Fault(fault) => answer_at(number, fault),
        Untaken::NoMemory => SerialOutcome::NoMemory,
    }
}

// The answer where no series is begun.
fn unbegun_outcome(fault: SeriesFault) -> SerialOutcome
    ensures { result ≡ unbegun fault }
{
    match fault {
        SeriesFault::WriteFault => SerialOutcome::WriteFault,
        SeriesFault::Limit(shown) => SerialOutcome::Limit(shown),
        SeriesFault::NoMemory => SerialOutcome::NoMemory,
    }
}

// The answer by how the chunks were dealt, how the series was finished, and what is to be told of the inputs. The
// writer's fault comes first, but a limit yields to want of memory.
fn outcome_by(
    dealt: Result<(), SeriesFault>,
    finished: Result<(), SeriesFault>,
    inputs: SerialOutcome,
) -> SerialOutcome
    ensures { result ≡ outcome_by finished dealt inputs }
{
    match (dealt, finished) {
        (_, Err(SeriesFault::WriteFault)) => SerialOutcome::WriteFault,
        (_, Err(SeriesFault::NoMemory)) => SerialOutcome::NoMemory,
        (Err(SeriesFault::NoMemory), _) => SerialOutcome::NoMemory,
        (_, Err(SeriesFault::Limit(shown))) => SerialOutcome::Limit(shown),
        (_, Ok(())) => inputs,
    }
}

// Writes the chunks of pumps into a series, and finishes it.
fn write_series<S: Source, O: Shelf>(
    pumps: &mut Vec<Pump<S>>,
    series: Series<O>,
    shelf: &mut O,
) -> (Report, SerialOutcome)
    requires few { length pumps.old.items ≤ 16 }
    requires goes_on { series.fault ≡ None }
    requires deals { (begun : ShelfView) × (state : State) × Deals begun state pumps.old.items series (O.seen shelf.old) }
    ensures ends { (begun : ShelfView) (state : State) → Deals begun state pumps.old.items series (O.seen shelf.old) → InTurn state
        → WriteEnds begun (O.seen shelf.old) series.files.limits series.files.setups pumps.new.items result.0 (O.seen shelf.new) result.1
        × KeepsMade series.files.limits.stem begun (O.seen shelf.new) }
    ensures over { PumpsOver pumps.old.items pumps.new.items }
    ensures later { (O.seen shelf.old).faults ≤ (O.seen shelf.new).faults }
{
    let mut series = series;
    let dealt = deal(pumps, &mut series, shelf);
    let (report, finished) = series.finish(shelf);
    (
        report,
        outcome_by(dealt, finished, lowest_fault(0, pumps.as_slice())),
    )
}

// Records inputs whose headers are taken.
fn record_pumps<S: Source, O: Shelf>(
    alloc: Global,
    pumps: Vec<Pump<S>>,
    setups: Vec<TrackSetup>,
    limits: Limits,
    nothing: Report,
    back: Vec<S>,
    shelf: &mut O,
) -> SerialEnd<S>
    requires some { 1 ≤ length pumps.items }
    requires few { length pumps.items ≤ 16 }
    requires opened { (options : Options) × (before : List SourceView) × AllOpened 0 options before setups.items pumps.items }
    requires limits { AreLimits limits }
    requires room { (back.items ≡ []) × (vec_len back + length pumps.items ≤ vec_capacity back) }
    requires nothing { (nothing.files ≡ []) × (nothing.tracks ≡ replicate (length pumps.items) 0) }
    ensures ends { (options : Options) (before : List SourceView) → AllOpened 0 options before setups.items pumps.items
        → SerialEnds (asked_for options limits before (O.seen shelf.old)) (gave (map (λ s. S.seen s) result.sources.items) (O.seen shelf.new) result.report) result.outcome }
    ensures back { (options : Options) (before : List SourceView) → AllOpened 0 options before setups.items pumps.items → ComeBack before (map (λ s. S.seen s) result.sources.items) }
    ensures kept { KeepsMade limits.stem (O.seen shelf.old) (O.seen shelf.new) }
    ensures later { (O.seen shelf.old).faults ≤ (O.seen shelf.new).faults }
{
    let mut pumps = pumps;
    match Series::start(alloc, setups, limits, shelf) {
        Ok(series) => {
            setups_fit();
            let (report, outcome) = write_series(&mut pumps, series, shelf);
            SerialEnd {
                sources: sources_of(pumps, back),
                report,
                outcome,
            }
        }
        Err(fault) => SerialEnd {
            sources: sources_of(pumps, back),
            report: nothing,
            outcome: unbegun_outcome(fault),
        },
    }
}

// Records inputs, for which there is room.
fn record_within<S: Source, O: Shelf>(
    alloc: Global,
    sources: Vec<S>,
    options: Options,
    limits: Limits,
    room: Room<S>,
    shelf: &mut O,
) -> SerialEnd<S>
    requires some { 1 ≤ length sources.items }
    requires few { length sources.items ≤ 16 }
    requires limits { AreLimits limits }
    requires none { (room.opening.pumps.items ≡ []) × (room.opening.setups.items ≡ []) × (room.opening.rest.items ≡ []) × (room.opening.untaken ≡ None) }
    requires pumps { vec_len room.opening.pumps + length sources.items ≤ vec_capacity room.opening.pumps }
    requires setups { vec_len room.opening.setups + length sources.items ≤ vec_capacity room.opening.setups }
    requires rest { vec_len room.opening.rest + length sources.items ≤ vec_capacity room.opening.rest }
    requires back { (room.back.items ≡ []) × (vec_len room.back + length sources.items ≤ vec_capacity room.back) }
    requires nothing { (room.nothing.files ≡ []) × (room.nothing.tracks ≡ replicate (length sources.items) 0) }
    ensures ends { SerialEnds (asked_for options limits (map (λ s. S.seen s) sources.items) (O.seen shelf.old))
        (gave (map (λ s. S.seen s) result.sources.items) (O.seen shelf.new) result.report) result.outcome }
    ensures back { ComeBack (map (λ s. S.seen s) sources.items) (map (λ s. S.seen s) result.sources.items) }
    ensures kept { KeepsMade limits.stem (O.seen shelf.old) (O.seen shelf.new) }
    ensures header { (track : ℕ) (source : SourceView) (bytes : List ℕ) → slice_get (map (λ s. S.seen s) sources.items) track ≡ Some source → source.content ≡ Some bytes
        → (said_in track options bytes).setup ≡ None → shelf.new ≡ shelf.old }
    ensures later { (O.seen shelf.old).faults ≤ (O.seen shelf.new).faults }
{
    let Room {
        mut opening,
        back,
        nothing,
    } = room;
    opening.add_all(alloc, options, sources);
    let Opening {
        pumps,
        setups,
        rest,
        untaken,
    } = opening;
    match untaken {
        None => record_pumps(alloc, pumps, setups, limits, nothing, back, shelf),
        Some(untaken) => {
            let outcome = untaken_outcome(pumps.len() as u32, untaken);
            SerialEnd {
                sources: with_rest(sources_of(pumps, back), rest),
                report: nothing,
                outcome,
            }
        }
    }
}

/// Records 1 to 16 inputs, each as a track, into a series of files on the shelf. The sources come back in their order,
/// and each file that was made is kept. Headers and setups are read by number before a file is made, and the first fault
/// of one ends the recording. After them the writer's fault is told, then the lowest of the inputs' faults; each other
/// input is recorded whole.
pub fn record_serial<S: Source, O: Shelf>(
    alloc: Global,
    sources: Vec<S>,
    options: Options,
    limits: Limits,
    shelf: &mut O,
) -> SerialEnd<S>
    requires some { 1 ≤ length sources.items }
    requires few { length sources.items ≤ 16 }
    requires options { AreOptions options }
    requires limits { AreLimits limits }
    // What each answer says of the inputs, and what stands on the shelf with it.
    ensures ends { SerialEnds (asked_for options limits (map (λ s. S.seen s) sources.items) (O.seen shelf.old))
        (gave (map (λ s. S.seen s) result.sources.items) (O.seen shelf.new) result.report) result.outcome }
    // Whatever happens, the sources come back in their order,
    ensures back { ComeBack (map (λ s. S.seen s) sources.items) (map (λ s. S.seen s) result.sources.items) }
    // the earlier files stand, and each one that was made is kept, by its name.
    ensures kept { KeepsMade limits.stem (O.seen shelf.old) (O.seen shelf.new) }
    // Nothing is made where the header or the setup of an input is refused.
    ensures header { (track : ℕ) (source : SourceView) (bytes : List ℕ) → slice_get (map (λ s. S.seen s) sources.items) track ≡ Some source → source.content ≡ Some bytes
        → (said_in track options bytes).setup ≡ None → shelf.new ≡ shelf.old }
    // Where no count of faults rose, the answer is the one that the bytes of the inputs call for, or want of memory.
    ensures called { (inputs : List (List ℕ)) → TellBytes (map (λ s. S.seen s) sources.items) inputs
        → NothingFailed (asked_for options limits (map (λ s. S.seen s) sources.items) (O.seen shelf.old)) (gave (map (λ s. S.seen s) result.sources.items) (O.seen shelf.new) result.report)
        → (result.outcome ≡ SerialOutcome.NoMemory) ⊎ (result.outcome ≡ called_for options limits inputs) }
    ensures later { (O.seen shelf.old).faults ≤ (O.seen shelf.new).faults }
{
    match make_room(alloc, sources.len()) {
        Ok(room) => record_within(alloc, sources, options, limits, room, shelf),
        Err(_) => SerialEnd {
            sources,
            report: Report {
                files: Items::new(alloc),
                tracks: Items::new(alloc),
            },
            outcome: SerialOutcome::NoMemory,
        },
    }
}
