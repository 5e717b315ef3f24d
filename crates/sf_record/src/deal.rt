//! The chunks of pumps are handed to a series of files and written, the earliest first.

ghost use Rattle.std.specs.Prelude.{◌≡◌, ℕ, ◌+◌, ◌*◌, ◌<◌, ◌≤◌, ◌⊎◌, true, false, List, length, map, Some, None, Ok, Err, IfErr, IfOk, OnErr, OnOk};
ghost use Rattle.sf_tick.specs.declared.types.Chunk.{Chunk};
ghost use Rattle.sf_tick.specs.declared.types.Stored.{Stored};
ghost use Rattle.sf_world.specs.Counts.{Rose};
ghost use Rattle.sf_world.specs.Views.{Unchanged};
ghost use Rattle.sf_record.specs.Input.{read_fault};
ghost use Rattle.sf_record.specs.Pump.{NotEndedEarly, Stands, turns_left};
ghost use Rattle.sf_world.specs.Views.{ShelfView};
ghost use Rattle.sf_interleave.specs.Waiting.{earliest_front, how_many};
ghost use Rattle.sf_series.specs.Core.{State};
ghost use Rattle.sf_series.specs.inner.Writing.{SameSetups};
ghost use Rattle.sf_series.specs.declared.limits.LimitShown.{LimitShown};
ghost use Rattle.sf_record.specs.Serial.{lowest_fault};
ghost use Rattle.sf_record.specs.inner.Deal.{AllOver, AllWait, Deals, DealtTo, Fed, Feeds, GoesOn, NextIs, PumpsOver, TrackBegins, turns_of};
ghost use Rattle.sf_record.specs.inner.InTurn.{InTurn};

use crate::pump::{Pump, Stepped};
use crate::serial_end::{SerialOutcome, answer_at};
use sf_series::{Series, SeriesFault, Wrote};
use sf_tick::Chunk;
use sf_world::{Shelf, Source};
use std::alloc::AllocError;

// The next chunk of a pump. None once its last one was taken.
fn next_chunk<S: Source>(pump: &mut Pump<S>) -> Result<Option<Chunk>, AllocError>
    ensures next { IfOk result (λ next. (accepted : List Stored) (taken : List Chunk) → Stands pump.old.coded.source.content accepted taken pump.old
        → NextIs pump.old.coded.source.content taken pump.new next) }
    ensures stopped { OnErr result ((accepted : List Stored) (taken : List Chunk) → Stands pump.old.coded.source.content accepted taken pump.old
        → GoesOn pump.old.coded.source.content taken pump.new) }
    ensures fewer { (chunk : Chunk) → result ≡ Ok (Some chunk) → turns_left pump.old.coded.source.size pump.new < turns_left pump.old.coded.source.size pump.old }
    ensures no_more { result ≡ Ok None → turns_left pump.old.coded.source.size pump.new ≤ turns_left pump.old.coded.source.size pump.old }
    ensures live { NotEndedEarly pump.old → NotEndedEarly pump.new }
    ensures failed { pump.new.fault ≡ Some read_fault → (pump.old.fault ≡ Some read_fault) ⊎ Rose pump.old.coded.source.faults pump.new.coded.source.faults }
    ensures given { pump.new.given ≡ pump.old.given }
    ensures source { Unchanged pump.old.coded.source pump.new.coded.source }
{
    loop {
        match pump.step() {
            Stepped::Moved => {}
            Stepped::HasChunk => return Ok(pump.take_chunk()),
            Stepped::Done => return Ok(None),
            Stepped::NoMemory => return Err(AllocError),
        }
    }
}

// Hands the next chunk of a pump to a series, if there is one.
fn fill<S: Source, O: Shelf>(pump: &mut Pump<S>, series: &mut Series<O>) -> Result<(), AllocError>
    requires goes_on { series.old.fault ≡ None }
    requires feeds { (begun shelf : ShelfView) × (state : State) × (number : ℕ) × Feeds begun shelf state number pump.old series.old }
    ensures done { OnOk result ((begun shelf : ShelfView) (state : State) (number : ℕ) → Feeds begun shelf state number pump.old series.old
        → (after : State) × Fed begun shelf state after number pump.new series.new) }
    ensures stopped { OnErr result (series.new ≡ series.old) }
    ensures lost { OnErr result ((begun shelf : ShelfView) (state : State) (number : ℕ) → Feeds begun shelf state number pump.old series.old
        → TrackBegins series.new.files.setups state number pump.new) }
    ensures goes { series.new.fault ≡ None }
    ensures files { series.new.files ≡ series.old.files }
    ensures fewer { OnOk result (2 * turns_left pump.old.coded.source.size pump.new + how_many series.new.pending ≤ 2 * turns_left pump.old.coded.source.size pump.old + how_many series.old.pending) }
    ensures live { NotEndedEarly pump.old → NotEndedEarly pump.new }
    ensures failed { pump.new.fault ≡ Some read_fault → (pump.old.fault ≡ Some read_fault) ⊎ Rose pump.old.coded.source.faults pump.new.coded.source.faults }
    ensures given { pump.new.given ≡ pump.old.given }
    ensures source { Unchanged pump.old.coded.source pump.new.coded.source }
{
    match next_chunk(pump)? {
        Some(chunk) => match series.hand(chunk) {
            Ok(()) => Ok(()),
            Err(_chunk) => Err(AllocError),
        },
        None => Ok(()),
    }
}

// Hands the first chunk of each pump to a series.
fn fill_all<S: Source, O: Shelf>(
    pumps: &mut Vec<Pump<S>>,
    series: &mut Series<O>,
) -> Result<(), AllocError>
    requires goes_on { series.old.fault ≡ None }
    requires deals { (begun shelf : ShelfView) × (state : State) × Deals begun state pumps.old.items series.old shelf }
    ensures done { OnOk result ((begun shelf : ShelfView) (state : State) → Deals begun state pumps.old.items series.old shelf
        → (after : State) × Deals begun after pumps.new.items series.new shelf × AllWait (length pumps.new.items) after pumps.new.items × (InTurn state → InTurn after)) }
    ensures stopped { OnErr result ((begun shelf : ShelfView) (state : State) → Deals begun state pumps.old.items series.old shelf
        → DealtTo begun (InTurn state) pumps.new.items series.new shelf) }
    ensures goes { series.new.fault ≡ None }
    ensures files { series.new.files ≡ series.old.files }
    ensures over { PumpsOver pumps.old.items pumps.new.items }
{
    for number in 0..pumps.len() {
        fill(&mut pumps[number], series)?;
    }
    Ok(())
}

// Writes the earliest chunk, and hands the next one of its track. It tells whether there was one.
fn write_next<S: Source, O: Shelf>(
    pumps: &mut Vec<Pump<S>>,
    series: &mut Series<O>,
    shelf: &mut O,
) -> Result<bool, SeriesFault>
    requires goes_on { series.old.fault ≡ None }
    requires deals { (begun : ShelfView) × (state : State) × Deals begun state pumps.old.items series.old (O.seen shelf.old) }
    ensures more { result ≡ Ok true → (begun : ShelfView) (state : State) → Deals begun state pumps.old.items series.old (O.seen shelf.old) → AllWait (length pumps.old.items) state pumps.old.items
        → (after : State) × Deals begun after pumps.new.items series.new (O.seen shelf.new) × AllWait (length pumps.new.items) after pumps.new.items × (InTurn state → InTurn after) }
    ensures done { result ≡ Ok false → (pumps.new ≡ pumps.old) × (series.new ≡ series.old) × (shelf.new ≡ shelf.old) × (earliest_front series.old.pending ≡ None) }
    ensures limit { (shown : LimitShown) → result ≡ Err (SeriesFault.Limit shown) → (begun : ShelfView) (state : State) → Deals begun state pumps.old.items series.old (O.seen shelf.old) → AllWait (length pumps.old.items) state pumps.old.items
        → (after : State) × Deals begun after pumps.new.items series.new (O.seen shelf.new) × AllWait (length pumps.new.items) after pumps.new.items × (InTurn state → InTurn after) }
    ensures stands { (begun : ShelfView) (state : State) → Deals begun state pumps.old.items series.old (O.seen shelf.old) → DealtTo begun (AllWait (length pumps.old.items) state pumps.old.items × InTurn state) pumps.new.items series.new (O.seen shelf.new) }
    ensures goes { OnOk result (series.new.fault ≡ None) }
    ensures ended { IfErr result (λ fault. (series.new.fault ≡ Some fault) ⊎ ((series.new.fault ≡ None) × (fault ≡ SeriesFault.NoMemory))) }
    ensures same { SameSetups series.old.files series.new.files }
    ensures over { PumpsOver pumps.old.items pumps.new.items }
    ensures fewer { result ≡ Ok true → turns_of pumps.new.items + how_many series.new.pending < turns_of pumps.old.items + how_many series.old.pending }
    ensures write { result ≡ Err SeriesFault.WriteFault → Rose (O.seen shelf.old).faults (O.seen shelf.new).faults }
    ensures later { (O.seen shelf.old).faults ≤ (O.seen shelf.new).faults }
{
    match series.write_one(shelf)? {
        Wrote::OneChunk(track) => {
            fill(&mut pumps[track as usize], series)?;
            Ok(true)
        }
        Wrote::Idle => Ok(false),
    }
}

/// Hands the chunks of pumps to a series and writes them, the earliest first, up to the end of all inputs. At most one
/// chunk of each track waits.
pub(crate) fn deal<S: Source, O: Shelf>(
    pumps: &mut Vec<Pump<S>>,
    series: &mut Series<O>,
    shelf: &mut O,
) -> Result<(), SeriesFault>
    requires goes_on { series.old.fault ≡ None }
    requires deals { (begun : ShelfView) × (state : State) × Deals begun state pumps.old.items series.old (O.seen shelf.old) }
    ensures done { OnOk result ((begun : ShelfView) (state : State) → Deals begun state pumps.old.items series.old (O.seen shelf.old)
        → (after : State) × Deals begun after pumps.new.items series.new (O.seen shelf.new) × AllOver pumps.new.items × (earliest_front after.pending ≡ None) × (InTurn state → InTurn after)) }
    ensures limit { (shown : LimitShown) → result ≡ Err (SeriesFault.Limit shown) → (begun : ShelfView) (state : State) → Deals begun state pumps.old.items series.old (O.seen shelf.old)
        → (after : State) × Deals begun after pumps.new.items series.new (O.seen shelf.new) × AllWait (length pumps.new.items) after pumps.new.items × (InTurn state → InTurn after) }
    ensures stands { (begun : ShelfView) (state : State) → Deals begun state pumps.old.items series.old (O.seen shelf.old) → DealtTo begun (InTurn state) pumps.new.items series.new (O.seen shelf.new) }
    ensures goes { OnOk result (series.new.fault ≡ None) }
    ensures ended { IfErr result (λ fault. (series.new.fault ≡ Some fault) ⊎ ((series.new.fault ≡ None) × (fault ≡ SeriesFault.NoMemory))) }
    ensures same { SameSetups series.old.files series.new.files }
    ensures over { PumpsOver pumps.old.items pumps.new.items }
    ensures write { result ≡ Err SeriesFault.WriteFault → Rose (O.seen shelf.old).faults (O.seen shelf.new).faults }
    ensures later { (O.seen shelf.old).faults ≤ (O.seen shelf.new).faults }
{
    fill_all(pumps, series)?;
    while write_next(pumps, series, shelf)? {}
    Ok(())
}

/// The answer for the lowest of the tracks with a fault, numbered from here on.
pub(crate) fn lowest_fault<S: Source>(number: u32, pumps: &[Pump<S>]) -> SerialOutcome
    requires { number + length pumps.now ≤ 16 }
    ensures { result ≡ lowest_fault number (map (λ p. p.fault) pumps.now) }
{
    let [pump, others @ ..] = pumps else {
        return SerialOutcome::Done;
    };
    match pump.fault() {
        Some(fault) => answer_at(number, *fault),
        None => lowest_fault(number + 1, others),
    }
}
