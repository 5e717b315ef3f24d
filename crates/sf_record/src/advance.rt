//! One step along an input: its next sample is put into the gatherer of its track.

ghost use Rattle.std.specs.Prelude.{◌≡◌, ◌≤◌, ◌<◌, ◌+◌, ◌-◌, ◌*◌, ◌^◌, ℕ, List, Option, None, Some, true, false, length};
ghost use Rattle.sf_tick.specs.declared.types.Stored.{Stored};
ghost use Rattle.sf_gather.specs.declared.given.Given.{Given};
ghost use Rattle.sf_gather.specs.Gathered.{Stands as GatherStands};
ghost use Rattle.sf_world.specs.Counts.{Rose};
ghost use Rattle.sf_world.specs.Views.{Unchanged};
ghost use Rattle.sf_record.specs.Input.{read_fault};
ghost use Rattle.sf_record.specs.Reading.{Fits, Reads, TurnReads, TurnFits, TurnGoes, weight, turn_weight};
ghost use Rattle.sf_record.specs.inner.Advance.{AdvancesTo, PutIn, AdvanceGoes, advance_weight};

use crate::faults::{TrackFault, coded_fault, sample_fault};
use sf_coded::{Coded, CodedFault, CodedSample};
use sf_gather::{Gather, SampleFault};
use sf_tick::Chunk;
use sf_world::Source;

/// What comes next of an input.
pub(crate) enum Turn {
    Next(CodedSample),
    /// Its end, and the fault there if it isn't whole.
    End(Option<TrackFault>),
    NoMemory,
}

/// What one step made of an input.
pub(crate) enum Advance {
    /// A sample was accepted, which may have closed a chunk.
    Accepted(Option<Chunk>),
    /// Nothing more is taken, and why if the input isn't whole.
    Ended(Option<TrackFault>),
    NoMemory,
}

// What comes next: the sample that was held back, else the next one of the file.
fn next_turn<S: Source>(held: &mut Option<CodedSample>, coded: &mut Coded<S>) -> Turn
    ensures held { held.new ≡ None }
    ensures reads { (given : Given) (accepted : List Stored)
        → Reads coded.old.source.content given accepted coded.old.setup coded.old.place held.old
        → TurnReads coded.new.source.content given accepted coded.new.setup coded.new.place result }
    ensures fits { (number : ℕ) → Fits number coded.old.place held.old → TurnFits number coded.new.place result }
    ensures goes { coded.old.is_over ≡ false → TurnGoes coded.new.is_over result }
    ensures over { result ≡ Turn.End None → coded.new.is_over ≡ true }
    ensures nearer { turn_weight coded.old.source.size coded.new.place result ≤ weight coded.old.source.size coded.old.place held.old }
    ensures failed { result ≡ Turn.End (Some read_fault) → Rose coded.old.source.faults coded.new.source.faults }
    ensures setup { coded.new.setup ≡ coded.old.setup }
    ensures source { Unchanged coded.old.source coded.new.source }
{
    if let Some(found) = held.take() {
        return Turn::Next(found);
    }
    match coded.next() {
        Ok(Some(found)) => Turn::Next(found),
        Ok(None) => Turn::End(None),
        Err(CodedFault::NoMemory) => Turn::NoMemory,
        Err(fault) => Turn::End(Some(coded_fault(fault))),
    }
}

// Puts a sample into the gatherer. Without memory it is held back.
fn put(gather: &mut Gather, held: &mut Option<CodedSample>, found: CodedSample) -> Advance
    requires some { 1 ≤ length found.sample.bytes }
    requires size { length found.sample.bytes ≤ 16777216 }
    requires number { gather.old.chunk.number < 2 ^ 64 - 1 }
    requires held { held.old ≡ None }
    ensures { PutIn gather.old found gather.new held.new result }
{
    let CodedSample { at, sample } = found;
    match gather.accept(sample) {
        Ok(closed) => Advance::Accepted(closed),
        Err((sample, SampleFault::NoMemory)) => {
            *held = Some(CodedSample { at, sample });
            Advance::NoMemory
        }
        Err((_, fault)) => Advance::Ended(Some(sample_fault(at, fault))),
    }
}

/// One step along the input: a sample is accepted, or nothing more is taken.
pub(crate) fn go_on<S: Source>(
    gather: &mut Gather,
    held: &mut Option<CodedSample>,
    coded: &mut Coded<S>,
) -> Advance
    requires { Fits gather.old.chunk.number coded.old.place held.old }
    ensures goes { (accepted : List Stored) → GatherStands accepted gather.old
        → Reads coded.old.source.content gather.old.given accepted coded.old.setup coded.old.place held.old
        → AdvancesTo coded.new.source.content gather.old.given accepted gather.new coded.new.setup coded.new.place held.new result }
    ensures given { gather.new.given ≡ gather.old.given }
    ensures unchanged { result ≡ Advance.NoMemory → gather.new ≡ gather.old }
    ensures fits { Fits gather.new.chunk.number coded.new.place held.new }
    ensures on { coded.old.is_over ≡ false → AdvanceGoes coded.new.is_over result }
    ensures over { result ≡ Advance.Ended None → coded.new.is_over ≡ true }
    ensures nearer { advance_weight coded.old.source.size coded.new.place held.new result ≤ weight coded.old.source.size coded.old.place held.old }
    ensures failed { result ≡ Advance.Ended (Some read_fault) → Rose coded.old.source.faults coded.new.source.faults }
    ensures setup { coded.new.setup ≡ coded.old.setup }
    ensures source { Unchanged coded.old.source coded.new.source }
{
    match next_turn(held, coded) {
        Turn::Next(found) => put(gather, held, found),
        Turn::End(fault) => Advance::Ended(fault),
        Turn::NoMemory => Advance::NoMemory,
    }
}
