//! What holds of recordings over objects that never fail.

ghost use Rattle.std.specs.Prelude.{◌≡◌, ◌≤◌, ◌⊎◌, ℕ, List, length, map};
ghost use Rattle.sf_record.specs.Called.{RecordsSaid, TellBytes, called_for};
ghost use Rattle.sf_record.specs.Serial.{AreOptions, asked_for, gave};
ghost use Rattle.sf_series.specs.Series.{AreLimits};

use crate::serial::record_serial;
use crate::serial_end::{SerialEnd, SerialOutcome};
use sf_gather::Options;
use sf_series::Limits;
use sf_world::{Shelf, Source, SureShelf, SureSource};
use std::alloc::Global;

/// A law, told by a recording: over sources and a shelf that never fail the answer is the one that the bytes of the inputs
/// call for, or want of memory, and where all is recorded, it is what the inputs say.
pub fn record_surely(
    alloc: Global,
    sources: Vec<SureSource>,
    options: Options,
    limits: Limits,
    shelf: &mut SureShelf,
) -> SerialEnd<SureSource>
    requires some { 1 ≤ length sources.items }
    requires few { length sources.items ≤ 16 }
    requires options { AreOptions options }
    requires limits { AreLimits limits }
    ensures surely { (inputs : List (List ℕ)) → TellBytes (map (λ s. ⟦<SureSource as Source>⟧.seen s) sources.items) inputs
        → (result.outcome ≡ SerialOutcome.NoMemory) ⊎ (result.outcome ≡ called_for options limits inputs) }
    ensures said { (inputs : List (List ℕ)) → TellBytes (map (λ s. ⟦<SureSource as Source>⟧.seen s) sources.items) inputs → result.outcome ≡ SerialOutcome.Done
        → RecordsSaid (asked_for options limits (map (λ s. ⟦<SureSource as Source>⟧.seen s) sources.items) (⟦<SureShelf as Shelf>⟧.seen shelf.old))
        (gave (map (λ s. ⟦<SureSource as Source>⟧.seen s) result.sources.items) (⟦<SureShelf as Shelf>⟧.seen shelf.new) result.report) inputs }
{
    record_serial(alloc, sources, options, limits, shelf)
}
