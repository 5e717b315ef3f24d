//! The headers of several inputs are read, up to the first one that isn't taken.

ghost use Rattle.std.specs.Prelude.{◌≡◌, ◌≢◌, ◌+◌, ◌<◌, ◌≤◌, ◌⊎◌, ◌++◌, ◌∷◌, List, false, [], length, map, vec_capacity, vec_len, IfErr, IfOk, None, Ok};
ghost use Rattle.sf_coded.specs.Progress.{HasRead};
ghost use Rattle.sf_entry.specs.TrackSetup.{made};
ghost use Rattle.sf_file.specs.Holdable.{IsReadable};
ghost use Rattle.sf_world.specs.Views.{SourceView, Unchanged};
ghost use Rattle.sf_record.specs.Input.{IsOfBytes, coded_fault, setup_fault};
ghost use Rattle.sf_record.specs.inner.Headers.{HeadersRead, IsOpened, IsUntaken};
ghost use Rattle.sf_record.specs.declared.faults.TrackFault.{TrackFault};

use crate::faults::{TrackFault, coded_fault, setup_fault};
use crate::pump::Pump;
use sf_coded::{Coded, CodedFault};
use sf_entry::{SetupFault, TrackSetup, make_entry};
use sf_gather::Options;
use sf_layout::made_entries_are_read_back;
use sf_tick::Setup;
use sf_world::Source;
use std::alloc::{AllocError, Global};

/// Why the header of an input isn't taken.
#[derive(Drop)]
pub(crate) enum Untaken {
    /// It is refused, or its source failed.
    Fault(TrackFault),
    NoMemory,
}

// Why no header is read.
fn unread(fault: CodedFault) -> Untaken
    ensures told { (told : TrackFault) → result ≡ Untaken.Fault told → (told ≡ coded_fault fault) × ((fault ≡ CodedFault.ReadFault) ⊎ IsOfBytes told.why) }
{
    match fault {
        CodedFault::NoMemory => Untaken::NoMemory,
        fault => Untaken::Fault(coded_fault(fault)),
    }
}

// Why no track is made of a setup.
fn unmade(fault: SetupFault) -> Untaken
    ensures told { (told : TrackFault) → result ≡ Untaken.Fault told → (told ≡ setup_fault fault) × (fault ≢ SetupFault.NoMemory) }
{
    match fault {
        SetupFault::NoMemory => Untaken::NoMemory,
        fault => Untaken::Fault(setup_fault(fault)),
    }
}

// The pump of an input, and the setup of its track.
#[derive(Drop)]
struct Opened<S: Source> {
    pump: Pump<S>,
    setup: TrackSetup,
}

// A file can hold a track that is made of a setup.
fn track_is_readable(setup: &Setup, track: &TrackSetup)
    requires config { length setup.now.config ≤ 65536 }
    requires made { made setup.now ≡ Ok track.now }
    requires scale { 1 ≤ track.now.scale }
    ensures { IsReadable track.now }
{
    made_entries_are_read_back();
    // Ticks a second are a number of four bytes.
    let _ticks = track.scale;
}

// The pump of a coded file of which no sample was read, unless no track is made of its setup.
fn pump_of<S: Source>(
    alloc: Global,
    number: u32,
    options: Options,
    coded: Coded<S>,
) -> Result<Opened<S>, (S, Untaken)>
    requires unread { HasRead [] coded }
    requires fresh { coded.is_over ≡ false }
    ensures opened { IfOk result (λ o. IsOpened number options coded.source o.setup o.pump) }
    ensures untaken { IfErr result (λ e. IsUntaken number options coded.source (S.seen e.0) e.1) }
    ensures back { IfErr result (λ e. S.seen e.0 ≡ coded.source) }
{
    match make_entry(alloc, coded.setup()) {
        Ok(setup) => {
            track_is_readable(coded.setup(), &setup);
            let pump = Pump::new(alloc, number, coded, &setup, options);
            Ok(Opened { pump, setup })
        }
        Err(fault) => Err((coded.give_source(), unmade(fault))),
    }
}

// Reads the header of the input of a track. Where it isn't taken the source comes back.
fn open<S: Source>(
    alloc: Global,
    number: u32,
    options: Options,
    source: S,
) -> Result<Opened<S>, (S, Untaken)>
    ensures opened { IfOk result (λ o. IsOpened number options (S.seen source) o.setup o.pump) }
    ensures untaken { IfErr result (λ e. IsUntaken number options (S.seen source) (S.seen e.0) e.1) }
    ensures back { IfErr result (λ e. Unchanged (S.seen source) (S.seen e.0)) }
{
    match Coded::begin(alloc, source) {
        Ok(coded) => pump_of(alloc, number, options, coded),
        Err((source, fault)) => Err((source, unread(fault))),
    }
}

/// Inputs whose headers are read in their order. Those from the first one on that isn't taken are left unread.
#[derive(Drop)]
pub(crate) struct Opening<S: Source> {
    /// The pumps and the setups of the tracks so far.
    pub pumps: Vec<Pump<S>>,
    pub setups: Vec<TrackSetup>,
    /// The source whose header isn't taken, and those after it.
    pub rest: Vec<S>,
    /// Why it isn't.
    pub untaken: Option<Untaken>,
}

impl<S: Source> Opening<S> {
    /// Room for so many inputs.
    pub fn new(alloc: Global, inputs: usize) -> Result<Opening<S>, AllocError>
        ensures none { IfOk result (λ o. (o.pumps.items ≡ []) × (o.setups.items ≡ []) × (o.rest.items ≡ []) × (o.untaken ≡ None)) }
        ensures pumps { IfOk result (λ o. vec_len o.pumps + inputs ≤ vec_capacity o.pumps) }
        ensures setups { IfOk result (λ o. vec_len o.setups + inputs ≤ vec_capacity o.setups) }
        ensures rest { IfOk result (λ o. vec_len o.rest + inputs ≤ vec_capacity o.rest) }
    {
        Ok(Opening {
            pumps: Vec::with_capacity(alloc, inputs)?,
            setups: Vec::with_capacity(alloc, inputs)?,
            rest: Vec::with_capacity(alloc, inputs)?,
            untaken: None,
        })
    }

    // Takes the next input. There is room for it.
    fn add(&mut self, alloc: Global, options: Options, source: S)
        requires few { length self.old.pumps.items < 16 }
        requires pumps { vec_len self.old.pumps < vec_capacity self.old.pumps }
        requires setups { vec_len self.old.setups < vec_capacity self.old.setups }
        requires rest { vec_len self.old.rest < vec_capacity self.old.rest }
        ensures read { (before : List SourceView) → HeadersRead options before self.old.setups.items self.old.pumps.items (map (λ s. S.seen s) self.old.rest.items) self.old.untaken
            → HeadersRead options (before ++ S.seen source ∷ []) self.new.setups.items self.new.pumps.items (map (λ s. S.seen s) self.new.rest.items) self.new.untaken }
        ensures count { length self.new.pumps.items ≤ length self.old.pumps.items + 1 }
        ensures pumps { (vec_len self.new.pumps ≤ vec_len self.old.pumps + 1) × (vec_capacity self.new.pumps ≡ vec_capacity self.old.pumps) }
        ensures setups { (vec_len self.new.setups ≤ vec_len self.old.setups + 1) × (vec_capacity self.new.setups ≡ vec_capacity self.old.setups) }
        ensures rest { (vec_len self.new.rest ≤ vec_len self.old.rest + 1) × (vec_capacity self.new.rest ≡ vec_capacity self.old.rest) }
    {
        if self.untaken.is_some() {
            self.rest.push_reserved(source);
            return;
        }
        match open(alloc, self.pumps.len() as u32, options, source) {
            Ok(opened) => {
                self.pumps.push_reserved(opened.pump);
                self.setups.push_reserved(opened.setup);
            }
            Err((source, untaken)) => {
                self.rest.push_reserved(source);
                self.untaken = Some(untaken);
            }
        }
    }

    /// Takes inputs, for which there is room, in their order.
    pub fn add_all(&mut self, alloc: Global, options: Options, sources: Vec<S>)
        requires few { length self.old.pumps.items + length sources.items ≤ 16 }
        requires pumps { vec_len self.old.pumps + length sources.items ≤ vec_capacity self.old.pumps }
        requires setups { vec_len self.old.setups + length sources.items ≤ vec_capacity self.old.setups }
        requires rest { vec_len self.old.rest + length sources.items ≤ vec_capacity self.old.rest }
        ensures read { (before : List SourceView) → HeadersRead options before self.old.setups.items self.old.pumps.items (map (λ s. S.seen s) self.old.rest.items) self.old.untaken
            → HeadersRead options (before ++ map (λ s. S.seen s) sources.items) self.new.setups.items self.new.pumps.items (map (λ s. S.seen s) self.new.rest.items) self.new.untaken }
        ensures first { (self.old.pumps.items ≡ []) × (self.old.setups.items ≡ []) × (self.old.rest.items ≡ []) × (self.old.untaken ≡ None)
            → HeadersRead options (map (λ s. S.seen s) sources.items) self.new.setups.items self.new.pumps.items (map (λ s. S.seen s) self.new.rest.items) self.new.untaken }
    {
        for source in sources {
            self.add(alloc, options, source);
        }
    }
}
