//! The pump of one track: its input is read sample by sample, and handed out as chunks.

ghost use Rattle.std.specs.Prelude.{◌≡◌, ◌↔◌, ◌*◌, ◌≤◌, ◌<◌, ◌++◌, List, [], Option, None, Some, false, IfSome, IsSome, ◌⊎◌};
ghost use Rattle.std.specs.Option.{option_to_list, option_copied};
ghost use Rattle.sf_tick.specs.declared.types.Chunk.{Chunk};
ghost use Rattle.sf_tick.specs.declared.types.Stored.{Stored};
ghost use Rattle.sf_coded.specs.Progress.{HasRead};
ghost use Rattle.sf_gather.specs.Chunks.{chunks, closed, marked};
ghost use Rattle.sf_gather.specs.Gathered.{Stands as GatherStands};
ghost use Rattle.sf_gather.specs.Proper.{Proper};
ghost use Rattle.sf_world.specs.Counts.{Rose};
ghost use Rattle.sf_world.specs.Views.{Unchanged};
ghost use Rattle.sf_record.specs.Input.{given_of, read_fault};
ghost use Rattle.sf_record.specs.Pump.{NotEndedEarly, Stands, StepsTo, left, rest_of, turns_left};

use crate::advance::{Advance, go_on};
use crate::faults::TrackFault;
use sf_coded::{Coded, CodedSample};
use sf_entry::TrackSetup;
use sf_gather::{Gather, Given, Options, closed_chunks_stay};
use sf_tick::Chunk;
use sf_world::Source;
use std::alloc::Global;
use std::marker::Model;

/// How a pump stands after a step.
#[derive(Clone, Copy, Debug, PartialEq, Eq)]
pub enum Stepped {
    /// One sample was accepted, and no chunk is held now.
    Moved,
    /// The pump holds a chunk now, which is to be taken before the next step does anything.
    HasChunk,
    /// The last chunk was taken.
    Done,
    /// There is no memory. Nothing is lost, and the step can be tried again.
    NoMemory,
}

/// The coded sample file of one track, on its way into chunks.
#[derive(Drop)]
pub struct Pump<S: Source> {
    given: Given,
    coded: Coded<S>,
    /// A sample that was read and for which there was no memory.
    held: Option<CodedSample>,
    /// None once the last chunk was made.
    gather: Option<Gather>,
    chunk: Option<Chunk>,
    fault: Option<TrackFault>,
}

impl<S: Source> Model for Pump<S> {
    ghost use Rattle.sf_record.specs.Pump.{Pumping, Sound};

    ghost Value = { Pumping };

    ghost view = { λ p. record { given = p.given; coded = p.coded; held_back = p.held; gatherer = p.gather; chunk = p.chunk; fault = p.fault } };

    ghost invariant = { λ p. Sound p.given p.coded.place p.held p.gather };
}

impl<S: Source> Pump<S> {
    /// A pump for a coded file of which no sample was read, as the track of this number with the
    /// setup that is made of the file's.
    pub fn new(
        alloc: Global,
        track: u32,
        coded: Coded<S>,
        setup: &TrackSetup,
        options: Options,
    ) -> Pump<S>
        requires unread { HasRead [] coded }
        requires fresh { coded.is_over ≡ false }
        requires scale { 1 ≤ setup.now.scale }
        ensures given { result.given ≡ given_of track setup.now options }
        ensures coded { result.coded ≡ coded }
        ensures gatherer { IsSome result.gatherer }
        ensures chunk { result.chunk ≡ None }
        ensures fault { result.fault ≡ None }
        ensures stands { Stands coded.source.content [] [] result }
    {
        let given = Given {
            track,
            kind: setup.kind,
            scale: setup.scale,
            options,
        };
        Pump {
            given,
            coded,
            held: None,
            gather: Some(Gather::new(alloc, track, setup.kind, setup.scale, options)),
            chunk: None,
            fault: None,
        }
    }

    /// Accepts the next sample of the input, unless a chunk is held. At the end of the input, and at
    /// its first fault, which is kept, the last chunk is made, and held.
    pub fn step(&mut self) -> Stepped
        ensures rest { IfSome (rest_of self.old) (λ answer. (result ≡ answer) × (self.new ≡ self.old)) }
        ensures moved { result ≡ Stepped.Moved → (self.new.chunk ≡ None) × IsSome self.new.gatherer }
        ensures held { (result ≡ Stepped.HasChunk) ↔ IsSome self.new.chunk }
        ensures over { (result ≡ Stepped.Done) ↔ ((self.new.chunk ≡ None) × (self.new.gatherer ≡ None)) }
        ensures stands { (accepted : List Stored) (taken : List Chunk) → Stands self.old.coded.source.content accepted taken self.old
            → StepsTo self.new.coded.source.content accepted taken self.new result }
        ensures no_memory { result ≡ Stepped.NoMemory → (self.new.gatherer ≡ self.old.gatherer) × (self.new.chunk ≡ None) × (self.new.fault ≡ self.old.fault) }
        ensures not_early { NotEndedEarly self.old → NotEndedEarly self.new }
        ensures less_moved { result ≡ Stepped.Moved → left self.old.coded.source.size self.new < left self.old.coded.source.size self.old }
        ensures less_held { result ≡ Stepped.HasChunk → 2 * left self.old.coded.source.size self.new < turns_left self.old.coded.source.size self.old }
        ensures failed { self.old.fault ≡ None → self.new.fault ≡ Some read_fault
            → Rose self.old.coded.source.faults self.new.coded.source.faults }
        ensures stays { result ≡ Stepped.Done → self.new ≡ self.old }
        ensures source_failed { self.new.fault ≡ Some read_fault → (self.old.fault ≡ Some read_fault) ⊎ Rose self.old.coded.source.faults self.new.coded.source.faults }
        ensures given { self.new.given ≡ self.old.given }
        ensures setup { self.new.coded.setup ≡ self.old.coded.setup }
        ensures source { Unchanged self.old.coded.source self.new.coded.source }
    {
        if self.chunk.is_some() {
            return Stepped::HasChunk;
        }
        let Some(gather) = &mut self.gather else {
            return Stepped::Done;
        };
        match go_on(gather, &mut self.held, &mut self.coded) {
            Advance::Accepted(None) => Stepped::Moved,
            Advance::Accepted(Some(closed)) => {
                self.chunk = Some(closed);
                Stepped::HasChunk
            }
            Advance::Ended(fault) => {
                self.make_last(fault);
                Stepped::HasChunk
            }
            Advance::NoMemory => Stepped::NoMemory,
        }
    }

    // Makes the last chunk of the samples so far, and keeps why the input isn't whole.
    fn make_last(&mut self, fault: Option<TrackFault>)
        ensures coded { self.new.coded ≡ self.old.coded }
        ensures over { self.old.gatherer ≡ None → self.new ≡ self.old }
        ensures made { IfSome self.old.gatherer (λ g. self.new
            ≡ record { given = self.old.given; coded = self.old.coded; held_back = None; gatherer = None; chunk = Some (marked g.chunk); fault = fault }) }
        ensures chunks { IfSome self.old.gatherer (λ g. (samples : List Stored) → GatherStands samples g
            → chunks self.old.given samples ≡ closed self.old.given samples ++ option_to_list self.new.chunk) }
        ensures proper { IfSome self.old.gatherer (λ g. (samples : List Stored) → GatherStands samples g
            → Proper self.old.given.track self.old.given.scale (chunks self.old.given samples)) }
    {
        if let Some(gather) = self.gather.take() {
            self.chunk = Some(gather.end());
            self.held = None;
            self.fault = fault;
        }
    }

    /// The chunk that the pump holds, if any.
    pub fn take_chunk(&mut self) -> Option<Chunk>
        ensures exact { result ≡ self.old.chunk }
        ensures rest { self.new ≡ record self.old { chunk = None } }
        ensures stands { (accepted : List Stored) (taken : List Chunk) → Stands self.old.coded.source.content accepted taken self.old
            → Stands self.new.coded.source.content accepted (taken ++ option_to_list result) self.new }
        ensures proper { (accepted : List Stored) (taken : List Chunk) → Stands self.old.coded.source.content accepted taken self.old
            → Proper self.new.given.track self.new.given.scale (taken ++ option_to_list result) }
        ensures stays { (accepted : List Stored) (taken : List Chunk) → Stands self.old.coded.source.content accepted taken self.old
            → IsSome self.old.gatherer → (more : List Stored)
            → (rest : List Chunk) × (chunks self.old.given (accepted ++ more) ≡ (taken ++ option_to_list result) ++ rest) }
    {
        // More samples don't change what was handed out.
        closed_chunks_stay(self.given);
        self.chunk.take()
    }

    /// Makes the last chunk of the samples so far, and keeps no fault. Where the last chunk was made
    /// already it does nothing.
    pub fn end_early(&mut self)
        requires { IsSome self.old.gatherer → self.old.chunk ≡ None }
        ensures over { self.old.gatherer ≡ None → self.new ≡ self.old }
        ensures made { IfSome self.old.gatherer (λ g. self.new
            ≡ record { given = self.old.given; coded = self.old.coded; held_back = None; gatherer = None; chunk = Some (marked g.chunk); fault = None }) }
        ensures stands { (accepted : List Stored) (taken : List Chunk) → Stands self.old.coded.source.content accepted taken self.old
            → Stands self.new.coded.source.content accepted taken self.new }
    {
        self.make_last(None);
    }

    /// Why the input isn't whole. A failed read is kept as a fault of the coded file, at place 0.
    pub fn fault(&self) -> Option<&TrackFault>
        ensures { option_copied result ≡ self.now.fault }
    {
        self.fault.as_ref()
    }

    /// The source alone.
    pub fn give_source(self) -> S
        ensures { S.seen result ≡ self.coded.source }
    {
        self.coded.give_source()
    }
}
