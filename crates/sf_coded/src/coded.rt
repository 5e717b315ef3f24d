ghost use Rattle.std.specs.Prelude.{◌≡◌, ℕ, ◌+◌, ◌≤◌, false, true, is_none, length, IfSome, List, [], Ok, None, OnErr, IfOk, IfErr, MatchResult};
ghost use Rattle.sf_world.specs.Counts.{Rose};
ghost use Rattle.sf_world.specs.Views.{Unchanged};
ghost use Rattle.sf_coded.specs.declared.types.CodedFault.TheVariants.{ReadFault};
ghost use Rattle.sf_coded.specs.declared.types.CodedSample.{CodedSample};
ghost use Rattle.sf_coded.specs.Progress.{Follows, HasRead, Moves, NextTold, ReadOn, RefusesBy, SampleAt};

use crate::blocks::Blocks;
use crate::fields::Turn;
use crate::reading::{bytes_at, read_setup, turn_at};
use crate::types::{CodedFault, CodedSample};
use sf_tick::{Sample, Setup};
use sf_world::Source;
use std::alloc::Global;
use std::marker::Model;

/// A coded sample file that is read from its source, one sample after the other.
#[derive(Drop)]
pub struct Coded<S: Source> {
    alloc: Global,
    blocks: Blocks<S>,
    setup: Setup,
    place: u64,
    is_over: bool,
}

impl<S: Source> Model for Coded<S> {
    ghost use Rattle.std.specs.Prelude.{◌≡◌, ◌≤◌, true, length};
    ghost use Rattle.sf_coded.specs.Progress.{Progress, OverAt};

    ghost Value = { Progress };

    ghost view = { λ c. record { setup = c.setup; place = c.place; is_over = c.is_over; source = c.blocks } };

    ghost invariant = { λ c. (length c.setup.config ≤ 65536) × (c.place ≤ c.blocks.size) × (c.is_over ≡ true → OverAt c.blocks.content c.place) };
}

impl<S: Source> Coded<S> {
    /// Reads the header. After a refusal the source comes back.
    pub fn begin(alloc: Global, source: S) -> Result<Coded<S>, (S, CodedFault)>
        ensures read { IfOk result (λ v. HasRead [] v) }
        ensures refusal { IfErr result (λ e. RefusesBy (S.seen source).content e.1) }
        ensures place { IfOk result (λ v. v.place ≡ 22 + length v.setup.config) }
        ensures bound { IfOk result (λ v. length v.setup.config ≤ 65536) }
        ensures within { IfOk result (λ v. v.place ≤ v.source.size) }
        ensures fresh { IfOk result (λ v. v.is_over ≡ false) }
        ensures source { MatchResult result (λ v. Unchanged (S.seen source) v.source) (λ e. Unchanged (S.seen source) (S.seen e.0)) }
        ensures cause { IfErr result (λ e. e.1 ≡ ReadFault → Rose (S.seen source).faults (S.seen e.0).faults) }
    {
        let mut blocks = match Blocks::new(alloc, source) {
            Ok(opened) => opened,
            Err(source) => return Err((source, CodedFault::NoMemory)),
        };
        match read_setup(&mut blocks, alloc) {
            Ok(setup) => {
                let place = 22 + setup.config.len() as u64;
                Ok(Coded {
                    alloc,
                    blocks,
                    setup,
                    place,
                    is_over: false,
                })
            }
            Err(fault) => Err((blocks.give_source(), fault)),
        }
    }

    /// What the file says of its samples.
    pub fn setup(&self) -> &Setup
        ensures setup { result.now ≡ self.now.setup }
        ensures bound { length self.now.setup.config ≤ 65536 }
    {
        &self.setup
    }

    /// The next sample, or none where the end of the file was reached: at the tag 0 with nothing after it.
    /// After a fault the same record is read again.
    pub fn next(&mut self) -> Result<Option<CodedSample>, CodedFault>
        ensures told { NextTold self.old.source.content self.old.place result }
        ensures read { (samples : List CodedSample) → HasRead samples self.old
            → Follows self.new.source.content self.new.setup samples self.new.place result }
        ensures moves { Moves self.old.place self.old.source.size self.new.place result }
        ensures over { IfOk result (λ found. self.new.is_over ≡ is_none found) }
        ensures kept { OnErr result (self.new.is_over ≡ self.old.is_over) }
        ensures again { self.old.is_over ≡ true → (result ≡ Ok None) × (self.new ≡ self.old) }
        ensures setup { self.new.setup ≡ self.old.setup }
        ensures source { ReadOn self.old.source self.new.source result }
    {
        self.go_on()
    }

    // One step along the records.
    fn go_on(&mut self) -> Result<Option<CodedSample>, CodedFault>
        ensures told { NextTold self.old.source.content self.old.place result }
        ensures moves { Moves self.old.place self.old.source.size self.new.place result }
        ensures over { IfOk result (λ found. self.new.is_over ≡ is_none found) }
        ensures kept { OnErr result (self.new.is_over ≡ self.old.is_over) }
        ensures again { self.old.is_over ≡ true → (result ≡ Ok None) × (self.new ≡ self.old) }
        ensures setup { self.new.setup ≡ self.old.setup }
        ensures source { ReadOn self.old.source self.new.source result }
    {
        if self.is_over {
            return Ok(None);
        }
        match sample_at(&mut self.blocks, self.alloc, self.place)? {
            Some(found) => {
                self.place += 22 + found.sample.bytes.len() as u64;
                Ok(Some(found))
            }
            None => {
                self.is_over = true;
                Ok(None)
            }
        }
    }

    /// The source alone.
    pub fn give_source(self) -> S
        ensures { S.seen result ≡ self.source }
    {
        self.blocks.give_source()
    }
}

// The sample of the record at a place, if the records don't end there.
fn sample_at<S: Source>(
    blocks: &mut Blocks<S>,
    alloc: Global,
    at: u64,
) -> Result<Option<CodedSample>, CodedFault>
    requires { at ≤ blocks.old.size }
    ensures told { NextTold blocks.old.content at result }
    ensures moves { IfOk result (λ found. IfSome found (λ s. SampleAt at blocks.old.size (at + (22 + length s.sample.bytes)) s)) }
    ensures source { ReadOn blocks.old blocks.new result }
{
    match turn_at(blocks, at)? {
        Turn::End => Ok(None),
        Turn::Next(found) => {
            let bytes = bytes_at(blocks, alloc, at + 22, found.len)?;
            Ok(Some(CodedSample {
                at,
                sample: Sample {
                    dts_us: found.dts_us,
                    pts_us: found.pts_us,
                    sync: found.sync,
                    bytes,
                },
            }))
        }
    }
}
