//! The gatherer of one track's samples.

ghost use Rattle.std.specs.Prelude.{◌≡◌, ◌≤◌, ◌<◌, ◌+◌, ◌-◌, ◌^◌, List, [], ◌∷◌, ◌++◌, length, true, false, Some, None, Ok, Err, IfSome, IfNone, IfOk, IfErr, OnOk, OnErr, is_some, if◌then◌else◌};
ghost use Rattle.std.specs.Option.{option_to_list};
ghost use Rattle.sf_tick.specs.declared.types.Stored.{Stored};
ghost use Rattle.sf_gather.specs.Accepting.{RefusedBy, kept_of, not_units, refusal, stored_of, time_refusal, times_of};
ghost use Rattle.sf_gather.specs.Chunks.{belongs, chunk_of, chunks, closed, marked};
ghost use Rattle.sf_gather.specs.Proper.{Proper};
ghost use Rattle.sf_gather.specs.Gathered.{AfterSample, Stands, begun, grown};

use super::accepting::{SampleFault, Times, judge};
use super::given::{Given, LastSample, Options};
use super::storing::prefixed_units;
use sf_list::Bytes;
use sf_tick::{Chunk, Kind, Sample, Samples, Stored};
use std::alloc::Global;
use std::marker::Model;
use std::mem;

/// A chunk is closed once it has so many bytes.
const FULL: u32 = 4_194_304;

/// The chunk so far of one track.
#[derive(Drop)]
pub struct Gather {
    alloc: Global,
    given: Given,
    chunk: Chunk,
    /// How many bytes the chunk's samples have together.
    size: u32,
    last: Option<LastSample>,
}

impl Model for Gather {
    ghost use Rattle.sf_gather.specs.Gathered.{Gathered};

    ghost Value = { Gathered };

    ghost use Rattle.sf_gather.specs.inner.Sound.{Sound};

    ghost view = { λ g. record { given = g.given; chunk = g.chunk; last = g.last } };

    ghost invariant = { λ g. Sound g.given g.chunk g.size g.last };
}

impl Gather {
    /// A gatherer without samples.
    pub fn new(alloc: Global, track: u32, kind: Kind, scale: u32, options: Options) -> Gather
        requires scale { 1 ≤ scale }
        ensures given { result.given ≡ record { track = track; kind = kind; scale = scale; options = options } }
        ensures chunk { result.chunk ≡ chunk_of result.given 0 false [] }
        ensures stands { Stands [] result }
    {
        let chunk = Chunk {
            track,
            number: 0,
            first_us: 0,
            samples: Samples::new(alloc),
            last: false,
        };
        Gather {
            alloc,
            given: Given {
                track,
                kind,
                scale,
                options,
            },
            chunk,
            size: 0,
            last: None,
        }
    }

    /// Takes the next sample. Where it doesn't belong to the chunk so far, that chunk is handed out,
    /// and the sample begins the next one. A sample that isn't taken comes back.
    pub fn accept(&mut self, sample: Sample) -> Result<Option<Chunk>, (Sample, SampleFault)>
        requires some { 1 ≤ length sample.bytes }
        requires size { length sample.bytes ≤ 16777216 }
        requires number { self.old.chunk.number < 2 ^ 64 - 1 }
        ensures times { IfSome (time_refusal self.old.given self.old.last sample) (λ fault. result ≡ Err (sample, fault)) }
        ensures refused { IfErr result (λ e. RefusedBy (refusal self.old.given self.old.last sample) e.1) }
        ensures accepted { OnOk result (refusal self.old.given self.old.last sample ≡ None) }
        ensures back { IfErr result (λ e. e.0 ≡ sample) }
        ensures unchanged { OnErr result (self.new ≡ self.old) }
        ensures given { self.new.given ≡ self.old.given }
        ensures chunk { IfOk result (λ chunk. chunk ≡
            (if belongs self.old.given self.old.chunk.samples (stored_of self.old.given sample) then None else Some self.old.chunk)) }
        ensures number { IfOk result (λ chunk. self.new.chunk.number ≡ self.old.chunk.number + (if is_some chunk then 1 else 0)) }
        ensures stands { OnOk result ((samples : List Stored) → Stands samples self.old
            → Stands (samples ++ stored_of self.old.given sample ∷ []) self.new) }
        ensures grows { IfOk result (λ chunk. (samples : List Stored) → Stands samples self.old
            → closed self.old.given (samples ++ stored_of self.old.given sample ∷ []) ≡ closed self.old.given samples ++ option_to_list chunk) }
        ensures proper { OnOk result ((samples : List Stored) → Stands samples self.new
            → Proper self.new.given.track self.new.given.scale (closed self.new.given samples)) }
    {
        let times = match judge(&self.given, &self.last, &sample) {
            Ok(times) => times,
            Err(fault) => return Err((sample, fault)),
        };
        self.put_sample(sample, &times)
    }

    // Puts a sample as it is stored. It comes back where it has no stored form, or without memory.
    fn put_sample(
        &mut self,
        sample: Sample,
        times: &Times,
    ) -> Result<Option<Chunk>, (Sample, SampleFault)>
        requires size { length sample.bytes ≤ 16777216 }
        requires number { self.old.chunk.number < 2 ^ 64 - 1 }
        requires times { times.now ≡ times_of self.old.given sample }
        requires time { times.now.dts_us + self.old.given.options.start_us ≤ 2 ^ 48 }
        ensures ok { IfOk result (λ chunk. AfterSample self.old (stored_of self.old.given sample) self.new chunk) }
        ensures units { OnOk result (not_units self.old.given sample ≡ None) }
        ensures err { OnErr result (self.new ≡ self.old) }
        ensures back { IfErr result (λ e. e.0 ≡ sample) }
        ensures refused { IfErr result (λ e. RefusedBy (not_units self.old.given sample) e.1) }
    {
        match self.given.kind {
            Kind::Aac => self.put_sound(sample, times),
            Kind::Avc => self.put_video(sample, times),
        }
    }

    // Puts a sample of sound, whose payload is stored as it is. Without memory it comes back.
    fn put_sound(
        &mut self,
        sample: Sample,
        times: &Times,
    ) -> Result<Option<Chunk>, (Sample, SampleFault)>
        requires kind { self.old.given.kind ≡ Kind.Aac }
        requires size { length sample.bytes ≤ 16777216 }
        requires number { self.old.chunk.number < 2 ^ 64 - 1 }
        requires times { times.now ≡ times_of self.old.given sample }
        requires time { times.now.dts_us + self.old.given.options.start_us ≤ 2 ^ 48 }
        ensures ok { IfOk result (λ chunk. AfterSample self.old (stored_of self.old.given sample) self.new chunk) }
        ensures err { OnErr result (self.new ≡ self.old) }
        ensures back { IfErr result (λ e. e ≡ (sample, SampleFault.NoMemory)) }
    {
        let dts_us = sample.dts_us;
        let pts_us = sample.pts_us;
        match self.put(stored(times, sample.sync, sample.bytes)) {
            Ok(chunk) => Ok(chunk),
            Err(stored) => {
                let sample = Sample {
                    dts_us,
                    pts_us,
                    sync: stored.sync,
                    bytes: stored.bytes,
                };
                Err((sample, SampleFault::NoMemory))
            }
        }
    }

    // Puts a sample of video, whose units are stored after their lengths. It comes back where its
    // payload isn't a list of units, or without memory.
    fn put_video(
        &mut self,
        sample: Sample,
        times: &Times,
    ) -> Result<Option<Chunk>, (Sample, SampleFault)>
        requires kind { self.old.given.kind ≡ Kind.Avc }
        requires size { length sample.bytes ≤ 16777216 }
        requires number { self.old.chunk.number < 2 ^ 64 - 1 }
        requires times { times.now ≡ times_of self.old.given sample }
        requires time { times.now.dts_us + self.old.given.options.start_us ≤ 2 ^ 48 }
        ensures ok { IfOk result (λ chunk. AfterSample self.old (stored_of self.old.given sample) self.new chunk) }
        ensures units { OnOk result (not_units self.old.given sample ≡ None) }
        ensures err { OnErr result (self.new ≡ self.old) }
        ensures back { IfErr result (λ e. e.0 ≡ sample) }
        ensures refused { IfErr result (λ e. RefusedBy (not_units self.old.given sample) e.1) }
    {
        let bytes = match prefixed_units(self.alloc, sample.bytes.as_slice()) {
            Ok(bytes) => bytes,
            Err(refused) => return Err((sample, refused)),
        };
        match self.put(stored(times, sample.sync, bytes)) {
            Ok(chunk) => Ok(chunk),
            Err(_stored) => Err((sample, SampleFault::NoMemory)),
        }
    }

    // Puts a sample into the chunk so far, or into the next one. Without memory it comes back.
    fn put(&mut self, sample: Stored) -> Result<Option<Chunk>, Stored>
        requires size { length sample.bytes ≤ 2 ^ 25 }
        requires number { self.old.chunk.number < 2 ^ 64 - 1 }
        requires time { sample.dts_us + self.old.given.options.start_us ≤ 2 ^ 48 }
        ensures ok { IfOk result (λ chunk. AfterSample self.old sample self.new chunk) }
        ensures err { OnErr result (self.new ≡ self.old) }
        ensures back { IfErr result (λ stored. stored ≡ sample) }
    {
        if self.has_room(&sample) {
            self.grow(sample)?;
            Ok(None)
        } else {
            let chunk = self.begin_next(sample)?;
            Ok(Some(chunk))
        }
    }

    // Whether a sample belongs to the chunk so far.
    fn has_room(&self, next: &Stored) -> bool
        ensures { result ≡ belongs self.now.given self.now.chunk.samples next.now }
    {
        let options = &self.given.options;
        if self.chunk.samples.is_empty() {
            return true;
        }
        next.dts_us.saturating_sub(self.chunk.first_us) <= options.interleave_us
            && options.interleave_us != 0
            && !(self.given.kind == Kind::Avc && next.sync)
            && self.size < FULL
    }

    // Puts a sample at the end of the chunk.
    fn grow(&mut self, sample: Stored) -> Result<(), Stored>
        requires size { length sample.bytes ≤ 2 ^ 25 }
        requires belongs { belongs self.old.given self.old.chunk.samples sample ≡ true }
        requires time { sample.dts_us + self.old.given.options.start_us ≤ 2 ^ 48 }
        ensures ok { OnOk result (self.new ≡ grown self.old sample) }
        ensures err { OnErr result (self.new ≡ self.old) }
        ensures back { IfErr result (λ stored. stored ≡ sample) }
    {
        let size = self.size + sample.bytes.len() as u32;
        let last = last_sample(&sample);
        let first_us = if self.chunk.samples.is_empty() {
            sample.dts_us
        } else {
            self.chunk.first_us
        };
        if let Err(failed) = self.chunk.samples.push(sample) {
            return Err(failed.value);
        }
        self.chunk.first_us = first_us;
        self.size = size;
        self.last = Some(last);
        Ok(())
    }

    // Begins the next chunk with a sample. The chunk so far is handed out.
    fn begin_next(&mut self, sample: Stored) -> Result<Chunk, Stored>
        requires size { length sample.bytes ≤ 2 ^ 25 }
        requires number { self.old.chunk.number < 2 ^ 64 - 1 }
        requires time { sample.dts_us + self.old.given.options.start_us ≤ 2 ^ 48 }
        ensures chunk { IfOk result (λ chunk. chunk ≡ self.old.chunk) }
        ensures ok { OnOk result (self.new ≡ begun self.old sample) }
        ensures err { OnErr result (self.new ≡ self.old) }
        ensures back { IfErr result (λ stored. stored ≡ sample) }
    {
        let size = sample.bytes.len() as u32;
        let last = last_sample(&sample);
        let first_us = sample.dts_us;
        let mut samples = Samples::new(self.alloc);
        if let Err(failed) = samples.push(sample) {
            return Err(failed.value);
        }
        let next = Chunk {
            track: self.given.track,
            number: self.chunk.number + 1,
            first_us,
            samples,
            last: false,
        };
        self.size = size;
        self.last = Some(last);
        Ok(mem::replace(&mut self.chunk, next))
    }

    /// The last chunk.
    pub fn end(self) -> Chunk
        ensures exact { result ≡ marked self.chunk }
        ensures chunks { (samples : List Stored) → Stands samples self → chunks self.given samples ≡ closed self.given samples ++ result ∷ [] }
        ensures proper { (samples : List Stored) → Stands samples self → Proper self.given.track self.given.scale (chunks self.given samples) }
    {
        let Gather { mut chunk, .. } = self;
        chunk.last = true;
        chunk
    }
}

// What is kept of a sample as the last one.
fn last_sample(sample: &Stored) -> LastSample
    ensures { result ≡ kept_of sample.now }
{
    LastSample {
        dts_us: sample.dts_us,
        decode: sample.decode,
    }
}

// A sample as it is stored, with these bytes.
fn stored(times: &Times, sync: bool, bytes: Bytes) -> Stored
    ensures { result ≡ record { dts_us = times.now.dts_us; decode = times.now.decode; compose = times.now.compose; sync = sync; bytes = bytes } }
{
    Stored {
        dts_us: times.dts_us,
        decode: times.decode,
        compose: times.compose,
        sync,
        bytes,
    }
}
