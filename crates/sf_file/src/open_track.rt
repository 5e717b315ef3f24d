//! One track of a file that is being written.

ghost use Rattle.std.specs.Prelude.{◌≡◌, ℕ, ◌+◌, ◌-◌, ◌^◌, ◌<◌, ◌≤◌, List, length, Option, IfOk, OnOk, IsTrue};
ghost use Rattle.sf_meaning.specs.Stbl.{duration_in_rows};
ghost use Rattle.sf_layout.specs.Layout.{TrackRows, head_of, lead_of, stbl_of};
ghost use Rattle.sf_moov.specs.Heads.{HasEnd};
ghost use Rattle.sf_gather.specs.Accepting.{last_from};
ghost use Rattle.sf_tables.specs.Rows.{first_dts_with};
ghost use Rattle.sf_file.specs.Open.{Joins, count_of, track_with};
ghost use Rattle.sf_file.specs.inner.Tracks.{fresh};

use sf_entry::TrackSetup;
use sf_gather::{LastSample, all_follow};
use sf_layout::TrackHead;
use sf_list::Bytes;
use sf_tables::Tables;
use sf_tick::{Chunk, Stored};
use std::alloc::{AllocError, Global};
use std::marker::Model;

/// A track of a file that is being written, chunk by chunk.
#[derive(Drop)]
pub(crate) struct OpenTrack {
    pub(crate) setup: TrackSetup,
    tables: Tables,
    pub(crate) last: Option<LastSample>,
}

impl Model for OpenTrack {
    ghost use Rattle.sf_file.specs.inner.Tracks.{KeptTrack};
    ghost use Rattle.sf_file.specs.inner.Sound.{SoundTrack};

    ghost Value = { KeptTrack };

    ghost view = { λ t. record { held = record { track = record { setup = t.setup; first = t.tables.first_dts; rows = t.tables.rows }; last = t.last }; spare = t.tables.spare } };

    ghost invariant = { λ t. SoundTrack t.setup t.tables t.last };
}

// What is kept of the last of samples that stand after an earlier last one.
#[tactic(auto, using(crate::proofs::Room::last_more))]
fn last_after(before: Option<LastSample>, samples: &[Stored]) -> Option<LastSample>
    ensures { result ≡ last_from before samples.now }
{
    let mut last = before;
    for sample in samples {
        last = Some(LastSample {
            dts_us: sample.dts_us,
            decode: sample.decode,
        });
    }
    last
}

// How long after the file's start a track begins.
fn lead_of(start_us: u64, first_us: Option<u64>) -> u64
    ensures { result ≡ lead_of start_us first_us }
{
    match first_us {
        Some(us) => us.saturating_sub(start_us),
        None => 0,
    }
}

// When the first of samples is decoded that stand after an earlier first one.
fn first_with(before: Option<u64>, samples: &[Stored]) -> Option<u64>
    ensures { result ≡ first_dts_with before samples.now }
{
    match before {
        Some(us) => Some(us),
        None => samples.first().map(|sample| sample.dts_us),
    }
}

impl OpenTrack {
    /// A track without samples, with a copy of its setup.
    pub fn new(alloc: Global, setup: &TrackSetup) -> Result<OpenTrack, AllocError>
        requires ticks { 1 ≤ setup.now.scale }
        requires entry { length setup.now.entry ≤ 2 ^ 27 }
        ensures { IfOk result (λ track. track.held ≡ fresh setup.now) }
    {
        let setup = TrackSetup {
            kind: setup.kind,
            scale: setup.scale,
            width: setup.width,
            height: setup.height,
            entry: Bytes::from_slice(alloc, setup.entry.as_slice())?,
        };
        Ok(OpenTrack {
            setup,
            tables: Tables::new(alloc),
            last: None,
        })
    }

    /// Makes room for a chunk. Without memory the room may have grown, and all else is as before.
    pub fn reserve(&mut self, chunk: &Chunk) -> Result<(), AllocError>
        ensures held { self.new.held ≡ self.old.held }
        ensures room { OnOk result (length chunk.now.samples ≤ self.new.spare) }
    {
        self.tables.reserve_chunk(chunk)
    }

    /// Whether a chunk can stand after the others.
    pub fn can_join(&self, chunk: &Chunk) -> bool
        ensures holds { IsTrue result → Joins self.now.held chunk.now }
        ensures only { Joins self.now.held chunk.now → IsTrue result }
    {
        !chunk.samples.is_empty()
            && all_follow(self.setup.scale, self.last, chunk.samples.as_slice())
            && self.count() + (chunk.samples.len() as u64) < 1 << 32
    }

    /// Adds a chunk that begins at this place. It takes no memory.
    pub fn add(&mut self, place: u64, chunk: &Chunk)
        requires room { length chunk.now.samples ≤ self.old.spare }
        requires joins { Joins self.old.held chunk.now }
        ensures { self.new.held ≡ track_with self.old.held place chunk.now }
    {
        self.tables.add_chunk(place, chunk);
        self.last = last_after(self.last, chunk.samples.as_slice());
    }

    /// When the first sample is decoded, in microseconds; none without samples.
    pub fn first_us(&self) -> Option<u64>
        ensures { result ≡ self.now.held.track.first }
    {
        self.tables.first_dts()
    }

    /// The same with one more chunk.
    pub fn first_us_with(&self, chunk: &Chunk) -> Option<u64>
        ensures { result ≡ first_dts_with self.now.held.track.first chunk.now.samples }
    {
        first_with(self.tables.first_dts(), chunk.samples.as_slice())
    }

    /// How many samples there are.
    pub fn count(&self) -> u64
        ensures exact { result ≡ count_of self.now.held }
        ensures few { result < 2 ^ 32 }
    {
        self.tables.count()
    }

    /// What the headers say of the track, in a file with this start.
    pub fn head(&self, start_us: u64) -> TrackHead
        ensures exact { result ≡ head_of start_us self.now.held.track }
        ensures end { HasEnd result }
        ensures bound { result.stbl_len < 2 ^ 41 }
    {
        TrackHead {
            kind: self.setup.kind,
            scale: self.setup.scale,
            width: self.setup.width,
            height: self.setup.height,
            lead_us: lead_of(start_us, self.tables.first_dts()),
            duration: self.tables.duration(),
            stbl_len: self.tables.size(self.setup.entry.len() as u64),
        }
    }

    /// The same with one more chunk, which begins at this place.
    pub fn head_with(&self, start_us: u64, place: u64, chunk: &Chunk) -> TrackHead
        requires { Joins self.now.held chunk.now }
        ensures exact { result ≡ head_of start_us (track_with self.now.held place chunk.now).track }
        ensures end { HasEnd result }
        ensures bound { result.stbl_len < 2 ^ 41 }
    {
        let entry_len = self.setup.entry.len() as u64;
        TrackHead {
            kind: self.setup.kind,
            scale: self.setup.scale,
            width: self.setup.width,
            height: self.setup.height,
            lead_us: lead_of(start_us, self.first_us_with(chunk)),
            duration: self.tables.duration_with(chunk),
            stbl_len: self.tables.size_with(entry_len, place, chunk),
        }
    }

    /// The sample table box.
    pub fn encode(&self, alloc: Global) -> Result<Bytes, AllocError>
        requires { length (stbl_of self.now.held.track) < 2 ^ 32 }
        ensures { IfOk result (λ bytes. bytes ≡ stbl_of self.now.held.track) }
    {
        let mut stbl = Bytes::new(alloc);
        self.tables.encode(self.setup.entry.as_slice(), &mut stbl)?;
        Ok(stbl)
    }
}
