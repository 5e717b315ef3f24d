ghost use Rattle.std.specs.Prelude.{◌≡◌, ℕ, ◌+◌, ◌^◌, ◌<◌, ◌≤◌, List, [], ◌∷◌, ◌++◌, codes, length, None, OnOk, OnErr};
ghost use Rattle.sf_box.specs.Boxes.{box_of};
ghost use Rattle.sf_box.specs.Parts.{tiled};
ghost use Rattle.sf_meaning.specs.Stbl.{Row, timed_of, duration_in_rows, stbl_parts};
ghost use Rattle.sf_tables.specs.Rows.{Addable, first_dts_with, with_chunk};

use crate::encoding::put_stbl;
use crate::kept::{KeptChunk, KeptSample, keep_samples};
use crate::lengths::stbl_len;
use crate::totals::{ChunkTotals, SampleTotals};
use sf_list::Bytes;
use sf_tick::{Chunk, Stored};
use std::alloc::{AllocError, Global};
use std::marker::Model;

/// The tables of one track, as its chunks are added.
#[derive(Drop)]
pub struct Tables {
    samples: Vec<KeptSample>,
    chunks: Vec<KeptChunk>,
    /// When the first sample is decoded, in microseconds.
    first_dts: Option<u64>,
    pub(crate) of_samples: SampleTotals,
    of_chunks: ChunkTotals,
}

impl Model for Tables {
    ghost use Rattle.sf_tables.specs.Rows.{TrackTables};

    ghost Value = { TrackTables };

    ghost use Rattle.std.specs.Prelude.{map};
    ghost use Rattle.sf_tables.specs.inner.Kept.{rows_kept, timed_kept};
    ghost use Rattle.sf_tables.specs.inner.Sound.{Sound, room_for, spare_of};

    ghost view = { λ t. record { rows = rows_kept t.chunks.items (map timed_kept t.samples.items); first_dts = t.first_dts; spare = room_for (spare_of t.samples) (spare_of t.chunks) } };

    ghost invariant = { λ t. Sound t.of_samples t.of_chunks t.samples.items t.chunks.items };
}

impl Tables {
    /// The tables of a track without chunks. They take no memory.
    pub fn new(alloc: Global) -> Tables
        ensures rows { result.rows ≡ [] }
        ensures first { result.first_dts ≡ None }
    {
        Tables {
            samples: Vec::new(alloc),
            chunks: Vec::new(alloc),
            first_dts: None,
            of_samples: SampleTotals::new(),
            of_chunks: ChunkTotals::new(),
        }
    }

    /// Makes room for a chunk. Without memory the room may have grown, and all else is as before.
    #[tactic(auto, using(crate::proofs::Spare::spare_facts))]
    pub fn reserve_chunk(&mut self, chunk: &Chunk) -> Result<(), AllocError>
        ensures room { OnOk result (length chunk.now.samples ≤ self.new.spare) }
        ensures more { self.old.spare ≤ self.new.spare }
        ensures rows { self.new.rows ≡ self.old.rows }
        ensures first { self.new.first_dts ≡ self.old.first_dts }
    {
        self.samples.reserve(chunk.samples.len())?;
        self.chunks.reserve(1)
    }

    /// Adds a chunk that begins at this place, in bytes from the start of the file. It takes no memory.
    pub fn add_chunk(&mut self, place: u64, chunk: &Chunk)
        requires spare { length chunk.now.samples ≤ self.old.spare }
        requires addable { Addable self.old.rows chunk.now }
        ensures rows { self.new.rows ≡ with_chunk self.old.rows place chunk.now }
        ensures first { self.new.first_dts ≡ first_dts_with self.old.first_dts chunk.now.samples }
    {
        let samples = chunk.samples.as_slice();
        self.of_samples = self.of_samples.with_samples(samples);
        self.of_chunks = self.of_chunks.with_chunk(place, samples.len() as u32);
        self.first_dts = self
            .first_dts
            .or(samples.first().map(|sample| sample.dts_us));
        keep_samples(&mut self.samples, samples);
        self.chunks.push_reserved(KeptChunk {
            place,
            count: samples.len() as u32,
        });
    }

    /// How many samples there are.
    pub fn count(&self) -> u64
        ensures { result ≡ length (timed_of self.now.rows) }
    {
        u64::from(self.of_samples.count)
    }

    /// When the first sample is decoded, in microseconds; none without samples.
    pub fn first_dts(&self) -> Option<u64>
        ensures { result ≡ self.now.first_dts }
    {
        self.first_dts
    }

    /// How long the track lasts, in ticks.
    pub fn duration(&self) -> u64
        ensures { result ≡ duration_in_rows self.now.rows }
    {
        self.of_samples.duration()
    }

    /// How long the track would last after one more chunk, in ticks.
    pub fn duration_with(&self, chunk: &Chunk) -> u64
        requires { Addable self.now.rows chunk.now }
        ensures { (place : ℕ) → result ≡ duration_in_rows (with_chunk self.now.rows place chunk.now) }
    {
        let totals = self.of_samples.with_samples(chunk.samples.as_slice());
        totals.duration()
    }

    /// How long the sample table box is in bytes, its head included, with a sample entry of this length.
    pub fn size(&self, entry_len: u64) -> u64
        requires { entry_len < 2 ^ 62 }
        ensures bound { result < entry_len + 2 ^ 40 }
        ensures exact { (entry : List ℕ) → length entry ≡ entry_len → result ≡ 8 + length (tiled (stbl_parts entry self.now.rows)) }
    {
        stbl_len(&self.of_samples, &self.of_chunks, entry_len)
    }

    /// How long that box would be after one more chunk that begins at this place.
    pub fn size_with(&self, entry_len: u64, place: u64, chunk: &Chunk) -> u64
        requires entry { entry_len < 2 ^ 62 }
        requires addable { Addable self.now.rows chunk.now }
        ensures bound { result < entry_len + 2 ^ 40 }
        ensures exact { (entry : List ℕ) → length entry ≡ entry_len → result ≡ 8 + length (tiled (stbl_parts entry (with_chunk self.now.rows place chunk.now))) }
    {
        let samples = chunk.samples.as_slice();
        let of_samples = self.of_samples.with_samples(samples);
        let of_chunks = self.of_chunks.with_chunk(place, samples.len() as u32);
        stbl_len(&of_samples, &of_chunks, entry_len)
    }

    /// Puts the sample table box at the end, with this sample entry (8.5.1, 8.5.2). Without memory
    /// nothing is put there.
    pub fn encode(&self, entry: &[u8], out: &mut Bytes) -> Result<(), AllocError>
        requires { 8 + length (tiled (stbl_parts entry.now self.now.rows)) < 2 ^ 32 }
        ensures ok { OnOk result (out.new ≡ out.old ++ box_of (codes "stbl") (tiled (stbl_parts entry.now self.now.rows))) }
        ensures err { OnErr result (out.new ≡ out.old) }
    {
        let before = out.len();
        let put = put_stbl(
            out,
            entry,
            &self.samples,
            &self.chunks,
            &self.of_samples,
            &self.of_chunks,
        );
        if put.is_err() {
            out.cut(before);
        }
        put
    }
}
