//! The cursor over the samples of a track.

ghost use Rattle.std.specs.Prelude.{◌≡◌, ℕ, IfOk, OnOk, pos, neg_ℤ, ◌≤ℤ◌, ◌<ℤ◌, ◌+◌, ◌^◌, ◌<◌, length, get_or, slice_get, Some};
ghost use Rattle.sf_meaning.specs.Answers.{Gives};
ghost use Rattle.sf_meaning.specs.TrackSamples.{listed};
ghost use Rattle.sf_meaning.specs.Tracks.{held_in};
ghost use Rattle.sf_cursor.specs.Cursor.{tables_in, HasPlace, IsComposed, numbers_in};

use crate::chunks::{chunk_of, chunk_starts};
use crate::look_up::{compose_at, is_sync, offset_at, place_at, sync_count, sync_number};
use crate::starts::run_starts;
use crate::sums::block_sums;
use crate::tables::{SoundTables, tables_held};
use crate::ticks::{decode_at, run_ticks};
use sf_list::Items;
use sf_meaning::{
    MovieFault, PlainSample, TableFault, Tables, count_of, samples_one_by_one, size_at,
};
use std::alloc::{AllocError, Global};
use std::marker::Model;

/// The samples that a sample table box says. It keeps the tables, and never a list of the samples.
#[derive(Drop)]
pub struct Cursor {
    tables: Tables,
    /// How many samples come before each run of deltas.
    time_starts: Items<u32>,
    /// How long they last, in ticks.
    ticks: Items<u64>,
    /// How many samples come before each run of composition offsets.
    offset_starts: Items<u32>,
    /// How many samples come before the first chunk of each entry of the sample-to-chunk box.
    chunk_starts: Items<u32>,
    /// How many bytes the samples before every sixteenth one take.
    sums: Items<u64>,
}

impl Model for Cursor {
    ghost use Rattle.sf_meaning.specs.TrackSamples.{Tables};
    ghost use Rattle.sf_meaning.specs.inner.TrackTables.{tables_view};
    ghost use Rattle.sf_cursor.specs.inner.Sound.{Indexed};

    ghost Value = { Tables };

    ghost view = { λ c. tables_view c.tables };

    ghost invariant = { λ c. Indexed c.tables c.time_starts c.ticks c.offset_starts c.chunk_starts c.sums };
}

impl Cursor {
    /// Reads the body of a sample table box, which begins at a place, of a track with a timescale and so
    /// many sample entries. It errs with the first thing that is wrong with the box, by
    /// `specs/Cursor.antt`, or where there is no memory.
    pub fn read(
        alloc: Global,
        stbl: &[u8],
        base: u64,
        scale: u32,
        entries: u32,
    ) -> Result<Cursor, TableFault>
        requires { base + length stbl.now < 2 ^ 64 }
        ensures { Gives TableFault.NoMemory (λ cursor. cursor) result (tables_in base scale entries stbl.now) }
    {
        let tables = SoundTables::read(alloc, stbl, base, scale, entries)?;
        let cursor = Cursor::over(alloc, tables)?;
        Ok(cursor)
    }

    /// A cursor over the samples of tables.
    pub fn over(alloc: Global, tables: SoundTables) -> Result<Cursor, AllocError>
        ensures { IfOk result (λ cursor. cursor ≡ tables) }
    {
        let tables = tables.into_tables();
        let time_starts = run_starts(alloc, tables.deltas.as_slice())?;
        let ticks = run_ticks(alloc, tables.deltas.as_slice())?;
        let offset_starts = run_starts(alloc, tables.offsets.as_slice())?;
        let chunk_starts = chunk_starts(
            alloc,
            tables.spreads.as_slice(),
            tables.places.len() as u32,
        )?;
        let sums = block_sums(alloc, &tables.sizes)?;
        Ok(Cursor {
            tables,
            time_starts,
            ticks,
            offset_starts,
            chunk_starts,
            sums,
        })
    }

    /// The number of samples.
    pub fn count(&self) -> u64
        ensures sizes { result ≡ length self.now.sizes }
        ensures samples { result ≡ length (listed self.now) }
    {
        samples_one_by_one();
        u64::from(count_of(&self.tables.sizes))
    }

    /// A file of so many bytes holds each sample, and none is too long, of a track of this number. It errs
    /// with the first sample that isn't so, and walks along the samples once.
    pub fn held(&self, track: u32, bytes: u64) -> Result<(), MovieFault>
        ensures held { result ≡ held_in bytes track 0 (listed self.now) }
        ensures places { OnOk result ((i : ℕ) → HasPlace self.now i) }
    {
        tables_held(&self.tables, track, bytes)
    }

    /// The number of sync samples.
    pub fn sync_count(&self) -> u64
        ensures { result ≡ length (numbers_in 0 (listed self.now)) }
    {
        samples_one_by_one();
        sync_count(&self.tables.sync, count_of(&self.tables.sizes))
    }

    /// The number of a sync sample, from 0, by its place among the sync samples, from 0.
    pub fn sync_number(&self, k: u64) -> u64
        requires { k < length (numbers_in 0 (listed self.now)) }
        ensures exact { result ≡ get_or (numbers_in 0 (listed self.now)) k 0 }
        ensures there { result < length (listed self.now) }
    {
        samples_one_by_one();
        sync_number(&self.tables.sync, k)
    }

    /// When a sample is composed, in ticks, by its number from 0. It looks at the times alone.
    pub fn composed(&self, i: u64) -> i64
        requires { i < length self.now.sizes }
        ensures { IsComposed self.now i result }
    {
        samples_one_by_one();
        let tables = &self.tables;
        let i = i as u32;
        let decode = decode_at(
            tables.deltas.as_slice(),
            self.time_starts.as_slice(),
            self.ticks.as_slice(),
            i,
        );
        let offset = offset_at(
            tables.version,
            tables.offsets.as_slice(),
            self.offset_starts.as_slice(),
            i,
        );
        compose_at(decode, offset)
    }

    /// A sample by its number, from 0. It takes no memory.
    pub fn sample(&self, i: u64) -> PlainSample
        requires there { i < length self.now.sizes }
        requires place { HasPlace self.now i }
        ensures listed { slice_get (listed self.now) i ≡ Some result }
        ensures least { neg_ℤ (pos (2 ^ 31)) ≤ℤ result.compose }
        ensures most { result.compose <ℤ pos (result.decode + 2 ^ 32) }
    {
        samples_one_by_one();
        let tables = &self.tables;
        let i = i as u32;
        let (chunk, earlier) = chunk_of(
            tables.spreads.as_slice(),
            self.chunk_starts.as_slice(),
            &tables.places,
            i,
        );
        let decode = decode_at(
            tables.deltas.as_slice(),
            self.time_starts.as_slice(),
            self.ticks.as_slice(),
            i,
        );
        let offset = offset_at(
            tables.version,
            tables.offsets.as_slice(),
            self.offset_starts.as_slice(),
            i,
        );
        PlainSample {
            decode,
            compose: compose_at(decode, offset),
            sync: is_sync(&tables.sync, i + 1),
            place: place_at(
                chunk.place,
                &tables.sizes,
                self.sums.as_slice(),
                i - earlier,
                earlier,
            ),
            size: size_at(&tables.sizes, i),
            description: chunk.description,
        }
    }
}
