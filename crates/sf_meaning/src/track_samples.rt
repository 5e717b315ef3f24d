//! The samples that the tables of a track say.

ghost use Rattle.std.specs.Prelude.{◌≡◌, ℕ, ◌==◌, ◌&&◌, not, ◌^◌, ◌<◌, ◌≤◌, nat_le, List, OnOk, IfOk, length, take, replicate, sum, map};
ghost use Rattle.sf_meaning.specs.Answers.{Gives};
ghost use Rattle.sf_meaning.specs.inner.Entries.{spreads_as, time_runs, times_left, time_count, offsets_left, syncs_left, held_as_listed, places_as, places_left, descriptions_left, place_count};
ghost use Rattle.sf_meaning.specs.Tables.{chunk_entries, described, expand, running, placed};
ghost use Rattle.sf_meaning.specs.TrackSamples.{chunks_of, counts_of, descriptions_known, samples_said};
ghost use Rattle.sf_meaning.specs.Tracks.{samples_held};
ghost use Rattle.sf_meaning.specs.inner.TrackTables.{IsInOrder, tables_view};

use crate::chunk_list::chunk_list;
use crate::entries::{ChunkAt, ChunkRun, Offsets, Places, Syncs, Times};
use crate::faults::{MovieFault, TableFault};
use crate::movie::PlainSample;
use crate::run_sums::{entry_chunks, holds_samples, holds_times, samples_in, sum_of_first};
use crate::sample_list::{count_of, sample_list};
use crate::track_tables::Tables;
use sf_box::FourCc;
use sf_list::Items;
use std::alloc::{AllocError, Global};

// A description is among so many, which count from 1.
fn is_known(description: u32, entries: u64) -> bool
    ensures { result ≡ (not (description == 0) && nat_le description entries) }
{
    description != 0 && u64::from(description) <= entries
}

// So many samples with a description have one among so many.
fn known_description(at: u64, entries: u64, description: u32, count: u32) -> Result<(), TableFault>
    ensures { Gives TableFault.NoMemory (λ _. tt) result (descriptions_known at entries (replicate count description)) }
{
    if count == 0 {
        return Ok(());
    }
    if is_known(description, entries) {
        return Ok(());
    }
    Err(TableFault::Description {
        at,
        index: description,
    })
}

// The first samples of so many chunks have descriptions among so many, by the entries of the sample-to-chunk box.
fn known_descriptions(
    at: u64,
    entries: u64,
    runs: &[ChunkRun],
    chunks: u32,
    count: u32,
) -> Result<(), TableFault>
    ensures { Gives TableFault.NoMemory (λ _. tt) result (descriptions_known at entries (take count (described (chunk_entries (spreads_as runs.now) chunks)))) }
{
    let mut room = chunks;
    let mut left = count;
    for r in 0..runs.len() {
        let run = runs[r];
        let some = entry_chunks(run, &runs[r + 1..], room, chunks);
        let samples = samples_in(some, run.per, left);
        match known_description(at, entries, run.description, samples) {
            Ok(()) => {
                room -= some;
                left -= samples;
            }
            Err(fault) => return Err(fault),
        }
    }
    Ok(())
}

/// The tables say each of so many samples, of a track with a timescale and so many sample entries. It looks
/// at the entries of the sample-to-chunk box, and makes no list of the chunks.
#[tactic(auto, unfolding(crate::specs::TrackSamples::samples_said))]
pub fn say_samples(scale: u32, entries: u64, count: u32, tables: &Tables) -> Result<(), TableFault>
    requires few { count ≤ 16777216 }
    requires chunks { length tables.now.places < 2 ^ 32 }
    ensures said { Gives TableFault.NoMemory (λ _. tt) result (samples_said scale entries count (tables_view tables.now)) }
    ensures times { OnOk result (count ≤ length (expand (time_runs tables.now.deltas))) }
    ensures chunks { OnOk result (count ≤ sum (counts_of (tables_view tables.now))) }
{
    let runs = tables.deltas.as_slice();
    if !holds_times(runs, count) {
        return Err(TableFault::Short {
            kind: FourCc(*b"stts"),
            at: tables.stts_at,
        });
    }
    if u128::from(sum_of_first(runs, count)) > (u128::from(scale) << 40) {
        return Err(TableFault::SumTooLarge { at: tables.stts_at });
    }
    let spreads = tables.spreads.as_slice();
    let chunks = tables.places.len() as u32;
    if !holds_samples(spreads, chunks, count) {
        return Err(TableFault::Short {
            kind: FourCc(*b"stsc"),
            at: tables.stsc_at,
        });
    }
    known_descriptions(tables.stsc_at, entries, spreads, chunks, count)
}

// The chunks, with what holds in each.
fn chunks_of(alloc: Global, tables: &Tables) -> Result<Vec<ChunkAt>, AllocError>
    requires { IsInOrder tables.now }
    ensures held { IfOk result (λ chunks. held_as_listed chunks.items ≡ chunks_of (tables_view tables.now)) }
    ensures places { IfOk result (λ chunks. places_as chunks.items ≡ take (length chunks.items) tables.now.places) }
{
    chunk_list(alloc, tables.spreads.as_slice(), &tables.places)
}

// All the decode times, from 0 on.
fn times_of(tables: &Tables) -> Times<'_>
    ensures left { times_left result ≡ running 0 (tables_view tables.now).deltas }
    ensures count { time_count result ≡ length (tables_view tables.now).deltas }
    ensures early { result.decode ≡ 0 }
{
    Times {
        decode: 0,
        left: 0,
        delta: 0,
        runs: tables.deltas.as_slice(),
    }
}

// All the composition offsets.
fn offsets_of(tables: &Tables) -> Offsets<'_>
    ensures { offsets_left result ≡ (tables_view tables.now).offsets }
{
    Offsets {
        version: tables.version,
        left: 0,
        word: 0,
        runs: tables.offsets.as_slice(),
    }
}

// All the sync samples, by their numbers.
fn syncs_of(tables: &Tables) -> Syncs<'_>
    ensures { syncs_left result ≡ tables.now.sync }
{
    match &tables.sync {
        None => Syncs::All,
        Some(numbers) => Syncs::Numbers(numbers.as_slice()),
    }
}

// All the places.
fn places_of(chunks: &[ChunkAt]) -> Places<'_>
    ensures left { (sizes : List ℕ) → places_left result sizes ≡ placed (places_as chunks.now) (map (λ c. c.per) (held_as_listed chunks.now)) sizes }
    ensures described { descriptions_left result ≡ described (held_as_listed chunks.now) }
    ensures count { place_count result ≡ sum (map (λ c. c.per) (held_as_listed chunks.now)) }
{
    Places {
        place: 0,
        left: 0,
        description: 0,
        chunks,
    }
}

/// The samples that the tables of a track say, of a track of a number, with a timescale and so many sample
/// entries, in a file of so many bytes.
pub(crate) fn samples_held(
    alloc: Global,
    file_len: u64,
    number: u32,
    scale: u32,
    entries: u64,
    tables: &Tables,
) -> Result<Items<PlainSample>, MovieFault>
    requires { IsInOrder tables.now }
    ensures { Gives MovieFault.NoMemory (λ samples. samples) result (samples_held file_len number scale entries (tables_view tables.now)) }
{
    let count = count_of(&tables.sizes);
    say_samples(scale, entries, count, tables)?;
    let chunks = chunks_of(alloc, tables)?;
    sample_list(
        alloc,
        file_len,
        number,
        &tables.sizes,
        count,
        times_of(tables),
        offsets_of(tables),
        syncs_of(tables),
        places_of(&chunks),
    )
}
