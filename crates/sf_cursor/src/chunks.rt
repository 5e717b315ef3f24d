//! The chunks of a track, by the entries of the sample-to-chunk box (ISO/IEC 14496-12, 8.7.4), each of which holds up to the next one's
//! first chunk.

ghost use Rattle.std.specs.Prelude.{◌≡◌, true, ◌+◌, ◌-◌, ◌*◌, ◌^◌, ◌<◌, ◌≤◌, min, length, get_or, sum, IfOk};
ghost use Rattle.sf_meaning.specs.ReadTables.{spreads_as};
ghost use Rattle.sf_meaning.specs.SampleTables.{begins_rising};
ghost use Rattle.sf_cursor.specs.inner.Sound.{AreChunkStarts, HoldsFor, HoldsUpTo, IsInChunk, counts_in, no_run};

use crate::starts::last_begun;
use sf_list::Items;
use sf_meaning::{ChunkAt, ChunkRun, PlaceList};
use std::alloc::{AllocError, Global};

// How many chunks an entry holds for before the next entry does, of so many.
fn chunks_in(runs: &[ChunkRun], r: usize, chunks: u32) -> u32
    requires order { begins_rising (spreads_as runs.now) ≡ true }
    requires there { r + 1 < length runs.now }
    ensures { result ≡ min ((get_or runs.now (r + 1) no_run).first - 1) chunks - min ((get_or runs.now r no_run).first - 1) chunks }
{
    let before = (runs[r].first - 1).min(chunks);
    (runs[r + 1].first - 1).min(chunks) - before
}

// How many samples so many and those of chunks with so many each are, or 2^32 - 1 where they are more.
fn samples_after(before: u32, chunks: u32, per: u32) -> u32
    ensures { result ≡ min (before + chunks * per) 4294967295 }
{
    let more = u64::from(chunks) * u64::from(per);
    let total = u64::from(before).saturating_add(more);
    total.min(4_294_967_295) as u32
}

/// How many samples come before the first chunk of each entry, of so many chunks, or 2^32 - 1 where there
/// are more.
pub(crate) fn chunk_starts(
    alloc: Global,
    runs: &[ChunkRun],
    chunks: u32,
) -> Result<Items<u32>, AllocError>
    requires { begins_rising (spreads_as runs.now) ≡ true }
    ensures { IfOk result (λ starts. AreChunkStarts runs.now chunks starts) }
{
    let mut starts = Items::from_vec(Vec::with_capacity(alloc, runs.len())?);
    let mut total = 0u32;
    for r in 0..runs.len() {
        starts.push(total)?;
        if r + 1 < runs.len() {
            total = samples_after(total, chunks_in(runs, r, chunks), runs[r].per);
        }
    }
    Ok(starts)
}

/// The chunk of a sample, and how many samples of the chunk come before it.
pub(crate) fn chunk_of(
    runs: &[ChunkRun],
    starts: &[u32],
    places: &PlaceList,
    i: u32,
) -> (ChunkAt, u32)
    requires order { begins_rising (spreads_as runs.now) ≡ true }
    requires many { length places.now < 2 ^ 32 }
    requires starts { AreChunkStarts runs.now (length places.now) starts.now }
    requires few { i < 4294967295 }
    requires reach { i < sum (counts_in runs.now (length places.now)) }
    ensures chunk { IsInChunk runs.now places.now i result.1 result.0 }
    ensures within { result.1 ≤ i }
{
    let r = last_begun(starts, i);
    let run = runs[r];
    let left = i - starts[r];
    let c = run.first - 1 + left / run.per;
    let chunk = ChunkAt {
        place: places.at(c as usize),
        per: run.per,
        description: run.description,
    };
    (chunk, left % run.per)
}

/// The entry that holds for a chunk, where one holds up to it. Chunks count from 0.
pub(crate) fn run_of(runs: &[ChunkRun], r: usize, c: u32) -> usize
    requires order { begins_rising (spreads_as runs.now) ≡ true }
    requires holds { HoldsUpTo runs.now r c }
    requires few { c < 4294967295 }
    ensures { HoldsFor runs.now result c }
{
    if r + 1 < runs.len() && runs[r + 1].first == c + 1 {
        r + 1
    } else {
        r
    }
}
