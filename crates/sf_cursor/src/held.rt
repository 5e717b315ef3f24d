//! Whether a file holds the samples of a track, one after the other.

ghost use Rattle.std.specs.Prelude.{◌≡◌, ◌+◌, ◌*◌, ◌^◌, ◌<◌, ◌≤◌, true, length, drop, sum, List, OnOk, IfOk, IfErr, Ok, Err};
ghost use Rattle.sf_meaning.specs.ReadTables.{sizes_view, spreads_as};
ghost use Rattle.sf_meaning.specs.SampleTables.{begins_rising};
ghost use Rattle.sf_meaning.specs.Tracks.{held_in};
ghost use Rattle.sf_meaning.specs.declared.movie.PlainSample.{PlainSample};
ghost use Rattle.sf_cursor.specs.inner.Held.{AreInChunk, AreInChunks, ends_held};
ghost use Rattle.sf_cursor.specs.inner.Sound.{counts_in};

use crate::chunks::run_of;
use sf_meaning::{ChunkRun, MovieFault, PlaceList, Sizes, count_of, size_at};

/// How many bytes a sample may have.
const GREATEST_SAMPLE: u32 = 67_108_864;

// Where a sample ends that begins at a place, in a file of so many bytes, unless it is too long.
fn end_of(place: u64, size: u32, track: u32, sample: u64, bytes: u64) -> Result<u64, MovieFault>
    ensures end { IfOk result (λ end. end ≡ place + size) }
    ensures ok { OnOk result (ends_held bytes track sample place size ≡ Ok tt) }
    ensures err { IfErr result (λ fault. ends_held bytes track sample place size ≡ Err fault) }
{
    let outside = MovieFault::SampleOutside { track, sample };
    let Some(end) = place.checked_add(u64::from(size)) else {
        return Err(outside);
    };
    if end > bytes {
        return Err(outside);
    }
    if size > GREATEST_SAMPLE {
        return Err(MovieFault::SampleTooLarge {
            track,
            sample,
            size,
        });
    }
    Ok(end)
}

// So many samples of one size, from a place on, end within so many bytes, and aren't too long.
fn all_within(place: u64, size: u32, count: u32, bytes: u64) -> bool
    ensures within { result ≡ true → place + count * size ≤ bytes }
    ensures short { result ≡ true → size ≤ 67108864 }
{
    let long = u64::from(count) * u64::from(size);
    match place.checked_add(long) {
        Some(end) => end <= bytes && size <= GREATEST_SAMPLE,
        None => false,
    }
}

// A file of so many bytes holds so many samples, from one on, of a chunk that begins at a place. Each is looked at.
fn each_held(
    place: u64,
    sizes: &Sizes,
    from: u32,
    count: u32,
    track: u32,
    bytes: u64,
) -> Result<(), MovieFault>
    requires within { from + count ≤ length (sizes_view sizes.now) }
    requires few { length (sizes_view sizes.now) ≤ 16777216 }
    ensures ok { OnOk result ((ss : List PlainSample) → AreInChunk place (sizes_view sizes.now) from count ss
        → held_in bytes track from (drop from ss) ≡ held_in bytes track (from + count) (drop (from + count) ss)) }
    ensures err { IfErr result (λ fault. (ss : List PlainSample) → AreInChunk place (sizes_view sizes.now) from count ss
        → held_in bytes track from (drop from ss) ≡ Err fault) }
{
    let mut end = place;
    for i in from..from + count {
        let size = size_at(sizes, i);
        match end_of(end, size, track, u64::from(i), bytes) {
            Ok(next) => end = next,
            Err(fault) => return Err(fault),
        }
    }
    Ok(())
}

// The same. Samples of one size are looked at together where all are held.
fn chunk_held(
    place: u64,
    sizes: &Sizes,
    from: u32,
    count: u32,
    track: u32,
    bytes: u64,
) -> Result<(), MovieFault>
    requires within { from + count ≤ length (sizes_view sizes.now) }
    requires few { length (sizes_view sizes.now) ≤ 16777216 }
    ensures ok { OnOk result ((ss : List PlainSample) → AreInChunk place (sizes_view sizes.now) from count ss
        → held_in bytes track from (drop from ss) ≡ held_in bytes track (from + count) (drop (from + count) ss)) }
    ensures err { IfErr result (λ fault. (ss : List PlainSample) → AreInChunk place (sizes_view sizes.now) from count ss
        → held_in bytes track from (drop from ss) ≡ Err fault) }
{
    if let Sizes::Same { size, .. } = sizes {
        if all_within(place, *size, count, bytes) {
            return Ok(());
        }
    }
    each_held(place, sizes, from, count, track, bytes)
}

/// A file of so many bytes holds the samples of chunks at these places, which have these sizes, and none
/// is too long.
pub(crate) fn chunks_held(
    runs: &[ChunkRun],
    places: &PlaceList,
    sizes: &Sizes,
    track: u32,
    bytes: u64,
) -> Result<(), MovieFault>
    requires order { begins_rising (spreads_as runs.now) ≡ true }
    requires many { length places.now < 2 ^ 32 }
    requires few { length (sizes_view sizes.now) ≤ 16777216 }
    requires reach { length (sizes_view sizes.now) ≤ sum (counts_in runs.now (length places.now)) }
    ensures { (ss : List PlainSample) → length ss ≡ length (sizes_view sizes.now)
        → AreInChunks (counts_in runs.now (length places.now)) places.now (sizes_view sizes.now) ss → result ≡ held_in bytes track 0 ss }
{
    if runs.is_empty() {
        return Ok(());
    }
    let count = count_of(sizes);
    let mut from = 0u32;
    let mut r = 0usize;
    for c in 0..places.len() {
        r = run_of(runs, r, c as u32);
        let some = runs[r].per.min(count - from);
        match chunk_held(places.at(c), sizes, from, some, track, bytes) {
            Ok(()) => from += some,
            Err(fault) => return Err(fault),
        }
    }
    Ok(())
}
