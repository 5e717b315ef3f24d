//! What is left of the times, the offsets, the sync samples and the places of a track.

ghost use Rattle.std.specs.Prelude.{◌≡◌, ℕ, pos, neg_ℤ, ◌≤ℤ◌, ◌<ℤ◌, ◌+◌, ◌-◌, ◌*◌, ◌^◌, ◌<◌, ◌≤◌, ◌⊎◌, true, List, [], ◌∷◌, length, drop, get_or, Some, OnOk, IfOk};
ghost use Rattle.sf_meaning.specs.inner.Entries.{times_left, time_count, offsets_left, syncs_left, Rises, places_left, descriptions_left, place_count, sample_at};
ghost use Rattle.sf_meaning.specs.Tables.{offset_in, is_sync, rising};

use crate::entries::{Offsets, Places, Syncs, Times};
use crate::movie::PlainSample;

// The same times, with some left of the run.
fn in_run(times: Times<'_>) -> Times<'_>
    requires { 0 < time_count times }
    ensures some { 0 < result.left }
    ensures same { times_left result ≡ times_left times.entry }
    ensures count { time_count result ≡ time_count times.entry }
    ensures decode { result.decode ≡ times.entry.decode }
{
    let mut now = times;
    while now.left == 0 {
        let [run, others @ ..] = now.runs else {
            return now;
        };
        now = Times {
            decode: now.decode,
            left: run.count,
            delta: run.delta,
            runs: others,
        };
    }
    now
}

// The next decode time, and those after it.
pub(crate) fn next_time<'a>(times: Times<'a>) -> (u64, Times<'a>)
    requires some { 0 < time_count times }
    requires fits { times.decode + 2 ^ 32 < 2 ^ 64 }
    ensures first { times_left times.entry ≡ result.0 ∷ times_left result.1 }
    ensures count { time_count result.1 + 1 ≡ time_count times.entry }
    ensures here { result.0 ≡ times.entry.decode }
    ensures later { result.1.decode < times.entry.decode + 2 ^ 32 }
{
    let now = in_run(times);
    (
        now.decode,
        Times {
            decode: now.decode + u64::from(now.delta),
            left: now.left - 1,
            delta: now.delta,
            runs: now.runs,
        },
    )
}

// The same offsets, with some left of the run where any are left at all.
fn in_offset_run(offsets: Offsets<'_>) -> Offsets<'_>
    ensures same { offsets_left result ≡ offsets_left offsets.entry }
    ensures some { (0 < result.left) ⊎ (offsets_left result ≡ []) }
{
    let mut now = offsets;
    while now.left == 0 {
        let [run, others @ ..] = now.runs else {
            return now;
        };
        now = Offsets {
            version: now.version,
            left: run.count,
            word: run.delta,
            runs: others,
        };
    }
    now
}

/// A composition offset (8.6.1.3), as it stands in a box of a version.
pub fn offset_in(version: u8, word: u32) -> i64
    ensures exact { result ≡ offset_in version word }
    ensures least { neg_ℤ (pos (2 ^ 31)) ≤ℤ result }
    ensures most { result <ℤ pos (2 ^ 32) }
{
    if version == 0 || word < 0x8000_0000 {
        i64::from(word)
    } else {
        i64::from(word) - 0x1_0000_0000
    }
}

// The next composition offset, which is 0 where none is left, and those after it.
pub(crate) fn next_offset<'a>(offsets: Offsets<'a>) -> (i64, Offsets<'a>)
    ensures first { result.0 ≡ get_or (offsets_left offsets.entry) 0 (pos 0) }
    ensures behind { offsets_left result.1 ≡ drop 1 (offsets_left offsets.entry) }
    ensures least { neg_ℤ (pos (2 ^ 31)) ≤ℤ result.0 }
    ensures most { result.0 <ℤ pos (2 ^ 32) }
{
    let now = in_offset_run(offsets);
    if now.left == 0 {
        return (0, now);
    }
    (
        offset_in(now.version, now.word),
        Offsets {
            version: now.version,
            left: now.left - 1,
            word: now.word,
            runs: now.runs,
        },
    )
}

// Whether a number is the next of numbers that rise, none of them below it, and the numbers after it.
fn next_number<'a>(numbers: &'a [u32], number: u32) -> (bool, &'a [u32])
    requires rising { rising (number - 1) numbers.now ≡ true }
    ensures here { result.0 ≡ is_sync (Some numbers.entry.now) number }
    ensures behind { (later : ℕ) → number < later → is_sync (Some result.1.now) later ≡ is_sync (Some numbers.entry.now) later }
    ensures rising { rising number result.1.now ≡ true }
{
    let [next, others @ ..] = numbers else {
        return (false, numbers);
    };
    if *next == number {
        (true, others)
    } else {
        (false, numbers)
    }
}

// Whether the sample of a number, from 1, is sync, and which of those after it are.
pub(crate) fn next_sync<'a>(syncs: Syncs<'a>, number: u32) -> (bool, Syncs<'a>)
    requires rising { Rises (number - 1) (syncs_left syncs) }
    ensures here { result.0 ≡ is_sync (syncs_left syncs.entry) number }
    ensures behind { (later : ℕ) → number < later → is_sync (syncs_left result.1) later ≡ is_sync (syncs_left syncs.entry) later }
    ensures rising { Rises number (syncs_left result.1) }
{
    match syncs {
        Syncs::All => (true, Syncs::All),
        Syncs::Numbers(numbers) => {
            let (sync, behind) = next_number(numbers, number);
            (sync, Syncs::Numbers(behind))
        }
    }
}

// The same places, with some left of the chunk.
pub(crate) fn in_chunk(places: Places<'_>) -> Places<'_>
    requires { 0 < place_count places }
    ensures some { 0 < result.left }
    ensures same { (sizes : List ℕ) → places_left result sizes ≡ places_left places.entry sizes }
    ensures described { descriptions_left result ≡ descriptions_left places.entry }
    ensures count { place_count result ≡ place_count places.entry }
{
    let mut now = places;
    while now.left == 0 {
        let [chunk, others @ ..] = now.chunks else {
            return now;
        };
        now = Places {
            place: chunk.place,
            left: chunk.per,
            description: chunk.description,
            chunks: others,
        };
    }
    now
}

// A sample at the next place.
pub(crate) fn sample_at(
    here: Places<'_>,
    decode: u64,
    offset: i64,
    sync: bool,
    size: u32,
) -> PlainSample
    requires decode { decode < 2 ^ 62 }
    requires least { neg_ℤ (pos (2 ^ 31)) ≤ℤ offset }
    requires most { offset <ℤ pos (2 ^ 32) }
    ensures { result ≡ sample_at here.entry decode offset sync size }
{
    PlainSample {
        decode,
        compose: decode as i64 + offset,
        sync,
        place: here.place,
        size,
        description: here.description,
    }
}
