//! What the tables of a track say of one sample.

ghost use Rattle.std.specs.Prelude.{◌≡◌, ℕ, List, pos, neg_ℤ, ◌+ℤ◌, ◌≤ℤ◌, ◌<ℤ◌, ◌+◌, ◌-◌, ◌*◌, ◌^◌, ◌<◌, ◌≤◌, length, take, drop, map, sum, get_or, slice_get};
ghost use Rattle.sf_meaning.specs.ReadTables.{time_runs, sizes_view};
ghost use Rattle.sf_meaning.specs.inner.Entries.{Rises};
ghost use Rattle.sf_meaning.specs.Tables.{expand, offset_in, is_sync};
ghost use Rattle.sf_cursor.specs.inner.Sound.{AreStarts, AreSyncs, HaveSums, IsTold, counts_of_runs, number_told};

use crate::starts::last_begun;
use crate::sums::bytes_of;
use sf_list::Items;
use sf_meaning::{Sizes, TimeRun, offset_in};

/// The value that runs give a sample, if they reach it. Samples count from 0.
pub(crate) fn value_at(runs: &[TimeRun], starts: &[u32], i: u32) -> Option<u32>
    requires starts { AreStarts (counts_of_runs runs.now) starts.now }
    requires few { i < 4294967295 }
    ensures { result ≡ slice_get (expand (time_runs runs.now)) i }
{
    if starts.is_empty() {
        return None;
    }
    let k = last_begun(starts, i);
    let run = runs[k];
    if i - starts[k] < run.count {
        Some(run.delta)
    } else {
        None
    }
}

/// The composition offset of a sample, by the runs of a box of a version: 0 where they don't reach it.
pub(crate) fn offset_at(version: u8, runs: &[TimeRun], starts: &[u32], i: u32) -> i64
    requires starts { AreStarts (counts_of_runs runs.now) starts.now }
    requires few { i < 4294967295 }
    ensures exact { result ≡ get_or (map (offset_in version) (expand (time_runs runs.now))) i (pos 0) }
    ensures least { neg_ℤ (pos (2 ^ 31)) ≤ℤ result }
    ensures most { result <ℤ pos (2 ^ 32) }
{
    match value_at(runs, starts, i) {
        Some(word) => offset_in(version, word),
        None => 0,
    }
}

/// When a sample is shown that is decoded at a tick, by its composition offset.
pub(crate) fn compose_at(decode: u64, offset: i64) -> i64
    requires decode { decode < 2 ^ 62 }
    requires least { neg_ℤ (pos (2 ^ 31)) ≤ℤ offset }
    requires most { offset <ℤ pos (2 ^ 32) }
    ensures { result ≡ pos decode +ℤ offset }
{
    decode as i64 + offset
}

/// Whether the sample of a number, from 1, is sync.
pub(crate) fn is_sync(sync: &Option<Items<u32>>, number: u32) -> bool
    requires { Rises 0 sync.now }
    ensures { result ≡ is_sync sync.now number }
{
    match sync {
        None => true,
        Some(numbers) => numbers.as_slice().binary_search(&number).is_ok(),
    }
}

/// How many of so many samples are sync.
pub(crate) fn sync_count(sync: &Option<Items<u32>>, count: u32) -> u64
    requires { Rises 0 sync.now }
    ensures { (numbers : List ℕ) → AreSyncs sync.now count numbers → result ≡ length numbers }
{
    match sync {
        None => u64::from(count),
        Some(numbers) => numbers
            .as_slice()
            .partition_point(|number| *number <= count) as u64,
    }
}

/// The number of a sync sample, from 0, by its place among the sync samples.
pub(crate) fn sync_number(sync: &Option<Items<u32>>, k: u64) -> u64
    requires { IsTold sync.now k }
    ensures { result ≡ number_told sync.now k }
{
    match sync {
        None => k,
        Some(numbers) => u64::from(numbers.as_slice()[k as usize] - 1),
    }
}

/// Where a sample begins in a chunk that begins at a place, after so many samples of the chunk, from one on.
pub(crate) fn place_at(chunk: u64, sizes: &Sizes, sums: &[u64], from: u32, count: u32) -> u64
    requires within { from + count ≤ length (sizes_view sizes.now) }
    requires few { length (sizes_view sizes.now) ≤ 16777216 }
    requires sums { HaveSums sizes.now sums.now }
    requires fits { chunk + sum (take count (drop from (sizes_view sizes.now))) < 2 ^ 64 }
    ensures { result ≡ chunk + sum (take count (drop from (sizes_view sizes.now))) }
{
    chunk + bytes_of(sizes, sums, from, count)
}
