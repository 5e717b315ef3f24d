//! What runs and the entries of the sample-to-chunk box count.

ghost use Rattle.std.specs.Prelude.{◌≡◌, ◌-◌, ◌*◌, ◌^◌, ◌≤◌, nat_le, min, ◌∷◌, ◌++◌, length, take, sum, map, replicate};
ghost use Rattle.sf_meaning.specs.inner.Entries.{time_runs, spread_of, spreads_as};
ghost use Rattle.sf_meaning.specs.Tables.{chunk_entries, expand, in_chunk, spread_over};

use crate::entries::{ChunkRun, TimeRun};

// Whether runs count so many samples.
pub(crate) fn holds_times(runs: &[TimeRun], count: u32) -> bool
    ensures { result ≡ nat_le count (length (expand (time_runs runs.now))) }
{
    let mut left = count;
    for run in runs {
        left = left.saturating_sub(run.count);
    }
    left == 0
}

// How long so many samples with a delta last.
fn time_of(count: u32, delta: u32) -> u64
    ensures exact { result ≡ count * delta }
    ensures bound { result ≤ count * 2 ^ 32 }
{
    u64::from(count) * u64::from(delta)
}

/// The sum of the first deltas.
pub fn sum_of_first(runs: &[TimeRun], count: u32) -> u64
    requires { count ≤ 16777216 }
    ensures exact { result ≡ sum (take count (expand (time_runs runs.now))) }
    ensures bound { result ≤ count * 2 ^ 32 }
{
    let mut left = count;
    let mut total = 0u64;
    for run in runs {
        let some = left.min(run.count);
        total += time_of(some, run.delta);
        left -= some;
    }
    total
}

// How many of the chunks that are left stand before one, from an entry's first chunk on.
fn chunks_before(first: u32, end: u64, left: u32) -> u32
    ensures { result ≡ min left (end - first) }
{
    let all = end.saturating_sub(u64::from(first));
    u64::from(left).min(all) as u32
}

/// In how many of the chunks that are left, the last ones of so many in all, an entry holds, before the
/// entries after it do.
pub(crate) fn entry_chunks(run: ChunkRun, others: &[ChunkRun], left: u32, chunks: u32) -> u32
    ensures few { result ≤ left }
    ensures holds { take left (spread_over (spread_of run ∷ spreads_as others.now) chunks)
        ≡ replicate result (in_chunk (spread_of run)) ++ take (left - result) (spread_over (spreads_as others.now) chunks) }
{
    match others {
        [next, ..] => chunks_before(run.first, u64::from(next.first), left),
        [] => chunks_before(run.first, u64::from(chunks) + 1, left),
    }
}

/// How many of the samples that are left stand in so many chunks, with so many samples each.
pub(crate) fn samples_in(chunks: u32, per: u32, left: u32) -> u32
    ensures { result ≡ min left (chunks * per) }
{
    let all = u64::from(chunks) * u64::from(per);
    u64::from(left).min(all) as u32
}

// Whether so many chunks hold so many samples, by the entries of the sample-to-chunk box.
pub(crate) fn holds_samples(runs: &[ChunkRun], chunks: u32, count: u32) -> bool
    ensures { result ≡ nat_le count (sum (map (λ c. c.per) (chunk_entries (spreads_as runs.now) chunks))) }
{
    let mut room = chunks;
    let mut left = count;
    for r in 0..runs.len() {
        let run = runs[r];
        let some = entry_chunks(run, &runs[r + 1..], room, chunks);
        room -= some;
        left -= samples_in(some, run.per, left);
    }
    left == 0
}
