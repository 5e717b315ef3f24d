//! When samples are decoded, by how long the samples before every sixteenth run last.

ghost use Rattle.std.specs.Prelude.{◌≡◌, ◌+◌, ◌-◌, ◌*◌, ◌^◌, ◌<◌, ◌≤◌, min, length, take, sum, IfOk};
ghost use Rattle.sf_meaning.specs.ReadTables.{time_runs};
ghost use Rattle.sf_meaning.specs.Tables.{expand};
ghost use Rattle.sf_cursor.specs.inner.Sound.{AreStarts, AreTicks, Lasts, counts_of_runs};

use crate::starts::last_begun;
use sf_list::Items;
use sf_meaning::TimeRun;
use std::alloc::{AllocError, Global};

/// After how many runs it's kept again how long the samples before them last.
const BLOCK: usize = 16;

/// How long the samples before a run last, in ticks, of the first 16,777,216 samples, of which so many are
/// left.
#[derive(Clone, Copy)]
pub(crate) struct Lasting {
    pub left: u32,
    pub ticks: u64,
}

// How long so many samples with a delta last.
fn time_of(count: u32, delta: u32) -> u64
    ensures exact { result ≡ count * delta }
    ensures bound { result ≤ count * 2 ^ 32 }
{
    u64::from(count) * u64::from(delta)
}

// How long the samples up to a place in a run last, by how long those before the run last and by so many
// samples of the run.
fn ticks_after(before: u64, count: u32, delta: u32) -> u64
    requires before { before ≤ 16777216 * 2 ^ 32 }
    requires count { count ≤ 16777216 }
    ensures exact { result ≡ before + count * delta }
    ensures bound { result ≤ before + count * 2 ^ 32 }
{
    let time = time_of(count, delta);
    before + time
}

// One run further.
fn after_run(before: Lasting, run: TimeRun) -> Lasting
    requires few { before.left ≤ 16777216 }
    requires bound { before.ticks ≤ (16777216 - before.left) * 2 ^ 32 }
    ensures left { result.left ≡ before.left - min before.left run.count }
    ensures ticks { result.ticks ≡ before.ticks + min before.left run.count * run.delta }
    ensures bound { result.ticks ≤ (16777216 - result.left) * 2 ^ 32 }
{
    let some = before.left.min(run.count);
    Lasting {
        left: before.left - some,
        ticks: ticks_after(before.ticks, some, run.delta),
    }
}

// How long the samples before a run last, by how long those before an earlier one do.
fn after_runs(runs: &[TimeRun], from: usize, to: usize, before: Lasting) -> Lasting
    requires order { from ≤ to }
    requires within { to ≤ length runs.now }
    requires before { Lasts runs.now from before }
    ensures { Lasts runs.now to result }
{
    let mut lasting = before;
    for k in from..to {
        lasting = after_run(lasting, runs[k]);
    }
    lasting
}

/// How long the samples before every sixteenth run last, in ticks, of the first 16,777,216 samples.
pub(crate) fn run_ticks(alloc: Global, runs: &[TimeRun]) -> Result<Items<u64>, AllocError>
    ensures { IfOk result (λ ticks. AreTicks runs.now ticks) }
{
    let blocks = runs.len() / BLOCK + 1;
    let mut ticks = Items::from_vec(Vec::with_capacity(alloc, blocks)?);
    let mut lasting = Lasting {
        left: 16_777_216,
        ticks: 0,
    };
    for block in 0..blocks {
        ticks.push(lasting.ticks)?;
        let from = BLOCK * block;
        let to = runs.len().min(from + BLOCK);
        lasting = after_runs(runs, from, to, lasting);
    }
    Ok(ticks)
}

/// When a sample is decoded, in ticks. Samples count from 0.
pub(crate) fn decode_at(runs: &[TimeRun], starts: &[u32], ticks: &[u64], i: u32) -> u64
    requires starts { AreStarts (counts_of_runs runs.now) starts.now }
    requires ticks { AreTicks runs.now ticks.now }
    requires few { i < 16777216 }
    requires reach { i < sum (counts_of_runs runs.now) }
    ensures exact { result ≡ sum (take i (expand (time_runs runs.now))) }
    ensures bound { result < 2 ^ 62 }
{
    let k = last_begun(starts, i);
    let block = k / BLOCK;
    let before = Lasting {
        left: 16_777_216 - starts[BLOCK * block],
        ticks: ticks[block],
    };
    let lasting = after_runs(runs, BLOCK * block, k, before);
    ticks_after(lasting.ticks, i - starts[k], runs[k].delta)
}
