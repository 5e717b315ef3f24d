//! How many samples come before each run, so that the one of a sample is found without a walk.

ghost use Rattle.std.specs.Prelude.{◌≡◌, ℕ, ◌+◌, ◌<◌, ◌≤◌, length, get_or, IfOk};
ghost use Rattle.std.specs.List.Sorted.{IsNonDecreasingBy};
ghost use Rattle.sf_cursor.specs.inner.Sound.{AreStarts, counts_of_runs};

use sf_list::Items;
use sf_meaning::TimeRun;
use std::alloc::{AllocError, Global};

/// How many samples come before each run, or 2^32 - 1 where there are more.
pub(crate) fn run_starts(alloc: Global, runs: &[TimeRun]) -> Result<Items<u32>, AllocError>
    ensures { IfOk result (λ starts. AreStarts (counts_of_runs runs.now) starts) }
{
    let mut starts = Items::from_vec(Vec::with_capacity(alloc, runs.len())?);
    let mut total = 0u32;
    for run in runs {
        starts.push(total)?;
        total = total.saturating_add(run.count);
    }
    Ok(starts)
}

/// The last one that begins by a sample, of those that begin after so many samples, the first one at 0.
pub(crate) fn last_begun(starts: &[u32], i: u32) -> usize
    requires some { 0 < length starts.now }
    requires first { get_or starts.now 0 0 ≡ 0 }
    requires rising { IsNonDecreasingBy (λ (x : ℕ). x) starts.now }
    ensures there { result < length starts.now }
    ensures begun { get_or starts.now result 0 ≤ i }
    ensures next { result + 1 < length starts.now → i < get_or starts.now (result + 1) 0 }
{
    starts.partition_point(|start| *start <= i) - 1
}
