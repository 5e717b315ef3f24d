//! The sample-to-chunk box (ISO/IEC 14496-12, 8.7.4), as it is read.

ghost use Rattle.std.specs.Prelude.{◌≡◌, ◌+◌, ◌*◌, ◌≤◌, length, drop, IfOk, true};
ghost use Rattle.sf_meaning.specs.Answers.{Gives};
ghost use Rattle.sf_meaning.specs.ReadTables.{spreads_as};
ghost use Rattle.sf_meaning.specs.Steps.{boxed};
ghost use Rattle.sf_meaning.specs.SampleTables.{begins_rising, spreads_told};
ghost use Rattle.sf_meaning.specs.Tables.{spreads};

use crate::counts::counted;
use crate::entries::ChunkRun;
use crate::faults::TableFault;
use sf_box::{BoxHead, read_u32};
use sf_list::Items;
use std::alloc::{AllocError, Global};

// The entries of a table, which holds so many.
pub(crate) fn all_chunk_runs(
    alloc: Global,
    stsc: &[u8],
    count: u32,
) -> Result<Vec<ChunkRun>, AllocError>
    requires { 8 + 12 * count ≤ length stsc.now }
    ensures { IfOk result (λ runs. spreads_as runs.items ≡ spreads count (drop 8 stsc.now)) }
{
    let mut runs = Vec::with_capacity(alloc, count as usize)?;
    for i in 0..count as usize {
        runs.push(ChunkRun {
            first: read_u32(stsc, 8 + 12 * i),
            per: read_u32(stsc, 12 + 12 * i),
            description: read_u32(stsc, 16 + 12 * i),
        })?;
    }
    Ok(runs)
}

// The entries begin with chunk 1, and each begins after the one before.
pub(crate) fn begins_rising(runs: &[ChunkRun]) -> bool
    ensures { result ≡ begins_rising (spreads_as runs.now) }
{
    let Some((first, others)) = runs.split_first() else {
        return true;
    };
    if first.first != 1 {
        return false;
    }
    let mut last = 1;
    for run in others {
        if run.first <= last {
            return false;
        }
        last = run.first;
    }
    true
}

/// The entries of a sample-to-chunk box, in order, or the first thing that is wrong with it.
#[tactic(auto, unfolding(crate::specs::SampleTables::spreads_told))]
pub fn read_stsc(alloc: Global, head: BoxHead, body: &[u8]) -> Result<Items<ChunkRun>, TableFault>
    ensures entries { Gives TableFault.NoMemory spreads_as result (spreads_told (boxed head body.now)) }
    ensures rising { IfOk result (λ runs. begins_rising (spreads_as runs) ≡ true) }
{
    let count = counted(12, head, body)?;
    let runs = all_chunk_runs(alloc, body, count)?;
    if !begins_rising(&runs) {
        return Err(TableFault::NotRising {
            kind: head.kind,
            at: head.at,
        });
    }
    Ok(Items::from_vec(runs))
}
