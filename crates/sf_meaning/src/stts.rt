//! The decoding time box (ISO/IEC 14496-12, 8.6.1.2), as it is read.

ghost use Rattle.std.specs.Prelude.{◌≡◌, ◌+◌, ◌*◌, ◌≤◌, length, drop, IfOk};
ghost use Rattle.sf_meaning.specs.Answers.{Gives};
ghost use Rattle.sf_meaning.specs.ReadTables.{time_runs};
ghost use Rattle.sf_meaning.specs.Steps.{boxed};
ghost use Rattle.sf_meaning.specs.SampleTables.{runs_told};
ghost use Rattle.sf_meaning.specs.Tables.{run_pairs};

use crate::counts::counted;
use crate::entries::TimeRun;
use crate::faults::TableFault;
use sf_box::{BoxHead, read_u32};
use sf_list::Items;
use std::alloc::{AllocError, Global};

/// The runs of a decoding time box, or of a composition offset box, which holds so many.
pub(crate) fn time_runs(alloc: Global, stts: &[u8], count: u32) -> Result<Vec<TimeRun>, AllocError>
    requires { 8 + 8 * count ≤ length stts.now }
    ensures { IfOk result (λ runs. time_runs runs.items ≡ run_pairs count (drop 8 stts.now)) }
{
    let mut runs = Vec::with_capacity(alloc, count as usize)?;
    for i in 0..count as usize {
        runs.push(TimeRun {
            count: read_u32(stts, 8 + 8 * i),
            delta: read_u32(stts, 12 + 8 * i),
        })?;
    }
    Ok(runs)
}

/// The runs of deltas that a decoding time box says, in ticks, or the first thing that is wrong with it.
#[tactic(auto, unfolding(crate::specs::SampleTables::runs_told))]
pub fn read_stts(alloc: Global, head: BoxHead, body: &[u8]) -> Result<Items<TimeRun>, TableFault>
    ensures { Gives TableFault.NoMemory time_runs result (runs_told (boxed head body.now)) }
{
    let count = counted(8, head, body)?;
    let runs = time_runs(alloc, body, count)?;
    Ok(Items::from_vec(runs))
}
