//! The composition offset box (ISO/IEC 14496-12, 8.6.1.3), as it is read.

ghost use Rattle.std.specs.Prelude.{◌≡◌};
ghost use Rattle.sf_meaning.specs.Answers.{Gives};
ghost use Rattle.sf_meaning.specs.ReadTables.{time_runs};
ghost use Rattle.sf_meaning.specs.Steps.{boxed};
ghost use Rattle.sf_meaning.specs.SampleTables.{runs_told, offset_runs_told};

use crate::counts::counted;
use crate::entries::TimeRun;
use crate::faults::TableFault;
use crate::stts::time_runs;
use sf_box::BoxHead;
use sf_list::Items;
use std::alloc::Global;

/// The version of a composition offset box, which tells how its offsets are read, and its runs of offsets
/// as they stand in the file, or the first thing that is wrong with it.
#[tactic(auto, unfolding(crate::specs::SampleTables::runs_told, crate::specs::SampleTables::offset_runs_told))]
pub fn read_ctts(
    alloc: Global,
    head: BoxHead,
    body: &[u8],
) -> Result<(u8, Items<TimeRun>), TableFault>
    ensures { Gives TableFault.NoMemory (λ x. (x.0, time_runs x.1)) result (offset_runs_told (boxed head body.now)) }
{
    let count = counted(8, head, body)?;
    let runs = time_runs(alloc, body, count)?;
    Ok((body[0], Items::from_vec(runs)))
}
