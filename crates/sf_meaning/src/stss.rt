//! The sync sample box (ISO/IEC 14496-12, 8.6.2), as it is read.

ghost use Rattle.std.specs.Prelude.{◌≡◌, IfOk, true};
ghost use Rattle.sf_meaning.specs.Answers.{Gives};
ghost use Rattle.sf_meaning.specs.Steps.{boxed};
ghost use Rattle.sf_meaning.specs.SampleTables.{numbers_told};
ghost use Rattle.sf_meaning.specs.Tables.{rising};

use crate::counts::counted;
use crate::faults::TableFault;
use crate::numbers::words;
use sf_box::BoxHead;
use sf_list::Items;
use std::alloc::Global;

// Whether numbers rise, the first above 0.
pub(crate) fn are_rising(numbers: &[u32]) -> bool
    ensures { result ≡ rising 0 numbers.now }
{
    let mut last = 0;
    for number in numbers {
        if *number <= last {
            return false;
        }
        last = *number;
    }
    true
}

/// The numbers of a sync sample box, from 1 and in order, or the first thing that is wrong with it.
#[tactic(auto, unfolding(crate::specs::SampleTables::numbers_told))]
pub fn read_stss(alloc: Global, head: BoxHead, body: &[u8]) -> Result<Items<u32>, TableFault>
    ensures numbers { Gives TableFault.NoMemory (λ numbers. numbers) result (numbers_told (boxed head body.now)) }
    ensures rising { IfOk result (λ numbers. rising 0 numbers ≡ true) }
{
    let count = counted(4, head, body)?;
    let numbers = words(alloc, body, 8, count)?;
    if !are_rising(&numbers) {
        return Err(TableFault::NotRising {
            kind: head.kind,
            at: head.at,
        });
    }
    Ok(Items::from_vec(numbers))
}
