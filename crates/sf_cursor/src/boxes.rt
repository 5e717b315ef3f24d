//! The boxes in a sample table box.

ghost use Rattle.std.specs.Prelude.{false, ◌+◌, ◌^◌, ◌<◌, length};
ghost use Rattle.sf_box.specs.Boxes.{boxes};
ghost use Rattle.sf_meaning.specs.Answers.{Gives};
ghost use Rattle.sf_meaning.specs.Steps.{as_fault};
ghost use Rattle.sf_meaning.specs.inner.Found.{pieces};
ghost use Rattle.sf_meaning.specs.declared.faults.TableFault.TheVariants as faults;

use sf_box::{BoxFault, ChildrenFault};
use sf_list::Items;
use sf_meaning::{Found, TableFault, boxes_in};
use std::alloc::Global;

/// The boxes that tile the body of a sample table box, which begins at a place.
pub(crate) fn table_boxes<'a>(
    alloc: Global,
    stbl: &'a [u8],
    base: u64,
) -> Result<Items<Found<'a>>, TableFault>
    requires { base + length stbl.now < 2 ^ 64 }
    ensures { Gives TableFault.NoMemory pieces result (as_fault faults.Tiling (boxes false base stbl.now)) }
{
    match boxes_in(alloc, stbl, base) {
        Ok(boxes) => Ok(boxes),
        Err(ChildrenFault::Short { at }) => Err(TableFault::Tiling(BoxFault::Short { at })),
        Err(ChildrenFault::Overrun { at, size }) => {
            Err(TableFault::Tiling(BoxFault::Overrun { at, size }))
        }
        Err(ChildrenFault::NoMemory) => Err(TableFault::NoMemory),
    }
}
