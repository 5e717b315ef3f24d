//! Boxes of the headers of a movie.

ghost use Rattle.std.specs.Prelude.{◌≡◌, ◌+◌, ◌^◌, ◌<◌, false, length};
ghost use Rattle.sf_box.specs.Boxes.{boxes};
ghost use Rattle.sf_meaning.specs.Answers.{Gives};
ghost use Rattle.sf_meaning.specs.Headers.{inside, needed_in};
ghost use Rattle.sf_meaning.specs.inner.Found.{piece, pieces};
ghost use Rattle.sf_meaning.specs.Steps.{as_fault};
ghost use Rattle.sf_meaning.specs.declared.faults.HeadFault.TheVariants as heads;

use crate::boxes::{boxes_in, first};
use crate::faults::HeadFault;
use crate::found::Found;
use sf_box::{BoxFault, ChildrenFault, FourCc};
use sf_list::Items;
use std::alloc::Global;

/// The boxes that tile bytes from a place on.
pub fn boxes_at<'a>(alloc: Global, bytes: &'a [u8], at: u64) -> Result<Items<Found<'a>>, HeadFault>
    requires { at + length bytes.now < 2 ^ 64 }
    ensures { Gives HeadFault.NoMemory pieces result (as_fault heads.Tiling (boxes false at bytes.now)) }
{
    match boxes_in(alloc, bytes, at) {
        Ok(boxes) => Ok(boxes),
        Err(ChildrenFault::Short { at }) => Err(HeadFault::Tiling(BoxFault::Short { at })),
        Err(ChildrenFault::Overrun { at, size }) => {
            Err(HeadFault::Tiling(BoxFault::Overrun { at, size }))
        }
        Err(ChildrenFault::NoMemory) => Err(HeadFault::NoMemory),
    }
}

/// The boxes inside a box of the headers.
#[tactic(auto, unfolding(crate::specs::Headers::inside))]
pub(crate) fn inside<'a>(alloc: Global, holder: Found<'a>) -> Result<Items<Found<'a>>, HeadFault>
    ensures { Gives HeadFault.NoMemory pieces result (inside (piece holder.entry)) }
{
    boxes_at(alloc, holder.body, holder.head.at + holder.head.head)
}

/// The first box of a type, which must stand among the boxes of a holder whose body begins at a place.
pub(crate) fn needed_in<'a>(
    at: u64,
    kind: FourCc,
    boxes: &[Found<'a>],
) -> Result<Found<'a>, HeadFault>
    ensures { Gives HeadFault.NoMemory piece result (needed_in at kind.0 (pieces boxes.now)) }
{
    match first(boxes, kind) {
        Some(found) => Ok(found),
        None => Err(HeadFault::Missing { kind, at }),
    }
}
