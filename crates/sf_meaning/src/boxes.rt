//! Boxes that were found, with their bodies.

ghost use Rattle.std.specs.Prelude.{◌≡◌, ℕ, ◌+◌, ◌^◌, ◌<◌, length, map, IfOk};
ghost use Rattle.sf_box.specs.Parts.{child_piece};
ghost use Rattle.sf_box.specs.Reading.{Within, piece_at};
ghost use Rattle.sf_meaning.specs.inner.Found.{piece, pieces, maybe_piece, GivesBoxes};
ghost use Rattle.sf_meaning.specs.Steps.{of_kind};

use crate::found::Found;
use sf_box::{BoxHead, ChildrenFault, FourCc, body, children};
use sf_list::Items;
use std::alloc::{AllocError, Global};

// The box of a head that lies within bytes.
fn found<'a>(bytes: &'a [u8], at: u64, head: BoxHead) -> Found<'a>
    requires place { at + length bytes.now < 2 ^ 64 }
    requires within { Within at bytes.now head }
    ensures { piece result ≡ piece_at at bytes.now head }
{
    Found {
        head,
        body: body(bytes, at, head),
    }
}

/// The boxes that tile bytes from a place on.
pub fn boxes_in<'a>(
    alloc: Global,
    bytes: &'a [u8],
    at: u64,
) -> Result<Items<Found<'a>>, ChildrenFault>
    requires { at + length bytes.now < 2 ^ 64 }
    ensures { GivesBoxes at bytes.now result }
{
    let heads = children(alloc, bytes, at)?;
    let mut boxes = Items::new(alloc);
    for head in heads.as_slice() {
        if boxes.push(found(bytes, at, *head)).is_err() {
            return Err(ChildrenFault::NoMemory);
        }
    }
    Ok(boxes)
}

/// The first box of a type.
pub(crate) fn first<'a>(boxes: &[Found<'a>], kind: FourCc) -> Option<Found<'a>>
    ensures { maybe_piece result ≡ child_piece (pieces boxes.now) kind.0 }
{
    for found in boxes {
        if found.head.kind == kind {
            return Some(*found);
        }
    }
    None
}

/// The boxes of a type, in order.
pub fn of_kind<'a>(
    alloc: Global,
    boxes: &[Found<'a>],
    kind: FourCc,
) -> Result<Vec<Found<'a>>, AllocError>
    ensures { IfOk result (λ found. pieces found.items ≡ of_kind kind.0 (pieces boxes.now)) }
{
    let mut all = Vec::new(alloc);
    for found in boxes {
        if found.head.kind == kind {
            all.push(*found)?;
        }
    }
    Ok(all)
}
