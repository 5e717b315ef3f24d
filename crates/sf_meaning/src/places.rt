//! The chunk offset box (ISO/IEC 14496-12, 8.7.5), with places of four bytes or of eight, as it is read.

ghost use Rattle.std.specs.Prelude.{◌≡◌, ◌^◌, ◌<◌, length, IfOk};
ghost use Rattle.sf_meaning.specs.Answers.{Gives};
ghost use Rattle.sf_meaning.specs.Steps.{boxed};
ghost use Rattle.sf_meaning.specs.SampleTables.{places_told};

use crate::counts::counted;
use crate::faults::TableFault;
use crate::numbers::{wide_words, words};
use crate::place_list::PlaceList;
use sf_box::{BoxHead, FourCc};
use std::alloc::Global;

/// The places of the chunks that a chunk offset box says, `stco` or `co64`, in bytes from the start of the
/// file, or the first thing that is wrong with it.
#[tactic(auto, using(crate::proofs::SizeLemmas::length_words, crate::proofs::SizeLemmas::length_wide_words), unfolding(crate::specs::SampleTables::places_told))]
pub fn read_places(alloc: Global, head: BoxHead, body: &[u8]) -> Result<PlaceList, TableFault>
    ensures places { Gives TableFault.NoMemory (λ places. places) result (places_told (boxed head body.now)) }
    ensures few { IfOk result (λ places. length places < 2 ^ 32) }
{
    if head.kind == FourCc(*b"co64") {
        let count = counted(8, head, body)?;
        let places = wide_words(alloc, body, 8, count)?;
        return Ok(PlaceList::of_eight(places));
    }
    let count = counted(4, head, body)?;
    let places = words(alloc, body, 8, count)?;
    Ok(PlaceList::of_four(places))
}
