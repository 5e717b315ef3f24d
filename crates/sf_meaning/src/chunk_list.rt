//! The chunks of a track, each with its place and what holds in it (ISO/IEC 14496-12, 8.7.4, 8.7.5).

ghost use Rattle.std.specs.Prelude.{◌≡◌, ℕ, ◌-◌, ◌^◌, ◌<◌, true, ◌∷◌, length, take, IfOk};
ghost use Rattle.sf_meaning.specs.inner.Entries.{spreads_as, held_as_listed, places_as, from_chunk, firsts};
ghost use Rattle.sf_meaning.specs.SampleTables.{begins_rising};
ghost use Rattle.sf_meaning.specs.Tables.{chunk_entries, spread_over, rising};

use crate::entries::{ChunkAt, ChunkRun};
use crate::place_list::PlaceList;
use std::alloc::{AllocError, Global};

// The entry that holds for a chunk, and those after it, where the current one holds up to it.
fn entry_for<'a>(
    number: u32,
    current: ChunkRun,
    behind: &'a [ChunkRun],
) -> (ChunkRun, &'a [ChunkRun])
    requires { rising (number - 1) (firsts behind.now) ≡ true }
    ensures same { (chunks : ℕ) → spread_over (from_chunk number current ∷ spreads_as behind.entry.now) chunks ≡ spread_over (from_chunk number result.0 ∷ spreads_as result.1.now) chunks }
    ensures rising { rising number (firsts result.1.now) ≡ true }
{
    match behind {
        [next, others @ ..] if next.first == number => (*next, others),
        _ => (current, behind),
    }
}

/// The chunks at these places, with what the sample-to-chunk box says of each.
pub(crate) fn chunk_list(
    alloc: Global,
    runs: &[ChunkRun],
    places: &PlaceList,
) -> Result<Vec<ChunkAt>, AllocError>
    requires rising { begins_rising (spreads_as runs.now) ≡ true }
    requires few { length places.now < 2 ^ 32 }
    ensures held { IfOk result (λ v. held_as_listed v.items ≡ chunk_entries (spreads_as runs.now) (length places.now)) }
    ensures places { IfOk result (λ v. places_as v.items ≡ take (length v.items) places.now) }
{
    let mut chunks = Vec::new(alloc);
    let Some((first, others)) = runs.split_first() else {
        return Ok(chunks);
    };
    let mut current = *first;
    let mut behind = others;
    let count = places.len() as u32;
    for i in 0..count {
        let (held, left) = entry_for(i + 1, current, behind);
        current = held;
        behind = left;
        chunks.push(ChunkAt {
            place: places.at(i as usize),
            per: held.per,
            description: held.description,
        })?;
    }
    Ok(chunks)
}
