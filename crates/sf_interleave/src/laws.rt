//! What holds of lists of chunks that wait, over lists alone. The crates above build on these laws.

ghost use Rattle.std.specs.Prelude.{◌≡◌, ◌≤◌, ◌<◌, ◌+◌, ℕ, List, [], ◌∷◌, Some, None, drop, replicate};
ghost use Rattle.std.specs.List.{AllByRecursion};
ghost use Rattle.sf_tick.specs.declared.types.Chunk.{Chunk};
ghost use Rattle.sf_interleave.specs.Waiting.{earliest_front, how_many, list_of, with_chunk, without_front, OfTheirTracks};

/// A law: the chunk that is picked is the first one of its track's list, no first chunk of another track begins
/// before it, and none of a lower track begins with it. None is picked only where no list has a chunk. One
/// fewer waits after a pick.
#[tactic(auto, using(crate::proofs::WaitingLaws::pick_laws))]
pub fn earliest_chunk()
    ensures first { (lists : List (List Chunk)) (chunk : Chunk) → OfTheirTracks 0 lists → earliest_front lists ≡ Some chunk
        → list_of lists chunk.track ≡ chunk ∷ drop 1 (list_of lists chunk.track) }
    ensures least { (lists : List (List Chunk)) (chunk other : Chunk) (rest : List Chunk) (track : ℕ) → earliest_front lists ≡ Some chunk
        → list_of lists track ≡ other ∷ rest → chunk.first_us ≤ other.first_us }
    ensures lowest { (lists : List (List Chunk)) (chunk other : Chunk) (rest : List Chunk) (track : ℕ) → OfTheirTracks 0 lists → earliest_front lists ≡ Some chunk
        → list_of lists track ≡ other ∷ rest → track < chunk.track → chunk.first_us < other.first_us }
    ensures none { (lists : List (List Chunk)) (track : ℕ) → earliest_front lists ≡ None → list_of lists track ≡ [] }
    ensures fewer { (lists : List (List Chunk)) (chunk : Chunk) → OfTheirTracks 0 lists → earliest_front lists ≡ Some chunk
        → how_many (without_front lists chunk.track) + 1 ≡ how_many lists }
    ensures idle { (lists : List (List Chunk)) → earliest_front lists ≡ None → how_many lists ≡ 0 }
{}

/// A law: lists that keep to their tracks, each of which has chunks of its track alone, still do with one more chunk and
/// without a first one.
#[tactic(auto, using(crate::proofs::WaitingLaws::track_laws))]
pub fn lists_keep_to_tracks()
    ensures empty { (tracks : ℕ) → OfTheirTracks 0 (replicate tracks []) }
    ensures more { (lists : List (List Chunk)) (chunk : Chunk) → OfTheirTracks 0 lists → OfTheirTracks 0 (with_chunk lists chunk) }
    ensures fewer { (lists : List (List Chunk)) (track : ℕ) → OfTheirTracks 0 lists → OfTheirTracks 0 (without_front lists track) }
    ensures each { (lists : List (List Chunk)) (track : ℕ) → OfTheirTracks 0 lists → AllByRecursion (λ c. c.track ≡ track) (list_of lists track) }
{}
