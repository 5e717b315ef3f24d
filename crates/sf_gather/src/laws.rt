//! What holds of samples and chunks, over lists alone. The crates above build on these laws.

ghost use Rattle.std.specs.Prelude.{◌≡◌, ℕ, ◌+◌, true, false, Option, None, List, [], ◌∷◌, ◌++◌, length, IfSome, IsSome};
ghost use Rattle.sf_tick.specs.Samples.{samples_of};
ghost use Rattle.sf_tick.specs.declared.types.Stored.{Stored};
ghost use Rattle.sf_tick.specs.declared.types.Chunk.{Chunk};
ghost use Rattle.std.specs.List.{AllByRecursion};
ghost use Rattle.sf_tick.specs.declared.types.Sample.{Sample};
ghost use Rattle.sf_gather.specs.declared.given.LastSample.{LastSample};
ghost use Rattle.sf_gather.specs.Accepting.{IsOfSample, IsSized, last_from, last_of, plain, refusal, stored_of};
ghost use Rattle.sf_gather.specs.Chunks.{belongs, chunk_of, chunks, chunks_from, closed, front};
ghost use Rattle.sf_gather.specs.Proper.{AllFollow, Extends, Proper, tail_of};

use super::given::Given;

/// A law: from each chunk on, that chunk is the longest front of the samples left whose every later
/// sample belongs to the chunk so far, and the sample after it begins the next chunk.
pub fn longest_front(given: Given)
    ensures whole { (number : ℕ) (so_far samples : List Stored) → front given so_far samples ≡ samples
        → chunks_from given number so_far samples ≡ chunk_of given number true (so_far ++ samples) ∷ [] }
    ensures cut { (number : ℕ) (so_far samples rest : List Stored) (next : Stored) → samples ≡ front given so_far samples ++ next ∷ rest
        → chunks_from given number so_far samples
        ≡ chunk_of given number false (so_far ++ front given so_far samples) ∷ chunks_from given (number + 1) (next ∷ []) rest }
{}

/// A law: one more sample at the end of a list grows its last chunk or closes it.
pub fn one_more_sample(given: Given)
    ensures grows { (samples : List Stored) (next : Stored) (last : Chunk) → chunks given samples ≡ closed given samples ++ last ∷ []
        → belongs given last.samples next ≡ true
        → chunks given (samples ++ next ∷ []) ≡ closed given samples ++ chunk_of given last.number true (last.samples ++ next ∷ []) ∷ [] }
    ensures closes { (samples : List Stored) (next : Stored) (last : Chunk) → chunks given samples ≡ closed given samples ++ last ∷ []
        → belongs given last.samples next ≡ false
        → chunks given (samples ++ next ∷ [])
        ≡ closed given samples ++ chunk_of given last.number false last.samples ∷ chunk_of given (last.number + 1) true (next ∷ []) ∷ [] }
{}

/// A law: the closed chunks of a list stay the first ones, whatever samples follow.
pub fn closed_chunks_stay(given: Given)
    ensures { (samples more : List Stored) → (rest : List Chunk) × (chunks given (samples ++ more) ≡ closed given samples ++ rest) }
{}

/// A law: the samples in front of the first one that is refused are accepted one after the other,
/// and where one more is accepted after them all, it is one of theirs.
pub fn accepted_samples(given: Given)
    ensures follow { (samples : List Sample) → AllByRecursion IsSized samples → AllFollow given.scale None (plain given samples) }
    ensures more { (samples : List Sample) (next : Sample) → length (plain given samples) ≡ length samples
        → refusal given (last_of (plain given samples)) next ≡ None
        → plain given (samples ++ next ∷ []) ≡ plain given samples ++ stored_of given next ∷ [] }
    ensures stops { (samples rest : List Sample) (next : Sample) → length (plain given samples) ≡ length samples
        → IsSome (refusal given (last_of (plain given samples)) next)
        → plain given (samples ++ next ∷ rest) ≡ plain given samples }
{}

/// A law: the chunks of accepted samples hold these in order, and are proper.
pub fn proper_chunks(given: Given)
    ensures samples { (samples : List Stored) → samples_of (chunks given samples) ≡ samples }
    ensures front { (number : ℕ) (so_far samples : List Stored) → samples_of (chunks_from given number so_far samples) ≡ so_far ++ samples }
    ensures proper { (samples : List Stored) → AllFollow given.scale None samples → Proper given.track given.scale (chunks given samples) }
{}

/// A law: a front of a proper list is proper, and whether one more chunk keeps it proper depends on
/// the list by its tail alone.
pub fn proper_by_tail(track: u32, scale: u32)
    ensures front { (chunks more : List Chunk) → Proper track scale (chunks ++ more) → Proper track scale chunks }
    ensures only { (chunks : List Chunk) (next : Chunk) → Proper track scale (chunks ++ next ∷ []) → Extends track scale (tail_of chunks) next }
    ensures enough { (chunks : List Chunk) (next : Chunk) → Proper track scale chunks → Extends track scale (tail_of chunks) next
        → Proper track scale (chunks ++ next ∷ []) }
{}

/// A law: two lists of samples follow one after the other where the first follows an earlier last sample
/// and the second follows the last of the first.
#[tactic(auto, using(crate::proofs::GatherLaws::follow_laws))]
pub fn following_samples(scale: u32)
    ensures apart { (last : Option LastSample) (xs ys : List Stored) → AllFollow scale last (xs ++ ys)
        → AllFollow scale last xs × AllFollow scale (last_from last xs) ys }
    ensures together { (last : Option LastSample) (xs ys : List Stored) → AllFollow scale last xs → AllFollow scale (last_from last xs) ys
        → AllFollow scale last (xs ++ ys) }
    ensures last { (last : Option LastSample) (xs ys : List Stored) → last_from last (xs ++ ys) ≡ last_from (last_from last xs) ys }
{}

/// A law: a sample is refused by a rule, and never for want of memory.
#[tactic(auto, using(crate::proofs::GatherLaws::refusal_tells))]
pub fn refusals_tell_of_samples(given: Given)
    ensures { (last : Option LastSample) (sample : Sample) → IfSome (refusal given last sample) IsOfSample }
{}
