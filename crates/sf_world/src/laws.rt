//! What holds of sinks that grow, and of files that are kept.

ghost use Rattle.std.specs.Prelude.{◌≡◌, ℕ, List, [], ◌∷◌, ◌++◌, Option, Some, is_some};
ghost use Rattle.sf_world.specs.Contents.{grown, shelved};
ghost use Rattle.sf_world.specs.Views.{Gains, GainsPart, KeptFile, KeptSome, ShelfView, SinkView, with_kept};

/// A law: bytes that contents gain one after the other are gained together, and no bytes change nothing.
#[tactic(auto, using(crate::proofs::GrownLemmas::grown_facts))]
pub fn contents_grow()
    ensures none { (content : Option (List ℕ)) → grown content [] ≡ content }
    ensures twice { (content : Option (List ℕ)) (a b : List ℕ) → grown (grown content a) b ≡ grown content (a ++ b) }
{}

/// A law: what a sink gains of some bytes it gains of those bytes with others after them.
#[tactic(auto, using(crate::proofs::GrownLemmas::grown_facts))]
pub fn parts_grow()
    ensures none { (bytes : List ℕ) (before after : SinkView) → after ≡ before → GainsPart bytes before after }
    ensures all { (bytes : List ℕ) (before after : SinkView) → Gains bytes before after → GainsPart bytes before after }
    ensures front { (a b : List ℕ) (before after : SinkView) → GainsPart a before after → GainsPart (a ++ b) before after }
    ensures after { (a b : List ℕ) (before middle after : SinkView) → Gains a before middle → GainsPart b middle after → GainsPart (a ++ b) before after }
    ensures twice { (a b : List ℕ) (before middle after : SinkView) → Gains a before middle → Gains b middle after → Gains (a ++ b) before after }
{}

/// A law: a sink that a shelf made and kept is one more file of the shelf, of the bytes that it holds or, where
/// it doesn't tell them, of some bytes.
#[tactic(auto, using(crate::proofs::KeptLemmas::kept_facts))]
pub fn kept_is_a_file()
    ensures some { (name : List ℕ) (sink : SinkView) (before middle after : ShelfView) → middle.names ≡ before.names ++ name ∷ []
        → middle.files ≡ before.files → after ≡ with_kept sink middle → is_some after.files ≡ is_some middle.files → KeptSome name before after }
    ensures told { (name file : List ℕ) (sink : SinkView) (before middle after : ShelfView) → middle.names ≡ before.names ++ name ∷ []
        → middle.files ≡ before.files → after ≡ with_kept sink middle → shelved middle.files sink.content ≡ shelved middle.files (Some file)
        → KeptFile name file before after }
{}
