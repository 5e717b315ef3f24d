//! What holds of boxes and of the numbers in them, over bytes alone. The crates above build on these laws.

ghost use Rattle.std.specs.Prelude.{◌≡◌, ℕ, ◌+◌, ◌-◌, ◌^◌, ◌<◌, Bool, false, List, [], ◌∷◌, ◌++◌, length, drop, map, Some, Result, Ok, Err};
ghost use Rattle.std.specs.List.{AllByRecursion};
ghost use Rattle.sf_box.specs.declared.types.BoxHead.{BoxHead};
ghost use Rattle.sf_box.specs.declared.types.BoxFault.{BoxFault};
ghost use Rattle.sf_box.specs.Boxes.{Piece, be16, be32, be64, word16, word32, word64, box_of, wide_box, opened, head_of, first_then, with_first, joined_with, piece_of, boxes, leading};
ghost use Rattle.sf_box.specs.Parts.{Fits, Part, laid, part_of, parts, tiled};

/// A law: a number that was written is read back, whatever follows it.
#[tactic(auto, using(crate::proofs::BoxLaws::number_laws))]
pub fn numbers_read_back()
    ensures half { (n : ℕ) (rest : List ℕ) → n < 2 ^ 16 → word16 (be16 n ++ rest) ≡ n }
    ensures word { (n : ℕ) (rest : List ℕ) → n < 2 ^ 32 → word32 (be32 n ++ rest) ≡ n }
    ensures wide { (n : ℕ) (rest : List ℕ) → n < 2 ^ 64 → word64 (be64 n ++ rest) ≡ n }
    ensures behind_half { (n : ℕ) (rest : List ℕ) → drop 2 (be16 n ++ rest) ≡ rest }
    ensures behind_word { (n : ℕ) (rest : List ℕ) → drop 4 (be32 n ++ rest) ≡ rest }
    ensures behind_wide { (n : ℕ) (rest : List ℕ) → drop 8 (be64 n ++ rest) ≡ rest }
{}

/// A law: how many bytes numbers, boxes and boxes one after the other take.
#[tactic(auto, using(crate::proofs::BoxLaws::length_laws))]
pub fn written_lengths()
    ensures half { (n : ℕ) → length (be16 n) ≡ 2 }
    ensures word { (n : ℕ) → length (be32 n) ≡ 4 }
    ensures wide { (n : ℕ) → length (be64 n) ≡ 8 }
    ensures whole { (kind body : List ℕ) → length kind ≡ 4 → length (box_of kind body) ≡ 8 + length body }
    ensures wide_whole { (kind body : List ℕ) → length kind ≡ 4 → length (wide_box kind body) ≡ 16 + length body }
    ensures head { (kind : List ℕ) → length kind ≡ 4 → length (opened kind) ≡ 8 }
    ensures none { length (tiled []) ≡ 0 }
    ensures more { (p : Part) (ps : List Part) → length p.0 ≡ 4 → length (tiled (p ∷ ps)) ≡ 8 + length p.1 + length (tiled ps) }
    ensures together { (ps qs : List Part) → tiled (ps ++ qs) ≡ tiled ps ++ tiled qs }
{}

/// A law: the boxes of bytes are the box of the head that begins them and the boxes of the rest, or the
/// first fault, and no bytes hold none. `read_head` is one such step.
#[tactic(auto, using(crate::proofs::BoxLaws::step_laws))]
pub fn boxes_by_steps(top: bool)
    ensures none { (at : ℕ) → boxes top at [] ≡ Ok [] }
    ensures step { (at : ℕ) (bytes : List ℕ) → 0 < length bytes
        → boxes top at bytes ≡ first_then (head_of top at bytes) (λ h. with_first (piece_of h bytes) (boxes top (at + h.size) (drop h.size bytes))) }
    ensures one { (at : ℕ) (bytes : List ℕ) (h : BoxHead) → head_of top at bytes ≡ Ok h
        → boxes top at bytes ≡ with_first (piece_of h bytes) (boxes top (at + h.size) (drop h.size bytes)) }
    ensures fault { (at : ℕ) (bytes : List ℕ) (f : BoxFault) → 0 < length bytes → head_of top at bytes ≡ Err f → boxes top at bytes ≡ Err f }
{}

/// A law of a walk: the boxes that were met and those of the rest stay the same list from step to step.
#[tactic(auto, using(crate::proofs::BoxLaws::walk_laws))]
pub fn boxes_met(top: bool)
    ensures goes { (at : ℕ) (rest : List ℕ) (h : BoxHead) (front : List Piece) (all : Result (List Piece) BoxFault)
        → head_of top at rest ≡ Ok h → joined_with front (boxes top at rest) ≡ all
        → joined_with (front ++ piece_of h rest ∷ []) (boxes top (at + h.size) (drop h.size rest)) ≡ all }
    ensures stops { (at : ℕ) (rest : List ℕ) (f : BoxFault) (front : List Piece) (all : Result (List Piece) BoxFault)
        → 0 < length rest → head_of top at rest ≡ Err f → joined_with front (boxes top at rest) ≡ all → all ≡ Err f }
    ensures ends { (at : ℕ) (rest : List ℕ) (front : List Piece) (all : Result (List Piece) BoxFault)
        → length rest ≡ 0 → joined_with front (boxes top at rest) ≡ all → all ≡ Ok front }
{}

/// A law: a box that was written is read as this box, whatever follows it.
#[tactic(auto, using(crate::proofs::BoxLaws::box_laws))]
pub fn box_read_back(top: bool)
    ensures head { (at : ℕ) (kind body rest : List ℕ) → length kind ≡ 4 → length body < 2 ^ 32 - 8
        → head_of top at (box_of kind body ++ rest) ≡ Ok (record { kind = record { 0 = kind }; at = at; head = 8; size = 8 + length body }) }
    ensures body { (kind body : List ℕ) → length kind ≡ 4 → drop 8 (box_of kind body) ≡ body }
    ensures whole { (at : ℕ) (kind body rest : List ℕ) → length kind ≡ 4 → length body < 2 ^ 32 - 8
        → boxes top at (box_of kind body ++ rest)
        ≡ with_first (record { head = record { kind = record { 0 = kind }; at = at; head = 8; size = 8 + length body }; body = body }) (boxes top (at + (8 + length body)) rest) }
    ensures wide { (at : ℕ) (kind body rest : List ℕ) → length kind ≡ 4 → 16 + length body < 2 ^ 64
        → boxes top at (wide_box kind body ++ rest)
        ≡ with_first (record { head = record { kind = record { 0 = kind }; at = at; head = 16; size = 16 + length body }; body = body }) (boxes top (at + (16 + length body)) rest) }
{}

/// A law: boxes that were written one after the other are read as these boxes, each at its place.
#[tactic(auto, using(crate::proofs::BoxLaws::tiled_laws))]
pub fn tiled_read_back(top: bool)
    ensures all { (at : ℕ) (ps : List Part) → AllByRecursion Fits ps → boxes top at (tiled ps) ≡ Ok (laid at ps) }
    ensures front { (at : ℕ) (ps : List Part) (rest : List ℕ) → AllByRecursion Fits ps
        → boxes top at (tiled ps ++ rest) ≡ joined_with (laid at ps) (boxes top (at + length (tiled ps)) rest) }
    ensures places { (at : ℕ) (ps qs : List Part) → AllByRecursion Fits ps → laid at (ps ++ qs) ≡ laid at ps ++ laid (at + length (tiled ps)) qs }
    ensures same { (at : ℕ) (ps : List Part) → map part_of (laid at ps) ≡ ps }
    ensures parts { (ps : List Part) → AllByRecursion Fits ps → parts top (tiled ps) ≡ Some ps }
{}

/// A law: where boxes tile the bytes, the boxes up to the first fault are all of them.
#[tactic(auto, using(crate::proofs::BoxLaws::leading_boxes))]
pub fn all_are_leading()
    ensures { (at : ℕ) (bytes : List ℕ) (ps : List Piece) → boxes false at bytes ≡ Ok ps → leading at bytes ≡ ps }
{}

/// A law: the boxes up to the first place that is no whole box are the box of the head that begins the
/// bytes and those of the rest, and none where no head begins them.
#[tactic(auto, using(crate::proofs::BoxLaws::leading_laws))]
pub fn leading_by_steps()
    ensures none { (at : ℕ) → leading at [] ≡ [] }
    ensures step { (at : ℕ) (bytes : List ℕ) (h : BoxHead) → head_of false at bytes ≡ Ok h
        → leading at bytes ≡ piece_of h bytes ∷ leading (at + h.size) (drop h.size bytes) }
    ensures ends { (at : ℕ) (bytes : List ℕ) (f : BoxFault) → head_of false at bytes ≡ Err f → leading at bytes ≡ [] }
{}
