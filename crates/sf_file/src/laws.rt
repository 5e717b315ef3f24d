//! What holds of the chunks of a written file, and what the file means.

ghost use Rattle.std.specs.Prelude.{◌≡◌, ℕ, ◌+◌, ◌^◌, ◌<◌, ◌≤◌, List, [], ◌∷◌, ◌++◌, length, map, Option, Some, Ok, slice_get};
ghost use Rattle.std.specs.List.{AllByRecursion};
ghost use Rattle.sf_tick.specs.declared.types.Chunk.{Chunk};
ghost use Rattle.sf_entry.specs.declared.track_setup.TrackSetup.{TrackSetup};
ghost use Rattle.sf_meaning.specs.Groups.{groups};
ghost use Rattle.sf_meaning.specs.Joined.{begins_at, content, joined};
ghost use Rattle.sf_meaning.specs.Rows.{held_as};
ghost use Rattle.sf_meaning.specs.Movie.{movie};
ghost use Rattle.sf_meaning.specs.Written.{held_since};
ghost use Rattle.sf_layout.specs.Layout.{layout, movie_box, track_samples, tracks_of};
ghost use Rattle.sf_layout.specs.Writable.{Writable};
ghost use Rattle.sf_layout.specs.Written.{base_of, track_groups, written_movie};
ghost use Rattle.sf_gather.specs.Accepting.{last_of};
ghost use Rattle.sf_gather.specs.Proper.{AllFollow};
ghost use Rattle.sf_file.specs.Open.{Appendable, AreSetups, OpenFile, Stands, closing_box_with, count_of, setups_of};
ghost use Rattle.sf_file.specs.Holdable.{Holdable, IsReadable};

use sf_layout::{layout_is_movie, layouts_are_read_back};

/// A law: a closed file is the movie of its chunks, with the places of their samples. The content and the
/// groups of each of its tracks are those of the track's chunks, and joined they are their samples.
pub fn closed_file_means()
    ensures means { (setups : List TrackSetup) (chunks : List Chunk) (t : ℕ) → Holdable setups chunks → t < length setups
        → joined (layout setups chunks ∷ []) t ≡ Some (map held_as (track_samples t chunks)) }
    ensures movie { (setups : List TrackSetup) (chunks : List Chunk) → Holdable setups chunks
        → movie (layout setups chunks) ≡ Ok (written_movie setups chunks) }
    ensures content { (setups : List TrackSetup) (chunks : List Chunk) (t : ℕ) → Holdable setups chunks → t < length setups
        → content (layout setups chunks) t ≡ Some (map (held_since (base_of t chunks)) (track_samples t chunks)) }
    ensures begins { (setups : List TrackSetup) (chunks : List Chunk) (t : ℕ) → Holdable setups chunks → t < length setups → 0 < length (track_samples t chunks)
        → begins_at (layout setups chunks) t ≡ Some (base_of t chunks) }
    ensures groups { (setups : List TrackSetup) (chunks : List Chunk) (t : ℕ) → Holdable setups chunks → t < length setups
        → groups (layout setups chunks) t ≡ Some (track_groups (base_of t chunks) t 40 chunks) }
{
    layout_is_movie();
    layouts_are_read_back();
}

/// A law: chunks that a file can hold can be written, and the file is read back.
#[tactic(auto, using(crate::proofs::Holdable::holdable_writable))]
pub fn held_chunks_are_writable()
    ensures { (setups : List TrackSetup) (chunks : List Chunk) → Holdable setups chunks → Writable setups chunks }
{}

/// A law: no chunks can be held, of tracks with which a file can begin and that are read back.
pub fn no_chunks()
    ensures { (setups : List TrackSetup) → AreSetups setups → AllByRecursion IsReadable setups → Holdable setups [] }
{}

/// A law: chunks that a file can hold, and one more after them, of one of the tracks, that isn't empty and
/// whose samples follow the track's, can be held where the track's samples are few enough and the movie box
/// isn't too long.
pub fn one_more_chunk()
    ensures { (setups : List TrackSetup) (chunks : List Chunk) (chunk : Chunk) (setup : TrackSetup) → Holdable setups chunks
        → slice_get setups chunk.track ≡ Some setup → 1 ≤ length chunk.samples
        → AllFollow setup.scale (last_of (track_samples chunk.track chunks)) chunk.samples
        → length (track_samples chunk.track (chunks ++ chunk ∷ [])) ≤ 16777216
        → length (movie_box (tracks_of setups (chunks ++ chunk ∷ []))) ≤ 2 ^ 28
        → Holdable setups (chunks ++ chunk ∷ []) }
{}

/// A law: the same for an open file that holds the chunks: how many samples of the chunk's track and how
/// long a movie box it would have with one more is what the file tells before it is appended.
pub fn one_more_appended()
    ensures { (begun : Option (List ℕ)) (chunks : List Chunk) (file : OpenFile) (chunk : Chunk)
        → Stands begun chunks file → (appendable : Appendable file chunk)
        → count_of appendable.track + length chunk.samples ≤ 16777216 → length (closing_box_with file chunk) ≤ 2 ^ 28
        → Holdable (setups_of file) chunks → Holdable (setups_of file) (chunks ++ chunk ∷ []) }
{}
