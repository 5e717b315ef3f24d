//! What holds of written files, over their chunks alone. The crates above build on these laws.

ghost use Rattle.std.specs.Prelude.{◌≡◌, ℕ, ◌+◌, ◌^◌, ◌<◌, ◌≤◌, List, [], ◌∷◌, ◌++◌, length, set, map, codes, Some, Ok};
ghost use Rattle.std.specs.List.{AllByRecursion, flat_map, slice_get};
ghost use Rattle.sf_box.specs.Boxes.{box_of, be32, be64};
ghost use Rattle.sf_tick.specs.declared.types.Chunk.{Chunk};
ghost use Rattle.sf_tick.specs.declared.types.Setup.{Setup};
ghost use Rattle.sf_entry.specs.TrackSetup.{made};
ghost use Rattle.sf_entry.specs.declared.track_setup.TrackSetup.{TrackSetup};
ghost use Rattle.sf_entry.specs.declared.types.EntryAt.{EntryAt};
ghost use Rattle.sf_meaning.specs.Entries.{movie_entries};
ghost use Rattle.sf_meaning.specs.Groups.{groups};
ghost use Rattle.sf_meaning.specs.Joined.{begins_at, content, joined};
ghost use Rattle.sf_meaning.specs.Rows.{decodes_of, held_as, timed};
ghost use Rattle.sf_layout.specs.Headers.{ftyp_body};
ghost use Rattle.sf_meaning.specs.Stbl.{ticks_of, timed_of};
ghost use Rattle.sf_meaning.specs.Movie.{movie};
ghost use Rattle.sf_meaning.specs.Written.{held_since};
ghost use Rattle.sf_layout.specs.Layout.{TrackRows, layout, movie_box, row_at, samples_of, start_of, stored_bytes, track_rows, track_samples, track_with, tracks_from, tracks_of};
ghost use Rattle.sf_layout.specs.Written.{HaveEntries, base_of, track_groups, written_movie};
ghost use Rattle.sf_layout.specs.Writable.{AllWritable, IsReadBack, Writable};

/// The law of a written file: it is read as the movie of its chunks, and each track of it holds the samples
/// of its own chunks, each once, in order, with times that count from the track's first sample. The tick at
/// which such a track begins, by the file's start and the track's lead, is that of its first sample.
#[tactic(auto, using(crate::proofs::LayoutLaws::movie_laws))]
pub fn layout_is_movie()
    ensures movie { (setups : List TrackSetup) (chunks : List Chunk) → Writable setups chunks
        → movie (layout setups chunks) ≡ Ok (written_movie setups chunks) }
    ensures content { (setups : List TrackSetup) (chunks : List Chunk) (t : ℕ) → Writable setups chunks → t < length setups
        → content (layout setups chunks) t ≡ Some (map (held_since (base_of t chunks)) (track_samples t chunks)) }
    ensures begins { (setups : List TrackSetup) (chunks : List Chunk) (t : ℕ) → Writable setups chunks → t < length setups → 0 < length (track_samples t chunks)
        → begins_at (layout setups chunks) t ≡ Some (base_of t chunks) }
    ensures groups { (setups : List TrackSetup) (chunks : List Chunk) (t : ℕ) → Writable setups chunks → t < length setups
        → groups (layout setups chunks) t ≡ Some (track_groups (base_of t chunks) t 40 chunks) }
{}

/// A law: the sample entries of a written file are those of its setups, one list for each track, in order.
#[tactic(auto, using(crate::proofs::LayoutLaws::layout_entries))]
pub fn layout_has_entries()
    ensures { (setups : List TrackSetup) (chunks : List Chunk) → Writable setups chunks
        → (entries : List (List EntryAt)) × (movie_entries (layout setups chunks) ≡ Ok entries) × HaveEntries setups entries }
{}

/// A law: the samples of a track of files that were laid out, joined in order, are those of the track's
/// chunks, each once, in order, with their bytes, their sync flags and their times from the series' start.
#[tactic(auto, using(crate::proofs::LayoutLaws::joined_laws))]
pub fn layouts_are_read_back()
    ensures one { (setups : List TrackSetup) (chunks : List Chunk) (t : ℕ) → Writable setups chunks → t < length setups
        → joined (layout setups chunks ∷ []) t ≡ Some (map held_as (track_samples t chunks)) }
    ensures all { (setups : List TrackSetup) (files : List (List Chunk)) (t : ℕ) → AllByRecursion (Writable setups) files → t < length setups
        → joined (map (layout setups) files) t ≡ Some (map held_as (flat_map (track_samples t) files)) }
{}

/// A law: the sample entry that is made of a setup is read back, as one of the setup's kind.
#[tactic(auto, using(crate::proofs::LayoutLaws::made_entry))]
pub fn made_entries_are_read_back()
    ensures { (setup : Setup) (track : TrackSetup) → length setup.config ≤ 65536 → made setup ≡ Ok track → IsReadBack track }
{}

/// A law: one more chunk adds its bytes to those that are stored, and a row and its samples to its own track,
/// whose rows stand from a place on; every other track stays as it is.
#[tactic(auto, using(crate::proofs::LayoutLaws::growth_laws))]
pub fn one_more_chunk()
    ensures bytes { (chunks : List Chunk) (c : Chunk) → stored_bytes (samples_of (chunks ++ c ∷ [])) ≡ stored_bytes (samples_of chunks) ++ stored_bytes c.samples }
    ensures samples { (t : ℕ) (chunks : List Chunk) (c : Chunk) → c.track ≡ t → track_samples t (chunks ++ c ∷ []) ≡ track_samples t chunks ++ c.samples }
    ensures rows { (t at : ℕ) (chunks : List Chunk) (c : Chunk) → c.track ≡ t
        → track_rows t at (chunks ++ c ∷ []) ≡ track_rows t at chunks ++ row_at (at + length (stored_bytes (samples_of chunks))) c ∷ [] }
    ensures tracks { (setups : List TrackSetup) (chunks : List Chunk) (c : Chunk) (t : TrackRows) → slice_get (tracks_of setups chunks) c.track ≡ Some t
        → tracks_of setups (chunks ++ c ∷ []) ≡ set (tracks_of setups chunks) c.track (track_with t (40 + length (stored_bytes (samples_of chunks))) c) }
    ensures other_samples { (t : ℕ) (chunks : List Chunk) (c : Chunk) → (c.track ≡ t → ⊥) → track_samples t (chunks ++ c ∷ []) ≡ track_samples t chunks }
    ensures other_rows { (t at : ℕ) (chunks : List Chunk) (c : Chunk) → (c.track ≡ t → ⊥) → track_rows t at (chunks ++ c ∷ []) ≡ track_rows t at chunks }
{}

/// A law: a track's tables list the track's samples, in order, wherever its chunks stand.
#[tactic(auto, using(crate::proofs::LayoutLaws::row_laws))]
pub fn rows_list_samples()
    ensures samples { (t at : ℕ) (chunks : List Chunk) → timed_of (track_rows t at chunks) ≡ map timed (track_samples t chunks) }
    ensures ticks { (t at : ℕ) (chunks : List Chunk) → ticks_of (track_rows t at chunks) ≡ decodes_of (track_samples t chunks) }
{}

/// A law: the stored bytes of chunks that are read back end at a place below 2^64, and the file's
/// start is in the first 2^48 microseconds.
#[tactic(auto, using(crate::proofs::LayoutLaws::bound_laws))]
pub fn bounds_of_files()
    ensures payload { (setups : List TrackSetup) (chunks : List Chunk) → Writable setups chunks → 40 + length (stored_bytes (samples_of chunks)) < 2 ^ 64 }
    ensures start { (number : ℕ) (setups : List TrackSetup) (chunks : List Chunk) → AllWritable number setups chunks → start_of (tracks_from number setups chunks) ≤ 2 ^ 48 }
{}

/// A law: a file is its head, which ends with the size of the media data, the stored bytes and the movie box,
/// and holds a track for each setup.
#[tactic(auto, using(crate::proofs::LayoutLaws::part_laws))]
pub fn files_by_parts()
    ensures parts { (setups : List TrackSetup) (chunks : List Chunk)
        → layout setups chunks
        ≡ (box_of (codes "ftyp") ftyp_body ++ (be32 1 ++ (codes "mdat" ++ be64 (16 + length (stored_bytes (samples_of chunks)))))) ++ (stored_bytes (samples_of chunks) ++ movie_box (tracks_of setups chunks)) }
    ensures length { (setups : List TrackSetup) (chunks : List Chunk)
        → length (layout setups chunks) ≡ 40 + length (stored_bytes (samples_of chunks)) + length (movie_box (tracks_of setups chunks)) }
    ensures tracks { (setups : List TrackSetup) (chunks : List Chunk) → length (tracks_of setups chunks) ≡ length setups }
{}
