//! What holds of movies and of written files, over their bytes alone. The crates above build on these laws.

ghost use Rattle.std.specs.Prelude.{◌≡◌, ℕ, ◌+◌, ◌-◌, ◌^◌, ◌<◌, ◌≤◌, Bool, true, List, [], ◌∷◌, ◌++◌, length, drop, map, codes, Some, Ok};
ghost use Rattle.std.specs.List.{AllByRecursion, slice_get};
ghost use Rattle.sf_box.specs.declared.types.BoxHead.{BoxHead};
ghost use Rattle.sf_box.specs.Boxes.{Piece, be32};
ghost use Rattle.sf_box.specs.Parts.{Part, tiled, laid, Fits, child_piece};
ghost use Rattle.sf_meaning.specs.Accepted.{IsAccepted};
ghost use Rattle.sf_tick.specs.Samples.{samples_of};
ghost use Rattle.sf_tick.specs.declared.types.Chunk.{Chunk};
ghost use Rattle.sf_tick.specs.declared.types.Stored.{Stored};
ghost use Rattle.sf_entry.specs.Stsd.{entries_of, stsd_of};
ghost use Rattle.sf_entry.specs.declared.types.EntryAt.{EntryAt};
ghost use Rattle.sf_meaning.specs.Edits.{shift_of};
ghost use Rattle.sf_meaning.specs.Groups.{counts_in_trak, group_of};
ghost use Rattle.sf_meaning.specs.Headers.{inside, start_in, timescale_in};
ghost use Rattle.sf_meaning.specs.Joined.{held_in_file, later};
ghost use Rattle.sf_meaning.specs.Rows.{decodes_of, held_as, rows_from, stored_bytes, timed};
ghost use Rattle.sf_meaning.specs.WrittenHeaders.{header_times, in_dinf, in_udta};
ghost use Rattle.sf_meaning.specs.Movie.{movie_in};
ghost use Rattle.sf_meaning.specs.References.{references_of};
ghost use Rattle.sf_meaning.specs.TrackHeads.{heads_in, information_in, media_in};
ghost use Rattle.sf_meaning.specs.TrackSamples.{Tables, samples_in};
ghost use Rattle.sf_meaning.specs.Tracks.{TrackParts, held_in, kind_of, parts_in, track_in};
ghost use Rattle.sf_meaning.specs.SampleAt.{IsSampleAt};
ghost use Rattle.sf_meaning.specs.Stbl.{Row, Timed, counts_in_rows, stbl_parts, ticks_of, timed_of};
ghost use Rattle.sf_meaning.specs.Writable.{IsWritable, Tellable};
ghost use Rattle.sf_meaning.specs.Written.{held_since, listed, samples_at};
ghost use Rattle.sf_meaning.specs.declared.elst.Shift.{Shift};
ghost use Rattle.sf_meaning.specs.declared.movie.PlainMovie.{PlainMovie};
ghost use Rattle.sf_meaning.specs.declared.movie.PlainSample.{PlainSample};
ghost use Rattle.sf_meaning.specs.declared.movie.TrackKind.{TrackKind};

/// A law: what the tables of a track say of each of its samples, by itself: the place, the size, the ticks,
/// the flag and the description, in the least chunk whose counts up to it sum past the sample's number.
pub fn samples_one_by_one()
    ensures each { (scale entries : ℕ) (t : Tables) (samples : List PlainSample) → samples_in scale entries t ≡ Ok samples
        → (i : ℕ) (s : PlainSample) → slice_get samples i ≡ Some s → (c : ℕ) × IsSampleAt t i c s }
    ensures all { (scale entries : ℕ) (t : Tables) (samples : List PlainSample) → samples_in scale entries t ≡ Ok samples
        → length samples ≡ length t.sizes }
{}

/// A law: the rows of chunks list the samples of the chunks, and when these are decoded, in order.
#[tactic(auto, using(crate::proofs::MeaningLaws::row_laws))]
pub fn rows_list_samples()
    ensures samples { (place : ℕ) (chunks : List Chunk) → timed_of (rows_from place chunks) ≡ map timed (samples_of chunks) }
    ensures ticks { (place : ℕ) (chunks : List Chunk) → ticks_of (rows_from place chunks) ≡ decodes_of (samples_of chunks) }
{}

/// A law: what holds of a movie that is accepted. It has ticks and at most 64 tracks, and each track has
/// ticks, stays within 2^40 seconds, and has its samples in the file.
pub fn accepted_movies()
    ensures scale { (body : List ℕ) (at bytes : ℕ) (m : PlainMovie) → movie_in body at bytes ≡ Ok m → 1 ≤ m.scale }
    ensures count { (body : List ℕ) (at bytes : ℕ) (m : PlainMovie) → movie_in body at bytes ≡ Ok m → length m.tracks ≤ 64 }
    ensures tracks { (body : List ℕ) (at bytes : ℕ) (m : PlainMovie) → movie_in body at bytes ≡ Ok m
        → AllByRecursion (IsAccepted bytes m.scale) m.tracks }
{}

/// A law: a track whose tables were written is read back, whatever its headers are and wherever its tables
/// stand in the file, if its entry is: as a track of the entry's kind with the samples of its rows, whose
/// chunks have so many samples, and with the sample entries that its entry says, alone in its box at some place.
#[tactic(auto, using(crate::proofs::MeaningLaws::track_laws))]
pub fn tracks_are_read_back()
    ensures samples { (file movie_scale number scale base : ℕ) (shift : Shift) (trak : Piece) (h : BoxHead) (bytes : List ℕ) (kind : TrackKind) (rs : List Row)
        → heads_in movie_scale trak ≡ Ok (record { scale = scale; shift = shift; own = true ∷ []; stbl = record { head = h; body = tiled (stbl_parts bytes rs) } })
        → length (tiled (stbl_parts bytes rs)) < 2 ^ 32 - 8 → ((at : ℕ) → (e : EntryAt) × (entries_of at (stsd_of bytes) ≡ Ok (e ∷ [])) × (kind_of e.entry ≡ kind)) → Tellable scale base rs
        → held_in file number 0 (listed base rs) ≡ Ok tt
        → track_in file movie_scale number trak ≡ Ok (record { kind = kind; scale = scale; lead = shift.lead; media_time = shift.media_time; samples = listed base rs }) }
    ensures entries { (movie_scale scale base : ℕ) (shift : Shift) (trak : Piece) (h : BoxHead) (bytes : List ℕ) (kind : TrackKind) (rs : List Row)
        → heads_in movie_scale trak ≡ Ok (record { scale = scale; shift = shift; own = true ∷ []; stbl = record { head = h; body = tiled (stbl_parts bytes rs) } })
        → length (tiled (stbl_parts bytes rs)) < 2 ^ 32 - 8 → ((at : ℕ) → (e : EntryAt) × (entries_of at (stsd_of bytes) ≡ Ok (e ∷ [])) × (kind_of e.entry ≡ kind)) → Tellable scale base rs
        → (p : TrackParts) × (parts_in movie_scale trak ≡ Ok p) × (at : ℕ) × (entries_of at (stsd_of bytes) ≡ Ok p.entries) }
    ensures counts { (movie_scale scale base : ℕ) (shift : Shift) (trak : Piece) (h : BoxHead) (bytes : List ℕ) (kind : TrackKind) (rs : List Row)
        → heads_in movie_scale trak ≡ Ok (record { scale = scale; shift = shift; own = true ∷ []; stbl = record { head = h; body = tiled (stbl_parts bytes rs) } })
        → length (tiled (stbl_parts bytes rs)) < 2 ^ 32 - 8 → ((at : ℕ) → (e : EntryAt) × (entries_of at (stsd_of bytes) ≡ Ok (e ∷ [])) × (kind_of e.entry ≡ kind)) → Tellable scale base rs
        → counts_in_trak movie_scale (Some trak) ≡ Some (counts_in_rows rs) }
{}

/// A law: headers that were written are read back: boxes in a box, a timescale in either version of its
/// header, the data reference of a file to itself, and a file's start.
#[tactic(auto, using(crate::proofs::MeaningLaws::header_laws))]
pub fn headers_are_read_back()
    ensures boxes { (h : BoxHead) (ps : List Part) → AllByRecursion Fits ps → inside (record { head = h; body = tiled ps }) ≡ Ok (laid (h.at + h.head) ps) }
    ensures scale { (h : BoxHead) (duration scale : ℕ) (rest : List ℕ) → 1 ≤ scale → scale < 2 ^ 32
        → timescale_in (record { head = h; body = header_times 0 duration ++ (be32 scale ++ rest) }) ≡ Ok scale }
    ensures references { (h : BoxHead) → references_of (Some (record { head = h; body = tiled in_dinf })) ≡ Ok (true ∷ []) }
    ensures start { (h : BoxHead) (start_us : ℕ) → start_us < 2 ^ 64 → start_in (Some (record { head = h; body = tiled (in_udta start_us) })) ≡ start_us }
    ensures track { (movie_scale scale : ℕ) (shift : Shift) (own : List Bool) (trak mdia minf stbl : Piece) (ps qs : List Piece)
        → inside trak ≡ Ok ps → child_piece ps (codes "mdia") ≡ Some mdia → media_in mdia ≡ Ok (scale, qs) → shift_of movie_scale scale (child_piece ps (codes "edts")) ≡ Ok shift
        → child_piece qs (codes "minf") ≡ Some minf → information_in minf ≡ Ok (own, stbl)
        → heads_in movie_scale trak ≡ Ok (record { scale = scale; shift = shift; own = own; stbl = stbl }) }
{}

/// A law: the boxes of few bytes fit their sizes, and each box of a sample table box has a type of four bytes.
#[tactic(auto, using(crate::proofs::MeaningLaws::fit_laws))]
pub fn few_bytes_fit()
    ensures fit { (ps : List Part) → AllByRecursion (λ p. length p.0 ≡ 4) ps → length (tiled ps) < 2 ^ 32 - 8 → AllByRecursion Fits ps }
    ensures stbl { (entry : List ℕ) (rs : List Row) → length (tiled (stbl_parts entry rs)) < 2 ^ 32 - 8 → AllByRecursion Fits (stbl_parts entry rs) }
{}

/// A law: the samples of a chunk that stands at a place of a file, one after the other: the file holds them
/// if the chunk ends in it, with their bytes, and together they are the chunk's group.
#[tactic(auto, using(crate::proofs::MeaningLaws::chunk_laws))]
pub fn chunks_in_a_file()
    ensures held { (bytes track base place : ℕ) (ss : List Stored) (rest : List PlainSample) → place + length (stored_bytes ss) ≤ bytes → AllByRecursion IsWritable ss
        → ((j : ℕ) → held_in bytes track j rest ≡ Ok tt) → (i : ℕ) → held_in bytes track i (samples_at base place (map timed ss) ++ rest) ≡ Ok tt }
    ensures shown { (file : List ℕ) (base place : ℕ) (ss : List Stored) (rest : List ℕ) → drop place file ≡ stored_bytes ss ++ rest
        → map (held_in_file file) (samples_at base place (map timed ss)) ≡ map (held_since base) ss }
    ensures count { (base place : ℕ) (ss : List Timed) → length (samples_at base place ss) ≡ length ss }
    ensures group { (file : List ℕ) (base place : ℕ) (ss : List Stored) (rest : List ℕ) → 0 < length ss → drop place file ≡ stored_bytes ss ++ rest
        → group_of file (samples_at base place (map timed ss)) ≡ record { place = place; samples = map (held_since base) ss } ∷ [] }
    ensures later { (by : ℕ) (ss : List Stored) → AllByRecursion (λ s. by ≤ s.decode) (map timed ss) → later by (map (held_since by) ss) ≡ map held_as ss }
{}
