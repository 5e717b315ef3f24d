//! What holds of a series of files, over lists alone. The crates above build on these laws.

ghost use Rattle.std.specs.Prelude.{drop, get_or, set, slice_get, ◌≡◌, ℕ, ◌+◌, ◌<◌, ◌≤◌, if◌then◌else◌, Bool, true, false, List, [], ◌∷◌, ◌++◌, length, map, Some, None};
ghost use Rattle.std.specs.List.{AllByRecursion};
ghost use Rattle.sf_tick.specs.declared.types.Chunk.{Chunk};
ghost use Rattle.sf_entry.specs.declared.track_setup.TrackSetup.{TrackSetup};
ghost use Rattle.sf_meaning.specs.Joined.{joined};
ghost use Rattle.sf_meaning.specs.Rows.{held_as};
ghost use Rattle.sf_layout.specs.Layout.{layout, samples_of};
ghost use Rattle.sf_layout.specs.Writable.{Writable};
ghost use Rattle.sf_interleave.specs.Waiting.{OfTheirTracks, earliest_front, list_of, with_chunk, without_front};
ghost use Rattle.sf_series.specs.declared.limits.Limits.{Limits};
ghost use Rattle.sf_series.specs.declared.limits.LimitShown.{LimitShown};
ghost use Rattle.sf_series.specs.Files.{chunks_of_track, flat, into_next, into_open, open_file, OnlyOpenEmpty};
ghost use Rattle.sf_series.specs.Switching.{Into, Limit, Next, Put, Shows, closed_length, count_of, files_after, passes, put, switched};
ghost use Rattle.sf_series.specs.Core.{State, after, failed, fresh, hand, handed_in, taken, write};
ghost use Rattle.sf_series.specs.Core as core;
ghost use Rattle.sf_series.specs.Ending.{Broken, Finished, Stopped, written};
ghost use Rattle.sf_series.specs.ReadBack.{Begin, ReadToFault, ReadToLimit, WholeReadBack};
ghost use Rattle.sf_series.specs.declared.report.Report.{Report};
ghost use Rattle.sf_file.specs.Holdable.{IsReadable};
ghost use Rattle.sf_file.specs.Open.{AreSetups};
ghost use Rattle.sf_series.specs.Kept.{Kept};
ghost use Rattle.sf_series.specs.Series.{CanTake, OpenSeries, Stands};
ghost use Rattle.sf_world.specs.Views.{ShelfView};
ghost use Rattle.sf_series.specs.Shelved.{closed_in};
ghost use Rattle.sf_series.specs.Within.{Within};
ghost use Rattle.sf_series.specs.Order.{InOrder, Rises, in_order};
ghost use Rattle.sf_gather.specs.Proper.{Proper};
ghost use Rattle.sf_series.specs.Fitting.{AreProper, CanHand, Fits};
ghost use Rattle.sf_series.specs.Dealt.{HasBytes, dealt, order_of, write_order};

use sf_file::no_chunks;

/// A law: whatever is handed and written, in whatever order, for each track the chunks in files and then those that wait
/// are those that were handed. While nothing ended these are all chunks of the steps but for empty ones, else a front of
/// them. Where none waits, all that were handed stand in files. A write that fails leaves the chunks in files as they were.
#[tactic(auto, using(crate::proofs::SeriesLaws::there_laws))]
pub fn chunks_are_kept()
    ensures there { (limits : Limits) (setups : List TrackSetup) (tracks : ℕ) (steps : List core.Step) (track : ℕ)
        → chunks_of_track track (after limits setups (fresh tracks) steps).files ++ list_of (after limits setups (fresh tracks) steps).pending track
        ≡ list_of (after limits setups (fresh tracks) steps).handed track }
    ensures all { (limits : Limits) (setups : List TrackSetup) (tracks track : ℕ) (steps : List core.Step) → track < tracks → (after limits setups (fresh tracks) steps).ended ≡ false
        → list_of (after limits setups (fresh tracks) steps).handed track ≡ handed_in track steps }
    ensures front { (limits : Limits) (setups : List TrackSetup) (tracks track : ℕ) (steps : List core.Step) → track < tracks
        → (rest : List Chunk) × (handed_in track steps ≡ list_of (after limits setups (fresh tracks) steps).handed track ++ rest) }
    ensures idle { (limits : Limits) (setups : List TrackSetup) (state : State) (track : ℕ) → Kept limits setups state → earliest_front state.pending ≡ None
        → chunks_of_track track state.files ≡ list_of state.handed track }
    ensures tracks { (limits : Limits) (setups : List TrackSetup) (tracks : ℕ) (steps : List core.Step) → length (after limits setups (fresh tracks) steps).handed ≡ tracks }
    ensures failed { (closed : Bool) (state : State) (track : ℕ) → chunks_of_track track (failed closed state).files ≡ chunks_of_track track state.files }
{}

/// A law: what holds of the fresh core holds after each chunk that is handed and each write, and so after any steps.
pub fn each_step_keeps()
    ensures fresh { (limits : Limits) (setups : List TrackSetup) (tracks : ℕ) → Kept limits setups (fresh tracks) }
    ensures hand { (limits : Limits) (setups : List TrackSetup) (state : State) (chunk : Chunk) → Kept limits setups state → Kept limits setups (hand state chunk) }
    ensures write { (limits : Limits) (setups : List TrackSetup) (state : State) → Kept limits setups state → Kept limits setups (write limits setups state) }
    ensures steps { (limits : Limits) (setups : List TrackSetup) (tracks : ℕ) (steps : List core.Step) → Kept limits setups (after limits setups (fresh tracks) steps) }
{}

/// A law: a write moves the earliest chunk that waits to the end of the open file or into a new one, or a limit is met;
/// where none waits it changes nothing. That chunk is the next one, after those in files, that was handed of its track.
#[tactic(auto, using(crate::proofs::SeriesLaws::write_laws))]
pub fn earliest_is_written()
    ensures into { (limits : Limits) (setups : List TrackSetup) (state : State) (chunk : Chunk) → earliest_front state.pending ≡ Some chunk → put limits setups state.files chunk ≡ Into
        → write limits setups state ≡ record state { pending = without_front state.pending chunk.track; files = into_open state.files chunk } }
    ensures next { (limits : Limits) (setups : List TrackSetup) (state : State) (chunk : Chunk) → earliest_front state.pending ≡ Some chunk → put limits setups state.files chunk ≡ Next
        → write limits setups state ≡ record state { pending = without_front state.pending chunk.track; files = into_next state.files chunk } }
    ensures limit { (limits : Limits) (setups : List TrackSetup) (state : State) (chunk : Chunk) (shown : LimitShown) → earliest_front state.pending ≡ Some chunk
        → put limits setups state.files chunk ≡ Limit shown → write limits setups state ≡ record state { ended = true } }
    ensures idle { (limits : Limits) (setups : List TrackSetup) (state : State) → earliest_front state.pending ≡ None → write limits setups state ≡ state }
    ensures stands { (limits : Limits) (setups : List TrackSetup) (state : State) (chunk : Chunk) → Kept limits setups state → earliest_front state.pending ≡ Some chunk
        → list_of state.handed chunk.track ≡ chunks_of_track chunk.track state.files ++ chunk ∷ drop 1 (list_of state.pending chunk.track) }
    ensures end { (files : List (List Chunk)) (chunk : Chunk) → flat (into_open files chunk) ≡ flat files ++ chunk ∷ [] }
    ensures begin { (files : List (List Chunk)) (chunk : Chunk) → flat (into_next files chunk) ≡ flat files ++ chunk ∷ [] }
{}

/// A law: the files are those of their chunks put one after the other in the order in which they were written, without a
/// limit, whichever order that was; and where a limit came, the next chunk meets it, and its track is shown with the number
/// of its samples in files.
#[tactic(auto, using(crate::proofs::SeriesLaws::order_laws))]
pub fn files_are_switched()
    ensures files { (limits : Limits) (setups : List TrackSetup) (tracks : ℕ) (steps : List core.Step)
        → switched limits setups (flat (after limits setups (fresh tracks) steps).files) ≡ record { files = (after limits setups (fresh tracks) steps).files; limit = None } }
    ensures limit { (limits : Limits) (setups : List TrackSetup) (tracks : ℕ) (steps : List core.Step) → (after limits setups (fresh tracks) steps).ended ≡ true
        → (chunk : Chunk) × (shown : LimitShown) × (earliest_front (after limits setups (fresh tracks) steps).pending ≡ Some chunk)
        × (put limits setups (after limits setups (fresh tracks) steps).files chunk ≡ Limit shown) }
    ensures shown { (limits : Limits) (setups : List TrackSetup) (files : List (List Chunk)) (chunk : Chunk) (shown : LimitShown) → put limits setups files chunk ≡ Limit shown
        → Shows shown chunk.track (count_of chunk.track (flat files)) }
    ensures ends { (limits : Limits) (setups : List TrackSetup) (files : List (List Chunk)) (order rest : List Chunk) (chunk : Chunk) (shown : LimitShown)
        → switched limits setups order ≡ record { files = files; limit = None } → put limits setups files chunk ≡ Limit shown
        → switched limits setups (order ++ chunk ∷ rest) ≡ record { files = files; limit = Some shown } }
    ensures some { (limits : Limits) (setups : List TrackSetup) (tracks : ℕ) (steps : List core.Step) → OnlyOpenEmpty (after limits setups (fresh tracks) steps).files }
{}

/// A law: a chunk that is handed is taken, until the core ended. One that joins its track's list, or none, leaves the number
/// of the lists, those of the other tracks and the marks of these as they were. A track with a chunk in its list is one of
/// the lists.
#[tactic(auto, using(crate::proofs::SeriesLaws::hand_laws))]
pub fn chunks_are_handed()
    ensures taken { (state : State) (chunk : Chunk) → state.ended ≡ false → hand state chunk ≡ taken state chunk }
    ensures many { (joins : Bool) (lists : List (List Chunk)) (chunk : Chunk) → length (if joins then with_chunk lists chunk else lists) ≡ length lists }
    ensures lists { (joins : Bool) (lists : List (List Chunk)) (chunk : Chunk) (track : ℕ) → (chunk.track ≡ track → ⊥)
        → list_of (if joins then with_chunk lists chunk else lists) track ≡ list_of lists track }
    ensures marks { (ends : Bool) (marks : List Bool) (at track : ℕ) → (at ≡ track → ⊥) → get_or (if ends then set marks at true else marks) track false ≡ get_or marks track false }
    ensures inside { (lists : List (List Chunk)) (track : ℕ) (chunk : Chunk) (rest : List Chunk) → list_of lists track ≡ chunk ∷ rest → track < length lists }
{}

/// A law: files are those that are closed and then the open one. One more file closes them all, one more chunk none.
#[tactic(auto, using(crate::proofs::SeriesLaws::open_laws))]
pub fn last_file_is_open()
    ensures all { (files : List (List Chunk)) → 1 ≤ length files → closed_in files ++ open_file files ∷ [] ≡ files }
    ensures closed { (files : List (List Chunk)) → 1 ≤ length files → length (closed_in files) + 1 ≡ length files }
    ensures file { (files : List (List Chunk)) (file : List Chunk) → closed_in (files ++ file ∷ []) ≡ files }
    ensures chunk { (files : List (List Chunk)) (chunk : Chunk) → 1 ≤ length files → length (into_open files chunk) ≡ length files }
{}

/// A law: the tracks of the chunks of files, in the order in which they were written, give the files back, from lists that
/// begin with the chunks of each track; so they do from the lists of what was handed.
#[tactic(auto, using(crate::proofs::SeriesLaws::dealt_laws))]
pub fn files_are_dealt()
    ensures back { (files lists : List (List Chunk)) (rest : ℕ → List Chunk) → ((track : ℕ) → list_of lists track ≡ chunks_of_track track files ++ rest track)
        → dealt (map order_of files) lists ≡ files }
    ensures core { (limits : Limits) (setups : List TrackSetup) (tracks : ℕ) (steps : List core.Step)
        → dealt (map order_of (after limits setups (fresh tracks) steps).files) (after limits setups (fresh tracks) steps).handed ≡ (after limits setups (fresh tracks) steps).files }
{}

/// A law: files of chunks that are put one after the other without a limit pass none, where an empty file doesn't: neither
/// their bytes, nor those of their movie boxes, nor the samples of any track are too many.
#[tactic(auto, using(crate::proofs::SeriesLaws::limit_laws))]
pub fn files_pass_no_limit()
    ensures files { (limits : Limits) (setups : List TrackSetup) (order : List Chunk) (files : List (List Chunk)) → Within limits setups []
        → switched limits setups order ≡ record { files = files; limit = None } → AllByRecursion (λ file. Within limits setups file) files }
    ensures core { (limits : Limits) (setups : List TrackSetup) (tracks : ℕ) (steps : List core.Step) → Within limits setups []
        → AllByRecursion (λ file. Within limits setups file) (after limits setups (fresh tracks) steps).files }
    ensures put { (limits : Limits) (setups : List TrackSetup) (files : List (List Chunk)) (chunk : Chunk) (answer : Put) → put limits setups files chunk ≡ answer
        → AllByRecursion (λ file. Within limits setups file) files → AllByRecursion (λ file. Within limits setups file) (files_after files chunk answer) }
{}

/// A law: what was handed stays proper with each chunk that can be handed, and after each write.
pub fn handed_stays_proper()
    ensures fresh { (setups : List TrackSetup) → AreProper setups (fresh (length setups)) }
    ensures hand { (setups : List TrackSetup) (state : State) (chunk : Chunk) → AreProper setups state → CanHand setups state chunk → AreProper setups (hand state chunk) }
    ensures write { (limits : Limits) (setups : List TrackSetup) (state : State) → AreProper setups state → AreProper setups (write limits setups state) }
{}

/// A law: where each chunk waits that can be next, chunks are written in the order of when they begin, then of their tracks,
/// then of their numbers. So they are too where the lists that wait have the same first chunks.
#[tactic(auto, using(crate::proofs::SeriesLaws::earliest_laws))]
pub fn earliest_first()
    ensures next { (lists : List (List Chunk)) (chunk : Chunk) → OfTheirTracks 0 lists → earliest_front lists ≡ Some chunk
        → in_order lists ≡ chunk ∷ in_order (without_front lists chunk.track) }
    ensures none { (lists : List (List Chunk)) → earliest_front lists ≡ None → in_order lists ≡ [] }
    ensures order { (lists : List (List Chunk)) → OfTheirTracks 0 lists → ((track : ℕ) → Rises (list_of lists track)) → InOrder lists (in_order lists) }
    ensures fronts { (lists others : List (List Chunk)) → length lists ≡ length others → ((track : ℕ) → slice_get (list_of lists track) 0 ≡ slice_get (list_of others track) 0)
        → earliest_front lists ≡ earliest_front others }
    ensures rises { (track scale : ℕ) (chunks : List Chunk) → Proper track scale chunks → AllByRecursion (λ c. 0 < length c.samples) chunks → Rises chunks }
{}

/// The law of a recording over lists: what is handed, proper by its setups, and written in whatever order, stands in files
/// that are read back. Joined in order they hold for each track the samples of its chunks in files, and where none waits
/// those of all that were handed. Their bytes say which chunk stands where.
#[tactic(auto, using(crate::proofs::SeriesLaws::read_laws))]
pub fn files_are_read_back()
    ensures each { (limits : Limits) (setups : List TrackSetup) (state : State) → Kept limits setups state → Fits limits setups → AreProper setups state
        → AllByRecursion (λ file. Writable setups file) state.files }
    ensures joined { (limits : Limits) (setups : List TrackSetup) (state : State) (track : ℕ) → Kept limits setups state → Fits limits setups → AreProper setups state → track < length setups
        → joined (map (layout setups) state.files) track ≡ Some (map held_as (samples_of (chunks_of_track track state.files))) }
    ensures whole { (limits : Limits) (setups : List TrackSetup) (state : State) (track : ℕ) → Kept limits setups state → Fits limits setups → AreProper setups state → track < length setups
        → list_of state.pending track ≡ [] → joined (map (layout setups) state.files) track ≡ Some (map held_as (samples_of (list_of state.handed track))) }
    ensures dealt { (limits : Limits) (setups : List TrackSetup) (state : State) (lists : List (List Chunk)) (rest : ℕ → List Chunk) → Kept limits setups state → Fits limits setups → AreProper setups state
        → ((track : ℕ) → list_of lists track ≡ list_of state.handed track ++ rest track) → dealt (map (write_order (length setups)) (map (layout setups) state.files)) lists ≡ state.files }
    ensures order { (setups : List TrackSetup) (file : List Chunk) → Writable setups file → AllByRecursion HasBytes file → AllByRecursion (λ c. c.track < length setups) file
        → write_order (length setups) (layout setups file) ≡ order_of file }
{}

/// A law: what several writes keep of a state, unless a limit ends them. They change nothing once it ended. Where none waits
/// after them, all that was handed stands in files.
#[tactic(auto, using(crate::proofs::WrittenOut::written_laws))]
pub fn several_writes_keep()
    ensures ended { (count : ℕ) (limits : Limits) (setups : List TrackSetup) (state : State) → state.ended ≡ true → written count limits setups state ≡ state }
    ensures kept { (count : ℕ) (limits : Limits) (setups : List TrackSetup) (state : State) → Kept limits setups state → Kept limits setups (written count limits setups state) }
    ensures proper { (count : ℕ) (limits : Limits) (setups : List TrackSetup) (state : State) → AreProper setups state → AreProper setups (written count limits setups state) }
    ensures handed { (count : ℕ) (limits : Limits) (setups : List TrackSetup) (state : State) → (written count limits setups state).handed ≡ state.handed }
    ensures all { (count : ℕ) (limits : Limits) (setups : List TrackSetup) (state : State) (track : ℕ) → Kept limits setups state → earliest_front (written count limits setups state).pending ≡ None
        → chunks_of_track track (written count limits setups state).files ≡ list_of state.handed track }
{}

/// A law: a chunk that the core can be handed, in a state for which a series stands, can be handed to the series.
#[tactic(auto, using(crate::proofs::Standing::takes))]
pub fn series_takes_chunks()
    ensures { (begun shelf : ShelfView) (state : State) (series : OpenSeries) (chunk : Chunk) → Stands begun state series shelf → CanHand series.files.setups state chunk → CanTake series chunk }
{}

/// A law: files of tracks with which a file can begin, and that are read back, are read back, where an empty one doesn't
/// have too many bytes.
pub fn setups_fit()
    ensures { (limits : Limits) (setups : List TrackSetup) → AreSetups setups → AllByRecursion IsReadable setups → passes limits.max_bytes (closed_length setups []) ≡ false → Fits limits setups }
{
    no_chunks();
}

/// The law of a series over a shelf that tells its files. What was handed of each track, proper by its setup, is read back
/// from the files that the shelf gained: whole where the series was finished, up to the chunk that met a limit, or up to a
/// file that failed. Their bytes tell which chunk of lists, with which what was handed begins, stands in which file.
#[tactic(auto, using(crate::proofs::SeriesLaws::series_laws))]
pub fn series_is_read_back()
    ensures done { (begun shelf : ShelfView) (before : List (List ℕ)) (series : OpenSeries) (state : State) (lists : List (List Chunk)) (report : Report)
        → Kept series.files.limits series.files.setups state → Fits series.files.limits series.files.setups → AreProper series.files.setups state → Begin state.handed lists
        → begun.files ≡ Some before → Finished begun series state report shelf → WholeReadBack begun before series state.handed lists report shelf }
    ensures limit { (begun shelf : ShelfView) (before : List (List ℕ)) (series : OpenSeries) (state : State) (lists : List (List Chunk)) (shown : LimitShown) (report : Report)
        → Kept series.files.limits series.files.setups state → Fits series.files.limits series.files.setups → AreProper series.files.setups state → Begin state.handed lists
        → begun.files ≡ Some before → Stopped begun series state shown report shelf → ReadToLimit begun before series lists shown report shelf }
    ensures broken { (begun shelf : ShelfView) (before : List (List ℕ)) (series : OpenSeries) (state : State) (lists : List (List Chunk)) (report : Report)
        → Kept series.files.limits series.files.setups state → Fits series.files.limits series.files.setups → AreProper series.files.setups state → Begin state.handed lists
        → begun.files ≡ Some before → Broken begun series state report shelf → ReadToFault begun before series lists report shelf }
{}
