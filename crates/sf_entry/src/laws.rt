//! What is made is read back, and what is read of video says how long the lengths of its units are.

ghost use Rattle.std.specs.Prelude.{◌≡◌, ◌≤◌, ℕ, List, [], ◌∷◌, length, Ok};
ghost use Rattle.std.specs.List.{AllByRecursion};
ghost use Rattle.sf_tick.specs.declared.types.Kind.TheVariants as kinds;
ghost use Rattle.sf_tick.specs.declared.types.Setup.{Setup};
ghost use Rattle.sf_avc.specs.Units.{Nal, nals};
ghost use Rattle.sf_avc.specs.ConfigBody.{of_type};
ghost use Rattle.sf_entry.specs.declared.types.Entry.TheVariants.{Aac, Avc};
ghost use Rattle.sf_entry.specs.declared.track_setup.TrackSetup.{TrackSetup};
ghost use Rattle.sf_entry.specs.declared.types.EntryAt.{EntryAt};
ghost use Rattle.sf_entry.specs.Stsd.{HasWidth, entries_of, stsd_of, only_entry};
ghost use Rattle.sf_entry.specs.TrackSetup.{made};

/// A law: the entry that is made of a setup, alone in a sample description box, is read back: of sound with its
/// configuration, of video with the length size 4 and the parameter sets of its configuration.
#[tactic(auto, using(crate::proofs::SetupsBack::sound_read, crate::proofs::SetupsBack::video_read))]
pub fn entries_are_read_back()
    ensures sound { (base : ℕ) (setup : Setup) (track : TrackSetup) → setup.kind ≡ kinds.Aac → length setup.config ≤ 65536 → made setup ≡ Ok track
        → entries_of base (stsd_of track.entry) ≡ Ok (only_entry base track.entry (Aac setup.config) ∷ []) }
    ensures video { (base : ℕ) (setup : Setup) (track : TrackSetup) (units : List Nal) → setup.kind ≡ kinds.Avc → nals setup.config ≡ Ok units → made setup ≡ Ok track
        → entries_of base (stsd_of track.entry) ≡ Ok (only_entry base track.entry (Avc (record { width = 4; sps = of_type 7 units; pps = of_type 8 units })) ∷ []) }
{}

/// A law: the length of a unit has one to four bytes in each entry of video that is read.
pub fn lengths_have_a_width()
    ensures { (base : ℕ) (body : List ℕ) (es : List EntryAt) → entries_of base body ≡ Ok es → AllByRecursion (λ e. HasWidth e.entry) es }
{}
