//! What holds of movie boxes, over what is known of their tracks alone.

ghost use Rattle.std.specs.Prelude.{◌≡◌, ℕ, List, length};
ghost use Rattle.sf_layout.specs.MovieBox.{moov_of};
ghost use Rattle.sf_layout.specs.declared.heads.TrackHead.{TrackHead};
ghost use Rattle.sf_moov.specs.Heads.{HaveLengths};
ghost use Rattle.sf_moov.specs.Lengths.{moov_len};

/// A law: how long a movie box is, from what its headers say of each track and how long its tables are.
#[tactic(auto, using(crate::proofs::BoxLengths::length_moov))]
pub fn length_of_movie_box()
    ensures { (heads : List TrackHead) (start_us : ℕ) (stbls : List (List ℕ)) → HaveLengths heads stbls
        → length (moov_of heads start_us stbls) ≡ moov_len heads }
{}
