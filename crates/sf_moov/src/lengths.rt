//! How long the movie box is, and when its last track ends.

ghost use Rattle.std.specs.Prelude.{◌≡◌, ℕ, ◌+◌, ◌*◌, ◌^◌, ◌<◌, ◌≤◌, List, [], ◌∷◌, length, max, sum_by, if◌then◌else◌};
ghost use Rattle.std.specs.List.{AllByRecursion};
ghost use Rattle.sf_meaning.specs.WrittenHeaders.{is_long};
ghost use Rattle.sf_layout.specs.Headers.{end_us, longest};
ghost use Rattle.sf_layout.specs.MovieBox.{moov_of};
ghost use Rattle.sf_moov.specs.Heads.{HasEnd, AreHeads, HaveLengths};
ghost use Rattle.sf_moov.specs.Lengths.{extra, trak_len, traks_len, moov_from, moov_len};

use crate::headers::{end_us, is_long};
use sf_layout::TrackHead;
use sf_tick::Kind;

/// What the length of a movie box is known from, gathered one track at a time.
#[derive(Clone, Copy, Debug, PartialEq, Eq)]
pub struct MoovTotals {
    /// When the last track ends, in microseconds after the file's start; 0 without tracks.
    pub longest_us: u64,
    /// How many bytes the tracks' boxes have.
    pub traks: u64,
}

impl MoovTotals {
    /// Of no tracks.
    pub fn new() -> MoovTotals
        ensures longest { result.longest_us ≡ 0 }
        ensures traks { result.traks ≡ 0 }
    {
        MoovTotals {
            longest_us: 0,
            traks: 0,
        }
    }

    /// With one more track.
    pub fn with(self, head: &TrackHead) -> MoovTotals
        requires head { HasEnd head.now }
        requires table { head.now.stbl_len < 2 ^ 62 }
        requires traks { self.traks < 2 ^ 62 }
        ensures longest { result.longest_us ≡ max (end_us head.now) self.longest_us }
        ensures traks { result.traks ≡ trak_len head.now + self.traks }
        ensures bound { result.traks ≤ head.now.stbl_len + 337 + self.traks }
    {
        MoovTotals {
            longest_us: end_us(head).max(self.longest_us),
            traks: trak_len(head) + self.traks,
        }
    }

    /// The exact length of the movie box, in bytes.
    pub fn size(self) -> u64
        requires { self.traks < 2 ^ 63 }
        ensures { result ≡ moov_from self.longest_us self.traks }
    {
        140 + extra(self.longest_us) + self.traks
    }
}

/// When the last track ends, in microseconds after the file's start; 0 without tracks.
pub(crate) fn longest(heads: &[TrackHead]) -> u64
    requires { AllByRecursion HasEnd heads.now }
    ensures exact { result ≡ longest heads.now }
{
    match heads {
        [head, others @ ..] => end_us(head).max(longest(others)),
        [] => 0,
    }
}

// How many bytes a duration adds to a header: where it needs eight bytes, so do the times.
fn extra(duration: u64) -> u64
    ensures exact { result ≡ extra duration }
    ensures bound { result ≤ 12 }
{
    if is_long(duration) { 12 } else { 0 }
}

// How many bytes the box of a track has.
fn trak_len(head: &TrackHead) -> u64
    requires head { HasEnd head.now }
    requires table { head.now.stbl_len < 2 ^ 62 }
    ensures exact { result ≡ trak_len head.now }
    ensures bound { result ≤ head.now.stbl_len + 337 }
{
    let media_header = match head.kind {
        Kind::Avc => 20,
        Kind::Aac => 16,
    };
    let edits = if head.lead_us == 0 { 0 } else { 64 };
    229 + media_header + edits + extra(end_us(head)) + extra(head.duration) + head.stbl_len
}

// How many bytes the boxes of tracks have.
fn traks_len(heads: &[TrackHead]) -> u64
    requires few { length heads.now ≤ 64 }
    requires each { AllByRecursion HasEnd heads.now }
    requires tables { sum_by (λ h. h.stbl_len) heads.now < 2 ^ 62 }
    ensures exact { result ≡ traks_len heads.now }
    ensures bound { result ≤ sum_by (λ h. h.stbl_len) heads.now + 337 * length heads.now }
{
    match heads {
        [head, others @ ..] => trak_len(head) + traks_len(others),
        [] => 0,
    }
}

/// The exact length of the movie box of these tracks, in bytes, whatever its file's start is.
#[tactic(auto, using(crate::proofs::BoxLengths::length_moov))]
pub fn moov_size(heads: &[TrackHead]) -> u64
    requires { AreHeads heads.now }
    ensures { (start_us : ℕ) (stbls : List (List ℕ)) → HaveLengths heads.now stbls → result ≡ length (moov_of heads.now start_us stbls) }
{
    140 + extra(longest(heads)) + traks_len(heads)
}
