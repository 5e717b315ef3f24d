//! The switching rule, over numbers: where the next chunk goes, or which limit it meets.

ghost use Rattle.std.specs.Prelude.{◌≡◌, ◌≤◌, ◌^◌, ◌&&◌, ◌||◌, ℕ, true, List, [], ◌∷◌, ◌++◌, None, Ok, IfNone, IfOk, IsOk};
ghost use Rattle.sf_tick.specs.declared.types.Chunk.{Chunk};
ghost use Rattle.sf_entry.specs.declared.track_setup.TrackSetup.{TrackSetup};
ghost use Rattle.sf_layout.specs.Written.{start_in};
ghost use Rattle.sf_file.specs.Open.{ClosesAs};
ghost use Rattle.sf_series.specs.Files.{open_file};
ghost use Rattle.sf_series.specs.Switching.{is_lead, late, over, passes, put, soft, too_long, unless, video_from};
ghost use Rattle.sf_series.specs.inner.Rule.{Foresees, put_as};

use crate::limits::{LimitShown, Limits};
use sf_entry::TrackSetup;
use sf_file::Closing;
use sf_tick::{Chunk, Kind};

/// The greatest movie box of a file, in bytes.
const GREATEST_BOX: u64 = 268_435_456;

/// The most samples of a track in a file.
const MOST_SAMPLES: u64 = 16_777_216;

/// Where a chunk goes.
#[derive(Clone, Copy, Debug, PartialEq, Eq)]
pub(crate) enum Place {
    /// Into the open file.
    Open,
    /// Into the next file.
    Next,
}

/// What is known before a chunk is put.
#[derive(Clone, Copy, Debug)]
pub(crate) struct Prospect {
    /// What the open file would be, closed with the chunk.
    pub with_it: Closing,
    /// What a file of this chunk alone would be, closed.
    pub alone: Closing,
    /// When the open file starts, in microseconds.
    pub start_us: u64,
    /// Whether the open file holds no chunks.
    pub is_empty: bool,
    /// Whether there may be a next file.
    pub more: bool,
    /// Whether a file may begin with the chunk.
    pub leads: bool,
    /// The number of the chunk's first sample, in its track and over all files.
    pub sample: u64,
}

/// Whether a value passes a limit, 0 for no limit.
pub(crate) fn passes(max: u64, value: u64) -> bool
    ensures { result ≡ passes max value }
{
    max != 0 && max < value
}

// The limit that a file passes, if any, which is closed with a chunk of a track.
#[tactic(auto, unfolding(crate::specs::Switching::over))]
fn over(limits: &Limits, track: u32, sample: u64, closing: &Closing) -> Option<LimitShown>
    ensures exact { (setups : List TrackSetup) (file : List Chunk) → ClosesAs setups file track closing.now
        → result ≡ over limits.now setups track sample file }
    ensures fits { IfNone result ((closing.now.movie_box ≤ 2 ^ 28) × (closing.now.samples ≤ 2 ^ 24)) }
{
    if passes(limits.max_bytes, closing.bytes) {
        return Some(LimitShown::Size {
            track,
            sample,
            would_be: closing.bytes,
            max: limits.max_bytes,
        });
    }
    if closing.movie_box > GREATEST_BOX {
        return Some(LimitShown::Movie {
            track,
            sample,
            would_be: closing.movie_box,
            max: GREATEST_BOX,
        });
    }
    if closing.samples > MOST_SAMPLES {
        return Some(LimitShown::Count {
            track,
            sample,
            would_be: closing.samples,
            max: MOST_SAMPLES,
        });
    }
    None
}

// Whether a closed file has more than nine tenths of the most bytes.
fn is_soft(limits: &Limits, closing: &Closing) -> bool
    ensures { (setups : List TrackSetup) (file : List Chunk) (track : ℕ) → ClosesAs setups file track closing.now
        → result ≡ soft limits.now setups file }
{
    let most = 9 * u128::from(limits.max_bytes);
    most != 0 && most < 10 * u128::from(closing.bytes)
}

// Whether a chunk begins too long after the start of a file.
fn is_late(limits: &Limits, start_us: u64, chunk: &Chunk) -> bool
    ensures { (setups : List TrackSetup) (file : List Chunk) → start_us ≡ start_in setups file
        → result ≡ late limits.now setups file chunk.now }
{
    let end_us = u128::from(start_us) + u128::from(limits.max_duration_us);
    limits.max_duration_us != 0 && end_us <= u128::from(chunk.first_us)
}

// The number of the first track of video, if there is one.
fn first_video(setups: &[TrackSetup]) -> Option<usize>
    ensures { result ≡ video_from 0 setups.now }
{
    for (number, setup) in setups.iter().enumerate() {
        if setup.kind == Kind::Avc {
            return Some(number);
        }
    }
    None
}

/// Whether a file may begin with a chunk: it is of the first track of video, or of the first track where none is of
/// video, and decoding can begin with it.
pub(crate) fn is_lead(setups: &[TrackSetup], chunk: &Chunk) -> bool
    ensures { result ≡ is_lead setups.now chunk.now }
{
    let lead = first_video(setups).unwrap_or(0);
    let begins_sync = match chunk.samples.as_slice().first() {
        Some(sample) => sample.sync,
        None => false,
    };
    chunk.track as usize == lead && begins_sync
}

// The limit of the last file's duration, where a chunk passes it with which a file may begin.
fn too_long(limits: &Limits, seen: &Prospect, chunk: &Chunk) -> Option<LimitShown>
    ensures { (setups : List TrackSetup) (files : List (List Chunk)) → Foresees limits.now setups files chunk.now seen.now
        → result ≡ too_long limits.now setups seen.now.sample (open_file files) chunk.now }
{
    if !seen.leads || !is_late(limits, seen.start_us, chunk) {
        return None;
    }
    Some(LimitShown::Duration {
        track: chunk.track,
        sample: seen.sample,
        at_us: chunk.first_us,
        file_start_us: seen.start_us,
        max_us: limits.max_duration_us,
    })
}

// Whether a chunk begins the next file although the open one passes no limit with it.
fn begins_next(limits: &Limits, seen: &Prospect, chunk: &Chunk) -> bool
    ensures { (setups : List TrackSetup) (files : List (List Chunk)) → Foresees limits.now setups files chunk.now seen.now
        → result ≡ (is_lead setups chunk.now && (soft limits.now setups (open_file files ++ chunk.now ∷ []) || late limits.now setups (open_file files) chunk.now)) }
{
    seen.leads && (is_soft(limits, &seen.with_it) || is_late(limits, seen.start_us, chunk))
}

// An answer where no limit is passed.
fn unless(limit: Option<LimitShown>, place: Place) -> Result<Place, LimitShown>
    ensures exact { put_as result ≡ unless limit (put_as (Ok place)) }
    ensures none { IsOk result → limit ≡ None }
    ensures place { IfOk result (λ p. p ≡ place) }
{
    match limit {
        None => Ok(place),
        Some(shown) => Err(shown),
    }
}

/// Where a chunk goes, or the limit that it meets.
#[tactic(auto, unfolding(crate::specs::Switching::put))]
pub(crate) fn place_of(limits: &Limits, seen: &Prospect, chunk: &Chunk) -> Result<Place, LimitShown>
    ensures exact { (setups : List TrackSetup) (files : List (List Chunk)) → Foresees limits.now setups files chunk.now seen.now
        → put_as result ≡ put limits.now setups files chunk.now }
    // A file passes no bound with a chunk that goes into it.
    ensures into { result ≡ Ok Place.Open → (seen.now.with_it.movie_box ≤ 2 ^ 28) × (seen.now.with_it.samples ≤ 2 ^ 24) }
    ensures next { result ≡ Ok Place.Next → (seen.now.alone.movie_box ≤ 2 ^ 28) × (seen.now.alone.samples ≤ 2 ^ 24) }
    ensures more { result ≡ Ok Place.Next → seen.now.more ≡ true }
{
    let over_with_it = over(limits, chunk.track, seen.sample, &seen.with_it);
    if seen.is_empty {
        return unless(over_with_it, Place::Open);
    }
    if over_with_it.is_none() && !begins_next(limits, seen, chunk) {
        return Ok(Place::Open);
    }
    if seen.more {
        let over_alone = over(limits, chunk.track, seen.sample, &seen.alone);
        return unless(over_alone, Place::Next);
    }
    match over_with_it {
        Some(shown) => Err(shown),
        None => unless(too_long(limits, seen, chunk), Place::Open),
    }
}
