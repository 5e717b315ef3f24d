//! The tracks of a file that is being written, one after the other.

ghost use Rattle.std.specs.Prelude.{◌≡◌, ℕ, ◌+◌, ◌*◌, ◌^◌, ◌<◌, ◌≤◌, List, length, map, slice_get, sum_by, Option, IfOk, OnOk, IfSome};
ghost use Rattle.std.specs.List.{AllByRecursion};
ghost use Rattle.sf_layout.specs.Headers.{longest};
ghost use Rattle.sf_layout.specs.Layout.{earlier, earliest, stbl_of};
ghost use Rattle.sf_moov.specs.Heads.{HasEnd};
ghost use Rattle.sf_moov.specs.Lengths.{traks_len};
ghost use Rattle.sf_file.specs.Open.{count_of, rows_in, tracks_with};
ghost use Rattle.sf_file.specs.inner.Tracks.{HasRoom, IsShort, JoinsAt, JoinsFrom, fresh, heads_in, held_in};

use crate::open_track::OpenTrack;
use sf_entry::TrackSetup;
use sf_layout::TrackHead;
use sf_list::Bytes;
use sf_moov::MoovTotals;
use sf_tick::Chunk;
use std::alloc::{AllocError, Global};

/// The tracks of these setups, without samples.
pub(crate) fn open_tracks(
    alloc: Global,
    setups: &[TrackSetup],
) -> Result<Vec<OpenTrack>, AllocError>
    requires ticks { AllByRecursion (λ s. 1 ≤ s.scale) setups.now }
    requires entries { AllByRecursion (λ s. length s.entry ≤ 2 ^ 27) setups.now }
    ensures { IfOk result (λ tracks. held_in tracks.items ≡ map fresh setups.now) }
{
    let mut tracks = Vec::new(alloc);
    for setup in setups {
        tracks.push(OpenTrack::new(alloc, setup)?)?;
    }
    Ok(tracks)
}

// The earlier of two times, some of which may be missing.
fn earlier(one: Option<u64>, other: Option<u64>) -> Option<u64>
    ensures { result ≡ earlier one other }
{
    match (one, other) {
        (None, other) => other,
        (Some(one), None) => Some(one),
        (Some(one), Some(other)) => Some(one.min(other)),
    }
}

/// When the first sample of all tracks is decoded, in microseconds; none without samples.
pub(crate) fn earliest(tracks: &[OpenTrack]) -> Option<u64>
    ensures { result ≡ earliest (map (λ t. t.first) (rows_in (held_in tracks.now))) }
{
    match tracks {
        [track, others @ ..] => earlier(track.first_us(), earliest(others)),
        [] => None,
    }
}

/// The same of tracks that are numbered from here on, with one more chunk.
pub(crate) fn earliest_with(tracks: &[OpenTrack], number: u32, chunk: &Chunk) -> Option<u64>
    requires { number + length tracks.now < 2 ^ 32 }
    ensures { (place : ℕ) → result ≡ earliest (map (λ t. t.first) (rows_in (tracks_with number (held_in tracks.now) place chunk.now))) }
{
    let [track, others @ ..] = tracks else {
        return None;
    };
    let first_us = if chunk.track == number {
        track.first_us_with(chunk)
    } else {
        track.first_us()
    };
    earlier(first_us, earliest_with(others, number + 1, chunk))
}

/// What the length of the movie box of these tracks is known from, in a file with this start.
pub(crate) fn totals(tracks: &[OpenTrack], start_us: u64) -> MoovTotals
    requires { length tracks.now ≤ 64 }
    ensures longest { result.longest_us ≡ longest (heads_in start_us (held_in tracks.now)) }
    ensures traks { result.traks ≡ traks_len (heads_in start_us (held_in tracks.now)) }
    ensures bound { result.traks ≤ 2 ^ 42 * length tracks.now }
{
    match tracks {
        [track, others @ ..] => totals(others, start_us).with(&track.head(start_us)),
        [] => MoovTotals::new(),
    }
}

/// The same of tracks that are numbered from here on, with one more chunk, which begins at this place.
pub(crate) fn totals_with(
    tracks: &[OpenTrack],
    number: u32,
    start_us: u64,
    place: u64,
    chunk: &Chunk,
) -> MoovTotals
    requires few { length tracks.now ≤ 64 }
    requires number { number + length tracks.now < 2 ^ 32 }
    requires joins { JoinsFrom number (held_in tracks.now) chunk.now }
    ensures longest { result.longest_us ≡ longest (heads_in start_us (tracks_with number (held_in tracks.now) place chunk.now)) }
    ensures traks { result.traks ≡ traks_len (heads_in start_us (tracks_with number (held_in tracks.now) place chunk.now)) }
    ensures bound { result.traks ≤ 2 ^ 42 * length tracks.now }
{
    let [track, others @ ..] = tracks else {
        return MoovTotals::new();
    };
    let head = if chunk.track == number {
        track.head_with(start_us, place, chunk)
    } else {
        track.head(start_us)
    };
    totals_with(others, number + 1, start_us, place, chunk).with(&head)
}

/// What the headers say of the tracks, in a file with this start.
pub(crate) fn heads(
    alloc: Global,
    tracks: &[OpenTrack],
    start_us: u64,
) -> Result<Vec<TrackHead>, AllocError>
    ensures exact { IfOk result (λ heads. heads.items ≡ heads_in start_us (held_in tracks.now)) }
    ensures ends { IfOk result (λ heads. AllByRecursion HasEnd heads.items) }
    ensures tables { IfOk result (λ heads. sum_by (λ h. h.stbl_len) heads.items ≤ 2 ^ 41 * length tracks.now) }
{
    let mut heads = Vec::new(alloc);
    for track in tracks {
        heads.push(track.head(start_us))?;
    }
    Ok(heads)
}

/// The sample table boxes of the tracks.
pub(crate) fn tables(alloc: Global, tracks: &[OpenTrack]) -> Result<Vec<Bytes>, AllocError>
    requires { AllByRecursion IsShort tracks.now }
    ensures { IfOk result (λ tables. tables.items ≡ map stbl_of (rows_in (held_in tracks.now))) }
{
    let mut tables = Vec::new(alloc);
    for track in tracks {
        tables.push(track.encode(alloc)?)?;
    }
    Ok(tables)
}

/// Makes room for a chunk in the tables of its track. Without memory the room may have grown, and all
/// else is as before.
pub(crate) fn reserve(tracks: &mut Vec<OpenTrack>, chunk: &Chunk) -> Result<(), AllocError>
    requires { chunk.now.track < length tracks.old.items }
    ensures held { held_in tracks.new.items ≡ held_in tracks.old.items }
    ensures room { OnOk result (HasRoom tracks.new.items chunk.now) }
{
    tracks[chunk.track as usize].reserve(chunk)
}

/// Adds a chunk that begins at this place to its track. It takes no memory.
pub(crate) fn add(tracks: &mut Vec<OpenTrack>, place: u64, chunk: &Chunk)
    requires track { chunk.now.track < length tracks.old.items }
    requires room { HasRoom tracks.old.items chunk.now }
    requires joins { JoinsAt (held_in tracks.old.items) chunk.now }
    ensures { held_in tracks.new.items ≡ tracks_with 0 (held_in tracks.old.items) place chunk.now }
{
    tracks[chunk.track as usize].add(place, chunk);
}

/// How many samples of a track there are.
pub(crate) fn count(tracks: &[OpenTrack], number: u32) -> u64
    requires { number < length tracks.now }
    ensures exact { IfSome (slice_get (held_in tracks.now) number) (λ t. result ≡ count_of t) }
    ensures few { result < 2 ^ 32 }
{
    tracks[number as usize].count()
}
