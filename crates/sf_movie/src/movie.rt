//! A movie that is loaded through its source.

ghost use Rattle.std.specs.Prelude.{◌≡◌, ℕ, pos, ◌+◌, ◌^◌, ◌≤◌, ◌<◌, length, get_or, option_and_then, option_map, Some, Ok, IfOk, IfSome};
ghost use Rattle.std.specs.List.{AllByRecursion, slice_get};
ghost use Rattle.sf_entry.specs.Stsd.{HasWidth};
ghost use Rattle.sf_meaning.specs.Answers.{Gives};
ghost use Rattle.sf_meaning.specs.Entries.{moov_entries, movie_entries};
ghost use Rattle.sf_meaning.specs.Movie.{movie, movie_in};
ghost use Rattle.sf_meaning.specs.Shown.{shown};
ghost use Rattle.sf_movie.specs.Loaded.{entry_of, sample_count, sample_of, sync_samples, unit_width, width_of};
ghost use Rattle.sf_movie.specs.Loads.{IsWithin, LoadsOver, OfTold, Reads};
ghost use Rattle.sf_tick.specs.Tick.{us};

use crate::load::{LoadFault, load_fault};
use crate::parts::{MovieParts, parts_kept};
use crate::shown::{length_us, shown_us};
use crate::track::Track;
use crate::walk::{find_moov, read_body};
use sf_cursor::Cursor;
use sf_entry::{Entry, EntryAt, lengths_have_a_width};
use sf_list::Bytes;
use sf_meaning::{MovieFault, PlainSample, TrackKind, samples_one_by_one};
use sf_world::Source;
use std::alloc::Global;
use std::marker::Model;

/// A movie, as its movie box tells it. It keeps the tables of each track, and never a list of the samples.
#[derive(Drop)]
pub struct Movie {
    parts: MovieParts<Cursor>,
}

impl Model for Movie {
    ghost use Rattle.sf_movie.specs.Loaded.{Loaded};

    ghost Value = { Loaded };

    ghost use Rattle.sf_movie.specs.inner.Kept.{IsKept, loaded_of};

    ghost view = { λ m. loaded_of m.parts };

    ghost invariant = { λ m. IsKept m.parts };
}

// The movie that the body of a movie box is, which begins at a place of a file of so many bytes.
fn movie_in(alloc: Global, moov: Bytes, at: u64, file_len: u64) -> Result<Movie, MovieFault>
    requires { at + length moov < 2 ^ 64 }
    ensures movie { Gives MovieFault.NoMemory (λ m. m.movie) result (movie_in moov at file_len) }
    ensures entries { IfOk result (λ m. moov_entries moov at ≡ Ok m.entries) }
{
    samples_one_by_one();
    lengths_have_a_width();
    match parts_kept(alloc, moov, at, file_len) {
        Ok(parts) => Ok(Movie { parts }),
        Err(fault) => Err(fault),
    }
}

// A track by its number.
fn track_at(tracks: &[Track<Cursor>], t: u32) -> &Track<Cursor>
    requires { t < length tracks.now }
    ensures { slice_get tracks.now t ≡ Some result.now }
{
    &tracks[t as usize]
}

// How many bytes the length of a unit has, by a sample entry.
fn width_of(entry: &Entry) -> Option<u8>
    ensures { result ≡ width_of entry.now }
{
    match entry {
        Entry::Avc(config) => Some(config.width),
        Entry::Aac(_) => None,
        Entry::Other(_) => None,
    }
}

// The same by the entry of a number, from 1.
fn width_at(entries: &[EntryAt], d: u32) -> Option<u8>
    requires { AllByRecursion (λ e. HasWidth e.entry) entries.now }
    ensures least { IfSome result (λ width. 1 ≤ width) }
    ensures most { IfSome result (λ width. width ≤ 4) }
    ensures exact { result ≡ option_and_then (λ e. width_of e.entry) (entry_of entries.now d) }
{
    if d == 0 {
        return None;
    }
    match entries.get(d as usize - 1) {
        Some(found) => width_of(&found.entry),
        None => None,
    }
}

impl Movie {
    /// The movie that a source holds. It reads the head of each box of the file, and the movie box alone
    /// whole. It errs with the first thing that is wrong with the bytes, at the first read that fails, or
    /// where there is no memory.
    pub fn load<S: Source>(alloc: Global, source: &mut S) -> Result<Movie, LoadFault>
        ensures reads { OfTold (S.seen source.old).content (λ file. Reads (λ m. m.movie) result (movie file)) }
        ensures entries { OfTold (S.seen source.old).content (λ file. IfOk result (λ m. movie_entries file ≡ Ok m.entries)) }

        // Also where the source tells nothing, the movie is that of some movie box of its length.
        ensures within { IfOk result (IsWithin (S.seen source.old).size) }
        ensures source { LoadsOver (S.seen source.old) (S.seen source.new) result }
    {
        let end = source.length();
        let moov = find_moov(source, end)?;
        let body = read_body(alloc, source, moov, end)?;
        match movie_in(alloc, body, moov.at + moov.head, end) {
            Ok(movie) => Ok(movie),
            Err(fault) => Err(load_fault(fault)),
        }
    }

    /// The number of tracks, which is at most 64.
    pub fn track_count(&self) -> u32
        ensures count { result ≡ length self.now.movie.tracks }
        ensures few { result ≤ 64 }
    {
        self.parts.tracks.len() as u32
    }

    /// When the file starts, in microseconds after the series' start.
    pub fn start_us(&self) -> u64
        ensures { result ≡ self.now.movie.start_us }
    {
        self.parts.start_us
    }

    /// How long nothing is shown of a track first, in microseconds, rounded down.
    pub fn lead_us(&self, t: u32) -> i64
        requires { t < length self.now.movie.tracks }
        ensures { option_map (λ track. us (pos track.lead) self.now.movie.scale) (slice_get self.now.movie.tracks t) ≡ Some result }
    {
        let track = track_at(self.parts.tracks.as_slice(), t);
        length_us(track.shift.lead, self.parts.scale)
    }

    /// What the samples of a track are, by its first sample entry.
    pub fn kind(&self, t: u32) -> TrackKind
        requires { t < length self.now.movie.tracks }
        ensures { option_map (λ track. track.kind) (slice_get self.now.movie.tracks t) ≡ Some result }
    {
        track_at(self.parts.tracks.as_slice(), t).kind
    }

    /// Ticks a second of a track.
    pub fn scale(&self, t: u32) -> u32
        requires { t < length self.now.movie.tracks }
        ensures { option_map (λ track. track.scale) (slice_get self.now.movie.tracks t) ≡ Some result }
    {
        track_at(self.parts.tracks.as_slice(), t).scale
    }

    /// The number of samples of a track.
    pub fn count(&self, t: u32) -> u64
        requires { t < length self.now.movie.tracks }
        ensures { result ≡ sample_count self.now.movie t }
    {
        track_at(self.parts.tracks.as_slice(), t).samples.count()
    }

    /// The number of sync samples of a track.
    pub fn sync_count(&self, t: u32) -> u64
        requires { t < length self.now.movie.tracks }
        ensures { result ≡ length (sync_samples self.now.movie t) }
    {
        let track = track_at(self.parts.tracks.as_slice(), t);
        track.samples.sync_count()
    }

    /// The number of a sync sample of a track, from 0, by its place among them, from 0.
    pub fn sync_number(&self, t: u32, k: u64) -> u64
        requires { k < length (sync_samples self.now.movie t) }
        ensures exact { result ≡ get_or (sync_samples self.now.movie t) k 0 }
        ensures there { result < sample_count self.now.movie t }
    {
        let track = track_at(self.parts.tracks.as_slice(), t);
        track.samples.sync_number(k)
    }

    /// A sample of a track, by its number from 0.
    pub fn sample(&self, t: u32, i: u64) -> PlainSample
        requires { i < sample_count self.now.movie t }
        ensures sample { sample_of self.now.movie t i ≡ Some result }
        ensures short { result.size ≤ 67108864 }
    {
        track_at(self.parts.tracks.as_slice(), t).samples.sample(i)
    }

    /// When a sample of a track is shown, in microseconds from the start of its file. Samples count from 0.
    pub fn shown(&self, t: u32, i: u64) -> i64
        requires { i < sample_count self.now.movie t }
        ensures { shown self.now.movie t i ≡ Some result }
    {
        let track = track_at(self.parts.tracks.as_slice(), t);
        let compose = track.samples.composed(i);
        let lead_us = length_us(track.shift.lead, self.parts.scale);
        let media_us = length_us(track.shift.media_time, track.scale);
        shown_us(compose, track.scale, lead_us, media_us)
    }

    /// How many bytes the length of a NAL unit has, 1 to 4, in the samples of an entry of a track, which
    /// counts from 1; nothing where there is no such entry, or it isn't one of AVC.
    pub fn unit_width(&self, t: u32, d: u32) -> Option<u8>
        requires { t < length self.now.movie.tracks }
        ensures exact { result ≡ unit_width self.now t d }
        ensures least { IfSome result (λ width. 1 ≤ width) }
        ensures most { IfSome result (λ width. width ≤ 4) }
    {
        let track = track_at(self.parts.tracks.as_slice(), t);
        width_at(track.entries.as_slice(), d)
    }
}
