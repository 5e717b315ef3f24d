//! Movies by hand and by other programs, loaded through sources.

use sf_handmade::SOUND;
use sf_list::Bytes;
use sf_movie::{LoadFault, Movie, MovieFault, PlainSample, TrackKind};
use sf_world::{HoleSource, MemSource, Source};
use std::alloc::{AllocError, Global};
use std::test::Fail;

mod holes;
mod hostile;
mod phone;
mod plain;
mod rows;
mod three_samples;

/// Parts of a file, one after the other.
fn joined(alloc: Global, parts: &[&[u8]]) -> Result<Bytes, AllocError> {
    let mut out = Bytes::new(alloc);
    for part in parts {
        out.append(part)?;
    }
    Ok(out)
}

/// Bytes so many times.
fn repeated(alloc: Global, bytes: &[u8], times: u32) -> Result<Bytes, AllocError> {
    let mut out = Bytes::new(alloc);
    for _ in 0..times {
        out.append(bytes)?;
    }
    Ok(out)
}

/// A track box with the headers and the entry of the file of three samples, and with these boxes after its `stsd`.
fn trak_of(alloc: Global, tables: &[u8]) -> Result<Bytes, AllocError> {
    if tables.len() > 1 << 20 {
        return Err(AllocError);
    }
    let size = tables.len() as u32;
    joined(
        alloc,
        &[
            &(167 + size).to_be_bytes(),
            b"trak",
            &(159 + size).to_be_bytes(),
            b"mdia",
            &SOUND[276..308],
            &(119 + size).to_be_bytes(),
            b"minf",
            &(111 + size).to_be_bytes(),
            b"stbl",
            &SOUND[421..524],
            tables,
        ],
    )
}

/// A movie box of such a track, so many times.
fn moov_of(alloc: Global, tables: &[u8], times: u32) -> Result<Bytes, AllocError> {
    let trak = trak_of(alloc, tables)?;
    let tracks = repeated(alloc, trak.as_slice(), times)?;
    if tracks.len() > 1 << 27 {
        return Err(AllocError);
    }
    let size = tracks.len() as u32 + 116;
    joined(
        alloc,
        &[
            &size.to_be_bytes(),
            b"moov",
            &SOUND[60..168],
            tracks.as_slice(),
        ],
    )
}

/// A source of bytes, whose reads with the failing numbers fail.
fn source_of(alloc: Global, bytes: &[u8], failing: &[u64]) -> Result<MemSource, AllocError> {
    let contents = Bytes::from_slice(alloc, bytes)?;
    Ok(MemSource::new(alloc, contents, Vec::from_slice(alloc, failing)?))
}

/// A source that begins with parts, and ends with bytes from a place on. Between them it has zeros.
fn hole_source(
    alloc: Global,
    parts: &[&[u8]],
    place: u64,
    bytes: &[u8],
) -> Result<HoleSource, AllocError> {
    let front = joined(alloc, parts)?;
    let back = Bytes::from_slice(alloc, bytes)?;
    if place > 1 << 40 || front.len() as u64 > place || back.len() > 1 << 30 {
        return Err(AllocError);
    }
    let length = place + back.len() as u64;
    let pieces = vec![in alloc; (0, front), (place, back)]?;
    Ok(HoleSource::new(alloc, length, pieces))
}

/// The movie that a source holds.
fn loaded<S: Source>(alloc: Global, source: &mut S) -> Result<Movie, Fail> {
    Ok(Movie::load(alloc, source).ok().ok_or("not loaded")?)
}

/// The file of three samples with other bytes at a place.
fn patched(alloc: Global, at: usize, bytes: &[u8]) -> Result<MemSource, AllocError> {
    let mut file = Bytes::from_slice(alloc, &SOUND)?;
    if at < file.len() && bytes.len() <= file.len() - at {
        file.patch(at, bytes);
    }
    Ok(MemSource::new(alloc, file, Vec::new(alloc)))
}

/// Why the file of three samples isn't loaded with other bytes at a place.
fn fault_with(alloc: Global, at: usize, bytes: &[u8]) -> Option<LoadFault> {
    match patched(alloc, at, bytes) {
        Ok(mut source) => Movie::load(alloc, &mut source).err(),
        Err(_) => Some(LoadFault::NoMemory),
    }
}

/// That a movie is refused with this fault.
fn refused(fault: MovieFault) -> Option<LoadFault> {
    Some(LoadFault::Refused(fault))
}

/// What a movie tells of a track: what its samples are, its ticks a second, its number of samples, and its lead
/// in microseconds.
type TrackTold = (TrackKind, u32, u64, i64);

/// What a movie tells of a track, where there is one.
fn track_at(movie: &Movie, t: u32) -> Option<TrackTold> {
    if t >= movie.track_count() {
        return None;
    }
    Some((
        movie.kind(t),
        movie.scale(t),
        movie.count(t),
        movie.lead_us(t),
    ))
}

/// What a movie tells of a sample of a track, and when that is shown, where there is one.
fn sample_at(movie: &Movie, t: u32, i: u64) -> Option<(PlainSample, i64)> {
    if t >= movie.track_count() {
        return None;
    }
    if i >= movie.count(t) {
        return None;
    }
    Some((movie.sample(t, i), movie.shown(t, i)))
}

/// How many bytes the length of a unit has by the entries 0 to 2 of a track, where there is such a track.
fn widths_at(movie: &Movie, t: u32) -> Option<[Option<u8>; 3]> {
    if t >= movie.track_count() {
        return None;
    }
    Some([
        movie.unit_width(t, 0),
        movie.unit_width(t, 1),
        movie.unit_width(t, 2),
    ])
}

/// Whether a movie starts at 0 and its tracks are these.
fn has_tracks(movie: &Movie, wanted: &[TrackTold]) -> bool {
    let mut same = movie.start_us() == 0 && movie.track_count() as usize == wanted.len();
    for t in 0..movie.track_count() {
        same = same && track_at(movie, t) == wanted.get(t as usize).copied();
    }
    same
}

/// Whether a movie tells this of samples, each of a track and a number, and of when they are shown.
fn has_samples(movie: &Movie, wanted: &[(u32, u64, PlainSample, i64)]) -> bool {
    let mut same = true;
    for (t, i, sample, shown_us) in wanted {
        same = same && sample_at(movie, *t, *i) == Some((*sample, *shown_us));
    }
    same
}

/// A sync sample with the first entry, composed when it is decoded.
fn sync(decode: u32, place: u64, size: u32) -> PlainSample {
    PlainSample {
        decode: u64::from(decode),
        compose: i64::from(decode),
        sync: true,
        place,
        size,
        description: 1,
    }
}
