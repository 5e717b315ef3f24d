//! Loaded movies beside those that the plain program gives, which holds the file and a list of its samples.

use super::*;
use sf_meaning::{PlainMovie, PlainTrack, plain_file};

/// Whether a track of a movie is this one.
fn is_track(movie: &Movie, t: u32, scale: u32, plain: &PlainTrack) -> bool {
    if t >= movie.track_count() {
        return false;
    }
    let samples = plain.samples.as_slice();
    if movie.kind(t) != plain.kind || movie.scale(t) != plain.scale {
        return false;
    }
    if movie.count(t) != samples.len() as u64 || scale == 0 {
        return false;
    }
    let lead = u128::from(plain.lead) * 1_000_000 / u128::from(scale);
    if i128::from(movie.lead_us(t)) != lead as i128 {
        return false;
    }
    for i in 0..movie.count(t) {
        if movie.sample(t, i) != samples[i as usize] {
            return false;
        }
    }
    true
}

/// Whether a movie is this one.
fn is_movie(movie: &Movie, plain: &PlainMovie) -> bool {
    if movie.start_us() != plain.start_us || movie.track_count() as usize != plain.tracks.len() {
        return false;
    }
    for (t, track) in plain.tracks.as_slice().iter().enumerate() {
        if !is_track(movie, t as u32, plain.scale, track) {
            return false;
        }
    }
    true
}

/// Whether a file is loaded as the plain program reads it.
fn is_same(alloc: Global, file: &[u8]) -> Result<bool, AllocError> {
    let mut source = source_of(alloc, file, &[])?;
    match (Movie::load(alloc, &mut source), plain_file(alloc, file)) {
        (Ok(movie), Ok(plain)) => Ok(is_movie(&movie, &plain)),
        (Err(LoadFault::Refused(loaded)), Err(fault)) => Ok(loaded == fault),
        _ => Ok(false),
    }
}

/// Whether the file of three samples is so with another byte at a place.
fn is_same_with(alloc: Global, at: usize, byte: u8) -> Result<bool, AllocError> {
    let mut file = Bytes::from_slice(alloc, &SOUND)?;
    if at < file.len() {
        file.patch(at, &[byte]);
    }
    is_same(alloc, file.as_slice())
}

/// The first place in the movie box, which begins at 52, at which another byte makes the file be loaded otherwise:
/// one that is greater by one or by 128, or the most.
fn first_other(alloc: Global) -> Result<Option<usize>, AllocError> {
    for at in 52..640usize {
        let byte = SOUND[at];
        for damaged in [byte.wrapping_add(1), byte ^ 0x80, 0xff] {
            if !is_same_with(alloc, at, damaged)? {
                return Ok(Some(at));
            }
        }
    }
    Ok(None)
}

#[test]
fn damaged_movies_are_as_the_plain_program_reads_them(rt: HostRuntime) -> Result<(), Fail> {
    let same = is_same(rt.alloc(), &SOUND)?;
    let other = first_other(rt.alloc())?;
    assert!(rt; same);
    assert_eq!(rt; other, None);
    Ok(())
}
