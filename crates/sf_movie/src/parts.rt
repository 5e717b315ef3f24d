//! What is kept of a movie.

ghost use Rattle.std.specs.Prelude.{◌≡◌, ◌+◌, ◌^◌, ◌<◌, ◌≤◌, length, IfOk};
ghost use Rattle.sf_meaning.specs.Answers.{Gives};
ghost use Rattle.sf_meaning.specs.inner.Found.{pieces};
ghost use Rattle.sf_movie.specs.inner.Kept.{parts_read, tracks_read};

use crate::track::{Track, track_read, with_cursor};
use sf_cursor::{Cursor, SoundTables};
use sf_list::{Bytes, Items};
use sf_meaning::{Found, MovieFault, in_moov, movie_scale, start_told, tracks_of};
use std::alloc::{AllocError, Global};

/// What is kept of a movie.
#[derive(Drop)]
pub(crate) struct MovieParts<S> {
    /// Ticks a second of the movie's own times.
    pub scale: u32,
    /// When the file starts, in microseconds after the series' start.
    pub start_us: u64,
    pub tracks: Items<Track<S>>,
}

// The tracks of a movie with this timescale, in order, each read whole before the next.
fn tracks_read(
    alloc: Global,
    file_len: u64,
    movie_scale: u32,
    traks: &[Found<'_>],
) -> Result<Items<Track<SoundTables>>, MovieFault>
    requires { length traks.now ≤ 64 }
    ensures { Gives MovieFault.NoMemory (λ tracks. tracks) result (tracks_read file_len movie_scale 0 (pieces traks.now)) }
{
    let mut tracks = Items::new(alloc);
    for (i, trak) in traks.iter().enumerate() {
        match track_read(alloc, file_len, movie_scale, i as u32, *trak) {
            Ok(track) => tracks.push(track)?,
            Err(fault) => return Err(fault),
        }
    }
    Ok(tracks)
}

// What is read of the movie that the body of a movie box is, which begins at a place of a file of so many
// bytes, or the first thing that is wrong with it.
#[tactic(auto, unfolding(crate::specs::inner::Kept::parts_read))]
fn parts_read(
    alloc: Global,
    moov: &[u8],
    at: u64,
    file_len: u64,
) -> Result<MovieParts<SoundTables>, MovieFault>
    requires { at + length moov.now < 2 ^ 64 }
    ensures { Gives MovieFault.NoMemory (λ parts. parts) result (parts_read moov.now at file_len) }
{
    let boxes = in_moov(alloc, moov, at)?;
    let traks = tracks_of(alloc, boxes.as_slice())?;
    let scale = movie_scale(at, boxes.as_slice())?;
    let tracks = tracks_read(alloc, file_len, scale, &traks)?;
    let start_us = start_told(alloc, boxes.as_slice())?;
    Ok(MovieParts {
        scale,
        start_us,
        tracks,
    })
}

// The same tracks with cursors over their tables.
fn with_cursors(
    alloc: Global,
    tracks: Items<Track<SoundTables>>,
) -> Result<Items<Track<Cursor>>, AllocError>
    ensures { IfOk result (λ all. all ≡ tracks) }
{
    let mut all = Items::from_vec(Vec::with_capacity(alloc, tracks.len())?);
    for track in tracks.into_vec() {
        let track = with_cursor(alloc, track)?;
        all.push(track)?;
    }
    Ok(all)
}

/// What is kept of the movie that the body of a movie box is, which begins at a place of a file of so many
/// bytes, or the first thing that is wrong with it. The body is given back before anything is put beside the
/// tables, so that at no time more is held than the movie box and as many bytes again.
pub(crate) fn parts_kept(
    alloc: Global,
    moov: Bytes,
    at: u64,
    file_len: u64,
) -> Result<MovieParts<Cursor>, MovieFault>
    requires { at + length moov < 2 ^ 64 }
    ensures { Gives MovieFault.NoMemory (λ parts. parts) result (parts_read moov at file_len) }
{
    let parts = parts_read(alloc, moov.as_slice(), at, file_len)?;
    drop(moov);
    let tracks = with_cursors(alloc, parts.tracks)?;
    Ok(MovieParts {
        scale: parts.scale,
        start_us: parts.start_us,
        tracks,
    })
}
