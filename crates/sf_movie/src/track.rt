//! A track of a movie, as it is kept: its headers, its sample entries, and what its samples stand in.

ghost use Rattle.std.specs.Prelude.{◌≡◌, ◌+◌, ◌^◌, ◌<◌, IfOk};
ghost use Rattle.sf_cursor.specs.Cursor.{tables_in};
ghost use Rattle.sf_meaning.specs.Answers.{Gives};
ghost use Rattle.sf_meaning.specs.Steps.{as_fault, body_at};
ghost use Rattle.sf_meaning.specs.declared.faults.MovieFault.TheVariants as movies;
ghost use Rattle.sf_meaning.specs.inner.Found.{piece};
ghost use Rattle.sf_movie.specs.inner.Kept.{track_read};

use sf_cursor::{Cursor, SoundTables};
use sf_entry::Entries;
use sf_meaning::{
    Found, MovieFault, Shift, TrackKind, body_at, entries_told, heads_told, kind_in, table_boxes,
};
use std::alloc::{AllocError, Global};

/// A track as it is kept.
#[derive(Drop)]
pub(crate) struct Track<S> {
    pub kind: TrackKind,
    /// Ticks a second.
    pub scale: u32,
    pub shift: Shift,
    pub entries: Entries,
    /// What its samples stand in: its tables, and once the movie box is given back, a cursor over them.
    pub samples: S,
}

// The tables of a track with a timescale and so many sample entries.
fn tables_of(
    alloc: Global,
    stbl: Found<'_>,
    scale: u32,
    entries: u32,
) -> Result<SoundTables, MovieFault>
    ensures { Gives MovieFault.NoMemory (λ tables. tables) result (as_fault movies.Table (tables_in (body_at (piece stbl.entry)) scale entries (piece stbl.entry).body)) }
{
    let tables = SoundTables::read(
        alloc,
        stbl.body,
        stbl.head.at + stbl.head.head,
        scale,
        entries,
    )?;
    Ok(tables)
}

/// A track of a number, of a movie with this timescale, in a file of so many bytes, or the first thing
/// that is wrong with it.
#[tactic(auto, unfolding(crate::specs::inner::Kept::track_read))]
pub(crate) fn track_read(
    alloc: Global,
    file_len: u64,
    movie_scale: u32,
    number: u32,
    trak: Found<'_>,
) -> Result<Track<SoundTables>, MovieFault>
    ensures { Gives MovieFault.NoMemory (λ track. track) result (track_read file_len movie_scale number (piece trak.entry)) }
{
    let heads = heads_told(alloc, movie_scale, trak)?;
    let boxes = table_boxes(alloc, heads.stbl)?;
    let at = body_at(heads.stbl);
    let entries = entries_told(alloc, heads.own.as_slice(), at, boxes.as_slice())?;
    let tables = tables_of(alloc, heads.stbl, heads.scale, entries.len() as u32)?;
    tables.held(number, file_len)?;
    Ok(Track {
        kind: kind_in(entries.as_slice()),
        scale: heads.scale,
        shift: heads.shift,
        entries,
        samples: tables,
    })
}

/// The same track with a cursor over its tables.
pub(crate) fn with_cursor(
    alloc: Global,
    track: Track<SoundTables>,
) -> Result<Track<Cursor>, AllocError>
    ensures { IfOk result (λ indexed. indexed ≡ track) }
{
    let samples = Cursor::over(alloc, track.samples)?;
    Ok(Track {
        kind: track.kind,
        scale: track.scale,
        shift: track.shift,
        entries: track.entries,
        samples,
    })
}
