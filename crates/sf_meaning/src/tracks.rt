//! The tracks of a movie (ISO/IEC 14496-12, 8.3.1), each read whole before the next.

ghost use Rattle.std.specs.Prelude.{◌≡◌, ◌^◌, ◌≤◌, ◌<◌, length, codes, IfOk};
ghost use Rattle.sf_entry.specs.Stsd.{entries_of};
ghost use Rattle.sf_meaning.specs.Answers.{Gives};
ghost use Rattle.sf_meaning.specs.inner.Found.{piece, pieces};
ghost use Rattle.sf_meaning.specs.References.{names_other};
ghost use Rattle.sf_meaning.specs.SampleTables.{in_stbl, needed_table};
ghost use Rattle.sf_meaning.specs.Steps.{as_fault, body_at};
ghost use Rattle.sf_meaning.specs.TrackHeads.{heads_in};
ghost use Rattle.sf_meaning.specs.TrackSamples.{tables_told};
ghost use Rattle.sf_meaning.specs.Tracks.{all_own, kind_of, kind_in, entries_told, parts_in, track_in, tracks_in};
ghost use Rattle.sf_meaning.specs.declared.faults.MovieFault.TheVariants as movies;
ghost use Rattle.sf_meaning.specs.inner.TrackTables.{IsInOrder, tables_view};
ghost use Rattle.sf_meaning.specs.inner.Tracks.{heads_view};

use crate::faults::MovieFault;
use crate::found::Found;
use crate::movie::{PlainTrack, TrackKind};
use crate::track_heads::{TrackHeads, body_at, heads_in};
use crate::track_samples::samples_held;
use crate::track_tables::{Tables, in_stbl, needed_table, tables_told};
use sf_box::FourCc;
use sf_entry::{Entries, Entry, EntryAt, read_stsd};
use sf_list::Items;
use std::alloc::Global;

/// The headers of a track of a movie with this timescale, as a step of the movie.
pub fn heads_told<'a>(
    alloc: Global,
    movie_scale: u32,
    trak: Found<'a>,
) -> Result<TrackHeads<'a>, MovieFault>
    ensures { Gives MovieFault.NoMemory heads_view result (as_fault movies.Head (heads_in movie_scale (piece trak.entry))) }
{
    let heads = heads_in(alloc, movie_scale, trak)?;
    Ok(heads)
}

/// The boxes inside a sample table box, as a step of the movie.
pub fn table_boxes<'a>(alloc: Global, stbl: Found<'a>) -> Result<Items<Found<'a>>, MovieFault>
    ensures { Gives MovieFault.NoMemory pieces result (as_fault movies.Table (in_stbl (piece stbl.entry))) }
{
    let boxes = in_stbl(alloc, stbl)?;
    Ok(boxes)
}

// The sample description box.
fn stsd_in<'a>(at: u64, boxes: &[Found<'a>]) -> Result<Found<'a>, MovieFault>
    ensures { Gives MovieFault.NoMemory piece result (as_fault movies.Table (needed_table at (codes "stsd") (pieces boxes.now))) }
{
    let stsd = needed_table(at, FourCc(*b"stsd"), boxes)?;
    Ok(stsd)
}

// The entries of a sample description box.
fn entries_in(alloc: Global, stsd: Found<'_>) -> Result<Entries, MovieFault>
    ensures entries { Gives MovieFault.NoMemory (λ entries. entries) result (as_fault movies.Entry (entries_of (body_at (piece stsd.entry)) stsd.entry.body.now)) }
    ensures few { IfOk result (λ entries. length entries < 2 ^ 32) }
{
    let entries = read_stsd(alloc, stsd.body, stsd.head.at + stsd.head.head)?;
    Ok(entries)
}

// Whether the data reference of a number, from 1, names another file.
fn names_other(own: &[bool], number: u16) -> bool
    ensures { result ≡ names_other own.now number }
{
    if number == 0 {
        return false;
    }
    match own.get(usize::from(number - 1)) {
        Some(own) => !*own,
        None => false,
    }
}

// No sample entry lies in another file.
fn all_own(own: &[bool], entries: &[EntryAt]) -> Result<(), MovieFault>
    ensures { Gives MovieFault.NoMemory (λ _. tt) result (all_own own.now entries.now) }
{
    for entry in entries {
        if names_other(own, entry.reference) {
            return Err(MovieFault::External { at: entry.at });
        }
    }
    Ok(())
}

// What a sample entry describes.
fn kind_of(entry: &Entry) -> TrackKind
    ensures { result ≡ kind_of entry.now }
{
    match entry {
        Entry::Avc(_) => TrackKind::Avc,
        Entry::Aac(_) => TrackKind::Aac,
        Entry::Other(_) => TrackKind::Other,
    }
}

/// What a track's samples are, by its first sample entry.
pub fn kind_in(entries: &[EntryAt]) -> TrackKind
    ensures { result ≡ kind_in entries.now }
{
    match entries {
        [first, ..] => kind_of(&first.entry),
        [] => TrackKind::Other,
    }
}

/// The sample entries among the boxes of a sample table box whose body begins at a place. None of them lies
/// in another file, by what is told of each data reference.
#[tactic(auto, unfolding(crate::specs::Tracks::entries_told))]
pub fn entries_told(
    alloc: Global,
    own: &[bool],
    at: u64,
    boxes: &[Found<'_>],
) -> Result<Entries, MovieFault>
    ensures told { Gives MovieFault.NoMemory (λ entries. entries) result (entries_told own.now at (pieces boxes.now)) }
    ensures few { IfOk result (λ entries. length entries < 2 ^ 32) }
{
    let stsd = stsd_in(at, boxes)?;
    let entries = entries_in(alloc, stsd)?;
    all_own(own, entries.as_slice())?;
    Ok(entries)
}

// The tables among the same boxes.
fn track_tables(alloc: Global, at: u64, boxes: &[Found<'_>]) -> Result<Tables, MovieFault>
    ensures told { Gives MovieFault.NoMemory tables_view result (as_fault movies.Table (tables_told at (pieces boxes.now))) }
    ensures order { IfOk result IsInOrder }
{
    let tables = tables_told(alloc, at, boxes)?;
    Ok(tables)
}

// A track of a number, of a movie with this timescale.
#[tactic(auto, unfolding(crate::specs::Tracks::track_in, crate::specs::Tracks::parts_in))]
fn track_in(
    alloc: Global,
    file_len: u64,
    movie_scale: u32,
    number: u32,
    trak: Found<'_>,
) -> Result<PlainTrack, MovieFault>
    ensures { Gives MovieFault.NoMemory (λ track. track) result (track_in file_len movie_scale number (piece trak.entry)) }
{
    let heads = heads_told(alloc, movie_scale, trak)?;
    let boxes = table_boxes(alloc, heads.stbl)?;
    let at = body_at(heads.stbl);
    let entries = entries_told(alloc, heads.own.as_slice(), at, boxes.as_slice())?;
    let tables = track_tables(alloc, at, boxes.as_slice())?;
    let count = entries.len() as u64;
    let samples = samples_held(alloc, file_len, number, heads.scale, count, &tables)?;
    Ok(PlainTrack {
        kind: kind_in(entries.as_slice()),
        scale: heads.scale,
        lead: heads.shift.lead,
        media_time: heads.shift.media_time,
        samples,
    })
}

/// The tracks of a movie with this timescale, in order.
pub(crate) fn tracks_in(
    alloc: Global,
    file_len: u64,
    movie_scale: u32,
    traks: &[Found<'_>],
) -> Result<Items<PlainTrack>, MovieFault>
    requires { length traks.now ≤ 64 }
    ensures { Gives MovieFault.NoMemory (λ tracks. tracks) result (tracks_in file_len movie_scale 0 (pieces traks.now)) }
{
    let mut tracks = Items::new(alloc);
    for (i, trak) in traks.iter().enumerate() {
        match track_in(alloc, file_len, movie_scale, i as u32, *trak) {
            Ok(track) => tracks.push(track)?,
            Err(fault) => return Err(fault),
        }
    }
    Ok(tracks)
}
