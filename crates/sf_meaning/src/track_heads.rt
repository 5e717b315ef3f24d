//! The headers of a track (ISO/IEC 14496-12, 8.3 to 8.7.2).

ghost use Rattle.std.specs.Prelude.{◌≡◌};
ghost use Rattle.sf_meaning.specs.Answers.{Gives};
ghost use Rattle.sf_meaning.specs.Edits.{shift_of};
ghost use Rattle.sf_meaning.specs.inner.Found.{piece, pieces, maybe_piece};
ghost use Rattle.sf_meaning.specs.References.{references_of};
ghost use Rattle.sf_meaning.specs.Steps.{body_at};
ghost use Rattle.sf_meaning.specs.TrackHeads.{media_in, information_in, heads_in};
ghost use Rattle.sf_meaning.specs.inner.Tracks.{heads_view};

use crate::boxes::first;
use crate::dref::read_dref;
use crate::elst::{Shift, UNSHIFTED, read_elst};
use crate::faults::HeadFault;
use crate::found::Found;
use crate::heads::{inside, needed_in};
use crate::timescale::read_timescale;
use sf_box::FourCc;
use sf_list::Items;
use std::alloc::Global;

/// What the headers of a track say.
#[derive(Drop)]
pub struct TrackHeads<'a> {
    /// Ticks a second of its media.
    pub scale: u32,
    pub shift: Shift,
    /// For each data reference, whether it names this very file.
    pub own: Items<bool>,
    /// The sample table box.
    pub stbl: Found<'a>,
}

/// Where the body of a box begins.
pub fn body_at(found: Found<'_>) -> u64
    ensures { result ≡ body_at (piece found.entry) }
{
    found.head.at + found.head.head
}

// Ticks a second of media, and the boxes inside.
#[tactic(auto, unfolding(crate::specs::TrackHeads::media_in))]
fn media_in<'a>(alloc: Global, mdia: Found<'a>) -> Result<(u32, Items<Found<'a>>), HeadFault>
    ensures { Gives HeadFault.NoMemory (λ x. (x.0, pieces x.1)) result (media_in (piece mdia.entry)) }
{
    let boxes = inside(alloc, mdia)?;
    let mdhd = needed_in(body_at(mdia), FourCc(*b"mdhd"), boxes.as_slice())?;
    let scale = read_timescale(mdhd.head, mdhd.body)?;
    Ok((scale, boxes))
}

// What an edit box says.
#[tactic(auto, unfolding(crate::specs::Edits::shift_of))]
fn shift_of(
    alloc: Global,
    movie_scale: u32,
    scale: u32,
    edts: Option<Found<'_>>,
) -> Result<Shift, HeadFault>
    ensures { Gives HeadFault.NoMemory (λ shift. shift) result (shift_of movie_scale scale (maybe_piece edts.entry)) }
{
    let Some(edts) = edts else {
        return Ok(UNSHIFTED);
    };
    let boxes = inside(alloc, edts)?;
    match first(boxes.as_slice(), FourCc(*b"elst")) {
        Some(elst) => read_elst(elst.head, elst.body, movie_scale, scale),
        None => Ok(UNSHIFTED),
    }
}

// For each data reference of a data information box, whether it names this very file.
#[tactic(auto, unfolding(crate::specs::References::references_of))]
fn references_of(alloc: Global, dinf: Option<Found<'_>>) -> Result<Items<bool>, HeadFault>
    ensures { Gives HeadFault.NoMemory (λ own. own) result (references_of (maybe_piece dinf.entry)) }
{
    let Some(dinf) = dinf else {
        return Ok(Items::new(alloc));
    };
    let boxes = inside(alloc, dinf)?;
    match first(boxes.as_slice(), FourCc(*b"dref")) {
        Some(dref) => read_dref(alloc, dref.head, dref.body),
        None => Ok(Items::new(alloc)),
    }
}

// The data references of media, and their sample table box.
#[tactic(auto, unfolding(crate::specs::TrackHeads::information_in))]
fn information_in<'a>(alloc: Global, minf: Found<'a>) -> Result<(Items<bool>, Found<'a>), HeadFault>
    ensures { Gives HeadFault.NoMemory (λ x. (x.0, piece x.1)) result (information_in (piece minf.entry)) }
{
    let boxes = inside(alloc, minf)?;
    let own = references_of(alloc, first(boxes.as_slice(), FourCc(*b"dinf")))?;
    let stbl = needed_in(body_at(minf), FourCc(*b"stbl"), boxes.as_slice())?;
    Ok((own, stbl))
}

/// The headers of a track box of a movie with this timescale, or the first thing that is wrong with them.
#[tactic(auto, unfolding(crate::specs::TrackHeads::heads_in))]
pub fn heads_in<'a>(
    alloc: Global,
    movie_scale: u32,
    trak: Found<'a>,
) -> Result<TrackHeads<'a>, HeadFault>
    ensures { Gives HeadFault.NoMemory heads_view result (heads_in movie_scale (piece trak.entry)) }
{
    let boxes = inside(alloc, trak)?;
    let mdia = needed_in(body_at(trak), FourCc(*b"mdia"), boxes.as_slice())?;
    let (scale, in_mdia) = media_in(alloc, mdia)?;
    let edts = first(boxes.as_slice(), FourCc(*b"edts"));
    let shift = shift_of(alloc, movie_scale, scale, edts)?;
    let minf = needed_in(body_at(mdia), FourCc(*b"minf"), in_mdia.as_slice())?;
    let (own, stbl) = information_in(alloc, minf)?;
    Ok(TrackHeads {
        scale,
        shift,
        own,
        stbl,
    })
}
