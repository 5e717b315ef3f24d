//! The headers of a movie box as they are read (ISO/IEC 14496-12, 8.2.2, 8.3 to 8.7.2, 8.10.1).

ghost use Rattle.std.specs.Prelude.{◌≡◌, ◌≢◌, ◌+◌, ◌^◌, ◌<◌, length, IfOk};
ghost use Rattle.sf_meaning.specs.Answers.{Gives};
ghost use Rattle.sf_meaning.specs.inner.Found.{piece, pieces};
ghost use Rattle.sf_meaning.specs.inner.Tracks.{heads_view};
ghost use Rattle.sf_moov.specs.TrakHeads.{headers_in, trak_head, traks_told};

use sf_box::FourCc;
use sf_list::Items;
use sf_meaning::{
    Found, HeadFault, TrackHeads, body_at, boxes_at, header_scale, heads_in, of_kind, start_told,
};
use std::alloc::{AllocError, Global};

/// What the headers of a track say.
#[derive(Drop)]
pub struct TrakHead {
    /// The place of the track's box, in bytes.
    pub at: u64,
    /// Ticks a second.
    pub scale: u32,
    /// How long nothing is shown first, in ticks of the movie.
    pub lead: u64,
    /// What is shown first after that, in ticks of the track.
    pub media_time: u64,
    /// Where the body of the sample table box begins, in bytes.
    pub stbl_at: u64,
    /// How many bytes that body has.
    pub stbl_len: u64,
    /// For each data reference, whether it names this very file.
    pub self_held: Items<bool>,
}

/// What the headers of a movie say.
#[derive(Drop)]
pub struct Headers {
    /// Ticks a second of the movie's own times.
    pub scale: u32,
    /// When the file starts, in microseconds after the series' start.
    pub start_us: u64,
    /// The tracks in order, up to the first one in which something is wrong.
    pub traks: Items<TrakHead>,
    /// What is wrong there, which is never want of memory.
    pub fault: Option<HeadFault>,
}

// What is told of the headers of a track.
fn trak_head(trak: Found<'_>, heads: TrackHeads<'_>) -> TrakHead
    ensures { result ≡ trak_head (piece trak.entry) (heads_view heads.entry) }
{
    TrakHead {
        at: trak.head.at,
        scale: heads.scale,
        lead: heads.shift.lead,
        media_time: heads.shift.media_time,
        stbl_at: body_at(heads.stbl),
        stbl_len: heads.stbl.body.len() as u64,
        self_held: heads.own,
    }
}

// A fault that isn't want of memory.
fn told_fault(fault: HeadFault) -> Result<HeadFault, AllocError>
    ensures same { IfOk result (λ told. told ≡ fault) }
    ensures free { IfOk result (λ told. told ≢ HeadFault.NoMemory) }
{
    match fault {
        HeadFault::NoMemory => Err(AllocError),
        fault => Ok(fault),
    }
}

// The headers of tracks of a movie with this timescale, up to the first fault inside one.
fn traks_told(
    alloc: Global,
    movie_scale: u32,
    traks: &[Found<'_>],
) -> Result<(Items<TrakHead>, Option<HeadFault>), AllocError>
    ensures { IfOk result (λ told. traks_told movie_scale (pieces traks.now) ≡ (told.0, told.1)) }
{
    let mut told = Items::new(alloc);
    for trak in traks {
        match heads_in(alloc, movie_scale, *trak) {
            Ok(heads) => told.push(trak_head(*trak, heads))?,
            Err(fault) => return Ok((told, Some(told_fault(fault)?))),
        }
    }
    Ok((told, None))
}

/// The headers of the body of a movie box (8.2.1), whose places count from the base: those of the movie,
/// and of the tracks up to the first one in which something is wrong. It errs with the first fault of the
/// boxes or of the movie header, or where there is no memory.
#[tactic(auto, unfolding(crate::specs::TrakHeads::headers_in))]
pub fn read_headers(alloc: Global, moov: &[u8], base: u64) -> Result<Headers, HeadFault>
    requires { base + length moov.now < 2 ^ 64 }
    ensures { Gives HeadFault.NoMemory (λ headers. headers) result (headers_in base moov.now) }
{
    let boxes = boxes_at(alloc, moov, base)?;
    let scale = header_scale(base, boxes.as_slice())?;
    let found = of_kind(alloc, boxes.as_slice(), FourCc(*b"trak"))?;
    let (traks, fault) = traks_told(alloc, scale, &found)?;
    let start_us = start_told(alloc, boxes.as_slice())?;
    Ok(Headers {
        scale,
        start_us,
        traks,
        fault,
    })
}
