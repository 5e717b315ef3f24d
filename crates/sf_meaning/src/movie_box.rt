//! The movie box (ISO/IEC 14496-12, 8.2.1), as the movie that it is.

ghost use Rattle.std.specs.Prelude.{◌≡◌, ◌+◌, ◌^◌, ◌<◌, ◌≤◌, ◌⊎◌, length, codes, OnOk, IfOk, IfErr, Ok, Err};
ghost use Rattle.sf_box.specs.Parts.{child_piece};
ghost use Rattle.sf_meaning.specs.Answers.{Gives};
ghost use Rattle.sf_meaning.specs.inner.Found.{pieces, maybe_piece};
ghost use Rattle.sf_meaning.specs.Headers.{start_in};
ghost use Rattle.sf_meaning.specs.Movie.{not_compressed, few_tracks, tracks_of, in_moov, header_scale, movie_scale, movie_in};

use crate::boxes::{boxes_in, first, of_kind};
use crate::faults::{HeadFault, MovieFault};
use crate::found::Found;
use crate::heads::needed_in;
use crate::movie::PlainMovie;
use crate::sfts::read_sfts;
use crate::timescale::read_timescale;
use crate::tracks::tracks_in;
use sf_box::{BoxFault, ChildrenFault, FourCc};
use sf_list::Items;
use std::alloc::{AllocError, Global};

/// The boxes inside a movie box whose body begins at a place, or the first fault.
pub fn in_moov<'a>(alloc: Global, moov: &'a [u8], at: u64) -> Result<Items<Found<'a>>, MovieFault>
    requires { at + length moov.now < 2 ^ 64 }
    ensures { Gives MovieFault.NoMemory pieces result (in_moov moov.now at) }
{
    match boxes_in(alloc, moov, at) {
        Ok(boxes) => Ok(boxes),
        Err(ChildrenFault::Short { at }) => Err(MovieFault::Tiling(BoxFault::Short { at })),
        Err(ChildrenFault::Overrun { at, size }) => {
            Err(MovieFault::Tiling(BoxFault::Overrun { at, size }))
        }
        Err(ChildrenFault::NoMemory) => Err(MovieFault::NoMemory),
    }
}

// A movie box isn't compressed.
fn not_compressed(boxes: &[Found<'_>]) -> Result<(), MovieFault>
    ensures { Gives MovieFault.NoMemory (λ _. tt) result (not_compressed (pieces boxes.now)) }
{
    match first(boxes, FourCc(*b"cmov")) {
        Some(cmov) => Err(MovieFault::Compressed { at: cmov.head.at }),
        None => Ok(()),
    }
}

// There are not too many tracks.
fn few_tracks(traks: &[Found<'_>]) -> Result<(), MovieFault>
    ensures few { Gives MovieFault.NoMemory (λ _. tt) result (few_tracks (pieces traks.now)) }
    ensures count { OnOk result (length traks.now ≤ 64) }
{
    if traks.len() > 64 {
        let more = traks[64];
        return Err(MovieFault::TooManyTracks { at: more.head.at });
    }
    Ok(())
}

/// The boxes of tracks among the boxes of a movie box, of which there are at most 64.
#[tactic(auto, unfolding(crate::specs::Movie::tracks_of))]
pub fn tracks_of<'a>(alloc: Global, boxes: &[Found<'a>]) -> Result<Vec<Found<'a>>, MovieFault>
    ensures found { Gives MovieFault.NoMemory (λ traks. pieces traks.items) result (tracks_of (pieces boxes.now)) }
    ensures few { IfOk result (λ traks. length traks.items ≤ 64) }
{
    not_compressed(boxes)?;
    let traks = of_kind(alloc, boxes, FourCc(*b"trak"))?;
    few_tracks(&traks)?;
    Ok(traks)
}

/// Ticks a second, by the movie header among the boxes of a movie box whose body begins at a place.
#[tactic(auto, unfolding(crate::specs::Movie::header_scale))]
pub fn header_scale(at: u64, boxes: &[Found<'_>]) -> Result<u32, HeadFault>
    ensures { Gives HeadFault.NoMemory (λ scale. scale) result (header_scale at (pieces boxes.now)) }
{
    let mvhd = needed_in(at, FourCc(*b"mvhd"), boxes)?;
    read_timescale(mvhd.head, mvhd.body)
}

/// The same as a step of the movie.
pub fn movie_scale(at: u64, boxes: &[Found<'_>]) -> Result<u32, MovieFault>
    ensures { Gives MovieFault.NoMemory (λ scale. scale) result (movie_scale at (pieces boxes.now)) }
{
    let scale = header_scale(at, boxes)?;
    Ok(scale)
}

// When the file starts, by the first user data box.
fn start_of(alloc: Global, udta: Option<Found<'_>>) -> Result<u64, AllocError>
    ensures { IfOk result (λ start_us. start_us ≡ start_in (maybe_piece udta.entry)) }
{
    match udta {
        Some(udta) => read_sfts(alloc, udta.head, udta.body),
        None => Ok(0),
    }
}

/// When the file starts, in microseconds after the series' start, by the first user data box among the
/// boxes of a movie box; 0 where it doesn't say so.
pub fn start_told(alloc: Global, boxes: &[Found<'_>]) -> Result<u64, AllocError>
    ensures { IfOk result (λ start_us. start_us ≡ start_in (child_piece (pieces boxes.now) (codes "udta"))) }
{
    start_of(alloc, first(boxes, FourCc(*b"udta")))
}

/// The movie that the body of a movie box is, which begins at a place, of a file of so many bytes.
#[tactic(auto, unfolding(crate::specs::Movie::movie_in))]
pub(crate) fn movie_in(
    alloc: Global,
    moov: &[u8],
    at: u64,
    file_len: u64,
) -> Result<PlainMovie, MovieFault>
    requires { at + length moov.now < 2 ^ 64 }
    ensures { Gives MovieFault.NoMemory (λ movie. movie) result (movie_in moov.now at file_len) }
{
    let boxes = in_moov(alloc, moov, at)?;
    let traks = tracks_of(alloc, boxes.as_slice())?;
    let scale = movie_scale(at, boxes.as_slice())?;
    let tracks = tracks_in(alloc, file_len, scale, &traks)?;
    let start_us = start_told(alloc, boxes.as_slice())?;
    Ok(PlainMovie {
        scale,
        start_us,
        tracks,
    })
}

/// The movie that the body of a movie box (ISO/IEC 14496-12, 8.2.1) is, with every table expanded, or
/// the first thing that is wrong with it. The body begins at a place of a file of so many bytes.
pub fn plain_movie(
    alloc: Global,
    moov: &[u8],
    moov_at: u64,
    file_len: u64,
) -> Result<PlainMovie, MovieFault>
    requires { moov_at + length moov.now < 2 ^ 64 }
    ensures movie { IfOk result (λ movie. movie_in moov.now moov_at file_len ≡ Ok movie) }
    ensures fault { IfErr result (λ fault. (fault ≡ MovieFault.NoMemory) ⊎ (movie_in moov.now moov_at file_len ≡ Err fault)) }
{
    movie_in(alloc, moov, moov_at, file_len)
}
