//! A file, as the movie that it is.

ghost use Rattle.std.specs.Prelude.{◌≡◌, ◌⊎◌, IfOk, IfErr, Ok, Err};
ghost use Rattle.sf_meaning.specs.Answers.{Gives};
ghost use Rattle.sf_meaning.specs.inner.Found.{piece, pieces};
ghost use Rattle.sf_meaning.specs.Movie.{top_boxes, only_moov, movie};

use crate::boxes::of_kind;
use crate::faults::MovieFault;
use crate::found::Found;
use crate::movie::PlainMovie;
use crate::movie_box::movie_in;
use sf_box::{FourCc, next_head};
use sf_list::Items;
use std::alloc::Global;

// The boxes of a file.
fn top_boxes<'a>(alloc: Global, file: &'a [u8]) -> Result<Items<Found<'a>>, MovieFault>
    ensures { Gives MovieFault.NoMemory pieces result (top_boxes file.now) }
{
    let mut found = Items::new(alloc);
    let mut rest = file;
    let mut at = 0;
    while !rest.is_empty() {
        match next_head(rest, at, true) {
            Ok(head) => {
                let (whole, behind) = rest.split_at(head.size as usize);
                let (_, body) = whole.split_at(head.head as usize);
                found.push(Found { head, body })?;
                rest = behind;
                at += head.size;
            }
            Err(fault) => return Err(MovieFault::Tiling(fault)),
        }
    }
    Ok(found)
}

/// The only movie box among those of a file of so many bytes.
#[tactic(auto, unfolding(crate::specs::Movie::only_moov))]
pub(crate) fn only_moov<'a>(file_len: u64, moovs: &[Found<'a>]) -> Result<Found<'a>, MovieFault>
    ensures { Gives MovieFault.NoMemory piece result (only_moov file_len (pieces moovs.now)) }
{
    match moovs {
        [] => Err(MovieFault::NoMoov { at: file_len }),
        [moov] => {
            if moov.head.size > 268_435_456 {
                return Err(MovieFault::MoovTooLarge {
                    at: moov.head.at,
                    size: moov.head.size,
                });
            }
            Ok(*moov)
        }
        [_, second, ..] => Err(MovieFault::TwoMoov { at: second.head.at }),
    }
}

#[tactic(auto, unfolding(crate::specs::Movie::movie))]
fn movie_of(alloc: Global, file: &[u8]) -> Result<PlainMovie, MovieFault>
    ensures { Gives MovieFault.NoMemory (λ movie. movie) result (movie file.now) }
{
    let boxes = top_boxes(alloc, file)?;
    let moovs = of_kind(alloc, boxes.as_slice(), FourCc(*b"moov"))?;
    let moov = only_moov(file.len() as u64, &moovs)?;
    movie_in(
        alloc,
        moov.body,
        moov.head.at + moov.head.head,
        file.len() as u64,
    )
}

/// The movie that a file's bytes are, with every table expanded, or the first thing that is wrong with
/// them.
pub fn plain_file(alloc: Global, file: &[u8]) -> Result<PlainMovie, MovieFault>
    ensures movie { IfOk result (λ m. movie file.now ≡ Ok m) }
    ensures fault { IfErr result (λ fault. (fault ≡ MovieFault.NoMemory) ⊎ (movie file.now ≡ Err fault)) }
{
    movie_of(alloc, file)
}
