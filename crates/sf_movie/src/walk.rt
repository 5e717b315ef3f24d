//! The walk along the boxes of a file, through its source, and the body of its movie box.

ghost use Rattle.std.specs.Prelude.{◌≡◌, ◌≢◌, ◌+◌, ◌≤◌, ◌<◌, true, ◌∷◌, [], ◌++◌, ℕ, List, length, drop, codes, IfOk};
ghost use Rattle.sf_box.specs.Boxes.{Piece, head_of, piece_of};
ghost use Rattle.sf_meaning.specs.Steps.{as_fault, of_kind};
ghost use Rattle.sf_meaning.specs.declared.faults.MovieFault.TheVariants.{NoMemory, Tiling};
ghost use Rattle.sf_meaning.specs.declared.faults.MovieFault.{MovieFault};
ghost use Rattle.sf_world.specs.Contents.{HasLength};
ghost use Rattle.sf_movie.specs.Loads.{LoadsOver, OfTold, Reads};
ghost use Rattle.sf_movie.specs.inner.Walk.{Fits, Holds, OneFits, Meets, IsOnly, box_at, moov_of};

use crate::load::LoadFault;
use sf_box::{BoxHead, FourCc, read_head};
use sf_list::Bytes;
use sf_meaning::MovieFault;
use sf_world::Source;
use std::alloc::Global;

/// How many bytes a movie box may have.
const GREATEST_MOOV: u64 = 268_435_456;

/// The movie boxes that a walk met.
#[derive(Clone, Copy)]
pub(crate) enum Moovs {
    Nothing,
    One(BoxHead),
    /// Two or more, of which the second stands at this place.
    Several(u64),
}

// The head of the box at a place of a file of so many bytes.
fn head_at<S: Source>(source: &mut S, at: u64, end: u64) -> Result<BoxHead, LoadFault>
    requires place { at < end }
    requires size { (S.seen source.old).size ≡ end }
    requires told { HasLength (S.seen source.old).content end }
    ensures reads { OfTold (S.seen source.old).content (λ file. Reads (λ h. h) result (as_fault Tiling (head_of true at (drop at file)))) }
    ensures fits { IfOk result (λ h. Fits end h) }
    ensures place { IfOk result (λ h. h.at ≡ at) }
    ensures source { LoadsOver (S.seen source.old) (S.seen source.new) result }
{
    let mut first = [0; 16];
    let Ok(count) = source.read_at(at, &mut first) else {
        return Err(LoadFault::ReadFault);
    };
    match read_head(&first[..count], at, end, true) {
        Ok(head) => Ok(head),
        Err(fault) => Err(LoadFault::Refused(MovieFault::Tiling(fault))),
    }
}

// The movie boxes that a walk met, with one box more.
fn with_box(moovs: Moovs, head: BoxHead) -> Moovs
    ensures holds { (file : List ℕ) (ps : List Piece) → Holds file moovs (of_kind (codes "moov") ps)
        → Holds file result (of_kind (codes "moov") (ps ++ box_at head file ∷ [])) }
    ensures fits { (end : ℕ) → OneFits end moovs → Fits end head → OneFits end result }
{
    if head.kind != FourCc(*b"moov") {
        return moovs;
    }
    match moovs {
        Moovs::Nothing => Moovs::One(head),
        Moovs::One(_) => Moovs::Several(head.at),
        Moovs::Several(second) => Moovs::Several(second),
    }
}

// The movie boxes among all boxes of a file of so many bytes.
fn all_moovs<S: Source>(source: &mut S, end: u64) -> Result<Moovs, LoadFault>
    requires size { (S.seen source.old).size ≡ end }
    requires told { HasLength (S.seen source.old).content end }
    ensures meets { OfTold (S.seen source.old).content (λ file. Meets file result) }
    ensures fits { IfOk result (λ moovs. OneFits end moovs) }
    ensures source { LoadsOver (S.seen source.old) (S.seen source.new) result }
{
    let mut moovs = Moovs::Nothing;
    let mut at = 0;
    while at < end {
        let head = head_at(source, at, end)?;
        moovs = with_box(moovs, head);
        at += head.size;
    }
    Ok(moovs)
}

// The only one of the movie boxes of a file of so many bytes.
#[tactic(auto, unfolding(sf_meaning::specs::Movie::only_moov))]
fn only(moovs: Moovs, end: u64) -> Result<BoxHead, MovieFault>
    requires { OneFits end moovs }
    ensures only { (file : List ℕ) (ps : List Piece) → Holds file moovs ps → IsOnly end file ps result }
    ensures fits { IfOk result (λ h. Fits end h) }
    ensures short { IfOk result (λ h. h.size ≤ 268435456) }
    ensures free { result ≢ Err NoMemory }
{
    match moovs {
        Moovs::Nothing => Err(MovieFault::NoMoov { at: end }),
        Moovs::One(head) => {
            if head.size > GREATEST_MOOV {
                return Err(MovieFault::MoovTooLarge {
                    at: head.at,
                    size: head.size,
                });
            }
            Ok(head)
        }
        Moovs::Several(second) => Err(MovieFault::TwoMoov { at: second }),
    }
}

/// The only movie box of a file of so many bytes, or the first fault of the boxes of the file.
pub(crate) fn find_moov<S: Source>(source: &mut S, end: u64) -> Result<BoxHead, LoadFault>
    requires size { (S.seen source.old).size ≡ end }
    requires told { HasLength (S.seen source.old).content end }
    ensures reads { OfTold (S.seen source.old).content (λ file. Reads (λ h. box_at h file) result (moov_of file)) }
    ensures fits { IfOk result (λ h. Fits end h) }
    ensures short { IfOk result (λ h. h.size ≤ 268435456) }
    ensures source { LoadsOver (S.seen source.old) (S.seen source.new) result }
{
    let moovs = all_moovs(source, end)?;
    match only(moovs, end) {
        Ok(head) => Ok(head),
        Err(fault) => Err(LoadFault::Refused(fault)),
    }
}

/// The body of a box of a file of so many bytes.
pub(crate) fn read_body<S: Source>(
    alloc: Global,
    source: &mut S,
    head: BoxHead,
    end: u64,
) -> Result<Bytes, LoadFault>
    requires fits { Fits end head }
    requires size { (S.seen source.old).size ≡ end }
    ensures body { IfOk result (λ body. OfTold (S.seen source.old).content (λ file. body ≡ (box_at head file).body)) }
    ensures length { IfOk result (λ body. head.head + length body ≤ head.size) }
    ensures source { LoadsOver (S.seen source.old) (S.seen source.new) result }
    ensures refused { (fault : MovieFault) → result ≢ Err (LoadFault.Refused fault) }
{
    let Ok(mut body) = vec![in alloc; 0u8; (head.size - head.head) as usize] else {
        return Err(LoadFault::NoMemory);
    };
    match source.read_at(head.at + head.head, &mut body) {
        Ok(_) => Ok(Bytes::from_vec(body)),
        Err(_) => Err(LoadFault::ReadFault),
    }
}
