//! The boxes of the tracks, and the movie box itself (ISO/IEC 14496-12, 8.2.1, 8.3.1).

ghost use Rattle.std.specs.Prelude.{◌≡◌, ℕ, ◌+◌, ◌^◌, ◌<◌, ◌≤◌, List, [], ◌∷◌, ◌++◌, codes, length, take, OnOk, OnErr, if◌then◌else◌};
ghost use Rattle.std.specs.List.{AllByRecursion};
ghost use Rattle.sf_box.specs.Boxes.{box_of};
ghost use Rattle.sf_box.specs.Parts.{tiled};
ghost use Rattle.sf_meaning.specs.WrittenHeaders.{in_udta};
ghost use Rattle.sf_layout.specs.Headers.{edts_parts};
ghost use Rattle.sf_layout.specs.MovieBox.{trak_body, traks_from, moov_of};
ghost use Rattle.sf_moov.specs.Heads.{HasEnd, AreHeads, HaveLengths};

use crate::headers::{put_edts, put_mvhd, put_tkhd};
use crate::lengths::longest;
use crate::media::put_mdia;
use sf_box::{FourCc, begin_box, end_box, put_box};
use sf_layout::TrackHead;
use sf_list::Bytes;
use std::alloc::AllocError;

// Puts the edit box where the track doesn't begin with the file.
#[tactic(auto, using(sf_box::proofs::BoxLaws::length_facts), unfolding(sf_box::specs::Parts::tiled))]
fn put_edits(out: &mut Bytes, head: &TrackHead) -> Result<(), AllocError>
    requires { HasEnd head.now }
    ensures put { OnOk result (out.new ≡ out.old ++ tiled (edts_parts head.now)) }
    ensures length { OnOk result (length out.new ≤ length out.old + 64) }
    ensures grows { take (length out.old) out.new ≡ out.old }
{
    if head.lead_us == 0 {
        return Ok(());
    }
    put_edts(out, head)
}

// Puts the box of the track of a number (8.3.1), with this sample table box.
#[tactic(auto, using(sf_box::proofs::BoxLaws::length_facts), unfolding(sf_box::specs::Parts::tiled, sf_layout::specs::MovieBox::trak_body))]
fn put_trak(out: &mut Bytes, number: u32, head: &TrackHead, stbl: &[u8]) -> Result<(), AllocError>
    requires head { HasEnd head.now }
    requires size { length stbl.now + 385 < 2 ^ 32 }
    ensures put { OnOk result (out.new ≡ out.old ++ box_of (codes "trak") (trak_body number head.now stbl.now)) }
    ensures grows { take (length out.old) out.new ≡ out.old }
{
    let mark = begin_box(out, FourCc(*b"trak"))?;
    put_tkhd(out, number, head)?;
    put_edits(out, head)?;
    put_mdia(out, head, stbl)?;
    end_box(out, mark);
    Ok(())
}

// Puts the boxes of tracks, numbered from here on, each with its sample table box.
#[tactic(auto, using(crate::proofs::BoxLengths::trak_least), unfolding(sf_box::specs::Parts::tiled))]
fn put_traks(
    out: &mut Bytes,
    number: u32,
    heads: &[TrackHead],
    stbls: &[Bytes],
) -> Result<(), AllocError>
    requires heads { AllByRecursion HasEnd heads.now }
    requires number { number + length heads.now < 2 ^ 32 }
    requires size { length (tiled (traks_from number heads.now stbls.now)) + 140 < 2 ^ 32 }
    ensures put { OnOk result (out.new ≡ out.old ++ tiled (traks_from number heads.now stbls.now)) }
    ensures grows { take (length out.old) out.new ≡ out.old }
{
    let [head, other_heads @ ..] = heads else {
        return Ok(());
    };
    let [stbl, other_stbls @ ..] = stbls else {
        return Ok(());
    };
    put_trak(out, number, head, stbl.as_slice())?;
    put_traks(out, number + 1, other_heads, other_stbls)
}

// Puts the user data box with the box of the file's start, which is this project's own (8.10.1).
#[tactic(auto, using(sf_box::proofs::BoxLaws::length_facts), unfolding(sf_box::specs::Parts::tiled, sf_box::specs::Boxes::be64))]
fn put_udta(out: &mut Bytes, start_us: u64) -> Result<(), AllocError>
    ensures put { OnOk result (out.new ≡ out.old ++ box_of (codes "udta") (tiled (in_udta start_us))) }
    ensures length { OnOk result (length out.new ≡ length out.old + 24) }
    ensures grows { take (length out.old) out.new ≡ out.old }
{
    let mark = begin_box(out, FourCc(*b"udta"))?;
    put_box(out, FourCc(*b"sfts"), &start_us.to_be_bytes())?;
    end_box(out, mark);
    Ok(())
}

// Puts the movie box. Without memory a part of it may be put there.
#[tactic(auto, using(sf_box::proofs::BoxLaws::length_facts), unfolding(sf_layout::specs::MovieBox::moov_of))]
fn put_moov(
    out: &mut Bytes,
    heads: &[TrackHead],
    start_us: u64,
    stbls: &[Bytes],
) -> Result<(), AllocError>
    requires heads { AreHeads heads.now }
    requires size { length (moov_of heads.now start_us stbls.now) < 2 ^ 32 }
    ensures put { OnOk result (out.new ≡ out.old ++ moov_of heads.now start_us stbls.now) }
    ensures grows { take (length out.old) out.new ≡ out.old }
{
    let mark = begin_box(out, FourCc(*b"moov"))?;
    put_mvhd(out, heads.len() as u32, longest(heads))?;
    put_traks(out, 1, heads, stbls)?;
    put_udta(out, start_us)?;
    end_box(out, mark);
    Ok(())
}

/// Puts the movie box (8.2.1) of these tracks at the end, each with its sample table box, in a file
/// that starts so many microseconds after its series. There are at most 64 tracks, and as many
/// sample table boxes, each as long as its head says. Without memory nothing is put there.
pub fn encode_moov(
    heads: &[TrackHead],
    start_us: u64,
    stbls: &[Bytes],
    out: &mut Bytes,
) -> Result<(), AllocError>
    requires heads { AreHeads heads.now }
    requires tables { HaveLengths heads.now stbls.now }
    requires size { length (moov_of heads.now start_us stbls.now) < 2 ^ 32 }
    ensures ok { OnOk result (out.new ≡ out.old ++ moov_of heads.now start_us stbls.now) }
    ensures err { OnErr result (out.new ≡ out.old) }
{
    let before = out.len();
    let put = put_moov(out, heads, start_us, stbls);
    if put.is_err() {
        out.cut(before);
    }
    put
}
