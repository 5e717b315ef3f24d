//! The boxes of a track's media, down to its sample table box (ISO/IEC 14496-12, 8.4.1 to 8.4.5, 8.7.1).

ghost use Rattle.std.specs.Prelude.{◌≡◌, ◌+◌, ◌^◌, ◌<◌, [], ◌∷◌, ◌++◌, codes, length, take, OnOk, if◌then◌else◌};
ghost use Rattle.sf_box.specs.Boxes.{box_of};
ghost use Rattle.sf_box.specs.Parts.{tiled};
ghost use Rattle.sf_meaning.specs.WrittenHeaders.{is_long, in_dinf};
ghost use Rattle.sf_layout.specs.Headers.{for_kind, hdlr_body, media_header};
ghost use Rattle.sf_layout.specs.MovieBox.{minf_body, mdia_body};

use crate::headers::put_mdhd;
use sf_box::{FourCc, begin_box, end_box, put_box, put_bytes};
use sf_layout::TrackHead;
use sf_list::Bytes;
use sf_tick::Kind;
use std::alloc::AllocError;

/// The body of the handler box: the media is video (8.4.3).
const VIDEO_HANDLER: [u8; 37] = *b"\0\0\0\0\0\0\0\0vide\0\0\0\0\0\0\0\0\0\0\0\0VideoSamples\0";

/// The body of the handler box: the media is sound (8.4.3).
const SOUND_HANDLER: [u8; 37] = *b"\0\0\0\0\0\0\0\0soun\0\0\0\0\0\0\0\0\0\0\0\0SoundSamples\0";

/// The body of the data reference box: one entry, which says that the samples are in this very file (8.7.2).
const DATA_REFERENCES: [u8; 20] = *b"\0\0\0\0\0\0\0\x01\0\0\0\x0curl \0\0\0\x01";

// Puts the handler box (8.4.3).
#[tactic(auto, using(sf_box::proofs::BoxLaws::length_facts))]
fn put_hdlr(out: &mut Bytes, kind: Kind) -> Result<(), AllocError>
    ensures put { OnOk result (out.new ≡ out.old ++ box_of (codes "hdlr") (hdlr_body kind)) }
    ensures length { OnOk result (length out.new ≡ length out.old + 45) }
    ensures grows { take (length out.old) out.new ≡ out.old }
{
    match kind {
        Kind::Avc => put_box(out, FourCc(*b"hdlr"), &VIDEO_HANDLER),
        Kind::Aac => put_box(out, FourCc(*b"hdlr"), &SOUND_HANDLER),
    }
}

// Puts the header of video, with flags 1, or of sound (12.1.2, 12.2.2).
#[tactic(auto, using(sf_box::proofs::BoxLaws::length_facts))]
fn put_media_header(out: &mut Bytes, kind: Kind) -> Result<(), AllocError>
    ensures put { OnOk result (out.new ≡ out.old ++ box_of (media_header kind).0 (media_header kind).1) }
    ensures length { OnOk result (length out.new ≡ length out.old + (for_kind kind 20 16)) }
    ensures grows { take (length out.old) out.new ≡ out.old }
{
    match kind {
        Kind::Avc => put_box(out, FourCc(*b"vmhd"), &[0, 0, 0, 1, 0, 0, 0, 0, 0, 0, 0, 0]),
        Kind::Aac => put_box(out, FourCc(*b"smhd"), &[0; 8]),
    }
}

// Puts the data information box (8.7.1).
#[tactic(auto, using(sf_box::proofs::BoxLaws::length_facts), unfolding(sf_box::specs::Parts::tiled))]
fn put_dinf(out: &mut Bytes) -> Result<(), AllocError>
    ensures put { OnOk result (out.new ≡ out.old ++ box_of (codes "dinf") (tiled in_dinf)) }
    ensures length { OnOk result (length out.new ≡ length out.old + 36) }
    ensures grows { take (length out.old) out.new ≡ out.old }
{
    let mark = begin_box(out, FourCc(*b"dinf"))?;
    put_box(out, FourCc(*b"dref"), &DATA_REFERENCES)?;
    end_box(out, mark);
    Ok(())
}

// Puts the media information box (8.4.4), which ends with this sample table box.
#[tactic(auto, using(sf_box::proofs::BoxLaws::length_facts), unfolding(sf_box::specs::Parts::tiled, sf_layout::specs::MovieBox::minf_body))]
fn put_minf(out: &mut Bytes, kind: Kind, stbl: &[u8]) -> Result<(), AllocError>
    requires { length stbl.now + 385 < 2 ^ 32 }
    ensures put { OnOk result (out.new ≡ out.old ++ box_of (codes "minf") (minf_body kind stbl.now)) }
    ensures length { OnOk result (length out.new ≡ length out.old + 44 + (for_kind kind 20 16) + length stbl.now) }
    ensures grows { take (length out.old) out.new ≡ out.old }
{
    let mark = begin_box(out, FourCc(*b"minf"))?;
    put_media_header(out, kind)?;
    put_dinf(out)?;
    put_bytes(out, stbl)?;
    end_box(out, mark);
    Ok(())
}

/// Puts the media box (8.4.1), which ends with this sample table box.
#[tactic(auto, using(sf_box::proofs::BoxLaws::length_facts), unfolding(sf_box::specs::Parts::tiled, sf_layout::specs::MovieBox::mdia_body))]
pub(crate) fn put_mdia(out: &mut Bytes, head: &TrackHead, stbl: &[u8]) -> Result<(), AllocError>
    requires { length stbl.now + 385 < 2 ^ 32 }
    ensures put { OnOk result (out.new ≡ out.old ++ box_of (codes "mdia") (mdia_body head.now stbl.now)) }
    ensures length { OnOk result (length out.new ≡ length out.old + 97 + (if is_long head.now.duration then 44 else 32) + (for_kind head.now.kind 20 16) + length stbl.now) }
    ensures grows { take (length out.old) out.new ≡ out.old }
{
    let mark = begin_box(out, FourCc(*b"mdia"))?;
    put_mdhd(out, head.scale, head.duration)?;
    put_hdlr(out, head.kind)?;
    put_minf(out, head.kind, stbl)?;
    end_box(out, mark);
    Ok(())
}
