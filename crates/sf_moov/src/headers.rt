//! The headers of a movie and of a track: `mvhd`, `tkhd`, `mdhd`, and the edit list of a lead
//! (ISO/IEC 14496-12, 8.2.2, 8.3.2, 8.4.2, 8.6.5).

ghost use Rattle.std.specs.Prelude.{◌≡◌, ◌+◌, ◌*◌, ◌/◌, ◌^◌, ◌<◌, ◌≤◌, [], ◌∷◌, ◌++◌, codes, length, take, OnOk, if◌then◌else◌};
ghost use Rattle.sf_box.specs.Boxes.{be32, box_of};
ghost use Rattle.sf_box.specs.Parts.{tiled};
ghost use Rattle.sf_layout.specs.Headers.{matrix, mdhd_body, zeros, end_us, length_us, mvhd_body, tkhd_body, volume, dimensions, elst_body, in_edts};
ghost use Rattle.sf_meaning.specs.WrittenHeaders.{is_long, duration_bytes, header_times};
ghost use Rattle.sf_moov.specs.Heads.{HasEnd};

use sf_box::{FourCc, begin_box, end_box, put_bytes, put_u16, put_u32, put_u64};
use sf_layout::TrackHead;
use sf_list::Bytes;
use sf_tick::Kind;
use std::alloc::AllocError;

/// Ticks a second of the movie header: microseconds (8.2.2).
const MOVIE_SCALE: u32 = 1_000_000;

/// A duration from here on needs version 1 of a header, with eight bytes for it.
const LONG: u64 = 0xFFFF_FFFF;

/// The identity transformation (8.2.2).
const MATRIX: [u8; 36] = [
    0, 1, 0, 0, 0, 0, 0, 0, 0, 0, 0, 0, //
    0, 0, 0, 0, 0, 1, 0, 0, 0, 0, 0, 0, //
    0, 0, 0, 0, 0, 0, 0, 0, 64, 0, 0, 0,
];

/// In the movie header: rate 1, full volume, and reserved bytes (8.2.2).
const RATE_AND_VOLUME: [u8; 16] = [0, 1, 0, 0, 1, 0, 0, 0, 0, 0, 0, 0, 0, 0, 0, 0];

/// In the track header: that the track is enabled, in the movie and in its preview (8.3.2).
const IN_MOVIE: u8 = 7;

/// In the track header of sound: layer and group 0, full volume, and reserved bytes (8.3.2).
const WITH_VOLUME: [u8; 16] = [0, 0, 0, 0, 0, 0, 0, 0, 0, 0, 0, 0, 1, 0, 0, 0];

/// In the media header: no language (8.4.2).
const NO_LANGUAGE: [u8; 4] = [0x55, 0xC4, 0, 0];

/// In the edit list: version 1, and two entries (8.6.6).
const TWO_EDITS: [u8; 8] = [1, 0, 0, 0, 0, 0, 0, 2];

/// In an edit: nothing is shown, at rate 1 (8.6.6).
const NOTHING_SHOWN: [u8; 12] = [255, 255, 255, 255, 255, 255, 255, 255, 0, 1, 0, 0];

/// In an edit: the media from their start, at rate 1 (8.6.6).
const FROM_THE_START: [u8; 12] = [0, 0, 0, 0, 0, 0, 0, 0, 0, 1, 0, 0];

/// Whether a header needs version 1 for a duration, in any ticks.
pub(crate) fn is_long(duration: u64) -> bool
    ensures { result ≡ is_long duration }
{
    LONG <= duration
}

/// How long a track's samples last, in microseconds.
pub(crate) fn length_us(head: &TrackHead) -> u64
    requires { HasEnd head.now }
    ensures { result ≡ length_us head.now }
{
    (u128::from(head.duration) * u128::from(MOVIE_SCALE) / u128::from(head.scale)) as u64
}

/// When a track ends, in microseconds after the file's start.
pub(crate) fn end_us(head: &TrackHead) -> u64
    requires { HasEnd head.now }
    ensures { result ≡ end_us head.now }
{
    head.lead_us + length_us(head)
}

// Puts a header's version and flags, and when it was made and changed, both not said.
#[tactic(auto, using(sf_box::proofs::BoxLaws::length_facts))]
fn put_times(out: &mut Bytes, flags: u8, duration: u64) -> Result<(), AllocError>
    ensures put { OnOk result (out.new ≡ out.old ++ header_times flags duration) }
    ensures length { OnOk result (length out.new ≡ length out.old + (if is_long duration then 20 else 12)) }
    ensures grows { take (length out.old) out.new ≡ out.old }
{
    if is_long(duration) {
        put_bytes(
            out,
            &[
                1, 0, 0, flags, 0, 0, 0, 0, 0, 0, 0, 0, 0, 0, 0, 0, 0, 0, 0, 0,
            ],
        )
    } else {
        put_bytes(out, &[0, 0, 0, flags, 0, 0, 0, 0, 0, 0, 0, 0])
    }
}

// Puts a header's duration.
#[tactic(auto, using(sf_box::proofs::BoxLaws::length_facts))]
fn put_duration(out: &mut Bytes, duration: u64) -> Result<(), AllocError>
    ensures put { OnOk result (out.new ≡ out.old ++ duration_bytes duration) }
    ensures length { OnOk result (length out.new ≡ length out.old + (if is_long duration then 8 else 4)) }
    ensures grows { take (length out.old) out.new ≡ out.old }
{
    if is_long(duration) {
        put_u64(out, duration)
    } else {
        put_u32(out, duration as u32)
    }
}

// Puts the end of the movie header of so many tracks: rate 1, full volume, the transformation, and
// the number of the next track.
#[tactic(auto, using(sf_box::proofs::BoxLaws::length_facts))]
fn put_movie_end(out: &mut Bytes, tracks: u32) -> Result<(), AllocError>
    requires { tracks ≤ 64 }
    ensures put { OnOk result (out.new ≡ out.old ++ ((0 ∷ 1 ∷ 0 ∷ 0 ∷ 1 ∷ 0 ∷ []) ++ (zeros 10 ++ (matrix ++ (zeros 24 ++ be32 (tracks + 1)))))) }
    ensures length { OnOk result (length out.new ≡ length out.old + 80) }
    ensures grows { take (length out.old) out.new ≡ out.old }
{
    put_bytes(out, &RATE_AND_VOLUME)?;
    put_bytes(out, &MATRIX)?;
    put_bytes(out, &[0; 24])?;
    put_u32(out, tracks + 1)
}

/// Puts the movie header box (8.2.2) of so many tracks, the last of which ends after so many
/// microseconds.
#[tactic(auto, using(sf_box::proofs::BoxLaws::length_facts), unfolding(sf_layout::specs::Headers::mvhd_body))]
pub(crate) fn put_mvhd(out: &mut Bytes, tracks: u32, movie_us: u64) -> Result<(), AllocError>
    requires { tracks ≤ 64 }
    ensures put { OnOk result (out.new ≡ out.old ++ box_of (codes "mvhd") (mvhd_body tracks movie_us)) }
    ensures length { OnOk result (length out.new ≡ length out.old + (if is_long movie_us then 120 else 108)) }
    ensures grows { take (length out.old) out.new ≡ out.old }
{
    let mark = begin_box(out, FourCc(*b"mvhd"))?;
    put_times(out, 0, movie_us)?;
    put_u32(out, MOVIE_SCALE)?;
    put_duration(out, movie_us)?;
    put_movie_end(out, tracks)?;
    end_box(out, mark);
    Ok(())
}

// What stands in a track header in front of its transformation: layer and group 0, full volume for
// sound and none for video, and reserved bytes.
fn layer_and_volume(kind: Kind) -> [u8; 16]
    ensures { result ≡ zeros 12 ++ (volume kind ++ zeros 2) }
{
    match kind {
        Kind::Avc => [0; 16],
        Kind::Aac => WITH_VOLUME,
    }
}

// Puts the width and the height of a track, with sixteen bits after the point.
#[tactic(auto, using(sf_box::proofs::BoxLaws::length_facts))]
fn put_dimensions(out: &mut Bytes, head: &TrackHead) -> Result<(), AllocError>
    ensures put { OnOk result (out.new ≡ out.old ++ dimensions head.now) }
    ensures length { OnOk result (length out.new ≡ length out.old + 8) }
    ensures grows { take (length out.old) out.new ≡ out.old }
{
    match head.kind {
        Kind::Avc => {
            put_u16(out, head.width)?;
            put_bytes(out, &[0; 2])?;
            put_u16(out, head.height)?;
            put_bytes(out, &[0; 2])
        }
        Kind::Aac => put_bytes(out, &[0; 8]),
    }
}

// Puts the end of a track header: the volume, the transformation, and the width and the height.
#[tactic(auto, using(sf_box::proofs::BoxLaws::length_facts))]
fn put_track_end(out: &mut Bytes, head: &TrackHead) -> Result<(), AllocError>
    ensures put { OnOk result (out.new ≡ out.old ++ (zeros 12 ++ (volume head.now.kind ++ (zeros 2 ++ (matrix ++ dimensions head.now))))) }
    ensures length { OnOk result (length out.new ≡ length out.old + 60) }
    ensures grows { take (length out.old) out.new ≡ out.old }
{
    put_bytes(out, &layer_and_volume(head.kind))?;
    put_bytes(out, &MATRIX)?;
    put_dimensions(out, head)
}

/// Puts the track header box (8.3.2) of the track of a number.
#[tactic(auto, using(sf_box::proofs::BoxLaws::length_facts), unfolding(sf_layout::specs::Headers::tkhd_body))]
pub(crate) fn put_tkhd(out: &mut Bytes, number: u32, head: &TrackHead) -> Result<(), AllocError>
    requires { HasEnd head.now }
    ensures put { OnOk result (out.new ≡ out.old ++ box_of (codes "tkhd") (tkhd_body number head.now)) }
    ensures length { OnOk result (length out.new ≡ length out.old + (if is_long (end_us head.now) then 104 else 92)) }
    ensures grows { take (length out.old) out.new ≡ out.old }
{
    let ends = end_us(head);
    let mark = begin_box(out, FourCc(*b"tkhd"))?;
    put_times(out, IN_MOVIE, ends)?;
    put_u32(out, number)?;
    put_bytes(out, &[0; 4])?;
    put_duration(out, ends)?;
    put_track_end(out, head)?;
    end_box(out, mark);
    Ok(())
}

/// Puts the media header box (8.4.2) of a track with so many ticks a second that lasts so many ticks.
#[tactic(auto, using(sf_box::proofs::BoxLaws::length_facts))]
pub(crate) fn put_mdhd(out: &mut Bytes, scale: u32, duration: u64) -> Result<(), AllocError>
    ensures put { OnOk result (out.new ≡ out.old ++ box_of (codes "mdhd") (mdhd_body scale duration)) }
    ensures length { OnOk result (length out.new ≡ length out.old + (if is_long duration then 44 else 32)) }
    ensures grows { take (length out.old) out.new ≡ out.old }
{
    let mark = begin_box(out, FourCc(*b"mdhd"))?;
    put_times(out, 0, duration)?;
    put_u32(out, scale)?;
    put_duration(out, duration)?;
    put_bytes(out, &NO_LANGUAGE)?;
    end_box(out, mark);
    Ok(())
}

// Puts the edit list box (8.6.6): nothing is shown during the lead, and then the media.
#[tactic(auto, using(sf_box::proofs::BoxLaws::length_facts), unfolding(sf_layout::specs::Headers::elst_body))]
fn put_elst(out: &mut Bytes, lead_us: u64, media_us: u64) -> Result<(), AllocError>
    ensures put { OnOk result (out.new ≡ out.old ++ box_of (codes "elst") (elst_body lead_us media_us)) }
    ensures length { OnOk result (length out.new ≡ length out.old + 56) }
    ensures grows { take (length out.old) out.new ≡ out.old }
{
    let mark = begin_box(out, FourCc(*b"elst"))?;
    put_bytes(out, &TWO_EDITS)?;
    put_u64(out, lead_us)?;
    put_bytes(out, &NOTHING_SHOWN)?;
    put_u64(out, media_us)?;
    put_bytes(out, &FROM_THE_START)?;
    end_box(out, mark);
    Ok(())
}

/// Puts the edit box (8.6.5) of a track that doesn't begin with the file.
#[tactic(auto, using(sf_box::proofs::BoxLaws::length_facts), unfolding(sf_box::specs::Parts::tiled))]
pub(crate) fn put_edts(out: &mut Bytes, head: &TrackHead) -> Result<(), AllocError>
    requires { HasEnd head.now }
    ensures put { OnOk result (out.new ≡ out.old ++ box_of (codes "edts") (tiled (in_edts head.now))) }
    ensures length { OnOk result (length out.new ≡ length out.old + 64) }
    ensures grows { take (length out.old) out.new ≡ out.old }
{
    let mark = begin_box(out, FourCc(*b"edts"))?;
    put_elst(out, head.lead_us, length_us(head))?;
    end_box(out, mark);
    Ok(())
}
