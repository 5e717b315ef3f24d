//! The edit list box (ISO/IEC 14496-12, 8.6.6), as it is read.

ghost use Rattle.std.specs.Prelude.{◌≡◌, ◌+◌, ◌*◌, ◌≤◌, length, drop, IfOk, if◌then◌else◌};
ghost use Rattle.sf_meaning.specs.Steps.{boxed};
ghost use Rattle.sf_meaning.specs.Headers.{is_wide};
ghost use Rattle.sf_meaning.specs.Edits.{edit_in, edit_width, edits, edits_in, is_empty, is_shown, followed, bounded, shift_in};
ghost use Rattle.sf_meaning.specs.Tables.{count_in};

use crate::faults::HeadFault;
use sf_box::{BoxHead, read_u32, read_u64};

/// An edit as it stands in an edit list.
#[derive(Clone, Copy, Debug, PartialEq, Eq)]
pub struct Edit {
    /// How long it is shown, in ticks of the movie.
    pub duration: u64,
    /// Where it begins in the media, in ticks of the track; -1 where nothing is shown. It is kept as it
    /// stands in the file, in two's complement of four bytes or of eight.
    pub media_time: u64,
    /// How fast it is shown, with sixteen bits after the point.
    pub rate: u32,
}

/// When a track begins to be shown, and with what.
#[derive(Clone, Copy, Debug, PartialEq, Eq)]
pub struct Shift {
    /// How long nothing is shown first, in ticks of the movie.
    pub lead: u64,
    /// What is shown first after that, in ticks of the track.
    pub media_time: u64,
}

/// What holds without an edit list that is followed.
pub(crate) const UNSHIFTED: Shift = Shift {
    lead: 0,
    media_time: 0,
};

// Whether a box has version 1.
fn is_wide(body: &[u8]) -> bool
    ensures { result ≡ is_wide body.now }
{
    match body {
        [1, ..] => true,
        _ => false,
    }
}

// The edit that begins the bytes.
fn edit_in(wide: bool, bytes: &[u8]) -> Edit
    requires { edit_width wide ≤ length bytes.now }
    ensures { result ≡ edit_in wide bytes.now }
{
    if wide {
        Edit {
            duration: read_u64(bytes, 0),
            media_time: read_u64(bytes, 8),
            rate: read_u32(bytes, 16),
        }
    } else {
        Edit {
            duration: u64::from(read_u32(bytes, 0)),
            media_time: u64::from(read_u32(bytes, 4)),
            rate: read_u32(bytes, 8),
        }
    }
}

// How many bytes an edit takes.
fn edit_width(wide: bool) -> u8
    ensures { result ≡ edit_width wide }
{
    if wide { 20 } else { 12 }
}

// Whether an edit shows nothing.
fn is_empty(wide: bool, edit: Edit) -> bool
    ensures { result ≡ is_empty wide edit }
{
    edit.media_time == if wide { u64::MAX } else { 0xffff_ffff }
}

// Whether an edit shows the media at their own pace.
fn is_shown(wide: bool, edit: Edit) -> bool
    ensures { result ≡ is_shown wide edit }
{
    edit.media_time < if wide { 1 << 63 } else { 1 << 31 } && edit.rate == 0x1_0000
}

// What one edit says.
fn one(wide: bool, bytes: &[u8]) -> Option<Shift>
    requires { edit_width wide ≤ length bytes.now }
    ensures { result ≡ followed wide (edits wide 1 bytes.now) }
{
    let edit = edit_in(wide, bytes);
    if !is_shown(wide, edit) {
        return None;
    }
    Some(Shift {
        lead: 0,
        media_time: edit.media_time,
    })
}

// What two edits say.
fn two(wide: bool, bytes: &[u8]) -> Option<Shift>
    requires { 2 * edit_width wide ≤ length bytes.now }
    ensures { result ≡ followed wide (edits wide 2 bytes.now) }
{
    let (_, after) = bytes.split_at(usize::from(edit_width(wide)));
    let empty = edit_in(wide, bytes);
    let edit = edit_in(wide, after);
    if !is_empty(wide, empty) {
        return None;
    }
    if !is_shown(wide, edit) {
        return None;
    }
    Some(Shift {
        lead: empty.duration,
        media_time: edit.media_time,
    })
}

// What so many edits say.
#[tactic(auto, using(crate::proofs::EditLemmas::not_followed))]
fn followed(wide: bool, count: u32, bytes: &[u8]) -> Option<Shift>
    requires { edit_width wide * count ≤ length bytes.now }
    ensures { result ≡ followed wide (edits wide count bytes.now) }
{
    match count {
        1 => one(wide, bytes),
        2 => two(wide, bytes),
        _ => None,
    }
}

// What edits say, where neither time passes 2^40 seconds.
fn bounded(
    head: BoxHead,
    body: &[u8],
    shift: Option<Shift>,
    movie_scale: u32,
    scale: u32,
) -> Result<Shift, HeadFault>
    ensures { result ≡ bounded movie_scale scale (boxed head body.now) shift }
{
    let Some(shift) = shift else {
        return Ok(UNSHIFTED);
    };
    let lead_fits = u128::from(shift.lead) <= u128::from(movie_scale) << 40;
    if lead_fits && u128::from(shift.media_time) <= u128::from(scale) << 40 {
        return Ok(shift);
    }
    Err(HeadFault::EditTooLong { at: head.at })
}

/// What an edit list box says, with these timescales of its movie and of its track. No list that isn't
/// whole is read.
#[tactic(auto, unfolding(crate::specs::Edits::shift_in, crate::specs::Edits::edits_in))]
pub fn read_elst(
    head: BoxHead,
    body: &[u8],
    movie_scale: u32,
    scale: u32,
) -> Result<Shift, HeadFault>
    ensures { result ≡ shift_in movie_scale scale (boxed head body.now) }
{
    let short = HeadFault::Short {
        kind: head.kind,
        at: head.at,
    };
    if body.len() < 8 {
        return Err(short);
    }
    let wide = is_wide(body);
    let count = read_u32(body, 4);
    let width = u64::from(edit_width(wide));
    if (body.len() as u64) < 8 + width * u64::from(count) {
        return Err(short);
    }
    let (_, bytes) = body.split_at(8);
    bounded(head, body, followed(wide, count, bytes), movie_scale, scale)
}
