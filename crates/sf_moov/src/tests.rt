//! Tests of the movie box: its bytes and its size.

ghost use Rattle.std.specs.Prelude.{◌≡◌, ◌≤◌, ◌<◌, ◌^◌, length};
ghost use Rattle.sf_moov.specs.Heads.{AreHeads, HaveLengths};

use super::*;
use sf_list::Bytes;
use sf_tick::Kind;
use std::alloc::{AllocError, Global};
use std::test::Fail;

mod one_track;
mod three_tracks;
mod trak_heads;

/// The head of a track of sound that begins with the file.
const SOUND: TrackHead = TrackHead {
    kind: Kind::Aac,
    scale: 48_000,
    width: 0,
    height: 0,
    lead_us: 0,
    duration: 3072,
    stbl_len: 203,
};

/// The movie box of these tracks after two bytes, in a file with this start, or nothing where its size
/// isn't the one that was said.
fn encoded(
    alloc: Global,
    heads: &[TrackHead],
    start_us: u64,
    stbls: &[Bytes],
) -> Result<Option<Bytes>, AllocError>
    requires heads { AreHeads heads.now }
    requires tables { HaveLengths heads.now stbls.now }
{
    let size = moov_size(heads);
    if size >= 1 << 32 {
        return Ok(None);
    }
    let mut out = Bytes::from_slice(alloc, b"ab")?;
    encode_moov(heads, start_us, stbls, &mut out)?;
    Ok((out.len() as u64 == 2u64.saturating_add(size)).then_some(out))
}

/// Whether these bytes stand at a place in others.
fn stand_at(bytes: &[u8], at: usize, wanted: &[u8]) -> bool {
    at <= bytes.len() && bytes.split_at(at).1.starts_with(wanted)
}
