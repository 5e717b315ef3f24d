//! What is handed out of a stored sample.

ghost use Rattle.std.specs.Prelude.{◌≡◌, ◌≤◌, ◌<◌, length, IfSome, Some};
ghost use Rattle.sf_extract.specs.HandedOut.{HandsOut, cut_width, handed_by};

use sf_avc::{LengthFault, annexb_of, split_prefixed};
use sf_list::Bytes;
use sf_movie::Movie;
use std::alloc::Global;

/// How many bytes the length of a unit has by an entry of a track; none where units aren't cut.
pub(crate) fn cut_width(movie: &Movie, t: u32, d: u32) -> Option<u8>
    requires { t < length movie.now.movie.tracks }
    ensures exact { result ≡ cut_width movie.now t d }
    ensures width { IfSome result (λ w. (1 ≤ w) × (w ≤ 4)) }
{
    match movie.unit_width(t, d) {
        Some(width) if (1..=4).contains(&width) => Some(width),
        _ => None,
    }
}

// Puts the units that tile a stored sample at the end, each after a start code.
fn put_units(alloc: Global, width: u8, stored: &[u8], into: &mut Bytes) -> Result<u32, LengthFault>
    requires least { 1 ≤ width }
    requires most { width ≤ 4 }
    requires short { length stored.now ≤ 67108864 }
    ensures { HandsOut into.old into.new (Some (handed_by (Some width) stored.now)) result }
{
    let units = split_prefixed(alloc, stored, width)?;
    let before = into.len();
    match annexb_of(stored, &units, into) {
        Ok(()) => Ok((into.len() - before) as u32),
        Err(_) => Err(LengthFault::NoMemory),
    }
}

/// Puts what is handed out of a stored sample at the end: units cut by lengths of so many bytes, or the
/// sample as it is. It answers how many bytes.
pub(crate) fn hand_out(
    alloc: Global,
    width: Option<u8>,
    stored: &[u8],
    into: &mut Bytes,
) -> Result<u32, LengthFault>
    requires width { IfSome width (λ w. (1 ≤ w) × (w ≤ 4)) }
    requires short { length stored.now ≤ 67108864 }
    ensures { HandsOut into.old into.new (Some (handed_by width stored.now)) result }
{
    let Some(width) = width else {
        if into.append(stored).is_err() {
            return Err(LengthFault::NoMemory);
        }
        return Ok(stored.len() as u32);
    };
    put_units(alloc, width, stored, into)
}
