//! The timescale of a movie header (ISO/IEC 14496-12, 8.2.2) or of a media header (8.4.2), as it is read.

ghost use Rattle.std.specs.Prelude.{◌≡◌};
ghost use Rattle.sf_meaning.specs.Headers.{scale_place, timescale_in};
ghost use Rattle.sf_meaning.specs.Steps.{boxed};

use crate::faults::HeadFault;
use sf_box::{BoxHead, read_u32};

// Where the timescale stands in the body of a header.
fn scale_place(body: &[u8]) -> usize
    ensures { result ≡ scale_place body.now }
{
    match body {
        [1, ..] => 20,
        _ => 12,
    }
}

/// Ticks a second, by a header, or the first thing that is wrong with it.
#[tactic(auto, unfolding(crate::specs::Headers::timescale_in))]
pub fn read_timescale(head: BoxHead, body: &[u8]) -> Result<u32, HeadFault>
    ensures { result ≡ timescale_in (boxed head body.now) }
{
    let at = scale_place(body);
    if body.len() < at + 4 {
        return Err(HeadFault::Short {
            kind: head.kind,
            at: head.at,
        });
    }
    let scale = read_u32(body, at);
    if scale == 0 {
        return Err(HeadFault::Scale0 { at: head.at });
    }
    Ok(scale)
}
