//! The start of a file in the user data (ISO/IEC 14496-12, 8.10.1), as it is read.

ghost use Rattle.std.specs.Prelude.{◌≡◌, ◌+◌, ◌^◌, ◌<◌, length, Some, IfOk};
ghost use Rattle.sf_meaning.specs.Headers.{start_in};
ghost use Rattle.sf_meaning.specs.Steps.{boxed};

use sf_box::{BoxHead, FourCc, body, first_head, leading, read_u64};
use std::alloc::{AllocError, Global};

/// When the file starts, in microseconds after the series' start, by a user data box; 0 where it doesn't
/// say so.
pub fn read_sfts(alloc: Global, head: BoxHead, udta: &[u8]) -> Result<u64, AllocError>
    requires { head.at + head.head + length udta.now < 2 ^ 64 }
    ensures { IfOk result (λ start_us. start_us ≡ start_in (Some (boxed head udta.now))) }
{
    let at = head.at + head.head;
    let heads = leading(alloc, udta, at)?;
    let Some(sfts) = first_head(heads.as_slice(), FourCc(*b"sfts")) else {
        return Ok(0);
    };
    let said = body(udta, at, sfts);
    if said.len() < 8 {
        return Ok(0);
    }
    Ok(read_u64(said, 0))
}
