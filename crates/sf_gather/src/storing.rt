//! The stored form of a payload of video.

ghost use Rattle.std.specs.Prelude.{◌≡◌, ◌≤◌, ◌^◌, length, Ok, IfOk, IfErr};
ghost use Rattle.sf_avc.specs.Stored.{stored};
ghost use Rattle.sf_gather.specs.Accepting.{RefusedBy, refused_units};

use super::accepting::SampleFault;
use sf_avc::{prefix, split_annexb};
use sf_list::Bytes;
use std::alloc::Global;

/// The units of a payload, each after its length (ISO/IEC 14496-15, 5.3.4.2), or why it isn't a
/// list of units.
#[tactic(auto, using(crate::proofs::Sizes::refused_so, crate::proofs::Sizes::stored_length))]
pub(crate) fn prefixed_units(alloc: Global, payload: &[u8]) -> Result<Bytes, SampleFault>
    requires size { length payload.now ≤ 16777216 }
    ensures form { IfOk result (λ bytes. stored payload.now ≡ Ok bytes) }
    ensures size { IfOk result (λ bytes. length bytes ≤ 2 ^ 25) }
    ensures refused { IfErr result (λ fault. RefusedBy (refused_units (stored payload.now)) fault) }
{
    let units = split_annexb(alloc, payload)?;
    Ok(prefix(alloc, payload, &units)?)
}
