//! Whether samples can stand one after the other, as writing them asks.

ghost use Rattle.std.specs.Prelude.{◌+◌, ◌^◌, ◌<◌, ◌≤◌, IsTrue, IfSome};
ghost use Rattle.sf_gather.specs.Proper.{AllFollow, Follows};

use super::accepting::{GREATEST_US, is_offset};
use super::given::LastSample;
use sf_tick::{Stored, to_tick};

/// The most bytes that are stored of a sample.
const MOST_BYTES: usize = 1 << 25;

// Whether a sample isn't before the last one, and near enough: their decode ticks differ by a number of 32 bits
// (ISO/IEC 14496-12, 8.6.1.2).
fn is_after(last: Option<LastSample>, sample: &Stored) -> bool
    ensures rises { IsTrue result → IfSome last (λ l. l.dts_us ≤ sample.now.dts_us) }
    ensures near { IsTrue result → IfSome last (λ l. sample.now.decode < l.decode + 2 ^ 32) }
    ensures only { IfSome last (λ l. l.dts_us ≤ sample.now.dts_us) → IfSome last (λ l. sample.now.decode < l.decode + 2 ^ 32) → IsTrue result }
{
    match last {
        Some(last) => {
            last.dts_us <= sample.dts_us && sample.decode.saturating_sub(last.decode) < 1 << 32
        }
        None => true,
    }
}

/// Whether a sample can stand after the last one of its track, at so many ticks a second.
pub fn follows(scale: u32, last: Option<LastSample>, sample: &Stored) -> bool
    requires { 1 ≤ scale }
    ensures holds { IsTrue result → Follows scale last sample.now }
    ensures only { Follows scale last sample.now → IsTrue result }
{
    sample.dts_us <= GREATEST_US
        && is_after(last, sample)
        && sample.decode == to_tick(sample.dts_us, scale)
        && is_offset(sample.decode, sample.compose)
        && sample.compose <= to_tick(GREATEST_US, scale)
        && !sample.bytes.is_empty()
        && sample.bytes.len() <= MOST_BYTES
}

/// Whether each sample can stand after the one before it, and the first one after the last of an earlier list.
pub fn all_follow(scale: u32, last: Option<LastSample>, samples: &[Stored]) -> bool
    requires { 1 ≤ scale }
    ensures holds { IsTrue result → AllFollow scale last samples.now }
    ensures only { AllFollow scale last samples.now → IsTrue result }
{
    let mut before = last;
    for sample in samples {
        if !follows(scale, before, sample) {
            return false;
        }
        before = Some(LastSample {
            dts_us: sample.dts_us,
            decode: sample.decode,
        });
    }
    true
}
