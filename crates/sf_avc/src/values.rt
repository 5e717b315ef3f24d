//! The values in the bits of a parameter set (ISO/IEC 14496-10, 7.2 and 9.1).

ghost use Rattle.std.specs.Prelude.{◌≡◌, ◌^◌, ◌≤◌, ◌<◌, IfOk};
ghost use Rattle.sf_avc.specs.Sps.{fixed, value};
ghost use Rattle.sf_avc.specs.inner.Values.{Gives, GivesZeros, total};

use crate::bits::Bits;
use crate::sps::SpsFault;

/// Takes the number u(n) in the next bits, so many.
#[tactic(auto, unfolding(crate::specs::Sps::fixed))]
pub(crate) fn fixed(bits: &mut Bits<'_>, count: u32) -> Result<u32, SpsFault>
    requires count { count ≤ 31 }
    requires at { bits.old.at < 2 ^ 31 }
    ensures gives { Gives 31 bits.old (fixed (total bits.old) count bits.old.bits) result bits.new }
    ensures fits { IfOk result (λ n. n < 2 ^ count) }
{
    match bits.take(count) {
        Some(number) => Ok(number),
        None => Err(SpsFault::Truncated { bit: bits.at() }),
    }
}

// Takes the zero bits in front of a value, and the bit 1 after them.
fn zeros(bits: &mut Bits<'_>) -> Result<u32, SpsFault>
    requires { bits.old.at < 2 ^ 31 }
    ensures { GivesZeros bits.old result bits.new }
{
    let begin = bits.at();
    let mut zeros = 0;
    loop {
        match bits.next_bit() {
            None => return Err(SpsFault::Truncated { bit: bits.at() }),
            Some(true) => return Ok(zeros),
            Some(false) => {
                if zeros == 31 {
                    return Err(SpsFault::ValueTooLarge { bit: begin });
                }
                zeros += 1;
            }
        }
    }
}

/// Takes the next value ue(v), up to a greatest one.
pub(crate) fn value(bits: &mut Bits<'_>, max: u8) -> Result<u8, SpsFault>
    requires { bits.old.at < 2 ^ 30 }
    ensures gives { Gives 63 bits.old (value (total bits.old) max bits.old.bits) result bits.new }
    ensures most { IfOk result (λ v. v ≤ max) }
{
    let bit = bits.at();
    let zeros = zeros(bits)?;
    let number = fixed(bits, zeros)?;
    let value = (1u32 << zeros) - 1 + number;
    if value > u32::from(max) {
        return Err(SpsFault::ValueTooLarge { bit });
    }
    Ok(value as u8)
}
