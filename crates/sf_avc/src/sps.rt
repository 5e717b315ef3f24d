//! The first fields of a sequence parameter set.

ghost use Rattle.std.specs.Prelude.{◌≡◌, ◌^◌, ◌<◌, IfOk};
ghost use Rattle.sf_avc.specs.Sps.{sps_of, with_formats, HeadFits};
ghost use Rattle.sf_avc.specs.inner.Values.{total};

use crate::bits::Bits;
use crate::values::{fixed, value};

/// The first fields of a sequence parameter set (ISO/IEC 14496-10, 7.3.2.1.1).
#[derive(Clone, Copy, Debug, PartialEq, Eq)]
pub struct SpsHead {
    pub profile: u8,
    /// The constraint flags of the profile, in one byte.
    pub constraints: u8,
    /// The level's number, `level_idc`.
    pub level: u8,
    /// The set's number, 0 to 31.
    pub id: u8,
    /// The chroma format, 0 to 2. It is 1 where the profile doesn't state it.
    pub chroma: u8,
    /// The bit depth of luma less 8, 0 to 6.
    pub luma: u8,
    /// The bit depth of chroma less 8, 0 to 6.
    pub chroma_depth: u8,
}

/// Why a unit is refused. Places count the bits after the unit's first byte, without emulation prevention.
#[derive(Clone, Copy, Debug, PartialEq, Eq)]
pub enum SpsFault {
    /// The unit is empty, or no sequence parameter set.
    NotSps,
    /// The bits end, after so many.
    Truncated { bit: u64 },
    /// The value that begins here has more than 31 leading zero bits, or is above the greatest that is taken.
    ValueTooLarge { bit: u64 },
}

// The formats of a set, where its profile states them.
#[tactic(auto, unfolding(crate::specs::Sps::with_formats))]
fn with_formats(bits: &mut Bits<'_>, plain: SpsHead) -> Result<SpsHead, SpsFault>
    requires at { bits.old.at < 2 ^ 20 }
    requires fits { HeadFits plain }
    ensures head { result ≡ with_formats (total bits.old) bits.old.bits plain }
    ensures fits { IfOk result HeadFits }
{
    if !matches!(plain.profile, 100 | 110 | 122) {
        return Ok(plain);
    }
    let chroma = value(bits, 2)?;
    let luma = value(bits, 6)?;
    let chroma_depth = value(bits, 6)?;
    Ok(SpsHead {
        chroma,
        luma,
        chroma_depth,
        ..plain
    })
}

/// The first fields of the sequence parameter set in a unit.
#[tactic(auto, unfolding(crate::specs::Sps::sps_of, crate::specs::Sps::fields_of))]
pub fn read_sps(unit: &[u8]) -> Result<SpsHead, SpsFault>
    ensures head { result ≡ sps_of unit.now }
    ensures fits { IfOk result HeadFits }
{
    let [first, rest @ ..] = unit else {
        return Err(SpsFault::NotSps);
    };
    if first % 32 != 7 {
        return Err(SpsFault::NotSps);
    }
    let mut bits = Bits::of_unit(rest);
    let profile = fixed(&mut bits, 8)? as u8;
    let constraints = fixed(&mut bits, 8)? as u8;
    let level = fixed(&mut bits, 8)? as u8;
    let id = value(&mut bits, 31)?;
    let plain = SpsHead {
        profile,
        constraints,
        level,
        id,
        chroma: 1,
        luma: 0,
        chroma_depth: 0,
    };
    with_formats(&mut bits, plain)
}
