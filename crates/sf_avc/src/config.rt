//! The configuration record, as it is read.

ghost use Rattle.std.specs.Prelude.{◌≡◌, ◌≤◌, Some, IfOk, MatchOption, MatchResult};
ghost use Rattle.sf_avc.specs.Config.{Reads, sets};
ghost use Rattle.sf_avc.specs.inner.Config.{FirstSet, NoSet, NoSets};
ghost use Rattle.sf_avc.specs.declared.config.AvcCFault.TheVariants.{NoMemory};

use sf_box::read_u16;
use sf_list::{Bytes, Items};
use std::alloc::{AllocError, AllocFailed, Global};

/// The configuration record in the body of `avcC` (ISO/IEC 14496-15, 5.3.3.1).
#[derive(Drop)]
pub struct AvcConfig {
    /// How many bytes the length before each unit of a sample takes, 1 to 4.
    pub width: u8,
    /// The sequence parameter sets.
    pub sps: Items<Bytes>,
    /// The picture parameter sets.
    pub pps: Items<Bytes>,
}

/// Why a body of `avcC` is refused.
#[derive(Clone, Copy, Debug, PartialEq, Eq)]
pub enum AvcCFault {
    /// The version, which isn't 1.
    Version(u8),
    /// The body ends before the last picture set.
    Short,
    NoMemory,
}

impl From<AllocError> for AvcCFault {
    ghost from_gives = { λ _ fault. fault ≡ NoMemory };

    fn from(_error: AllocError) -> AvcCFault {
        AvcCFault::NoMemory
    }
}

impl<T: Drop> From<AllocFailed<T>> for AvcCFault {
    ghost from_gives = { λ _ fault. fault ≡ NoMemory };

    fn from(_error: AllocFailed<T>) -> AvcCFault {
        AvcCFault::NoMemory
    }
}

// The set that begins the bytes, after its length, and what lies after it.
#[tactic(auto, unfolding(crate::specs::Config::sets))]
fn next_set(bytes: &[u8]) -> Option<(&[u8], &[u8])>
    ensures { MatchOption result (NoSet bytes.now) (λ x. FirstSet bytes.now x.0.now x.1.now) }
{
    if bytes.len() < 2 {
        return None;
    }
    let len = usize::from(read_u16(bytes, 0));
    let (_, rest) = bytes.split_at(2);
    if rest.len() < len {
        return None;
    }
    Some(rest.split_at(len))
}

// So many sets, and what lies after them.
#[tactic(auto, unfolding(crate::specs::Config::sets))]
fn read_sets(alloc: Global, count: u8, bytes: &[u8]) -> Result<(Items<Bytes>, &[u8]), AvcCFault>
    ensures { MatchResult result (λ x. sets count bytes.now ≡ Some (x.0, x.1.now)) (λ fault. NoSets count bytes.now fault) }
{
    let mut sets = Items::new(alloc);
    let mut rest = bytes;
    for _ in 0..count {
        let Some((set, after)) = next_set(rest) else {
            return Err(AvcCFault::Short);
        };
        sets.push(Bytes::from_slice(alloc, set)?)?;
        rest = after;
    }
    Ok((sets, rest))
}

/// The length size and the parameter sets in a body of `avcC`. What follows the picture sets isn't read.
#[tactic(auto, unfolding(crate::specs::Config::config_of))]
pub fn read_config(alloc: Global, body: &[u8]) -> Result<AvcConfig, AvcCFault>
    ensures reads { Reads body.now result }
    ensures width { IfOk result (λ config. (1 ≤ config.width) × (config.width ≤ 4)) }
{
    let [version, rest @ ..] = body else {
        return Err(AvcCFault::Short);
    };
    if *version != 1 {
        return Err(AvcCFault::Version(*version));
    }
    let [_profile, _constraints, _level, size, count, rest @ ..] = rest else {
        return Err(AvcCFault::Short);
    };
    let (sps, rest) = read_sets(alloc, count % 32, rest)?;
    let [count, rest @ ..] = rest else {
        return Err(AvcCFault::Short);
    };
    let (pps, _) = read_sets(alloc, *count, rest)?;
    Ok(AvcConfig {
        width: size % 4 + 1,
        sps,
        pps,
    })
}
