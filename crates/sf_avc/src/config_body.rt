//! The configuration record that is made of parameter sets.

ghost use Rattle.std.specs.Prelude.{◌≡◌, ◌++◌, false, nat_lt, map, IfOk, OnOk, MatchResult, Err};
ghost use Rattle.sf_avc.specs.Sps.{HeadFits};
ghost use Rattle.std.specs.List.{All, list_any, flat_map};
ghost use Rattle.sf_avc.specs.Units.{unit_at, Within};
ghost use Rattle.sf_avc.specs.ConfigBody.{is_type, of_type, sized_set, formats, config_body, is_long, is_known, with_sets, Makes};
ghost use Rattle.sf_avc.specs.inner.Sets.{bytes_at, sets_at, IsShortSet, refused_units, Makeable};
ghost use Rattle.sf_avc.specs.declared.nal.Unit.{Unit};
ghost use Rattle.sf_avc.specs.declared.config_body.ConfigFault.TheVariants.{NoMemory};

use crate::nal::{NalFault, Unit, Units, split_annexb, unit_bytes};
use crate::sps::{SpsFault, SpsHead, read_sps};
use sf_box::put_u16;
use sf_list::Bytes;
use std::alloc::{AllocError, AllocFailed, Global};

/// Why no configuration record is made, in the order in which the causes are looked at.
#[derive(Clone, Copy, Debug, PartialEq, Eq)]
pub enum ConfigFault {
    /// The configuration isn't a list of NAL units.
    Nal(NalFault),
    /// It has no sequence parameter set.
    NoSps,
    /// It has no picture parameter set.
    NoPps,
    /// It has more than 31 sequence sets, more than 255 picture sets, or a set of more than 65,535 bytes.
    TooLong,
    /// The first sequence set is refused.
    Sps(SpsFault),
    /// The profile of the first sequence set isn't 66, 77, 88, 100, 110 or 122.
    Profile(u8),
    NoMemory,
}

impl From<NalFault> for ConfigFault {
    ghost from_gives = { λ fault refused. refused ≡ refused_units fault };

    fn from(fault: NalFault) -> ConfigFault {
        match fault {
            NalFault::NoMemory => ConfigFault::NoMemory,
            refused => ConfigFault::Nal(refused),
        }
    }
}

impl From<AllocError> for ConfigFault {
    ghost from_gives = { λ _ fault. fault ≡ NoMemory };

    fn from(_error: AllocError) -> ConfigFault {
        ConfigFault::NoMemory
    }
}

/// The type of a sequence parameter set (ISO/IEC 14496-10, table 7-1).
const SEQUENCE_SET: u8 = 7;
/// The type of a picture parameter set.
const PICTURE_SET: u8 = 8;

// Whether a unit is of a type.
fn is_type(unit: &[u8], kind: u8) -> bool
    ensures { result ≡ is_type kind unit.now }
{
    match unit {
        [first, ..] => first % 32 == kind,
        [] => false,
    }
}

// The units of a type, in order.
fn of_type(
    alloc: Global,
    config: &[u8],
    units: &[Unit],
    kind: u8,
) -> Result<Units, AllocFailed<Unit>>
    requires { All (Within config.now) units.now }
    ensures units { IfOk result (λ kept. sets_at config.now kept ≡ of_type kind (map (unit_at config.now) units.now)) }
    ensures within { IfOk result (λ kept. All (Within config.now) kept) }
{
    let mut kept = Units::new(alloc);
    for unit in units {
        if is_type(unit_bytes(config, *unit), kind) {
            kept.push(*unit)?;
        }
    }
    Ok(kept)
}

// Whether a unit is too long for a record.
fn any_longer(units: &[Unit]) -> bool
    ensures { result ≡ list_any (λ (u : Unit). nat_lt 65535 u.len) units.now }
{
    units.iter().any(|unit| unit.len > 65_535)
}

// Whether a set is too long for a record.
#[tactic(auto, using(crate::proofs::RecordSets::long_facts))]
fn any_long(config: &[u8], sets: &[Unit]) -> bool
    requires { All (Within config.now) sets.now }
    ensures is { result ≡ list_any is_long (sets_at config.now sets.now) }
    ensures short { result ≡ false → All IsShortSet sets.now }
{
    any_longer(sets)
}

// Whether a record is made for this profile.
fn is_known(profile: u8) -> bool
    ensures { result ≡ is_known profile }
{
    matches!(profile, 66 | 77 | 88 | 100 | 110 | 122)
}

// The head of the first sequence set where a record is made of these sets, or the first refusal.
#[tactic(auto, unfolding(crate::specs::ConfigBody::with_sets))]
fn judged_sets(config: &[u8], sps: &[Unit], pps: &[Unit]) -> Result<SpsHead, ConfigFault>
    requires sps { All (Within config.now) sps.now }
    requires pps { All (Within config.now) pps.now }
    ensures { MatchResult result (λ head. Makeable config.now sps.now pps.now head) (λ fault. with_sets (sets_at config.now sps.now) (sets_at config.now pps.now) ≡ Err fault) }
{
    let [first, ..] = sps else {
        return Err(ConfigFault::NoSps);
    };
    if pps.is_empty() {
        return Err(ConfigFault::NoPps);
    }
    if sps.len() > 31 || pps.len() > 255 || any_long(config, sps) || any_long(config, pps) {
        return Err(ConfigFault::TooLong);
    }
    match read_sps(unit_bytes(config, *first)) {
        Ok(head) if is_known(head.profile) => Ok(head),
        Ok(head) => Err(ConfigFault::Profile(head.profile)),
        Err(fault) => Err(ConfigFault::Sps(fault)),
    }
}

// Puts a set at the end, after its length in two bytes.
#[tactic(auto, unfolding(crate::specs::ConfigBody::sized_set))]
fn put_set(out: &mut Bytes, config: &[u8], set: Unit) -> Result<(), AllocError>
    requires within { Within config.now set }
    requires short { IsShortSet set }
    ensures { OnOk result (out.new ≡ out.old ++ sized_set (bytes_at config.now set)) }
{
    put_u16(out, set.len as u16)?;
    out.append(unit_bytes(config, set))
}

// Puts sets at the end, each after its length in two bytes.
fn put_sets(out: &mut Bytes, config: &[u8], sets: &[Unit]) -> Result<(), AllocError>
    requires within { All (Within config.now) sets.now }
    requires short { All IsShortSet sets.now }
    ensures { OnOk result (out.new ≡ out.old ++ flat_map sized_set (sets_at config.now sets.now)) }
{
    for set in sets {
        put_set(out, config, *set)?;
    }
    Ok(())
}

// Puts what a record says of the formats at the end.
#[tactic(auto, unfolding(crate::specs::ConfigBody::formats))]
fn put_formats(out: &mut Bytes, head: SpsHead) -> Result<(), AllocError>
    requires { HeadFits head }
    ensures { OnOk result (out.new ≡ out.old ++ formats head) }
{
    if matches!(head.profile, 100 | 110 | 122) {
        out.append(&[
            0xfc + head.chroma,
            0xf8 + head.luma,
            0xf8 + head.chroma_depth,
            0,
        ])?;
    }
    Ok(())
}

// The record of these sets.
#[tactic(auto, unfolding(crate::specs::ConfigBody::config_body))]
fn config_body(
    alloc: Global,
    config: &[u8],
    sps: &[Unit],
    pps: &[Unit],
    head: SpsHead,
) -> Result<Bytes, AllocError>
    requires sps { All (Within config.now) sps.now }
    requires pps { All (Within config.now) pps.now }
    requires sets { Makeable config.now sps.now pps.now head }
    ensures { IfOk result (λ body. body ≡ config_body (sets_at config.now sps.now) (sets_at config.now pps.now) head) }
{
    let first = unit_bytes(config, sps[0]);
    let mut out = Bytes::from_slice(alloc, &[1])?;
    out.append(&first[1..4])?;
    out.append(&[0xff, 0xe0 + sps.len() as u8])?;
    put_sets(&mut out, config, sps)?;
    out.append(&[pps.len() as u8])?;
    put_sets(&mut out, config, pps)?;
    put_formats(&mut out, head)?;
    Ok(out)
}

/// The body of `avcC` with the parameter sets of a configuration with start codes
/// (ISO/IEC 14496-15, 5.3.3.1). Units of other types are left out.
#[tactic(auto, unfolding(crate::specs::ConfigBody::made_config))]
pub fn make_config(alloc: Global, config: &[u8]) -> Result<Bytes, ConfigFault>
    ensures { Makes config.now result }
{
    let units = split_annexb(alloc, config)?;
    let Ok(sps) = of_type(alloc, config, units.as_slice(), SEQUENCE_SET) else {
        return Err(ConfigFault::NoMemory);
    };
    let Ok(pps) = of_type(alloc, config, units.as_slice(), PICTURE_SET) else {
        return Err(ConfigFault::NoMemory);
    };
    let head = judged_sets(config, sps.as_slice(), pps.as_slice())?;
    Ok(config_body(alloc, config, sps.as_slice(), pps.as_slice(), head)?)
}
