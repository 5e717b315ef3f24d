//! NAL units after their lengths, as a file stores them.

ghost use Rattle.std.specs.Prelude.{◌≡◌, ◌+◌, ◌-◌, ◌^◌, ◌≤◌, ◌<◌, ◌++◌, min, sum_by, length, take, map, Ok, IfOk, OnOk, OnErr, MatchResult};
ghost use Rattle.std.specs.List.{All};
ghost use Rattle.sf_avc.specs.declared.nal.Unit.{Unit};
ghost use Rattle.sf_avc.specs.Units.{nals, unit_at, Within};
ghost use Rattle.sf_avc.specs.Stored.{after_length, prefixed, stored, FitsFour};
ghost use Rattle.sf_avc.specs.Tiling.{length_in, AreTiles};
ghost use Rattle.sf_avc.specs.inner.Tiling.{Tile, NoTile};
ghost use Rattle.sf_avc.specs.Units.{with_codes};

use crate::nal::{Unit, Units, unit_bytes};
use sf_box::{put_u32, read_u32};
use sf_list::Bytes;
use std::alloc::{AllocError, Global};

// Puts a unit at the end, after its length in four bytes.
#[tactic(auto, unfolding(crate::specs::Stored::after_length))]
fn put_prefixed(out: &mut Bytes, payload: &[u8], unit: Unit) -> Result<(), AllocError>
    requires within { Within payload.now unit }
    requires short { FitsFour unit }
    ensures { OnOk result (out.new ≡ out.old ++ after_length (unit_at payload.now unit)) }
{
    let bytes = unit_bytes(payload, unit);
    put_u32(out, unit.len as u32)?;
    out.append(bytes)
}

// How many bytes units take after their lengths in four bytes, or the greatest number.
fn prefixed_len(units: &[Unit]) -> usize
    ensures { result ≡ min (sum_by (λ (u : Unit). 4 + u.len) units.now) (2 ^ 64 - 1) }
{
    let mut len = 0usize;
    for unit in units {
        len = len.saturating_add(4).saturating_add(unit.len);
    }
    len
}

/// The stored form of units of a payload: each after its length in four bytes
/// (ISO/IEC 14496-15, 5.3.4.2). It takes memory once.
pub fn prefix(alloc: Global, payload: &[u8], units: &Units) -> Result<Bytes, AllocError>
    requires within { All (Within payload.now) units.now }
    requires short { All FitsFour units.now }
    ensures bytes { IfOk result (λ b. b ≡ prefixed (map (unit_at payload.now) units.now)) }
    ensures stored { nals payload.now ≡ Ok (map (unit_at payload.now) units.now) → IfOk result (λ b. stored payload.now ≡ Ok b) }
{
    let len = prefixed_len(units.as_slice());
    let mut out = Bytes::from_vec(Vec::with_capacity(alloc, len)?);
    for unit in units.as_slice() {
        put_prefixed(&mut out, payload, *unit)?;
    }
    Ok(out)
}

/// Why units don't tile a stored sample.
#[derive(Clone, Copy, Debug, PartialEq, Eq)]
pub enum LengthFault {
    /// The length at this place isn't whole, or passes the end.
    BadLength { at: u64 },
    NoMemory,
}

// The length in up to four bytes, the highest first.
fn length_in(bytes: &[u8]) -> usize
    requires { length bytes.now ≤ 4 }
    ensures { result ≡ length_in bytes.now }
{
    let mut word = [0u8; 4];
    word[4 - bytes.len()..].copy_from_slice(bytes);
    read_u32(&word, 0) as usize
}

// The unit that begins a rest with its length.
fn next_tile(rest: &[u8], at: usize, width: usize) -> Result<Unit, LengthFault>
    requires width { width ≤ 4 }
    requires place { at + length rest.now < 2 ^ 63 }
    ensures { MatchResult result (λ u. Tile width at rest.now u) (λ f. NoTile width at rest.now f) }
{
    if rest.len() < width {
        return Err(LengthFault::BadLength { at: at as u64 });
    }
    let (prefix, after) = rest.split_at(width);
    let len = length_in(prefix);
    if after.len() < len {
        return Err(LengthFault::BadLength { at: at as u64 });
    }
    Ok(Unit {
        at: at + width,
        len,
    })
}

/// The units that tile a stored sample, each after its length of so many bytes, 1 to 4, or the first
/// length that isn't whole or passes the end (ISO/IEC 14496-15, 5.3.4.2).
pub fn split_prefixed(alloc: Global, stored: &[u8], width: u8) -> Result<Units, LengthFault>
    requires least { 1 ≤ width }
    requires most { width ≤ 4 }
    ensures units { AreTiles width stored.now result }
    ensures within { IfOk result (λ units. All (Within stored.now) units) }
{
    let width = usize::from(width);
    let mut units = Units::new(alloc);
    let mut at = 0;
    while at < stored.len() {
        let (_, rest) = stored.split_at(at);
        let unit = next_tile(rest, at, width)?;
        if units.push(unit).is_err() {
            return Err(LengthFault::NoMemory);
        }
        at = unit.at + unit.len;
    }
    Ok(units)
}

// Puts units at the end, each after a start code. Without memory a part of them may be put there.
fn put_units(stored: &[u8], units: &[Unit], into: &mut Bytes) -> Result<(), AllocError>
    requires { All (Within stored.now) units.now }
    ensures ok { OnOk result (into.new ≡ into.old ++ with_codes (map (unit_at stored.now) units.now)) }
    ensures err { take (length into.old) into.new ≡ into.old }
{
    for unit in units {
        into.append(&[0, 0, 0, 1])?;
        into.append(unit_bytes(stored, *unit))?;
    }
    Ok(())
}

/// Puts units of a stored sample at the end, each after a start code (ISO/IEC 14496-10, Annex B).
/// Without memory nothing is put there.
pub fn annexb_of(stored: &[u8], units: &Units, into: &mut Bytes) -> Result<(), AllocError>
    requires { All (Within stored.now) units.now }
    ensures ok { OnOk result (into.new ≡ into.old ++ with_codes (map (unit_at stored.now) units.now)) }
    ensures err { OnErr result (into.new ≡ into.old) }
{
    let before = into.len();
    let put = put_units(stored, units.as_slice(), into);
    if put.is_err() {
        into.cut(before);
    }
    put
}
