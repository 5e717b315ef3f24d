//! NAL units in a payload with start codes.

ghost use Rattle.std.specs.Prelude.{◌≡◌, ◌≤◌, ◌==◌, length, take, Err, IfOk, MatchResult};
ghost use Rattle.std.specs.List.{All, list_all};
ghost use Rattle.sf_avc.specs.Units.{trimmed, nals, unit_at, Within, HasBytes, AreUnits};
ghost use Rattle.sf_avc.specs.inner.Units.{CutsAt, UnitIn, NoUnitIn, units_from, NextUnit};

use memchr::memmem;
use sf_list::Items;
use std::alloc::Global;

/// A NAL unit in a payload or in a stored sample.
#[derive(Clone, Copy, Debug, PartialEq, Eq)]
pub struct Unit {
    /// The place of its first byte.
    pub at: usize,
    /// How many bytes it takes.
    pub len: usize,
}

/// NAL units, in order.
pub type Units = Items<Unit>;

/// Lends the bytes of a unit.
pub(crate) fn unit_bytes(payload: &[u8], unit: Unit) -> &[u8]
    requires { Within payload.now unit }
    ensures bytes { result.now ≡ (unit_at payload.now unit).bytes }
    ensures len { length result.now ≡ unit.len }
{
    let (_, rest) = payload.split_at(unit.at);
    let (bytes, _) = rest.split_at(unit.len);
    bytes
}

/// Why a payload isn't a list of NAL units.
#[derive(Clone, Copy, Debug, PartialEq, Eq)]
pub enum NalFault {
    /// The payload doesn't begin with a start code.
    NoStart,
    /// No unit stands after the start code that ends at this place.
    EmptyUnit { at: u64 },
    NoMemory,
}

// The place of the first 00 00 01.
fn code_place(bytes: &[u8]) -> Option<usize>
    ensures { CutsAt bytes.now result }
{
    memmem::find(bytes, &[0, 0, 1])
}

// How many bytes are left without the zero bytes at the end.
fn trimmed_len(bytes: &[u8]) -> usize
    ensures len { result ≤ length bytes.now }
    ensures bytes { trimmed bytes.now ≡ take result bytes.now }
{
    let mut len = bytes.len();
    while len > 0 && bytes[len - 1] == 0 {
        len -= 1;
    }
    len
}

// Whether each byte is a zero byte.
fn all_zero(bytes: &[u8]) -> bool
    ensures { result ≡ list_all (λ b. b == 0) bytes.now }
{
    bytes.iter().all(|byte| *byte == 0)
}

// The place after the start code that begins a payload.
fn first_place(payload: &[u8]) -> Result<usize, NalFault>
    ensures { MatchResult result (λ at. (at ≤ length payload.now) × (nals payload.now ≡ units_from payload.now at)) (λ f. AreUnits payload.now (Err f)) }
{
    match code_place(payload) {
        Some(zeros) if all_zero(&payload[..zeros]) => Ok(zeros + 3),
        _ => Err(NalFault::NoStart),
    }
}

// The unit of a piece that stands at a place of a payload.
fn unit_in(piece: &[u8], at: usize) -> Result<Unit, NalFault>
    ensures { MatchResult result (λ u. UnitIn at piece.now u) (λ f. NoUnitIn at piece.now f) }
{
    let len = trimmed_len(piece);
    if len == 0 {
        return Err(NalFault::EmptyUnit { at: at as u64 });
    }
    Ok(Unit { at, len })
}

// The unit at a place after a start code, and the place after the start code that ends it.
fn next_unit(payload: &[u8], at: usize) -> Result<(Unit, Option<usize>), NalFault>
    requires { at ≤ length payload.now }
    ensures { MatchResult result (λ x. NextUnit payload.now at x.0 x.1) (λ f. units_from payload.now at ≡ Err f) }
{
    let (_, rest) = payload.split_at(at);
    match code_place(rest) {
        Some(code) => {
            let (piece, _) = rest.split_at(code);
            let unit = unit_in(piece, at)?;
            Ok((unit, Some(at + code + 3)))
        }
        None => {
            let unit = unit_in(rest, at)?;
            Ok((unit, None))
        }
    }
}

/// The NAL units of a payload with start codes (ISO/IEC 14496-10, Annex B), or the first refusal.
pub fn split_annexb(alloc: Global, payload: &[u8]) -> Result<Units, NalFault>
    ensures units { AreUnits payload.now result }
    ensures within { IfOk result (λ units. All (Within payload.now) units) }
    ensures some { IfOk result (λ units. All HasBytes units) }
{
    let mut units = Units::new(alloc);
    let mut next = Some(first_place(payload)?);
    while let Some(at) = next {
        let (unit, after) = next_unit(payload, at)?;
        if units.push(unit).is_err() {
            return Err(NalFault::NoMemory);
        }
        next = after;
    }
    Ok(units)
}
