//! Units in payloads and in stored samples.

ghost use Rattle.std.specs.Prelude.{◌≤◌};

use super::*;
use sf_list::{Bytes, holds, same};
use std::alloc::Global;
use std::test::Fail;

const TWO: [u8; 11] = [0, 0, 0, 1, 0x65, 0x88, 0, 0, 1, 0x41, 0x9A];

// Whether the units of a payload stand at these places, with these lengths.
fn splits(alloc: Global, payload: &[u8], wanted: &[Unit]) -> bool {
    match split_annexb(alloc, payload) {
        Ok(units) => units.as_slice() == wanted,
        Err(_) => false,
    }
}

// Whether a payload is refused so.
fn refused(alloc: Global, payload: &[u8], wanted: NalFault) -> bool {
    match split_annexb(alloc, payload) {
        Ok(_) => false,
        Err(fault) => fault == wanted,
    }
}

#[test]
fn units_stand_after_start_codes(rt: HostRuntime) -> Result<(), Fail> {
    let alloc = rt.alloc();
    let two = [Unit { at: 4, len: 2 }, Unit { at: 9, len: 2 }];
    holds(splits(alloc, &TWO, &two))?;
    let three_bytes = [0, 0, 1, 0x65];
    holds(splits(alloc, &three_bytes, &[Unit { at: 3, len: 1 }]))?;
    let five_bytes = [0, 0, 0, 0, 1, 0x65, 0x88, 0, 0, 0, 0, 1, 0x41];
    let wide = [Unit { at: 5, len: 2 }, Unit { at: 12, len: 1 }];
    holds(splits(alloc, &five_bytes, &wide))?;
    Ok(())
}

#[test]
fn zero_bytes_at_the_end_of_a_unit_are_taken_away(rt: HostRuntime) -> Result<(), Fail> {
    let alloc = rt.alloc();
    let at_the_end = [0, 0, 1, 0x65, 0, 0x88, 0, 0];
    holds(splits(alloc, &at_the_end, &[Unit { at: 3, len: 3 }]))?;
    let no_start_code = [0, 0, 1, 0x65, 1, 0, 1, 0x88];
    holds(splits(alloc, &no_start_code, &[Unit { at: 3, len: 5 }]))?;
    Ok(())
}

// Units that stand far apart are found in long payloads too.
#[test]
fn units_of_a_long_payload_are_found(rt: HostRuntime) -> Result<(), Fail> {
    let mut payload = [0x55u8; 1000];
    payload[..4].copy_from_slice(&[0, 0, 0, 1]);
    payload[70..74].copy_from_slice(&[0, 0, 2, 1]);
    payload[500..503].copy_from_slice(&[0, 0, 1]);
    payload[996..1000].copy_from_slice(&[0, 1, 0, 0]);
    let wanted = [Unit { at: 4, len: 496 }, Unit { at: 503, len: 495 }];
    holds(splits(rt.alloc(), &payload, &wanted))?;
    Ok(())
}

#[test]
fn the_first_refusal_counts(rt: HostRuntime) -> Result<(), Fail> {
    let alloc = rt.alloc();
    holds(refused(alloc, &[], NalFault::NoStart))?;
    holds(refused(alloc, &[0x65, 0x88, 0x84], NalFault::NoStart))?;
    holds(refused(alloc, &[0, 1, 0x65], NalFault::NoStart))?;
    holds(refused(alloc, &[0, 0, 0], NalFault::NoStart))?;
    holds(refused(alloc, &[0, 0, 2, 0, 0, 1, 0x65], NalFault::NoStart))?;
    holds(refused(alloc, &[0, 0, 0, 1], NalFault::EmptyUnit { at: 4 }))?;
    holds(refused(
        alloc,
        &[0, 0, 1, 0, 0, 1, 0x65],
        NalFault::EmptyUnit { at: 3 },
    ))?;
    holds(refused(
        alloc,
        &[0, 0, 1, 0x65, 0, 0, 1, 0, 0],
        NalFault::EmptyUnit { at: 7 },
    ))?;
    Ok(())
}

#[test]
fn units_are_stored_after_their_lengths(rt: HostRuntime) -> Result<(), Fail> {
    let alloc = rt.alloc();
    let mut units = Units::new(alloc);
    units.push(Unit { at: 4, len: 2 })?;
    units.push(Unit { at: 9, len: 2 })?;
    let stored = prefix(alloc, &TWO, &units)?;
    let wanted = [0, 0, 0, 2, 0x65, 0x88, 0, 0, 0, 2, 0x41, 0x9A];
    same(stored.as_slice(), wanted.as_slice())?;
    Ok(())
}

// Whether units tile a stored sample at these places, with these lengths.
fn tiles(alloc: Global, stored: &[u8], width: u8, wanted: &[Unit]) -> bool
    requires least { 1 ≤ width }
    requires most { width ≤ 4 }
{
    match split_prefixed(alloc, stored, width) {
        Ok(units) => units.as_slice() == wanted,
        Err(_) => false,
    }
}

// Whether a stored sample is refused at a place.
fn bad_at(alloc: Global, stored: &[u8], width: u8, at: u64) -> bool
    requires least { 1 ≤ width }
    requires most { width ≤ 4 }
{
    match split_prefixed(alloc, stored, width) {
        Ok(_) => false,
        Err(fault) => fault == LengthFault::BadLength { at },
    }
}

#[test]
fn units_tile_a_stored_sample(rt: HostRuntime) -> Result<(), Fail> {
    let alloc = rt.alloc();
    let four = [0, 0, 0, 2, 0x65, 0x88, 0, 0, 0, 2, 0x41, 0x9A];
    let two = [Unit { at: 4, len: 2 }, Unit { at: 10, len: 2 }];
    holds(tiles(alloc, &four, 4, &two))?;
    holds(tiles(
        alloc,
        &[2, 0x65, 0x88, 0],
        1,
        &[Unit { at: 1, len: 2 }, Unit { at: 4, len: 0 }],
    ))?;
    holds(tiles(alloc, &[0, 0, 1, 0x65], 3, &[Unit { at: 3, len: 1 }]))?;
    holds(tiles(alloc, &[], 2, &[]))?;
    Ok(())
}

#[test]
fn a_length_that_passes_the_end_is_refused(rt: HostRuntime) -> Result<(), Fail> {
    let alloc = rt.alloc();
    holds(bad_at(alloc, &[0, 0, 0, 9, 0x65], 4, 0))?;
    holds(bad_at(alloc, &[0, 1, 0x65, 0], 2, 3))?;
    holds(bad_at(alloc, &[0, 1, 0x65, 1, 0], 2, 3))?;
    Ok(())
}

#[test]
fn units_are_put_after_start_codes(rt: HostRuntime) -> Result<(), Fail> {
    let alloc = rt.alloc();
    let stored = [0, 0, 0, 2, 0x65, 0x88, 0, 0, 0, 2, 0x41, 0x9A];
    let mut units = Units::new(alloc);
    units.push(Unit { at: 4, len: 2 })?;
    units.push(Unit { at: 10, len: 2 })?;
    let mut into = Bytes::from_slice(alloc, &[7])?;
    annexb_of(&stored, &units, &mut into)?;
    let wanted = [7, 0, 0, 0, 1, 0x65, 0x88, 0, 0, 0, 1, 0x41, 0x9A];
    same(into.as_slice(), wanted.as_slice())?;
    Ok(())
}
