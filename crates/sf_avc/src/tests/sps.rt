//! Heads of sequence parameter sets.

use super::*;
use sf_list::{holds, same};
use std::test::Fail;

// A head with the constraints 0 and the id 0.
fn head(profile: u8, level: u8) -> SpsHead {
    SpsHead {
        profile,
        constraints: 0,
        level,
        id: 0,
        chroma: 1,
        luma: 0,
        chroma_depth: 0,
    }
}

#[test]
fn a_set_holds_its_head(rt: HostRuntime) -> Result<(), Fail> {
    same(read_sps(b"\x67\x42\x00\x1e\xf0"), Ok(head(66, 30)))?;
    same(read_sps(b"\x67\x64\x00\x1f\xac"), Ok(head(100, 31)))?;
    // The id 31 (00000100000), the chroma format 2 (011), and two depths of 14 (00111 each).
    let mut wanted = head(122, 51);
    wanted.constraints = 0x50;
    wanted.id = 31;
    wanted.chroma = 2;
    wanted.luma = 6;
    wanted.chroma_depth = 6;
    same(read_sps(b"\x27\x7a\x50\x33\x04\x0c\xe7"), Ok(wanted))?;
    Ok(())
}

#[test]
fn another_unit_is_no_set(rt: HostRuntime) -> Result<(), Fail> {
    same(read_sps(b""), Err(SpsFault::NotSps))?;
    same(read_sps(b"\x68\xce\x38\x80"), Err(SpsFault::NotSps))?;
    Ok(())
}

#[test]
fn a_set_cut_anywhere_is_truncated(rt: HostRuntime) -> Result<(), Fail> {
    let unit = b"\x67\x64\x00\x1f\x04\x0c\xe7";
    holds(read_sps(unit).is_ok())?;
    for len in 1..7 {
        let bit = 8 * (len as u64 - 1);
        same(read_sps(&unit[..len]), Err(SpsFault::Truncated { bit }))?;
    }
    Ok(())
}

#[test]
fn emulation_prevention_is_left_out(rt: HostRuntime) -> Result<(), Fail> {
    same(read_sps(b"\x67\x42\x00\x00\x03\x80"), Ok(head(66, 0)))?;
    let at = |bit: u64| Err(SpsFault::Truncated { bit });
    same(read_sps(b"\x67\x42\x00\x00\x03"), at(24))?;
    same(read_sps(b"\x67\x42\x00\x00\x00\x03"), at(32))?;
    // Behind a byte that was left out, a byte 3 follows one zero byte alone.
    same(read_sps(b"\x67\x00\x00\x03\x00\x03"), at(32))?;
    Ok(())
}

#[test]
fn values_have_a_greatest(rt: HostRuntime) -> Result<(), Fail> {
    let above = |bit: u64| Err(SpsFault::ValueTooLarge { bit });
    // The id 32 (00000100001).
    same(read_sps(b"\x67\x42\x00\x1e\x04\x20"), above(24))?;
    // The chroma format 3 (00100), and depths of 15 (0001000).
    same(read_sps(b"\x67\x64\x00\x1f\x90"), above(25))?;
    same(read_sps(b"\x67\x64\x00\x1f\xa1\x00"), above(28))?;
    same(read_sps(b"\x67\x64\x00\x1f\xa8\x80"), above(29))?;
    Ok(())
}

#[test]
fn a_value_has_at_most_31_zero_bits(rt: HostRuntime) -> Result<(), Fail> {
    let zeros = b"\x67\x42\x00\x1e\x00\x00\x03\x00\x00";
    same(read_sps(zeros), Err(SpsFault::ValueTooLarge { bit: 24 }))?;
    same(read_sps(&zeros[..8]), Err(SpsFault::Truncated { bit: 48 }))?;
    let one = b"\x67\x42\x00\x1e\x00\x00\x03\x00\x01";
    same(read_sps(one), Err(SpsFault::Truncated { bit: 56 }))?;
    let long = b"\x67\x42\x00\x1e\x00\x00\x03\x00\x01\x00\x00\x03\x00\x00";
    same(read_sps(long), Err(SpsFault::ValueTooLarge { bit: 24 }))?;
    Ok(())
}
