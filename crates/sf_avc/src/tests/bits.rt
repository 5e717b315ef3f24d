//! Bits of bytes.

use super::*;
use sf_list::same;
use std::test::Fail;

#[test]
fn bits_are_taken_the_highest_first(rt: HostRuntime) -> Result<(), Fail> {
    // 00010 0011 0010 000, and nothing after it.
    let mut bits = Bits::new(b"\x11\x90");
    same(bits.take(5), Some(2))?;
    same(bits.take(4), Some(3))?;
    same(bits.take(4), Some(2))?;
    same(bits.at(), 13)?;
    same(bits.take(4), None)?;
    same(bits.at(), 16)?;
    let mut wide = Bits::new(b"\xfe\xdc\xba\x98\x76");
    same(wide.take(32), Some(0xfedc_ba98))?;
    same(wide.take(0), Some(0))?;
    same(wide.take(8), Some(0x76))?;
    same(wide.take(1), None)?;
    Ok(())
}
