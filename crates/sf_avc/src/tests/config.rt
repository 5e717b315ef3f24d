//! Configuration records that are read.

use super::*;
use sf_list::{Bytes, holds};
use std::alloc::Global;
use std::test::Fail;

/// A record with length size 4, one sequence set of five bytes and one picture set of four.
const ONE_EACH: [u8; 20] =
    *b"\x01\x42\x00\x1e\xff\xe1\x00\x05\x67\x42\x00\x1e\xf0\x01\x00\x04\x68\xce\x38\x80";

// Whether a body is refused with this fault.
fn refused(alloc: Global, body: &[u8], fault: AvcCFault) -> bool {
    match read_config(alloc, body) {
        Ok(_) => false,
        Err(found) => found == fault,
    }
}

// Whether sets are these.
fn same_sets(sets: &[Bytes], wanted: &[&[u8]]) -> bool {
    let mut equal = sets.len() == wanted.len();
    for (set, bytes) in sets.iter().zip(wanted) {
        equal = equal && set.as_slice() == *bytes;
    }
    equal
}

// Whether a body holds this length size and these sets.
fn holds_config(alloc: Global, body: &[u8], width: u8, sps: &[&[u8]], pps: &[&[u8]]) -> bool {
    match read_config(alloc, body) {
        Ok(config) => {
            config.width == width
                && same_sets(config.sps.as_slice(), sps)
                && same_sets(config.pps.as_slice(), pps)
        }
        Err(_) => false,
    }
}

#[test]
fn a_record_holds_its_sets(rt: HostRuntime) -> Result<(), Fail> {
    let alloc = rt.alloc();
    let sps = b"\x67\x42\x00\x1e\xf0".as_slice();
    let pps = b"\x68\xce\x38\x80".as_slice();
    holds(holds_config(alloc, &ONE_EACH, 4, &[sps], &[pps]))?;
    let three = b"\x01\x42\x00\x1e\x01\x02\x00\x01\x67\x00\x02\x67\x42\x01\x00\x00\xfd\xf8";
    holds(holds_config(alloc, three, 2, &[b"\x67", b"\x67\x42"], &[b""]))?;
    let none = b"\x01\x42\x00\x1e\xfc\xe0\x00";
    holds(holds_config(alloc, none, 1, &[], &[]))?;
    Ok(())
}

#[test]
fn a_record_cut_anywhere_is_short(rt: HostRuntime) -> Result<(), Fail> {
    for len in 0..20 {
        holds(refused(rt.alloc(), &ONE_EACH[..len], AvcCFault::Short))?;
    }
    Ok(())
}

#[test]
fn another_version_is_refused(rt: HostRuntime) -> Result<(), Fail> {
    let mut body = ONE_EACH;
    body[0] = 2;
    holds(refused(rt.alloc(), &body, AvcCFault::Version(2)))?;
    holds(refused(rt.alloc(), &[0], AvcCFault::Version(0)))?;
    Ok(())
}
