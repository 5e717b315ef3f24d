//! Configuration records that are made of parameter sets.

use super::*;
use sf_list::{Bytes, holds, same};
use std::alloc::{AllocError, Global};
use std::test::Fail;

// Whether a configuration makes this body.
fn makes(alloc: Global, config: &[u8], body: &[u8]) -> bool {
    match make_config(alloc, config) {
        Ok(made) => made.as_slice() == body,
        Err(_) => false,
    }
}

// Whether a configuration is refused with this fault.
fn refused(alloc: Global, config: &[u8], fault: ConfigFault) -> bool {
    match make_config(alloc, config) {
        Ok(_) => false,
        Err(found) => found == fault,
    }
}

// How many bytes the record of a configuration has, or none.
fn made_len(alloc: Global, config: &[u8]) -> Option<usize> {
    match make_config(alloc, config) {
        Ok(made) => Some(made.len()),
        Err(_) => None,
    }
}

// So many sequence sets of five bytes, and so many picture sets of two, each after a start code.
fn counted(alloc: Global, sps: u16, pps: u16) -> Result<Bytes, AllocError> {
    let mut config = Bytes::new(alloc);
    for _ in 0..sps {
        config.append(b"\x00\x00\x01\x67\x42\x00\x1e\xf0")?;
    }
    for _ in 0..pps {
        config.append(b"\x00\x00\x01\x68\xce")?;
    }
    Ok(config)
}

// A sequence set of five bytes and as many more, and a picture set.
fn long_set(alloc: Global, more: usize) -> Result<Bytes, AllocError> {
    let mut set = Vec::new(alloc);
    set.extend_from_slice(b"\x00\x00\x01\x67\x42\x00\x1e\xf0")?;
    let len = set.len().saturating_add(more);
    set.resize(len, 0x55)?;
    set.extend_from_slice(b"\x00\x00\x01\x68\xce")?;
    Ok(Bytes::from_vec(set))
}

#[test]
fn records_of_the_profiles_in_use(rt: HostRuntime) -> Result<(), Fail> {
    let rows: [(&[u8], &[u8]); 8] = [
        // Baseline; High, whose sequence set ends after its depths (1 010 1 1 00).
        (
            b"\0\0\0\x01\x67\x42\x00\x1e\xf0\0\0\0\x01\x68\xce\x38\x80",
            b"\x01\x42\x00\x1e\xff\xe1\x00\x05\x67\x42\x00\x1e\xf0\x01\x00\x04\x68\xce\x38\x80",
        ),
        (
            b"\0\0\0\x01\x67\x64\x00\x1f\xac\0\0\0\x01\x68\xce\x38\x80",
            b"\x01\x64\x00\x1f\xff\xe1\x00\x05\x67\x64\x00\x1f\xac\x01\x00\x04\x68\xce\x38\x80\xfd\xf8\xf8\x00",
        ),
        // Constrained Baseline of 240 by 160 pixels, with bytes of emulation prevention, which stay.
        (
            b"\0\0\0\x01\x67\x42\xc0\x1e\xd9\x03\xc5\x68\x40\x00\x00\x03\x00\x40\x00\x00\x0c\x03\xc5\x8b\x92\0\0\0\x01\x68\xcb\x8c\xb2",
            b"\x01\x42\xc0\x1e\xff\xe1\x00\x15\x67\x42\xc0\x1e\xd9\x03\xc5\x68\x40\x00\x00\x03\x00\x40\x00\x00\x0c\x03\xc5\x8b\x92\x01\x00\x04\x68\xcb\x8c\xb2",
        ),
        // Main.
        (
            b"\0\0\0\x01\x67\x4d\x00\x29\xe2\x90\x0f\x00\x44\xfc\xb8\x0b\x70\x10\x10\x1a\x41\xe2\x44\x54\0\0\0\x01\x68\xee\x3c\x80",
            b"\x01\x4d\x00\x29\xff\xe1\x00\x14\x67\x4d\x00\x29\xe2\x90\x0f\x00\x44\xfc\xb8\x0b\x70\x10\x10\x1a\x41\xe2\x44\x54\x01\x00\x04\x68\xee\x3c\x80",
        ),
        // High of 1280 by 720 pixels.
        (
            b"\0\0\0\x01\x67\x64\x00\x1f\xac\xd9\x40\x50\x05\xbb\x01\x10\x00\x00\x03\x00\x10\x00\x00\x03\x03\x20\xf1\x83\x19\x60\0\0\0\x01\x68\xeb\xe3\xcb\x22\xc0",
            b"\x01\x64\x00\x1f\xff\xe1\x00\x1a\x67\x64\x00\x1f\xac\xd9\x40\x50\x05\xbb\x01\x10\x00\x00\x03\x00\x10\x00\x00\x03\x03\x20\xf1\x83\x19\x60\x01\x00\x06\x68\xeb\xe3\xcb\x22\xc0\xfd\xf8\xf8\x00",
        ),
        // High 10 with depths of 10 (1 010 011 011); High 4:2:2 with depths of 8 (1 011 1 1).
        (
            b"\0\0\x01\x67\x6e\x00\x1f\xa6\xcd\x94\0\0\x01\x68\xee\x3c",
            b"\x01\x6e\x00\x1f\xff\xe1\x00\x07\x67\x6e\x00\x1f\xa6\xcd\x94\x01\x00\x03\x68\xee\x3c\xfd\xfa\xfa\x00",
        ),
        (
            b"\0\0\x01\x67\x7a\x00\x1f\xbc\0\0\x01\x68\xee\x3c",
            b"\x01\x7a\x00\x1f\xff\xe1\x00\x05\x67\x7a\x00\x1f\xbc\x01\x00\x03\x68\xee\x3c\xfe\xf8\xf8\x00",
        ),
        // The level 0, and a byte of emulation prevention right after it.
        (
            b"\0\0\x01\x67\x42\x00\x00\x03\x80\0\0\x01\x68\xce",
            b"\x01\x42\x00\x00\xff\xe1\x00\x06\x67\x42\x00\x00\x03\x80\x01\x00\x02\x68\xce",
        ),
    ];
    for (config, body) in rows {
        holds(makes(rt.alloc(), config, body))?;
    }
    Ok(())
}

#[test]
fn sets_stay_in_order_and_other_units_are_left_out(rt: HostRuntime) -> Result<(), Fail> {
    let config =
        b"\0\0\x01\x09\xf0\0\0\x01\x68\xce\0\0\x01\x67\x58\x00\x1e\xf0\0\0\x01\x06\x05\0\0\x01\x28\xcf\0\0\x01\x27\x42\0";
    let body =
        b"\x01\x58\x00\x1e\xff\xe2\x00\x05\x67\x58\x00\x1e\xf0\x00\x02\x27\x42\x02\x00\x02\x68\xce\x00\x02\x28\xcf";
    holds(makes(rt.alloc(), config, body))?;
    Ok(())
}

#[test]
fn each_refusal_of_a_configuration_has_its_cause(rt: HostRuntime) -> Result<(), Fail> {
    let truncated = |bit: u64| ConfigFault::Sps(SpsFault::Truncated { bit });
    let large = |bit: u64| ConfigFault::Sps(SpsFault::ValueTooLarge { bit });
    let empty = |at: u64| ConfigFault::Nal(NalFault::EmptyUnit { at });
    let rows: [(&[u8], ConfigFault); 14] = [
        (b"", ConfigFault::Nal(NalFault::NoStart)),
        (b"\0\0\0\0\0\0", ConfigFault::Nal(NalFault::NoStart)),
        (b"\x67\x42\0\0\x01\x68", ConfigFault::Nal(NalFault::NoStart)),
        // It ends with a start code, and inside one.
        (b"\0\0\x01\x67\x42\x00\x1e\xf0\0\0\x01", empty(11)),
        (b"\0\0\x01\x67\x42\x00\x1e\xf0\0\0", ConfigFault::NoPps),
        (b"\0\0\x01\x68\xce", ConfigFault::NoSps),
        (b"\0\0\x01\x09\xf0", ConfigFault::NoSps),
        // Profile 244, and 44.
        (
            b"\0\0\0\x01\x67\xf4\x00\x1e\xf0\0\0\0\x01\x68\xce\x38\x80",
            ConfigFault::Profile(244),
        ),
        (
            b"\0\0\x01\x67\x2c\x00\x1e\xf0\0\0\x01\x68\xce",
            ConfigFault::Profile(44),
        ),
        // The first sequence set counts, and it is refused before its profile.
        (
            b"\0\0\x01\x67\x42\0\0\x01\x67\x42\x00\x1e\xf0\0\0\x01\x68\xce",
            truncated(8),
        ),
        (b"\0\0\x01\x67\x42\x00\x1e\0\0\x01\x68\xce", truncated(24)),
        (b"\0\0\x01\x67\xf4\x00\x1e\0\0\x01\x68\xce", truncated(24)),
        // The id 32; 32 zero bits, of which the last ends the bits.
        (
            b"\0\0\x01\x67\x42\x00\x1e\x04\x20\0\0\x01\x68\xce",
            large(24),
        ),
        (
            b"\0\0\x01\x67\x42\x00\x1e\x00\x00\x03\x00\x00\x03\0\0\x01\x68\xce",
            large(24),
        ),
    ];
    for (config, fault) in rows {
        holds(refused(rt.alloc(), config, fault))?;
    }
    Ok(())
}

#[test]
fn a_record_has_room_for_31_and_255_sets(rt: HostRuntime) -> Result<(), Fail> {
    let alloc = rt.alloc();
    same(
        made_len(alloc, counted(alloc, 31, 1)?.as_slice()),
        Some(228),
    )?;
    holds(refused(
        alloc,
        counted(alloc, 32, 1)?.as_slice(),
        ConfigFault::TooLong,
    ))?;
    same(
        made_len(alloc, counted(alloc, 1, 255)?.as_slice()),
        Some(1034),
    )?;
    holds(refused(
        alloc,
        counted(alloc, 1, 256)?.as_slice(),
        ConfigFault::TooLong,
    ))?;
    same(
        made_len(alloc, long_set(alloc, 65_530)?.as_slice()),
        Some(65_548),
    )?;
    holds(refused(
        alloc,
        long_set(alloc, 65_531)?.as_slice(),
        ConfigFault::TooLong,
    ))?;
    Ok(())
}

#[test]
fn many_bytes_without_a_start_code_are_no_configuration(rt: HostRuntime) -> Result<(), Fail> {
    let alloc = rt.alloc();
    for byte in [0u8, 1, 0x67] {
        let mut bytes = Vec::new(alloc);
        bytes.resize(65_536, byte)?;
        holds(refused(alloc, bytes.as_slice(), ConfigFault::Nal(NalFault::NoStart)))?;
    }
    Ok(())
}
