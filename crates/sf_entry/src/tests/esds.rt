//! The configuration that is read from descriptors.

use super::*;
use crate::esds::config_in;
use sf_list::holds;
use std::alloc::Global;
use std::test::Fail;

// Whether this configuration is read from the body of an elementary stream descriptor box.
fn is(esds: &[u8], config: &[u8]) -> bool {
    match config_in(esds) {
        Some(found) => found == config,
        None => false,
    }
}

// Whether the configuration 11 90 is read from a body in hexadecimal digits.
fn reads(alloc: Global, esds: &str) -> bool {
    match hex(alloc, &[esds]) {
        Ok(esds) => is(esds.as_slice(), &[0x11, 0x90]),
        Err(_) => false,
    }
}

// Whether none is read from it.
fn reads_none(alloc: Global, esds: &str) -> bool {
    match hex(alloc, &[esds]) {
        Ok(esds) => config_in(esds.as_slice()).is_none(),
        Err(_) => false,
    }
}

/// Bodies from which 11 90 is read. A descriptor has a tag, a length and a body; the decoder's has 13 bytes of fields.
const READ: [&str; 16] = [
    // Lengths of one to four bytes
    "00000000 03 19 000100 04 11 40 15000000 0001F400 0001F400 05 02 1190 06 01 02",
    "00000000 03 801C 000100 04 8012 40 15000000 0001F400 0001F400 05 8002 1190 06 8001 02",
    "00000000 03 80801F 000100 04 808013 40 15000000 0001F400 0001F400 05 808002 1190 06 808001 02",
    "00000000 03 80808022 000000 04 80808014 40 15000000 00000000 00000000 05 80808002 1190 06 80808001 02",
    "00000000 03 801B 000100 04 13 40 15000000 0001F400 0001F400 05 808002 1190 06 01 02",
    // The priority of a stream, in the low five bits of its flags
    "00000000 03 16 00011F 04 11 40 15000000 0001F400 0001F400 05 02 1190",
    // The flag 80 adds the number of another stream.
    "00000000 03 18 000180 0007 04 11 40 15000000 0001F400 0001F400 05 02 1190",
    // 40 adds an address, after its length in a byte.
    "00000000 03 17 000140 00 04 11 40 15000000 0001F400 0001F400 05 02 1190",
    "00000000 03 1C 000140 05 6162633A64 04 11 40 15000000 0001F400 0001F400 05 02 1190",
    // 20 adds the number of a stream of clock references.
    "00000000 03 18 000120 0009 04 11 40 15000000 0001F400 0001F400 05 02 1190",
    "00000000 03 1B 0001C0 0007 02 6162 04 11 40 15000000 0001F400 0001F400 05 02 1190",
    "00000000 03 1A 0001A0 0007 0009 04 11 40 15000000 0001F400 0001F400 05 02 1190",
    "00000000 03 1B 000160 02 6162 0009 04 11 40 15000000 0001F400 0001F400 05 02 1190",
    "00000000 03 1D 0001FF 0007 02 6162 0009 04 11 40 15000000 0001F400 0001F400 05 02 1190",
    // Neither the version nor the stream type is looked at, nor what follows the stream.
    "01000000 03 16 000100 04 11 40 21FFFFFF FFFFFFFF FFFFFFFF 05 02 1190 FFFF",
    "00000000 03 17 000100 04 11 40 15000000 0001F400 0001F400 05 02 1190 06",
];

/// Bodies from which no configuration is read.
const NOT_READ: [&str; 25] = [
    "",
    "000000",
    "00000000",
    "00000000 03",
    "00000000 03 80",
    "00000000 03 16",
    // A fifth byte of a length is too many.
    "00000000 03 1A 000100 04 15 40 15000000 0001F400 0001F400 05 8080808002 1190",
    // The stream is one byte short, the decoder passes it, the configuration passes the decoder.
    "00000000 03 17 000100 04 11 40 15000000 0001F400 0001F400 05 02 1190",
    "00000000 03 16 000100 04 12 40 15000000 0001F400 0001F400 05 02 1190",
    "00000000 03 16 000100 04 11 40 15000000 0001F400 0001F400 05 03 1190",
    // The fields of the decoder or of the stream aren't whole.
    "00000000 03 11 000100 04 0C 40 15000000 0001F400 0001F4",
    "00000000 03 02 0001 04 11 40 15000000 0001F400 0001F400 05 02 1190",
    "00000000 03 04 000180 00 04 11 40 15000000 0001F400 0001F400 05 02 1190",
    "00000000 03 03 000140 04 11 40 15000000 0001F400 0001F400 05 02 1190",
    "00000000 03 05 000140 02 61 04 11 40 15000000 0001F400 0001F400 05 02 1190",
    "00000000 03 04 000120 00 04 11 40 15000000 0001F400 0001F400 05 02 1190",
    // No configuration
    "00000000 03 12 000100 04 0D 40 15000000 0001F400 0001F400",
    // Other tags, and another descriptor before the one that is looked for
    "00000000 02 16 000100 04 11 40 15000000 0001F400 0001F400 05 02 1190",
    "00000000 03 16 000100 05 11 40 15000000 0001F400 0001F400 05 02 1190",
    "00000000 03 16 000100 04 11 40 15000000 0001F400 0001F400 06 02 1190",
    "00000000 03 19 000100 06 01 02 04 11 40 15000000 0001F400 0001F400 05 02 1190",
    // A field that no flag adds
    "00000000 03 18 000100 0007 04 11 40 15000000 0001F400 0001F400 05 02 1190",
    // Sound by ISO/IEC 13818-7 and by ISO/IEC 11172-3, and video
    "00000000 03 16 000100 04 11 67 15000000 0001F400 0001F400 05 02 1190",
    "00000000 03 16 000100 04 11 6B 15000000 0001F400 0001F400 05 02 1190",
    "00000000 03 16 000100 04 11 20 11000000 0001F400 0001F400 05 02 1190",
];

#[test]
fn each_descriptor_is_the_first_within_the_one_before(rt: HostRuntime) -> Result<(), Fail> {
    let alloc = rt.alloc();
    for esds in &READ {
        holds(reads(alloc, esds))?;
    }
    for esds in &NOT_READ {
        holds(reads_none(alloc, esds))?;
    }
    Ok(())
}

// A configuration of 130 bytes is in descriptors of 130, 146 and 152 bytes: 81 02, 81 12 and 81 18.
#[test]
fn each_byte_of_a_length_has_seven_bits(rt: HostRuntime) -> Result<(), Fail> {
    let mut esds = [0; 159];
    esds[4..14].copy_from_slice(&[3, 0x81, 0x18, 0, 1, 0, 4, 0x81, 0x12, 0x40]);
    esds[26..30].copy_from_slice(&[5, 0x81, 0x02, 0x11]);
    let mut config = [0; 130];
    config[0] = 0x11;
    holds(is(&esds, &config))?;
    holds(config_in(&esds[..158]).is_none())?;
    Ok(())
}
