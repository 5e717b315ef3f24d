//! Configurations of sound, and what they say or are refused for.

use super::*;
use sf_list::holds;
use std::test::Fail;

/// Configurations that are read: their bytes, and the object type, the rate and the channels.
const READ: [(&[u8], u8, u32, u8); 16] = [
    (&[0x11, 0x90], 2, 48_000, 2),
    (&[0x12, 0x10], 2, 44_100, 2),
    (&[0x14, 0x08], 2, 16_000, 1),
    (&[0x13, 0x88], 2, 22_050, 1),
    // What stands after the fields isn't read.
    (&[0x11, 0x97, 0xFF], 2, 48_000, 2),
    (&[0x11, 0x90, 0x56, 0xE5, 0x00], 2, 48_000, 2),
    // The last index that has a rate, and the object type 0
    (&[0x16, 0x08], 2, 7_350, 1),
    (&[0x00, 0x08], 0, 96_000, 1),
    // The object type 31 has six bits more, which count from 32: 11111 000000 0011 0010 0 and 11111 111111 0100 0001 0.
    (&[0xF8, 0x06, 0x40], 32, 48_000, 2),
    (&[0xFF, 0xE8, 0x20], 95, 44_100, 1),
    // After the index 15 a rate of 24 bits is stated: 00010 1111, the rates 1 and 2 ^ 24 - 1, and 0010 000.
    (&[0x17, 0x80, 0x00, 0x00, 0x90], 2, 1, 2),
    (&[0x17, 0xFF, 0xFF, 0xFF, 0x90], 2, 16_777_215, 2),
    // 11111 000001 1111, the rate 48000, and 0110 0
    (&[0xF8, 0x3E, 0x01, 0x77, 0x00, 0xC0], 33, 48_000, 6),
    // The channel configurations 6 and 7
    (&[0x11, 0xB0], 2, 48_000, 6),
    (&[0x11, 0xB8], 2, 48_000, 8),
    (&[0x10, 0x38], 2, 96_000, 8),
];

#[test]
fn a_configuration_names_its_object_rate_and_channels(rt: HostRuntime) -> Result<(), Fail> {
    for (config, object, rate, channels) in &READ {
        let asc = Asc {
            object: *object,
            rate: *rate,
            channels: *channels,
        };
        holds(matches!(read_asc(config), Ok(found) if found == asc))?;
    }
    Ok(())
}

/// Configurations that are refused.
const REFUSED: [(&[u8], AscFault); 12] = [
    (&[], AscFault::Truncated),
    (&[0x11], AscFault::Truncated),
    // also where the index has no rate
    (&[0x16], AscFault::Truncated),
    (&[0xF8, 0x06], AscFault::Truncated),
    (&[0x17, 0x80, 0x00, 0x00], AscFault::Truncated),
    // The indices 13 and 14, also where the channels would be refused
    (&[0x16, 0x90], AscFault::Index(13)),
    (&[0x17, 0x00], AscFault::Index(14)),
    // The stated rate 0, also where the channels would be refused
    (&[0x17, 0x80, 0x00, 0x00, 0x10], AscFault::Rate0),
    (&[0x17, 0x80, 0x00, 0x00, 0x00], AscFault::Rate0),
    (&[0x11, 0x80], AscFault::Channels(0)),
    (&[0x11, 0xC0], AscFault::Channels(8)),
    (&[0x11, 0xF8], AscFault::Channels(15)),
];

#[test]
fn a_configuration_is_refused_at_its_first_fault(rt: HostRuntime) -> Result<(), Fail> {
    for (config, fault) in &REFUSED {
        holds(matches!(read_asc(config), Err(found) if found == *fault))?;
    }
    Ok(())
}
