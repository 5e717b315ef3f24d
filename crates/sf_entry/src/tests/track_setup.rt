//! The tracks and entries of setups, and what a setup is refused for.

use super::*;
use sf_avc::{ConfigFault, NalFault, SpsFault};
use sf_list::holds;
use sf_tick::{Kind, Setup};
use std::alloc::Global;
use std::test::Fail;

/// The entry of AAC of object type 2 at 48000 Hz with two channels, 11 90, has 87 bytes: this head, the channels, and
/// then the rate and the descriptors.
const MP4A: &str = "00000057 6D703461 000000000000 0001 0000000000000000";

const STREAM: &str = "0010 00000000 BB800000 \
    00000033 65736473 00000000 03 80808022 0000 00 04 80808014 40 15 000000 00000000 00000000 \
    05 80808002 1190 06 80808001 02";

/// The fields of an entry of video with 320 times 240 pixels.
const VIDEO: &str = "61766331 000000000000 0001 00000000000000000000000000000000 0140 00F0 \
    00480000 00480000 00000000 0001 0000000000000000000000000000000000000000000000000000000000000000 \
    0018 FFFF";

/// Parameter sets of the Baseline profile and of the High profile; a unit of another type is left out.
const BASELINE: &str = "00000001 6742001EF0 00000001 68CE3880";

const HIGH: &str = "000001 0910 000001 6764001EAC 000001 68CE3880";

// The track of a setup with this configuration.
fn made(
    alloc: Global,
    kind: Kind,
    scale: u32,
    channels: u16,
    config: Bytes,
) -> Result<TrackSetup, SetupFault> {
    if config.len() > 65_536 {
        return Err(SetupFault::NoMemory);
    }
    let setup = Setup {
        kind,
        scale,
        width: 320,
        height: 240,
        channels,
        config,
    };
    make_entry(alloc, &setup)
}

/// A setup and what is made of it: the kind, the timescale, the channels and the configuration; the timescale and the entry.
type Row = (Kind, u32, u16, &'static str, u32, &'static [&'static str]);

/// Setups and their tracks.
const MADE: [Row; 7] = [
    (
        Kind::Aac,
        90_000,
        2,
        "1190",
        90_000,
        &[MP4A, "0002", STREAM],
    ),
    // What a setup leaves out is taken from its configuration.
    (Kind::Aac, 0, 0, "1190", 48_000, &[MP4A, "0002", STREAM]),
    (Kind::Aac, 0, 1, "1190", 48_000, &[MP4A, "0001", STREAM]),
    (Kind::Aac, 1, 256, "1190", 1, &[MP4A, "0100", STREAM]),
    (
        Kind::Avc,
        0,
        0,
        BASELINE,
        90_000,
        &[
            "00000072",
            VIDEO,
            "0000001C 61766343 01 42001E FF E1 0005 6742001EF0 01 0004 68CE3880",
        ],
    ),
    (
        Kind::Avc,
        25,
        2,
        BASELINE,
        25,
        &[
            "00000072",
            VIDEO,
            "0000001C 61766343 01 42001E FF E1 0005 6742001EF0 01 0004 68CE3880",
        ],
    ),
    (
        Kind::Avc,
        0,
        0,
        HIGH,
        90_000,
        &[
            "00000076",
            VIDEO,
            "00000020 61766343 01 64001E FF E1 0005 6764001EAC 01 0004 68CE3880 FDF8F800",
        ],
    ),
];

// Whether what is made of a setup is this track.
fn is_made(alloc: Global, row: &Row) -> bool {
    let (kind, scale, channels, config, wanted_scale, entry) = row;
    let (Ok(config), Ok(entry)) = (hex(alloc, &[config]), hex(alloc, entry)) else {
        return false;
    };
    match made(alloc, *kind, *scale, *channels, config) {
        Ok(track) => {
            track.kind == *kind
                && track.scale == *wanted_scale
                && track.width == 320
                && track.height == 240
                && track.entry.as_slice() == entry.as_slice()
        }
        Err(_) => false,
    }
}

#[test]
fn a_setup_makes_a_track_with_its_entry(rt: HostRuntime) -> Result<(), Fail> {
    let alloc = rt.alloc();
    for row in &MADE {
        holds(is_made(alloc, row))?;
    }
    Ok(())
}

/// Configurations of sound, with the timescale of their tracks, and with the channels and the rate in the entry.
const STATED: [(&str, u32, [u8; 2], [u8; 4]); 7] = [
    ("1190 56E500", 48_000, [0, 2], [0xBB, 0x80, 0, 0]),
    ("1210", 44_100, [0, 2], [0xAC, 0x44, 0, 0]),
    ("1408", 16_000, [0, 1], [0x3E, 0x80, 0, 0]),
    ("1388", 22_050, [0, 1], [0x56, 0x22, 0, 0]),
    // The stated rates 65535 and 65536: one above 65535 is written as 0.
    ("17807FFF90", 65_535, [0, 2], [0xFF, 0xFF, 0, 0]),
    ("1780800010", 65_536, [0, 2], [0, 0, 0, 0]),
    // 96000, with the channel configuration 7
    ("1038", 96_000, [0, 8], [0, 0, 0, 0]),
];

// Whether the track of a configuration of sound has this timescale, and its entry these channels and this rate.
fn states(alloc: Global, config: &str, scale: u32, channels: &[u8; 2], rate: &[u8; 4]) -> bool {
    let Ok(config) = hex(alloc, &[config]) else {
        return false;
    };
    match made(alloc, Kind::Aac, 0, 0, config) {
        Ok(track) => {
            let entry = track.entry.as_slice();
            track.scale == scale
                && entry.len() >= 36
                && &entry[24..26] == channels.as_slice()
                && &entry[32..36] == rate.as_slice()
        }
        Err(_) => false,
    }
}

#[test]
fn the_entry_of_sound_states_its_channels_and_rate(rt: HostRuntime) -> Result<(), Fail> {
    let alloc = rt.alloc();
    for (config, scale, channels, rate) in &STATED {
        holds(states(alloc, config, *scale, channels, rate))?;
    }
    Ok(())
}

// 200 bytes of configuration are in descriptors of 200, 218 and 232 bytes: 81 48, 81 5A and 81 68.
#[test]
fn a_length_of_128_or_more_takes_a_second_byte(rt: HostRuntime) -> Result<(), Fail> {
    let alloc = rt.alloc();
    let mut config = hex(alloc, &["1190"])?;
    config.append(&[0; 198])?;
    let track = made(alloc, Kind::Aac, 0, 0, config)?;
    let mut wanted = hex(
        alloc,
        &[
            "0000011D 6D703461 000000000000 0001 0000000000000000 0002 0010 00000000 BB800000",
            "000000F9 65736473 00000000 03 80808168 0000 00",
            "04 8080815A 40 15 000000 00000000 00000000 05 80808148 1190",
        ],
    )?;
    wanted.append(&[0; 198])?;
    wanted.append(&[6, 0x80, 0x80, 0x80, 1, 2])?;
    holds(track.entry.as_slice() == wanted.as_slice())?;
    Ok(())
}

/// Configurations that are refused.
const REFUSED: [(Kind, &str, SetupFault); 7] = [
    (Kind::Aac, "11", SetupFault::Aac(AscFault::Truncated)),
    (Kind::Aac, "1690", SetupFault::Aac(AscFault::Index(13))),
    (
        Kind::Avc,
        "6742001EF0",
        SetupFault::Avc(ConfigFault::Nal(NalFault::NoStart)),
    ),
    (
        Kind::Avc,
        "00000001 68CE3880",
        SetupFault::Avc(ConfigFault::NoSps),
    ),
    (
        Kind::Avc,
        "00000001 6742001EF0",
        SetupFault::Avc(ConfigFault::NoPps),
    ),
    (
        Kind::Avc,
        "00000001 6742 00000001 68CE3880",
        SetupFault::Avc(ConfigFault::Sps(SpsFault::Truncated { bit: 8 })),
    ),
    (
        Kind::Avc,
        "00000001 6743001EF0 00000001 68CE3880",
        SetupFault::Avc(ConfigFault::Profile(67)),
    ),
];

// Whether a setup is refused so.
fn fails(alloc: Global, kind: Kind, config: &str, fault: SetupFault) -> bool {
    let Ok(config) = hex(alloc, &[config]) else {
        return false;
    };
    match made(alloc, kind, 0, 0, config) {
        Ok(_) => false,
        Err(found) => found == fault,
    }
}

#[test]
fn a_refused_configuration_makes_no_entry(rt: HostRuntime) -> Result<(), Fail> {
    let alloc = rt.alloc();
    for (kind, config, fault) in &REFUSED {
        holds(fails(alloc, *kind, config, *fault))?;
    }
    Ok(())
}
