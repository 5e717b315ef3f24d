//! The entries of sample description boxes, and what they are refused for.

use super::*;
use sf_box::put_u32;
use sf_list::holds;
use std::alloc::{AllocError, Global};
use std::test::Fail;

/// 16 zero bytes.
const Z16: &str = "00000000000000000000000000000000";

/// The fields of an entry of video with 320 times 240 pixels as ffmpeg writes them, with the name of the encoder.
const VIDEO: &str =
    "000000000000 0001 00000000000000000000000000000000 0140 00F0 00480000 00480000 00000000 0001 \
    16 4C61766335382E3133342E313030206C696278323634 000000000000000000 0018 FFFF";

/// A configuration box of the High profile with one set of each kind, of 25 and of 6 bytes.
const AVCC: &str = "00000036 61766343 01 64000D FF E1 0019 \
    6764000DACD94141FB0110000003001000000303 20F1429960 01 0006 68EBE3CB22C0 FDF8F800";

/// The fields of an entry of sound at 44100 Hz with two channels.
const SOUND: &str = "000000000000 0001 0000 0000 00000000 0002 0010 0000 0000 AC440000";

/// A descriptor box as ffmpeg writes it: the configuration has a backward compatible extension without SBR.
const ESDS: &str =
    "00000036 65736473 00000000 03 80808025 0002 00 04 80808017 40 15 000000 0001F400 0001F400 \
    05 80808005 121056E500 06 80808001 02";

/// A box of bit rates, which follows in both.
const BTRT: &str = "00000014 62747274 00000000 0001F400 0001F400";

// The body of a sample description box that counts so many entries, from parts in hexadecimal digits.
fn stsd(alloc: Global, count: u32, parts: &[&str]) -> Result<Bytes, AllocError> {
    let mut body = Bytes::from_slice(alloc, &[0, 0, 0, 0])?;
    put_u32(&mut body, count)?;
    body.append(hex(alloc, parts)?.as_slice())?;
    Ok(body)
}

// The entries of a body that begins at place 100.
fn read(alloc: Global, body: &[u8]) -> Result<Entries, EntryFault> {
    if body.len() > 1000 {
        return Err(EntryFault::NoMemory);
    }
    read_stsd(alloc, body, 100)
}

// Whether the entries of these parts are refused so.
fn fails(alloc: Global, count: u32, parts: &[&str], fault: EntryFault) -> bool {
    let Ok(body) = stsd(alloc, count, parts) else {
        return false;
    };
    match read(alloc, body.as_slice()) {
        Ok(_) => false,
        Err(found) => found == fault,
    }
}

// Whether an entry stands at a place with a length and a data reference.
fn stands(entry: &EntryAt, at: u64, len: u64, reference: u16) -> bool {
    entry.at == at && entry.len == len && entry.reference == reference
}

// Whether an entry is sound with this configuration.
fn is_sound(entry: &Entry, config: &[u8]) -> bool {
    match entry {
        Entry::Aac(found) => found.as_slice() == config,
        Entry::Avc(_) | Entry::Other(_) => false,
    }
}

// Whether an entry is video with a length size, and one set of each kind of so many bytes.
fn is_video(entry: &Entry, width: u8, sps: usize, pps: usize) -> bool {
    match entry {
        Entry::Avc(config) => {
            config.width == width
                && matches!(config.sps.as_slice(), [set] if set.len() == sps)
                && matches!(config.pps.as_slice(), [set] if set.len() == pps)
        }
        Entry::Aac(_) | Entry::Other(_) => false,
    }
}

// Whether an entry is of another kind, with this type.
fn is_other(entry: &Entry, kind: [u8; 4]) -> bool {
    match entry {
        Entry::Other(found) => found.0 == kind,
        Entry::Avc(_) | Entry::Aac(_) => false,
    }
}

// Whether these parts are the only entry, of another kind, with this type, length and data reference.
fn only_other(alloc: Global, parts: &[&str], kind: [u8; 4], len: u64, reference: u16) -> bool {
    let Ok(body) = stsd(alloc, 1, parts) else {
        return false;
    };
    let Ok(entries) = read(alloc, body.as_slice()) else {
        return false;
    };
    match entries.as_slice() {
        [entry] => stands(entry, 108, len, reference) && is_other(&entry.entry, kind),
        _ => false,
    }
}

/// An entry of another kind, of 16 bytes.
const TEXT: &str = "00000010 74657874 0000000000000001";

const SHORT: EntryFault = EntryFault::Short { at: 100 };

const FIRST: EntryFault = EntryFault::Short { at: 108 };

const SECOND: EntryFault = EntryFault::Short { at: 124 };

const NONE: EntryFault = EntryFault::NoAvcC { at: 108 };

const BAD: EntryFault = EntryFault::BadAvcC { at: 108 };

/// Boxes that are refused: how many entries they count, the bytes after the count, and the fault.
const REFUSED: [(u32, &[&str], EntryFault); 22] = [
    // The counted boxes aren't all whole.
    (1, &[], SHORT),
    (1, &["00000010 74657874 000000000000 00"], SHORT),
    // A size of 0 doesn't mean up to the end here.
    (1, &["00000000 74657874", Z16], SHORT),
    (1, &["00000007 74657874", Z16], SHORT),
    (2, &[TEXT], SHORT),
    (4294967295, &[TEXT], SHORT),
    // The boxes are all looked at before the first entry is.
    (2, &["00000008 61766331 00000009 74657874"], SHORT),
    // The fields of an entry aren't whole.
    (1, &["0000000F 74657874 00000000000000"], FIRST),
    (1, &["0000000F 6D703461 00000000000000"], FIRST),
    (1, &["00000008 61766331"], FIRST),
    (
        1,
        &[
            "00000055 61766331",
            Z16,
            Z16,
            Z16,
            Z16,
            "00000000000000000000000000",
        ],
        FIRST,
    ),
    // The head has 16 bytes.
    (
        1,
        &["00000001 74657874 0000000000000017 00000000000000"],
        FIRST,
    ),
    (2, &[TEXT, "0000000F 74657874 00000000000000"], SECOND),
    (2, &[TEXT, "00000010 61766331 0000000000000001"], SECOND),
    // Video has no configuration box, or none before the first place that is no whole box.
    (1, &["00000056 61766331", VIDEO], NONE),
    (1, &["0000006A 61766331", VIDEO, BTRT], NONE),
    (
        1,
        &["00000094 61766331", VIDEO, "00000055 66726565", AVCC],
        NONE,
    ),
    // The first entry counts.
    (2, &["00000056 61766331", VIDEO, "00000008 74657874"], NONE),
    // The configuration is of version 0, has no bytes, or has no whole picture set.
    (
        1,
        &["0000005F 61766331", VIDEO, "00000009 61766343 00"],
        BAD,
    ),
    (1, &["0000005E 61766331", VIDEO, "00000008 61766343"], BAD),
    (
        1,
        &[
            "00000068 61766331",
            VIDEO,
            "00000012 61766343 01 42C01E FF E1 0000 01 00",
        ],
        BAD,
    ),
    // The first configuration box counts.
    (
        1,
        &["00000094 61766331", VIDEO, "00000008 61766343", AVCC],
        BAD,
    ),
];

#[test]
fn the_first_fault_names_its_place(rt: HostRuntime) -> Result<(), Fail> {
    let alloc = rt.alloc();
    for (count, parts, fault) in &REFUSED {
        holds(fails(alloc, *count, parts, *fault))?;
    }
    for len in 0..8usize {
        holds(matches!(read(alloc, &[0; 8][..len]), Err(fault) if fault == SHORT))?;
    }
    Ok(())
}

/// The fields and the rest of an entry of QuickTime: 16 bytes of fields more, and the descriptor box within another.
const QUICK: &str = "000000000000 0001 0001 0000 00000000 0002 0010 FFFE 0000 AC440000 \
    00000400 00000000 00000000 00000002 0000003E 77617665";

/// A descriptor box of sound by ISO/IEC 11172-3.
const MP3: &str =
    "00000023 65736473 00000000 03 15 0002 00 04 0D 6B 15 000000 0001F400 0001F400 06 01 02";

/// Entries of another kind: their bytes, the type, the length and the data reference.
const OTHERS: [(&[&str], [u8; 4], u64, u16); 9] = [
    (&["00000010 68766331 0000000000000203"], *b"hvc1", 16, 515),
    (
        &["00000001 74657874 0000000000000018 0000000000000001"],
        *b"text",
        24,
        1,
    ),
    // What follows the counted entries isn't read.
    (&[TEXT, "00000008 61766331 00"], *b"text", 16, 1),
    // Sound without whole fields, without a descriptor box, and with a first one of other sound
    (&["00000010 6D703461 0000000000000001"], *b"mp4a", 16, 1),
    (&["00000024 6D703461", SOUND], *b"mp4a", 36, 1),
    (&["00000038 6D703461", SOUND, BTRT], *b"mp4a", 56, 1),
    (&["0000007D 6D703461", SOUND, MP3, ESDS], *b"mp4a", 125, 1),
    // A descriptor box after a place that is no whole box
    (
        &["0000005E 6D703461", SOUND, "00000000", ESDS],
        *b"mp4a",
        94,
        1,
    ),
    (&["00000072 6D703461", QUICK, ESDS], *b"mp4a", 114, 1),
];

#[test]
fn every_other_entry_has_its_type(rt: HostRuntime) -> Result<(), Fail> {
    let alloc = rt.alloc();
    for (parts, kind, len, reference) in &OTHERS {
        holds(only_other(alloc, parts, *kind, *len, *reference))?;
    }
    Ok(())
}

// Whether the only entry of these parts is video or sound of this length, as ffmpeg writes it.
fn only(alloc: Global, parts: &[&str], len: u64) -> bool {
    let Ok(body) = stsd(alloc, 1, parts) else {
        return false;
    };
    let Ok(entries) = read(alloc, body.as_slice()) else {
        return false;
    };
    match entries.as_slice() {
        [entry] => {
            stands(entry, 108, len, 1)
                && (is_video(&entry.entry, 4, 25, 6) || is_sound(&entry.entry, &EXTENDED))
        }
        _ => false,
    }
}

/// The configuration in `ESDS`.
const EXTENDED: [u8; 5] = [0x12, 0x10, 0x56, 0xE5, 0x00];

#[test]
fn entries_of_ffmpeg_are_read(rt: HostRuntime) -> Result<(), Fail> {
    let alloc = rt.alloc();
    let pasp = "00000010 70617370 00000001 00000001";
    holds(only(alloc, &["000000B0 61766331", VIDEO, AVCC, pasp, BTRT], 176))?;
    holds(only(alloc, &["0000006E 6D703461", SOUND, ESDS, BTRT], 110))?;
    Ok(())
}

/// An entry of sound with the data reference 258, the descriptor box second, and lengths in one byte.
const MP4A: [&str; 4] = [
    "00000062 6D703461",
    "000000000000 0102 0000 0000 00000000 0002 0010 0000 0000 AC440000",
    BTRT,
    "0000002A 65736473 00000000 03 1C 0002 00 04 14 40 15 000000 0001F400 0001F400 05 05 121056E500 06 01 02",
];

// Whether two entries, sound and video, stand at their places.
fn are_both(entries: &[EntryAt]) -> bool {
    match entries {
        [first, second] => {
            stands(first, 108, 98, 258)
                && is_sound(&first.entry, &EXTENDED)
                && stands(second, 206, 140, 1)
                && is_video(&second.entry, 4, 25, 6)
        }
        _ => false,
    }
}

#[test]
fn two_entries_have_their_places_and_references(rt: HostRuntime) -> Result<(), Fail> {
    let alloc = rt.alloc();
    let [head, fields, btrt, esds] = MP4A;
    let parts = [head, fields, btrt, esds, "0000008C 61766331", VIDEO, AVCC];
    let body = stsd(alloc, 2, &parts)?;
    let entries = read(alloc, body.as_slice())?;
    holds(are_both(entries.as_slice()))?;
    let none = read(alloc, &[0; 8])?;
    holds(none.is_empty())?;
    Ok(())
}
