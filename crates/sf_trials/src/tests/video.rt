//! Inputs of video, and of sound with a longer configuration.

use super::*;
use sf_avc::{ConfigFault, NalFault};
use sf_entry::SetupFault;
use sf_list::{holds, same};
use std::test::Fail;

/// The header of an input of video, of 39 bytes: two parameter sets, and neither a timescale nor a width and height.
const VIDEO: [u8; 39] = *b"SFCS\0\x01\0\x01\0\0\0\0\0\0\0\0\0\0\0\0\0\x11\
    \0\0\0\x01\x67\x42\0\x1e\xf0\0\0\0\x01\x68\xce\x38\x80";

/// A sample of an input: when it is decoded and when it is shown, in microseconds, whether it is a sync sample, and
/// its payload.
type Given = (u64, u64, bool, &'static [u8]);

/// An input of video with these samples.
fn video_of(alloc: Global, samples: &[Given]) -> Result<Vec<u8>, AllocError> {
    let mut input = VIDEO.to_vec(alloc)?;
    for (dts_us, pts_us, sync, payload) in samples {
        input.extend_from_slice(&[1, u8::from(*sync)])?;
        input.extend_from_slice(&dts_us.to_be_bytes())?;
        input.extend_from_slice(&pts_us.to_be_bytes())?;
        // The length in four bytes.
        let len = payload.len().to_be_bytes();
        input.extend_from_slice(&len[4..])?;
        input.extend_from_slice(payload)?;
    }
    input.push(0)?;
    Ok(input)
}

/// What is recorded of some samples: their bytes, the tables of the file behind its sample entry, and its list.
struct Row {
    samples: &'static [Given],
    stored: &'static [u8],
    tables: &'static [u8],
    lines: &'static [u8],
}

const ROWS: [Row; 4] = [
    // No samples.
    Row {
        samples: &[],
        stored: b"",
        tables: b"\0\0\0\x10stts\0\0\0\0\0\0\0\0\
            \0\0\0\x14stsz\0\0\0\0\0\0\0\0\0\0\0\0\
            \0\0\0\x10stsc\0\0\0\0\0\0\0\0\
            \0\0\0\x10stco\0\0\0\0\0\0\0\0",
        lines: b"start 0\ntrack 0 avc 90000 0 0 0\n",
    },
    // Two units, after start codes of four and of three bytes.
    Row {
        samples: &[(0, 0, true, b"\0\0\0\x01\x65\x88\0\0\x01\x41\x9a")],
        stored: b"\0\0\0\x02\x65\x88\0\0\0\x02\x41\x9a",
        tables: b"\0\0\0\x18stts\0\0\0\0\0\0\0\x01\0\0\0\x01\0\0\0\0\
            \0\0\0\x14stsz\0\0\0\0\0\0\0\x0c\0\0\0\x01\
            \0\0\0\x1cstsc\0\0\0\0\0\0\0\x01\0\0\0\x01\0\0\0\x01\0\0\0\x01\
            \0\0\0\x14stco\0\0\0\0\0\0\0\x01\0\0\0(",
        lines: b"start 0\ntrack 0 avc 90000 1 1 0\nsample 0 0 0 0 1 12\n",
    },
    // Samples that are shown later than they are decoded: unsigned offsets, 3000, 6000 and 0.
    Row {
        samples: &[
            (0, 33_333, true, b"\0\0\x01\x65\x88"),
            (33_333, 100_000, false, b"\0\0\x01\x41\x9a"),
            (66_667, 66_667, false, b"\0\0\x01\x41\x9b"),
        ],
        stored: b"\0\0\0\x02\x65\x88\0\0\0\x02\x41\x9a\0\0\0\x02\x41\x9b",
        tables: b"\0\0\0\x18stts\0\0\0\0\0\0\0\x01\0\0\0\x03\0\0\x0b\xb8\
            \0\0\0\x28ctts\0\0\0\0\0\0\0\x03\0\0\0\x01\0\0\x0b\xb8\0\0\0\x01\0\0\x17\x70\0\0\0\x01\0\0\0\0\
            \0\0\0\x14stss\0\0\0\0\0\0\0\x01\0\0\0\x01\
            \0\0\0\x14stsz\0\0\0\0\0\0\0\x06\0\0\0\x03\
            \0\0\0\x1cstsc\0\0\0\0\0\0\0\x01\0\0\0\x01\0\0\0\x03\0\0\0\x01\
            \0\0\0\x14stco\0\0\0\0\0\0\0\x01\0\0\0(",
        lines: b"start 0\ntrack 0 avc 90000 3 1 0\n\
            sample 0 0 0 3000 1 6\nsample 0 1 3000 9000 0 6\nsample 0 2 6000 6000 0 6\n",
    },
    // A sample that is shown earlier than it is decoded: signed offsets, 0 and -3000. Each sync sample begins a chunk.
    Row {
        samples: &[
            (0, 0, true, b"\0\0\x01\x65\x88"),
            (33_333, 0, true, b"\0\0\x01\x65\x89"),
        ],
        stored: b"\0\0\0\x02\x65\x88\0\0\0\x02\x65\x89",
        tables: b"\0\0\0\x18stts\0\0\0\0\0\0\0\x01\0\0\0\x02\0\0\x0b\xb8\
            \0\0\0\x20ctts\x01\0\0\0\0\0\0\x02\0\0\0\x01\0\0\0\0\0\0\0\x01\xff\xff\xf4\x48\
            \0\0\0\x14stsz\0\0\0\0\0\0\0\x06\0\0\0\x02\
            \0\0\0\x1cstsc\0\0\0\0\0\0\0\x01\0\0\0\x01\0\0\0\x01\0\0\0\x01\
            \0\0\0\x18stco\0\0\0\0\0\0\0\x02\0\0\0(\0\0\0\x2e",
        lines: b"start 0\ntrack 0 avc 90000 2 2 0\nsample 0 0 0 0 1 6\nsample 0 1 3000 0 1 6\n",
    },
];

/// The sample entry of the video (ISO/IEC 14496-12, 12.1.3; ISO/IEC 14496-15, 5.3.4.1).
const AVC_ENTRY: [u8; 114] = *b"\0\0\0\x72avc1\0\0\0\0\0\0\0\x01\0\0\0\0\0\0\0\0\0\0\0\0\0\0\0\0\
    \0\0\0\0\0\x48\0\0\0\x48\0\0\0\0\0\0\0\x01\0\0\0\0\0\0\0\0\0\0\0\0\0\0\0\0\
    \0\0\0\0\0\0\0\0\0\0\0\0\0\0\0\0\0\x18\xff\xff\
    \0\0\0\x1cavcC\x01\x42\0\x1e\xff\xe1\0\x05\x67\x42\0\x1e\xf0\x01\0\x04\x68\xce\x38\x80";

// The samples' bytes stand from 40 on. Without them the sample entry would begin at 429, and the tables at 543. The last
// 24 bytes are `udta`.
#[test]
fn video_is_recorded_and_listed(rt: HostRuntime) -> Result<(), Fail> {
    let alloc = rt.alloc();
    for row in &ROWS {
        let ended = run_words(alloc, &["record", "a"], &video_of(alloc, row.samples)?)?;
        ended.ends(Status::Done)?;
        let Some(file) = ended.shelf.file(0) else {
            return Err("no file".into());
        };
        let stored = row.stored.len();
        let tables = stored.saturating_add(543);
        let entry = tables.saturating_sub(114);
        holds(file.get(40..stored.saturating_add(40)) == Some(row.stored))?;
        holds(file.get(entry..tables) == Some(AVC_ENTRY.as_slice()))?;
        holds(file.get(tables..file.len().saturating_sub(24)) == Some(row.tables))?;
        let listed = run_words(alloc, &["list", "a"], file)?;
        same(listed.status, Status::Done)?;
        same(listed.text.bytes(), row.lines)?;
    }
    Ok(())
}

#[test]
fn a_payload_without_a_start_code_is_refused(rt: HostRuntime) -> Result<(), Fail> {
    let alloc = rt.alloc();
    let input = video_of(alloc, &[(0, 0, true, b"\x65\x88\x84")])?;
    let ended = run_words(alloc, &["record", "a"], &input)?;
    let fault = TrackFault {
        why: InputFault::Sample(SampleFault::Nal(NalFault::NoStart)),
        place: 39,
    };
    ended.ends(Status::InputRefused { track: 0, fault })?;
    // The file of no samples.
    same(only_size(&ended.shelf), Some(635))?;
    same(
        ended.text.bytes(),
        b"input refused: track 0 at 39\n".as_slice(),
    )?;
    Ok(())
}

#[test]
fn a_profile_of_which_no_entry_is_made_is_refused(rt: HostRuntime) -> Result<(), Fail> {
    let alloc = rt.alloc();
    let mut input = video_of(alloc, &[])?;
    if let Some(profile) = input.get_mut(27) {
        *profile = 0xF4;
    }
    let ended = run_words(alloc, &["record", "a"], &input)?;
    let fault = TrackFault {
        why: InputFault::Setup(SetupFault::Avc(ConfigFault::Profile(244))),
        place: 22,
    };
    ended.gives(
        Status::InputRefused { track: 0, fault },
        b"input refused: track 0 at 22\n".as_slice(),
    )?;
    holds(ended.shelf.file(0).is_none())?;
    Ok(())
}

/// A sample entry of sound whose configuration has five bytes (ISO/IEC 14496-14, 5.6).
const AAC_ENTRY: [u8; 90] =
    *b"\0\0\0\x5amp4a\0\0\0\0\0\0\0\x01\0\0\0\0\0\0\0\0\0\x02\0\x10\0\0\0\0\xbb\x80\0\0\
    \0\0\0\x36esds\0\0\0\0\x03\x80\x80\x80\x25\0\0\0\x04\x80\x80\x80\x17@\x15\
    \0\0\0\0\0\0\0\0\0\0\0\x05\x80\x80\x80\x05\x11\x90\x56\xe5\0\x06\x80\x80\x80\x01\x02";

// The number of channels is that of the configuration, where the header has none.
#[test]
fn a_longer_configuration_of_sound_is_kept_whole(rt: HostRuntime) -> Result<(), Fail> {
    let alloc = rt.alloc();
    let mut input = Vec::new(alloc);
    input.extend_from_slice(b"SFCS\0\x01\0\x02\0\0\0\0\0\0\0\0\0\0\0\0\0\x05")?;
    input.extend_from_slice(b"\x11\x90\x56\xe5\0")?;
    input.extend_from_slice(&INPUT[24..])?;
    let ended = run_words(alloc, &["record", "a"], &input)?;
    ended.ends(Status::Done)?;
    let Some(file) = ended.shelf.file(0) else {
        return Err(Fail::from(ended.status));
    };
    same(file.len(), 643)?;
    // Without the samples' 12 bytes the sample entry would begin at 425.
    holds(file.get(437..527) == Some(AAC_ENTRY.as_slice()))?;
    let listed = run_words(alloc, &["list", "a"], file)?;
    same(
        listed.text.bytes(),
        b"start 0\ntrack 0 aac 48000 3 3 0\n\
            sample 0 0 0 0 1 4\nsample 0 1 1024 1024 1 4\nsample 0 2 2048 2048 1 4\n"
            .as_slice(),
    )?;
    Ok(())
}
