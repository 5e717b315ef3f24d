//! The movie box of a track of video and of two tracks of sound.

use super::*;
use sf_list::{holds, same};

/// Video of 2^32 - 1 microseconds that begins one microsecond after the file: each of its headers has
/// eight bytes for its duration. Its sample table box has 10 bytes.
const VIDEO: TrackHead = TrackHead {
    kind: Kind::Avc,
    scale: 1_000_000,
    width: 640,
    height: 360,
    lead_us: 1,
    duration: 0xFFFF_FFFF,
    stbl_len: 10,
};

/// Sound of one second that begins half a second (0x7A120 microseconds) after the file.
const LATE: TrackHead = TrackHead {
    kind: Kind::Aac,
    scale: 8000,
    width: 0,
    height: 0,
    lead_us: 500_000,
    duration: 8000,
    stbl_len: 9,
};

/// The movie ends with the video, 2^32 microseconds after the file's start, and the next track is 4.
const MOVIE_HEADER: [u8; 130] = *b"ab\0\0\x04\x2Emoov\
    \0\0\0\x78mvhd\x01\0\0\0\0\0\0\0\0\0\0\0\0\0\0\0\0\0\0\0\
    \0\x0F\x42\x40\0\0\0\x01\0\0\0\0\
    \0\x01\0\0\x01\0\0\0\0\0\0\0\0\0\0\0\
    \0\x01\0\0\0\0\0\0\0\0\0\0\0\0\0\0\0\x01\0\0\0\0\0\0\0\0\0\0\0\0\0\0\x40\0\0\0\
    \0\0\0\0\0\0\0\0\0\0\0\0\0\0\0\0\0\0\0\0\0\0\0\0\0\0\0\x04";

const VIDEO_TRACK: [u8; 347] = *b"\0\0\x01\x5Btrak\
    \0\0\0\x68tkhd\x01\0\0\x07\0\0\0\0\0\0\0\0\0\0\0\0\0\0\0\0\
    \0\0\0\x01\0\0\0\0\0\0\0\x01\0\0\0\0\
    \0\0\0\0\0\0\0\0\0\0\0\0\0\0\0\0\
    \0\x01\0\0\0\0\0\0\0\0\0\0\0\0\0\0\0\x01\0\0\0\0\0\0\0\0\0\0\0\0\0\0\x40\0\0\0\
    \x02\x80\0\0\x01\x68\0\0\
    \0\0\0\x40edts\0\0\0\x38elst\x01\0\0\0\0\0\0\x02\
    \0\0\0\0\0\0\0\x01\xFF\xFF\xFF\xFF\xFF\xFF\xFF\xFF\0\x01\0\0\
    \0\0\0\0\xFF\xFF\xFF\xFF\0\0\0\0\0\0\0\0\0\x01\0\0\
    \0\0\0\xABmdia\
    \0\0\0\x2Cmdhd\x01\0\0\0\0\0\0\0\0\0\0\0\0\0\0\0\0\0\0\0\
    \0\x0F\x42\x40\0\0\0\0\xFF\xFF\xFF\xFF\x55\xC4\0\0\
    \0\0\0\x2Dhdlr\0\0\0\0\0\0\0\0vide\0\0\0\0\0\0\0\0\0\0\0\0VideoSamples\0\
    \0\0\0\x4Aminf\
    \0\0\0\x14vmhd\0\0\0\x01\0\0\0\0\0\0\0\0\
    \0\0\0\x24dinf\0\0\0\x1Cdref\0\0\0\0\0\0\0\x01\0\0\0\x0Curl \0\0\0\x01\
    \0\0\0\x0Astblab";

const SOUND_TRACK: [u8; 253] = *b"\0\0\0\xFDtrak\
    \0\0\0\x5Ctkhd\0\0\0\x07\0\0\0\0\0\0\0\0\0\0\0\x02\0\0\0\0\0\0\xFA\0\
    \0\0\0\0\0\0\0\0\0\0\0\0\x01\0\0\0\
    \0\x01\0\0\0\0\0\0\0\0\0\0\0\0\0\0\0\x01\0\0\0\0\0\0\0\0\0\0\0\0\0\0\x40\0\0\0\
    \0\0\0\0\0\0\0\0\
    \0\0\0\x99mdia\
    \0\0\0\x20mdhd\0\0\0\0\0\0\0\0\0\0\0\0\0\0\xBB\x80\0\0\x0C\0\x55\xC4\0\0\
    \0\0\0\x2Dhdlr\0\0\0\0\0\0\0\0soun\0\0\0\0\0\0\0\0\0\0\0\0SoundSamples\0\
    \0\0\0\x44minf\
    \0\0\0\x10smhd\0\0\0\0\0\0\0\0\
    \0\0\0\x24dinf\0\0\0\x1Cdref\0\0\0\0\0\0\0\x01\0\0\0\x0Curl \0\0\0\x01\
    \0\0\0\x08stbl";

/// It ends 1500000 microseconds (0x16E360) after the file's start, and lasts 1000000 (0xF4240).
const LATE_TRACK: [u8; 318] = *b"\0\0\x01\x3Etrak\
    \0\0\0\x5Ctkhd\0\0\0\x07\0\0\0\0\0\0\0\0\0\0\0\x03\0\0\0\0\0\x16\xE3\x60\
    \0\0\0\0\0\0\0\0\0\0\0\0\x01\0\0\0\
    \0\x01\0\0\0\0\0\0\0\0\0\0\0\0\0\0\0\x01\0\0\0\0\0\0\0\0\0\0\0\0\0\0\x40\0\0\0\
    \0\0\0\0\0\0\0\0\
    \0\0\0\x40edts\0\0\0\x38elst\x01\0\0\0\0\0\0\x02\
    \0\0\0\0\0\x07\xA1\x20\xFF\xFF\xFF\xFF\xFF\xFF\xFF\xFF\0\x01\0\0\
    \0\0\0\0\0\x0F\x42\x40\0\0\0\0\0\0\0\0\0\x01\0\0\
    \0\0\0\x9Amdia\
    \0\0\0\x20mdhd\0\0\0\0\0\0\0\0\0\0\0\0\0\0\x1F\x40\0\0\x1F\x40\x55\xC4\0\0\
    \0\0\0\x2Dhdlr\0\0\0\0\0\0\0\0soun\0\0\0\0\0\0\0\0\0\0\0\0SoundSamples\0\
    \0\0\0\x45minf\
    \0\0\0\x10smhd\0\0\0\0\0\0\0\0\
    \0\0\0\x24dinf\0\0\0\x1Cdref\0\0\0\0\0\0\0\x01\0\0\0\x0Curl \0\0\0\x01\
    \0\0\0\x09stblx";

const START: [u8; 24] = *b"\0\0\0\x18udta\0\0\0\x10sfts\0\0\0\0\0\0\0\x07";

#[test]
fn each_track_has_its_headers_its_edits_and_its_tables(rt: HostRuntime) -> Result<(), Fail> {
    let alloc = rt.alloc();
    let sound = TrackHead {
        stbl_len: 8,
        ..SOUND
    };
    let stbls = vec![in alloc;
        Bytes::from_slice(alloc, b"\0\0\0\x0Astblab")?,
        Bytes::from_slice(alloc, b"\0\0\0\x08stbl")?,
        Bytes::from_slice(alloc, b"\0\0\0\x09stblx")?,
    ]?;
    let heads = [VIDEO, sound, LATE];
    same(moov_size(&heads), 1070)?;
    let moov = encoded(alloc, &heads, 7, &stbls)?;
    holds(moov.is_some())?;
    if let Some(moov) = moov {
        let parts: [(usize, &[u8]); 5] = [
            (0, &MOVIE_HEADER),
            (130, &VIDEO_TRACK),
            (477, &SOUND_TRACK),
            (730, &LATE_TRACK),
            (1048, &START),
        ];
        same(moov.len(), 1072)?;
        for (at, wanted) in parts {
            holds(stand_at(moov.as_slice(), at, wanted))?;
        }
    }
    Ok(())
}

#[test]
fn a_movie_box_without_tracks_has_140_bytes(rt: HostRuntime) -> Result<(), Fail> {
    let alloc = rt.alloc();
    same(moov_size(&[]), 140)?;
    let moov = encoded(alloc, &[], 7, &[])?;
    holds(moov.is_some())?;
    if let Some(moov) = moov {
        holds(moov.as_slice().ends_with(&START))?;
    }
    Ok(())
}
