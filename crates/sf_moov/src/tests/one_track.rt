//! The movie box of one track of sound.

use super::*;
use sf_list::{holds, same};

/// The sample table box of three samples of four bytes at 40, with the entry of AAC at 48000 Hz.
const TABLES: [u8; 203] = *b"\0\0\0\xCBstbl\
    \0\0\0\x67stsd\0\0\0\0\0\0\0\x01\
    \0\0\0\x57mp4a\0\0\0\0\0\0\0\x01\0\0\0\0\0\0\0\0\
    \0\x02\0\x10\0\0\0\0\xBB\x80\0\0\
    \0\0\0\x33esds\0\0\0\0\x03\x80\x80\x80\x22\0\0\0\
    \x04\x80\x80\x80\x14\x40\x15\0\0\0\0\0\0\0\0\0\0\0\
    \x05\x80\x80\x80\x02\x11\x90\x06\x80\x80\x80\x01\x02\
    \0\0\0\x18stts\0\0\0\0\0\0\0\x01\0\0\0\x03\0\0\x04\0\
    \0\0\0\x14stsz\0\0\0\0\0\0\0\x04\0\0\0\x03\
    \0\0\0\x1Cstsc\0\0\0\0\0\0\0\x01\0\0\0\x01\0\0\0\x03\0\0\0\x01\
    \0\0\0\x14stco\0\0\0\0\0\0\0\x01\0\0\0\x28";

/// What stands in front of the tables. The track lasts 3072 ticks (0xC00), which are 64000
/// microseconds (0xFA00).
const HEADERS: [u8; 363] = *b"ab\0\0\x02\x4Cmoov\
    \0\0\0\x6Cmvhd\0\0\0\0\0\0\0\0\0\0\0\0\0\x0F\x42\x40\0\0\xFA\0\
    \0\x01\0\0\x01\0\0\0\0\0\0\0\0\0\0\0\
    \0\x01\0\0\0\0\0\0\0\0\0\0\0\0\0\0\0\x01\0\0\0\0\0\0\0\0\0\0\0\0\0\0\x40\0\0\0\
    \0\0\0\0\0\0\0\0\0\0\0\0\0\0\0\0\0\0\0\0\0\0\0\0\0\0\0\x02\
    \0\0\x01\xC0trak\
    \0\0\0\x5Ctkhd\0\0\0\x07\0\0\0\0\0\0\0\0\0\0\0\x01\0\0\0\0\0\0\xFA\0\
    \0\0\0\0\0\0\0\0\0\0\0\0\x01\0\0\0\
    \0\x01\0\0\0\0\0\0\0\0\0\0\0\0\0\0\0\x01\0\0\0\0\0\0\0\0\0\0\0\0\0\0\x40\0\0\0\
    \0\0\0\0\0\0\0\0\
    \0\0\x01\x5Cmdia\
    \0\0\0\x20mdhd\0\0\0\0\0\0\0\0\0\0\0\0\0\0\xBB\x80\0\0\x0C\0\x55\xC4\0\0\
    \0\0\0\x2Dhdlr\0\0\0\0\0\0\0\0soun\0\0\0\0\0\0\0\0\0\0\0\0SoundSamples\0\
    \0\0\x01\x07minf\
    \0\0\0\x10smhd\0\0\0\0\0\0\0\0\
    \0\0\0\x24dinf\0\0\0\x1Cdref\0\0\0\0\0\0\0\x01\0\0\0\x0Curl \0\0\0\x01";

/// What stands after the tables.
const START: [u8; 24] = *b"\0\0\0\x18udta\0\0\0\x10sfts\0\0\0\0\0\0\0\0";

#[test]
fn the_movie_box_of_one_track_has_588_bytes(rt: HostRuntime) -> Result<(), Fail> {
    let alloc = rt.alloc();
    let stbls = vec![in alloc; Bytes::from_slice(alloc, &TABLES)?]?;
    let heads = [SOUND];
    same(moov_size(&heads), 588)?;
    same(MoovTotals::new().with(&SOUND).size(), 588)?;
    let moov = encoded(alloc, &heads, 0, &stbls)?;
    holds(moov.is_some())?;
    if let Some(moov) = moov {
        let parts: [(usize, &[u8]); 3] = [(0, &HEADERS), (363, &TABLES), (566, &START)];
        same(moov.len(), 590)?;
        for (at, wanted) in parts {
            holds(stand_at(moov.as_slice(), at, wanted))?;
        }
    }
    Ok(())
}
