//! Files and series of files, written in memory.

use sf_entry::TrackSetup;
use sf_list::Bytes;
use sf_tick::Kind;
use std::alloc::{AllocError, Global};

mod file;
mod series;

/// The sample entry box of AAC at 48000 Hz with two channels: 87 bytes (ISO/IEC 14496-12, 12.2.3;
/// ISO/IEC 14496-14, 5.6).
const ENTRY: [u8; 87] = *b"\0\0\0\x57mp4a\0\0\0\0\0\0\0\x01\0\0\0\0\0\0\0\0\
    \0\x02\0\x10\0\0\0\0\xBB\x80\0\0\
    \0\0\0\x33esds\0\0\0\0\x03\x80\x80\x80\x22\0\0\0\
    \x04\x80\x80\x80\x14\x40\x15\0\0\0\0\0\0\0\0\0\0\0\
    \x05\x80\x80\x80\x02\x11\x90\x06\x80\x80\x80\x01\x02";

/// The bytes of each sample.
const SAMPLE: [u8; 4] = [0x21, 0x10, 0x04, 0x60];

/// A track of sound at so many ticks a second.
fn sound(alloc: Global, scale: u32) -> Result<TrackSetup, AllocError> {
    Ok(TrackSetup {
        kind: Kind::Aac,
        scale,
        width: 0,
        height: 0,
        entry: Bytes::from_slice(alloc, &ENTRY)?,
    })
}
