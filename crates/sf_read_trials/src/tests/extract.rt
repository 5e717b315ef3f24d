//! Extractors over small movies, and plan words.

use sf_extract::{
    BadSample, Command, Extractor, GiveFault, Mode, Movie, NoTrack, Place, Plan, PlanFault,
    PlanRun, Turn, missing_track, read_plan,
};
use sf_handmade::{SOUND, VIDEO};
use sf_list::Bytes;
use sf_world::MemSource;
use std::alloc::Global;
use std::test::Fail;

mod dumps;
mod seeks;
mod steps;
mod words;

/// A file of four samples of one byte, which are shown 10,000 us apart. The second and the fourth are sync.
const FOUR: [u8; 435] = *b"\
    \0\0\0\x18ftypmp42\0\0\0\0isommp42\
    \0\0\0\x0cmdatabcd\
    \0\0\x01\x8fmoov\
    \0\0\0lmvhd\0\0\0\0\0\0\0\0\0\0\0\0\0\0\x03\xe8\0\0\0\0\0\x01\0\0\x01\0\0\0\0\0\0\0\0\0\0\0\
    \0\x01\0\0\0\0\0\0\0\0\0\0\0\0\0\0\0\x01\0\0\0\0\0\0\0\0\0\0\0\0\0\0@\0\0\0\0\0\0\0\0\0\0\0\
    \0\0\0\0\0\0\0\0\0\0\0\0\0\0\0\0\0\0\0\x02\
    \0\0\x01\x1btrak\
    \0\0\x01\x13mdia\
    \0\0\0 mdhd\0\0\0\0\0\0\0\0\0\0\0\0\0\0\x03\xe8\0\0\0\0U\xc4\0\0\
    \0\0\0\xebminf\
    \0\0\0\xe3stbl\
    \0\0\0gstsd\0\0\0\0\0\0\0\x01\
    \0\0\0Wmp4a\0\0\0\0\0\0\0\x01\0\0\0\0\0\0\0\0\0\x02\0\x10\0\0\0\0\xbb\x80\0\0\0\0\03esds\0\0\
    \0\0\x03\x80\x80\x80\"\0\0\0\x04\x80\x80\x80\x14@\x15\0\0\0\0\0\0\0\0\0\0\0\x05\x80\x80\x80\
    \x02\x11\x90\x06\x80\x80\x80\x01\
    \x02\
    \0\0\0\x18stts\0\0\0\0\0\0\0\x01\0\0\0\x04\0\0\0\x0a\
    \0\0\0\x18stss\0\0\0\0\0\0\0\x02\0\0\0\x02\0\0\0\x04\
    \0\0\0\x14stsz\0\0\0\0\0\0\0\x01\0\0\0\x04\
    \0\0\0\x1cstsc\0\0\0\0\0\0\0\x01\0\0\0\x01\0\0\0\x04\0\0\0\x01\
    \0\0\0\x14stco\0\0\0\0\0\0\0\x01\0\0\0 \
    ";

/// The movie that a file's bytes are.
fn movie_of(alloc: Global, file: &[u8]) -> Result<Movie, Fail> {
    let mut source = MemSource::new(alloc, Bytes::from_slice(alloc, file)?, Vec::new(alloc));
    Ok(Movie::load(alloc, &mut source).ok().ok_or("not loaded")?)
}
