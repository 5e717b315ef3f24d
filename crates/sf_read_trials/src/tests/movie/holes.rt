//! Files that are too long for the memory.

use super::*;

// A file of more than 5 GiB, of which the media data's box has 5368709120 bytes and begins at 24. Its one sample
// stands at 4294967300, which is 1_0000_0004 in hexadecimal, and takes a chunk offset of eight bytes.
#[test]
fn a_sample_after_4_gib_is_found(rt: HostRuntime) -> Result<(), Fail> {
    let tables = b"\
        \0\0\0\x18stts\0\0\0\0\0\0\0\x01\0\0\0\x01\0\0\0\0\
        \0\0\0\x14stsz\0\0\0\0\0\0\0\x04\0\0\0\x01\
        \0\0\0\x1cstsc\0\0\0\0\0\0\0\x01\0\0\0\x01\0\0\0\x01\0\0\0\x01\
        \0\0\0\x18co64\0\0\0\0\0\0\0\x01\0\0\0\x01\0\0\0\x04";
    let front: [&[u8]; 2] = [&SOUND[..24], b"\0\0\0\x01mdat\0\0\0\x01\x40\0\0\0"];
    let moov = moov_of(rt.alloc(), tables, 1)?;
    let mut source = hole_source(rt.alloc(), &front, 24 + 5_368_709_120, moov.as_slice())?;
    let movie = loaded(rt.alloc(), &mut source)?;
    assert!(rt; has_tracks(&movie, &[(TrackKind::Aac, 48_000, 1, 0)]));
    assert!(rt; has_samples(&movie, &[(0, 0, sync(0, 4_294_967_300, 4), 0)]));
    Ok(())
}

// The movie box has one byte more than the most, 2^28.
#[test]
fn a_movie_box_that_is_too_large_is_refused(rt: HostRuntime) -> Result<(), Fail> {
    let size = 268_435_457;
    let front: [&[u8]; 2] = [&SOUND[..52], b"\x10\0\0\x01moov"];
    let mut source = hole_source(rt.alloc(), &front, 52 + size, b"")?;
    let found = Movie::load(rt.alloc(), &mut source).err();
    assert_eq!(rt; found, refused(MovieFault::MoovTooLarge { at: 52, size }));
    Ok(())
}

// The samples have one byte more than the most, 2^26, each, so that the media data's box has 16 and three times that:
// c00_0013 in hexadecimal.
#[test]
fn samples_that_are_too_large_are_refused(rt: HostRuntime) -> Result<(), Fail> {
    let first = MovieFault::SampleTooLarge {
        track: 0,
        sample: 0,
        size: 67_108_865,
    };
    let front: [&[u8]; 2] = [&SOUND[..24], b"\0\0\0\x01mdat\0\0\0\0\x0c\0\0\x13"];
    let back: [&[u8]; 3] = [&SOUND[52..560], b"\x04\0\0\x01", &SOUND[564..]];
    let moov = joined(rt.alloc(), &back)?;
    let mut source = hole_source(rt.alloc(), &front, 24 + 201_326_611, moov.as_slice())?;
    let found = Movie::load(rt.alloc(), &mut source).err();
    assert_eq!(rt; found, refused(first));
    Ok(())
}
