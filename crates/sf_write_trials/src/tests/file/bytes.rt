//! The bytes of whole files.

use super::*;

/// A file of one chunk of three samples, which begins at 40. It lasts 3072 ticks (0xC00), which are
/// 64000 microseconds (0xFA00).
const ONE_CHUNK: [u8; 640] = *b"\0\0\0\x18ftypmp42\0\0\0\0isommp42\
    \0\0\0\x01mdat\0\0\0\0\0\0\0\x1C\
    \x21\x10\x04\x60\x21\x10\x04\x60\x21\x10\x04\x60\
    \0\0\x02\x4Cmoov\
    \0\0\0\x6Cmvhd\0\0\0\0\0\0\0\0\0\0\0\0\0\x0F\x42\x40\0\0\xFA\0\
    \0\x01\0\0\x01\0\0\0\0\0\0\0\0\0\0\0\
    \0\x01\0\0\0\0\0\0\0\0\0\0\0\0\0\0\0\x01\0\0\0\0\0\0\0\0\0\0\0\0\0\0\x40\0\0\0\
    \0\0\0\0\0\0\0\0\0\0\0\0\0\0\0\0\0\0\0\0\0\0\0\0\0\0\0\x02\
    \0\0\x01\xC0trak\
    \0\0\0\x5Ctkhd\0\0\0\x07\0\0\0\0\0\0\0\0\0\0\0\x01\0\0\0\0\0\0\xFA\0\
    \0\0\0\0\0\0\0\0\0\0\0\0\x01\0\0\0\
    \0\x01\0\0\0\0\0\0\0\0\0\0\0\0\0\0\0\x01\0\0\0\0\0\0\0\0\0\0\0\0\0\0\x40\0\0\0\
    \0\0\0\0\0\0\0\0\
    \0\0\x01\x5Cmdia\
    \0\0\0\x20mdhd\0\0\0\0\0\0\0\0\0\0\0\0\0\0\xBB\x80\0\0\x0C\0\x55\xC4\0\0\
    \0\0\0\x2Dhdlr\0\0\0\0\0\0\0\0soun\0\0\0\0\0\0\0\0\0\0\0\0SoundSamples\0\
    \0\0\x01\x07minf\
    \0\0\0\x10smhd\0\0\0\0\0\0\0\0\
    \0\0\0\x24dinf\0\0\0\x1Cdref\0\0\0\0\0\0\0\x01\0\0\0\x0Curl \0\0\0\x01\
    \0\0\0\xCBstbl\
    \0\0\0\x67stsd\0\0\0\0\0\0\0\x01\
    \0\0\0\x57mp4a\0\0\0\0\0\0\0\x01\0\0\0\0\0\0\0\0\
    \0\x02\0\x10\0\0\0\0\xBB\x80\0\0\
    \0\0\0\x33esds\0\0\0\0\x03\x80\x80\x80\x22\0\0\0\
    \x04\x80\x80\x80\x14\x40\x15\0\0\0\0\0\0\0\0\0\0\0\
    \x05\x80\x80\x80\x02\x11\x90\x06\x80\x80\x80\x01\x02\
    \0\0\0\x18stts\0\0\0\0\0\0\0\x01\0\0\0\x03\0\0\x04\0\
    \0\0\0\x14stsz\0\0\0\0\0\0\0\x04\0\0\0\x03\
    \0\0\0\x1Cstsc\0\0\0\0\0\0\0\x01\0\0\0\x01\0\0\0\x03\0\0\0\x01\
    \0\0\0\x14stco\0\0\0\0\0\0\0\x01\0\0\0\x28\
    \0\0\0\x18udta\0\0\0\x10sfts\0\0\0\0\0\0\0\0";

/// What a file of chunks of one track of sound holds, at 48000 ticks a second.
fn of_sound(alloc: Global, chunks: &[Written<'_>]) -> Result<Bytes, Stop> {
    written(alloc, &[sound(alloc, 48_000)?], chunks)
}

#[test]
fn a_file_of_one_chunk_has_these_bytes(rt: HostRuntime) -> Result<(), Fail> {
    let bytes = of_sound(rt.alloc(), &[(0, &THREE)])?;
    assert_eq!(rt; bytes.as_slice(), ONE_CHUNK.as_slice());
    Ok(())
}

// Without samples 8 bytes of stts are missing, 12 of stsc and 4 of stco.
#[test]
fn an_empty_file_has_a_movie_box_of_564_bytes(rt: HostRuntime) -> Result<(), Fail> {
    let bytes = of_sound(rt.alloc(), &[])?;
    assert_eq!(rt; bytes.len(), 604);
    assert!(rt;
        stand_at(
            bytes.as_slice(),
            24,
            b"\0\0\0\x01mdat\0\0\0\0\0\0\0\x10\0\0\x02\x34moov"
        )
    );
    // Neither the movie nor its track lasts, and the file starts at 0.
    assert!(rt; stand_at(bytes.as_slice(), 68, b"\0\x0F\x42\x40\0\0\0\0\0\x01"));
    assert!(rt; stand_at(bytes.as_slice(), 588, b"\0\0\0\x10sfts\0\0\0\0\0\0\0\0"));
    Ok(())
}

// The second chunk stands after the 12 bytes of the first one, and 20 bytes of samples are in front
// of the movie box. The fewest runs of stsc are two, and the last delta is the one before it.
#[test]
fn each_chunk_stands_after_the_one_before_it(rt: HostRuntime) -> Result<(), Fail> {
    let later = [(64_000, 3072), (85_333, 4096)];
    let bytes = of_sound(rt.alloc(), &[(0, &THREE), (0, &later)])?;
    // stsc has another 12 bytes, stco another 4.
    assert_eq!(rt; bytes.len(), 640 + 8 + 12 + 4);
    assert!(rt; stand_at(bytes.as_slice(), 32, b"\0\0\0\0\0\0\0\x24"));
    assert!(rt; stand_at(bytes.as_slice(), 52, &SAMPLE));
    assert!(rt; stand_at(bytes.as_slice(), 60, b"\0\0\x02\x5Cmoov"));
    let places = b"\0\0\0\x18stco\0\0\0\0\0\0\0\x02\0\0\0\x28\0\0\0\x34\0\0\0\x18udta";
    assert!(rt; stand_at(bytes.as_slice(), 616, places));
    Ok(())
}

// 1000000 is 0xF4240.
#[test]
fn a_file_starts_with_its_first_sample(rt: HostRuntime) -> Result<(), Fail> {
    let bytes = of_sound(
        rt.alloc(),
        &[(0, &[(1_000_000, 48_000), (1_021_333, 49_024)])],
    )?;
    assert_eq!(rt; bytes.len(), 636);
    assert!(rt;
        stand_at(
            bytes.as_slice(),
            620,
            b"\0\0\0\x10sfts\0\0\0\0\0\x0F\x42\x40"
        )
    );
    // It lasts 2048 ticks, which are 42666 microseconds.
    assert!(rt; stand_at(bytes.as_slice(), 76, b"\0\x0F\x42\x40\0\0\xA6\xAA"));
    Ok(())
}

/// The bytes of a file whose movie box begins at 52, where a sample stands at 0, the others at these
/// microseconds, of which each is a tick.
fn in_microseconds(alloc: Global, second: u64, third: u64) -> Result<Bytes, Stop> {
    let times = [(0, 0), (second, second), (third, third)];
    written(alloc, &[sound(alloc, 1_000_000)?], &[(0, &times)])
}

// The last delta is the one before it, and there are two deltas. So a file with samples at 0, 1 and
// 2^31 lasts 2^32 - 1 microseconds, and one with samples at 0, 2 and 2^31 one microsecond less.
#[test]
fn a_long_file_has_headers_of_version_1(rt: HostRuntime) -> Result<(), Fail> {
    let longest = in_microseconds(rt.alloc(), 2, 1 << 31)?;
    assert_eq!(rt; longest.len(), 40 + 12 + 596);
    assert!(rt; stand_at(longest.as_slice(), 60, b"\0\0\0\x6Cmvhd\0"));
    assert!(rt;
        stand_at(
            longest.as_slice(),
            80,
            b"\0\x0F\x42\x40\xFF\xFF\xFF\xFE\0\x01"
        )
    );
    assert!(rt; stand_at(longest.as_slice(), 176, b"\0\0\0\x5Ctkhd\0"));
    assert!(rt; stand_at(longest.as_slice(), 276, b"\0\0\0\x20mdhd\0"));
    let longer = in_microseconds(rt.alloc(), 1, 1 << 31)?;
    assert_eq!(rt; longer.len(), 40 + 12 + 596 + 36);
    assert!(rt; stand_at(longer.as_slice(), 60, b"\0\0\0\x78mvhd\x01"));
    assert!(rt;
        stand_at(
            longer.as_slice(),
            88,
            b"\0\x0F\x42\x40\0\0\0\0\xFF\xFF\xFF\xFF\0\x01"
        )
    );
    assert!(rt; stand_at(longer.as_slice(), 188, b"\0\0\0\x68tkhd\x01"));
    assert!(rt; stand_at(longer.as_slice(), 300, b"\0\0\0\x2Cmdhd\x01"));
    Ok(())
}

// 2^32 microseconds are 206158430 ticks at 48000 ticks a second, so the media header stays short.
#[test]
fn each_header_is_long_by_its_own_ticks(rt: HostRuntime) -> Result<(), Fail> {
    let bytes = of_sound(rt.alloc(), &[(0, &[(0, 0), (1 << 32, 206_158_430)])])?;
    assert_eq!(rt; bytes.len(), 40 + 8 + 588 + 24);
    assert!(rt; stand_at(bytes.as_slice(), 56, b"\0\0\0\x78mvhd\x01"));
    assert!(rt; stand_at(bytes.as_slice(), 184, b"\0\0\0\x68tkhd\x01"));
    assert!(rt; stand_at(bytes.as_slice(), 296, b"\0\0\0\x20mdhd\0"));
    Ok(())
}
