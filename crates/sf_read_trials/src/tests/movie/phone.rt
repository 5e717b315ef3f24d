//! A movie as a phone writes it.

use super::*;

/// The type, free space for a movie box that was too long for it, and the head of the media data, whose 104070 bytes
/// begin at 140.
const FRONT: &[u8] = b"\
    \0\0\0\x18ftypisom\0\0\0\0isom3gp4\
    \0\0\0\x6cfree\
    \0\0\0\0\0\0\0\0\0\0\0\0\0\0\0\0\0\0\0\0\0\0\0\0\0\0\0\0\0\0\0\0\0\0\0\0\0\0\0\0\0\0\0\0\0\0\0\0\0\0\
    \0\0\0\0\0\0\0\0\0\0\0\0\0\0\0\0\0\0\0\0\0\0\0\0\0\0\0\0\0\0\0\0\0\0\0\0\0\0\0\0\0\0\0\0\0\0\0\0\0\0\
    \0\x01\x96\x8emdat\
    ";

/// User data, 1000 ticks a second, and two tracks (ISO/IEC 14496-12, 8.3 to 8.7): 900 samples of AVC video of 64 by 48,
/// of 100 bytes each and 3000 ticks apart, of which one in 30 is sync; and 1407 samples of AAC, of 10 bytes each and
/// 1024 ticks apart, which stand from 90140 on.
const MOOV: &[u8] = b"\
    \0\0\x03\xf1moov\
    \0\0\0\x2cmvhd\0\0\0\0\0\0\0\0\0\0\0\0\0\0\x03\xe8\0\0\x75\x40\0\x01\0\0\x01\0\0\0\0\0\0\0\0\0\0\0\
    \0\0\0\x14udta\0\0\0\x0c\xa9xyz+48.\
    \0\0\x02\x26trak\
    \0\0\0\x5ctkhd\0\0\0\0\0\0\0\0\0\0\0\0\0\0\0\0\0\0\0\0\0\0\0\0\0\0\0\0\0\0\0\0\0\0\0\0\0\0\0\0\
    \0\0\0\0\0\0\0\0\0\0\0\0\0\0\0\0\0\0\0\0\0\0\0\0\0\0\0\0\0\0\0\0\0\0\0\0\0\0\0\0\0\0\0\0\
    \0\0\x01\xc2mdia\
    \0\0\0\x20mdhd\0\0\0\0\0\0\0\0\0\0\0\0\0\x01\x5f\x90\0\x29\x32\xe0\0\0\0\0\
    \0\0\x01\x9aminf\
    \0\0\0\x24dinf\
    \0\0\0\x1cdref\0\0\0\0\0\0\0\x01\0\0\0\x0curl \0\0\0\x01\
    \0\0\x01\x6estbl\
    \0\0\0\x82stsd\0\0\0\0\0\0\0\x01\
    \0\0\0\x72avc1\0\0\0\0\0\0\0\x01\0\0\0\0\0\0\0\0\0\0\0\0\0\0\0\0\0\x40\0\x30\
    \0\x48\0\0\0\x48\0\0\0\0\0\0\0\x01\0\0\0\0\0\0\0\0\0\0\0\0\0\0\0\0\0\0\0\0\0\0\0\0\0\0\0\0\0\0\0\0\0\x18\xff\xff\
    \0\0\0\x1cavcC\x01\x42\0\x1e\xff\xe1\0\x05\x67\x42\0\x1e\xf0\x01\0\x04\x68\xce\x38\x80\
    \0\0\0\x18stts\0\0\0\0\0\0\0\x01\0\0\x03\x84\0\0\x0b\xb8\
    \0\0\0\x88stss\0\0\0\0\0\0\0\x1e\
    \0\0\0\x01\0\0\0\x1f\0\0\0\x3d\0\0\0\x5b\0\0\0\x79\0\0\0\x97\0\0\0\xb5\0\0\0\xd3\0\0\0\xf1\0\0\x01\x0f\
    \0\0\x01\x2d\0\0\x01\x4b\0\0\x01\x69\0\0\x01\x87\0\0\x01\xa5\0\0\x01\xc3\0\0\x01\xe1\0\0\x01\xff\0\0\x02\x1d\0\0\x02\x3b\
    \0\0\x02\x59\0\0\x02\x77\0\0\x02\x95\0\0\x02\xb3\0\0\x02\xd1\0\0\x02\xef\0\0\x03\x0d\0\0\x03\x2b\0\0\x03\x49\0\0\x03\x67\
    \0\0\0\x14stsz\0\0\0\0\0\0\0\x64\0\0\x03\x84\
    \0\0\0\x1cstsc\0\0\0\0\0\0\0\x01\0\0\0\x01\0\0\x03\x84\0\0\0\x01\
    \0\0\0\x14stco\0\0\0\0\0\0\0\x01\0\0\0\x8c\
    \0\0\x01\x83trak\
    \0\0\0\x5ctkhd\0\0\0\0\0\0\0\0\0\0\0\0\0\0\0\0\0\0\0\0\0\0\0\0\0\0\0\0\0\0\0\0\0\0\0\0\0\0\0\0\
    \0\0\0\0\0\0\0\0\0\0\0\0\0\0\0\0\0\0\0\0\0\0\0\0\0\0\0\0\0\0\0\0\0\0\0\0\0\0\0\0\0\0\0\0\
    \0\0\x01\x1fmdia\
    \0\0\0\x20mdhd\0\0\0\0\0\0\0\0\0\0\0\0\0\0\xbb\x80\0\x15\xfc\0\0\0\0\0\
    \0\0\0\xf7minf\
    \0\0\0\x24dinf\
    \0\0\0\x1cdref\0\0\0\0\0\0\0\x01\0\0\0\x0curl \0\0\0\x01\
    \0\0\0\xcbstbl\
    \0\0\0\x67stsd\0\0\0\0\0\0\0\x01\
    \0\0\0\x57mp4a\0\0\0\0\0\0\0\x01\0\0\0\0\0\0\0\0\0\x02\0\x10\0\0\0\0\xbb\x80\0\0\
    \0\0\0\x33esds\0\0\0\0\
    \x03\x80\x80\x80\x22\0\0\0\
    \x04\x80\x80\x80\x14\x40\x15\0\0\0\0\0\0\0\0\0\0\0\
    \x05\x80\x80\x80\x02\x11\x90\x06\x80\x80\x80\x01\x02\
    \0\0\0\x18stts\0\0\0\0\0\0\0\x01\0\0\x05\x7f\0\0\x04\0\
    \0\0\0\x14stsz\0\0\0\0\0\0\0\x0a\0\0\x05\x7f\
    \0\0\0\x1cstsc\0\0\0\0\0\0\0\x01\0\0\0\x01\0\0\x05\x7f\0\0\0\x01\
    \0\0\0\x14stco\0\0\0\0\0\0\0\x01\0\x01\x60\x1c\
    ";

/// A sample that isn't sync, with the first entry, composed when it is decoded.
fn not_sync(decode: u32, place: u64, size: u32) -> PlainSample {
    PlainSample {
        sync: false,
        ..sync(decode, place, size)
    }
}

#[test]
fn a_movie_of_a_phone_is_loaded(rt: HostRuntime) -> Result<(), Fail> {
    let tracks = [
        (TrackKind::Avc, 90_000, 900, 0),
        (TrackKind::Aac, 48_000, 1407, 0),
    ];
    // 3000 ticks are 33333 microseconds and a third; 1024 are 21333 and a third.
    let samples = [
        (0, 0, sync(0, 140, 100), 0),
        (0, 31, not_sync(93_000, 3240, 100), 1_033_333),
        (0, 60, sync(180_000, 6140, 100), 2_000_000),
        (0, 899, not_sync(2_697_000, 90_040, 100), 29_966_666),
        (1, 0, sync(0, 90_140, 10), 0),
        (1, 1406, sync(1_439_744, 104_200, 10), 29_994_666),
    ];
    let mut source = hole_source(rt.alloc(), &[FRONT], 140 + 104_070, MOOV)?;
    let movie = loaded(rt.alloc(), &mut source)?;
    assert!(rt; has_tracks(&movie, &tracks));
    assert!(rt; has_samples(&movie, &samples));
    assert_eq!(rt; widths_at(&movie, 0), Some([None, Some(4), None]));
    Ok(())
}
