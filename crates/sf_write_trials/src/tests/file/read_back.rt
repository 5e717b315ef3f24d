//! Closed files are read by the plain program for movies.

use super::*;
use sf_meaning::{PlainSample, TrackKind, plain_file};

/// A sample that is written: when it is decoded, in microseconds and in ticks, when it is shown, in ticks,
/// whether it is sync, and its bytes.
type Given<'a> = (u64, u64, u64, bool, &'a [u8]);

/// A chunk of such samples.
fn given_chunk(alloc: Global, given: &[Given<'_>]) -> Result<Chunk, AllocError> {
    let mut samples = Samples::new(alloc);
    for (dts_us, decode, compose, sync, bytes) in given {
        samples.push(Stored {
            dts_us: *dts_us,
            decode: *decode,
            compose: *compose,
            sync: *sync,
            bytes: Bytes::from_slice(alloc, bytes)?,
        })?;
    }
    Ok(chunk_of(0, samples))
}

/// What a file of chunks of such samples holds once it is closed, at 48000 ticks a second.
fn closed(alloc: Global, chunks: &[&[Given<'_>]]) -> Result<Bytes, Stop> {
    let mut shelf = MemShelf::new(alloc, Vec::new(alloc));
    let mut file = begun(alloc, &mut shelf, &[sound(alloc, 48_000)?])?;
    for given in chunks {
        append(&mut file, &given_chunk(alloc, given)?)?;
    }
    match file.close() {
        Ok(sink) => shelf.keep(sink),
        Err((_, fault)) => return Err(Stop::Fault(fault)),
    }
    match shelf.file(0) {
        Some(bytes) => Ok(Bytes::from_slice(alloc, bytes)?),
        None => Err(Stop::Unfit),
    }
}

/// A sample that is read: when it is decoded and shown, in ticks after the file's start, whether it is sync,
/// its place and its size.
fn read(decode: u64, compose: i64, sync: bool, place: u64, size: u32) -> PlainSample {
    PlainSample {
        decode,
        compose,
        sync,
        place,
        size,
        description: 1,
    }
}

// The first sample is decoded after one second, at tick 48000, and is shown 2048 ticks later. The third
// one is shown 1024 ticks before it is decoded, the last one a tick before. The chunks have 8, 7 and 7
// bytes and begin at 40, 48 and 55.
#[test]
fn the_samples_of_a_closed_file_are_read_back(rt: HostRuntime) -> Result<(), Fail> {
    let first: [Given<'_>; 3] = [
        (1_000_000, 48_000, 50_048, true, b"IIIII"),
        (1_021_333, 49_024, 52_096, false, b"pp"),
        (1_042_667, 50_048, 49_024, false, b"b"),
    ];
    let second: [Given<'_>; 2] = [
        (1_064_000, 51_072, 51_072, true, b"JJJJ"),
        (1_080_000, 51_840, 52_608, false, b"qqq"),
    ];
    let third: [Given<'_>; 2] = [
        (2_000_000, 96_000, 96_000, false, b"\xFF"),
        (2_000_000, 96_000, 95_999, true, b"last!!"),
    ];
    let wanted = [
        read(0, 2048, true, 40, 5),
        read(1024, 4096, false, 45, 2),
        read(2048, 1024, false, 47, 1),
        read(3072, 3072, true, 48, 4),
        read(3840, 4608, false, 52, 3),
        read(48_000, 48_000, false, 55, 1),
        read(48_000, 47_999, true, 56, 6),
    ];
    let file = closed(rt.alloc(), &[&first, &second, &third])?;
    let movie = match plain_file(rt.alloc(), file.as_slice()) {
        Ok(movie) => movie,
        Err(fault) => {
            assert!(rt; false, "{fault:?}");
            return Ok(());
        }
    };
    assert_eq!(rt; (movie.scale, movie.start_us), (1_000_000, 1_000_000));
    let [track] = movie.tracks.as_slice() else {
        assert!(rt; false, "one track");
        return Ok(());
    };
    assert_eq!(rt;
        (track.kind, track.scale, track.lead, track.media_time),
        (TrackKind::Aac, 48_000, 0, 0)
    );
    assert_eq!(rt; track.samples.as_slice(), wanted.as_slice());
    assert!(rt; stand_at(file.as_slice(), 40, b"IIIIIppbJJJJqqq\xFFlast!!"));
    Ok(())
}
