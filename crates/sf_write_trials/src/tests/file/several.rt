//! Files of several tracks.

use super::*;
use sf_meaning::{PlainMovie, TrackKind, plain_file};

/// What a track of a movie is: its kind, its lead in microseconds, and the places of its samples.
type Shown<'a> = (TrackKind, u64, &'a [u64]);

/// Whether a movie starts at this many microseconds and its tracks are these.
fn is_movie(movie: &PlainMovie, start_us: u64, tracks: &[Shown<'_>]) -> bool {
    let same = movie.tracks.as_slice().iter().zip(tracks).all(|(track, (kind, lead, places))| {
        track.kind == *kind
            && track.lead == *lead
            && track
                .samples
                .as_slice()
                .iter()
                .map(|sample| sample.place)
                .eq(places.iter().copied())
    });
    movie.start_us == start_us && movie.tracks.len() == tracks.len() && same
}

/// Whether the file of these chunks is a movie that starts at this many microseconds with these tracks.
fn reads_as(
    alloc: Global,
    setups: &[TrackSetup],
    chunks: &[Written<'_>],
    start_us: u64,
    tracks: &[Shown<'_>],
) -> Result<bool, Stop> {
    let file = written(alloc, setups, chunks)?;
    match plain_file(alloc, file.as_slice()) {
        Ok(movie) => Ok(is_movie(&movie, start_us, tracks)),
        Err(_) => Ok(false),
    }
}

// The first track begins one second after the file, whose start is that of the second one.
#[test]
fn a_file_starts_with_the_track_that_begins_first(rt: HostRuntime) -> Result<(), Fail> {
    let alloc = rt.alloc();
    let setups = [sound(alloc, 48_000)?, sound(alloc, 48_000)?];
    let late = [(1_000_000, 48_000)];
    let early = [(0, 0)];
    let tracks: [Shown<'_>; 2] = [
        (TrackKind::Aac, 1_000_000, &[40]),
        (TrackKind::Aac, 0, &[44]),
    ];
    assert!(rt; reads_as(alloc, &setups, &[(0, &late), (1, &early)], 0, &tracks)?);
    let mut shelf = MemShelf::new(alloc, Vec::new(alloc));
    let mut file = begun(alloc, &mut shelf, &setups)?;
    append(&mut file, &chunk(alloc, 0, &late)?)?;
    assert_eq!(rt; file.start_us(), 1_000_000);
    append(&mut file, &chunk(alloc, 1, &early)?)?;
    assert_eq!(rt; file.start_us(), 0);
    Ok(())
}

// The movie box of a track of sound without samples has 424 bytes for it, of one with three 448, and
// 140 for the rest.
#[test]
fn a_track_without_samples_has_its_boxes(rt: HostRuntime) -> Result<(), Fail> {
    let alloc = rt.alloc();
    let setups = [sound(alloc, 48_000)?, sound(alloc, 48_000)?];
    let tracks: [Shown<'_>; 2] = [(TrackKind::Aac, 0, &[]), (TrackKind::Aac, 0, &[40, 44, 48])];
    assert!(rt; reads_as(alloc, &setups, &[(1, &THREE)], 0, &tracks)?);
    let file = written(alloc, &setups, &[(1, &THREE)])?;
    assert_eq!(rt; file.len(), 40 + 12 + 140 + 424 + 448);
    Ok(())
}

// Each track lasts 2^32 - 1 microseconds, so each of its headers has 12 bytes more, and so has that of
// the movie. A track of sound with two deltas has 456 bytes and these, one of video 4 for its media
// header and 24 for its entry more.
#[test]
fn long_tracks_are_as_long_as_was_told(rt: HostRuntime) -> Result<(), Fail> {
    let alloc = rt.alloc();
    let setups = [
        video(alloc, 1_000_000)?,
        sound(alloc, 1_000_000)?,
        sound(alloc, 1_000_000)?,
    ];
    let long = [(0, 0), (1, 1), (1 << 31, 1 << 31)];
    let mut shelf = MemShelf::new(alloc, Vec::new(alloc));
    let mut file = begun(alloc, &mut shelf, &setups)?;
    append(&mut file, &chunk(alloc, 0, &long)?)?;
    append(&mut file, &chunk(alloc, 1, &long)?)?;
    let told = append(&mut file, &chunk(alloc, 2, &long)?)?;
    let wanted = Closing {
        bytes: 1696,
        movie_box: 152 + 508 + 480 + 480,
        samples: 3,
    };
    assert_eq!(rt; told, wanted);
    assert_eq!(rt; file.size(), 1696);
    let chunks: [Written<'_>; 3] = [(0, &long), (1, &long), (2, &long)];
    let bytes = written(alloc, &setups, &chunks)?;
    assert_eq!(rt; bytes.len(), 1696);
    assert!(rt; stand_at(bytes.as_slice(), 84, b"\0\0\0\x78mvhd\x01"));
    let tracks: [Shown<'_>; 3] = [
        (TrackKind::Avc, 0, &[40, 44, 48]),
        (TrackKind::Aac, 0, &[52, 56, 60]),
        (TrackKind::Aac, 0, &[64, 68, 72]),
    ];
    assert!(rt; reads_as(alloc, &setups, &chunks, 0, &tracks)?);
    Ok(())
}

// The chunks of two tracks stand in turn, and each track's samples are counted by themselves.
#[test]
fn chunks_of_tracks_stand_in_turn(rt: HostRuntime) -> Result<(), Fail> {
    let alloc = rt.alloc();
    let setups = [sound(alloc, 48_000)?, video(alloc, 90_000)?];
    let later = [(64_000, 3072)];
    let pictures = [(0, 0), (40_000, 3600)];
    let mut shelf = MemShelf::new(alloc, Vec::new(alloc));
    let mut file = begun(alloc, &mut shelf, &setups)?;
    for (track, times, samples) in [
        (0, &THREE[..], 3),
        (1, &pictures[..], 2),
        (0, &later[..], 4),
    ] {
        let told = append(&mut file, &chunk(alloc, track, times)?)?;
        assert_eq!(rt; told.samples, samples);
        assert_eq!(rt; told.bytes, file.size());
    }
    let tracks: [Shown<'_>; 2] = [
        (TrackKind::Aac, 0, &[40, 44, 48, 60]),
        (TrackKind::Avc, 0, &[52, 56]),
    ];
    let chunks: [Written<'_>; 3] = [(0, &THREE), (1, &pictures), (0, &later)];
    assert!(rt; reads_as(alloc, &setups, &chunks, 0, &tracks)?);
    Ok(())
}
