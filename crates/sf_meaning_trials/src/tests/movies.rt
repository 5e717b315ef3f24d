//! Movies whose boxes aren't those that are written.

use super::tables::{FIELDS, PLACES, SPREAD, STCO, STSC, STTS, TIMES, read};
use super::*;
use sf_list::same;
use std::test::Fail;

const TRAK: FourCc = FourCc(*b"trak");

/// The body of a movie box with these boxes after its header; the first of them stands at 168.
fn moov_with(alloc: Global, all: &[(FourCc, &[u8], &[u8])]) -> Result<Bytes, AllocError> {
    let mut moov = Bytes::from_slice(alloc, &SOUND[60..168])?;
    let rest = boxes(alloc, all)?;
    moov.append(rest.as_slice())?;
    Ok(moov)
}

#[test]
fn boxes_stand_in_any_order(rt: HostRuntime) -> Result<(), Fail> {
    let alloc = rt.alloc();
    let all: [(FourCc, &[u8], &[u8]); 4] = [
        (FourCc(*b"udta"), b"\0\0\0\x10sfts\0\0\0\0\0\0\0", b"\x09"),
        (TRAK, &SOUND[268..616], b""),
        (FourCc(*b"what"), b"ever", b""),
        (TRAK, &SOUND[268..616], &SOUND[176..268]),
    ];
    let moov = moov_with(alloc, &all)?;
    let movie = plain_movie(alloc, moov.as_slice(), 60, 640)
        .ok()
        .ok_or("refused")?;
    same(movie.start_us, 9)?;
    same(movie.tracks.len(), 2)?;
    for track in movie.tracks.as_slice() {
        same(track.kind, TrackKind::Aac)?;
        same(track.scale, 48000)?;
        same(track.samples.len(), 3)?;
    }
    Ok(())
}

#[test]
fn a_track_begins_by_its_edit_list(rt: HostRuntime) -> Result<(), Fail> {
    let alloc = rt.alloc();
    let two: &[u8] =
        b"\0\0\0\0\0\0\0\x02\0\0\0\xfa\xff\xff\xff\xff\0\0\0\0\0\0\0\x64\0\0\0\x06\0\x01\0\0";
    let elst = boxes(alloc, &[(FourCc(*b"elst"), two, b"")])?;
    let edts = boxes(alloc, &[(FourCc(*b"edts"), elst.as_slice(), b"")])?;
    let moov = moov_with(alloc, &[(TRAK, edts.as_slice(), &SOUND[268..616])])?;
    let movie = plain_movie(alloc, moov.as_slice(), 60, 640)
        .ok()
        .ok_or("refused")?;
    let track = movie.tracks.as_slice().first().ok_or("no track")?;
    same(track.lead, 250)?;
    same(track.media_time, 6)?;
    Ok(())
}

/// What is wrong with a movie box of a compressed box, where there is one, after so many tracks.
fn fault_of(
    alloc: Global,
    tracks: u32,
    compressed: bool,
) -> Result<Option<MovieFault>, AllocError> {
    let mut moov = Bytes::from_slice(alloc, &SOUND[60..168])?;
    for _ in 0..tracks {
        moov.append(b"\0\0\0\x08trak")?;
    }
    if compressed {
        moov.append(b"\0\0\0\x08cmov")?;
    }
    if moov.len() > 10_000 {
        return Err(AllocError);
    }
    Ok(plain_movie(alloc, moov.as_slice(), 60, 640).err())
}

#[test]
fn movie_boxes_are_refused_in_order(rt: HostRuntime) -> Result<(), Fail> {
    let alloc = rt.alloc();
    let compressed = MovieFault::Compressed { at: 60 + 108 + 520 };
    let many = MovieFault::TooManyTracks { at: 60 + 108 + 512 };
    let missing = MovieFault::Head(HeadFault::Missing {
        kind: FourCc(*b"mdia"),
        at: 176,
    });
    same(fault_of(alloc, 65, true)?, Some(compressed))?;
    same(fault_of(alloc, 65, false)?, Some(many))?;
    same(fault_of(alloc, 64, false)?, Some(missing))?;
    same(fault_of(alloc, 0, false)?, None)?;
    Ok(())
}

#[test]
fn sizes_may_have_few_bits(rt: HostRuntime) -> Result<(), Fail> {
    let few: &[u8] = b"\0\0\0\x08\0\0\0\x03\x0a\x14\x1e";
    let tables = [
        (STTS, FIELDS, TIMES),
        (FourCc(*b"stz2"), FIELDS, few),
        (STSC, FIELDS, SPREAD),
        (STCO, FIELDS, PLACES),
    ];
    let movie = read(rt.alloc(), &tables, 230)?.ok().ok_or("refused")?;
    let track = movie.tracks.as_slice().first().ok_or("no track")?;
    same(track.samples.len(), 3)?;
    for (sample, size) in track.samples.as_slice().iter().zip([10, 20, 30]) {
        same(sample.size, size)?;
    }
    Ok(())
}

/// The kind of the file's track, or what is wrong, after a change of four bytes.
fn kind_after(
    alloc: Global,
    at: usize,
    word: &[u8; 4],
) -> Result<Result<TrackKind, MovieFault>, AllocError> {
    let mut file = Bytes::from_slice(alloc, &SOUND)?;
    if at < 637 {
        file.patch(at, word);
    }
    match plain_file(alloc, file.as_slice()) {
        Ok(movie) => match movie.tracks.as_slice() {
            [track, ..] => Ok(Ok(track.kind)),
            [] => Err(AllocError),
        },
        Err(fault) => Ok(Err(fault)),
    }
}

#[test]
fn tracks_have_the_kind_of_their_first_entry(rt: HostRuntime) -> Result<(), Fail> {
    let alloc = rt.alloc();
    let none = MovieFault::Table(TableFault::Description { at: 568, index: 1 });
    let short = MovieFault::Entry(EntryFault::Short { at: 429 });
    let bare = MovieFault::Entry(EntryFault::NoAvcC { at: 437 });
    let cases = [
        (441, *b"mp4a", Ok(TrackKind::Aac)),
        (441, *b"text", Ok(TrackKind::Other)),
        (477, *b"what", Ok(TrackKind::Other)),
        (441, *b"avc1", Err(bare)),
        (433, [0, 0, 0, 0], Err(none)),
        (433, [0, 0, 0, 2], Err(short)),
    ];
    for (at, word, wanted) in cases {
        same((at, kind_after(alloc, at, &word)?), (at, wanted))?;
    }
    Ok(())
}
