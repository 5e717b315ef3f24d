//! The headers of movie boxes, as they are read.

use super::*;
use sf_box::{BoxFault, FourCc};
use sf_list::same;

/// A sample table box with one empty box inside.
const TABLE: &[u8] = b"\0\0\0\x10stbl\0\0\0\x08free";

const SOUND_WITH_TABLE: TrackHead = TrackHead {
    kind: Kind::Aac,
    scale: 48_000,
    width: 0,
    height: 0,
    lead_us: 0,
    duration: 3072,
    stbl_len: 16,
};

/// Video that begins half a second after the file.
const LATE_VIDEO: TrackHead = TrackHead {
    kind: Kind::Avc,
    scale: 90_000,
    width: 320,
    height: 240,
    lead_us: 500_000,
    duration: 9000,
    stbl_len: 16,
};

/// The body of the movie box of these two tracks, in a file that starts after two seconds.
fn two_tracks(alloc: Global) -> Result<Option<Bytes>, AllocError> {
    let stbls = vec![in alloc;
        Bytes::from_slice(alloc, TABLE)?,
        Bytes::from_slice(alloc, TABLE)?,
    ]?;
    let heads = [SOUND_WITH_TABLE, LATE_VIDEO];
    let Some(moov) = encoded(alloc, &heads, 2_000_000, &stbls)? else {
        return Ok(None);
    };
    // Two bytes stand in front of the box, and its head has eight.
    if moov.len() < 10 {
        return Ok(None);
    }
    let (_, body) = moov.as_slice().split_at(10);
    Ok(Some(Bytes::from_slice(alloc, body)?))
}

/// The headers of the body of a movie box that begins at 60.
fn read(alloc: Global, moov: &[u8]) -> Result<Headers, HeadFault> {
    if moov.len() > 1_000_000 {
        return Err(HeadFault::NoMemory);
    }
    read_headers(alloc, moov, 60)
}

/// The numbers of a track's head, in the order of its fields.
fn numbers(head: &TrakHead) -> [u64; 6] {
    [
        head.at,
        u64::from(head.scale),
        head.lead,
        head.media_time,
        head.stbl_at,
        head.stbl_len,
    ]
}

#[test]
fn the_headers_of_two_tracks_are_told(rt: HostRuntime) -> Result<(), Fail> {
    let moov = two_tracks(rt.alloc())?.ok_or("not written")?;
    let headers = read(rt.alloc(), moov.as_slice()).ok().ok_or("refused")?;
    same(headers.scale, 1_000_000)?;
    same(headers.start_us, 2_000_000)?;
    same(headers.fault, None)?;
    same(headers.traks.len(), 2)?;
    // The track of sound has 261 bytes: its sample table box stands 245 bytes after its head.
    let wanted = [
        [168, 48_000, 0, 0, 421, 8],
        [429, 90_000, 500_000, 0, 750, 8],
    ];
    for (head, wanted) in headers.traks.as_slice().iter().zip(wanted) {
        same(numbers(head), wanted)?;
        same(head.self_held.as_slice(), [true].as_slice())?;
    }
    Ok(())
}

#[test]
fn the_first_fault_inside_a_track_stands_beside_the_tracks_before_it(
    rt: HostRuntime,
) -> Result<(), Fail> {
    let mut moov = two_tracks(rt.alloc())?.ok_or("not written")?;
    let end = moov.len() as u64;
    moov.append(b"\0\0\0\x08trak\0\0\0\x08trak")?;
    let headers = read(rt.alloc(), moov.as_slice()).ok().ok_or("refused")?;
    let missing = HeadFault::Missing {
        kind: FourCc(*b"mdia"),
        at: 790,
    };
    // The tracks end at 758, and the user data at 782.
    same(end, 722)?;
    same(headers.traks.len(), 2)?;
    same(headers.fault, Some(missing))?;
    Ok(())
}

#[test]
fn faults_of_the_movie_header_are_errors(rt: HostRuntime) -> Result<(), Fail> {
    let kind = FourCc(*b"mvhd");
    let cases: [(&[u8], HeadFault); 5] = [
        (b"", HeadFault::Missing { kind, at: 60 }),
        (
            b"\0\0\0\x08free\0\0\0\x17mvhd\0\0\0\0\0\0\0\0\0\0\0\0\0\0\0",
            HeadFault::Short { kind, at: 68 },
        ),
        (
            b"\0\0\0\x18mvhd\0\0\0\0\0\0\0\0\0\0\0\0\0\0\0\0",
            HeadFault::Scale0 { at: 60 },
        ),
        (
            b"\0\0\0\x08free\0\0\0",
            HeadFault::Tiling(BoxFault::Short { at: 68 }),
        ),
        (
            b"\0\0\0\x09free",
            HeadFault::Tiling(BoxFault::Overrun { at: 60, size: 9 }),
        ),
    ];
    for (moov, wanted) in cases {
        same(read(rt.alloc(), moov).err(), Some(wanted))?;
    }
    Ok(())
}
