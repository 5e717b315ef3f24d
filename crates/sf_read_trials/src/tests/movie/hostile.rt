//! Movies that say more than they hold.

use super::*;
use sf_box::{BoxFault, FourCc};
use sf_entry::EntryFault;
use sf_meaning::{HeadFault, TableFault};

/// The most of four bytes.
const MOST: &[u8] = b"\xff\xff\xff\xff";

/// That a table of a type ends too early.
fn short(kind: &[u8; 4], at: u64) -> Option<LoadFault> {
    let kind = FourCc(*kind);
    refused(MovieFault::Table(TableFault::Short { kind, at }))
}

// The boxes and their counts stand at the places that the file's comment tells.
#[test]
fn counts_of_the_most_are_refused_at_their_box(rt: HostRuntime) {
    let alloc = rt.alloc();
    let sizes = TableFault::TooMany {
        at: 548,
        count: 4_294_967_295,
    };
    let entries = EntryFault::Short { at: 429 };
    assert_eq!(rt; fault_with(alloc, 536, MOST), short(b"stts", 524));
    assert_eq!(rt; fault_with(alloc, 580, MOST), short(b"stsc", 568));
    assert_eq!(rt; fault_with(alloc, 608, MOST), short(b"stco", 596));
    assert_eq!(rt;
        fault_with(alloc, 433, MOST),
        refused(MovieFault::Entry(entries))
    );
    assert_eq!(rt;
        fault_with(alloc, 564, MOST),
        refused(MovieFault::Table(sizes))
    );
}

/// What is told of the track of the file of three samples with other bytes at a place.
fn track_with(alloc: Global, at: usize, bytes: &[u8]) -> Option<TrackTold> {
    let mut source = patched(alloc, at, bytes).ok()?;
    let movie = Movie::load(alloc, &mut source).ok()?;
    track_at(&movie, 0)
}

// What runs and chunks state past the last sample isn't looked at.
#[test]
fn runs_of_the_most_samples_are_loaded(rt: HostRuntime) {
    let track = Some((TrackKind::Aac, 48_000, 3, 0));
    assert_eq!(rt; track_with(rt.alloc(), 540, MOST), track);
    assert_eq!(rt; track_with(rt.alloc(), 588, MOST), track);
}

/// That a box has the most bytes.
fn overrun(at: u64) -> Option<LoadFault> {
    let size = u64::MAX;
    refused(MovieFault::Tiling(BoxFault::Overrun { at, size }))
}

#[test]
fn boxes_of_the_most_bytes_are_refused(rt: HostRuntime) {
    let alloc = rt.alloc();
    let mdat = b"\0\0\0\x01mdat\xff\xff\xff\xff\xff\xff\xff\xff";
    let moov = b"\0\0\0\x01moov\xff\xff\xff\xff\xff\xff\xff\xff";
    let mvhd = b"\0\0\0\x01mvhd\xff\xff\xff\xff\xff\xff\xff\xff";
    assert_eq!(rt; fault_with(alloc, 24, mdat), overrun(24));
    assert_eq!(rt; fault_with(alloc, 52, moov), overrun(52));
    assert_eq!(rt; fault_with(alloc, 60, mvhd), overrun(60));
}

/// Movie boxes in one another, 300 deep.
fn nested(alloc: Global) -> Result<Bytes, AllocError> {
    let mut file = Bytes::new(alloc);
    for depth in 0..300u32 {
        file.append(&(2400 - 8 * depth).to_be_bytes())?;
        file.append(b"moov")?;
    }
    Ok(file)
}

// The first of them holds no header.
#[test]
fn boxes_in_boxes_are_not_followed(rt: HostRuntime) -> Result<(), Fail> {
    let missing = HeadFault::Missing {
        kind: FourCc(*b"mvhd"),
        at: 8,
    };
    let file = nested(rt.alloc())?;
    let mut source = source_of(rt.alloc(), file.as_slice(), &[])?;
    let found = Movie::load(rt.alloc(), &mut source).err();
    assert_eq!(rt; found, refused(MovieFault::Head(missing)));
    Ok(())
}

// Each of the 64 tracks has 2^24 samples of one byte in one chunk at 40. The media data's box has 16 bytes and 2^24.
#[test]
fn tracks_that_share_their_bytes_are_loaded(rt: HostRuntime) -> Result<(), Fail> {
    let tables = b"\
        \0\0\0\x18stts\0\0\0\0\0\0\0\x01\x01\0\0\0\0\0\0\x01\
        \0\0\0\x14stsz\0\0\0\0\0\0\0\x01\x01\0\0\0\
        \0\0\0\x1cstsc\0\0\0\0\0\0\0\x01\0\0\0\x01\x01\0\0\0\0\0\0\x01\
        \0\0\0\x14stco\0\0\0\0\0\0\0\x01\0\0\0\x28";
    let front: [&[u8]; 2] = [&SOUND[..24], b"\0\0\0\x01mdat\0\0\0\0\x01\0\0\x10"];
    // 16777215 ticks at 48000 Hz are 349525312 microseconds and a half.
    let last = (63, 16_777_215, sync(16_777_215, 16_777_255, 1), 349_525_312);
    let moov = moov_of(rt.alloc(), tables, 64)?;
    let mut source = hole_source(rt.alloc(), &front, 24 + 16_777_232, moov.as_slice())?;
    let movie = loaded(rt.alloc(), &mut source)?;
    assert!(rt; has_tracks(&movie, &[(TrackKind::Aac, 48_000, 16_777_216, 0); 64]));
    assert!(rt; has_samples(&movie, &[last]));
    Ok(())
}

/// The tables of three samples of four bytes in a chunk at 40. Before the run of the samples stand 20000 runs of
/// none, and before their chunk 2000 chunks of none.
fn with_empty_runs(alloc: Global) -> Result<Bytes, AllocError> {
    let runs = repeated(alloc, b"\0\0\0\0\xff\xff\xff\xff", 20_000)?;
    let chunks = repeated(alloc, MOST, 2000)?;
    joined(
        alloc,
        &[
            b"\0\x02\x71\x18stts\0\0\0\0\0\0\x4e\x21",
            runs.as_slice(),
            b"\0\0\0\x03\0\0\x04\0",
            b"\0\0\0\x14stsz\0\0\0\0\0\0\0\x04\0\0\0\x03",
            b"\0\0\0\x28stsc\0\0\0\0\0\0\0\x02",
            b"\0\0\0\x01\0\0\0\0\0\0\0\x01\0\0\x07\xd1\0\0\0\x03\0\0\0\x01",
            b"\0\0\x1f\x54stco\0\0\0\0\0\0\x07\xd1",
            chunks.as_slice(),
            b"\0\0\0\x28",
        ],
    )
}

#[test]
fn runs_of_no_samples_are_passed_over(rt: HostRuntime) -> Result<(), Fail> {
    let tables = with_empty_runs(rt.alloc())?;
    let moov = moov_of(rt.alloc(), tables.as_slice(), 1)?;
    let mut source = hole_source(rt.alloc(), &[&SOUND[..52]], 52, moov.as_slice())?;
    let movie = loaded(rt.alloc(), &mut source)?;
    assert!(rt; has_samples(&movie, &[(0, 2, sync(2048, 48, 4), 42_666)]));
    Ok(())
}
