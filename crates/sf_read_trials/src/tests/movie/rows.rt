//! Movies with one track, whose tables list its samples in another way (ISO/IEC 14496-12, 8.6 and 8.7).

use super::*;
use sf_box::FourCc;
use sf_meaning::TableFault;

/// Whether a movie of one track with such tables is loaded, and its samples are these.
fn lists(
    alloc: Global,
    tables: &[u8],
    wanted: &[(u32, u64, PlainSample, i64)],
) -> Result<bool, AllocError> {
    let moov = moov_of(alloc, tables, 1)?;
    let mut source = source_of(alloc, moov.as_slice(), &[])?;
    match Movie::load(alloc, &mut source) {
        Ok(movie) => Ok(
            has_tracks(&movie, &[(TrackKind::Aac, 48_000, wanted.len() as u64, 0)])
                && has_samples(&movie, wanted),
        ),
        Err(_) => Ok(false),
    }
}

/// Why such a movie isn't loaded.
fn fault_of(alloc: Global, tables: &[u8]) -> Result<Option<LoadFault>, AllocError> {
    let moov = moov_of(alloc, tables, 1)?;
    let mut source = source_of(alloc, moov.as_slice(), &[])?;
    Ok(Movie::load(alloc, &mut source).err())
}

/// Samples of 10, 20 and 30 bytes: two in the chunk at 100, and one in that at 200.
const TWO_CHUNKS: &[u8] = b"\
    \0\0\0\x18stts\0\0\0\0\0\0\0\x01\0\0\0\x03\0\0\x04\0\
    \0\0\0\x20stsz\0\0\0\0\0\0\0\0\0\0\0\x03\0\0\0\x0a\0\0\0\x14\0\0\0\x1e\
    \0\0\0\x28stsc\0\0\0\0\0\0\0\x02\0\0\0\x01\0\0\0\x02\0\0\0\x01\0\0\0\x02\0\0\0\x01\0\0\0\x01\
    \0\0\0\x18stco\0\0\0\0\0\0\0\x02\0\0\0\x64\0\0\0\xc8\
    ";

#[test]
fn samples_stand_one_after_the_other_in_their_chunk(rt: HostRuntime) -> Result<(), Fail> {
    let wanted = [
        (0, 0, sync(0, 100, 10), 0),
        (0, 1, sync(1024, 110, 20), 21_333),
        (0, 2, sync(2048, 200, 30), 42_666),
    ];
    let found = lists(rt.alloc(), TWO_CHUNKS, &wanted)?;
    assert!(rt; found);
    Ok(())
}

/// The same with a fourth size, for which no chunk is left. Its `stsc` stands at 343.
const FOUR_SIZES: &[u8] = b"\
    \0\0\0\x18stts\0\0\0\0\0\0\0\x01\0\0\0\x04\0\0\x04\0\
    \0\0\0\x24stsz\0\0\0\0\0\0\0\0\0\0\0\x04\0\0\0\x0a\0\0\0\x14\0\0\0\x1e\0\0\0\x28\
    \0\0\0\x28stsc\0\0\0\0\0\0\0\x02\0\0\0\x01\0\0\0\x02\0\0\0\x01\0\0\0\x02\0\0\0\x01\0\0\0\x01\
    \0\0\0\x18stco\0\0\0\0\0\0\0\x02\0\0\0\x64\0\0\0\xc8\
    ";

#[test]
fn chunks_that_hold_too_few_samples_are_refused(rt: HostRuntime) -> Result<(), Fail> {
    let fault = fault_of(rt.alloc(), FOUR_SIZES)?;
    let short = TableFault::Short {
        kind: FourCc(*b"stsc"),
        at: 343,
    };
    assert_eq!(rt; fault, refused(MovieFault::Table(short)));
    Ok(())
}

/// Two samples in one chunk at 100, whose sizes of four bits stand in one byte.
const COMPACT: &[u8] = b"\
    \0\0\0\x18stts\0\0\0\0\0\0\0\x01\0\0\0\x02\0\0\x04\0\
    \0\0\0\x15stz2\0\0\0\0\0\0\0\x04\0\0\0\x02\x3a\
    \0\0\0\x1cstsc\0\0\0\0\0\0\0\x01\0\0\0\x01\0\0\0\x02\0\0\0\x01\
    \0\0\0\x14stco\0\0\0\0\0\0\0\x01\0\0\0\x64\
    ";

#[test]
fn sizes_of_four_bits_are_read(rt: HostRuntime) -> Result<(), Fail> {
    let wanted = [
        (0, 0, sync(0, 100, 3), 0),
        (0, 1, sync(1024, 103, 10), 21_333),
    ];
    let found = lists(rt.alloc(), COMPACT, &wanted)?;
    assert!(rt; found);
    Ok(())
}
