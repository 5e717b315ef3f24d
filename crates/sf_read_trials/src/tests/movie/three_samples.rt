//! The file of three samples, its cuts, and its failing reads.

use super::*;
use sf_box::BoxFault;

// 1024 ticks at 48000 Hz are 21333 microseconds and a third, and 2048 are 42666 and two thirds.
#[test]
fn the_movie_of_three_samples_is_loaded(rt: HostRuntime) -> Result<(), Fail> {
    let samples = [
        (0, 0, sync(0, 40, 4), 0),
        (0, 1, sync(1024, 44, 4), 21_333),
        (0, 2, sync(2048, 48, 4), 42_666),
    ];
    let mut source = source_of(rt.alloc(), &SOUND, &[])?;
    let movie = loaded(rt.alloc(), &mut source)?;
    assert!(rt; has_tracks(&movie, &[(TrackKind::Aac, 48_000, 3, 0)]));
    assert!(rt; has_samples(&movie, &samples));
    assert_eq!(rt; widths_at(&movie, 0), Some([None, None, None]));
    Ok(())
}

/// Why the movie of bytes isn't loaded where the read of a number fails, and how many reads failed.
fn fault_where(alloc: Global, bytes: &[u8], failing: u64) -> (Option<LoadFault>, u64) {
    match source_of(alloc, bytes, &[failing]) {
        Ok(mut source) => {
            let fault = Movie::load(alloc, &mut source).err();
            (fault, source.count())
        }
        Err(_) => (Some(LoadFault::NoMemory), 0),
    }
}

/// What is wrong with the first bytes of the file, so many of them: `ftyp` has 24 bytes, the head of `mdat`
/// 16 of its 28, and `moov` 588.
fn fault_at(length: u64) -> MovieFault {
    let short = |at| MovieFault::Tiling(BoxFault::Short { at });
    let overrun = |at, size| MovieFault::Tiling(BoxFault::Overrun { at, size });
    match length {
        0 | 24 | 52 => MovieFault::NoMoov { at: length },
        1..=7 => short(0),
        8..=23 => overrun(0, 24),
        25..=39 => short(24),
        40..=51 => overrun(24, 28),
        53..=59 => short(52),
        _ => overrun(52, 588),
    }
}

/// The first of the lengths to which the file is cut at which something else is told.
fn first_other_cut(alloc: Global) -> Option<usize> {
    for length in 0..640usize {
        let (fault, _) = fault_where(alloc, &SOUND[..length], u64::MAX);
        if fault != refused(fault_at(length as u64)) {
            return Some(length);
        }
    }
    None
}

#[test]
fn a_file_that_is_cut_short_is_refused_at_its_box(rt: HostRuntime) {
    assert_eq!(rt; first_other_cut(rt.alloc()), None);
}

/// How many reads of the file fail, each with its fault told, until none fails.
fn failing_reads(alloc: Global) -> Option<u64> {
    for failing in 0..9u64 {
        match fault_where(alloc, &SOUND, failing) {
            (None, 0) => return Some(failing),
            (Some(LoadFault::ReadFault), 1) => {}
            _ => return None,
        }
    }
    None
}

// The heads of the three boxes and the body of the movie box are read, each by one call.
#[test]
fn each_read_that_fails_is_told(rt: HostRuntime) {
    assert_eq!(rt; failing_reads(rt.alloc()), Some(4));
}

// A read that fails after the place of a fault isn't made, and one before it stands in its place.
#[test]
fn a_fault_comes_before_later_reads(rt: HostRuntime) {
    let no_moov = MovieFault::NoMoov { at: 52 };
    let later = fault_where(rt.alloc(), &SOUND[..52], 2);
    let earlier = fault_where(rt.alloc(), &SOUND[..52], 1);
    assert_eq!(rt; later, (refused(no_moov), 0));
    assert_eq!(rt; earlier, (Some(LoadFault::ReadFault), 1));
}

/// That a sample of the first track lies outside of the file.
fn outside(sample: u64) -> Option<LoadFault> {
    refused(MovieFault::SampleOutside { track: 0, sample })
}

// The samples end at 52. The place of the chunk stands in the last four bytes of `stco`, at 612, and the
// size of each sample at 560.
#[test]
fn samples_outside_of_the_file_are_refused(rt: HostRuntime) {
    // The last two of three samples end at 641 or later where the chunk begins at 633.
    assert_eq!(rt; fault_with(rt.alloc(), 612, b"\0\0\x02\x79"), outside(1));
    assert_eq!(rt;
        fault_with(rt.alloc(), 612, b"\xff\xff\xff\xff"),
        outside(0)
    );
    assert_eq!(rt; fault_with(rt.alloc(), 560, b"\0\0\x02\x59"), outside(0));
}
