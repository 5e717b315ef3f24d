//! Limits of the files of one track of sound, three samples of 4 bytes: a file without samples has 604 bytes, and one
//! of one chunk with three 640.

use super::*;

/// Whether a recording ends so, with this many samples in files of these lengths, which are told too.
fn leaves(
    alloc: Global,
    chunks: &[&[u64]],
    most: Most,
    ended: Result<(), SeriesFault>,
    samples: u64,
    files: &[u64],
) -> Result<bool, Stop> {
    let mut shelf = sure_shelf(alloc);
    let (report, answer) = record(alloc, chunks, most, &mut shelf)?;
    Ok(
        answer == ended
            && report.tracks.as_slice() == [samples].as_slice()
            && report.files.as_slice() == files
            && keeps(&shelf, files),
    )
}

/// That a chunk that begins with a sample would make a file too long.
fn over(sample: u64, would_be: u64, max: u64) -> Result<(), SeriesFault> {
    Err(SeriesFault::Limit(LimitShown::Size {
        track: 0,
        sample,
        would_be,
        max,
    }))
}

#[test]
fn files_are_as_long_as_they_may_be(rt: HostRuntime) {
    let alloc = rt.alloc();
    let together = leaves(alloc, &TOGETHER, (0, 0, 1), Ok(()), 3, &[640]);
    let in_one = leaves(alloc, &SINGLE, (648, 0, 1), Ok(()), 3, &[648]);
    let in_two = leaves(alloc, &SINGLE, (647, 0, 2), Ok(()), 3, &[632, 640]);
    let empty = leaves(alloc, &[], (604, 0, 1), Ok(()), 0, &[604]);
    assert_eq!(rt; together, Ok(true));
    assert_eq!(rt; in_one, Ok(true));
    assert_eq!(rt; in_two, Ok(true));
    assert_eq!(rt; empty, Ok(true));
}

#[test]
fn a_chunk_that_makes_a_file_too_long_ends_the_series(rt: HostRuntime) {
    let alloc = rt.alloc();
    let later = leaves(alloc, &SINGLE, (647, 0, 1), over(2, 648, 647), 2, &[640]);
    let at_once = leaves(alloc, &TOGETHER, (639, 0, 1), over(0, 640, 639), 0, &[604]);
    assert_eq!(rt; later, Ok(true));
    assert_eq!(rt; at_once, Ok(true));
}

#[test]
fn no_file_is_made_where_an_empty_one_is_too_long(rt: HostRuntime) {
    let nothing = LimitShown::Nothing {
        would_be: 604,
        max: 603,
    };
    let mut shelf = sure_shelf(rt.alloc());
    let stop = not_started(rt.alloc(), (603, 0, 1), &mut shelf);
    assert_eq!(rt; stop, Some(Stop::Fault(SeriesFault::Limit(nothing))));
    assert_eq!(rt; kept(&shelf), 0);
}

// The second chunk begins a second after the first file's start.
#[test]
fn a_file_goes_on_for_so_long(rt: HostRuntime) {
    let alloc = rt.alloc();
    let chunks: [&[u64]; 3] = [&[0], &[999_999], &[1_000_000]];
    let long = LimitShown::Duration {
        track: 0,
        sample: 2,
        at_us: 1_000_000,
        file_start_us: 0,
        max_us: 1_000_000,
    };
    let ended = Err(SeriesFault::Limit(long));
    let two = leaves(alloc, &chunks, (0, 1_000_000, 2), Ok(()), 3, &[640, 632]);
    let one = leaves(alloc, &chunks, (0, 1_000_000, 1), ended, 2, &[640]);
    assert_eq!(rt; two, Ok(true));
    assert_eq!(rt; one, Ok(true));
}

// Times in the second file count from its own start, which is told from the start of the series on.
#[test]
fn the_next_file_starts_with_its_first_sample(rt: HostRuntime) -> Result<(), Fail> {
    let shelf = recorded(rt.alloc(), &SINGLE, (647, 0, 2))?;
    assert!(rt; reads_as(rt.alloc(), &shelf, 0, 0, &[(0, &[40])]));
    assert!(rt; reads_as(rt.alloc(), &shelf, 1, 21_333, &[(0, &[40, 44])]));
    Ok(())
}
