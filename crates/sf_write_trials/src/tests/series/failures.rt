//! Failures of the shelf and of its sinks. The calls of each object are numbered by themselves: a sink has one for the
//! head of its file, one for each chunk, one for the movie box and one for the size of the media data.

use super::*;

/// What is left of a recording of three chunks where a call of an object fails: the object, the number of the call, how
/// many files are kept, how many of them are closed, and how many chunks stand in files.
type Left = (u32, u64, u32, u32, u64);

/// The shelf is object 0, and its k-th sink object k. The first file takes one chunk, and the second one two. Where the
/// first call of the shelf or of its first sink fails no series is started. The last call of each object is the one
/// after which none is made: both files are closed.
const LEFT: [Left; 12] = [
    (0, 1, 1, 1, 1),
    (0, 2, 2, 2, 3),
    (1, 1, 1, 0, 0),
    (1, 2, 1, 0, 1),
    (1, 3, 1, 0, 1),
    (1, 4, 2, 2, 3),
    (2, 0, 2, 1, 1),
    (2, 1, 2, 1, 1),
    (2, 2, 2, 1, 2),
    (2, 3, 2, 1, 3),
    (2, 4, 2, 1, 3),
    (2, 5, 2, 2, 3),
];

/// An empty shelf of which one call of an object fails.
fn failing(alloc: Global, object: u32, call: u64) -> Result<MemShelf, AllocError> {
    let mut shelf = sure_shelf(alloc);
    shelf.fail_on(object, call)?;
    Ok(shelf)
}

/// Whether two shelves keep the same files up to this number.
fn same_files(shelf: &MemShelf, other: &MemShelf, count: u32) -> bool {
    for number in 0..count {
        match (shelf.file(number), other.file(number)) {
            (Some(file), Some(same)) if file == same => {}
            _ => return false,
        }
    }
    true
}

/// Whether this is left of a recording into at most so many files. Its closed files are those of another shelf.
fn is_left(alloc: Global, files: u32, left: Left, other: &MemShelf) -> Result<bool, Stop> {
    let (object, call, made, closed, written) = left;
    let mut shelf = failing(alloc, object, call)?;
    let (report, ended) = record(alloc, &SINGLE, (647, 0, files), &mut shelf)?;
    let wanted = if closed == 2 {
        Ok(())
    } else {
        Err(SeriesFault::WriteFault)
    };
    Ok(
        ended == wanted
            && kept(&shelf) == made
            && report.files.len() == closed as usize
            && report.tracks.as_slice() == [written].as_slice()
            && same_files(&shelf, other, closed),
    )
}

/// The first of rows of which something else is left, into at most so many files.
fn first_other(alloc: Global, files: u32, rows: &[Left]) -> Result<Option<Left>, Stop> {
    let other = recorded(alloc, &SINGLE, (647, 0, 2))?;
    for left in rows {
        if !is_left(alloc, files, *left, &other)? {
            return Ok(Some(*left));
        }
    }
    Ok(None)
}

#[test]
fn closed_files_stand_where_a_call_fails(rt: HostRuntime) {
    assert_eq!(rt; first_other(rt.alloc(), 2, &LEFT), Ok(None));
}

// The closing after a limit fails.
#[test]
fn a_failing_end_is_told_in_place_of_a_limit(rt: HostRuntime) {
    assert_eq!(rt; first_other(rt.alloc(), 1, &[(1, 3, 1, 0, 2)]), Ok(None));
}

/// Why a series isn't started where the first call of an object fails, and how many files are kept.
fn not_started_at(alloc: Global, object: u32) -> Result<(Option<Stop>, u32), AllocError> {
    let mut shelf = failing(alloc, object, 0)?;
    let stop = not_started(alloc, (0, 0, 1), &mut shelf);
    Ok((stop, kept(&shelf)))
}

#[test]
fn a_series_is_not_started_where_its_first_file_fails(rt: HostRuntime) {
    let stop = Some(Stop::Fault(SeriesFault::WriteFault));
    assert_eq!(rt; not_started_at(rt.alloc(), 0), Ok((stop, 0)));
    assert_eq!(rt; not_started_at(rt.alloc(), 1), Ok((stop, 1)));
}

/// Hands a chunk, writes it, and hands one more before the end: what the write and the end answer.
fn go_on_after(
    alloc: Global,
    max_bytes: u64,
    shelf: &mut MemShelf,
) -> Result<(Result<Wrote, Stop>, Result<(), SeriesFault>), Stop> {
    let mut series = start(alloc, 1, (max_bytes, 0, 1), shelf)?;
    hand_all(alloc, &mut series, 0, &TOGETHER)?;
    let wrote = write(&mut series, shelf);
    hand_all(alloc, &mut series, 1, &[&[64_000]])?;
    Ok((wrote, series.finish(shelf).1))
}

// After a fault nothing more is kept of what is handed, and the fault is told again at the end.
#[test]
fn a_chunk_after_a_fault_is_dropped(rt: HostRuntime) -> Result<(), Fail> {
    let over = SeriesFault::Limit(LimitShown::Size {
        track: 0,
        sample: 0,
        would_be: 640,
        max: 639,
    });
    let mut shelf = sure_shelf(rt.alloc());
    let answers = go_on_after(rt.alloc(), 639, &mut shelf)?;
    assert_eq!(rt; answers, (Err(Stop::Fault(over)), Err(over)));
    assert!(rt; keeps(&shelf, &[604]));
    Ok(())
}

// The head of the file stands, 40 bytes, and no chunk.
#[test]
fn a_chunk_after_a_failing_write_is_dropped(rt: HostRuntime) -> Result<(), Fail> {
    let fault = SeriesFault::WriteFault;
    let mut shelf = failing(rt.alloc(), 1, 1)?;
    let answers = go_on_after(rt.alloc(), 0, &mut shelf)?;
    assert_eq!(rt; answers, (Err(Stop::Fault(fault)), Err(fault)));
    assert!(rt; keeps(&shelf, &[40]));
    Ok(())
}
