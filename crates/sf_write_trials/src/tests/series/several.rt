//! Series of several tracks.

use super::*;

/// A step of a series.
#[derive(Clone, Copy, Debug)]
enum Step {
    /// A chunk of a track with its number is handed, of one sample that is decoded at these microseconds.
    Hand(u32, u64, u64),
    /// An empty last chunk of a track with its number is handed.
    End(u32, u64),
    /// Such a chunk of one sample can't be handed.
    Unfit(u32, u64, u64),
    /// A chunk is written, and this is answered.
    Write(Wrote),
}

/// An empty last chunk of a track with its number.
fn last_chunk(alloc: Global, track: u32, number: u64) -> Result<Chunk, AllocError> {
    let mut last = chunk(alloc, track, number, &[])?;
    last.last = true;
    Ok(last)
}

/// Takes a step of a series: whether it answers as it is to.
fn take_step<O: Shelf>(
    alloc: Global,
    series: &mut Series<O>,
    step: Step,
    shelf: &mut O,
) -> Result<bool, Stop> {
    match step {
        Step::Hand(track, number, at_us) => {
            let chunk = chunk(alloc, track, number, &[at_us])?;
            Ok(hand(series, chunk) == Ok(()))
        }
        Step::End(track, number) => {
            let chunk = last_chunk(alloc, track, number)?;
            Ok(hand(series, chunk) == Ok(()))
        }
        Step::Unfit(track, number, at_us) => {
            let chunk = chunk(alloc, track, number, &[at_us])?;
            Ok(hand(series, chunk) == Err(Stop::Unfit))
        }
        Step::Write(wrote) => Ok(write(series, shelf) == Ok(wrote)),
    }
}

/// Takes the steps of a series: whether each answers as it is to.
fn take_steps<O: Shelf>(
    alloc: Global,
    series: &mut Series<O>,
    steps: &[Step],
    shelf: &mut O,
) -> Result<bool, Stop> {
    for step in steps {
        if !take_step(alloc, series, *step, shelf)? {
            return Ok(false);
        }
    }
    Ok(true)
}

/// Takes the steps of a series of two tracks of sound, and finishes it: whether each step answers as it is to, and so many
/// samples of each track stand in files.
fn steps_leave<O: Shelf>(
    alloc: Global,
    most: Most,
    steps: &[Step],
    shelf: &mut O,
    samples: [u64; 2],
) -> Result<bool, Stop> {
    let mut series = start(alloc, 2, most, shelf)?;
    if !take_steps(alloc, &mut series, steps, shelf)? {
        return Ok(false);
    }
    let (report, ended) = series.finish(shelf);
    Ok(ended == Ok(()) && report.tracks.as_slice() == samples.as_slice())
}

#[test]
fn a_later_chunk_may_stand_first(rt: HostRuntime) {
    let alloc = rt.alloc();
    let steps = [
        Step::Write(Wrote::Idle),
        Step::Hand(0, 0, 1_000_000),
        Step::Write(Wrote::OneChunk(0)),
        Step::Hand(1, 0, 0),
        Step::Write(Wrote::OneChunk(1)),
        Step::Write(Wrote::Idle),
    ];
    let mut shelf = sure_shelf(alloc);
    let left = steps_leave(alloc, (0, 0, 1), &steps, &mut shelf, [1, 1]);
    assert_eq!(rt; left, Ok(true));
    assert!(rt; reads_as(alloc, &shelf, 0, 0, &[(1_000_000, &[40]), (0, &[44])]));
}

#[test]
fn chunks_that_begin_at_once_are_written_by_their_tracks(rt: HostRuntime) {
    let alloc = rt.alloc();
    let steps = [
        Step::Hand(1, 0, 0),
        Step::Hand(0, 0, 0),
        Step::Write(Wrote::OneChunk(0)),
        Step::Write(Wrote::OneChunk(1)),
        Step::Write(Wrote::Idle),
    ];
    let mut shelf = sure_shelf(alloc);
    let left = steps_leave(alloc, (0, 0, 1), &steps, &mut shelf, [1, 1]);
    assert_eq!(rt; left, Ok(true));
}

#[test]
fn the_next_file_begins_with_the_first_track(rt: HostRuntime) {
    let alloc = rt.alloc();
    let steps = [
        Step::Hand(0, 0, 0),
        Step::Hand(0, 1, 1_000_000),
        Step::Hand(1, 0, 1_500_000),
    ];
    let mut shelf = sure_shelf(alloc);
    let left = steps_leave(alloc, (0, 1_000_000, 2), &steps, &mut shelf, [2, 1]);
    assert_eq!(rt; left, Ok(true));
    assert!(rt; reads_as(alloc, &shelf, 0, 0, &[(0, &[40]), (0, &[])]));
    assert!(rt; reads_as(alloc, &shelf, 1, 1_000_000, &[(0, &[40]), (500_000, &[44])]));
}

#[test]
fn an_empty_last_chunk_only_ends_its_track(rt: HostRuntime) {
    let alloc = rt.alloc();
    let steps = [
        Step::Hand(0, 0, 0),
        Step::End(0, 1),
        Step::Unfit(0, 1, 21_333),
        Step::Write(Wrote::OneChunk(0)),
        Step::Write(Wrote::Idle),
    ];
    let mut shelf = sure_shelf(alloc);
    let left = steps_leave(alloc, (0, 0, 1), &steps, &mut shelf, [1, 0]);
    assert_eq!(rt; left, Ok(true));
}
