//! Recordings with options: in how many files they end, and at which limit.

use super::several::{NEVER, run_named};
use super::*;
use sf_list::{holds, same};
use sf_meaning::{PlainMovie, plain_file};
use std::test::Fail;

/// What is asked of a recording of the input, what it answers and says, and how long the first two files are.
type Row = (
    &'static [&'static str],
    Status,
    &'static [u8],
    [Option<usize>; 2],
);

/// How long the first two files of a shelf are.
fn sizes_of(shelf: &MemShelf) -> [Option<usize>; 2] {
    [
        shelf.file(0).map(|file| file.len()),
        shelf.file(1).map(|file| file.len()),
    ]
}

const fn size(sample: u64, would_be: u64, max: u64) -> Status {
    Status::LimitReached(LimitShown::Size {
        track: 0,
        sample,
        would_be,
        max,
    })
}

/// Nothing where a recording of the input ends so.
fn ends_as(alloc: Global, row: &Row) -> Result<(), Fail> {
    let ended = run_words(alloc, row.0, &INPUT)?;
    ended.gives(row.1, row.2)?;
    same(sizes_of(&ended.shelf), row.3)
}

// With chunks of one sample a file of three has 648 bytes.
#[test]
fn limits_cut_a_recording_into_files(rt: HostRuntime) -> Result<(), Fail> {
    let nothing = Status::LimitReached(LimitShown::Nothing {
        would_be: 604,
        max: 603,
    });
    let rows: [Row; 5] = [
        (
            &["record", "--interleave-us", "0", "a", "--max-bytes=648"],
            Status::Done,
            b"file 1 648\ntrack 0 3\ndone\n",
            [Some(648), None],
        ),
        (
            &["record", "a", "--interleave-us=0", "--max-bytes", "647"],
            size(2, 648, 647),
            b"limit reached: size 0 2 648 647\n",
            [Some(640), None],
        ),
        (
            &[
                "record",
                "--max-files=2",
                "--interleave-us=0",
                "--max-bytes=647",
                "--threads=0",
                "--",
                "a",
            ],
            Status::Done,
            b"file 1 632\nfile 2 640\ntrack 0 3\ndone\n",
            [Some(632), Some(640)],
        ),
        (
            &["record", "a", "--max-bytes=639"],
            size(0, 640, 639),
            b"limit reached: size 0 0 640 639\n",
            [Some(604), None],
        ),
        (
            &["record", "a", "--max-bytes=603"],
            nothing,
            b"limit reached: nothing 604 603\n",
            [None, None],
        ),
    ];
    for row in rows {
        ends_as(rt.alloc(), &row)?;
    }
    Ok(())
}

/// The leads of the first two tracks of a movie, in microseconds.
fn leads_of(movie: &PlainMovie) -> [Option<u64>; 2] {
    let tracks = movie.tracks.as_slice();
    [
        tracks.first().map(|track| track.lead),
        tracks.get(1).map(|track| track.lead),
    ]
}

/// Whether a file of the shelf is a movie that starts at this many microseconds, and its two tracks have these leads.
fn starts_at(alloc: Global, file: Option<&[u8]>, start_us: u64, leads: [u64; 2]) -> bool {
    let Some(bytes) = file else {
        return false;
    };
    match plain_file(alloc, bytes) {
        Ok(movie) => {
            movie.start_us == start_us && leads_of(&movie) == [Some(leads[0]), Some(leads[1])]
        }
        Err(_) => false,
    }
}

// The first file ends after a second with the first sample of the first track, and the two others stand in the second.
#[test]
fn two_tracks_go_on_in_a_second_file(rt: HostRuntime) -> Result<(), Fail> {
    let alloc = rt.alloc();
    let first = input_of(alloc, &[(0, 4), (1_000_000, 4)])?;
    let second = input_of(alloc, &[(1_500_000, 4)])?;
    let words = [
        "record",
        "--threads=0",
        "--interleave-us=500000",
        "--max-duration-us=1000000",
        "--max-files=2",
        "a",
        "b",
    ];
    let ended = run_named(alloc, &words, &[("a", &first), ("b", &second)], NEVER)?;
    ended.ends(Status::Done)?;
    holds(starts_at(alloc, ended.shelf.file(0), 0, [0, 0]))?;
    holds(starts_at(alloc, ended.shelf.file(1), 1_000_000, [0, 500_000]))
}
