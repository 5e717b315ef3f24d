//! Words that are taken, with what they ask for.

use super::*;
use sf_list::{holds, same};
use std::test::Fail;

/// Whether texts are these words.
fn are(texts: &Items<Text>, words: &[&str]) -> bool {
    let texts = texts.as_slice();
    if texts.len() != words.len() {
        return false;
    }
    for i in 0..words.len() {
        if texts[i].as_str() != words[i] {
            return false;
        }
    }
    true
}

const NO_LIMITS: RecordNumbers = RecordNumbers {
    start_us: 0,
    interleave_us: 1_000_000,
    max_bytes: 0,
    max_duration_us: 0,
    max_files: 1,
};

/// Whether words ask that these inputs be recorded, with no number given.
fn records(alloc: Global, words: &[&str], inputs: &[&str], threads: Threads, out: &str) -> bool {
    match read(alloc, words) {
        Ok(Command::Record(asked)) => {
            are(&asked.inputs, inputs)
                && asked.numbers == NO_LIMITS
                && asked.threads == threads
                && asked.out.as_str() == out
        }
        _ => false,
    }
}

/// Words, with the inputs, the way and the stem that they ask for.
type Recorded<'a> = (&'a [&'a str], &'a [&'a str], Threads, &'a str);

/// How many rows are recorded so before the first that isn't.
fn recorded(alloc: Global, rows: &[Recorded<'_>]) -> usize {
    for i in 0..rows.len() {
        let (words, inputs, threads, out) = rows[i];
        if !records(alloc, words, inputs, threads, out) {
            return i;
        }
    }
    rows.len()
}

#[test]
fn inputs_are_recorded(rt: HostRuntime) -> Result<(), Fail> {
    let rows: [Recorded<'_>; 13] = [
        (&["record", "a"], &["a"], Threads::Threaded, "out"),
        (
            &["record", "a", "--threads=0"],
            &["a"],
            Threads::Serial,
            "out",
        ),
        (
            &["record", "--threads", "0", "a"],
            &["a"],
            Threads::Serial,
            "out",
        ),
        (
            &["record", "a", "--threads", "01", "b"],
            &["a", "b"],
            Threads::Threaded,
            "out",
        ),
        (
            &["record", "--out", "x", "--", "-a"],
            &["-a"],
            Threads::Threaded,
            "x",
        ),
        (
            &["record", "a", "--", "--threads", "0"],
            &["a", "--threads", "0"],
            Threads::Threaded,
            "out",
        ),
        (
            &["record", "--threads=0", "--", "--threads=0"],
            &["--threads=0"],
            Threads::Serial,
            "out",
        ),
        (
            &["record", "--", "a", "--"],
            &["a", "--"],
            Threads::Threaded,
            "out",
        ),
        (&["record", "-"], &["-"], Threads::Threaded, "out"),
        (
            &["record", "--out", "-", "a"],
            &["a"],
            Threads::Threaded,
            "-",
        ),
        (
            &["record", "--out=a=b", "c"],
            &["c"],
            Threads::Threaded,
            "a=b",
        ),
        (
            &["record", "--out=-x", "--", "--"],
            &["--"],
            Threads::Threaded,
            "-x",
        ),
        (
            &["record", "a=b", "--out", "record"],
            &["a=b"],
            Threads::Threaded,
            "record",
        ),
    ];
    same(recorded(rt.alloc(), &rows), 13)?;
    Ok(())
}

/// The numbers that words ask of `record`.
fn numbers_of(alloc: Global, words: &[&str]) -> Option<RecordNumbers> {
    match read(alloc, words) {
        Ok(Command::Record(asked)) => Some(asked.numbers),
        _ => None,
    }
}

#[test]
fn the_numbers_of_record_are_read(rt: HostRuntime) -> Result<(), Fail> {
    let words = [
        "record",
        "--start-us=281474976710656",
        "--interleave-us",
        "0",
        "--max-bytes",
        "04611686018427387904",
        "a",
        "--max-duration-us=00000000000000000007",
        "--max-files",
        "99999",
    ];
    let wanted = RecordNumbers {
        start_us: 281_474_976_710_656,
        interleave_us: 0,
        max_bytes: 4_611_686_018_427_387_904,
        max_duration_us: 7,
        max_files: 99_999,
    };
    same(numbers_of(rt.alloc(), &words), Some(wanted))?;
    Ok(())
}

/// Whether words ask that plans be carried out on the movie `m`, with these numbers.
fn extracts(alloc: Global, words: &[&str], plans: &[&str], numbers: ExtractNumbers) -> bool {
    match read(alloc, words) {
        Ok(Command::Extract(asked)) => {
            asked.movie.as_str() == "m"
                && are(&asked.plans, plans)
                && asked.numbers == numbers
                && asked.threads == Threads::Threaded
                && asked.out.as_str() == "out"
        }
        _ => false,
    }
}

/// Words, with the plans, the pages and the two marks that they ask for.
type Extracted<'a> = (&'a [&'a str], &'a [&'a str], u64, u64, u64);

/// How many rows are carried out so before the first that isn't.
fn extracted(alloc: Global, rows: &[Extracted<'_>]) -> usize {
    for i in 0..rows.len() {
        let (words, plans, pages, low, high) = rows[i];
        if !extracts(alloc, words, plans, ExtractNumbers { pages, low, high }) {
            return i;
        }
    }
    rows.len()
}

#[test]
fn plans_are_carried_out(rt: HostRuntime) -> Result<(), Fail> {
    let rows: [Extracted<'_>; 6] = [
        (&["extract", "m", "x"], &["x"], 400, 4_194_304, 20_971_520),
        (
            &["extract", "--pages", "1", "m", "x", "y"],
            &["x", "y"],
            1,
            4_194_304,
            20_971_520,
        ),
        (
            &["extract", "m", "x", "--low=20971520"],
            &["x"],
            400,
            20_971_520,
            20_971_520,
        ),
        (
            &["extract", "m", "--low", "0", "--high", "0", "x"],
            &["x"],
            400,
            0,
            0,
        ),
        (
            &["extract", "--high=1073741824", "--", "m", "-"],
            &["-"],
            400,
            4_194_304,
            1_073_741_824,
        ),
        (
            &["extract", "--pages=4096", "--", "m", "--low", "9"],
            &["--low", "9"],
            4096,
            4_194_304,
            20_971_520,
        ),
    ];
    same(extracted(rt.alloc(), &rows), 6)?;
    Ok(())
}

/// Whether words ask that plans be carried out so, into dumps of this stem.
fn extracts_as(alloc: Global, words: &[&str], threads: Threads, out: &str) -> bool {
    match read(alloc, words) {
        Ok(Command::Extract(asked)) => asked.threads == threads && asked.out.as_str() == out,
        _ => false,
    }
}

#[test]
fn an_extract_has_its_way_and_its_stem(rt: HostRuntime) -> Result<(), Fail> {
    let words = ["extract", "--threads=0", "m", "--out", "d", "x"];
    holds(extracts_as(rt.alloc(), &words, Threads::Serial, "d"))?;
    Ok(())
}

/// Whether words ask for the list of this movie.
fn lists(alloc: Global, words: &[&str], movie: &str) -> bool {
    match read(alloc, words) {
        Ok(Command::List(name)) => name.as_str() == movie,
        _ => false,
    }
}

#[test]
fn a_movie_is_listed(rt: HostRuntime) -> Result<(), Fail> {
    holds(lists(rt.alloc(), &["list", "m"], "m"))?;
    holds(lists(rt.alloc(), &["list", "--", "-m"], "-m"))?;
    holds(lists(rt.alloc(), &["list", "-"], "-"))?;
    Ok(())
}

/// What words ask of `make`.
fn makes(alloc: Global, words: &[&str]) -> Option<MakeAsked> {
    match read(alloc, words) {
        Ok(Command::Make(asked)) => Some(asked),
        _ => None,
    }
}

#[test]
fn inputs_are_made(rt: HostRuntime) -> Result<(), Fail> {
    let most = MakeAsked {
        count: 200_000,
        tracks: 8,
        threads: Threads::Threaded,
    };
    same(
        makes(rt.alloc(), &["make", "200000", "00000000000000000008"]),
        Some(most),
    )?;
    let none = MakeAsked {
        count: 0,
        tracks: 1,
        threads: Threads::Serial,
    };
    same(
        makes(rt.alloc(), &["make", "0", "--threads=0", "1"]),
        Some(none),
    )?;
    Ok(())
}
