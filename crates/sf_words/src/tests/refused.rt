//! Words that no command takes.

use super::*;
use sf_list::{holds, same};
use std::test::Fail;

/// How many rows are refused so before the first that isn't.
fn refused(alloc: Global, rows: &[&[&str]], wanted: UsageFault) -> usize {
    for i in 0..rows.len() {
        match read(alloc, rows[i]) {
            Err(WordsFault::Usage(fault)) if fault == wanted => {}
            _ => return i,
        }
    }
    rows.len()
}

#[test]
fn a_first_word_that_is_no_command_is_refused(rt: HostRuntime) -> Result<(), Fail> {
    let rows: [&[&str]; 7] = [
        &[],
        &[""],
        &["Record", "a"],
        &["records", "a"],
        &["--help"],
        &["--out", "x", "record", "a"],
        &["--", "record", "a"],
    ];
    same(refused(rt.alloc(), &rows, UsageFault::Command), 7)?;
    Ok(())
}

#[test]
fn each_command_takes_its_count_of_words_and_none_is_empty(rt: HostRuntime) -> Result<(), Fail> {
    let rows: [&[&str]; 15] = [
        &["record"],
        &["record", "--"],
        &["record", "--threads", "1"],
        &["extract"],
        &["extract", "m"],
        &["list"],
        &["list", "a", "b"],
        &["make", "1"],
        &["make", "1", "2", "3"],
        &["record", ""],
        &["record", "a", ""],
        &["list", ""],
        &["extract", "", "x"],
        &["extract", "m", ""],
        &["make", "1", ""],
    ];
    same(refused(rt.alloc(), &rows, UsageFault::Words), 15)?;
    Ok(())
}

#[test]
fn what_begins_like_an_option_must_be_one(rt: HostRuntime) -> Result<(), Fail> {
    let rows: [&[&str]; 14] = [
        &["record", "-a"],
        &["record", "a", "-", "-o"],
        &["record", "a", "--help"],
        &["record", "a", "-h"],
        &["record", "a", "--version"],
        &["record", "a", "--low", "1"],
        &["record", "a", "--thread", "1"],
        &["record", "a", "--Threads", "1"],
        &["record", "a", "---out", "x"],
        &["record", "a", "--=1"],
        &["extract", "m", "x", "--max-files", "1"],
        &["list", "a", "--threads", "1"],
        &["make", "1", "1", "--out", "x"],
        &["make", "1", "--", "--threads", "0"],
    ];
    same(refused(rt.alloc(), &rows, UsageFault::Words), 14)?;
    Ok(())
}

#[test]
fn an_option_has_one_value(rt: HostRuntime) -> Result<(), Fail> {
    let rows: [&[&str]; 11] = [
        &["record", "a", "--out"],
        &["record", "a", "--out", "-x"],
        &["record", "--out", "--", "a"],
        &["record", "--out", "--threads", "1", "a"],
        &["record", "a", "--out", ""],
        &["record", "a", "--out="],
        &["record", "a", "--threads="],
        &["record", "a", "--threads", "1", "--threads", "1"],
        &["record", "a", "--out=x", "--out", "x"],
        &["extract", "m", "--low=1", "x", "--low=1"],
        &["make", "--threads=0", "1", "1", "--threads=0"],
    ];
    same(refused(rt.alloc(), &rows, UsageFault::Words), 11)?;
    Ok(())
}

#[test]
fn a_number_is_1_to_20_digits_in_its_range(rt: HostRuntime) -> Result<(), Fail> {
    let rows: [&[&str]; 24] = [
        &["record", "a", "--threads", "+1"],
        &["record", "a", "--threads=-1"],
        &["record", "a", "--threads", "1a"],
        &["record", "a", "--threads", " 1"],
        &["record", "a", "--threads", "0x1"],
        &["record", "a", "--threads", "000000000000000000001"],
        &["record", "a", "--threads", "2"],
        &["record", "a", "--start-us", "281474976710657"],
        &["record", "a", "--interleave-us", "281474976710657"],
        &["record", "a", "--max-bytes", "4611686018427387905"],
        &["record", "a", "--max-bytes", "99999999999999999999"],
        &["record", "a", "--max-duration-us", "281474976710657"],
        &["record", "a", "--max-files", "0"],
        &["record", "a", "--max-files", "100000"],
        &["extract", "m", "x", "--pages", "0"],
        &["extract", "m", "x", "--pages", "4097"],
        &["extract", "m", "x", "--low", "0", "--high", "1073741825"],
        &[
            "extract",
            "m",
            "x",
            "--low",
            "1073741825",
            "--high",
            "1073741825",
        ],
        &["extract", "m", "x", "--threads", "2"],
        &["make", "200001", "1"],
        &["make", "1", "0"],
        &["make", "1", "9"],
        &["make", "+1", "1"],
        &["make", "1", "1", "--threads", "2"],
    ];
    same(refused(rt.alloc(), &rows, UsageFault::Words), 24)?;
    Ok(())
}

#[test]
fn the_low_mark_is_not_above_the_high_one(rt: HostRuntime) -> Result<(), Fail> {
    let rows: [&[&str]; 3] = [
        &["extract", "m", "x", "--low", "20971521"],
        &["extract", "m", "x", "--high", "4194303"],
        &["extract", "m", "x", "--low", "5", "--high", "4"],
    ];
    same(refused(rt.alloc(), &rows, UsageFault::Words), 3)?;
    Ok(())
}

/// Whether a command takes so many words of one letter.
fn takes(alloc: Global, command: &str, count: usize) -> Result<bool, AllocError> {
    let mut words = words_of(alloc, &[command])?;
    for _ in 0..count {
        words.push(String::from_str(alloc, "a")?)?;
    }
    Ok(read_words(alloc, &words).is_ok())
}

#[test]
fn sixteen_inputs_or_plans_are_the_most(rt: HostRuntime) -> Result<(), Fail> {
    holds(takes(rt.alloc(), "record", 16)?)?;
    holds(!takes(rt.alloc(), "record", 17)?)?;
    holds(takes(rt.alloc(), "extract", 17)?)?;
    holds(!takes(rt.alloc(), "extract", 18)?)?;
    Ok(())
}
