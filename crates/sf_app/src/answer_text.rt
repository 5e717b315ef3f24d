//! The lines of answers, put into a text.

ghost use Rattle.std.specs.Prelude.{◌≡◌, ◌++◌, string_bytes, IfOk, OnOk};
ghost use Rattle.sf_app.specs.AnswerText.{done_lines, dump_lines, limit_line, line_of, told, value_line, value_lines, Puts};

use super::Status;
use sf_list::Items;
use sf_series::{LimitShown, Report};
use sf_world::{Denied, Sink};
use std::alloc::{AllocError, Global};
use std::fmt::Write;

const USAGE: &str =
    "usage: record INPUT.. | extract MOVIE PLAN.. | list MOVIE | make COUNT TRACKS\n";

// Puts lines into a text.
fn put<T: Sink>(text: &mut T, lines: &str) -> Result<(), Denied>
    ensures { Puts lines.now result (T.seen text.old) (T.seen text.new) }
{
    text.append(lines.as_bytes())
}

// Adds a line of a word, a number and a value, after the lines that are there.
fn add_value(lines: &mut String, word: &str, number: u64, value: u64) -> Result<(), AllocError>
    ensures { OnOk result (string_bytes lines.new ≡ string_bytes lines.old ++ value_line word.now number value) }
{
    write!(lines, "{word} {number} {value}\n")?;
    Ok(())
}

// Adds such a line for each of some values, numbered from here on.
fn add_values(lines: &mut String, word: &str, first: u8, values: &[u64]) -> Result<(), AllocError>
    ensures { OnOk result (string_bytes lines.new ≡ string_bytes lines.old ++ value_lines word.now first values.now) }
{
    for index in 0..values.len() {
        let number = u64::from(first) + index as u64;
        add_value(lines, word, number, values[index])?;
    }
    Ok(())
}

// The lines of a recording that is done.
fn done_lines(alloc: Global, report: &Report) -> Result<String, AllocError>
    ensures { IfOk result (λ lines. string_bytes lines ≡ done_lines report.now) }
{
    let mut lines = String::new(alloc);
    add_values(&mut lines, "file", 1, report.files.as_slice())?;
    add_values(&mut lines, "track", 0, report.tracks.as_slice())?;
    lines.push_str("done\n")?;
    Ok(lines)
}

/// Puts the lines of a recording that is done into a text.
pub(crate) fn put_done<T: Sink>(alloc: Global, text: &mut T, report: &Report) -> Result<(), Denied>
    ensures { Puts (done_lines report.now) result (T.seen text.old) (T.seen text.new) }
{
    let lines = done_lines(alloc, report)?;
    put(text, lines.as_str())
}

// The lines of an extraction that is done.
fn dump_lines(alloc: Global, lengths: &[u64]) -> Result<String, AllocError>
    ensures { IfOk result (λ lines. string_bytes lines ≡ dump_lines lengths.now) }
{
    let mut lines = String::new(alloc);
    add_values(&mut lines, "dump", 1, lengths)?;
    lines.push_str("done\n")?;
    Ok(lines)
}

/// Puts the lines of an extraction that is done into a text.
pub(crate) fn put_dumps<T: Sink>(
    alloc: Global,
    text: &mut T,
    lengths: &Items<u64>,
) -> Result<(), Denied>
    ensures { Puts (dump_lines lengths.now) result (T.seen text.old) (T.seen text.new) }
{
    let lines = dump_lines(alloc, lengths.as_slice())?;
    put(text, lines.as_str())
}

/// How the text into which the lines of a done command were put turns its answer.
pub(crate) fn told(put: Result<(), Denied>) -> Status
    ensures { result ≡ told put }
{
    match put {
        Ok(()) => Status::Done,
        Err(Denied::Failed) => Status::WriteFault,
        Err(Denied::NoMemory) => Status::NoMemory,
    }
}

// The line of a limit that was reached.
fn limit_line(alloc: Global, limit: &LimitShown) -> Result<String, AllocError>
    ensures { IfOk result (λ line. string_bytes line ≡ limit_line limit.now) }
{
    match limit {
        LimitShown::Nothing { would_be, max } => {
            format!(in alloc; "limit reached: nothing {would_be} {max}\n")
        }
        LimitShown::Size {
            track,
            sample,
            would_be,
            max,
        } => format!(in alloc; "limit reached: size {track} {sample} {would_be} {max}\n"),
        LimitShown::Movie {
            track,
            sample,
            would_be,
            max,
        } => format!(in alloc; "limit reached: movie {track} {sample} {would_be} {max}\n"),
        LimitShown::Count {
            track,
            sample,
            would_be,
            max,
        } => format!(in alloc; "limit reached: count {track} {sample} {would_be} {max}\n"),
        LimitShown::Duration {
            track,
            sample,
            at_us,
            file_start_us,
            max_us,
        } => format!(in alloc;
            "limit reached: duration {track} {sample} {at_us} {file_start_us} {max_us}\n"
        ),
    }
}

// Puts the line of a limit that was reached into a text.
fn put_limit<T: Sink>(alloc: Global, text: &mut T, limit: &LimitShown) -> Result<(), Denied>
    ensures { Puts (limit_line limit.now) result (T.seen text.old) (T.seen text.new) }
{
    let line = limit_line(alloc, limit)?;
    put(text, line.as_str())
}

/// Puts the line of an answer other than `Done` into a text. Those without a number take no memory.
pub fn put_answer<T: Sink>(alloc: Global, text: &mut T, status: &Status) -> Result<(), Denied>
    ensures { Puts (line_of status.now) result (T.seen text.old) (T.seen text.new) }
{
    match status {
        Status::Done => put(text, ""),
        Status::Usage(_) => put(text, USAGE),
        Status::OpenFault { input } => {
            let line = format!(in alloc; "cannot open input {input}\n")?;
            put(text, line.as_str())
        }
        Status::ReadFault { input } => {
            let line = format!(in alloc; "cannot read input {input}\n")?;
            put(text, line.as_str())
        }
        Status::WriteFault => put(text, "cannot write\n"),
        Status::InputRefused { track, fault } => {
            let place = fault.place;
            let line = format!(in alloc; "input refused: track {track} at {place}\n")?;
            put(text, line.as_str())
        }
        Status::MovieRefused(_) => put(text, "movie refused\n"),
        Status::SampleRefused {
            reader,
            track,
            sample,
            at,
        } => {
            let line = format!(in alloc;
                "sample refused: reader {reader} track {track} sample {sample} at {at}\n"
            )?;
            put(text, line.as_str())
        }
        Status::LimitReached(limit) => put_limit(alloc, text, limit),
        Status::PlanRefused { reader, command } => {
            let line = format!(in alloc; "plan refused: reader {reader} command {command}\n")?;
            put(text, line.as_str())
        }
        Status::NoMemory => put(text, "no memory\n"),
    }
}
