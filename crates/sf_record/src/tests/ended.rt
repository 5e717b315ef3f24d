//! Inputs that are recorded where a call may fail, and what comes of it.

ghost use Rattle.std.specs.Prelude.{◌≤◌, length, IfSome};

use crate::{SerialOutcome, record_serial};
use sf_gather::Options;
use sf_list::{Bytes, Text};
use sf_series::Limits;
use sf_world::{MemShelf, MemSource};
use std::alloc::Global;

/// Sound of 48000 Hz: three sync samples of four bytes at 0, 21333 and 42667 microseconds, whose records stand at 24, 50 and
/// 76, and the end at 102.
pub(super) const THREE: [u8; 103] = *b"SFCS\0\x01\0\x02\0\0\0\0\0\0\0\0\0\x02\0\0\0\x02\x11\x90\
    \x01\x01\0\0\0\0\0\0\0\0\0\0\0\0\0\0\0\0\0\0\0\x04\x21\x10\x04\x60\
    \x01\x01\0\0\0\0\0\0\x53\x55\0\0\0\0\0\0\x53\x55\0\0\0\x04\x21\x10\x04\x60\
    \x01\x01\0\0\0\0\0\0\xa6\xab\0\0\0\0\0\0\xa6\xab\0\0\0\x04\x21\x10\x04\x60\
    \0";

/// How a recording goes: the interleave in microseconds, the limits of bytes and of microseconds, and how many files there
/// may be after the first.
#[derive(Clone, Copy)]
pub(super) struct Plan {
    pub interleave_us: u32,
    pub max_bytes: u32,
    pub max_duration_us: u32,
    pub more_files: u8,
}

/// Chunks of a second in one file without limits.
pub(super) const PLAIN: Plan = Plan {
    interleave_us: 1_000_000,
    max_bytes: 0,
    max_duration_us: 0,
    more_files: 0,
};

/// A chunk for each sample, in files of at most so many bytes.
pub(super) fn bounded(max_bytes: u32, more_files: u8) -> Plan {
    Plan {
        interleave_us: 0,
        max_bytes,
        max_duration_us: 0,
        more_files,
    }
}

/// The number that no call has, and the one of what isn't there.
pub(super) const NONE: u64 = u64::MAX;

/// What fails: a read of an input, by the numbers of both; and a call of an object of the shelf, which is 0 for the shelf
/// and then 1 for its first file, by the numbers of both.
#[derive(Clone, Copy)]
pub(super) struct Failing {
    pub read: (usize, u64),
    pub call: (u32, u64),
}

pub(super) const NOTHING: Failing = Failing {
    read: (0, NONE),
    call: (0, NONE),
};

/// What came of a recording: the answer, the lengths of the first files that the report tells and of those on the shelf,
/// the samples of the first tracks, and how many reads of the first sources failed.
#[derive(Clone, Copy, Debug, PartialEq, Eq)]
pub(super) struct Ended {
    pub outcome: SerialOutcome,
    pub told: [u64; 3],
    pub kept: [u64; 3],
    pub tracks: [u64; 3],
    pub failed: [u64; 3],
}

fn item(items: &[u64], number: usize) -> u64 {
    match items.get(number) {
        Some(item) => *item,
        None => NONE,
    }
}

fn first_three(items: &[u64]) -> [u64; 3] {
    [item(items, 0), item(items, 1), item(items, 2)]
}

fn size(shelf: &MemShelf, number: u32) -> u64 {
    match shelf.file(number) {
        Some(file) => file.len() as u64,
        None => NONE,
    }
}

fn failed(sources: &[MemSource], number: usize) -> u64 {
    match sources.get(number) {
        Some(source) => source.count(),
        None => NONE,
    }
}

/// The sources of inputs, of which one read fails.
fn sources_of(alloc: Global, inputs: &[&[u8]], read: (usize, u64)) -> Option<Vec<MemSource>>
    ensures some { IfSome result (λ s. 1 ≤ length s.items) }
    ensures few { IfSome result (λ s. length s.items ≤ 16) }
{
    let mut sources = Vec::new(alloc);
    for number in 0..inputs.len() {
        let failing = if number == read.0 { read.1 } else { NONE };
        let bytes = Bytes::from_slice(alloc, inputs[number]).ok()?;
        let failing = vec![in alloc; failing].ok()?;
        sources.push(MemSource::new(alloc, bytes, failing)).ok()?;
    }
    if sources.is_empty() || sources.len() > 16 {
        return None;
    }
    Some(sources)
}

/// Records inputs, 1 to 16, onto a shelf, where this fails.
pub(super) fn record_onto(
    alloc: Global,
    inputs: &[&[u8]],
    plan: Plan,
    failing: Failing,
    shelf: &mut MemShelf,
) -> Option<Ended> {
    let sources = sources_of(alloc, inputs, failing.read)?;
    let options = Options {
        start_us: 0,
        interleave_us: u64::from(plan.interleave_us),
    };
    let limits = Limits {
        max_bytes: u64::from(plan.max_bytes),
        max_duration_us: u64::from(plan.max_duration_us),
        max_files: 1 + u32::from(plan.more_files),
        stem: Text::from_str(alloc, "out").ok()?,
    };
    shelf.fail_on(failing.call.0, failing.call.1).ok()?;
    let end = record_serial(alloc, sources, options, limits, shelf);
    let sources = end.sources.as_slice();
    Some(Ended {
        outcome: end.outcome,
        told: first_three(end.report.files.as_slice()),
        kept: [size(shelf, 0), size(shelf, 1), size(shelf, 2)],
        tracks: first_three(end.report.tracks.as_slice()),
        failed: [failed(sources, 0), failed(sources, 1), failed(sources, 2)],
    })
}

/// Records inputs, 1 to 16, where this fails.
pub(super) fn record(
    alloc: Global,
    inputs: &[&[u8]],
    plan: Plan,
    failing: Failing,
) -> Option<Ended> {
    let mut shelf = MemShelf::new(alloc, Vec::new(alloc));
    record_onto(alloc, inputs, plan, failing, &mut shelf)
}

/// That one input ended so, with closed files of these lengths.
pub(super) fn one(outcome: SerialOutcome, files: [u64; 3], samples: u64) -> Option<Ended> {
    Some(Ended {
        outcome,
        told: files,
        kept: files,
        tracks: [samples, NONE, NONE],
        failed: [0, NONE, NONE],
    })
}

/// An input of a small sample and of one of 70,000 bytes, which are read by themselves.
pub(super) fn halves(alloc: Global) -> Option<Bytes> {
    let mut input = Bytes::from_slice(alloc, &THREE[..50]).ok()?;
    let head = b"\x01\x01\0\0\0\0\0\0\0\x01\0\0\0\0\0\0\0\x01\0\x01\x11\x70";
    input.append(head).ok()?;
    let payload = vec![in alloc; 7u8; 70_000].ok()?;
    input.append(payload.as_slice()).ok()?;
    input.append(&[0]).ok()?;
    Some(input)
}
