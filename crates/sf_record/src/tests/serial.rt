//! Several inputs that are recorded into a series of files on one thread.

use super::ended::{
    Ended, Failing, NONE, NOTHING, PLAIN, Plan, THREE, bounded, halves, one, record,
};
use crate::{InputFault, SerialOutcome, TrackFault};
use sf_coded::CodedFault;
use sf_gather::SampleFault;
use sf_series::LimitShown;
use std::alloc::Global;

/// Sound of 48000 Hz with one sample, at 1500000 microseconds.
const LATE: [u8; 51] = *b"SFCS\0\x01\0\x02\0\0\0\0\0\0\0\0\0\x02\0\0\0\x02\x11\x90\
    \x01\x01\0\0\0\0\0\x16\xe3\x60\0\0\0\0\0\x16\xe3\x60\0\0\0\x04\x21\x10\x04\x60\
    \0";

/// The same with samples at 0 and 1000000 microseconds.
const APART: [u8; 77] = *b"SFCS\0\x01\0\x02\0\0\0\0\0\0\0\0\0\x02\0\0\0\x02\x11\x90\
    \x01\x01\0\0\0\0\0\0\0\0\0\0\0\0\0\0\0\0\0\0\0\x04\x21\x10\x04\x60\
    \x01\x01\0\0\0\0\0\x0f\x42\x40\0\0\0\0\0\x0f\x42\x40\0\0\0\x04\x21\x10\x04\x60\
    \0";

/// The same with samples at 1 and 0 microseconds. The second one, at 50, is refused.
const FALLING: [u8; 77] = *b"SFCS\0\x01\0\x02\0\0\0\0\0\0\0\0\0\x02\0\0\0\x02\x11\x90\
    \x01\x01\0\0\0\0\0\0\0\x01\0\0\0\0\0\0\0\x01\0\0\0\x04\x21\x10\x04\x60\
    \x01\x01\0\0\0\0\0\0\0\0\0\0\0\0\0\0\0\0\0\0\0\x04\x21\x10\x04\x60\
    \0";

#[test]
fn a_file_of_just_the_most_bytes_is_taken(rt: HostRuntime) {
    let wanted = one(SerialOutcome::Done, [648, NONE, NONE], 3);
    assert_eq!(rt;
        record(rt.alloc(), &[&THREE], bounded(648, 0), NOTHING),
        wanted
    );
}

// The third chunk doesn't go in.
#[test]
fn a_chunk_that_passes_the_most_bytes_is_told(rt: HostRuntime) {
    let limit = LimitShown::Size {
        track: 0,
        sample: 2,
        would_be: 648,
        max: 647,
    };
    let wanted = one(SerialOutcome::Limit(limit), [640, NONE, NONE], 2);
    assert_eq!(rt;
        record(rt.alloc(), &[&THREE], bounded(647, 0), NOTHING),
        wanted
    );
}

#[test]
fn a_chunk_that_passes_the_most_bytes_begins_the_next_file(rt: HostRuntime) {
    let wanted = one(SerialOutcome::Done, [632, 640, NONE], 3);
    assert_eq!(rt;
        record(rt.alloc(), &[&THREE], bounded(647, 1), NOTHING),
        wanted
    );
}

/// One chunk of three samples in a file of at most so many bytes.
fn whole(alloc: Global, max_bytes: u32) -> Option<Ended> {
    let plan = Plan { max_bytes, ..PLAIN };
    record(alloc, &[&THREE], plan, NOTHING)
}

#[test]
fn a_first_chunk_may_meet_a_limit(rt: HostRuntime) {
    let limit = LimitShown::Size {
        track: 0,
        sample: 0,
        would_be: 640,
        max: 639,
    };
    let wanted = one(SerialOutcome::Limit(limit), [604, NONE, NONE], 0);
    assert_eq!(rt; whole(rt.alloc(), 639), wanted);
}

#[test]
fn an_empty_file_may_meet_a_limit(rt: HostRuntime) {
    let limit = LimitShown::Nothing {
        would_be: 604,
        max: 603,
    };
    let wanted = one(SerialOutcome::Limit(limit), [NONE; 3], 0);
    assert_eq!(rt; whole(rt.alloc(), 603), wanted);
}

/// The answer, the samples of the first tracks, whether there is a first file and a second one, and the failed reads.
type Told = (SerialOutcome, [u64; 3], [bool; 2], [u64; 3]);

fn told(end: Option<Ended>) -> Option<Told> {
    let end = end?;
    let files = [end.kept[0] != NONE, end.kept[1] != NONE];
    Some((end.outcome, end.tracks, files, end.failed))
}

#[test]
fn two_inputs_are_tracks_of_one_file(rt: HostRuntime) {
    let end = told(record(rt.alloc(), &[&THREE, &LATE], PLAIN, NOTHING));
    let wanted = (
        SerialOutcome::Done,
        [3, 1, NONE],
        [true, false],
        [0, 0, NONE],
    );
    assert_eq!(rt; end, Some(wanted));
}

// The second file begins with the second chunk of the first track, a second after the start of the first file.
#[test]
fn a_file_ends_with_its_duration(rt: HostRuntime) {
    let plan = Plan {
        interleave_us: 500_000,
        max_bytes: 0,
        max_duration_us: 1_000_000,
        more_files: 1,
    };
    let end = told(record(rt.alloc(), &[&APART, &LATE], plan, NOTHING));
    let wanted = (
        SerialOutcome::Done,
        [2, 1, NONE],
        [true, true],
        [0, 0, NONE],
    );
    assert_eq!(rt; end, Some(wanted));
}

/// The answer for a track with a sample that falls.
fn falls(track: u32) -> SerialOutcome {
    let why = InputFault::Sample(SampleFault::Falls { last_us: 1 });
    let fault = TrackFault { why, place: 50 };
    SerialOutcome::Refused { track, fault }
}

// The other tracks are recorded whole, and of this one the sample before.
#[test]
fn the_lowest_fault_is_told(rt: HostRuntime) {
    let inputs: [&[u8]; 3] = [&THREE, &FALLING, &FALLING];
    let end = told(record(rt.alloc(), &inputs, PLAIN, NOTHING));
    let wanted = (falls(1), [3, 1, 1], [true, false], [0, 0, 0]);
    assert_eq!(rt; end, Some(wanted));
}

// The second and the third input are cut within their headers.
#[test]
fn headers_are_read_before_a_file_is_made(rt: HostRuntime) {
    let inputs: [&[u8]; 3] = [&THREE, &THREE[..7], &THREE[..6]];
    let end = told(record(rt.alloc(), &inputs, PLAIN, NOTHING));
    let why = InputFault::Coded(CodedFault::Truncated { at: 7 });
    let fault = TrackFault { why, place: 7 };
    let outcome = SerialOutcome::Refused { track: 1, fault };
    let wanted = (outcome, [0; 3], [false; 2], [0; 3]);
    assert_eq!(rt; end, Some(wanted));
}

/// Two inputs of a small sample and of one that is read by itself. This read of an input fails.
fn record_halves(alloc: Global, number: usize, read: u64) -> Option<Told> {
    let input = halves(alloc)?;
    let failing = Failing {
        read: (number, read),
        ..NOTHING
    };
    let inputs: [&[u8]; 2] = [input.as_slice(), input.as_slice()];
    told(record(alloc, &inputs, PLAIN, failing))
}

// The first read is that of the header.
#[test]
fn a_failed_read_of_a_header_gives_no_file(rt: HostRuntime) {
    let first = (
        SerialOutcome::ReadFault { input: 0 },
        [0, 0, NONE],
        [false; 2],
        [1, 0, NONE],
    );
    assert_eq!(rt; record_halves(rt.alloc(), 0, 0), Some(first));
    let second = (
        SerialOutcome::ReadFault { input: 1 },
        [0, 0, NONE],
        [false; 2],
        [0, 1, NONE],
    );
    assert_eq!(rt; record_halves(rt.alloc(), 1, 0), Some(second));
}

// The other input is recorded whole.
#[test]
fn a_failed_read_ends_its_track(rt: HostRuntime) {
    let first = (
        SerialOutcome::ReadFault { input: 0 },
        [1, 2, NONE],
        [true, false],
        [1, 0, NONE],
    );
    assert_eq!(rt; record_halves(rt.alloc(), 0, 1), Some(first));
    let second = (
        SerialOutcome::ReadFault { input: 1 },
        [2, 1, NONE],
        [true, false],
        [0, 1, NONE],
    );
    assert_eq!(rt; record_halves(rt.alloc(), 1, 1), Some(second));
}

/// Records two files, of one and of two chunks, where a call of an object fails. How many files are kept then, where a
/// failed write is told.
fn kept_after(alloc: Global, object: u32, call: u64) -> Option<usize> {
    let failing = Failing {
        call: (object, call),
        ..NOTHING
    };
    let end = record(alloc, &[&THREE], bounded(647, 1), failing)?;
    if end.outcome != SerialOutcome::WriteFault {
        return None;
    }
    let [first, second, third] = end.kept;
    Some(usize::from(first != NONE) + usize::from(second != NONE) + usize::from(third != NONE))
}

// The shelf's two creates; then of each file the head, its chunks, the movie box, and the size of the media data box.
#[test]
fn each_failing_call_of_a_shelf_ends_the_files(rt: HostRuntime) {
    let alloc = rt.alloc();
    let creates = [kept_after(alloc, 0, 0), kept_after(alloc, 0, 1)];
    assert_eq!(rt; creates, [Some(0), Some(1)]);
    let first = [kept_after(alloc, 1, 0), kept_after(alloc, 1, 1)];
    assert_eq!(rt; first, [Some(1); 2]);
    let closing = [kept_after(alloc, 1, 2), kept_after(alloc, 1, 3)];
    assert_eq!(rt; closing, [Some(1); 2]);
    let second = [
        kept_after(alloc, 2, 0),
        kept_after(alloc, 2, 1),
        kept_after(alloc, 2, 2),
    ];
    assert_eq!(rt; second, [Some(2); 3]);
    let closing = [kept_after(alloc, 2, 3), kept_after(alloc, 2, 4)];
    assert_eq!(rt; closing, [Some(2); 2]);
}

#[test]
fn sixteen_inputs_are_recorded_at_once(rt: HostRuntime) {
    let inputs: [&[u8]; 16] = [&APART; 16];
    let end = told(record(rt.alloc(), &inputs, PLAIN, NOTHING));
    let wanted = (SerialOutcome::Done, [2; 3], [true, false], [0; 3]);
    assert_eq!(rt; end, Some(wanted));
}
