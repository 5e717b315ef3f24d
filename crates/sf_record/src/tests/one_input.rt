//! One input that is recorded into one file.

use super::ended::{Ended, Failing, NONE, NOTHING, PLAIN, THREE, halves, one, record, record_onto};
use crate::{InputFault, SerialOutcome, TrackFault};
use sf_avc::{ConfigFault, NalFault};
use sf_coded::CodedFault;
use sf_entry::{AscFault, SetupFault};
use sf_gather::SampleFault;
use sf_world::MemShelf;
use std::alloc::Global;

/// No samples, of sound of 48000 Hz.
const EMPTY: [u8; 25] = *b"SFCS\0\x01\0\x02\0\0\0\0\0\0\0\0\0\x02\0\0\0\x02\x11\x90\0";

/// No samples, of a million ticks a second.
const TICKS: [u8; 25] = *b"SFCS\0\x01\0\x02\0\x0F\x42\x40\0\0\0\0\0\x02\0\0\0\x02\x11\x90\0";

/// Samples at 0, 21333 and 21332 microseconds. The last one, at 76, is refused.
const STEPS_BACK: [u8; 103] = *b"SFCS\0\x01\0\x02\0\0\0\0\0\0\0\0\0\x02\0\0\0\x02\x11\x90\
    \x01\x01\0\0\0\0\0\0\0\0\0\0\0\0\0\0\0\0\0\0\0\x04\x21\x10\x04\x60\
    \x01\x01\0\0\0\0\0\0\x53\x55\0\0\0\0\0\0\x53\x55\0\0\0\x04\x21\x10\x04\x60\
    \x01\x01\0\0\0\0\0\0\x53\x54\0\0\0\0\0\0\x53\x54\0\0\0\x04\x21\x10\x04\x60\
    \0";

/// Samples at 0, 21333 and 42667 microseconds. The last one isn't a sync sample, and is shown at 64000.
const SHOWN_LATER: [u8; 103] = *b"SFCS\0\x01\0\x02\0\0\0\0\0\0\0\0\0\x02\0\0\0\x02\x11\x90\
    \x01\x01\0\0\0\0\0\0\0\0\0\0\0\0\0\0\0\0\0\0\0\x04\x21\x10\x04\x60\
    \x01\x01\0\0\0\0\0\0\x53\x55\0\0\0\0\0\0\x53\x55\0\0\0\x04\x21\x10\x04\x60\
    \x01\0\0\0\0\0\0\0\xa6\xab\0\0\0\0\0\0\xfa\0\0\0\0\x04\x01\x02\x03\x04\
    \0";

/// The answer for an input that is refused.
fn refused(why: InputFault, place: u64) -> SerialOutcome {
    let fault = TrackFault { why, place };
    SerialOutcome::Refused { track: 0, fault }
}

/// An input, the answer, and the length of the file and its samples.
type Row<'a> = (&'a [u8], SerialOutcome, u64, u64);

/// How many rows are recorded so before the first that isn't.
fn recorded(alloc: Global, rows: &[Row<'_>]) -> usize {
    for i in 0..rows.len() {
        let (input, outcome, size, samples) = rows[i];
        let wanted = one(outcome, [size, NONE, NONE], samples);
        if record(alloc, &[input], PLAIN, NOTHING) != wanted {
            return i;
        }
    }
    rows.len()
}

#[test]
fn an_input_is_recorded_up_to_its_end_or_its_fault(rt: HostRuntime) {
    let falls = refused(
        InputFault::Sample(SampleFault::Falls { last_us: 21_333 }),
        76,
    );
    let rows: [Row<'_>; 4] = [
        (&THREE, SerialOutcome::Done, 640, 3),
        (&EMPTY, SerialOutcome::Done, 604, 0),
        // 4 bytes less of samples. The last delta is that of the one before it, so there is one run of deltas in either file.
        (&STEPS_BACK, falls, 636, 2),
        // 640 bytes, a composition offset box of two runs (16 + 16), and a sync sample box of two (16 + 8).
        (&SHOWN_LATER, SerialOutcome::Done, 696, 3),
    ];
    assert_eq!(rt; recorded(rt.alloc(), &rows), 4);
}

// Each header has one byte that differs.
#[test]
fn a_header_that_is_refused_gives_no_file(rt: HostRuntime) {
    let magic = refused(InputFault::Coded(CodedFault::Magic), 0);
    let start = refused(
        InputFault::Setup(SetupFault::Avc(ConfigFault::Nal(NalFault::NoStart))),
        22,
    );
    let index = refused(InputFault::Setup(SetupFault::Aac(AscFault::Index(13))), 22);
    let channels = refused(
        InputFault::Setup(SetupFault::Aac(AscFault::Channels(0))),
        22,
    );
    let rows: [Row<'_>; 4] = [
        (
            b"TFCS\0\x01\0\x02\0\0\0\0\0\0\0\0\0\x02\0\0\0\x02\x11\x90\0",
            magic,
            NONE,
            0,
        ),
        (
            b"SFCS\0\x01\0\x01\0\0\0\0\0\0\0\0\0\x02\0\0\0\x02\x11\x90\0",
            start,
            NONE,
            0,
        ),
        // The frequency index 13, and no channels.
        (
            b"SFCS\0\x01\0\x02\0\0\0\0\0\0\0\0\0\x02\0\0\0\x02\x16\x90\0",
            index,
            NONE,
            0,
        ),
        (
            b"SFCS\0\x01\0\x02\0\0\0\0\0\0\0\0\0\x02\0\0\0\x02\x11\x80\0",
            channels,
            NONE,
            0,
        ),
    ];
    assert_eq!(rt; recorded(rt.alloc(), &rows), 4);
}

// The first read is that of the header and of the first sample, and the second one that of the other sample.
#[test]
fn a_failed_read_ends_the_file_before_it(rt: HostRuntime) {
    let alloc = rt.alloc();
    let wanted = Ended {
        outcome: SerialOutcome::ReadFault { input: 0 },
        told: [632, NONE, NONE],
        kept: [632, NONE, NONE],
        tracks: [1, NONE, NONE],
        failed: [1, NONE, NONE],
    };
    let failing = Failing {
        read: (0, 1),
        ..NOTHING
    };
    if let Some(input) = halves(alloc) {
        let end = record(alloc, &[input.as_slice()], PLAIN, failing);
        assert_eq!(rt; end, Some(wanted));
    }
}

/// Whether the one file of an input without samples, of 604 bytes, has these ticks a second. They stand at 284: after the
/// file type box (24), the media data box (16), the heads of the movie, track and media boxes (8 each), the movie header
/// (108) and the track header (92), and 20 bytes into the media header.
fn has_ticks(alloc: Global, input: &[u8], ticks: [u8; 4]) -> bool {
    let mut shelf = MemShelf::new(alloc, Vec::new(alloc));
    let end = record_onto(alloc, &[input], PLAIN, NOTHING, &mut shelf);
    if end != one(SerialOutcome::Done, [604, NONE, NONE], 0) {
        return false;
    }
    match shelf.file(0) {
        Some(file) => file.len() == 604 && &file[284..288] == ticks.as_slice(),
        None => false,
    }
}

#[test]
fn an_input_may_name_its_ticks(rt: HostRuntime) {
    assert!(rt; has_ticks(rt.alloc(), &EMPTY, [0, 0, 0xBB, 0x80]));
    assert!(rt; has_ticks(rt.alloc(), &TICKS, [0, 0x0F, 0x42, 0x40]));
}
