//! Inputs that are refused.

use super::*;
use sf_avc::{ConfigFault, NalFault};
use sf_entry::{AscFault, SetupFault};
use sf_list::same;
use std::test::Fail;

/// The input with some bytes put in place of its own.
fn changed(changes: &[(usize, u8)]) -> [u8; 103] {
    let mut input = INPUT;
    for (at, byte) in changes {
        if let Some(place) = input.get_mut(*at) {
            *place = *byte;
        }
    }
    input
}

// The line of a refusal at a place.
fn line(alloc: Global, place: u64) -> Result<String, AllocError> {
    format!(in alloc; "input refused: track 0 at {place}\n")
}

#[test]
fn each_refusal_of_a_header_names_its_field_and_makes_no_file(rt: HostRuntime) -> Result<(), Fail> {
    let alloc = rt.alloc();
    let long = CodedFault::ConfigTooLong { len: 65_538 };
    let truncated = CodedFault::Truncated { at: 103 };
    let no_start = SetupFault::Avc(ConfigFault::Nal(NalFault::NoStart));
    let rows: [(&[(usize, u8)], InputFault, u64); 13] = [
        (&[(0, b'T')], InputFault::Coded(CodedFault::Magic), 0),
        (&[(3, b'T')], InputFault::Coded(CodedFault::Magic), 0),
        (&[(4, 1)], InputFault::Coded(CodedFault::Version(257)), 4),
        (&[(5, 0)], InputFault::Coded(CodedFault::Version(0)), 4),
        (&[(6, 1)], InputFault::Coded(CodedFault::KindCode(258)), 6),
        (&[(7, 0)], InputFault::Coded(CodedFault::KindCode(0)), 6),
        (&[(19, 1)], InputFault::Coded(long), 18),
        // A configuration of 258 bytes.
        (&[(20, 1)], InputFault::Coded(truncated), 103),
        // Video whose configuration has no start code; sound whose configuration is too short, names no
        // rate (index 13), or no channels.
        (&[(7, 1)], InputFault::Setup(no_start), 22),
        (
            &[(21, 1)],
            InputFault::Setup(SetupFault::Aac(AscFault::Truncated)),
            22,
        ),
        (
            &[(22, 0x16)],
            InputFault::Setup(SetupFault::Aac(AscFault::Index(13))),
            22,
        ),
        (
            &[(23, 0x80)],
            InputFault::Setup(SetupFault::Aac(AscFault::Channels(0))),
            22,
        ),
        // The setup is looked at after the whole header.
        (&[(7, 1), (20, 1)], InputFault::Coded(truncated), 103),
    ];
    for (changes, why, place) in rows {
        let ended = run_words(alloc, &["record", "a"], &changed(changes))?;
        let fault = TrackFault { why, place };
        ended.gives(
            Status::InputRefused { track: 0, fault },
            line(alloc, place)?.as_bytes(),
        )?;
        same((place, ended.shelf.file(0).is_none()), (place, true))?;
    }
    Ok(())
}

#[test]
fn what_does_not_matter_for_sound_is_not_looked_at(rt: HostRuntime) -> Result<(), Fail> {
    // Width and height, and the further bits of a record's flags.
    let rows: [&[(usize, u8)]; 3] = [&[(12, 1), (13, 1)], &[(14, 1), (15, 1)], &[(25, 255)]];
    for changes in rows {
        let ended = run_words(rt.alloc(), &["record", "a"], &changed(changes))?;
        ended.ends(Status::Done)?;
        same(only_size(&ended.shelf), Some(640))?;
    }
    Ok(())
}

#[test]
fn each_refusal_of_a_record_keeps_the_samples_before_it(rt: HostRuntime) -> Result<(), Fail> {
    let alloc = rt.alloc();
    let late = InputFault::Sample(SampleFault::TimeTooLarge);
    let empty = CodedFault::Empty { at: 24 };
    let long = CodedFault::TooLong {
        at: 24,
        len: 16_777_220,
    };
    // What is changed, the length, the fault, its place, and the size of the file of the samples before it.
    let rows: [(&[(usize, u8)], usize, InputFault, u64, usize); 12] = [
        (
            &[(24, 2)],
            103,
            InputFault::Coded(CodedFault::Tag { at: 24, tag: 2 }),
            24,
            604,
        ),
        (
            &[(50, 9)],
            103,
            InputFault::Coded(CodedFault::Tag { at: 50, tag: 9 }),
            50,
            632,
        ),
        (
            &[(102, 255)],
            103,
            InputFault::Coded(CodedFault::Tag { at: 102, tag: 255 }),
            102,
            640,
        ),
        (
            &[(50, 0)],
            103,
            InputFault::Coded(CodedFault::Trailing { at: 51 }),
            51,
            632,
        ),
        (&[(45, 0)], 103, InputFault::Coded(empty), 24, 604),
        (&[(42, 1)], 103, InputFault::Coded(long), 24, 604),
        // Later than 2^48 microseconds: decoded, or shown.
        (&[(53, 1)], 103, late, 50, 632),
        (&[(61, 1)], 103, late, 50, 632),
        // Decoded earlier than the one before, at 0 after 21333 microseconds.
        (
            &[(84, 0), (85, 0), (92, 0), (93, 0)],
            103,
            InputFault::Sample(SampleFault::Falls { last_us: 21_333 }),
            76,
            636,
        ),
        // The record's own refusals come before its sample's.
        (&[(27, 1), (45, 0)], 103, InputFault::Coded(empty), 24, 604),
        (
            &[(27, 1)],
            49,
            InputFault::Coded(CodedFault::Truncated { at: 49 }),
            49,
            604,
        ),
        (
            &[(43, 0x40)],
            103,
            InputFault::Coded(CodedFault::Truncated { at: 103 }),
            103,
            604,
        ),
    ];
    for (changes, length, why, place, size) in rows {
        let input = changed(changes);
        let ended = run_words(alloc, &["record", "a"], &input[..length])?;
        let fault = TrackFault { why, place };
        ended.gives(
            Status::InputRefused { track: 0, fault },
            line(alloc, place)?.as_bytes(),
        )?;
        same((place, only_size(&ended.shelf)), (place, Some(size)))?;
    }
    Ok(())
}

#[test]
fn times_are_taken_up_to_their_bound(rt: HostRuntime) -> Result<(), Fail> {
    // The samples, and the fault and its place, if any.
    let falls = InputFault::Sample(SampleFault::Falls { last_us: 5 });
    let late = InputFault::Sample(SampleFault::TimeTooLarge);
    let rows: [(&[(u64, u32)], Option<(InputFault, u64)>); 4] = [
        (&[(0, 1), (0, 1)], None),
        (&[(5, 1), (4, 1)], Some((falls, 47))),
        (&[(281_474_976_710_656, 1)], None),
        (&[(281_474_976_710_657, 1)], Some((late, 24))),
    ];
    for (samples, fault) in rows {
        let input = input_of(rt.alloc(), samples)?;
        let ended = run_words(rt.alloc(), &["record", "a"], &input)?;
        let status = match fault {
            None => Status::Done,
            Some((why, place)) => Status::InputRefused {
                track: 0,
                fault: TrackFault { why, place },
            },
        };
        ended.ends(status)?;
    }
    Ok(())
}

#[test]
fn nothing_follows_the_end(rt: HostRuntime) -> Result<(), Fail> {
    let mut input = [0; 104];
    input[..103].copy_from_slice(&INPUT);
    let ended = run_words(rt.alloc(), &["record", "a"], &input)?;
    let fault = TrackFault {
        why: InputFault::Coded(CodedFault::Trailing { at: 103 }),
        place: 103,
    };
    ended.gives(
        Status::InputRefused { track: 0, fault },
        b"input refused: track 0 at 103\n".as_slice(),
    )?;
    same(only_size(&ended.shelf), Some(640))?;
    Ok(())
}
