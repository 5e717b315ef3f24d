//! Inputs that are recorded whole, and inputs that end too early.

use super::*;
use sf_handmade::SOUND;
use sf_list::{holds, same};
use std::test::Fail;

/// The sizes of files of no sample, and of one, two and three samples of four bytes in one chunk.
const SIZES: [usize; 4] = [604, 632, 636, 640];

#[test]
fn an_input_is_recorded_into_one_file(rt: HostRuntime) -> Result<(), Fail> {
    let ended = run_words(rt.alloc(), &["record", "a"], &INPUT)?;
    ended.ends(Status::Done)?;
    holds(ended.shelf.file(0) == Some(SOUND.as_slice()))?;
    holds(ended.shelf.file(1).is_none())?;
    same(
        ended.text.bytes(),
        b"file 1 640\ntrack 0 3\ndone\n".as_slice(),
    )?;
    Ok(())
}

#[test]
fn an_input_without_records_gives_empty_tables(rt: HostRuntime) -> Result<(), Fail> {
    let mut input = [0; 25];
    input[..24].copy_from_slice(&INPUT[..24]);
    let ended = run_words(rt.alloc(), &["record", "a"], &input)?;
    ended.gives(Status::Done, b"file 1 604\ntrack 0 0\ndone\n".as_slice())?;
    same(only_size(&ended.shelf), Some(604))?;
    Ok(())
}

// A file that ends at a length below 24 has no whole header, and no file is made. Behind that, its
// records of 26 bytes up to there are kept.
#[test]
fn an_input_that_ends_too_early_is_refused_at_its_length(rt: HostRuntime) -> Result<(), Fail> {
    for length in 0..103usize {
        let ended = run_words(rt.alloc(), &["record", "a"], &INPUT[..length])?;
        let at = length as u64;
        let fault = TrackFault {
            why: InputFault::Coded(CodedFault::Truncated { at }),
            place: at,
        };
        same(
            (length, ended.status),
            (length, Status::InputRefused { track: 0, fault }),
        )?;
        let size = if length < 24 {
            None
        } else {
            SIZES.get((length - 24) / 26).copied()
        };
        same((length, only_size(&ended.shelf)), (length, size))?;
        same(
            (length, ended.shelf.file(0).is_some()),
            (length, length >= 24),
        )?;
    }
    Ok(())
}
