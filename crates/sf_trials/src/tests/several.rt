//! Recordings of several inputs.
//!
//! A file has 40 bytes in front of its samples. After them the movie box has 140 bytes, and for each track of sound that
//! begins with the file another 448, of which 24 tell of its one chunk.

use super::*;
use sf_list::{holds, same};
use std::test::Fail;

/// Inputs by their names, whose reads with the failing numbers fail, each source counting by itself.
fn named_inputs(
    alloc: Global,
    inputs: &[(&str, &[u8])],
    failing: Vec<u64>,
) -> Result<MemInputs, AllocError> {
    let mut named = Vec::new(alloc);
    for (name, bytes) in inputs {
        named.push((
            Text::from_str(alloc, name)?,
            Bytes::from_slice(alloc, bytes)?,
        ))?;
    }
    Ok(MemInputs::new(alloc, named, failing))
}

/// Runs the words where these inputs are there, and `read`, a read of each of them, fails.
pub(super) fn run_named(
    alloc: Global,
    words: &[&str],
    inputs: &[(&str, &[u8])],
    read: u64,
) -> Result<Ended, AllocError> {
    let words = words_of(alloc, words)?;
    let mut inputs = named_inputs(alloc, inputs, vec![in alloc; read]?)?;
    let mut shelf = MemShelf::new(alloc, Vec::new(alloc));
    let mut text = MemText::new(alloc);
    let status = run(alloc, &words, &mut inputs, &mut shelf, &mut text);
    Ok(Ended {
        status,
        shelf,
        text,
    })
}

/// The number that no read has.
pub(super) const NEVER: u64 = u64::MAX;

#[test]
fn the_first_input_that_is_not_there_is_told(rt: HostRuntime) -> Result<(), Fail> {
    let inputs: [(&str, &[u8]); 2] = [("a", &INPUT), ("b", &INPUT)];
    let rows: [(&[&str], u32, &[u8]); 3] = [
        (&["record", "c", "a"], 0, b"cannot open input 0\n"),
        (&["record", "a", "c"], 1, b"cannot open input 1\n"),
        (&["record", "a", "b", "c", "d"], 2, b"cannot open input 2\n"),
    ];
    for (words, input, lines) in rows {
        let ended = run_named(rt.alloc(), words, &inputs, NEVER)?;
        ended.gives(Status::OpenFault { input }, lines)?;
        holds(ended.shelf.file(0).is_none())?;
    }
    Ok(())
}

// The second input is cut within its header, and the third one after its first sample.
#[test]
fn a_refused_input_is_told_by_its_number(rt: HostRuntime) -> Result<(), Fail> {
    let inputs: [(&str, &[u8]); 3] = [("a", &INPUT), ("b", &INPUT[..7]), ("c", &INPUT[..50])];
    let rows: [(&[&str], u32, u64, Option<usize>, &[u8]); 3] = [
        (
            &["record", "a", "b"],
            1,
            7,
            None,
            b"input refused: track 1 at 7\n",
        ),
        (
            &["record", "c", "a", "b"],
            2,
            7,
            None,
            b"input refused: track 2 at 7\n",
        ),
        (
            &["record", "a", "c"],
            1,
            50,
            Some(1092),
            b"input refused: track 1 at 50\n",
        ),
    ];
    for (words, track, at, size, lines) in rows {
        let ended = run_named(rt.alloc(), words, &inputs, NEVER)?;
        let fault = TrackFault {
            why: InputFault::Coded(CodedFault::Truncated { at }),
            place: at,
        };
        ended.gives(Status::InputRefused { track, fault }, lines)?;
        same(only_size(&ended.shelf), size)?;
    }
    Ok(())
}

// A small input takes one read. In the long one the first read takes a block, and the second one what is missing of the
// second sample.
#[test]
fn a_failed_read_is_told_by_the_number_of_its_input(rt: HostRuntime) -> Result<(), Fail> {
    let alloc = rt.alloc();
    let long = input_of(alloc, &[(0, 4), (21_333, 140_000), (42_667, 4)])?;
    let inputs: [(&str, &[u8]); 2] = [("a", &INPUT), ("b", &long)];
    let rows: [(&[&str], u64, u32, Option<usize>, &[u8]); 3] = [
        (&["record", "a", "b"], 0, 0, None, b"cannot read input 0\n"),
        (
            &["record", "a", "b"],
            1,
            1,
            Some(1092),
            b"cannot read input 1\n",
        ),
        (
            &["record", "b", "a"],
            1,
            0,
            Some(1092),
            b"cannot read input 0\n",
        ),
    ];
    for (words, read, input, size, lines) in rows {
        let ended = run_named(alloc, words, &inputs, read)?;
        ended.gives(Status::ReadFault { input }, lines)?;
        same(only_size(&ended.shelf), size)?;
    }
    Ok(())
}

// The shelf is object 0 and the file object 1, which gets 40 bytes in front of the samples, then a chunk of each track,
// then the movie box.
#[test]
fn each_call_of_the_shelf_fails(rt: HostRuntime) -> Result<(), Fail> {
    let alloc = rt.alloc();
    let words = words_of(alloc, &["record", "a", "b"])?;
    let rows = [
        (0, 0, None),
        (1, 0, Some(0)),
        (1, 1, Some(40)),
        (1, 2, Some(52)),
        (1, 3, Some(64)),
    ];
    for (object, call, size) in rows {
        let mut inputs = named_inputs(alloc, &[("a", &INPUT), ("b", &INPUT)], Vec::new(alloc))?;
        let mut shelf = MemShelf::new(alloc, Vec::new(alloc));
        shelf.fail_on(object, call)?;
        let mut text = MemText::new(alloc);
        let status = run(alloc, &words, &mut inputs, &mut shelf, &mut text);
        same((object, call, status), (object, call, Status::WriteFault))?;
        same((object, call, only_size(&shelf)), (object, call, size))?;
        same(text.bytes(), b"cannot write\n".as_slice())?;
    }
    Ok(())
}
