//! Calls on the outside that fail.

use super::*;
use sf_list::{holds, same};
use sf_world::{Shelf, Sink};
use std::test::Fail;

#[test]
fn a_name_that_is_not_there_makes_no_file(rt: HostRuntime) -> Result<(), Fail> {
    let ended = run_words(rt.alloc(), &["record", "b"], &INPUT)?;
    ended.gives(
        Status::OpenFault { input: 0 },
        b"cannot open input 0\n".as_slice(),
    )?;
    holds(ended.shelf.file(0).is_none())?;
    Ok(())
}

/// Three samples, of which the second is longer than two of the blocks through which an input is read.
/// The first read takes a block, the second one what lacks of the long payload, and the third one the
/// rest.
const LONG: [(u64, u32); 3] = [(0, 1), (21_333, 140_000), (42_667, 1)];

/// The file that is made of a whole input.
fn file_of(alloc: Global, samples: &[(u64, u32)]) -> Result<Ended, AllocError> {
    run_words(alloc, &["record", "a"], &input_of(alloc, samples)?)
}

// A file of one sample has 40 bytes in front of its samples and 588 behind them; with unequal sizes
// another 4 for each sample.
#[test]
fn each_read_of_the_input_fails(rt: HostRuntime) -> Result<(), Fail> {
    let alloc = rt.alloc();
    let words = words_of(alloc, &["record", "a"])?;
    let input = input_of(alloc, &LONG)?;
    let read = Status::ReadFault { input: 0 };
    let said = b"cannot read input 0\n".as_slice();
    // The failing read, the answer, the samples that are kept, the size of their file, and the text.
    let rows: [(u64, Status, &[(u64, u32)], Option<usize>, &[u8]); 4] = [
        (0, read, &LONG[..0], None, said),
        (1, read, &LONG[..1], Some(629), said),
        (2, read, &LONG[..2], Some(140_637), said),
        (
            3,
            Status::Done,
            &LONG,
            Some(140_642),
            b"file 1 140642\ntrack 0 3\ndone\n",
        ),
    ];
    for (failing, status, kept, size, lines) in rows {
        let mut inputs = inputs_of(alloc, &input, vec![in alloc; failing]?)?;
        let mut shelf = MemShelf::new(alloc, Vec::new(alloc));
        let mut text = MemText::new(alloc);
        let ended = run(alloc, &words, &mut inputs, &mut shelf, &mut text);
        same((failing, ended), (failing, status))?;
        same((failing, only_size(&shelf)), (failing, size))?;
        same(shelf.file(0).is_some(), size.is_some())?;
        if size.is_some() {
            // It is the file of a whole input of these samples.
            let whole = file_of(alloc, kept)?;
            same(whole.status, Status::Done)?;
            same(
                (failing, shelf.file(0) == whole.shelf.file(0)),
                (failing, true),
            )?;
        }
        same(text.bytes(), lines)?;
    }
    Ok(())
}

// The shelf fails too: to make the file, or at its last write.
#[test]
fn a_failing_write_is_told_before_a_failed_read_behind_the_header(
    rt: HostRuntime,
) -> Result<(), Fail> {
    let alloc = rt.alloc();
    let words = words_of(alloc, &["record", "a"])?;
    let input = input_of(alloc, &LONG)?;
    let rows = [
        (0, 0, Status::ReadFault { input: 0 }, None),
        (1, 0, Status::WriteFault, None),
        (1, 1, Status::WriteFault, Some(41)),
    ];
    for (failing, object, status, size) in rows {
        let mut inputs = inputs_of(alloc, &input, vec![in alloc; failing]?)?;
        let mut shelf = MemShelf::new(alloc, Vec::new(alloc));
        shelf.fail_on(object, if object == 0 { 0 } else { 2 })?;
        let mut text = MemText::new(alloc);
        let ended = run(alloc, &words, &mut inputs, &mut shelf, &mut text);
        same(ended, status)?;
        same(only_size(&shelf), size)?;
    }
    Ok(())
}

// The shelf is object 0 and the file object 1. The file gets 40 bytes in front of the samples, then
// 12 of samples, then the movie box. A shelf that fails to make the file keeps none.
#[test]
fn each_write_of_the_file_fails(rt: HostRuntime) -> Result<(), Fail> {
    let alloc = rt.alloc();
    let words = words_of(alloc, &["record", "a"])?;
    let rows = [
        (0, 0, None),
        (1, 0, Some(0)),
        (1, 1, Some(40)),
        (1, 2, Some(52)),
    ];
    for (object, call, size) in rows {
        // The failing write is told before the fault of the input.
        for input in [INPUT.as_slice(), &INPUT[..102]] {
            let mut inputs = inputs_of(alloc, input, Vec::new(alloc))?;
            let mut shelf = MemShelf::new(alloc, Vec::new(alloc));
            shelf.fail_on(object, call)?;
            let mut text = MemText::new(alloc);
            let status = run(alloc, &words, &mut inputs, &mut shelf, &mut text);
            same(status, Status::WriteFault)?;
            same(only_size(&shelf), size)?;
            same(text.bytes(), b"cannot write\n".as_slice())?;
        }
    }
    Ok(())
}

// A text is a sink, here one of another shelf, so that its first write can fail.
#[test]
fn a_failing_text_turns_only_the_answer_done(rt: HostRuntime) -> Result<(), Fail> {
    let alloc = rt.alloc();
    let words = words_of(alloc, &["record", "a"])?;
    let fault = TrackFault {
        why: InputFault::Coded(CodedFault::Truncated { at: 102 }),
        place: 102,
    };
    let rows = [
        (INPUT.as_slice(), Status::WriteFault),
        (&INPUT[..102], Status::InputRefused { track: 0, fault }),
    ];
    for (input, status) in rows {
        let mut inputs = inputs_of(alloc, input, Vec::new(alloc))?;
        let mut shelf = MemShelf::new(alloc, Vec::new(alloc));
        let mut texts = MemShelf::new(alloc, Vec::new(alloc));
        texts.fail_on(1, 0)?;
        let Ok(mut text) = texts.create("text") else {
            return Err(Fail::from(Status::NoMemory));
        };
        let ended = run(alloc, &words, &mut inputs, &mut shelf, &mut text);
        texts.keep(text);
        same(ended, status)?;
        same(only_size(&shelf), Some(640))?;
        same(only_size(&texts), Some(0))?;
    }
    Ok(())
}
