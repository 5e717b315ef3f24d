//! Plans that are read out of a movie into dumps.

use super::*;
use sf_box::BoxFault;
use sf_handmade::{SOUND, VIDEO};
use sf_list::{holds, same};
use std::test::Fail;

/// The record of the second sample of the file: track 0, sync, its time, and four bytes.
const SECOND: [u8; 25] = *b"\x01\0\0\0\0\0\0\0\x01\0\0\0\0\0\0\x53\x55\0\0\0\x04!\x10\x04`";

/// The length of a file of a shelf.
fn len_of(shelf: &MemShelf, number: u32) -> Option<usize> {
    Some(shelf.file(number)?.len())
}

/// What `s0,r,a,r` reads out of the file.
const WALKED: [u8; 52] = *b"\x01\0\0\0\0\0\0\0\x01\0\0\0\0\0\0\0\0\0\0\0\x04!\x10\x04`\x02\x01\
    \x01\0\0\0\0\0\0\0\x01\0\0\0\0\0\0\x53\x55\0\0\0\x04!\x10\x04`";

/// What an extraction is asked, its first two dumps, and what it says.
type Dumps = (
    &'static [&'static str],
    [Option<&'static [u8]>; 2],
    &'static [u8],
);

// Two plans on one movie don't touch each other, and one that reads where nothing is selected reads the end.
#[test]
fn each_plan_is_read_out_into_a_dump(rt: HostRuntime) -> Result<(), Fail> {
    let rows: [Dumps; 3] = [
        (
            &["extract", "a", "s0,r,a,r"],
            [Some(&WALKED), None],
            b"dump 1 52\ndone\n",
        ),
        (
            &["extract", "a", "s0,p30000,r", "s0,r,a,r"],
            [Some(&SECOND), Some(&WALKED)],
            b"dump 1 25\ndump 2 52\ndone\n",
        ),
        (
            &["extract", "a", "u0,a", "s0,n42667,e"],
            [Some(b"\x02\0"), Some(b"\0")],
            b"dump 1 2\ndump 2 1\ndone\n",
        ),
    ];
    for (words, [first, second], lines) in rows {
        let ended = run_words(rt.alloc(), words, &SOUND)?;
        ended.gives(Status::Done, lines)?;
        holds(ended.shelf.file(0) == first)?;
        holds(ended.shelf.file(1) == second)?;
    }
    Ok(())
}

/// What an extraction is asked, what it answers and says, and how long the first two dumps are.
type Row = (
    &'static [&'static str],
    &'static [u8],
    Status,
    &'static [u8],
    [Option<usize>; 2],
);

const MISSING: Status = Status::PlanRefused {
    reader: 1,
    command: 1,
};

const REFUSED: Status = Status::SampleRefused {
    reader: 1,
    track: 0,
    sample: 0,
    at: 0,
};

// A plan goes on where a sample of another one is refused; the two units of the second sample are handed out after start
// codes, 12 bytes in a record of 33.
#[test]
fn each_refusal_is_told_with_its_place(rt: HostRuntime) -> Result<(), Fail> {
    let cut = Status::MovieRefused(MovieFault::Tiling(BoxFault::Overrun { at: 52, size: 588 }));
    let rows: [Row; 5] = [
        (
            &["extract", "b", "r"],
            &SOUND,
            Status::OpenFault { input: 0 },
            b"cannot open input 0\n",
            [None, None],
        ),
        (
            &["extract", "a", "s9"],
            &SOUND[..639],
            cut,
            b"movie refused\n",
            [None, None],
        ),
        (
            &["extract", "a", "r", "s0,s1", "u1"],
            &SOUND,
            MISSING,
            b"plan refused: reader 1 command 1\n",
            [None, None],
        ),
        (
            &["extract", "a", "s0,a,r", "r,s0,r,e"],
            &VIDEO,
            REFUSED,
            b"sample refused: reader 1 track 0 sample 0 at 0\n",
            [Some(35), Some(1)],
        ),
        (
            &["extract", "a", "s0,r", "s0,a,r"],
            &VIDEO,
            Status::SampleRefused {
                reader: 0,
                track: 0,
                sample: 0,
                at: 0,
            },
            b"sample refused: reader 0 track 0 sample 0 at 0\n",
            [Some(0), Some(35)],
        ),
    ];
    for (words, input, status, line, sizes) in rows {
        let ended = run_words(rt.alloc(), words, input)?;
        ended.gives(status, line)?;
        same([len_of(&ended.shelf, 0), len_of(&ended.shelf, 1)], sizes)?;
    }
    Ok(())
}

/// Runs two plans over a movie, of which the read of a number fails, and of the shelf's objects the call of another: the
/// answer, and how long the dumps are. The shelf is object 0.
fn failing(
    alloc: Global,
    read: u64,
    object: u32,
    call: u64,
) -> Result<(Status, [Option<usize>; 2]), AllocError> {
    let words = words_of(alloc, &["extract", "a", "s0,r,a,r", "r"])?;
    let mut inputs = inputs_of(alloc, &SOUND, vec![in alloc; read]?)?;
    let mut shelf = MemShelf::new(alloc, Vec::new(alloc));
    shelf.fail_on(object, call)?;
    let mut text = MemText::new(alloc);
    let status = run(alloc, &words, &mut inputs, &mut shelf, &mut text);
    Ok((status, [len_of(&shelf, 0), len_of(&shelf, 1)]))
}

/// The number that no call has.
const NEVER: u64 = u64::MAX;

const UNREAD: Status = Status::ReadFault { input: 0 };

// The movie takes four reads, and each sample one. The later plan is read out also where a read of the first one failed, or
// a write; where the second dump isn't made the first one is. A failed write of a later plan is told after a failed read.
#[test]
fn each_call_fails_in_turn(rt: HostRuntime) -> Result<(), Fail> {
    let rows = [
        (0, 0, NEVER, UNREAD, [None, None]),
        (1, 0, NEVER, UNREAD, [None, None]),
        (2, 0, NEVER, UNREAD, [None, None]),
        (3, 0, NEVER, UNREAD, [None, None]),
        (4, 0, NEVER, UNREAD, [Some(0), Some(1)]),
        (5, 0, NEVER, UNREAD, [Some(27), Some(1)]),
        (6, 0, NEVER, Status::Done, [Some(52), Some(1)]),
        (NEVER, 0, 0, Status::WriteFault, [None, None]),
        (NEVER, 0, 1, Status::WriteFault, [Some(52), None]),
        (NEVER, 1, 0, Status::WriteFault, [Some(0), Some(1)]),
        (NEVER, 2, 0, Status::WriteFault, [Some(52), Some(0)]),
        (NEVER, 2, 1, Status::Done, [Some(52), Some(1)]),
        (4, 2, 0, UNREAD, [Some(0), Some(0)]),
    ];
    for (read, object, call, status, sizes) in rows {
        same(failing(rt.alloc(), read, object, call)?, (status, sizes))?;
    }
    Ok(())
}

// A dump is written in blocks of 65,536 bytes or more: here a record of 70,021 bytes, and then the byte after it.
#[test]
fn a_long_dump_is_written_in_blocks(rt: HostRuntime) -> Result<(), Fail> {
    let alloc = rt.alloc();
    let recorded = run_words(alloc, &["record", "a"], &input_of(alloc, &[(0, 70_000)])?)?;
    let Some(file) = recorded.shelf.file(0) else {
        return Err(Fail::from(recorded.status));
    };
    let words = words_of(alloc, &["extract", "a", "s0,e"])?;
    let rows = [
        (0, Status::WriteFault, 0),
        (1, Status::WriteFault, 70_021),
        (2, Status::Done, 70_022),
    ];
    for (call, status, size) in rows {
        let mut inputs = inputs_of(alloc, file, Vec::new(alloc))?;
        let mut shelf = MemShelf::new(alloc, Vec::new(alloc));
        shelf.fail_on(1, call)?;
        let mut text = MemText::new(alloc);
        let ended = run(alloc, &words, &mut inputs, &mut shelf, &mut text);
        same(ended, status)?;
        same(only_size(&shelf), Some(size))?;
    }
    Ok(())
}
