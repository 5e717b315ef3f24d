//! Readers run one after the other.

use super::*;

const FIRST: &[u8] = b"\x01\0\0\0\0\0\0\0\x01\0\0\0\0\0\0\0\0\0\0\0\x04\x21\x10\x04\x60";

const SECOND: &[u8] = b"\x01\0\0\0\0\0\0\0\x01\0\0\0\0\0\0\x53\x55\0\0\0\x04\x21\x10\x04\x60";

#[test]
fn two_readers_make_a_dump_each(rt: HostRuntime) -> Result<(), Fail> {
    let alloc = rt.alloc();
    let mut shelf = MemShelf::new(alloc, Vec::new(alloc));
    let end = extracted(
        alloc,
        &["s0,r,a,r", "r"],
        &SOUND,
        Vec::new(alloc),
        &mut shelf,
    )?;
    assert_eq!(rt; end.outcome, ExtractOutcome::Done);
    assert_eq!(rt; end.dumps.as_slice(), [52, 1].as_slice());
    let mut first = Bytes::from_slice(alloc, FIRST)?;
    first.append(b"\x02\x01")?;
    first.append(SECOND)?;
    assert!(rt; is_dump(&shelf, 0, first.as_slice()));
    assert!(rt; is_dump(&shelf, 1, b"\0"));
    assert_eq!(rt; len_of(&shelf, 2), None);
    Ok(())
}

#[test]
fn a_missing_track_makes_no_dump(rt: HostRuntime) -> Result<(), Fail> {
    let alloc = rt.alloc();
    let mut shelf = MemShelf::new(alloc, Vec::new(alloc));
    let end = extracted(alloc, &["r", "s0,s5"], &SOUND, Vec::new(alloc), &mut shelf)?;
    let missing = ExtractOutcome::NoTrack {
        reader: 1,
        command: 1,
    };
    assert_eq!(rt; end.outcome, missing);
    assert!(rt; end.dumps.is_empty());
    assert_eq!(rt; len_of(&shelf, 0), None);
    Ok(())
}

// How it goes where the read of a number fails, and how long the first dump is.
fn with_failing_read(alloc: Global, number: u64) -> Result<(ExtractOutcome, Option<usize>), Fail> {
    let mut shelf = MemShelf::new(alloc, Vec::new(alloc));
    let failing = vec![in alloc; number]?;
    let end = extracted(alloc, &["s0,r,a,r", "r"], &SOUND, failing, &mut shelf)?;
    Ok((end.outcome, len_of(&shelf, 0)))
}

// The movie takes four reads, and each sample one.
#[test]
fn each_read_fails_in_turn(rt: HostRuntime) -> Result<(), Fail> {
    let alloc = rt.alloc();
    let fault = ExtractOutcome::ReadFault;
    let done = ExtractOutcome::Done;
    assert_eq!(rt; with_failing_read(alloc, 0)?, (fault, None));
    assert_eq!(rt; with_failing_read(alloc, 3)?, (fault, None));
    assert_eq!(rt; with_failing_read(alloc, 4)?, (fault, Some(0)));
    assert_eq!(rt; with_failing_read(alloc, 5)?, (fault, Some(27)));
    assert_eq!(rt; with_failing_read(alloc, 6)?, (done, Some(52)));
    Ok(())
}

// How it goes where a call of an object fails, and how long the two dumps are. The shelf is object 0.
fn with_failing_call(
    alloc: Global,
    object: u32,
    call: u64,
) -> Result<(ExtractOutcome, Option<usize>, Option<usize>), Fail> {
    let mut shelf = MemShelf::new(alloc, Vec::new(alloc));
    shelf.fail_on(object, call)?;
    let end = extracted(
        alloc,
        &["s0,r,a,r", "r"],
        &SOUND,
        Vec::new(alloc),
        &mut shelf,
    )?;
    Ok((end.outcome, len_of(&shelf, 0), len_of(&shelf, 1)))
}

// The first reader runs also where the second dump isn't made.
#[test]
fn each_call_of_the_shelf_fails_in_turn(rt: HostRuntime) -> Result<(), Fail> {
    let alloc = rt.alloc();
    let fault = ExtractOutcome::WriteFault;
    let done = ExtractOutcome::Done;
    assert_eq!(rt; with_failing_call(alloc, 0, 0)?, (fault, None, None));
    assert_eq!(rt; with_failing_call(alloc, 0, 1)?, (fault, Some(52), None));
    assert_eq!(rt; with_failing_call(alloc, 0, 2)?, (done, Some(52), Some(1)));
    assert_eq!(rt; with_failing_call(alloc, 1, 0)?, (fault, Some(0), Some(1)));
    assert_eq!(rt; with_failing_call(alloc, 1, 1)?, (done, Some(52), Some(1)));
    assert_eq!(rt; with_failing_call(alloc, 2, 0)?, (fault, Some(52), Some(0)));
    Ok(())
}

// The unit of the first sample says nine bytes and has one.
#[test]
fn readers_go_on_after_the_refused_sample_of_another(rt: HostRuntime) -> Result<(), Fail> {
    let alloc = rt.alloc();
    let mut shelf = MemShelf::new(alloc, Vec::new(alloc));
    let words = ["r", "a,s0,r,r", "s0,a,r", "s0,r"];
    let end = extracted(alloc, &words, &VIDEO, Vec::new(alloc), &mut shelf)?;
    let refused = ExtractOutcome::BadSample {
        reader: 1,
        track: 0,
        sample: 0,
        at: 0,
    };
    assert_eq!(rt; end.outcome, refused);
    assert!(rt; end.dumps.is_empty());
    assert!(rt; is_dump(&shelf, 0, b"\0"));
    assert!(rt; is_dump(&shelf, 1, b"\x02\0"));
    assert_eq!(rt; len_of(&shelf, 2), Some(35));
    assert_eq!(rt; len_of(&shelf, 3), Some(0));
    Ok(())
}
