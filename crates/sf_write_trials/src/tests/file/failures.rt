//! Writes that fail.

use super::*;

// The sink is object 1. It gets 40 bytes in front of the samples, then 12 of samples, then 588 of the
// movie box, and last the size of the media data box, which is 16 until then.
#[test]
fn each_write_of_a_file_fails(rt: HostRuntime) -> Result<(), Fail> {
    let alloc = rt.alloc();
    let setups = [sound(alloc, 48_000)?];
    let fault = Err(Stop::Fault(FileFault::WriteFault));
    // The failing call, the answer, the length of what was written, and the last byte of the size.
    let rows: [(u64, Result<(), Stop>, usize, &[u8]); 5] = [
        (0, fault, 0, b""),
        (1, fault, 40, b"\x10"),
        (2, fault, 52, b"\x10\x21\x10\x04\x60"),
        (3, fault, 640, b"\x10\x21\x10\x04\x60"),
        (4, Ok(()), 640, b"\x1C\x21\x10\x04\x60"),
    ];
    for (call, ended, size, from_39) in rows {
        let mut shelf = MemShelf::new(alloc, Vec::new(alloc));
        shelf.fail_on(1, call)?;
        assert_eq!(rt;
            write(alloc, &mut shelf, &setups, &[(0, &THREE)]),
            ended,
            "call {call}"
        );
        let kept = shelf.file(0).unwrap_or(&[]);
        assert_eq!(rt; kept.len(), size, "call {call}");
        assert!(rt; size == 0 || stand_at(kept, 39, from_39), "call {call}");
    }
    Ok(())
}

// The sink gets 40 bytes in front of the samples, then the first chunk. It fails at the second one.
#[test]
fn a_failed_chunk_leaves_what_the_file_holds(rt: HostRuntime) -> Result<(), Fail> {
    let alloc = rt.alloc();
    let mut shelf = MemShelf::new(alloc, Vec::new(alloc));
    shelf.fail_on(1, 2)?;
    let mut file = begun(alloc, &mut shelf, &[sound(alloc, 48_000)?])?;
    append(&mut file, &chunk(alloc, 0, &THREE)?)?;
    let fault = Err(Stop::Fault(FileFault::WriteFault));
    let later = chunk(alloc, 0, &[(64_000, 3072)])?;
    assert_eq!(rt; append(&mut file, &later), fault);
    assert_eq!(rt;
        (file.size(), file.is_empty(), file.start_us()),
        (640, false, 0)
    );
    Ok(())
}
