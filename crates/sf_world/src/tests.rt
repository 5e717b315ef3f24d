ghost use Rattle.std.specs.Prelude.{◌≡◌, length, IfOk};

use super::*;
use sf_list::{Bytes, Text, holds, same};
use std::alloc::{AllocError, Global};
use std::test::Fail;

// What a read at a place answers, and the first two bytes of the buffer then.
fn read<S: Source>(source: &mut S, at: u64) -> (Result<usize, Failed>, [u8; 2]) {
    let mut into = [0u8; 2];
    let count = source.read_at(at, &mut into);
    (count, into)
}

fn abc(alloc: Global) -> Result<Bytes, AllocError>
    ensures { IfOk result (λ b. length b ≡ 3) }
{
    Bytes::from_slice(alloc, b"abc")
}

#[test]
fn the_named_reads_of_a_source_fail(rt: HostRuntime) -> Result<(), Fail> {
    let alloc = rt.alloc();
    let mut source = MemSource::new(alloc, abc(alloc)?, vec![in alloc; 1, 3]?);
    same(source.length(), 3)?;
    let answers = [
        (0, Ok(2), *b"ab"),
        (0, Err(Failed), [0, 0]),
        (2, Ok(1), *b"c\0"),
        (2, Err(Failed), [0, 0]),
        (3, Ok(0), [0, 0]),
        (u64::MAX, Ok(0), [0, 0]),
    ];
    for (at, count, bytes) in answers {
        let read = read(&mut source, at);
        same((at, read.0), (at, count))?;
        same((at, read.1), (at, bytes))?;
    }
    same(source.count(), 2)?;
    Ok(())
}

#[test]
fn a_source_without_failing_reads_never_fails(rt: HostRuntime) -> Result<(), Fail> {
    let alloc = rt.alloc();
    let mut named = MemSource::new(alloc, abc(alloc)?, Vec::new(alloc));
    let mut sure = SureSource::new(alloc, abc(alloc)?);
    same(sure.length(), 3)?;
    for (at, count, bytes) in [(1, 2, *b"bc"), (2, 1, *b"c\0"), (4, 0, [0, 0])] {
        same((at, read(&mut named, at)), (at, (Ok(count), bytes)))?;
        same((at, read(&mut sure, at)), (at, (Ok(count), bytes)))?;
    }
    same(named.count(), 0)?;
    Ok(())
}

// Of 5 GiB the bytes "abc" stand at 2 and "xyz" at the end; the later of two pieces is seen.
#[test]
fn a_hole_is_zeros_but_for_its_pieces(rt: HostRuntime) -> Result<(), Fail> {
    let alloc = rt.alloc();
    let mut pieces = Vec::new(alloc);
    pieces.push((2, abc(alloc)?))?;
    pieces.push((5_368_709_117, Bytes::from_slice(alloc, b"xyz")?))?;
    pieces.push((3, Bytes::from_slice(alloc, b"B")?))?;
    let mut source = HoleSource::new(alloc, 5_368_709_120, pieces);
    same(source.length(), 5_368_709_120)?;
    let answers = [
        (0, 2, [0, 0]),
        (1, 2, *b"\0a"),
        (3, 2, *b"Bc"),
        (4, 2, *b"c\0"),
        (4_294_967_296, 2, [0, 0]),
        (5_368_709_116, 2, *b"\0x"),
        (5_368_709_119, 1, *b"z\0"),
        (5_368_709_120, 0, [0, 0]),
        (u64::MAX, 0, [0, 0]),
    ];
    for (at, count, bytes) in answers {
        same((at, read(&mut source, at)), (at, (Ok(count), bytes)))?;
    }
    Ok(())
}

#[test]
fn inputs_are_fetched_by_name(rt: HostRuntime) -> Result<(), Fail> {
    let alloc = rt.alloc();
    let mut named = Vec::new(alloc);
    for (name, bytes) in [("a", b"abc"), ("b", b"bbb"), ("a", b"xyz")] {
        named.push((
            Text::from_str(alloc, name)?,
            Bytes::from_slice(alloc, bytes)?,
        ))?;
    }
    let mut inputs = MemInputs::new(alloc, named, vec![in alloc; 0]?);
    holds(matches!(inputs.fetch("c"), Err(Denied::Failed)))?;
    // Each source fails at its own first read, and the first pair of a name counts.
    for (name, bytes) in [("b", *b"bb"), ("a", *b"ab"), ("a", *b"ab")] {
        let Ok(mut source) = inputs.fetch(name) else {
            return Err(Fail::from(Failed));
        };
        same((name, read(&mut source, 0).0), (name, Err(Failed)))?;
        same((name, read(&mut source, 0)), (name, (Ok(2), bytes)))?;
        same((name, source.count()), (name, 1))?;
        inputs.give_back(source);
    }
    Ok(())
}

// Makes a sink, appends "ab" and "cd" to it, patches "x" into it at 1, and keeps it.
fn write<O: Shelf>(shelf: &mut O, name: &str) -> [bool; 4] {
    let Ok(mut sink) = shelf.create(name) else {
        return [false; 4];
    };
    let first = sink.append(b"ab").is_ok();
    let second = sink.append(b"cd").is_ok();
    let patched = first && second && sink.patch(1, b"x").is_ok();
    shelf.keep(sink);
    [true, first, second, patched]
}

#[test]
fn the_named_calls_of_a_shelf_and_its_sinks_fail(rt: HostRuntime) -> Result<(), Fail> {
    let alloc = rt.alloc();
    let mut shelf = MemShelf::new(alloc, vec![in alloc; 1]?);
    shelf.fail_on(1, 1)?;
    shelf.fail_on(2, 2)?;
    shelf.fail_on(3, 0)?;
    shelf.fail_on(0, 4)?;
    // The second and the fifth `create` fail, so the third one makes the second sink.
    let answers = [
        [true, true, false, false],
        [false; 4],
        [true, true, true, false],
        [true, false, true, false],
        [false; 4],
        [true; 4],
    ];
    for answer in answers {
        same(write(&mut shelf, "f"), answer)?;
    }
    same(shelf.file(0), Some(b"ab".as_slice()))?;
    same(shelf.file(1), Some(b"abcd".as_slice()))?;
    same(shelf.file(2), Some(b"cd".as_slice()))?;
    same(shelf.file(3), Some(b"axcd".as_slice()))?;
    same(shelf.file(4), None)?;
    Ok(())
}

#[test]
fn a_sink_serves_as_a_text_that_fails_at_its_first_append(rt: HostRuntime) -> Result<(), Fail> {
    let alloc = rt.alloc();
    let mut shelf = MemShelf::new(alloc, Vec::new(alloc));
    shelf.fail_on(1, 0)?;
    let Ok(mut text) = shelf.create("text") else {
        return Err(Fail::from(Failed));
    };
    same(text.append(b"done\n"), Err(Denied::Failed))?;
    same(text.append(b"done\n"), Ok(()))?;
    shelf.keep(text);
    same(shelf.file(0), Some(b"done\n".as_slice()))?;
    Ok(())
}

#[test]
fn a_sure_shelf_and_a_text_never_fail(rt: HostRuntime) -> Result<(), Fail> {
    let alloc = rt.alloc();
    let mut shelf = SureShelf::new(alloc);
    same(shelf.file(0), None)?;
    same(write(&mut shelf, "f"), [true; 4])?;
    same(write(&mut shelf, "g"), [true; 4])?;
    same(shelf.file(1), Some(b"axcd".as_slice()))?;
    same(shelf.file(2), None)?;

    let mut text = MemText::new(alloc);
    text.append(b"file 1 640\n").map_err(|_| Failed)?;
    text.patch(5, b"2").map_err(|_| Failed)?;
    same(text.bytes(), b"file 2 640\n".as_slice())?;
    Ok(())
}
