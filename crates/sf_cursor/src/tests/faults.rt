//! What is first wrong with sample table boxes.

use super::*;
use sf_box::BoxFault;
use sf_list::same;

/// Nothing where a box with these four tables, which stand at 1000, 1024, 1056 and 1096, is refused so, or is taken.
fn gives(
    alloc: Global,
    times: &[u8],
    sizes: &[u8],
    spread: &[u8],
    places: &[u8],
    wanted: Option<TableFault>,
) -> Result<(), Fail> {
    let stbl = four(alloc, times, sizes, spread, places)?;
    same(read(alloc, &stbl)?.err(), wanted)
}

#[test]
fn tables_that_say_too_little_are_refused(rt: HostRuntime) -> Result<(), Fail> {
    let two_times = b"\0\0\0\x01\0\0\0\x02\0\0\x04\0";
    let one_chunk = b"\0\0\0\x01\0\0\0\x64";
    let third_entry = b"\0\0\0\x02\0\0\0\x01\0\0\0\x02\0\0\0\x01\0\0\0\x02\0\0\0\x01\0\0\0\x03";
    let short = |kind, at| Some(TableFault::Short { kind, at });
    let description = TableFault::Description { at: 1056, index: 3 };
    let alloc = rt.alloc();
    gives(alloc, two_times, SIZES, SPREAD, PLACES, short(STTS, 1000))?;
    gives(alloc, TIMES, SIZES, SPREAD, one_chunk, short(STSC, 1056))?;
    gives(alloc, TIMES, SIZES, third_entry, PLACES, Some(description))?;
    gives(alloc, TIMES, SIZES, SPREAD, PLACES, None)
}

#[test]
fn a_missing_box_is_refused(rt: HostRuntime) -> Result<(), Fail> {
    let alloc = rt.alloc();
    let mut stbl = Bytes::new(alloc);
    put(alloc, &mut stbl, STTS, TIMES)?;
    put(alloc, &mut stbl, STSC, SPREAD)?;
    let missing = TableFault::Missing {
        kind: STSZ,
        at: 1000,
    };
    same(read(alloc, &stbl)?.err(), Some(missing))
}

#[test]
fn a_broken_box_is_refused(rt: HostRuntime) -> Result<(), Fail> {
    let broken = Cursor::read(rt.alloc(), b"\0\0\0\x20free", 16, 48000, 2);
    let overrun = TableFault::Tiling(BoxFault::Overrun { at: 16, size: 32 });
    same(broken.err(), Some(overrun))
}
