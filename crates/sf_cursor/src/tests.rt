//! Sample table boxes by hand, read through a cursor.

use super::*;
use sf_box::{FourCc, put_box};
use sf_list::{Bytes, holds};
use std::alloc::{AllocError, Global};
use std::test::Fail;

mod faults;
mod large;
mod samples;

/// Puts a box of a type with these fields and this table after those of a sample table box.
fn put_with(
    alloc: Global,
    stbl: &mut Bytes,
    kind: FourCc,
    fields: &[u8],
    table: &[u8],
) -> Result<(), AllocError> {
    let mut body = Bytes::from_slice(alloc, fields)?;
    body.append(table)?;
    if body.len() > 100_000 {
        return Err(AllocError);
    }
    put_box(stbl, kind, body.as_slice())
}

/// Puts a box of version 0.
fn put(alloc: Global, stbl: &mut Bytes, kind: FourCc, table: &[u8]) -> Result<(), AllocError> {
    put_with(alloc, stbl, kind, b"\0\0\0\0", table)
}

/// The body of a sample table box with four boxes.
fn four(
    alloc: Global,
    times: &[u8],
    sizes: &[u8],
    spread: &[u8],
    places: &[u8],
) -> Result<Bytes, AllocError> {
    let mut stbl = Bytes::new(alloc);
    put(alloc, &mut stbl, STTS, times)?;
    put(alloc, &mut stbl, STSZ, sizes)?;
    put(alloc, &mut stbl, STSC, spread)?;
    put(alloc, &mut stbl, STCO, places)?;
    Ok(stbl)
}

const STTS: FourCc = FourCc(*b"stts");

const CTTS: FourCc = FourCc(*b"ctts");

const STSC: FourCc = FourCc(*b"stsc");

const STSZ: FourCc = FourCc(*b"stsz");

const STCO: FourCc = FourCc(*b"stco");

const STSS: FourCc = FourCc(*b"stss");

/// Three samples, 1024 ticks apart.
const TIMES: &[u8] = b"\0\0\0\x01\0\0\0\x03\0\0\x04\0";

/// Two samples in chunk 1, one in each from chunk 2 on.
const SPREAD: &[u8] = b"\0\0\0\x02\0\0\0\x01\0\0\0\x02\0\0\0\x01\0\0\0\x02\0\0\0\x01\0\0\0\x01";

/// Three samples of 10, 20 and 30 bytes.
const SIZES: &[u8] = b"\0\0\0\0\0\0\0\x03\0\0\0\x0a\0\0\0\x14\0\0\0\x1e";

/// Chunks at 100 and at 200.
const PLACES: &[u8] = b"\0\0\0\x02\0\0\0\x64\0\0\0\xc8";

/// What the body of a sample table box is read as, of a track with 48000 ticks a second and two sample entries.
fn read(alloc: Global, stbl: &Bytes) -> Result<Result<Cursor, TableFault>, AllocError> {
    if stbl.len() > 1_000_000 {
        return Err(AllocError);
    }
    Ok(Cursor::read(alloc, stbl.as_slice(), 1000, 48000, 2))
}

/// A cursor over such a box.
fn cursor_of(alloc: Global, stbl: &Bytes) -> Result<Cursor, Fail> {
    Ok(read(alloc, stbl)?.ok().ok_or("refused")?)
}

/// Whether a file of so many bytes holds a cursor's samples, and those of these numbers are these.
fn finds(cursor: &Cursor, bytes: u64, wanted: &[(u64, PlainSample)]) -> bool {
    match cursor.held(7, bytes) {
        Ok(()) => {
            let mut same = true;
            for (i, sample) in wanted {
                same = same && *i < cursor.count() && cursor.sample(*i) == *sample;
            }
            same
        }
        Err(_) => false,
    }
}

/// Nothing where a box has so many samples, which a file of so many bytes holds, those of these numbers among them.
fn lists(
    alloc: Global,
    stbl: &Bytes,
    count: u64,
    bytes: u64,
    wanted: &[(u64, PlainSample)],
) -> Result<(), Fail> {
    let cursor = cursor_of(alloc, stbl)?;
    holds(cursor.count() == count && finds(&cursor, bytes, wanted))
}

/// Nothing where a file of so many bytes doesn't hold the sample of a number.
fn ends_before(alloc: Global, stbl: &Bytes, bytes: u64, sample: u64) -> Result<(), Fail> {
    let cursor = cursor_of(alloc, stbl)?;
    let outside = MovieFault::SampleOutside { track: 7, sample };
    holds(cursor.held(7, bytes) == Err(outside))
}

/// A sample, with its decode tick, composition tick, place and size, that is sync and has the first entry.
fn sync(decode: u64, compose: i64, place: u64, size: u32) -> PlainSample {
    PlainSample {
        decode,
        compose,
        sync: true,
        place,
        size,
        description: 1,
    }
}
