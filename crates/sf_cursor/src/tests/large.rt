//! Large tables of each kind, and entries that stand past what they tell of.

use super::*;
use sf_list::same;

/// So many samples.
const COUNT: u32 = 3000;

/// A count, and so many entries of these bytes.
fn alike(alloc: Global, entry: &[u8]) -> Result<Bytes, AllocError> {
    let mut table = Bytes::from_slice(alloc, &COUNT.to_be_bytes())?;
    for _ in 0..COUNT {
        table.append(entry)?;
    }
    Ok(table)
}

/// The bytes of the first fields, and then half as many times those of two.
fn pairs(alloc: Global, front: &[u8], two: &[u8]) -> Result<Bytes, AllocError> {
    let mut table = Bytes::from_slice(alloc, front)?;
    table.append(&COUNT.to_be_bytes())?;
    for _ in 0..COUNT / 2 {
        table.append(two)?;
    }
    Ok(table)
}

/// An entry for each chunk, which has one sample. Their descriptions are 1 and 2 in turn.
fn one_in_each(alloc: Global) -> Result<Bytes, AllocError> {
    let mut table = Bytes::from_slice(alloc, &COUNT.to_be_bytes())?;
    for k in 0..COUNT {
        table.append(&(k + 1).to_be_bytes())?;
        table.append(b"\0\0\0\x01")?;
        table.append(&(k % 2 + 1).to_be_bytes())?;
    }
    Ok(table)
}

/// A number for each entry, so far apart from a first one on.
fn apart(alloc: Global, first: u32, by: u32) -> Result<Bytes, AllocError> {
    let mut table = Bytes::from_slice(alloc, &COUNT.to_be_bytes())?;
    let mut number = first;
    for _ in 0..COUNT {
        table.append(&number.to_be_bytes())?;
        number = number.saturating_add(by);
    }
    Ok(table)
}

#[test]
fn each_table_may_have_an_entry_for_each_sample(rt: HostRuntime) -> Result<(), Fail> {
    // Deltas of 2, offsets of 5, sizes 1 and 7 in turn, chunks 16 apart from 1000 on, and the samples of odd numbers are sync.
    let alloc = rt.alloc();
    let times = alike(alloc, b"\0\0\0\x01\0\0\0\x02")?;
    let offsets = alike(alloc, b"\0\0\0\x01\0\0\0\x05")?;
    let sizes = pairs(alloc, b"\0\0\0\0", b"\0\0\0\x01\0\0\0\x07")?;
    let spread = one_in_each(alloc)?;
    let places = apart(alloc, 1000, 16)?;
    let numbers = apart(alloc, 1, 2)?;
    let mut stbl = four(
        alloc,
        times.as_slice(),
        sizes.as_slice(),
        spread.as_slice(),
        places.as_slice(),
    )?;
    put(alloc, &mut stbl, CTTS, offsets.as_slice())?;
    put(alloc, &mut stbl, STSS, numbers.as_slice())?;
    let last = PlainSample {
        sync: false,
        description: 2,
        ..sync(5998, 6003, 48_984, 7)
    };
    let wanted = [
        (0, sync(0, 5, 1000, 1)),
        (2998, sync(5996, 6001, 48_968, 1)),
        (2999, last),
    ];
    lists(alloc, &stbl, 3000, 48_991, &wanted)?;
    ends_before(alloc, &stbl, 48_990, 2999)
}

/// Tables of 3000 samples with these sizes, in one chunk at 100.
fn of_sizes(alloc: Global, kind: FourCc, sizes: &[u8]) -> Result<Bytes, AllocError> {
    let mut stbl = Bytes::new(alloc);
    put(alloc, &mut stbl, STTS, b"\0\0\0\x01\0\0\x0b\xb8\0\0\0\x02")?;
    put(alloc, &mut stbl, kind, sizes)?;
    put(
        alloc,
        &mut stbl,
        STSC,
        b"\0\0\0\x01\0\0\0\x01\0\0\x0b\xb8\0\0\0\x01",
    )?;
    put(alloc, &mut stbl, STCO, b"\0\0\0\x01\0\0\0\x64")?;
    Ok(stbl)
}

/// Nothing where sizes, each pair of which is this one after some first bytes, give this last sample, in a file that ends where
/// it does.
fn gives_last(
    alloc: Global,
    kind: FourCc,
    front: &[u8],
    two: &[u8],
    last: PlainSample,
) -> Result<(), Fail> {
    let sizes = pairs(alloc, front, two)?;
    let stbl = of_sizes(alloc, kind, sizes.as_slice())?;
    let end = last.place.saturating_add(u64::from(last.size));
    lists(alloc, &stbl, 3000, end, &[(2999, last)])?;
    ends_before(alloc, &stbl, end.saturating_sub(1), 2999)
}

#[test]
fn sizes_of_few_bits_are_summed_up(rt: HostRuntime) -> Result<(), Fail> {
    // 1 and 2 in turn: before the last one stand 1500 of 1 and 1499 of 2.
    let alloc = rt.alloc();
    let last = sync(5998, 5998, 4598, 2);
    gives_last(alloc, FourCc(*b"stz2"), b"\0\0\0\x04", b"\x12", last)?;
    gives_last(alloc, FourCc(*b"stz2"), b"\0\0\0\x08", b"\x01\x02", last)
}

#[test]
fn sizes_of_many_bits_are_summed_up(rt: HostRuntime) -> Result<(), Fail> {
    // 257 and 258 in turn.
    let alloc = rt.alloc();
    let last = sync(5998, 5998, 772_342, 258);
    gives_last(
        alloc,
        FourCc(*b"stz2"),
        b"\0\0\0\x10",
        b"\x01\x01\x01\x02",
        last,
    )?;
    gives_last(alloc, STSZ, b"\0\0\0\0", b"\0\0\x01\x01\0\0\x01\x02", last)
}

/// Tables of three samples. Chunk 1 has none, each from chunk 2 on the most, and from chunk 4,294,967,295 on an entry holds
/// that isn't there, as in chunk 1.
fn with_far_entries(alloc: Global, places: &[u8]) -> Result<Bytes, AllocError> {
    let spread = b"\0\0\0\x03\0\0\0\x01\0\0\0\0\0\0\0\x09\0\0\0\x02\xff\xff\xff\xff\0\0\0\x01\
        \xff\xff\xff\xff\xff\xff\xff\xff\0\0\0\x09";
    four(alloc, TIMES, SIZES, spread, places)
}

#[test]
fn entries_past_the_last_chunk_hold_no_samples(rt: HostRuntime) -> Result<(), Fail> {
    let alloc = rt.alloc();
    let wanted = [(0, sync(0, 0, 200, 10)), (2, sync(2048, 2048, 230, 30))];
    let stbl = with_far_entries(alloc, PLACES)?;
    lists(alloc, &stbl, 3, 260, &wanted)
}

#[test]
fn an_entry_past_the_last_chunk_is_no_chunk(rt: HostRuntime) -> Result<(), Fail> {
    let alloc = rt.alloc();
    let stbl = with_far_entries(alloc, b"\0\0\0\x01\0\0\0\x64")?;
    let short = TableFault::Short {
        kind: STSC,
        at: 1056,
    };
    same(read(alloc, &stbl)?.err(), Some(short))
}
