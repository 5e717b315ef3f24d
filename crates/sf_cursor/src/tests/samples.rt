//! The samples that tables list, one by one.

use super::*;

#[test]
fn samples_lie_in_their_chunks(rt: HostRuntime) -> Result<(), Fail> {
    let alloc = rt.alloc();
    let stbl = four(alloc, TIMES, SIZES, SPREAD, PLACES)?;
    let wanted = [
        (0, sync(0, 0, 100, 10)),
        (1, sync(1024, 1024, 110, 20)),
        (2, sync(2048, 2048, 200, 30)),
    ];
    lists(alloc, &stbl, 3, 230, &wanted)?;
    // In a file of 229 bytes the last one doesn't lie.
    ends_before(alloc, &stbl, 229, 2)
}

#[test]
fn one_size_and_one_run_stand_for_many_samples(rt: HostRuntime) -> Result<(), Fail> {
    // 16 million samples of 5 bytes, 20 ticks apart, in one chunk at 4096: they end at 83,890,176.
    let alloc = rt.alloc();
    let times = b"\0\0\0\x01\x01\0\0\0\0\0\0\x14";
    let sizes = b"\0\0\0\x05\x01\0\0\0";
    let spread = b"\0\0\0\x01\0\0\0\x01\x01\0\0\0\0\0\0\x02";
    let places = b"\0\0\0\x01\0\0\x10\0";
    let stbl = four(alloc, times, sizes, spread, places)?;
    let last = PlainSample {
        description: 2,
        ..sync(335_544_300, 335_544_300, 83_890_171, 5)
    };
    lists(alloc, &stbl, 16_777_216, 83_890_176, &[(16_777_215, last)])?;
    ends_before(alloc, &stbl, 83_890_175, 16_777_215)
}

#[test]
fn offsets_that_are_missing_are_zero(rt: HostRuntime) -> Result<(), Fail> {
    // Offsets of -2 for the first sample and of 7 for the second, in version 1.
    let offsets = b"\0\0\0\x02\0\0\0\x01\xff\xff\xff\xfe\0\0\0\x01\0\0\0\x07";
    let alloc = rt.alloc();
    let mut stbl = four(alloc, TIMES, SIZES, SPREAD, PLACES)?;
    put_with(alloc, &mut stbl, CTTS, b"\x01\0\0\0", offsets)?;
    let wanted = [
        (0, sync(0, -2, 100, 10)),
        (1, sync(1024, 1031, 110, 20)),
        (2, sync(2048, 2048, 200, 30)),
    ];
    lists(alloc, &stbl, 3, u64::MAX, &wanted)
}

#[test]
fn sync_samples_are_numbered_from_1(rt: HostRuntime) -> Result<(), Fail> {
    let alloc = rt.alloc();
    let mut stbl = four(alloc, TIMES, SIZES, SPREAD, PLACES)?;
    put(alloc, &mut stbl, STSS, b"\0\0\0\x02\0\0\0\x01\0\0\0\x03")?;
    let second = PlainSample {
        sync: false,
        ..sync(1024, 1024, 110, 20)
    };
    let wanted = [
        (0, sync(0, 0, 100, 10)),
        (1, second),
        (2, sync(2048, 2048, 200, 30)),
    ];
    lists(alloc, &stbl, 3, u64::MAX, &wanted)
}

#[test]
fn wide_places_and_compact_sizes_are_read(rt: HostRuntime) -> Result<(), Fail> {
    // Sizes 1, 2 and 3 of four bits; chunks at 2^32 + 1 and at 7.
    let sizes = b"\0\0\0\x04\0\0\0\x03\x12\x30";
    let places = b"\0\0\0\x02\0\0\0\x01\0\0\0\x01\0\0\0\0\0\0\0\x07";
    let alloc = rt.alloc();
    let mut stbl = Bytes::new(alloc);
    put(alloc, &mut stbl, STTS, TIMES)?;
    put(alloc, &mut stbl, FourCc(*b"stz2"), sizes)?;
    put(alloc, &mut stbl, STSC, SPREAD)?;
    put(alloc, &mut stbl, FourCc(*b"co64"), places)?;
    let wanted = [
        (0, sync(0, 0, 4_294_967_297, 1)),
        (1, sync(1024, 1024, 4_294_967_298, 2)),
        (2, sync(2048, 2048, 7, 3)),
    ];
    lists(alloc, &stbl, 3, u64::MAX, &wanted)
}

#[test]
fn a_sample_late_in_a_long_chunk_has_its_place(rt: HostRuntime) -> Result<(), Fail> {
    // 40 samples of 1 to 40 bytes, in eight bits each, in one chunk at 100: before the last one stand 780.
    let sizes = b"\0\0\0\x08\0\0\0\x28\
        \x01\x02\x03\x04\x05\x06\x07\x08\x09\x0a\x0b\x0c\x0d\x0e\x0f\x10\x11\x12\x13\x14\
        \x15\x16\x17\x18\x19\x1a\x1b\x1c\x1d\x1e\x1f\x20\x21\x22\x23\x24\x25\x26\x27\x28";
    let alloc = rt.alloc();
    let mut stbl = Bytes::new(alloc);
    put(alloc, &mut stbl, STTS, b"\0\0\0\x01\0\0\0\x28\0\0\x04\0")?;
    put(alloc, &mut stbl, FourCc(*b"stz2"), sizes)?;
    put(
        alloc,
        &mut stbl,
        STSC,
        b"\0\0\0\x01\0\0\0\x01\0\0\0\x28\0\0\0\x01",
    )?;
    put(alloc, &mut stbl, STCO, b"\0\0\0\x01\0\0\0\x64")?;
    let wanted = [
        (0, sync(0, 0, 100, 1)),
        (15, sync(15_360, 15_360, 220, 16)),
        (16, sync(16_384, 16_384, 236, 17)),
        (39, sync(39_936, 39_936, 880, 40)),
    ];
    lists(alloc, &stbl, 40, 920, &wanted)?;
    ends_before(alloc, &stbl, 919, 39)
}
