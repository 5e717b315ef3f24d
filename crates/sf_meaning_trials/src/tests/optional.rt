//! Composition offsets, sync samples and places of eight bytes, by hand in the file's movie box.

use super::tables::{
    FIELDS, FOUR_SIZES, FOUR_TIMES, PLACES, SIZES, SPREAD, STCO, STSC, STSZ, STTS, TIMES, moov_of,
    read,
};
use super::*;
use sf_list::same;
use std::test::Fail;

const CTTS: FourCc = FourCc(*b"ctts");

const STSS: FourCc = FourCc(*b"stss");

const CO64: FourCc = FourCc(*b"co64");

/// One chunk of four samples.
const FOUR_TOGETHER: &[u8] = b"\0\0\0\x01\0\0\0\x01\0\0\0\x04\0\0\0\x01";

const ONE_PLACE: &[u8] = b"\0\0\0\x01\0\0\0\x64";

/// When each sample is shown, and whether it is sync.
fn shown(alloc: Global, tables: &[(FourCc, &[u8], &[u8])]) -> Result<Vec<(i64, bool)>, Fail> {
    let movie = read(alloc, tables, 1000)?.ok().ok_or("refused")?;
    let track = movie.tracks.as_slice().first().ok_or("no track")?;
    let mut all = Vec::new(alloc);
    for sample in track.samples.as_slice() {
        all.push((sample.compose, sample.sync))?;
    }
    Ok(all)
}

/// When three samples are shown that are decoded at 0, 1024 and 2048.
fn offset_by(alloc: Global, version: &[u8], runs: &[u8]) -> Result<Vec<(i64, bool)>, Fail> {
    let tables = [
        (STTS, FIELDS, TIMES),
        (CTTS, version, runs),
        (STSZ, FIELDS, SIZES),
        (STSC, FIELDS, SPREAD),
        (STCO, FIELDS, PLACES),
    ];
    shown(alloc, &tables)
}

#[test]
fn samples_are_shown_by_their_composition_offsets(rt: HostRuntime) -> Result<(), Fail> {
    let alloc = rt.alloc();
    let three: &[u8] = b"\0\0\0\x03\0\0\0\x01\0\0\x0b\xb8\0\0\0\x01\0\0\x17\x70\0\0\0\x01\0\0\0\0";
    let two: &[u8] = b"\0\0\0\x02\0\0\0\x01\0\0\0\0\0\0\0\x01\xff\xff\xf4\x48";
    let great: &[u8] = b"\0\0\0\x01\0\0\0\x01\xff\xff\xff\xff";
    let cases = [
        (b"\0\0\0\0", three, [3000, 7024, 2048], "3000, 6000, 0"),
        (b"\x01\0\0\0", two, [0, -1976, 2048], "0, -3000, and none"),
        (
            b"\x02\0\0\0",
            two,
            [0, -1976, 2048],
            "the same in version 2",
        ),
        (
            b"\0\0\0\0",
            great,
            [4_294_967_295, 1024, 2048],
            "the greatest",
        ),
        (b"\xff\0\0\0", great, [-1, 1024, 2048], "-1"),
    ];
    for (version, runs, wanted, name) in cases {
        let found = offset_by(alloc, version, runs)?;
        same((name, found.len()), (name, 3))?;
        for ((compose, sync), at) in found.iter().zip(wanted) {
            same((name, *compose), (name, at))?;
            same((name, *sync), (name, true))?;
        }
    }
    Ok(())
}

#[test]
fn sync_samples_are_named_by_their_numbers(rt: HostRuntime) -> Result<(), Fail> {
    let alloc = rt.alloc();
    let first_and_third: &[u8] = b"\0\0\0\x02\0\0\0\x01\0\0\0\x03";
    let fourth_and_later: &[u8] = b"\0\0\0\x02\0\0\0\x04\0\0\0\x09";
    let none: &[u8] = b"\0\0\0\0";
    let cases = [
        (first_and_third, [true, false, true, false], "1 and 3"),
        (fourth_and_later, [false, false, false, true], "4 and 9"),
        (none, [false, false, false, false], "none"),
    ];
    for (numbers, wanted, name) in cases {
        let tables = [
            (STTS, FIELDS, FOUR_TIMES),
            (STSS, FIELDS, numbers),
            (STSZ, FIELDS, FOUR_SIZES),
            (STSC, FIELDS, FOUR_TOGETHER),
            (STCO, FIELDS, ONE_PLACE),
        ];
        let found = shown(alloc, &tables)?;
        same((name, found.len()), (name, 4))?;
        for ((_, sync), is) in found.iter().zip(wanted) {
            same((name, *sync), (name, is))?;
        }
    }
    Ok(())
}

/// What is wrong with three samples with such a table, which stands at 548, and one after it.
fn fault_with<'a>(
    alloc: Global,
    kind: FourCc,
    body: &'a [u8],
    stco: &'a [u8],
) -> Result<Option<MovieFault>, AllocError> {
    let tables = [
        (STTS, FIELDS, TIMES),
        (kind, FIELDS, body),
        (STSZ, FIELDS, SIZES),
        (STSC, FIELDS, SPREAD),
        (STCO, FIELDS, stco),
    ];
    Ok(read(alloc, &tables, 1000)?.err())
}

#[test]
fn optional_tables_have_faults_of_their_own(rt: HostRuntime) -> Result<(), Fail> {
    let alloc = rt.alloc();
    let short = |kind: FourCc, at: u64| Some(MovieFault::Table(TableFault::Short { kind, at }));
    let fallen = Some(MovieFault::Table(TableFault::NotRising {
        kind: STSS,
        at: 548,
    }));
    let cut: &[u8] = b"\0\0\0";
    let missing: &[u8] = b"\0\0\0\x01\0\0\0";
    let third_and_first: &[u8] = b"\0\0\0\x02\0\0\0\x03\0\0\0\x01";
    let first_twice: &[u8] = b"\0\0\0\x02\0\0\0\x01\0\0\0\x01";
    let zero: &[u8] = b"\0\0\0\x01\0\0\0\0";
    let cases = [
        (CTTS, cut, short(CTTS, 548)),
        (CTTS, missing, short(CTTS, 548)),
        (STSS, cut, short(STSS, 548)),
        (STSS, missing, short(STSS, 548)),
        (STSS, third_and_first, fallen),
        (STSS, first_twice, fallen),
        (STSS, zero, fallen),
    ];
    for (kind, body, wanted) in cases {
        same(fault_with(alloc, kind, body, PLACES)?, wanted)?;
    }
    same(fault_with(alloc, CTTS, cut, cut)?, short(CTTS, 548))?;
    same(fault_with(alloc, STSS, zero, cut)?, short(STCO, 640))?;
    Ok(())
}

#[test]
fn tables_stand_in_any_order(rt: HostRuntime) -> Result<(), Fail> {
    let zero: &[u8] = b"\0\0\0\0";
    let tables = [
        (STCO, FIELDS, PLACES),
        (STSS, FIELDS, zero),
        (CTTS, FIELDS, zero),
        (STSC, FIELDS, SPREAD),
        (STSZ, FIELDS, SIZES),
        (STTS, FIELDS, TIMES),
        (STTS, FIELDS, zero),
    ];
    same(read(rt.alloc(), &tables, 1000)?.err(), None)?;
    Ok(())
}

/// What three samples in one chunk with this place are, of 10, 20 and 30 bytes.
fn placed_at(
    alloc: Global,
    places: &[u8],
    file_len: u64,
) -> Result<Result<PlainMovie, MovieFault>, AllocError> {
    let together: &[u8] = b"\0\0\0\x01\0\0\0\x01\0\0\0\x03\0\0\0\x01";
    let tables = [
        (STTS, FIELDS, TIMES),
        (STSZ, FIELDS, SIZES),
        (STSC, FIELDS, together),
        (CO64, FIELDS, places),
    ];
    read(alloc, &tables, file_len)
}

#[test]
fn places_may_have_eight_bytes(rt: HostRuntime) -> Result<(), Fail> {
    let alloc = rt.alloc();
    let outside = |sample: u64| Some(MovieFault::SampleOutside { track: 0, sample });
    let far: &[u8] = b"\0\0\0\x01\0\0\0\x01\0\0\0\x64";
    let last: &[u8] = b"\0\0\0\x01\xff\xff\xff\xff\xff\xff\xff\xff";
    let cut: &[u8] = b"\0\0\0\x01\0\0\0\x01";
    let short = Some(MovieFault::Table(TableFault::Short {
        kind: CO64,
        at: 608,
    }));
    let cases = [
        (far, 4_294_967_456, None),
        (far, 4_294_967_455, outside(2)),
        (far, 4_294_967_406, outside(1)),
        (far, 1000, outside(0)),
        (last, 1 << 40, outside(0)),
        (last, u64::MAX, outside(0)),
        (cut, 1000, short),
    ];
    for (places, file_len, fault) in cases {
        same(placed_at(alloc, places, file_len)?.err(), fault)?;
    }
    let movie = placed_at(alloc, far, 1 << 40)?.ok().ok_or("refused")?;
    let track = movie.tracks.as_slice().first().ok_or("no track")?;
    let found = [4_294_967_396, 4_294_967_406, 4_294_967_426];
    same(track.samples.len(), 3)?;
    for (sample, place) in track.samples.as_slice().iter().zip(found) {
        same(sample.place, place)?;
    }
    Ok(())
}

/// What so many samples of a great delta are, of a track with one tick a second.
fn lasting(alloc: Global, count: u32) -> Result<Option<MovieFault>, AllocError> {
    let count = count.to_be_bytes();
    let mut times = Bytes::from_slice(alloc, b"\0\0\0\x01")?;
    times.append(&count)?;
    times.append(b"\xff\xff\xff\xff")?;
    let mut sizes = Bytes::from_slice(alloc, b"\0\0\0\x04")?;
    sizes.append(&count)?;
    let mut spread = Bytes::from_slice(alloc, b"\0\0\0\x01\0\0\0\x01")?;
    spread.append(&count)?;
    spread.append(b"\0\0\0\x01")?;
    let tables = [
        (STTS, FIELDS, times.as_slice()),
        (STSZ, FIELDS, sizes.as_slice()),
        (STSC, FIELDS, spread.as_slice()),
        (STCO, FIELDS, ONE_PLACE),
    ];
    let mut moov = moov_of(alloc, &tables)?;
    if moov.len() > 300 {
        moov.patch(236, &[0, 0, 0, 1]);
    }
    Ok(plain_movie(alloc, moov.as_slice(), 60, 10_000).err())
}

#[test]
fn decode_times_end_before_2_to_the_40_seconds(rt: HostRuntime) -> Result<(), Fail> {
    let late = MovieFault::Table(TableFault::SumTooLarge { at: 524 });
    same(lasting(rt.alloc(), 256)?, None)?;
    same(lasting(rt.alloc(), 257)?, Some(late))?;
    Ok(())
}
