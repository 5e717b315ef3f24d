//! Each reader of a box, on one body after the other.

ghost use Rattle.std.specs.Prelude.{◌≡◌, ◌+◌};

use super::*;
use sf_list::{holds, same};
use std::test::Fail;

/// The head of a box at 100.
fn head(kind: &[u8; 4]) -> BoxHead
    ensures { result.at + result.head ≡ 108 }
{
    BoxHead {
        kind: FourCc(*kind),
        at: 100,
        head: 8,
        size: 8,
    }
}

#[test]
fn runs_are_read(rt: HostRuntime) -> Result<(), Fail> {
    let alloc = rt.alloc();
    let body = b"\x01\0\0\0\0\0\0\x02\0\0\0\x03\0\0\x04\0\0\0\0\x01\xff\xff\xff\xff";
    let wanted = [
        TimeRun {
            count: 3,
            delta: 1024,
        },
        TimeRun {
            count: 1,
            delta: 4_294_967_295,
        },
    ];
    let deltas = read_stts(alloc, head(b"stts"), body).ok().ok_or("refused")?;
    same(deltas.as_slice(), wanted.as_slice())?;
    let (version, offsets) = read_ctts(alloc, head(b"ctts"), body).ok().ok_or("refused")?;
    same(version, 1)?;
    same(offsets.as_slice(), wanted.as_slice())?;
    let short = TableFault::Short {
        kind: FourCc(*b"ctts"),
        at: 100,
    };
    same(
        read_ctts(alloc, head(b"ctts"), &body[..23]).err(),
        Some(short),
    )?;
    Ok(())
}

/// Whether places are these.
fn are_places(places: &PlaceList, wanted: &[u64]) -> bool {
    let mut same = places.len() == wanted.len();
    for c in 0..wanted.len() {
        same = same && c < places.len() && places.at(c) == wanted[c];
    }
    same
}

#[test]
fn entries_places_and_numbers_are_read(rt: HostRuntime) -> Result<(), Fail> {
    let alloc = rt.alloc();
    let spread = b"\0\0\0\0\0\0\0\x01\0\0\0\x01\0\0\0\x02\0\0\0\x03";
    let runs = read_stsc(alloc, head(b"stsc"), spread)
        .ok()
        .ok_or("refused")?;
    let wanted = ChunkRun {
        first: 1,
        per: 2,
        description: 3,
    };
    same(runs.as_slice(), [wanted].as_slice())?;
    let two = b"\0\0\0\0\0\0\0\x02\0\0\0\x01\0\0\0\x02";
    let near = read_places(alloc, head(b"stco"), two)
        .ok()
        .ok_or("refused")?;
    holds(are_places(&near, &[1, 2]))?;
    let one = b"\0\0\0\0\0\0\0\x01\0\0\0\x01\0\0\0\x02";
    let far = read_places(alloc, head(b"co64"), one)
        .ok()
        .ok_or("refused")?;
    holds(are_places(&far, &[4_294_967_298]))?;
    let numbers = read_stss(alloc, head(b"stss"), two).ok().ok_or("refused")?;
    same(numbers.as_slice(), [1, 2].as_slice())?;
    Ok(())
}

/// The sizes that are read, one by one.
fn sizes_in(
    alloc: Global,
    kind: &[u8; 4],
    body: &[u8],
) -> Result<Result<Vec<u32>, TableFault>, AllocError> {
    let mut all = Vec::new(alloc);
    match read_sizes(alloc, head(kind), body) {
        Ok(Sizes::Same { size, count }) => {
            all.push(size)?;
            all.push(count)?;
        }
        Ok(Sizes::Each(sizes)) => {
            for i in 0..sizes.len() {
                all.push(sizes.at(i))?;
            }
        }
        Err(fault) => return Ok(Err(fault)),
    }
    Ok(Ok(all))
}

#[test]
fn sizes_are_read(rt: HostRuntime) -> Result<(), Fail> {
    let equal: &[u8] = b"\0\0\0\0\0\0\0\x07\0\xff\xff\xff";
    let each: &[u8] = b"\0\0\0\0\0\0\0\0\0\0\0\x02\0\0\0\x07\0\0\0\x08";
    let four: &[u8] = b"\0\0\0\0\0\0\0\x04\0\0\0\x03\x12\x3f";
    let two: &[u8] = b"\0\0\0\0\0\0\0\x04\0\0\0\x02\x3a";
    let eight: &[u8] = b"\0\0\0\0\0\0\0\x08\0\0\0\x02\xfe\x01\x05";
    let sixteen: &[u8] = b"\0\0\0\0\0\0\0\x10\0\0\0\x02\x01\x02\xff\xff";
    let cases: [(&[u8; 4], &[u8], &[u32]); 6] = [
        (b"stsz", equal, &[7, 16_777_215]),
        (b"stsz", each, &[7, 8]),
        (b"stz2", four, &[1, 2, 3]),
        (b"stz2", two, &[3, 10]),
        (b"stz2", eight, &[254, 1]),
        (b"stz2", sixteen, &[258, 65_535]),
    ];
    for (kind, body, wanted) in cases {
        let found = sizes_in(rt.alloc(), kind, body)?.ok().ok_or("refused")?;
        same(found.as_slice(), wanted)?;
    }
    Ok(())
}

#[test]
fn sizes_are_refused_in_order(rt: HostRuntime) -> Result<(), Fail> {
    let short = |kind: &[u8; 4]| TableFault::Short {
        kind: FourCc(*kind),
        at: 100,
    };
    let many = TableFault::TooMany {
        at: 100,
        count: 16_777_217,
    };
    let bits = TableFault::FieldSize { at: 100, bits: 5 };
    let cut: &[u8] = b"\0\0\0\0\0\0\0\x05\0\0\0";
    let too_many: &[u8] = b"\0\0\0\0\0\0\0\x05\x01\0\0\x01";
    let of_five_bits: &[u8] = b"\0\0\0\0\0\0\0\x05\0\0\0\x09";
    let one_byte: &[u8] = b"\0\0\0\0\0\0\0\x04\0\0\0\x03\x12";
    let cases: [(&[u8], TableFault); 4] = [
        (cut, short(b"stz2")),
        (too_many, many),
        (of_five_bits, bits),
        (one_byte, short(b"stz2")),
    ];
    for (body, fault) in cases {
        same(sizes_in(rt.alloc(), b"stz2", body)?.err(), Some(fault))?;
    }
    Ok(())
}

#[test]
fn edit_lists_of_two_forms_are_followed(rt: HostRuntime) -> Result<(), Fail> {
    let one: &[u8] = b"\0\0\0\0\0\0\0\x01\0\0\0\x64\0\0\0\x05\0\x01\0\0";
    let two: &[u8] =
        b"\0\0\0\0\0\0\0\x02\0\0\0\xfa\xff\xff\xff\xff\0\0\0\0\0\0\0\x64\0\0\0\x06\0\x01\0\0";
    let wide: &[u8] = b"\x01\0\0\0\0\0\0\x01\0\0\0\0\0\0\0\x64\0\0\0\x01\0\0\0\x05\0\x01\0\0";
    let fast: &[u8] = b"\0\0\0\0\0\0\0\x01\0\0\0\x64\0\0\0\x05\0\x02\0\0";
    let fraction: &[u8] = b"\0\0\0\0\0\0\0\x01\0\0\0\x64\0\0\0\x05\0\x01\0\x01";
    let early: &[u8] = b"\0\0\0\0\0\0\0\x01\0\0\0\x64\xff\xff\xff\xfe\0\x01\0\0";
    let empty: &[u8] = b"\0\0\0\0\0\0\0\x01\0\0\0\x64\xff\xff\xff\xff\0\x01\0\0";
    let none: &[u8] = b"\0\0\0\0\0\0\0\0";
    let three: &[u8] =
        b"\0\0\0\0\0\0\0\x03\0\0\0\xfa\xff\xff\xff\xff\0\0\0\0\0\0\0\x64\0\0\0\x06\0\x01\0\0\
        \0\0\0\x64\0\0\0\x6a\0\x01\0\0";
    let cases: [(&[u8], u64, u64); 9] = [
        (one, 0, 5),
        (two, 250, 6),
        (wide, 0, 4_294_967_301),
        (fast, 0, 0),
        (fraction, 0, 0),
        (early, 0, 0),
        (empty, 0, 0),
        (none, 0, 0),
        (three, 0, 0),
    ];
    for (body, lead, media_time) in cases {
        let found = read_elst(head(b"elst"), body, 1000, 48000);
        same(found, Ok(Shift { lead, media_time }))?;
    }
    Ok(())
}

#[test]
fn edit_lists_are_refused(rt: HostRuntime) -> Result<(), Fail> {
    // 2^40 seconds at 1000 ticks a second, and one tick more
    let late: &[u8] =
        b"\x01\0\0\0\0\0\0\x02\0\x03\xe8\0\0\0\0\x01\xff\xff\xff\xff\xff\xff\xff\xff\0\x01\0\0\
        \0\0\0\0\0\0\0\0\0\0\0\0\0\0\0\0\0\x01\0\0";
    let cut: &[u8] = b"\0\0\0\0\0\0\0\x01\0\0\0\x64\0\0\0\x05\0\x01\0";
    let short = HeadFault::Short {
        kind: FourCc(*b"elst"),
        at: 100,
    };
    let cases: [(&[u8], HeadFault); 2] = [(late, HeadFault::EditTooLong { at: 100 }), (cut, short)];
    for (body, fault) in cases {
        let found = read_elst(head(b"elst"), body, 1000, 48000);
        same(found, Err(fault))?;
    }
    Ok(())
}

#[test]
fn headers_are_read(rt: HostRuntime) -> Result<(), Fail> {
    let alloc = rt.alloc();
    let narrow = b"\0\0\0\0\0\0\0\0\0\0\0\0\0\0\xbb\x80";
    same(read_timescale(head(b"mdhd"), narrow), Ok(48000))?;
    let wide = b"\x01\0\0\0\0\0\0\0\0\0\0\0\0\0\0\0\0\0\0\0\0\0\xbb\x80";
    same(read_timescale(head(b"mdhd"), wide), Ok(48000))?;
    let short = HeadFault::Short {
        kind: FourCc(*b"mdhd"),
        at: 100,
    };
    same(read_timescale(head(b"mdhd"), &wide[..23]), Err(short))?;
    let references = b"\0\0\0\0\0\0\0\x09\0\0\0\x0curl \0\0\0\x01\0\0\0\x0curl \0\0\0\0";
    let own = read_dref(alloc, head(b"dref"), references)
        .ok()
        .ok_or("refused")?;
    same(own.as_slice(), [true, false].as_slice())?;
    let user = b"\0\0\0\x10sfts\0\0\0\0\0\0\0\x07\0\0";
    same(read_sfts(alloc, head(b"udta"), user).ok(), Some(7))?;
    let cut = b"\0\0\0\x0fsfts\0\0\0\0\0\0\0\0\0\0\x10sfts\0\0\0\0\0\0\0\x07";
    same(read_sfts(alloc, head(b"udta"), cut).ok(), Some(0))?;
    Ok(())
}
