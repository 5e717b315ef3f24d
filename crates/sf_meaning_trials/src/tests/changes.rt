//! Four bytes of the file are changed, and the refusal names the place.

use super::*;
use sf_list::same;
use std::test::Fail;

const fn word(kind: &[u8; 4]) -> u32 {
    u32::from_be_bytes([kind[0], kind[1], kind[2], kind[3]])
}

fn changed(alloc: Global, at: usize, word: u32) -> Result<Bytes, AllocError> {
    let mut file = Bytes::from_slice(alloc, &SOUND)?;
    if at < 637 {
        file.patch(at, &word.to_be_bytes());
    }
    Ok(file)
}

fn found(alloc: Global, at: usize, word: u32) -> Result<Option<MovieFault>, AllocError> {
    let file = changed(alloc, at, word)?;
    Ok(plain_file(alloc, file.as_slice()).err())
}

#[test]
fn a_box_of_an_unknown_type_is_passed_over(rt: HostRuntime) -> Result<(), Fail> {
    let head = |kind: [u8; 4], at: u64| {
        Some(MovieFault::Head(HeadFault::Missing {
            kind: FourCc(kind),
            at,
        }))
    };
    let table = |kind: [u8; 4]| {
        Some(MovieFault::Table(TableFault::Missing {
            kind: FourCc(kind),
            at: 421,
        }))
    };
    let cases = [
        (60usize, head(*b"mvhd", 60)),
        (168, None),
        (176, None),
        (268, head(*b"mdia", 176)),
        (276, head(*b"mdhd", 276)),
        (308, None),
        (353, head(*b"minf", 276)),
        (361, None),
        (377, None),
        (385, None),
        (413, head(*b"stbl", 361)),
        (421, table(*b"stsd")),
        (524, table(*b"stts")),
        (548, table(*b"stsz")),
        (568, table(*b"stsc")),
        (596, table(*b"stco")),
        (616, None),
        (624, None),
    ];
    for (at, fault) in cases {
        same(
            (at, found(rt.alloc(), at.saturating_add(4), word(b"free"))?),
            (at, fault),
        )?;
    }
    Ok(())
}

#[test]
fn a_box_that_passes_its_holder_is_told_at_its_place(rt: HostRuntime) -> Result<(), Fail> {
    let overrun = |at: u64, size: u64| BoxFault::Overrun { at, size };
    let cases = [
        (52, 589, MovieFault::Tiling(overrun(52, 589))),
        (36, 617, MovieFault::Tiling(overrun(24, 617))),
        (36, 15, MovieFault::Tiling(overrun(24, 15))),
        (60, 7, MovieFault::Tiling(overrun(60, 7))),
        (60, 0, MovieFault::Tiling(overrun(60, 0))),
        (168, 473, MovieFault::Tiling(overrun(168, 473))),
        (
            176,
            441,
            MovieFault::Head(HeadFault::Tiling(overrun(176, 441))),
        ),
        (
            276,
            341,
            MovieFault::Head(HeadFault::Tiling(overrun(276, 341))),
        ),
        (
            361,
            256,
            MovieFault::Head(HeadFault::Tiling(overrun(361, 256))),
        ),
        (
            385,
            29,
            MovieFault::Head(HeadFault::Tiling(overrun(385, 29))),
        ),
        (
            401,
            13,
            MovieFault::Head(HeadFault::Tiling(overrun(401, 13))),
        ),
        (
            524,
            93,
            MovieFault::Table(TableFault::Tiling(overrun(524, 93))),
        ),
    ];
    for (at, size, fault) in cases {
        same((at, found(rt.alloc(), at, size)?), (at, Some(fault)))?;
    }
    Ok(())
}

#[test]
fn a_field_that_is_wrong_is_told_at_its_box(rt: HostRuntime) -> Result<(), Fail> {
    let stts = FourCc(*b"stts");
    let stsz = FourCc(*b"stsz");
    let stsc = FourCc(*b"stsc");
    let stco = FourCc(*b"stco");
    let table = MovieFault::Table;
    let cases = [
        (28, word(b"moov"), MovieFault::TwoMoov { at: 52 }),
        (56, word(b"free"), MovieFault::NoMoov { at: 640 }),
        (80, 0, MovieFault::Head(HeadFault::Scale0 { at: 60 })),
        (296, 0, MovieFault::Head(HeadFault::Scale0 { at: 276 })),
        (409, 0, MovieFault::External { at: 437 }),
        (
            536,
            2,
            table(TableFault::Short {
                kind: stts,
                at: 524,
            }),
        ),
        (
            540,
            2,
            table(TableFault::Short {
                kind: stts,
                at: 524,
            }),
        ),
        (
            580,
            2,
            table(TableFault::Short {
                kind: stsc,
                at: 568,
            }),
        ),
        (
            584,
            2,
            table(TableFault::NotRising {
                kind: stsc,
                at: 568,
            }),
        ),
        (
            584,
            0,
            table(TableFault::NotRising {
                kind: stsc,
                at: 568,
            }),
        ),
        (
            588,
            2,
            table(TableFault::Short {
                kind: stsc,
                at: 568,
            }),
        ),
        (592, 0, table(TableFault::Description { at: 568, index: 0 })),
        (592, 2, table(TableFault::Description { at: 568, index: 2 })),
        (
            560,
            0,
            table(TableFault::Short {
                kind: stsz,
                at: 548,
            }),
        ),
        (
            564,
            4_294_967_295,
            table(TableFault::TooMany {
                at: 548,
                count: 4_294_967_295,
            }),
        ),
        (
            564,
            16_777_217,
            table(TableFault::TooMany {
                at: 548,
                count: 16_777_217,
            }),
        ),
        (
            564,
            4,
            table(TableFault::Short {
                kind: stts,
                at: 524,
            }),
        ),
        (
            608,
            2,
            table(TableFault::Short {
                kind: stco,
                at: 596,
            }),
        ),
        (
            608,
            0,
            table(TableFault::Short {
                kind: stsc,
                at: 568,
            }),
        ),
        (
            612,
            632,
            MovieFault::SampleOutside {
                track: 0,
                sample: 2,
            },
        ),
        (
            612,
            636,
            MovieFault::SampleOutside {
                track: 0,
                sample: 1,
            },
        ),
        (
            612,
            637,
            MovieFault::SampleOutside {
                track: 0,
                sample: 0,
            },
        ),
    ];
    for (at, word, fault) in cases {
        same((at, found(rt.alloc(), at, word)?), (at, Some(fault)))?;
    }
    Ok(())
}

#[test]
fn what_is_not_looked_at_may_change(rt: HostRuntime) -> Result<(), Fail> {
    // the sizes of the start's box, two versions, a bitrate of the sound
    for (at, word) in [(624, 17), (68, 0x0100_0000), (284, 0x0100_0000), (500, 1)] {
        same((at, found(rt.alloc(), at, word)?), (at, None))?;
    }
    Ok(())
}

#[test]
fn a_sample_may_end_where_the_file_ends(rt: HostRuntime) -> Result<(), Fail> {
    same(found(rt.alloc(), 612, 628)?, None)?;
    Ok(())
}

#[test]
fn a_file_that_is_cut_is_told_where_it_ends(rt: HostRuntime) -> Result<(), Fail> {
    let short = |at: u64| Some(MovieFault::Tiling(BoxFault::Short { at }));
    let cases = [
        (0, Some(MovieFault::NoMoov { at: 0 })),
        (7, short(0)),
        (
            8,
            Some(MovieFault::Tiling(BoxFault::Overrun { at: 0, size: 24 })),
        ),
        (24, Some(MovieFault::NoMoov { at: 24 })),
        (39, short(24)),
        (59, short(52)),
        (
            639,
            Some(MovieFault::Tiling(BoxFault::Overrun { at: 52, size: 588 })),
        ),
        (640, None),
    ];
    for (len, fault) in cases {
        let fault_found = plain_file(rt.alloc(), &SOUND[..len]).err();
        same((len, fault_found), (len, fault))?;
    }
    Ok(())
}
