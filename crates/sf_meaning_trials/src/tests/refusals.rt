//! One box of the file stands in place of another, and the refusal names the place.

use super::*;
use sf_list::same;
use std::test::Fail;

/// The places and sizes of the boxes of the file that hold others.
const HOLDERS: [(u32, u32); 9] = [
    (52, 588),
    (168, 448),
    (268, 348),
    (353, 263),
    (377, 36),
    (385, 28),
    (413, 203),
    (421, 103),
    (616, 24),
];

/// The file with other bytes in place of those from a place up to another. Each box that holds them has
/// its size changed.
pub(super) fn replaced(
    alloc: Global,
    from: u32,
    to: u32,
    bytes: &[u8],
) -> Result<Bytes, AllocError> {
    if from > to || to > 640 || bytes.len() > 1000 {
        return Err(AllocError);
    }
    let mut file = Bytes::from_slice(alloc, &SOUND[..from as usize])?;
    file.append(bytes)?;
    file.append(&SOUND[to as usize..])?;
    let more = bytes.len() as u32;
    for (at, size) in HOLDERS {
        let holds = at < from && to <= at.saturating_add(size);
        let at = at as usize;
        if holds && at + 4 <= file.len() {
            let now = size.saturating_add(more).saturating_sub(to - from);
            file.patch(at, &now.to_be_bytes());
        }
    }
    Ok(file)
}

/// What is wrong with such a file.
pub(super) fn fault_of(
    alloc: Global,
    from: u32,
    to: u32,
    bytes: &[u8],
) -> Result<Option<MovieFault>, AllocError> {
    let file = replaced(alloc, from, to, bytes)?;
    Ok(plain_file(alloc, file.as_slice()).err())
}

#[test]
fn seven_bytes_are_no_box(rt: HostRuntime) -> Result<(), Fail> {
    let head = |at: u64| MovieFault::Head(HeadFault::Tiling(BoxFault::Short { at }));
    let cases = [
        (616, 640, MovieFault::Tiling(BoxFault::Short { at: 616 })),
        (60, 640, MovieFault::Tiling(BoxFault::Short { at: 60 })),
        (176, 616, head(176)),
        (276, 616, head(276)),
        (361, 616, head(361)),
        (385, 413, head(385)),
        (401, 413, head(401)),
        (
            421,
            616,
            MovieFault::Table(TableFault::Tiling(BoxFault::Short { at: 421 })),
        ),
    ];
    for (from, to, fault) in cases {
        same(
            (from, fault_of(rt.alloc(), from, to, &[0; 7])?),
            (from, Some(fault)),
        )?;
    }
    Ok(())
}

#[test]
fn a_size_below_that_of_the_head_is_no_box(rt: HostRuntime) -> Result<(), Fail> {
    let overrun = |at: u64| BoxFault::Overrun { at, size: 7 };
    let head = |at: u64| MovieFault::Head(HeadFault::Tiling(overrun(at)));
    let cases = [
        (0, MovieFault::Tiling(overrun(0))),
        (60, MovieFault::Tiling(overrun(60))),
        (176, head(176)),
        (276, head(276)),
        (361, head(361)),
        (385, head(385)),
        (401, head(401)),
        (421, MovieFault::Table(TableFault::Tiling(overrun(421)))),
    ];
    for (at, fault) in cases {
        let found = fault_of(rt.alloc(), at, at, b"\0\0\0\x07free")?;
        same((at, found), (at, Some(fault)))?;
    }
    Ok(())
}

#[test]
fn headers_are_refused(rt: HostRuntime) -> Result<(), Fail> {
    let short = |kind: [u8; 4], at: u64| {
        Some(MovieFault::Head(HeadFault::Short {
            kind: FourCc(kind),
            at,
        }))
    };
    let scale_0 = |at: u64| Some(MovieFault::Head(HeadFault::Scale0 { at }));
    let bare: &[u8] = b"\0\0\0\x08mvhd";
    let narrow: &[u8] = b"\0\0\0\x17mvhd\0\0\0\0\0\0\0\0\0\0\0\0\0\0\0";
    let wide: &[u8] = b"\0\0\0\x1fmvhd\x01\0\0\0\0\0\0\0\0\0\0\0\0\0\0\0\0\0\0\0\0\0\0";
    let none: &[u8] = b"\0\0\0\x20mvhd\x01\0\0\0\0\0\0\0\0\0\0\0\0\0\0\0\0\0\0\0\0\0\0\0";
    let media: &[u8] = b"\0\0\0\x17mdhd\0\0\0\0\0\0\0\0\0\0\0\0\0\0\0";
    let wide_media: &[u8] = b"\0\0\0\x1fmdhd\x01\0\0\0\0\0\0\0\0\0\0\0\0\0\0\0\0\0\0\0\0\0\0";
    let no_ticks: &[u8] = b"\0\0\0\x20mdhd\x01\0\0\0\0\0\0\0\0\0\0\0\0\0\0\0\0\0\0\0\0\0\0\0";
    let cases = [
        (60, 168, bare, short(*b"mvhd", 60)),
        (60, 168, narrow, short(*b"mvhd", 60)),
        (60, 168, wide, short(*b"mvhd", 60)),
        (60, 168, none, scale_0(60)),
        (276, 308, media, short(*b"mdhd", 276)),
        (276, 308, wide_media, short(*b"mdhd", 276)),
        (276, 308, no_ticks, scale_0(276)),
    ];
    for (from, to, bytes, fault) in cases {
        same(
            (from, fault_of(rt.alloc(), from, to, bytes)?),
            (from, fault),
        )?;
    }
    Ok(())
}

#[test]
fn data_references_are_refused(rt: HostRuntime) -> Result<(), Fail> {
    let short = |kind: [u8; 4], at: u64| {
        Some(MovieFault::Head(HeadFault::Short {
            kind: FourCc(kind),
            at,
        }))
    };
    let no_count: &[u8] = b"\0\0\0\x0fdref\0\0\0\0\0\0\0";
    let no_flags: &[u8] = b"\0\0\0\x0burl \0\0\0";
    let second: &[u8] = b"\0\0\0\x0curl \0\0\0\x01\0\0\0\x08what";
    let other_count: &[u8] = b"\0\0\0\x09";
    let none: &[u8] = b"";
    let cases = [
        (385, 413, no_count, short(*b"dref", 385)),
        (401, 413, no_flags, short(*b"url ", 401)),
        (401, 413, second, short(*b"what", 413)),
        // the count isn't looked at, and no reference names no other file
        (397, 401, other_count, None),
        (401, 413, none, None),
        (385, 413, none, None),
    ];
    for (from, to, bytes, fault) in cases {
        same(
            (from, fault_of(rt.alloc(), from, to, bytes)?),
            (from, fault),
        )?;
    }
    Ok(())
}

#[test]
fn edit_lists_are_refused_in_their_box(rt: HostRuntime) -> Result<(), Fail> {
    let tiling = |fault: BoxFault| Some(MovieFault::Head(HeadFault::Tiling(fault)));
    let short = Some(MovieFault::Head(HeadFault::Short {
        kind: FourCc(*b"elst"),
        at: 276,
    }));
    let long = Some(MovieFault::Head(HeadFault::EditTooLong { at: 276 }));
    let cut: &[u8] = b"\0\0\0\x0fedts\0\0\0\0\0\0\0";
    let over: &[u8] = b"\0\0\0\x10edts\0\0\0\x09free";
    let no_count: &[u8] = b"\0\0\0\x17edts\0\0\0\x0felst\0\0\0\0\0\0\0";
    let no_edit: &[u8] = b"\0\0\0\x23edts\0\0\0\x1belst\0\0\0\0\0\0\0\x01\0\0\0\0\0\0\0\0\0\0\0";
    let empty: &[u8] = b"\0\0\0\x08edts";
    // 2^40 seconds at 48000 ticks a second, and one tick more
    let media: &[u8] = b"\0\0\0\x2cedts\0\0\0\x24elst\x01\0\0\0\0\0\0\x01\0\0\0\0\0\0\0\0\
        \0\xbb\x80\0\0\0\0\0\0\x01\0\0";
    let late_media: &[u8] = b"\0\0\0\x2cedts\0\0\0\x24elst\x01\0\0\0\0\0\0\x01\0\0\0\0\0\0\0\0\
        \0\xbb\x80\0\0\0\0\x01\0\x01\0\0";
    // the same at 1000000 ticks a second
    let lead: &[u8] = b"\0\0\0\x40edts\0\0\0\x38elst\x01\0\0\0\0\0\0\x02\
        \x0f\x42\x40\0\0\0\0\0\xff\xff\xff\xff\xff\xff\xff\xff\0\0\0\0\
        \0\0\0\0\0\0\0\0\0\0\0\0\0\0\0\0\0\x01\0\0";
    let late_lead: &[u8] = b"\0\0\0\x40edts\0\0\0\x38elst\x01\0\0\0\0\0\0\x02\
        \x0f\x42\x40\0\0\0\0\x01\xff\xff\xff\xff\xff\xff\xff\xff\0\0\0\0\
        \0\0\0\0\0\0\0\0\0\0\0\0\0\0\0\0\0\x01\0\0";
    let cases = [
        (cut, tiling(BoxFault::Short { at: 276 })),
        (over, tiling(BoxFault::Overrun { at: 276, size: 9 })),
        (no_count, short),
        (no_edit, short),
        (empty, None),
        (media, None),
        (late_media, long),
        (lead, None),
        (late_lead, long),
    ];
    for (bytes, fault) in cases {
        same(fault_of(rt.alloc(), 268, 268, bytes)?, fault)?;
    }
    Ok(())
}

#[test]
fn first_chunks_rise(rt: HostRuntime) -> Result<(), Fail> {
    let fallen = Some(MovieFault::Table(TableFault::NotRising {
        kind: FourCc(*b"stsc"),
        at: 568,
    }));
    let head: &[u8] = b"\0\0\0\x28stsc\0\0\0\0\0\0\0\x02\0\0\0\x01\0\0\0\x03\0\0\0\x01";
    let rest: &[u8] = b"\0\0\0\x01\0\0\0\x01";
    let cases = [
        ([0, 0, 0, 0], fallen),
        ([0, 0, 0, 1], fallen),
        ([0, 0, 0, 2], None),
    ];
    for (first, fault) in cases {
        let mut stsc = Bytes::from_slice(rt.alloc(), head)?;
        stsc.append(&first)?;
        stsc.append(rest)?;
        let found = fault_of(rt.alloc(), 568, 596, stsc.as_slice())?;
        same(found, fault)?;
    }
    Ok(())
}
