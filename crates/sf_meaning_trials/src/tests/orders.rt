//! What is told first, which of several boxes counts, and what isn't looked at.

use super::refusals::{fault_of, replaced};
use super::*;
use sf_list::same;
use std::test::Fail;

/// What is wrong with the file with other sample entries, with their count, and with a data reference that
/// names this very file or another.
fn entries_fault(
    alloc: Global,
    own: bool,
    entries: &[u8],
) -> Result<Option<MovieFault>, AllocError> {
    let mut file = replaced(alloc, 433, 524, entries)?;
    if !own && file.len() > 413 {
        file.patch(409, &[0; 4]);
    }
    Ok(plain_file(alloc, file.as_slice()).err())
}

/// A count of 1, and an entry with so many zero bytes after its head and then other bytes.
fn one_entry(alloc: Global, kind: &[u8; 4], len: u8, last: &[u8]) -> Result<Bytes, AllocError> {
    let mut body = Bytes::new(alloc);
    for _ in 0..len {
        body.append(&[0])?;
    }
    let entry = boxes(alloc, &[(FourCc(*kind), body.as_slice(), last)])?;
    let mut all = Bytes::from_slice(alloc, b"\0\0\0\x01")?;
    all.append(entry.as_slice())?;
    Ok(all)
}

#[test]
fn sample_entries_are_refused(rt: HostRuntime) -> Result<(), Fail> {
    let alloc = rt.alloc();
    let entry = |fault: EntryFault| Some(MovieFault::Entry(fault));
    let short = |at: u64| entry(EntryFault::Short { at });
    let bad: &[u8] = b"\0\0\0\x09avcC\x02";
    let cut: &[u8] = b"\0\0\0\x0aavcC\x02";
    let none: &[u8] = b"";
    let cases = [
        (b"avc1", 77, none, short(437)),
        (b"avc1", 78, none, entry(EntryFault::NoAvcC { at: 437 })),
        (b"avc1", 78, cut, entry(EntryFault::NoAvcC { at: 437 })),
        (b"avc1", 78, bad, entry(EntryFault::BadAvcC { at: 437 })),
        (b"text", 7, none, short(437)),
        (b"text", 8, none, None),
        (b"mp4a", 7, none, short(437)),
        (b"mp4a", 8, none, None),
    ];
    for (kind, len, last, fault) in cases {
        let entries = one_entry(alloc, kind, len, last)?;
        let found = entries_fault(alloc, true, entries.as_slice())?;
        same((len, found), (len, fault))?;
    }
    let no_count: &[u8] = b"\0\0\0\x0fstsd\0\0\0\0\0\0\0";
    same(fault_of(alloc, 421, 524, no_count)?, short(429))?;
    Ok(())
}

#[test]
fn entries_are_looked_at_before_their_references(rt: HostRuntime) -> Result<(), Fail> {
    let short = Some(MovieFault::Entry(EntryFault::Short { at: 453 }));
    let external = |at: u64| Some(MovieFault::External { at });
    let then_short: &[u8] =
        b"\0\0\0\x02\0\0\0\x10text\0\0\0\0\0\0\0\x01\0\0\0\x0ftext\0\0\0\0\0\0\0";
    let first: &[u8] =
        b"\0\0\0\x02\0\0\0\x10text\0\0\0\0\0\0\0\x01\0\0\0\x10text\0\0\0\0\0\0\0\x01";
    let second: &[u8] =
        b"\0\0\0\x02\0\0\0\x10text\0\0\0\0\0\0\0\x02\0\0\0\x10text\0\0\0\0\0\0\0\x01";
    let none: &[u8] = b"\0\0\0\x02\0\0\0\x10text\0\0\0\0\0\0\0\x02\0\0\0\x10text\0\0\0\0\0\0\0\0";
    let cases = [
        (false, then_short, short),
        (true, then_short, short),
        (false, first, external(437)),
        (false, second, external(453)),
        (true, second, None),
        (false, none, None),
    ];
    for (own, entries, fault) in cases {
        same(entries_fault(rt.alloc(), own, entries)?, fault)?;
    }
    Ok(())
}

#[test]
fn a_track_is_finished_before_the_next(rt: HostRuntime) -> Result<(), Fail> {
    let alloc = rt.alloc();
    let mut moov = Bytes::from_slice(alloc, &SOUND[60..616])?;
    moov.append(b"\0\0\0\x08trak")?;
    let outside = MovieFault::SampleOutside {
        track: 0,
        sample: 0,
    };
    let missing = MovieFault::Head(HeadFault::Missing {
        kind: FourCc(*b"mdia"),
        at: 624,
    });
    let moov = moov.as_slice();
    same(plain_movie(alloc, moov, 60, 40).err(), Some(outside))?;
    same(plain_movie(alloc, moov, 60, 640).err(), Some(missing))?;
    Ok(())
}

#[test]
fn a_sample_is_named_by_its_track(rt: HostRuntime) -> Result<(), Fail> {
    let alloc = rt.alloc();
    // the same track once more, with its chunk past the end
    let mut moov = Bytes::from_slice(alloc, &SOUND[60..616])?;
    moov.append(&SOUND[168..612])?;
    moov.append(b"\0\0\x03\xe8")?;
    let outside = MovieFault::SampleOutside {
        track: 1,
        sample: 0,
    };
    let found = plain_movie(alloc, moov.as_slice(), 60, 640).err();
    same(found, Some(outside))?;
    Ok(())
}

#[test]
fn the_first_of_several_tables_counts(rt: HostRuntime) -> Result<(), Fail> {
    let outside = Some(MovieFault::SampleOutside {
        track: 0,
        sample: 0,
    });
    let far: &[u8] = b"\0\0\0\x14stco\0\0\0\0\0\0\0\x01\0\0\x03\xe8";
    let wide: &[u8] = b"\0\0\0\x18co64\0\0\0\0\0\0\0\x01\0\0\0\0\0\0\x03\xe8";
    let odd: &[u8] = b"\0\0\0\x14stz2\0\0\0\0\0\0\0\x05\0\0\0\x03";
    let cases = [
        (616, far, None),
        (596, far, outside),
        (616, wide, None),
        (596, wide, None),
        (616, odd, None),
        (548, odd, None),
    ];
    for (at, table, fault) in cases {
        same((at, fault_of(rt.alloc(), at, at, table)?), (at, fault))?;
    }
    Ok(())
}

#[test]
fn small_sizes_are_refused_in_their_box(rt: HostRuntime) -> Result<(), Fail> {
    let table = |fault: TableFault| Some(MovieFault::Table(fault));
    let short = table(TableFault::Short {
        kind: FourCc(*b"stz2"),
        at: 548,
    });
    let many = table(TableFault::TooMany {
        at: 548,
        count: 16_777_217,
    });
    let bits = table(TableFault::FieldSize { at: 548, bits: 5 });
    let no_count: &[u8] = b"\0\0\0\x13stz2\0\0\0\0\0\0\0\x05\0\0\0";
    let five_bits: &[u8] = b"\0\0\0\x14stz2\0\0\0\0\0\0\0\x05\0\0\0\x03";
    let too_many: &[u8] = b"\0\0\0\x14stz2\0\0\0\0\0\0\0\x05\x01\0\0\x01";
    let cut: &[u8] = b"\0\0\0\x19stz2\0\0\0\0\0\0\0\x10\0\0\0\x03\0\x04\0\x04\0";
    let whole: &[u8] = b"\0\0\0\x16stz2\0\0\0\0\0\0\0\x04\0\0\0\x03\x44\x40";
    let cases = [
        (no_count, short),
        (five_bits, bits),
        (too_many, many),
        (cut, short),
        (whole, None),
    ];
    for (sizes, fault) in cases {
        same(fault_of(rt.alloc(), 548, 568, sizes)?, fault)?;
    }
    Ok(())
}

#[test]
fn descriptions_past_the_last_sample_are_not_looked_at(rt: HostRuntime) -> Result<(), Fail> {
    let none = Some(MovieFault::Table(TableFault::Description { at: 568, index: 9 }));
    // two chunks at 40, with three samples and one, with two and one, and with none and three
    let later: &[u8] =
        b"\0\0\0\x28stsc\0\0\0\0\0\0\0\x02\0\0\0\x01\0\0\0\x03\0\0\0\x01\0\0\0\x02\0\0\0\x01\0\0\0\x09\
        \0\0\0\x18stco\0\0\0\0\0\0\0\x02\0\0\0\x28\0\0\0\x28";
    let third: &[u8] =
        b"\0\0\0\x28stsc\0\0\0\0\0\0\0\x02\0\0\0\x01\0\0\0\x02\0\0\0\x01\0\0\0\x02\0\0\0\x01\0\0\0\x09\
        \0\0\0\x18stco\0\0\0\0\0\0\0\x02\0\0\0\x28\0\0\0\x28";
    let no_sample: &[u8] =
        b"\0\0\0\x28stsc\0\0\0\0\0\0\0\x02\0\0\0\x01\0\0\0\0\0\0\0\x09\0\0\0\x02\0\0\0\x03\0\0\0\x01\
        \0\0\0\x18stco\0\0\0\0\0\0\0\x02\0\0\0\x28\0\0\0\x28";
    let cases = [(later, None), (third, none), (no_sample, None)];
    for (tables, fault) in cases {
        same(fault_of(rt.alloc(), 568, 616, tables)?, fault)?;
    }
    Ok(())
}

#[test]
fn a_movie_box_may_have_a_wide_size(rt: HostRuntime) -> Result<(), Fail> {
    let alloc = rt.alloc();
    let file = replaced(alloc, 52, 60, b"\0\0\0\x01moov\0\0\0\0\0\0\x02\x54")?;
    let movie = plain_file(alloc, file.as_slice()).ok().ok_or("refused")?;
    same(movie.scale, 1_000_000)?;
    same(movie.tracks.len(), 1)?;
    Ok(())
}
