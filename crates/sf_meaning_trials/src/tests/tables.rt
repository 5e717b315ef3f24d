//! Tables by hand in the file's movie box.

use super::*;
use sf_list::same;
use std::test::Fail;

pub(super) const STTS: FourCc = FourCc(*b"stts");

pub(super) const STSZ: FourCc = FourCc(*b"stsz");

pub(super) const STSC: FourCc = FourCc(*b"stsc");

pub(super) const STCO: FourCc = FourCc(*b"stco");

/// The body of a movie box with these tables, of a track with so many ticks a second. `stts` stands at 524.
pub(super) fn moov_of(
    alloc: Global,
    tables: &[(FourCc, &[u8], &[u8])],
) -> Result<Bytes, AllocError> {
    let tables = boxes(alloc, tables)?;
    let stbl = boxes(
        alloc,
        &[(FourCc(*b"stbl"), &SOUND[421..524], tables.as_slice())],
    )?;
    let minf = boxes(
        alloc,
        &[(FourCc(*b"minf"), &SOUND[361..413], stbl.as_slice())],
    )?;
    let mdia = boxes(
        alloc,
        &[(FourCc(*b"mdia"), &SOUND[276..353], minf.as_slice())],
    )?;
    let trak = boxes(
        alloc,
        &[(FourCc(*b"trak"), &SOUND[176..268], mdia.as_slice())],
    )?;
    let mut moov = Bytes::from_slice(alloc, &SOUND[60..168])?;
    moov.append(trak.as_slice())?;
    moov.append(&SOUND[616..640])?;
    Ok(moov)
}

pub(super) fn read(
    alloc: Global,
    tables: &[(FourCc, &[u8], &[u8])],
    file_len: u64,
) -> Result<Result<PlainMovie, MovieFault>, AllocError> {
    let moov = moov_of(alloc, tables)?;
    Ok(plain_movie(alloc, moov.as_slice(), 60, file_len))
}

pub(super) const FIELDS: &[u8] = b"\0\0\0\0";

pub(super) const TIMES: &[u8] = b"\0\0\0\x01\0\0\0\x03\0\0\x04\0";

pub(super) const FOUR_TIMES: &[u8] = b"\0\0\0\x01\0\0\0\x04\0\0\x04\0";

pub(super) const SIZES: &[u8] = b"\0\0\0\0\0\0\0\x03\0\0\0\x0a\0\0\0\x14\0\0\0\x1e";

pub(super) const FOUR_SIZES: &[u8] = b"\0\0\0\0\0\0\0\x04\0\0\0\x0a\0\0\0\x14\0\0\0\x1e\0\0\0\x28";

pub(super) const SPREAD: &[u8] =
    b"\0\0\0\x02\0\0\0\x01\0\0\0\x02\0\0\0\x01\0\0\0\x02\0\0\0\x01\0\0\0\x01";

pub(super) const PLACES: &[u8] = b"\0\0\0\x02\0\0\0\x64\0\0\0\xc8";

#[test]
fn samples_lie_in_their_chunks(rt: HostRuntime) -> Result<(), Fail> {
    let tables = [
        (STTS, FIELDS, TIMES),
        (STSZ, FIELDS, SIZES),
        (STSC, FIELDS, SPREAD),
        (STCO, FIELDS, PLACES),
    ];
    let movie = read(rt.alloc(), &tables, 1000)?.ok().ok_or("refused")?;
    same(movie.scale, 1_000_000)?;
    same(movie.start_us, 0)?;
    same(movie.tracks.len(), 1)?;
    let track = movie.tracks.as_slice().first().ok_or("no track")?;
    same(track.kind, TrackKind::Aac)?;
    same(track.scale, 48000)?;
    let found = [(0, 100, 10), (1024, 110, 20), (2048, 200, 30)];
    same(track.samples.len(), 3)?;
    for (sample, (decode, place, size)) in track.samples.as_slice().iter().zip(found) {
        let wanted = PlainSample {
            decode,
            compose: decode as i64,
            sync: true,
            place,
            size,
            description: 1,
        };
        same(*sample, wanted)?;
    }
    Ok(())
}

/// What is wrong with the file with these four tables.
fn fault_of(
    alloc: Global,
    stts: &[u8],
    stsz: &[u8],
    stsc: &[u8],
    stco: &[u8],
) -> Result<Option<MovieFault>, AllocError> {
    let tables = [
        (STTS, FIELDS, stts),
        (STSZ, FIELDS, stsz),
        (STSC, FIELDS, stsc),
        (STCO, FIELDS, stco),
    ];
    Ok(read(alloc, &tables, 1000)?.err())
}

#[test]
fn tables_that_end_too_early_are_refused(rt: HostRuntime) -> Result<(), Fail> {
    let short = |kind: FourCc, at: u64| Some(MovieFault::Table(TableFault::Short { kind, at }));
    let none: &[u8] = b"\0\0\0";
    let alloc = rt.alloc();
    let found = fault_of(alloc, FOUR_TIMES, FOUR_SIZES, SPREAD, PLACES)?;
    same(found, short(STSC, 584))?;
    same(
        fault_of(alloc, none, SIZES, SPREAD, PLACES)?,
        short(STTS, 524),
    )?;
    same(
        fault_of(alloc, TIMES, none, SPREAD, PLACES)?,
        short(STSZ, 548),
    )?;
    same(
        fault_of(alloc, TIMES, SIZES, none, PLACES)?,
        short(STSC, 580),
    )?;
    same(
        fault_of(alloc, TIMES, SIZES, SPREAD, none)?,
        short(STCO, 620),
    )?;
    Ok(())
}

#[test]
fn a_table_that_is_missing_is_told_where_its_holder_begins(rt: HostRuntime) -> Result<(), Fail> {
    let tables = [
        (STTS, FIELDS, TIMES),
        (STSZ, FIELDS, SIZES),
        (STSC, FIELDS, SPREAD),
    ];
    same(
        read(rt.alloc(), &tables, 1000)?.err(),
        Some(MovieFault::Table(TableFault::Missing {
            kind: STCO,
            at: 421,
        })),
    )?;
    Ok(())
}

#[test]
fn a_sample_may_not_be_too_long(rt: HostRuntime) -> Result<(), Fail> {
    let sizes: &[u8] = b"\x04\0\0\x01\0\0\0\x03";
    let tables = [
        (STTS, FIELDS, TIMES),
        (STSZ, FIELDS, sizes),
        (STSC, FIELDS, SPREAD),
        (STCO, FIELDS, PLACES),
    ];
    let fault = MovieFault::SampleTooLarge {
        track: 0,
        sample: 0,
        size: 67_108_865,
    };
    same(read(rt.alloc(), &tables, 1 << 40)?.err(), Some(fault))?;
    Ok(())
}
