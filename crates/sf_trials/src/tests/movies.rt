//! Lists of movies that other programs write, built box by box.

use super::*;
use sf_extract::read_plan;
use sf_handmade::SOUND;
use sf_list::{holds, same};
use sf_meaning::MovieFault;
use sf_reader::{ExtractOutcome, extract_direct};
use sf_world::HoleSource;
use std::fmt::Write;
use std::test::Fail;

/// Bytes that hold the boxes of these types and bodies, one after the other (ISO/IEC 14496-12, 4.2).
fn boxes(alloc: Global, all: &[(&[u8; 4], &[u8])]) -> Result<Bytes, AllocError> {
    let mut out = Bytes::new(alloc);
    for (kind, body) in all {
        let size = u32::try_from(body.len())
            .map_err(|_| AllocError)?
            .wrapping_add(8);
        out.append(&size.to_be_bytes())?;
        out.append(kind.as_slice())?;
        out.append(body)?;
    }
    Ok(out)
}

/// Numbers of four bytes.
fn words(alloc: Global, all: &[u32]) -> Result<Bytes, AllocError> {
    let mut out = Bytes::new(alloc);
    for word in all {
        out.append(&word.to_be_bytes())?;
    }
    Ok(out)
}

/// The body of a sample description box with one entry (8.5.2).
fn stsd(alloc: Global, entry: &[u8]) -> Result<Bytes, AllocError> {
    let mut out = words(alloc, &[0, 1])?;
    out.append(entry)?;
    Ok(out)
}

/// The entry of AVC video of 64 by 48, as formats.
fn avc1(alloc: Global) -> Result<Bytes, AllocError> {
    let mut body = Bytes::from_slice(
        alloc,
        b"\0\0\0\0\0\0\0\x01\0\0\0\0\0\0\0\0\0\0\0\0\0\0\0\0\0\x40\0\x30",
    )?;
    body.append(
        b"\0\x48\0\0\0\x48\0\0\0\0\0\0\0\x01\0\0\0\0\0\0\0\0\0\0\0\0\0\0\0\0\0\0\0\0\0\0\0\0\0\0\0\0\0\0\0\0\0\x18\xff\xff",
    )?;
    let config = b"\x01\x42\0\x1e\xff\xe1\0\x05\x67\x42\0\x1e\xf0\x01\0\x04\x68\xce\x38\x80";
    let avcc = boxes(alloc, &[(b"avcC", config)])?;
    body.append(avcc.as_slice())?;
    boxes(alloc, &[(b"avc1", body.as_slice())])
}

/// What a track of a movie says of its samples: of `count` samples of `size` bytes each, which stand one after the
/// other from a place on, each decoded `delta` ticks after the one before.
#[derive(Clone, Copy)]
struct Uniform {
    scale: u32,
    delta: u32,
    size: u32,
    count: u32,
    place: u32,
}

/// The track box of samples with this entry and these sync samples (8.3 to 8.7).
fn trak(alloc: Global, of: Uniform, entry: &[u8], syncs: &[u32]) -> Result<Bytes, AllocError> {
    let mdhd = words(
        alloc,
        &[0, 0, 0, of.scale, of.count.wrapping_mul(of.delta), 0],
    )?;
    let stsd = stsd(alloc, entry)?;
    let stts = words(alloc, &[0, 1, of.count, of.delta])?;
    let stsz = words(alloc, &[0, of.size, of.count])?;
    let stsc = words(alloc, &[0, 1, 1, of.count, 1])?;
    let stco = words(alloc, &[0, 1, of.place])?;
    let mut stbl = boxes(
        alloc,
        &[(b"stsd", stsd.as_slice()), (b"stts", stts.as_slice())],
    )?;
    if let [_, ..] = syncs {
        let count = u32::try_from(syncs.len()).map_err(|_| AllocError)?;
        let mut stss = words(alloc, &[0, count])?;
        let numbers = words(alloc, syncs)?;
        stss.append(numbers.as_slice())?;
        let stss = boxes(alloc, &[(b"stss", stss.as_slice())])?;
        stbl.append(stss.as_slice())?;
    }
    let rest = boxes(
        alloc,
        &[
            (b"stsz", stsz.as_slice()),
            (b"stsc", stsc.as_slice()),
            (b"stco", stco.as_slice()),
        ],
    )?;
    stbl.append(rest.as_slice())?;
    let dinf = boxes(
        alloc,
        &[(b"dref", b"\0\0\0\0\0\0\0\x01\0\0\0\x0curl \0\0\0\x01")],
    )?;
    let minf = boxes(
        alloc,
        &[(b"dinf", dinf.as_slice()), (b"stbl", stbl.as_slice())],
    )?;
    let mdia = boxes(
        alloc,
        &[(b"mdhd", mdhd.as_slice()), (b"minf", minf.as_slice())],
    )?;
    let body = boxes(
        alloc,
        &[(b"tkhd", [0; 84].as_slice()), (b"mdia", mdia.as_slice())],
    )?;
    boxes(alloc, &[(b"trak", body.as_slice())])
}

/// The lines of a track's samples, each of which is shown when it is decoded; one in so many is sync.
fn put_lines(
    alloc: Global,
    lines: &mut Bytes,
    track: u32,
    of: Uniform,
    every: u32,
) -> Result<(), AllocError> {
    let size = of.size;
    for number in 0..of.count {
        let tick = u64::from(number) * u64::from(of.delta);
        let sync = match number.checked_rem(every) {
            Some(0) => 1u8,
            _ => 0,
        };
        let mut line = format!(in alloc; "sample {track} {number} {tick} ")?;
        write!(line, "{tick} {sync} {size}\n")?;
        lines.append(line.as_bytes())?;
    }
    Ok(())
}

// The layout of a phone's recorder: the type, free space for a movie box that was too long for it, the media data
// with a size of four bytes, and last the movie box with user data, 1000 ticks a second, and a track of video of
// which one sample in 30 is sync. The samples stand from 140 on.
#[test]
fn a_movie_of_a_phone_is_listed(rt: HostRuntime) -> Result<(), Fail> {
    let alloc = rt.alloc();
    let video = Uniform {
        scale: 90_000,
        delta: 3000,
        size: 100,
        count: 900,
        place: 140,
    };
    let sound = Uniform {
        scale: 48_000,
        delta: 1024,
        size: 10,
        count: 1407,
        place: 90_140,
    };
    let mut syncs = Vec::new(alloc);
    for group in 0..30u32 {
        syncs.push(group * 30 + 1)?;
    }
    let entry = avc1(alloc)?;
    let picture = trak(alloc, video, entry.as_slice(), &syncs)?;
    let heard = trak(alloc, sound, &SOUND[437..524], &[])?;
    let mvhd = words(alloc, &[0, 0, 0, 1000, 30_016, 0x1_0000, 0x100_0000, 0, 0])?;
    let mut moov = boxes(
        alloc,
        &[
            (b"mvhd", mvhd.as_slice()),
            (b"udta", b"\0\0\0\x0c\xa9xyz+48."),
        ],
    )?;
    moov.append(picture.as_slice())?;
    moov.append(heard.as_slice())?;
    let payload = vec![in alloc; 7u8; 90_000 + 14_070]?;
    let file = boxes(
        alloc,
        &[
            (b"ftyp", b"isom\0\0\0\0isom3gp4"),
            (b"free", [0; 100].as_slice()),
            (b"mdat", payload.as_slice()),
            (b"moov", moov.as_slice()),
        ],
    )?;
    let mut lines = Bytes::from_slice(alloc, b"start 0\ntrack 0 avc 90000 900 30 0\n")?;
    put_lines(alloc, &mut lines, 0, video, 30)?;
    lines.append(b"track 1 aac 48000 1407 1407 0\n")?;
    put_lines(alloc, &mut lines, 1, sound, 1)?;
    let ended = run_words(alloc, &["list", "a"], file.as_slice())?;
    ended.ends(Status::Done)?;
    holds(ended.text.bytes() == lines.as_slice())?;
    Ok(())
}

// A file of more than 5 GiB, of which the media data's box has 5368709120 bytes and begins at 24. Its one sample
// stands at 4294967300, which is 1_0000_0004 in hexadecimal, and takes a chunk offset of eight bytes.
fn after_4_gib(alloc: Global) -> Result<HoleSource, AllocError> {
    let mut front = Bytes::from_slice(alloc, &SOUND[..24])?;
    front.append(b"\0\0\0\x01mdat\0\0\0\x01\x40\0\0\0")?;
    let stts = words(alloc, &[0, 1, 1, 0])?;
    let stsd = stsd(alloc, &SOUND[437..524])?;
    let stbl = boxes(
        alloc,
        &[
            (b"stsd", stsd.as_slice()),
            (b"stts", stts.as_slice()),
            (b"stsz", b"\0\0\0\0\0\0\0\x04\0\0\0\x01"),
            (b"stsc", b"\0\0\0\0\0\0\0\x01\0\0\0\x01\0\0\0\x01\0\0\0\x01"),
            (b"co64", b"\0\0\0\0\0\0\0\x01\0\0\0\x01\0\0\0\x04"),
        ],
    )?;
    let minf = boxes(alloc, &[(b"stbl", stbl.as_slice())])?;
    let mdia = boxes(
        alloc,
        &[(b"mdhd", &SOUND[284..308]), (b"minf", minf.as_slice())],
    )?;
    let trak = boxes(alloc, &[(b"mdia", mdia.as_slice())])?;
    let body = boxes(
        alloc,
        &[(b"mvhd", &SOUND[68..168]), (b"trak", trak.as_slice())],
    )?;
    let moov = boxes(alloc, &[(b"moov", body.as_slice())])?;
    let end = 24 + 5_368_709_120;
    let length = end + moov.len() as u64;
    let mut pieces = Vec::new(alloc);
    pieces.push((0, front))?;
    pieces.push((
        4_294_967_300,
        Bytes::from_slice(alloc, b"\xde\xad\xbe\xef")?,
    ))?;
    pieces.push((end, moov))?;
    Ok(HoleSource::new(alloc, length, pieces))
}

#[test]
fn a_sample_after_4_gib_is_listed(rt: HostRuntime) -> Result<(), Fail> {
    let alloc = rt.alloc();
    let mut source = after_4_gib(alloc)?;
    let mut text = MemText::new(alloc);
    same(list_movie(alloc, &mut source, &mut text), Ok(()))?;
    same(
        text.bytes(),
        b"start 0\ntrack 0 aac 48000 1 1 0\nsample 0 0 0 0 1 4\n".as_slice(),
    )?;
    Ok(())
}

#[test]
fn a_sample_after_4_gib_is_extracted(rt: HostRuntime) -> Result<(), Fail> {
    let alloc = rt.alloc();
    let mut plans = Vec::new(alloc);
    if let Ok(plan) = read_plan(alloc, "s0,r") {
        plans.push(plan)?;
    }
    same(plans.len(), 1)?;
    let mut shelf = MemShelf::new(alloc, Vec::new(alloc));
    if plans.len() == 1 {
        let end = extract_direct(alloc, after_4_gib(alloc)?, plans, "out", &mut shelf);
        same(end.outcome, ExtractOutcome::Done)?;
    }
    let dump = b"\x01\0\0\0\0\0\0\0\x01\0\0\0\0\0\0\0\0\0\0\0\x04\xde\xad\xbe\xef";
    holds(shelf.file(0) == Some(dump.as_slice()))?;
    Ok(())
}

/// Lists a source into a text that stays empty: the answer.
fn refused(alloc: Global, source: HoleSource) -> Result<Result<(), ListFault>, Fail> {
    let mut source = source;
    let mut text = MemText::new(alloc);
    let answer = list_movie(alloc, &mut source, &mut text);
    if text.bytes().is_empty() {
        Ok(answer)
    } else {
        Err(Fail::from(Status::Done))
    }
}

// The movie box of the first has one byte more than the most, 2^28. The samples of the second have one byte more
// than the most, 2^26, each, so that the media data's box has 16 and three times that: c00_0013 in hexadecimal.
#[test]
fn what_is_too_large_is_refused_before_the_first_line(rt: HostRuntime) -> Result<(), Fail> {
    let alloc = rt.alloc();
    let mut front = Bytes::from_slice(alloc, &SOUND[..52])?;
    front.append(b"\x10\0\0\x01moov")?;
    let mut pieces = Vec::new(alloc);
    pieces.push((0, front))?;
    let long = HoleSource::new(alloc, 52 + 268_435_457, pieces);
    let at = MovieFault::MoovTooLarge {
        at: 52,
        size: 268_435_457,
    };
    same(refused(alloc, long)?, Err(ListFault::Refused(at)))?;
    let mut front = Bytes::from_slice(alloc, &SOUND[..24])?;
    front.append(b"\0\0\0\x01mdat\0\0\0\0\x0c\0\0\x13")?;
    let mut back = Bytes::from_slice(alloc, &SOUND[52..])?;
    back.patch(508, b"\x04\0\0\x01");
    let end = 24 + 201_326_611;
    let mut pieces = Vec::new(alloc);
    pieces.push((0, front))?;
    pieces.push((end, back))?;
    let large = HoleSource::new(alloc, end + 588, pieces);
    let first = MovieFault::SampleTooLarge {
        track: 0,
        sample: 0,
        size: 67_108_865,
    };
    same(refused(alloc, large)?, Err(ListFault::Refused(first)))?;
    Ok(())
}
