//! The list of a movie, over sources and texts in memory.

use super::*;
use sf_box::{BoxFault, FourCc};
use sf_handmade::SOUND;
use sf_list::{holds, same};
use sf_meaning::{HeadFault, MovieFault, TableFault};
use sf_world::{HoleSource, MemSource, Shelf};
use std::test::Fail;

/// The list of the file of three samples.
const LINES: &[u8] = b"start 0\n\
    track 0 aac 48000 3 3 0\n\
    sample 0 0 0 0 1 4\n\
    sample 0 1 1024 1024 1 4\n\
    sample 0 2 2048 2048 1 4\n";

/// A source of these bytes, whose reads with the failing numbers fail.
fn source_of(alloc: Global, file: &[u8], failing: Vec<u64>) -> Result<MemSource, AllocError> {
    Ok(MemSource::new(alloc, Bytes::from_slice(alloc, file)?, failing))
}

#[test]
fn each_sample_has_a_line(rt: HostRuntime) -> Result<(), Fail> {
    let alloc = rt.alloc();
    let mut source = source_of(alloc, &SOUND, Vec::new(alloc))?;
    let mut text = MemText::new(alloc);
    same(list_movie(alloc, &mut source, &mut text), Ok(()))?;
    same(text.bytes(), LINES)?;
    Ok(())
}

// The file has three boxes, whose heads are read first, and then the body of the last one.
#[test]
fn each_read_fails_before_the_first_line(rt: HostRuntime) -> Result<(), Fail> {
    let alloc = rt.alloc();
    for failing in 0..5u64 {
        let mut source = source_of(alloc, &SOUND, vec![in alloc; failing]?)?;
        let mut text = MemText::new(alloc);
        let answer = list_movie(alloc, &mut source, &mut text);
        let (wanted, lines) = if failing < 4 {
            (Err(ListFault::ReadFault), b"".as_slice())
        } else {
            (Ok(()), LINES)
        };
        same((failing, answer), (failing, wanted))?;
        same((failing, text.bytes()), (failing, lines))?;
    }
    Ok(())
}

/// Lists a file into a text whose append with the failing number fails: the answer, and how many bytes the text has then.
fn listed_by(
    alloc: Global,
    file: &[u8],
    failing: u64,
) -> Result<(Result<(), ListFault>, Option<usize>), Fail> {
    let mut source = source_of(alloc, file, Vec::new(alloc))?;
    let mut texts = MemShelf::new(alloc, Vec::new(alloc));
    texts.fail_on(1, failing)?;
    let Ok(mut text) = texts.create("text") else {
        return Err(Fail::from(Status::NoMemory));
    };
    let answer = list_movie(alloc, &mut source, &mut text);
    texts.keep(text);
    Ok((answer, only_size(&texts)))
}

// The first line is put by itself, and the rest of so short a list at once.
#[test]
fn a_text_that_fails_gains_no_more(rt: HostRuntime) -> Result<(), Fail> {
    let rows = [
        (0, Err(ListFault::WriteFault), 0),
        (1, Err(ListFault::WriteFault), 8),
        (2, Ok(()), LINES.len()),
    ];
    for (failing, wanted, size) in rows {
        let (answer, gained) = listed_by(rt.alloc(), &SOUND, failing)?;
        same((failing, answer), (failing, wanted))?;
        same((failing, gained), (failing, Some(size)))?;
    }
    Ok(())
}

// The list of 4000 samples has 8 + 30 bytes in its first two lines, and then lines of 19 bytes for the
// samples 0 to 9, of 20 to 99, of 21 to 999 and of 22 after that: 86928 bytes in all. After the first line
// what was gathered is put into the text once it has 65536 bytes or more, which is after the sample 3027:
// 65544 bytes with the first line.
#[test]
fn a_long_list_is_put_into_the_text_in_parts(rt: HostRuntime) -> Result<(), Fail> {
    let alloc = rt.alloc();
    let samples = vec![in alloc; (0u64, 4u32); 4000]?;
    let input = input_of(alloc, &samples)?;
    let ended = run_words(alloc, &["record", "a"], &input)?;
    let Some(file) = ended.shelf.file(0) else {
        return Err(Fail::from(ended.status));
    };
    let rows = [
        (0, Err(ListFault::WriteFault), 0),
        (1, Err(ListFault::WriteFault), 8),
        (2, Err(ListFault::WriteFault), 65_544),
        (3, Ok(()), 86_928),
    ];
    for (failing, wanted, size) in rows {
        let (answer, gained) = listed_by(alloc, file, failing)?;
        same((failing, answer), (failing, wanted))?;
        same((failing, gained), (failing, Some(size)))?;
    }
    Ok(())
}

/// What is wrong with a first part of the file.
fn fault_at(length: u64) -> MovieFault {
    match length {
        0 | 24 | 52 => MovieFault::NoMoov { at: length },
        1..=7 => MovieFault::Tiling(BoxFault::Short { at: 0 }),
        8..=23 => MovieFault::Tiling(BoxFault::Overrun { at: 0, size: 24 }),
        25..=39 => MovieFault::Tiling(BoxFault::Short { at: 24 }),
        40..=51 => MovieFault::Tiling(BoxFault::Overrun { at: 24, size: 28 }),
        53..=59 => MovieFault::Tiling(BoxFault::Short { at: 52 }),
        _ => MovieFault::Tiling(BoxFault::Overrun { at: 52, size: 588 }),
    }
}

#[test]
fn a_file_that_is_cut_short_is_refused_at_its_box(rt: HostRuntime) -> Result<(), Fail> {
    let alloc = rt.alloc();
    for length in 0..640usize {
        let mut source = source_of(alloc, &SOUND[..length], Vec::new(alloc))?;
        let mut text = MemText::new(alloc);
        let answer = list_movie(alloc, &mut source, &mut text);
        let fault = fault_at(length as u64);
        same((length, answer), (length, Err(ListFault::Refused(fault))))?;
        same((length, text.bytes().is_empty()), (length, true))?;
    }
    Ok(())
}

// The body of mdat has 5 GiB: its box has 5368709136 bytes, which is 1_4000_0010 in hexadecimal.
#[test]
fn a_media_data_box_of_5_gib_is_passed_over(rt: HostRuntime) -> Result<(), Fail> {
    let alloc = rt.alloc();
    let mut front = Bytes::from_slice(alloc, &SOUND[..24])?;
    front.append(b"\0\0\0\x01mdat\0\0\0\x01\x40\0\0\x10")?;
    let back = Bytes::from_slice(alloc, &SOUND[52..])?;
    let end = 24 + 5_368_709_136;
    let mut pieces = Vec::new(alloc);
    pieces.push((0, front))?;
    pieces.push((end, back))?;
    let mut source = HoleSource::new(alloc, end + 588, pieces);
    let mut text = MemText::new(alloc);
    same(list_movie(alloc, &mut source, &mut text), Ok(()))?;
    same(text.bytes(), LINES)?;
    Ok(())
}

#[test]
fn a_movie_of_a_name_is_listed(rt: HostRuntime) -> Result<(), Fail> {
    let rows: [(&[&str], &[u8], Status, &[u8]); 3] = [
        (&["list", "a"], &SOUND, Status::Done, LINES),
        (
            &["list", "a"],
            &SOUND[..52],
            Status::MovieRefused(MovieFault::NoMoov { at: 52 }),
            b"movie refused\n",
        ),
        (
            &["list", "b"],
            &SOUND,
            Status::OpenFault { input: 0 },
            b"cannot open input 0\n",
        ),
    ];
    for (words, file, status, lines) in rows {
        let ended = run_words(rt.alloc(), words, file)?;
        ended.gives(status, lines)?;
        holds(ended.shelf.file(0).is_none())?;
    }
    Ok(())
}

#[test]
fn a_failed_read_ends_the_list(rt: HostRuntime) -> Result<(), Fail> {
    let alloc = rt.alloc();
    let words = words_of(alloc, &["list", "a"])?;
    for failing in 0..4u64 {
        let mut inputs = inputs_of(alloc, &SOUND, vec![in alloc; failing]?)?;
        let mut shelf = MemShelf::new(alloc, Vec::new(alloc));
        let mut text = MemText::new(alloc);
        let status = run(alloc, &words, &mut inputs, &mut shelf, &mut text);
        same((failing, status), (failing, Status::ReadFault { input: 0 }))?;
        same(
            (failing, text.bytes()),
            (failing, b"cannot read input 0\n".as_slice()),
        )?;
        same((failing, shelf.file(0).is_none()), (failing, true))?;
    }
    Ok(())
}

// A text that fails within the list gets no further line.
#[test]
fn a_failed_text_ends_the_list(rt: HostRuntime) -> Result<(), Fail> {
    let alloc = rt.alloc();
    let words = words_of(alloc, &["list", "a"])?;
    let mut inputs = inputs_of(alloc, &SOUND, Vec::new(alloc))?;
    let mut shelf = MemShelf::new(alloc, Vec::new(alloc));
    let mut texts = MemShelf::new(alloc, Vec::new(alloc));
    texts.fail_on(1, 0)?;
    let Ok(mut text) = texts.create("text") else {
        return Err(Fail::from(Status::NoMemory));
    };
    let status = run(alloc, &words, &mut inputs, &mut shelf, &mut text);
    texts.keep(text);
    same(status, Status::WriteFault)?;
    same(only_size(&texts), Some(0))?;
    Ok(())
}

/// The recorded file with other bytes at a place.
fn changed(alloc: Global, at: usize, bytes: &[u8]) -> Result<Vec<u8>, AllocError> {
    let mut file = SOUND.to_vec(alloc)?;
    for index in 0..bytes.len() {
        let place = at.saturating_add(index);
        if place < file.len() {
            file[place] = bytes[index];
        }
    }
    Ok(file)
}

// In the file, mvhd stands at 60, mdhd at 276, url at 401, mp4a at 437, stts at 524, stsz at 548, stsc at
// 568 and stco at 596.
#[test]
fn a_changed_movie_is_refused_at_its_box(rt: HostRuntime) -> Result<(), Fail> {
    let alloc = rt.alloc();
    let stts = FourCc(*b"stts");
    let stsc = FourCc(*b"stsc");
    let rows: [(usize, &[u8], MovieFault); 11] = [
        (80, &[0; 4], MovieFault::Head(HeadFault::Scale0 { at: 60 })),
        (
            296,
            &[0; 4],
            MovieFault::Head(HeadFault::Scale0 { at: 276 }),
        ),
        (412, &[0], MovieFault::External { at: 437 }),
        (
            543,
            &[2],
            MovieFault::Table(TableFault::Short {
                kind: stts,
                at: 524,
            }),
        ),
        (
            564,
            &[255; 4],
            MovieFault::Table(TableFault::TooMany {
                at: 548,
                count: u32::MAX,
            }),
        ),
        (
            587,
            &[2],
            MovieFault::Table(TableFault::NotRising {
                kind: stsc,
                at: 568,
            }),
        ),
        (
            591,
            &[2],
            MovieFault::Table(TableFault::Short {
                kind: stsc,
                at: 568,
            }),
        ),
        (
            595,
            &[2],
            MovieFault::Table(TableFault::Description { at: 568, index: 2 }),
        ),
        (
            611,
            &[2],
            MovieFault::Table(TableFault::Short {
                kind: FourCc(*b"stco"),
                at: 596,
            }),
        ),
        (
            614,
            &[2, 121],
            MovieFault::SampleOutside {
                track: 0,
                sample: 1,
            },
        ),
        (
            24,
            b"\0\0\0\x0cmdat\0\0\0\0\0\0\0\x10moov",
            MovieFault::TwoMoov { at: 52 },
        ),
    ];
    for (at, bytes, fault) in rows {
        let file = changed(alloc, at, bytes)?;
        let ended = run_words(alloc, &["list", "a"], &file)?;
        same((at, ended.status), (at, Status::MovieRefused(fault)))?;
        same(ended.text.bytes(), b"movie refused\n".as_slice())?;
    }
    Ok(())
}
