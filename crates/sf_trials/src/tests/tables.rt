//! Recorded tables, byte by byte, and the list of the same file.

use super::*;
use sf_list::{holds, same};
use std::test::Fail;

/// A sample of an input: when it is decoded and when it is shown, in microseconds, whether it is a sync sample, and
/// its length in bytes.
type Given = (u64, u64, bool, u32);

/// A coded sample file of these samples, at so many ticks a second.
fn coded_file(alloc: Global, scale: u32, samples: &[Given]) -> Result<Vec<u8>, AllocError> {
    let mut input = Vec::new(alloc);
    input.extend_from_slice(&INPUT[..8])?;
    input.extend_from_slice(&scale.to_be_bytes())?;
    input.extend_from_slice(&INPUT[12..24])?;
    for (dts_us, pts_us, sync, size) in samples {
        input.extend_from_slice(&[1, u8::from(*sync)])?;
        input.extend_from_slice(&dts_us.to_be_bytes())?;
        input.extend_from_slice(&pts_us.to_be_bytes())?;
        input.extend_from_slice(&size.to_be_bytes())?;
        let payload = vec![in alloc; 7u8; *size as usize]?;
        input.extend_from_slice(&payload)?;
    }
    input.push(0)?;
    Ok(input)
}

/// What is recorded of some samples: the tables of the file behind its sample entry, and its list.
struct Row {
    scale: u32,
    samples: &'static [Given],
    tables: &'static [u8],
    lines: &'static [u8],
}

const ROWS: [Row; 6] = [
    // Differences of ticks, where rounding each difference of times would give 5 and 5.
    Row {
        scale: 90_000,
        samples: &[(0, 0, true, 4), (50, 50, true, 4), (100, 100, true, 4)],
        tables: b"\0\0\0\x20stts\0\0\0\0\0\0\0\x02\0\0\0\x01\0\0\0\x05\0\0\0\x02\0\0\0\x04\
            \0\0\0\x14stsz\0\0\0\0\0\0\0\x04\0\0\0\x03\
            \0\0\0\x1cstsc\0\0\0\0\0\0\0\x01\0\0\0\x01\0\0\0\x03\0\0\0\x01\
            \0\0\0\x14stco\0\0\0\0\0\0\0\x01\0\0\0(",
        lines: b"start 0\ntrack 0 aac 90000 3 3 0\n\
            sample 0 0 0 0 1 4\nsample 0 1 5 5 1 4\nsample 0 2 9 9 1 4\n",
    },
    // Two samples at one time, and the default timescale.
    Row {
        scale: 0,
        samples: &[(0, 0, true, 4), (0, 0, true, 4), (21_333, 21_333, true, 4)],
        tables: b"\0\0\0\x20stts\0\0\0\0\0\0\0\x02\0\0\0\x01\0\0\0\0\0\0\0\x02\0\0\x04\0\
            \0\0\0\x14stsz\0\0\0\0\0\0\0\x04\0\0\0\x03\
            \0\0\0\x1cstsc\0\0\0\0\0\0\0\x01\0\0\0\x01\0\0\0\x03\0\0\0\x01\
            \0\0\0\x14stco\0\0\0\0\0\0\0\x01\0\0\0(",
        lines: b"start 0\ntrack 0 aac 48000 3 3 0\n\
            sample 0 0 0 0 1 4\nsample 0 1 0 0 1 4\nsample 0 2 1024 1024 1 4\n",
    },
    // Samples that are shown later than they are decoded: unsigned offsets, 3000, 6000 and 0.
    Row {
        scale: 90_000,
        samples: &[
            (0, 33_333, true, 4),
            (33_333, 100_000, true, 4),
            (66_667, 66_667, true, 4),
        ],
        tables: b"\0\0\0\x18stts\0\0\0\0\0\0\0\x01\0\0\0\x03\0\0\x0b\xb8\
            \0\0\0\x28ctts\0\0\0\0\0\0\0\x03\0\0\0\x01\0\0\x0b\xb8\0\0\0\x01\0\0\x17\x70\0\0\0\x01\0\0\0\0\
            \0\0\0\x14stsz\0\0\0\0\0\0\0\x04\0\0\0\x03\
            \0\0\0\x1cstsc\0\0\0\0\0\0\0\x01\0\0\0\x01\0\0\0\x03\0\0\0\x01\
            \0\0\0\x14stco\0\0\0\0\0\0\0\x01\0\0\0(",
        lines: b"start 0\ntrack 0 aac 90000 3 3 0\n\
            sample 0 0 0 3000 1 4\nsample 0 1 3000 9000 1 4\nsample 0 2 6000 6000 1 4\n",
    },
    // A sample that is shown earlier than it is decoded: signed offsets, 0 and -3000.
    Row {
        scale: 90_000,
        samples: &[(0, 0, true, 4), (33_333, 0, true, 4)],
        tables: b"\0\0\0\x18stts\0\0\0\0\0\0\0\x01\0\0\0\x02\0\0\x0b\xb8\
            \0\0\0\x20ctts\x01\0\0\0\0\0\0\x02\0\0\0\x01\0\0\0\0\0\0\0\x01\xff\xff\xf4\x48\
            \0\0\0\x14stsz\0\0\0\0\0\0\0\x04\0\0\0\x02\
            \0\0\0\x1cstsc\0\0\0\0\0\0\0\x01\0\0\0\x01\0\0\0\x02\0\0\0\x01\
            \0\0\0\x14stco\0\0\0\0\0\0\0\x01\0\0\0(",
        lines: b"start 0\ntrack 0 aac 90000 2 2 0\n\
            sample 0 0 0 0 1 4\nsample 0 1 3000 0 1 4\n",
    },
    // A chunk takes the samples of a second, the last one at just a second included.
    Row {
        scale: 0,
        samples: &[
            (0, 0, true, 4),
            (500_000, 500_000, true, 4),
            (1_000_000, 1_000_000, true, 4),
            (1_000_001, 1_000_001, true, 4),
        ],
        tables: b"\0\0\0\x20stts\0\0\0\0\0\0\0\x02\0\0\0\x02\0\0\x5d\xc0\0\0\0\x02\0\0\0\0\
            \0\0\0\x14stsz\0\0\0\0\0\0\0\x04\0\0\0\x04\
            \0\0\0\x28stsc\0\0\0\0\0\0\0\x02\0\0\0\x01\0\0\0\x03\0\0\0\x01\0\0\0\x02\0\0\0\x01\0\0\0\x01\
            \0\0\0\x18stco\0\0\0\0\0\0\0\x02\0\0\0(\0\0\0\x34",
        lines: b"start 0\ntrack 0 aac 48000 4 4 0\n\
            sample 0 0 0 0 1 4\nsample 0 1 24000 24000 1 4\n\
            sample 0 2 48000 48000 1 4\nsample 0 3 48000 48000 1 4\n",
    },
    // Samples of several lengths, of which the second and the last aren't sync, in three chunks.
    Row {
        scale: 1_000_000,
        samples: &[
            (0, 0, true, 3),
            (2_000_000, 2_000_000, false, 1),
            (4_000_000, 4_000_000, true, 2),
            (4_000_001, 4_000_001, false, 2),
        ],
        tables: b"\0\0\0\x20stts\0\0\0\0\0\0\0\x02\0\0\0\x02\0\x1e\x84\x80\0\0\0\x02\0\0\0\x01\
            \0\0\0\x18stss\0\0\0\0\0\0\0\x02\0\0\0\x01\0\0\0\x03\
            \0\0\0\x24stsz\0\0\0\0\0\0\0\0\0\0\0\x04\0\0\0\x03\0\0\0\x01\0\0\0\x02\0\0\0\x02\
            \0\0\0\x28stsc\0\0\0\0\0\0\0\x02\0\0\0\x01\0\0\0\x01\0\0\0\x01\0\0\0\x03\0\0\0\x02\0\0\0\x01\
            \0\0\0\x1cstco\0\0\0\0\0\0\0\x03\0\0\0(\0\0\0\x2b\0\0\0\x2c",
        lines: b"start 0\ntrack 0 aac 1000000 4 2 0\n\
            sample 0 0 0 0 1 3\nsample 0 1 2000000 2000000 0 1\n\
            sample 0 2 4000000 4000000 1 2\nsample 0 3 4000001 4000001 0 2\n",
    },
];

/// The bytes of a file between its sample entry and the 24 bytes of `udta`, where its samples have so many bytes.
fn tables_of(file: &[u8], stored: usize) -> Option<&[u8]> {
    let end = file.len().checked_sub(24)?;
    file.get(stored.saturating_add(512)..end)
}

/// How many bytes samples have together.
fn stored_size(samples: &[Given]) -> usize {
    let mut size = 0usize;
    for sample in samples {
        size = size.saturating_add(sample.3 as usize);
    }
    size
}

#[test]
fn each_table_is_written_and_listed(rt: HostRuntime) -> Result<(), Fail> {
    let alloc = rt.alloc();
    for row in &ROWS {
        let input = coded_file(alloc, row.scale, row.samples)?;
        let ended = run_words(alloc, &["record", "a"], &input)?;
        ended.ends(Status::Done)?;
        let Some(file) = ended.shelf.file(0) else {
            return Err("no file".into());
        };
        holds(tables_of(file, stored_size(row.samples)) == Some(row.tables))?;
        let listed = run_words(alloc, &["list", "a"], file)?;
        same(listed.status, Status::Done)?;
        same(listed.text.bytes(), row.lines)?;
    }
    Ok(())
}
