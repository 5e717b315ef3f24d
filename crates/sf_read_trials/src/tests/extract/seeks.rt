//! Seeks in movies of four samples.

use super::*;
use std::alloc::AllocError;

// When the current sample is shown after a seek in the file of four samples.
fn shown_after(alloc: Global, mode: Mode, us: i64) -> Result<Option<i64>, Fail> {
    let movie = movie_of(alloc, &FOUR)?;
    let mut extractor = Extractor::new(alloc, &movie)?;
    match extractor.select(0) {
        Ok(()) => {
            extractor.seek(us, mode);
            Ok(extractor.time_us())
        }
        Err(NoTrack) => Err("no track".into()),
    }
}

#[test]
fn seeks_lead_to_sync_samples(rt: HostRuntime) -> Result<(), Fail> {
    let alloc = rt.alloc();
    assert_eq!(rt; shown_after(alloc, Mode::Previous, 5000)?, Some(10_000));
    assert_eq!(rt; shown_after(alloc, Mode::Next, 30_001)?, None);
    assert_eq!(rt; shown_after(alloc, Mode::Closest, 20_000)?, Some(10_000));
    assert_eq!(rt; shown_after(alloc, Mode::Previous, 29_999)?, Some(10_000));
    assert_eq!(rt; shown_after(alloc, Mode::Next, 10_000)?, Some(10_000));
    assert_eq!(rt; shown_after(alloc, Mode::Closest, 20_001)?, Some(30_000));
    assert_eq!(rt; shown_after(alloc, Mode::Closest, -1)?, Some(10_000));
    Ok(())
}

// The file of four samples with these boxes in place of its sync table. Its samples stand at 32 to 35.
fn four_with(alloc: Global, tables: &[u8]) -> Result<Bytes, AllocError> {
    if tables.len() > 1 << 20 {
        return Err(AllocError);
    }
    let size = tables.len() as u32;
    let mut file = Bytes::new(alloc);
    for part in [
        &FOUR[..36],
        &(375 + size).to_be_bytes(),
        b"moov",
        &FOUR[44..152],
        &(259 + size).to_be_bytes(),
        b"trak",
        &(251 + size).to_be_bytes(),
        b"mdia",
        &FOUR[168..200],
        &(211 + size).to_be_bytes(),
        b"minf",
        &(203 + size).to_be_bytes(),
        b"stbl",
        &FOUR[216..343],
        tables,
        &FOUR[367..],
    ] {
        file.append(part)?;
    }
    Ok(file)
}

/// A seek, and where the sample to which it leads lies.
type Seek = (Mode, i64, Option<u64>);

// The number of the first seek, of some in the file of four samples with these boxes, that leads elsewhere.
fn first_astray(alloc: Global, tables: &[u8], seeks: &[Seek]) -> Result<Option<usize>, Fail> {
    let file = four_with(alloc, tables)?;
    let movie = movie_of(alloc, file.as_slice())?;
    let mut extractor = Extractor::new(alloc, &movie)?;
    if extractor.select(0).is_err() {
        return Err("no track".into());
    }
    for (number, (mode, us, at)) in seeks.iter().enumerate() {
        extractor.seek(*us, *mode);
        let place = match extractor.place() {
            Some(place) => Some(place.at),
            None => None,
        };
        if place != *at {
            return Ok(Some(number));
        }
    }
    Ok(None)
}

// The first, the second and the fourth sample are sync. They're shown at 50, 10 and 30 ms.
#[test]
fn seeks_lead_to_samples_that_were_reordered(rt: HostRuntime) -> Result<(), Fail> {
    let tables =
        b"\0\0\0\x28ctts\0\0\0\0\0\0\0\x03\0\0\0\x01\0\0\0\x32\0\0\0\x02\0\0\0\0\0\0\0\x01\0\0\0\0\
        \0\0\0\x1cstss\0\0\0\0\0\0\0\x03\0\0\0\x01\0\0\0\x02\0\0\0\x04";
    let seeks = [
        (Mode::Previous, 9_999, Some(33)),
        (Mode::Previous, 10_000, Some(33)),
        (Mode::Previous, 49_999, Some(35)),
        (Mode::Previous, 50_000, Some(32)),
        (Mode::Previous, 90_000, Some(32)),
        (Mode::Next, -90_000, Some(33)),
        (Mode::Next, 10_001, Some(35)),
        (Mode::Next, 50_000, Some(32)),
        (Mode::Next, 50_001, None),
        (Mode::Closest, 40_000, Some(35)),
        (Mode::Closest, 40_001, Some(32)),
        (Mode::Closest, 20_000, Some(33)),
    ];
    assert_eq!(rt; first_astray(rt.alloc(), tables, &seeks)?, None);
    Ok(())
}

// The first, the second and the fourth sample are sync. The first two are shown at 50 ms, the fourth at 30.
#[test]
fn a_tie_goes_to_the_lower_number(rt: HostRuntime) -> Result<(), Fail> {
    let tables =
        b"\0\0\0\x28ctts\0\0\0\0\0\0\0\x03\0\0\0\x01\0\0\0\x32\0\0\0\x01\0\0\0\x28\0\0\0\x02\0\0\0\0\
        \0\0\0\x1cstss\0\0\0\0\0\0\0\x03\0\0\0\x01\0\0\0\x02\0\0\0\x04";
    let seeks = [
        (Mode::Previous, 60_000, Some(32)),
        (Mode::Previous, 50_000, Some(32)),
        (Mode::Previous, 49_999, Some(35)),
        (Mode::Next, 50_000, Some(32)),
        (Mode::Next, 30_001, Some(32)),
        (Mode::Closest, 90_000, Some(32)),
        (Mode::Closest, 40_000, Some(35)),
        (Mode::Closest, 40_001, Some(32)),
    ];
    assert_eq!(rt; first_astray(rt.alloc(), tables, &seeks)?, None);
    Ok(())
}

// The second and the fourth sample are sync, and a ninth would be. They're shown at 10 and 30 ms.
#[test]
fn a_sync_number_past_the_samples_is_passed_over(rt: HostRuntime) -> Result<(), Fail> {
    let tables = b"\0\0\0\x1cstss\0\0\0\0\0\0\0\x03\0\0\0\x02\0\0\0\x04\0\0\0\x09";
    let seeks = [
        (Mode::Previous, 0, Some(33)),
        (Mode::Previous, 90_000, Some(35)),
        (Mode::Next, 10_001, Some(35)),
        (Mode::Next, 30_001, None),
        (Mode::Closest, 20_001, Some(35)),
    ];
    assert_eq!(rt; first_astray(rt.alloc(), tables, &seeks)?, None);
    Ok(())
}

#[test]
fn without_a_sync_sample_each_seek_leads_to_the_end(rt: HostRuntime) -> Result<(), Fail> {
    let tables = b"\0\0\0\x10stss\0\0\0\0\0\0\0\0";
    let seeks = [
        (Mode::Previous, 20_000, None),
        (Mode::Next, 0, None),
        (Mode::Closest, 20_000, None),
    ];
    assert_eq!(rt; first_astray(rt.alloc(), tables, &seeks)?, None);
    Ok(())
}

// Without a sync table each sample is sync. They're shown 10 ms apart.
#[test]
fn without_a_sync_table_seeks_lead_to_any_sample(rt: HostRuntime) -> Result<(), Fail> {
    let seeks = [
        (Mode::Previous, -1, Some(32)),
        (Mode::Previous, 19_999, Some(33)),
        (Mode::Previous, 20_000, Some(34)),
        (Mode::Next, 10_001, Some(34)),
        (Mode::Next, 30_001, None),
        (Mode::Closest, 15_000, Some(33)),
        (Mode::Closest, 15_001, Some(34)),
    ];
    assert_eq!(rt; first_astray(rt.alloc(), b"", &seeks)?, None);
    Ok(())
}

// Each sample is sync. The first and the third are shown 10 ms later than they're decoded, so that the times are
// 10, 10, 30 and 30 ms.
#[test]
fn of_samples_that_are_shown_at_once_the_first_is_found(rt: HostRuntime) -> Result<(), Fail> {
    let tables =
        b"\0\0\0\x30ctts\0\0\0\0\0\0\0\x04\0\0\0\x01\0\0\0\x0a\0\0\0\x01\0\0\0\0\0\0\0\x01\0\0\0\x0a\0\0\0\x01\0\0\0\0";
    let seeks = [
        (Mode::Previous, 29_999, Some(32)),
        (Mode::Previous, 40_000, Some(34)),
        (Mode::Next, 10_001, Some(34)),
        (Mode::Closest, 20_000, Some(32)),
        (Mode::Closest, 20_001, Some(34)),
    ];
    assert_eq!(rt; first_astray(rt.alloc(), tables, &seeks)?, None);
    Ok(())
}

// Each sample is sync. The first is shown last but one: the times are 30, 10, 20 and 30 ms.
#[test]
fn seeks_lead_to_any_of_samples_that_were_reordered(rt: HostRuntime) -> Result<(), Fail> {
    let tables = b"\0\0\0\x20ctts\0\0\0\0\0\0\0\x02\0\0\0\x01\0\0\0\x1e\0\0\0\x03\0\0\0\0";
    let seeks = [
        (Mode::Previous, 29_999, Some(34)),
        (Mode::Previous, 30_000, Some(32)),
        (Mode::Next, 0, Some(33)),
        (Mode::Next, 20_001, Some(32)),
        (Mode::Closest, 25_000, Some(34)),
        (Mode::Closest, 25_001, Some(32)),
    ];
    assert_eq!(rt; first_astray(rt.alloc(), tables, &seeks)?, None);
    Ok(())
}
