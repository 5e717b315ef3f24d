//! Which samples are refused for their times.

use super::*;
use sf_list::{holds, same};

const LATEST: u64 = 1 << 48;

/// The first fault among samples with these times, where a tick is a microsecond.
fn fault(
    alloc: Global,
    start_us: u64,
    times: &[(u64, u64)],
) -> Result<Option<SampleFault>, AllocError> {
    let options = Options {
        start_us,
        interleave_us: 1_000_000,
    };
    Ok(feed(alloc, 1_000_000, options, times)?.fault)
}

#[test]
fn times_lie_between_the_start_and_the_greatest(rt: HostRuntime) -> Result<(), Fail> {
    let alloc = rt.alloc();
    same(fault(alloc, LATEST, &[(LATEST, LATEST)])?, None)?;
    same(
        fault(alloc, LATEST, &[(LATEST + 1, LATEST)])?,
        Some(SampleFault::TimeTooLarge),
    )?;
    same(
        fault(alloc, LATEST, &[(LATEST, LATEST + 1)])?,
        Some(SampleFault::TimeTooLarge),
    )?;
    same(fault(alloc, 10, &[(10, 10)])?, None)?;
    same(
        fault(alloc, 10, &[(9, 10)])?,
        Some(SampleFault::BeforeStart),
    )?;
    same(
        fault(alloc, 10, &[(10, 9)])?,
        Some(SampleFault::BeforeStart),
    )?;
    Ok(())
}

#[test]
fn decode_times_rise_by_less_than_32_bits(rt: HostRuntime) -> Result<(), Fail> {
    let alloc = rt.alloc();
    let gap = 1 << 32;
    let falls = Some(SampleFault::Falls { last_us: 30 });
    same(fault(alloc, 10, &[(30, 30), (30, 30)])?, None)?;
    same(fault(alloc, 10, &[(30, 30), (29, 30)])?, falls)?;
    same(fault(alloc, 0, &[(5, 5), (gap + 4, gap + 4)])?, None)?;
    same(
        fault(alloc, 0, &[(5, 5), (gap + 5, gap + 5)])?,
        Some(SampleFault::GapTooLong),
    )?;
    Ok(())
}

#[test]
fn offsets_are_signed_numbers_of_32_bits(rt: HostRuntime) -> Result<(), Fail> {
    let alloc = rt.alloc();
    let half = 1 << 31;
    same(fault(alloc, 0, &[(7, half + 6)])?, None)?;
    same(
        fault(alloc, 0, &[(7, half + 7)])?,
        Some(SampleFault::OffsetTooLarge),
    )?;
    same(fault(alloc, 0, &[(half + 7, 7)])?, None)?;
    same(
        fault(alloc, 0, &[(half + 8, 7)])?,
        Some(SampleFault::OffsetTooLarge),
    )?;
    Ok(())
}

#[test]
fn the_first_of_two_refusals_is_told(rt: HostRuntime) -> Result<(), Fail> {
    let alloc = rt.alloc();
    let gap = 1 << 32;
    let falls = Some(SampleFault::Falls { last_us: gap });
    same(
        fault(alloc, 10, &[(LATEST + 1, 9)])?,
        Some(SampleFault::TimeTooLarge),
    )?;
    same(
        fault(alloc, 10, &[(30, 30), (9, 9)])?,
        Some(SampleFault::BeforeStart),
    )?;
    same(fault(alloc, 0, &[(gap, gap), (gap - 1, 0)])?, falls)?;
    same(
        fault(alloc, 0, &[(0, 0), (gap, 0)])?,
        Some(SampleFault::GapTooLong),
    )?;
    Ok(())
}

#[test]
fn a_refused_sample_comes_back_and_leaves_no_trace(rt: HostRuntime) -> Result<(), Fail> {
    let alloc = rt.alloc();
    let options = Options {
        start_us: 0,
        interleave_us: 1_000_000,
    };
    let mut gather = Gather::new(alloc, 0, Kind::Aac, 48_000, options);
    holds(is_taken(&mut gather, sample(alloc, (20, 20), 4)?))?;
    let back = gather.accept(sample(alloc, (90, LATEST + 1), 5)?).err();
    holds(back.is_some())?;
    if let Some(back) = back {
        same(back.1, SampleFault::TimeTooLarge)?;
        same((back.0.dts_us, back.0.pts_us), (90, LATEST + 1))?;
        same(back.0.bytes.len(), 5)?;
    }
    holds(is_taken(&mut gather, sample(alloc, (20, 20), 4)?))?;
    same(gather.end().samples.len(), 2)?;
    Ok(())
}
