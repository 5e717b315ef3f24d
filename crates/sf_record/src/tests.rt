//! Pumps, step by step; in their modules whole pumps, and inputs that are recorded.

ghost use Rattle.std.specs.Prelude.{◌≡◌, [], Some, IfSome, IsSome};
ghost use Rattle.sf_record.specs.Pump.{Stands};

use super::*;
use sf_coded::{Coded, CodedFault};
use sf_entry::make_entry;
use sf_gather::{Options, SampleFault};
use sf_list::Bytes;
use sf_world::{MemSource, Source};
use std::alloc::{AllocError, Global};
use std::test::Fail;

mod ended;
mod limits;
mod one_input;
mod serial;
mod whole;

// One sync sample: 22 bytes and its payload.
fn put_sample(
    out: &mut Bytes,
    times: (u64, u64),
    len: [u8; 4],
    payload: &[u8],
) -> Result<(), AllocError> {
    out.append(&[1, 1])?;
    out.append(&times.0.to_be_bytes())?;
    out.append(&times.1.to_be_bytes())?;
    out.append(&len)?;
    out.append(payload)
}

// One sync sample of four bytes, whose two times are equal: 26 bytes.
fn put_record(out: &mut Bytes, time_us: u64) -> Result<(), AllocError> {
    let payload = [0x21, 0x10, 4, 0x60];
    put_sample(out, (time_us, time_us), [0, 0, 0, 4], &payload)
}

// An AAC input of samples at these times. The records stand at 24, 50, 76 and so on.
fn input(alloc: Global, times: &[u64]) -> Result<Bytes, AllocError> {
    let mut out = Bytes::from_slice(alloc, b"SFCS")?;
    out.append(&[0, 1, 0, 2, 0, 0, 0, 0, 0, 0, 0, 0, 0, 2, 0, 0, 0, 2])?;
    out.append(&[0x11, 0x90])?;
    for time in times {
        put_record(&mut out, *time)?;
    }
    out.append(&[0])?;
    Ok(out)
}

// How samples are put into chunks from the start 0 on.
fn options(interleave_us: u64) -> Options {
    Options {
        start_us: 0,
        interleave_us,
    }
}

// A pump for an input, of which the reads with these numbers fail.
fn pump_of(
    alloc: Global,
    bytes: Bytes,
    failing: Vec<u64>,
    options: Options,
) -> Option<Pump<MemSource>>
    ensures stands { IfSome result (λ p. Stands (Some bytes) [] [] p) }
    ensures content { IfSome result (λ p. p.coded.source.content ≡ Some bytes) }
    ensures begun { IfSome result (λ p. IsSome p.gatherer) }
{
    let Ok(coded) = Coded::begin(alloc, MemSource::new(alloc, bytes, failing)) else {
        return None;
    };
    match make_entry(alloc, coded.setup()) {
        Ok(setup) => Some(Pump::new(alloc, 3, coded, &setup, options)),
        Err(_fault) => None,
    }
}

// What came of an input.
#[derive(Drop)]
struct Pumped {
    // How many samples each chunk has.
    counts: Vec<usize>,
    // Whether the last of them is marked, and no other.
    is_marked: bool,
    fault: Option<TrackFault>,
}

// Takes a chunk that a pump holds.
fn note(pumped: &mut Pumped, pump: &mut Pump<MemSource>) -> Result<(), AllocError> {
    if let Some(chunk) = pump.take_chunk() {
        pumped.is_marked = chunk.last;
        pumped.counts.push(chunk.samples.len())?;
    }
    Ok(())
}

// Steps until the last chunk is taken.
fn run_out(alloc: Global, pump: &mut Pump<MemSource>) -> Result<Pumped, AllocError> {
    let mut pumped = Pumped {
        counts: Vec::new(alloc),
        is_marked: false,
        fault: None,
    };
    for _ in 0..20u32 {
        match pump.step() {
            Stepped::HasChunk => note(&mut pumped, pump)?,
            Stepped::Done => break,
            Stepped::Moved | Stepped::NoMemory => {}
        }
    }
    pumped.fault = pump.fault().copied();
    Ok(pumped)
}

// What comes of an input.
fn outcome(
    alloc: Global,
    bytes: Bytes,
    failing: Vec<u64>,
    interleave_us: u64,
) -> Result<Option<Pumped>, AllocError> {
    match pump_of(alloc, bytes, failing, options(interleave_us)) {
        Some(mut pump) => Ok(Some(run_out(alloc, &mut pump)?)),
        None => Ok(None),
    }
}

// Whether the chunks have these counts, the last one alone is marked, and the fault is this one.
fn is_so(found: &Option<Pumped>, counts: &[usize], fault: Option<TrackFault>) -> bool {
    match found {
        Some(found) => {
            found.counts.as_slice() == counts && found.is_marked && found.fault == fault
        }
        None => false,
    }
}

fn sample_fault(fault: SampleFault, place: u64) -> Option<TrackFault> {
    Some(TrackFault {
        why: InputFault::Sample(fault),
        place,
    })
}

fn coded_fault(fault: CodedFault, place: u64) -> Option<TrackFault> {
    Some(TrackFault {
        why: InputFault::Coded(fault),
        place,
    })
}

#[test]
fn samples_within_the_interleave_are_one_chunk(rt: HostRuntime) -> Result<(), Fail> {
    let alloc = rt.alloc();
    let bytes = input(alloc, &[0, 21_333, 42_667])?;
    let found = outcome(alloc, bytes, Vec::new(alloc), 1_000_000)?;
    assert!(rt; is_so(&found, &[3], None));
    Ok(())
}

#[test]
fn without_interleave_each_sample_is_a_chunk(rt: HostRuntime) -> Result<(), Fail> {
    let alloc = rt.alloc();
    let bytes = input(alloc, &[0, 21_333, 42_667])?;
    let found = outcome(alloc, bytes, Vec::new(alloc), 0)?;
    assert!(rt; is_so(&found, &[1, 1, 1], None));
    Ok(())
}

#[test]
fn an_input_without_samples_is_one_empty_chunk(rt: HostRuntime) -> Result<(), Fail> {
    let alloc = rt.alloc();
    let found = outcome(alloc, input(alloc, &[])?, Vec::new(alloc), 0)?;
    assert!(rt; is_so(&found, &[0], None));
    Ok(())
}

#[test]
fn a_refused_sample_is_told_with_the_place_of_its_tag(rt: HostRuntime) -> Result<(), Fail> {
    let alloc = rt.alloc();
    let bytes = input(alloc, &[5, 21_333, 21_332, 42_667])?;
    let found = outcome(alloc, bytes, Vec::new(alloc), 1_000_000)?;
    let falls = SampleFault::Falls { last_us: 21_333 };
    assert!(rt; is_so(&found, &[2], sample_fault(falls, 76)));
    Ok(())
}

#[test]
fn times_are_taken_up_to_the_greatest(rt: HostRuntime) -> Result<(), Fail> {
    let alloc = rt.alloc();
    let greatest = 281_474_976_710_656;
    let bytes = input(alloc, &[greatest])?;
    let found = outcome(alloc, bytes, Vec::new(alloc), 1_000_000)?;
    assert!(rt; is_so(&found, &[1], None));
    let bytes = input(alloc, &[0, greatest + 1, 5])?;
    let found = outcome(alloc, bytes, Vec::new(alloc), 1_000_000)?;
    assert!(rt; is_so(&found, &[1], sample_fault(SampleFault::TimeTooLarge, 50)));
    Ok(())
}

#[test]
fn a_truncated_input_gives_the_samples_before(rt: HostRuntime) -> Result<(), Fail> {
    let alloc = rt.alloc();
    let mut bytes = input(alloc, &[0, 21_333, 42_667])?;
    bytes.cut(90);
    let found = outcome(alloc, bytes, Vec::new(alloc), 1_000_000)?;
    let truncated = CodedFault::Truncated { at: 90 };
    assert!(rt; is_so(&found, &[2], coded_fault(truncated, 90)));
    Ok(())
}

#[test]
fn a_sample_before_the_start_is_refused(rt: HostRuntime) -> Result<(), Fail> {
    let alloc = rt.alloc();
    let options = Options {
        start_us: 6,
        interleave_us: 0,
    };
    let Some(mut pump) = pump_of(alloc, input(alloc, &[5])?, Vec::new(alloc), options) else {
        assert!(rt; false);
        return Ok(());
    };
    let found = Some(run_out(alloc, &mut pump)?);
    assert!(rt; is_so(&found, &[0], sample_fault(SampleFault::BeforeStart, 24)));
    Ok(())
}

#[test]
fn a_composition_time_above_the_greatest_is_refused(rt: HostRuntime) -> Result<(), Fail> {
    let alloc = rt.alloc();
    let mut bytes = input(alloc, &[7])?;
    bytes.cut(50);
    // The decode time would fall, which is looked at later.
    put_sample(&mut bytes, (3, 281_474_976_710_657), [0, 0, 0, 1], &[9])?;
    let found = outcome(alloc, bytes, Vec::new(alloc), 0)?;
    assert!(rt; is_so(&found, &[1], sample_fault(SampleFault::TimeTooLarge, 50)));
    Ok(())
}

#[test]
fn a_failed_read_is_kept_behind_the_samples_before_it(rt: HostRuntime) -> Result<(), Fail> {
    let alloc = rt.alloc();
    let mut bytes = input(alloc, &[0])?;
    bytes.cut(50);
    // 70,000 bytes, which are read by themselves.
    let payload = vec![in alloc; 7u8; 70_000]?;
    put_sample(&mut bytes, (1, 1), [0, 1, 0x11, 0x70], payload.as_slice())?;
    bytes.append(&[0])?;
    let Some(mut pump) = pump_of(alloc, bytes, vec![in alloc; 1]?, options(1_000_000)) else {
        assert!(rt; false);
        return Ok(());
    };
    let found = Some(run_out(alloc, &mut pump)?);
    assert!(rt; is_so(&found, &[1], coded_fault(CodedFault::ReadFault, 0)));
    assert_eq!(rt; pump.give_source().count(), 1);
    Ok(())
}

#[test]
fn each_step_says_how_the_pump_stands(rt: HostRuntime) -> Result<(), Fail> {
    let alloc = rt.alloc();
    let bytes = input(alloc, &[5, 6])?;
    let Some(mut pump) = pump_of(alloc, bytes, Vec::new(alloc), options(0)) else {
        assert!(rt; false);
        return Ok(());
    };
    assert!(rt; pump.take_chunk().is_none());
    assert_eq!(rt; pump.step(), Stepped::Moved);
    assert!(rt; pump.take_chunk().is_none());
    assert_eq!(rt; pump.step(), Stepped::HasChunk);
    assert_eq!(rt; pump.step(), Stepped::HasChunk);
    if let Some(chunk) = pump.take_chunk() {
        assert_eq!(rt;
            (chunk.track, chunk.number, chunk.first_us, chunk.last),
            (3, 0, 5, false)
        );
    }
    assert_eq!(rt; pump.step(), Stepped::HasChunk);
    if let Some(chunk) = pump.take_chunk() {
        assert_eq!(rt;
            (chunk.track, chunk.number, chunk.first_us, chunk.last),
            (3, 1, 6, true)
        );
    }
    assert_eq!(rt; pump.step(), Stepped::Done);
    assert!(rt; pump.take_chunk().is_none());
    assert_eq!(rt; pump.step(), Stepped::Done);
    assert!(rt; pump.fault().is_none());
    Ok(())
}

#[test]
fn a_pump_that_is_ended_early_gives_what_it_has(rt: HostRuntime) -> Result<(), Fail> {
    let alloc = rt.alloc();
    let bytes = input(alloc, &[0, 1, 0])?;
    let Some(mut pump) = pump_of(alloc, bytes, Vec::new(alloc), options(1_000)) else {
        assert!(rt; false);
        return Ok(());
    };
    assert_eq!(rt; pump.step(), Stepped::Moved);
    assert!(rt; pump.take_chunk().is_none());
    pump.end_early();
    let found = Some(run_out(alloc, &mut pump)?);
    assert!(rt; is_so(&found, &[1], None));
    Ok(())
}

#[test]
fn a_last_chunk_that_was_made_is_not_made_again(rt: HostRuntime) -> Result<(), Fail> {
    let alloc = rt.alloc();
    let bytes = input(alloc, &[1, 0])?;
    let Some(mut pump) = pump_of(alloc, bytes, Vec::new(alloc), options(1_000)) else {
        assert!(rt; false);
        return Ok(());
    };
    let falls = sample_fault(SampleFault::Falls { last_us: 1 }, 50);
    let found = Some(run_out(alloc, &mut pump)?);
    assert!(rt; is_so(&found, &[1], falls));
    if pump.take_chunk().is_none() {
        pump.end_early();
    }
    assert_eq!(rt; pump.step(), Stepped::Done);
    assert_eq!(rt; pump.fault().copied(), falls);
    Ok(())
}

// Whether values of a type may be sent to other threads.
fn is_sent<T: Send>(_value: &T) -> bool {
    true
}

#[test]
fn a_pump_can_be_stepped_in_another_thread(rt: HostRuntime) -> Result<(), Fail> {
    let alloc = rt.alloc();
    if let Some(pump) = pump_of(alloc, input(alloc, &[])?, Vec::new(alloc), options(0)) {
        assert!(rt; is_sent(&pump));
    }
    Ok(())
}
