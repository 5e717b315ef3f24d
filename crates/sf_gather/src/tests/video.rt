//! Samples of video: their stored form, their refusals, and the chunks that they begin.

ghost use Rattle.std.specs.Prelude.{◌≡◌, ◌≤◌, length, IfOk};

use super::*;
use sf_avc::NalFault;
use sf_list::{holds, same};

const OPTIONS: Options = Options {
    start_us: 0,
    interleave_us: 1_000_000,
};

/// A sample with this payload, which is shown when it is decoded.
fn sample_of(alloc: Global, dts_us: u64, sync: bool, payload: &[u8]) -> Result<Sample, AllocError>
    ensures { IfOk result (λ s. s.bytes ≡ payload.now) }
{
    Ok(Sample {
        dts_us,
        pts_us: dts_us,
        sync,
        bytes: Bytes::from_slice(alloc, payload)?,
    })
}

#[test]
fn units_are_stored_after_their_lengths(rt: HostRuntime) -> Result<(), Fail> {
    let alloc = rt.alloc();
    let payload = [0, 0, 0, 1, 0x65, 0x88, 0, 0, 1, 0x41, 0x9a];
    let mut gather = Gather::new(alloc, 0, Kind::Avc, 90_000, OPTIONS);
    holds(is_taken(&mut gather, sample_of(alloc, 0, true, &payload)?))?;
    let chunk = gather.end();
    same(chunk.samples.len(), 1)?;
    for sample in chunk.samples.as_slice() {
        same(
            sample.bytes.as_slice(),
            [0, 0, 0, 2, 0x65, 0x88, 0, 0, 0, 2, 0x41, 0x9a].as_slice(),
        )?;
    }
    Ok(())
}

/// Why a sample of video with this payload is refused after one that is decoded at 20.
fn fault_of(alloc: Global, dts_us: u64, payload: &[u8]) -> Result<Option<SampleFault>, AllocError>
    requires some { 1 ≤ length payload.now }
    requires size { length payload.now ≤ 16777216 }
{
    let mut gather = Gather::new(alloc, 0, Kind::Avc, 90_000, OPTIONS);
    let _ = is_taken(&mut gather, sample_of(alloc, 20, true, &[0, 0, 1, 0x65])?);
    match gather.accept(sample_of(alloc, dts_us, false, payload)?) {
        Ok(_) => Ok(None),
        Err(back) => Ok(Some(back.1)),
    }
}

#[test]
fn a_payload_that_is_no_list_of_units_is_refused(rt: HostRuntime) -> Result<(), Fail> {
    let alloc = rt.alloc();
    let no_start = Some(SampleFault::Nal(NalFault::NoStart));
    let empty = Some(SampleFault::Nal(NalFault::EmptyUnit { at: 7 }));
    let falls = Some(SampleFault::Falls { last_us: 20 });
    let with_empty = [0, 0, 1, 0x65, 0, 0, 1, 0, 0, 0, 1, 0x41];
    same(fault_of(alloc, 20, &[0, 0, 1, 0x65])?, None)?;
    same(fault_of(alloc, 20, &[0x65, 0x88, 0x84])?, no_start)?;
    same(fault_of(alloc, 20, &with_empty)?, empty)?;
    // The rules of times come first.
    same(fault_of(alloc, 19, &[0x65, 0x88, 0x84])?, falls)?;
    same(fault_of(alloc, 19, &with_empty)?, falls)?;
    Ok(())
}

#[test]
fn a_refused_sample_of_video_comes_back_whole(rt: HostRuntime) -> Result<(), Fail> {
    let alloc = rt.alloc();
    let mut gather = Gather::new(alloc, 0, Kind::Avc, 90_000, OPTIONS);
    let back = gather
        .accept(sample_of(alloc, 5, true, &[0x65, 0x88, 0x84])?)
        .err();
    holds(back.is_some())?;
    if let Some(back) = back {
        same((back.0.dts_us, back.0.pts_us, back.0.sync), (5, 5, true))?;
        same(back.0.bytes.as_slice(), [0x65, 0x88, 0x84].as_slice())?;
    }
    holds(is_taken(&mut gather, sample_of(alloc, 4, true, &[0, 0, 1, 0x65])?))?;
    same(gather.end().samples.len(), 1)?;
    Ok(())
}

/// Whether a second sample is taken into the chunk of the first one.
fn joins(alloc: Global, kind: Kind, sync: bool) -> Result<bool, AllocError> {
    let mut gather = Gather::new(alloc, 0, kind, 48_000, OPTIONS);
    let _ = is_taken(&mut gather, sample_of(alloc, 0, true, &[0, 0, 1, 0x65])?);
    Ok(is_taken(&mut gather, sample_of(alloc, 1, sync, &[0, 0, 1, 0x41])?))
}

#[test]
fn a_chunk_closes_before_a_sync_sample_of_video(rt: HostRuntime) -> Result<(), Fail> {
    let alloc = rt.alloc();
    holds(!joins(alloc, Kind::Avc, true)?)?;
    holds(joins(alloc, Kind::Avc, false)?)?;
    holds(joins(alloc, Kind::Aac, true)?)?;
    holds(joins(alloc, Kind::Aac, false)?)?;
    Ok(())
}
