//! Tests of the gatherer.

ghost use Rattle.std.specs.Prelude.{◌≡◌, ◌≤◌, ◌<◌, ◌+◌, ◌-◌, ◌^◌, length, IfOk};

use super::*;
use sf_list::Bytes;
use sf_tick::{Chunk, Kind, Sample};
use std::alloc::{AllocError, Global};
use std::test::Fail;

mod closing;
mod refusing;
mod timing;
mod video;

/// A sample of so many bytes, with its two times in microseconds.
fn sample(alloc: Global, times: (u64, u64), size: usize) -> Result<Sample, AllocError>
    ensures { IfOk result (λ s. length s.bytes ≡ size) }
{
    Ok(Sample {
        dts_us: times.0,
        pts_us: times.1,
        sync: true,
        bytes: Bytes::from_vec(vec![in alloc; 7; size]?),
    })
}

/// What became of samples.
#[derive(Drop)]
struct Fed {
    chunks: Vec<Chunk>,
    fault: Option<SampleFault>,
}

/// Puts a chunk that was handed out after the others.
fn keep(chunks: &mut Vec<Chunk>, closed: Option<Chunk>) -> Result<(), AllocError> {
    if let Some(chunk) = closed {
        chunks.push(chunk)?;
    }
    Ok(())
}

/// Whether a sample is taken into the chunk so far.
fn is_taken(gather: &mut Gather, sample: Sample) -> bool
    requires some { 1 ≤ length sample.bytes }
    requires size { length sample.bytes ≤ 16777216 }
    requires number { gather.old.chunk.number < 2 ^ 64 - 1 }
    ensures number { gather.new.chunk.number ≤ gather.old.chunk.number + 1 }
{
    match gather.accept(sample) {
        Ok(closed) => closed.is_none(),
        Err(_back) => false,
    }
}

/// Gathers samples of four bytes up to the first one that is refused.
fn feed(
    alloc: Global,
    scale: u32,
    options: Options,
    times: &[(u64, u64)],
) -> Result<Fed, AllocError>
    requires scale { 1 ≤ scale }
{
    let mut gather = Gather::new(alloc, 3, Kind::Aac, scale, options);
    let mut chunks = Vec::new(alloc);
    let mut fault = None;
    for pair in times {
        match gather.accept(sample(alloc, *pair, 4)?) {
            Ok(closed) => keep(&mut chunks, closed)?,
            Err(back) => {
                fault = Some(back.1);
                break;
            }
        }
    }
    chunks.push(gather.end())?;
    Ok(Fed { chunks, fault })
}

/// How many samples each of the chunks has.
fn counts(alloc: Global, chunks: &[Chunk]) -> Result<Vec<usize>, AllocError> {
    let mut counts = Vec::new(alloc);
    for chunk in chunks {
        counts.push(chunk.samples.len())?;
    }
    Ok(counts)
}
