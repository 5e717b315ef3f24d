//! Where chunks close, and what they hold.

ghost use Rattle.std.specs.Prelude.{◌≤◌};

use super::*;
use sf_list::{holds, same};

/// How many samples of four bytes, which are shown when they are decoded, are in each chunk.
fn counts_at(alloc: Global, interleave_us: u64, times: &[u64]) -> Result<Vec<usize>, AllocError> {
    let options = Options {
        start_us: 0,
        interleave_us,
    };
    let mut pairs = Vec::new(alloc);
    for time in times {
        pairs.push((*time, *time))?;
    }
    let fed = feed(alloc, 48_000, options, &pairs)?;
    counts(alloc, &fed.chunks)
}

#[test]
fn a_chunk_lasts_as_long_as_the_interleaving(rt: HostRuntime) -> Result<(), Fail> {
    let alloc = rt.alloc();
    let table: [(u64, &[u64], &[usize]); 7] = [
        (1_000_000, &[0, 500_000, 1_000_000, 1_000_001], &[3, 1]),
        (1_000_000, &[7, 1_000_007], &[2]),
        (1_000_000, &[7, 1_000_008], &[1, 1]),
        (1, &[0, 1, 2, 3, 4], &[2, 2, 1]),
        (0, &[0, 0, 5], &[1, 1, 1]),
        (0, &[9], &[1]),
        (1_000_000, &[], &[0]),
    ];
    for (interleave_us, times, wanted) in table {
        let counts = counts_at(alloc, interleave_us, times)?;
        same(counts.as_slice(), wanted)?;
    }
    Ok(())
}

#[test]
fn chunks_are_numbered_and_the_last_is_marked(rt: HostRuntime) -> Result<(), Fail> {
    let options = Options {
        start_us: 100,
        interleave_us: 10,
    };
    let times = [(105, 105), (110, 110), (116, 116), (130, 130)];
    let fed = feed(rt.alloc(), 90_000, options, &times)?;
    let wanted = [(0, 5, 2, false), (1, 16, 1, false), (2, 30, 1, true)];
    same(fed.chunks.len(), 3)?;
    for (chunk, (number, first_us, count, last)) in fed.chunks.iter().zip(wanted.iter()) {
        same(chunk.track, 3)?;
        same(chunk.number, *number)?;
        same(chunk.first_us, *first_us)?;
        same(chunk.samples.len(), *count)?;
        same(chunk.last, *last)?;
    }
    Ok(())
}

#[test]
fn without_samples_there_is_an_empty_last_chunk(rt: HostRuntime) -> Result<(), Fail> {
    let options = Options {
        start_us: 0,
        interleave_us: 1_000_000,
    };
    let chunk = Gather::new(rt.alloc(), 2, Kind::Aac, 48_000, options).end();
    same((chunk.track, chunk.number, chunk.first_us), (2, 0, 0))?;
    holds(chunk.samples.is_empty())?;
    holds(chunk.last)?;
    Ok(())
}

/// Whether a sample of one byte is taken into a chunk after two samples of these sizes.
fn fits_behind(alloc: Global, first: usize, second: usize) -> Result<bool, AllocError>
    requires first_some { 1 ≤ first }
    requires first_size { first ≤ 16777216 }
    requires second_some { 1 ≤ second }
    requires second_size { second ≤ 16777216 }
{
    let options = Options {
        start_us: 0,
        interleave_us: 1_000_000,
    };
    let mut gather = Gather::new(alloc, 0, Kind::Aac, 48_000, options);
    let _ = is_taken(&mut gather, sample(alloc, (0, 0), first)?);
    let _ = is_taken(&mut gather, sample(alloc, (0, 0), second)?);
    Ok(is_taken(&mut gather, sample(alloc, (0, 0), 1)?))
}

#[test]
fn a_full_chunk_takes_no_more_samples(rt: HostRuntime) -> Result<(), Fail> {
    let alloc = rt.alloc();
    holds(fits_behind(alloc, 4_194_302, 1)?)?;
    holds(!fits_behind(alloc, 4_194_303, 1)?)?;
    holds(!fits_behind(alloc, 4_194_302, 16_777_216)?)?;
    Ok(())
}
