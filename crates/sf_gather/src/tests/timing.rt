//! The ticks of samples.

ghost use Rattle.std.specs.Prelude.{◌≤◌};

use super::*;
use sf_list::same;

/// The decode and the composition tick of each sample with these times, all in one chunk.
fn ticks(
    alloc: Global,
    scale: u32,
    start_us: u64,
    times: &[(u64, u64)],
) -> Result<Vec<(u64, u64)>, AllocError>
    requires { 1 ≤ scale }
{
    let options = Options {
        start_us,
        interleave_us: 1_000_000,
    };
    let fed = feed(alloc, scale, options, times)?;
    let mut ticks = Vec::new(alloc);
    for chunk in fed.chunks.iter() {
        for sample in chunk.samples.as_slice() {
            ticks.push((sample.decode, sample.compose))?;
        }
    }
    Ok(ticks)
}

#[test]
fn composition_ticks_may_lie_before_and_behind_decode_ticks(rt: HostRuntime) -> Result<(), Fail> {
    let alloc = rt.alloc();
    let behind = ticks(
        alloc,
        90_000,
        0,
        &[(0, 33_333), (33_333, 100_000), (66_667, 66_667)],
    )?;
    same(
        behind.as_slice(),
        [(0, 3000), (3000, 9000), (6000, 6000)].as_slice(),
    )?;
    let before = ticks(alloc, 90_000, 0, &[(0, 0), (33_333, 0)])?;
    same(before.as_slice(), [(0, 0), (3000, 0)].as_slice())?;
    Ok(())
}

#[test]
fn ticks_count_from_the_start(rt: HostRuntime) -> Result<(), Fail> {
    let ticks = ticks(
        rt.alloc(),
        48_000,
        1_000_000,
        &[(1_000_000, 1_000_000), (1_021_333, 1_042_667)],
    )?;
    same(ticks.as_slice(), [(0, 0), (1024, 2048)].as_slice())?;
    Ok(())
}
