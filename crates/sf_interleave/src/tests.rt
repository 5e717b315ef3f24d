ghost use Rattle.std.specs.Prelude.{◌≡◌, ◌≤◌, ◌<◌, length, IfOk};

use super::*;
use sf_list::Bytes;
use sf_tick::{Chunk, Samples, Stored};
use std::alloc::{AllocError, Global};
use std::test::Fail;

mod picking;

/// A chunk of one sample of a track, with its number and when it begins in microseconds.
fn chunk(alloc: Global, track: u32, number: u64, first_us: u64) -> Result<Chunk, AllocError>
    ensures track { IfOk result (λ c. c.track ≡ track) }
    ensures some { IfOk result (λ c. 1 ≤ length c.samples) }
{
    let sample = Stored {
        dts_us: first_us,
        decode: first_us,
        compose: first_us,
        sync: true,
        bytes: Bytes::from_vec(vec![in alloc; 7]?),
    };
    let mut samples = Samples::new(alloc);
    samples.push(sample)?;
    Ok(Chunk {
        track,
        number,
        first_us,
        samples,
        last: false,
    })
}

/// Hands chunks of two tracks one after the other, each as its track, its number and when it begins.
fn hand_all(
    alloc: Global,
    pending: &mut Pending,
    chunks: &[(u32, u64, u64)],
) -> Result<bool, AllocError>
    requires { length pending.old ≡ 3 }
    ensures { length pending.new ≡ 3 }
{
    for (track, number, first_us) in chunks {
        if *track < 3 {
            let chunk = chunk(alloc, *track, *number, *first_us)?;
            if pending.hand(chunk).is_err() {
                return Ok(false);
            }
        }
    }
    Ok(true)
}

/// The tracks and the numbers of the chunks that are picked until none waits.
fn picked(alloc: Global, mut pending: Pending) -> Result<Vec<(u32, u64)>, AllocError> {
    let mut picked = Vec::new(alloc);
    for _ in 0..9 {
        if let Some(chunk) = pending.pick() {
            picked.push((chunk.track, chunk.number))?;
        }
    }
    Ok(picked)
}
