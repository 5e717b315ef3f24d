//! What is kept of the chunks that were handed of a track.

ghost use Rattle.std.specs.Prelude.{◌≡◌, ◌==◌, ◌≤◌, IsTrue};
ghost use Rattle.sf_gather.specs.Accepting.{last_from};
ghost use Rattle.sf_gather.specs.Chunks.{first_us};
ghost use Rattle.sf_gather.specs.Proper.{Extends, IsChunk};
ghost use Rattle.sf_series.specs.inner.Tails.{count_to, fresh_tail, tail_with};

use sf_gather::{LastSample, all_follow};
use sf_tick::{Chunk, Stored};
use std::marker::Model;

/// The most samples of a chunk.
const MOST_SAMPLES: usize = 4_194_304;

/// What is kept of the chunks of a track that were handed, seen as the tail of their list.
#[derive(Drop)]
pub(crate) struct HandedTail {
    /// The number of the last chunk with samples, if there was one.
    pub(crate) number: Option<u64>,
    /// Whether the track's last chunk was handed.
    pub(crate) ended: bool,
    /// The last sample, if there was one.
    pub(crate) last: Option<LastSample>,
}

impl Model for HandedTail {
    ghost use Rattle.sf_gather.specs.Proper.{Tail};
    ghost use Rattle.sf_series.specs.inner.Tails.{count_to};

    ghost Value = { Tail };

    ghost view = { λ t. record { count = count_to t.number; ended = t.ended; last = t.last } };
}

// What is kept of the last of samples that stand after an earlier last one.
#[tactic(auto, using(crate::proofs::Lasts::last_facts))]
fn last_after(before: Option<LastSample>, samples: &[Stored]) -> Option<LastSample>
    ensures { result ≡ last_from before samples.now }
{
    match samples.last() {
        None => before,
        Some(sample) => Some(LastSample {
            dts_us: sample.dts_us,
            decode: sample.decode,
        }),
    }
}

// Whether a number is the one after the last.
fn is_next(last: Option<u64>, number: u64) -> bool
    ensures { result ≡ (number == count_to last) }
{
    match last {
        Some(last) => last < u64::MAX && number == last + 1,
        None => number == 0,
    }
}

// When the first of samples is decoded, in microseconds; 0 without samples.
fn first_us(samples: &[Stored]) -> u64
    ensures { result ≡ first_us samples.now }
{
    match samples {
        [first, ..] => first.dts_us,
        [] => 0,
    }
}

// Whether a chunk by itself can stand after the one of this number.
fn is_chunk(last: Option<u64>, chunk: &Chunk) -> bool
    ensures holds { IsTrue result → IsChunk chunk.now.track (count_to last) chunk.now }
    ensures only { IsChunk chunk.now.track (count_to last) chunk.now → IsTrue result }
{
    is_next(last, chunk.number)
        && chunk.first_us == first_us(chunk.samples.as_slice())
        && (chunk.last || !chunk.samples.is_empty())
        && chunk.samples.len() <= MOST_SAMPLES
}

impl HandedTail {
    /// Nothing was handed.
    pub fn new() -> HandedTail
        ensures { result ≡ fresh_tail }
    {
        HandedTail {
            number: None,
            ended: false,
            last: None,
        }
    }

    /// Whether a chunk goes on from here, at so many ticks a second.
    pub fn takes(&self, scale: u32, chunk: &Chunk) -> bool
        requires { 1 ≤ scale }
        ensures holds { IsTrue result → Extends chunk.now.track scale self.now chunk.now }
        ensures only { Extends chunk.now.track scale self.now chunk.now → IsTrue result }
    {
        !self.ended
            && is_chunk(self.number, chunk)
            && all_follow(scale, self.last, chunk.samples.as_slice())
    }

    /// What is kept with one more chunk, which has the next number.
    pub fn with(&self, chunk: &Chunk) -> HandedTail
        requires { chunk.now.number ≡ self.now.count }
        ensures { result ≡ tail_with self.now chunk.now }
    {
        HandedTail {
            number: if chunk.samples.is_empty() {
                self.number
            } else {
                Some(chunk.number)
            },
            ended: self.ended || chunk.last,
            last: last_after(self.last, chunk.samples.as_slice()),
        }
    }
}
