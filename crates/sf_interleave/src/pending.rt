//! The lists of chunks that wait, one for each track.

ghost use Rattle.std.specs.Prelude.{◌≡◌, ◌≤◌, ◌<◌, ◌+◌, List, [], length, replicate, slice_get, option_copied, IfOk, IfErr, OnErr, OnOk, OnSome, MatchOption};
ghost use Rattle.sf_tick.specs.declared.types.Chunk.{Chunk};
ghost use Rattle.sf_interleave.specs.Waiting.{earlier_chunk, earliest_front, how_many, list_of, with_chunk, without_front};

use crate::queue::ChunkQueue;
use sf_tick::Chunk;
use std::alloc::{AllocError, Global};
use std::marker::Model;

/// The chunks of several tracks that wait to be written, seen as one list of chunks for each track.
#[derive(Drop)]
pub struct Pending {
    queues: Vec<ChunkQueue>,
}

impl Model for Pending {
    ghost use Rattle.std.specs.Prelude.{List};
    ghost use Rattle.sf_tick.specs.declared.types.Chunk.{Chunk};

    ghost Value = { List (List Chunk) };

    ghost use Rattle.sf_interleave.specs.Waiting.{OfTheirTracks};

    ghost view = { λ p. p.queues.items };

    ghost invariant = { λ p. OfTheirTracks 0 p.queues.items };
}

impl Pending {
    /// So many tracks, of which no chunk waits.
    #[tactic(auto, using(crate::proofs::Waiting::their_none))]
    pub fn new(alloc: Global, tracks: u32) -> Result<Pending, AllocError>
        ensures { IfOk result (λ pending. pending ≡ replicate tracks []) }
    {
        let mut queues = Vec::new(alloc);
        for _ in 0..tracks {
            queues.push(ChunkQueue::new(alloc))?;
        }
        Ok(Pending { queues })
    }

    /// Puts a chunk at the end of its track's list. It comes back for want of memory alone.
    pub fn hand(&mut self, chunk: Chunk) -> Result<(), Chunk>
        requires track { chunk.track < length self.old }
        requires some { 1 ≤ length chunk.samples }
        ensures ok { OnOk result (self.new ≡ with_chunk self.old chunk) }
        ensures err { OnErr result (self.new ≡ self.old) }
        ensures back { IfErr result (λ back. back ≡ chunk) }
        ensures tracks { length self.new ≡ length self.old }
    {
        let track = chunk.track as usize;
        self.queues[track].push(chunk)
    }

    /// The first chunk of a track that waits; none exactly where none waits.
    pub fn front(&self, track: u32) -> Option<&Chunk>
        requires { track < length self.now }
        ensures { option_copied result ≡ slice_get (list_of self.now track) 0 }
    {
        self.queues[track as usize].front()
    }

    /// Takes away the chunk that is written next: the first one of its track, and of those the one that
    /// begins earliest, of the lowest track where several begin at once. None exactly where none waits.
    /// It takes no memory.
    pub fn pick(&mut self) -> Option<Chunk>
        ensures chunk { result ≡ earliest_front self.old }
        ensures rest { MatchOption result (self.new ≡ self.old) (λ chunk. self.new ≡ without_front self.old chunk.track) }
        ensures fewer { OnSome result (how_many self.new + 1 ≡ how_many self.old) }
        ensures tracks { length self.new ≡ length self.old }
    {
        let track = match self.earliest() {
            Some(chunk) => chunk.track as usize,
            None => return None,
        };
        self.queues[track].pop()
    }

    // The chunk that is picked next.
    fn earliest(&self) -> Option<&Chunk>
        ensures { option_copied result ≡ earliest_front self.now }
    {
        let mut found = None;
        for queue in &self.queues {
            found = earlier_of(found, queue.front());
        }
        found
    }
}

// The chunk that begins earlier, the first one where both begin at once.
fn earlier_of<'a>(chunk: Option<&'a Chunk>, other: Option<&'a Chunk>) -> Option<&'a Chunk>
    ensures { option_copied result ≡ earlier_chunk (option_copied chunk.entry) (option_copied other.entry) }
{
    match (chunk, other) {
        (None, other) => other,
        (Some(chunk), None) => Some(chunk),
        (Some(chunk), Some(other)) => {
            if chunk.first_us <= other.first_us {
                Some(chunk)
            } else {
                Some(other)
            }
        }
    }
}
