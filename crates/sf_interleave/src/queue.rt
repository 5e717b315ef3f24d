//! The chunks of one track that wait, seen as a list.

ghost use Rattle.std.specs.Prelude.{◌≡◌, List, [], ◌∷◌, ◌++◌, drop, slice_get, option_copied, IfErr, OnErr, OnOk};

use sf_tick::Chunk;
use std::alloc::Global;
use std::collections::VecDeque;
use std::marker::Model;

/// The chunks of one track that wait, the first one in front.
#[derive(Drop)]
pub(crate) struct ChunkQueue {
    chunks: VecDeque<Chunk>,
}

impl Model for ChunkQueue {
    ghost use Rattle.std.specs.Prelude.{List};
    ghost use Rattle.sf_tick.specs.declared.types.Chunk.{Chunk};

    ghost Value = { List Chunk };

    ghost view = { λ q. q.chunks.items };
}

impl ChunkQueue {
    /// A queue without chunks. It takes no memory.
    pub(crate) fn new(alloc: Global) -> ChunkQueue
        ensures { result ≡ [] }
    {
        ChunkQueue {
            chunks: VecDeque::new(alloc),
        }
    }

    /// Puts a chunk at the end, or gives it back where there is no memory.
    pub(crate) fn push(&mut self, chunk: Chunk) -> Result<(), Chunk>
        ensures ok { OnOk result (self.new ≡ self.old ++ chunk ∷ []) }
        ensures err { OnErr result (self.new ≡ self.old) }
        ensures back { IfErr result (λ back. back ≡ chunk) }
    {
        match self.chunks.push_back(chunk) {
            Ok(()) => Ok(()),
            Err(failed) => Err(failed.value),
        }
    }

    /// The first chunk, if there is one.
    pub(crate) fn front(&self) -> Option<&Chunk>
        ensures { option_copied result ≡ slice_get self.now 0 }
    {
        self.chunks.front()
    }

    /// Takes the first chunk away, if there is one.
    pub(crate) fn pop(&mut self) -> Option<Chunk>
        ensures chunk { result ≡ slice_get self.old 0 }
        ensures rest { self.new ≡ drop 1 self.old }
    {
        self.chunks.pop_front()
    }
}
