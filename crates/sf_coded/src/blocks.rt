ghost use Rattle.std.specs.Prelude.{◌≡◌, ℕ, ◌+◌, ◌-◌, ◌^◌, ◌≤◌, ◌<◌, min, length, take, drop, OnOk, IfOk, IfErr};
ghost use Rattle.sf_world.specs.Contents.{HasLength};
ghost use Rattle.sf_world.specs.Views.{ReadOver, SourceView};
ghost use Rattle.sf_coded.specs.inner.Window.{Window, Covers, AreFrom};

use sf_world::{Failed, Source};
use std::alloc::{AllocError, Global};
use std::marker::Model;

/// How many bytes a block has.
const BLOCK: usize = 65_536;

/// So many bytes, to be read into.
pub fn zeros(alloc: Global, len: usize) -> Result<Vec<u8>, AllocError>
    ensures { IfOk result (λ v. length v.items ≡ len) }
{
    Ok(vec![in alloc; 0u8; len]?)
}

/// The bytes of a source that were read last: so many, from a place on.
#[derive(Drop)]
struct Block {
    bytes: Vec<u8>,
    from: u64,
    held: usize,
}

impl Block {
    // How many of the bytes from a place on the block holds, up to so many.
    fn held_from(&self, at: u64, most: usize) -> usize
        requires room { self.now.from + self.now.held < 2 ^ 64 }
        ensures most { result ≤ most }
        ensures covers { 1 ≤ result → Covers self.now.from self.now.held at result }
    {
        let end = self.from + self.held as u64;
        if at < self.from || end <= at {
            return 0;
        }
        let held = end - at;
        if held < most as u64 {
            held as usize
        } else {
            most
        }
    }

    // Reads a block from a place on, which has a part of the source.
    fn fill<S: Source>(&mut self, source: &mut S, at: u64, count: usize) -> Result<(), Failed>
        requires window { Window (S.seen source.old) self.old.bytes.items self.old.from self.old.held }
        requires fits { count ≤ 65536 }
        requires part { at + count ≤ (S.seen source.old).size }
        requires size { (S.seen source.old).size < 2 ^ 64 }
        ensures window { Window (S.seen source.new) self.new.bytes.items self.new.from self.new.held }
        ensures covers { OnOk result (Covers self.new.from self.new.held at count) }
        ensures source { ReadOver (S.seen source.old) (S.seen source.new) result }
    {
        self.held = 0;
        self.from = at;
        self.held = source.read_at(at, &mut self.bytes)?;
        Ok(())
    }

    // Copies a part of the source that the block holds, or no byte.
    fn copy(&self, at: u64, into: &mut [u8])
        requires covers { 1 ≤ length into.old → Covers self.now.from self.now.held at (length into.old) }
        requires room { self.now.held ≤ length self.now.bytes.items }
        ensures { into.new ≡ take (length into.old) (drop (at - self.now.from) self.now.bytes.items) }
    {
        if into.is_empty() {
            return;
        }
        let start = (at - self.from) as usize;
        into.copy_from_slice(&self.bytes[start..start + into.len()]);
    }
}

/// A source that is read through one block.
#[derive(Drop)]
pub struct Blocks<S: Source> {
    source: S,
    size: u64,
    block: Block,
}

impl<S: Source> Model for Blocks<S> {
    ghost Value = { SourceView };

    ghost view = { λ b. S.seen b.source };

    ghost invariant = { λ b. (b.size ≡ (S.seen b.source).size) × Window (S.seen b.source) b.block.bytes.items b.block.from b.block.held };
}

impl<S: Source> Blocks<S> {
    /// A source with an empty block, or the source alone where there is no memory.
    pub fn new(alloc: Global, source: S) -> Result<Blocks<S>, S>
        ensures ok { IfOk result (λ b. b ≡ S.seen source) }
        ensures err { IfErr result (λ s. s ≡ source) }
    {
        let Ok(bytes) = zeros(alloc, BLOCK) else {
            return Err(source);
        };
        let size = source.length();
        let block = Block {
            bytes,
            from: 0,
            held: 0,
        };
        Ok(Blocks {
            source,
            size,
            block,
        })
    }

    /// The length of the source.
    pub fn size(&self) -> u64
        ensures size { result ≡ self.now.size }
        ensures told { HasLength self.now.content result }
    {
        self.size
    }

    /// The source alone.
    pub fn give_source(self) -> S
        ensures { S.seen result ≡ self }
    {
        self.source
    }

    // Reads bytes that the block doesn't hold. A part that is longer than the block is read straight
    // into its place.
    fn read_anew(&mut self, at: u64, into: &mut [u8]) -> Result<(), Failed>
        requires { at + length into.old ≤ self.old.size }
        ensures bytes { OnOk result (AreFrom self.old.content at into.new) }
        ensures source { ReadOver self.old self.new result }
    {
        if into.len() > BLOCK {
            self.source.read_at(at, into)?;
            return Ok(());
        }
        self.block.fill(&mut self.source, at, into.len())?;
        self.block.copy(at, into);
        Ok(())
    }

    /// Reads the bytes from a place on, which the source has, into a buffer: what the block holds of
    /// them from the block, and the others from the source.
    pub fn read(&mut self, at: u64, into: &mut [u8]) -> Result<(), Failed>
        requires { at + length into.old ≤ self.old.size }
        ensures bytes { OnOk result (AreFrom self.old.content at into.new) }
        ensures source { ReadOver self.old self.new result }
    {
        let count = self.block.held_from(at, into.len());
        let (held, rest) = into.split_at_mut(count);
        self.block.copy(at, held);
        if rest.is_empty() {
            return Ok(());
        }
        self.read_anew(at + count as u64, rest)
    }
}
