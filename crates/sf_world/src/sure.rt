ghost use Rattle.std.specs.Prelude.{◌≡◌, ◌≤◌, [], length, refl, Some, option_map};
ghost use Rattle.std.proofs.Common.{lit<};
ghost use Rattle.sf_world.specs.Contents.{told_file};
ghost use Rattle.sf_world.specs.Views.{told_sink, told_source};
ghost use Rattle.sf_world.specs.inner.Files.{files_of};
ghost use Rattle.sf_world.specs.declared.kept.Node.{out-Node};

use super::copying::copy_at;
use super::kept::{Node, file_at, put};
use super::{Denied, Failed, Fits, Measure, Shelf, Sink, Source};
use sf_list::{Bytes, Text};
use std::alloc::Global;

/// A source in memory that never fails.
#[derive(Drop)]
pub struct SureSource {
    contents: Bytes,
}

impl SureSource {
    /// The bytes are told. It takes no memory of the allocator.
    pub fn new(_alloc: Global, contents: Bytes) -> SureSource
        ensures { ⟦<SureSource as Source>⟧.seen result ≡ told_source contents 0 }
    {
        SureSource { contents }
    }
}

impl Fits for SureSource {
    ghost fits = { λ source name. (length source.contents ≡ name.length)
        × (Some source.contents ≡ name.content) };
}

impl Measure for SureSource {
    ghost measure = { λ source. 0 };
}

impl Source for SureSource {
    ghost seen = { λ source. told_source source.contents 0 };

    ghost whole = { λ source. refl };

    ghost bounded = { λ source. lit< tt };

    ghost counted = { λ source. refl };

    ghost fitting = { λ source name fits. fits };

    ghost fits_if = { λ source name fits. fits };

    fn length(&self) -> u64 {
        self.contents.len() as u64
    }

    fn read_at(&mut self, at: u64, into: &mut [u8]) -> Result<usize, Failed> {
        Ok(copy_at(self.contents.as_slice(), at, into))
    }
}

/// A sink of a `SureShelf`. Only memory can run out.
#[derive(Drop)]
pub struct SureSink {
    node: Box<Node>,
}

impl Sink for SureSink {
    ghost seen = { λ sink. told_sink (out-Node sink.node.value).contents 0 };

    ghost whole = { λ sink. refl };

    ghost bounded = { λ sink. lit< tt };

    fn append(&mut self, bytes: &[u8]) -> Result<(), Denied> {
        self.node.contents.append(bytes)?;
        Ok(())
    }

    fn patch(&mut self, at: u64, bytes: &[u8]) -> Result<(), Failed> {
        self.node.contents.patch(at as usize, bytes);
        Ok(())
    }
}

/// A shelf in memory that never fails. Only memory can run out.
#[derive(Drop)]
pub struct SureShelf {
    alloc: Global,
    names: Vec<Text>,
    files: Option<Box<Node>>,
}

impl SureShelf {
    /// An empty shelf.
    pub fn new(alloc: Global) -> SureShelf
        ensures { ⟦<SureShelf as Shelf>⟧.seen result ≡ record { names = []; files = Some []; faults = 0 } }
    {
        SureShelf {
            alloc,
            names: Vec::new(alloc),
            files: None,
        }
    }

    /// The file that was kept after so many others, if there is one.
    pub fn file(&self, k: u32) -> Option<&[u8]>
        ensures { option_map (λ bytes. bytes.now) result ≡ told_file (⟦<SureShelf as Shelf>⟧.seen self.now).files k }
    {
        file_at(&self.files, k)
    }
}

impl Shelf for SureShelf {
    type Out = SureSink;

    ghost seen = { λ shelf. record { names = shelf.names.items; files = Some (files_of shelf.files); faults = 0 } };

    ghost bounded = { λ shelf. lit< tt };

    fn create(&mut self, name: &str) -> Result<SureSink, Denied> {
        let node = Node {
            contents: Bytes::new(self.alloc),
            next: None,
        };
        let node = Box::new(self.alloc, node)?;
        self.names.push(Text::from_str(self.alloc, name)?)?;
        Ok(SureSink { node })
    }

    fn keep(&mut self, sink: SureSink) {
        put(&mut self.files, sink.node);
    }
}

/// A text in memory that never fails. Only memory can run out.
#[derive(Drop)]
pub struct MemText {
    bytes: Bytes,
}

impl MemText {
    /// An empty text.
    pub fn new(alloc: Global) -> MemText
        ensures { ⟦<MemText as Sink>⟧.seen result ≡ told_sink [] 0 }
    {
        MemText {
            bytes: Bytes::new(alloc),
        }
    }

    /// Lends the bytes so far.
    pub fn bytes(&self) -> &[u8]
        ensures { (⟦<MemText as Sink>⟧.seen self.now).content ≡ Some result.now }
    {
        self.bytes.as_slice()
    }
}

impl Sink for MemText {
    ghost seen = { λ text. told_sink text.bytes 0 };

    ghost whole = { λ text. refl };

    ghost bounded = { λ text. lit< tt };

    fn append(&mut self, bytes: &[u8]) -> Result<(), Denied> {
        self.bytes.append(bytes)?;
        Ok(())
    }

    fn patch(&mut self, at: u64, bytes: &[u8]) -> Result<(), Failed> {
        self.bytes.patch(at as usize, bytes);
        Ok(())
    }
}
