ghost use Rattle.std.specs.Prelude.{◌≡◌, ◌-◌, min, length, Some, refl, IfOk, OnOk, OnErr};
ghost use Rattle.sf_world.specs.Contents.{ReadsAt};
ghost use Rattle.sf_world.specs.Views.{told_source};

use super::calls::Calls;
use super::copying::copy_at;
use super::{Failed, Fits, Measure, Source};
use sf_list::Bytes;
use std::alloc::Global;

/// A source in memory, some of whose reads fail.
#[derive(Drop)]
pub struct MemSource {
    contents: Bytes,
    calls: Calls,
}

impl MemSource {
    /// The reads whose numbers (from 0) are among the failing ones fail, and no other. It takes no
    /// memory of the allocator.
    pub fn new(_alloc: Global, contents: Bytes, failing: Vec<u64>) -> MemSource
        ensures seen { ⟦<MemSource as Source>⟧.seen result ≡ told_source contents 0 }
        ensures failing { result.calls.failing.items ≡ failing.items }
        ensures next { result.calls.next ≡ 0 }
    {
        MemSource {
            contents,
            calls: Calls::new(failing),
        }
    }

    /// How many reads failed.
    pub fn count(&self) -> u64
        ensures { result ≡ (⟦<MemSource as Source>⟧.seen self.now).faults }
    {
        self.calls.faults()
    }
}

impl Fits for MemSource {
    ghost fits = { λ source name. (length source.contents ≡ name.length)
        × (Some source.contents ≡ name.content) };
}

impl Measure for MemSource {
    ghost measure = { λ source. source.calls.faults };
}

impl Source for MemSource {
    ghost use Rattle.sf_world.specs.inner.CallNumbers.{CallFailed, CallPassed};
    ghost use Rattle.sf_world.specs.Views.{ReadOver, told_source};

    ghost seen = { λ source. told_source source.contents source.calls.faults };

    ghost whole = { λ source. refl };

    ghost bounded = { λ source. source.calls.counted };

    ghost counted = { λ source. refl };

    ghost fitting = { λ source name fits. fits };

    ghost fits_if = { λ source name fits. fits };

    fn length(&self) -> u64 {
        self.contents.len() as u64
    }

    fn read_at(&mut self, at: u64, into: &mut [u8]) -> Result<usize, Failed>
        ensures count { IfOk result (λ n. n ≡ min (length into.old) (length self.old.contents - at)) }
        ensures bytes { IfOk result (λ n. ReadsAt (Some self.old.contents) at n into.new) }
        ensures source { ReadOver (told_source self.old.contents self.old.calls.faults) (told_source self.new.contents self.new.calls.faults) result }

        // Exactly the calls with the failing numbers fail.
        ensures passes { OnOk result (CallPassed self.old.calls self.new.calls) }
        ensures fails { OnErr result (CallFailed self.old.calls self.new.calls) }
    {
        if self.calls.next_fails() {
            self.calls.fail();
            return Err(Failed);
        }
        self.calls.pass();
        Ok(copy_at(self.contents.as_slice(), at, into))
    }
}
