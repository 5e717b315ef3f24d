ghost use Rattle.std.specs.Prelude.{◌≡◌, ℕ, ◌+◌, ◌≤◌, ◌≢◌, List, [], ◌∷◌, ◌++◌, length, Some, option_map, is_some, IfOk, OnOk, OnErr, map, filter, ◌==◌};
ghost use Rattle.sf_world.specs.Contents.{told_file};

use super::calls::Calls;
use super::kept::{Node, file_at, put};
use super::{Denied, MemSink, NoMemory, Shelf};
use sf_list::{Bytes, Text};
use std::alloc::{AllocError, Global};

/// A shelf in memory, some of whose calls fail, and some of those of its sinks.
///
/// The shelf is object 0, and its k-th sink is object k. The calls of `create`, `append` and
/// `patch` are numbered from 0 for each object by itself.
#[derive(Drop)]
pub struct MemShelf {
    alloc: Global,
    calls: Calls,
    sink_failing: Vec<(u32, u64)>,
    names: Vec<Text>,
    files: Option<Box<Node>>,
}

impl MemShelf {
    ghost use Rattle.sf_world.specs.inner.Memory.{failing_calls};

    /// An empty shelf, whose own calls with the failing numbers fail.
    pub fn new(alloc: Global, failing: Vec<u64>) -> MemShelf
        ensures seen { ⟦<MemShelf as Shelf>⟧.seen result ≡ record { names = []; files = Some []; faults = 0 } }
        ensures failing { failing_calls result 0 ≡ failing.items }
        ensures others { (object : ℕ) → 1 ≤ object → failing_calls result object ≡ [] }
        ensures next { result.calls.next ≡ 0 }
    {
        MemShelf {
            alloc,
            calls: Calls::new(failing),
            sink_failing: Vec::new(alloc),
            names: Vec::new(alloc),
            files: None,
        }
    }

    /// Lets a call of an object fail too. A sink that was made already isn't reached any more.
    pub fn fail_on(&mut self, object: u32, call: u64) -> Result<(), NoMemory>
        ensures seen { ⟦<MemShelf as Shelf>⟧.seen self.new ≡ ⟦<MemShelf as Shelf>⟧.seen self.old }
        ensures ok { OnOk result (failing_calls self.new object ≡ failing_calls self.old object ++ call ∷ []) }
        ensures others { (other : ℕ) → other ≢ object → failing_calls self.new other ≡ failing_calls self.old other }
        ensures err { OnErr result (failing_calls self.new object ≡ failing_calls self.old object) }
        ensures next { self.new.calls.next ≡ self.old.calls.next }
    {
        if object == 0 {
            self.calls.add_failing(call)
        } else {
            self.sink_failing.push((object, call))?;
            Ok(())
        }
    }

    /// The file that was kept after so many others, if there is one.
    pub fn file(&self, k: u32) -> Option<&[u8]>
        ensures { option_map (λ bytes. bytes.now) result ≡ told_file (⟦<MemShelf as Shelf>⟧.seen self.now).files k }
    {
        file_at(&self.files, k)
    }
}

// The failing calls of a sink.
fn failing_of(alloc: Global, failing: &[(u32, u64)], object: u64) -> Result<Vec<u64>, AllocError>
    ensures { IfOk result (λ calls. calls.items
        ≡ map (λ pair. pair.1) (filter (λ pair. pair.0 == object) failing.now)) }
{
    failing
        .iter()
        .filter(|pair| u64::from(pair.0) == object)
        .map(|pair| pair.1)
        .collect(alloc)
}

impl Shelf for MemShelf {
    ghost use Rattle.sf_world.specs.Counts.{HasDenial};
    ghost use Rattle.sf_world.specs.Views.{IsNew, with_kept};
    ghost use Rattle.sf_world.specs.inner.CallNumbers.{CallFailed, CallPassed};
    ghost use Rattle.sf_world.specs.inner.Memory.{failing_calls, shelf_seen, sink_seen};

    type Out = MemSink;

    ghost seen = { λ shelf. shelf_seen shelf };

    ghost bounded = { λ shelf. shelf.calls.counted };

    fn create(&mut self, name: &str) -> Result<MemSink, Denied>
        ensures sink { IfOk result (λ sink. IsNew (shelf_seen self.old) (sink_seen sink)) }
        ensures names_ok { OnOk result (self.new.names.items ≡ self.old.names.items ++ name.now ∷ []) }
        ensures names_err { OnErr result (self.new.names.items ≡ self.old.names.items) }
        ensures files { (shelf_seen self.new).files ≡ (shelf_seen self.old).files }
        ensures cause { HasDenial self.old.calls.faults self.new.calls.faults result }

        // Exactly the calls with the failing numbers fail.
        ensures passes { OnOk result (CallPassed self.old.calls self.new.calls) }
        ensures fails { result ≡ Err Denied.Failed → CallFailed self.old.calls self.new.calls }
        ensures stood { result ≡ Err Denied.NoMemory → self.new.calls ≡ self.old.calls }

        // The k-th sink is object k.
        ensures object { IfOk result (λ sink. sink.calls.failing.items
            ≡ failing_calls self.old (length self.old.names.items + 1)) }
        ensures first { IfOk result (λ sink. sink.calls.next ≡ 0) }
        ensures others { (object : ℕ) → failing_calls self.new object ≡ failing_calls self.old object }
    {
        if self.calls.next_fails() {
            self.calls.fail();
            return Err(Denied::Failed);
        }
        let object = self.names.len() as u64 + 1;
        let failing = failing_of(self.alloc, &self.sink_failing, object)?;
        let node = Node {
            contents: Bytes::new(self.alloc),
            next: None,
        };
        let node = Box::new(self.alloc, node)?;
        self.names.push(Text::from_str(self.alloc, name)?)?;
        self.calls.pass();
        Ok(MemSink {
            node,
            calls: Calls::new(failing),
        })
    }

    fn keep(&mut self, sink: MemSink)
        ensures kept { shelf_seen self.new ≡ with_kept (sink_seen sink) (shelf_seen self.old) }
        ensures tells { is_some (shelf_seen self.new).files ≡ is_some (shelf_seen self.old).files }

        // The same later calls fail.
        ensures failing { (object : ℕ) → failing_calls self.new object ≡ failing_calls self.old object }
        ensures next { self.new.calls.next ≡ self.old.calls.next }
    {
        self.calls.add(sink.calls.faults());
        put(&mut self.files, sink.node);
    }
}
