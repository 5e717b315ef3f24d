ghost use Rattle.std.specs.Prelude.{◌≡◌, ◌+◌, ◌≤◌, ◌++◌, length, refl, Some, OnOk, OnErr};
ghost use Rattle.sf_world.specs.Contents.{patched, Spoils};
ghost use Rattle.sf_world.specs.Counts.{HasCause, HasDenial};
ghost use Rattle.sf_world.specs.Views.{Gains};

use super::calls::Calls;
use super::kept::Node;
use super::{Denied, Failed, Sink};

/// A sink in memory, some of whose calls fail. It carries the node that it will be on its shelf.
#[derive(Drop)]
pub struct MemSink {
    pub(crate) node: Box<Node>,
    pub(crate) calls: Calls,
}

impl Sink for MemSink {
    ghost use Rattle.sf_world.specs.inner.CallNumbers.{CallFailed, CallPassed};
    ghost use Rattle.sf_world.specs.inner.Memory.{contents_of, sink_seen};

    ghost seen = { λ sink. sink_seen sink };

    ghost whole = { λ sink. refl };

    ghost bounded = { λ sink. sink.calls.counted };

    /// A failing call puts nothing.
    fn append(&mut self, bytes: &[u8]) -> Result<(), Denied>
        ensures ok { OnOk result (Gains bytes.now (sink_seen self.old) (sink_seen self.new)) }
        ensures err { OnErr result (contents_of self.new ≡ contents_of self.old) }
        ensures cause { HasDenial (sink_seen self.old).faults (sink_seen self.new).faults result }

        // Exactly the calls with the failing numbers fail.
        ensures passes { OnOk result (CallPassed self.old.calls self.new.calls) }
        ensures fails { result ≡ Err Denied.Failed → CallFailed self.old.calls self.new.calls }
        ensures stood { result ≡ Err Denied.NoMemory → self.new.calls ≡ self.old.calls }
    {
        if self.calls.next_fails() {
            self.calls.fail();
            return Err(Denied::Failed);
        }
        self.node.contents.append(bytes)?;
        self.calls.pass();
        Ok(())
    }

    /// A failing call leaves the range as it is.
    fn patch(&mut self, at: u64, bytes: &[u8]) -> Result<(), Failed>
        requires { at + length bytes.now ≤ length (contents_of self.old) }
        ensures ok { OnOk result (Some (contents_of self.new) ≡ patched (Some (contents_of self.old)) at bytes.now) }
        ensures failed { OnErr result (Spoils (Some (contents_of self.old)) at (length bytes.now) (Some (contents_of self.new))) }
        ensures kept { OnErr result (contents_of self.new ≡ contents_of self.old) }
        ensures size { length (contents_of self.new) ≡ length (contents_of self.old) }

        // Exactly the calls with the failing numbers fail.
        ensures passes { OnOk result (CallPassed self.old.calls self.new.calls) }
        ensures fails { OnErr result (CallFailed self.old.calls self.new.calls) }
    {
        if self.calls.next_fails() {
            self.calls.fail();
            return Err(Failed);
        }
        self.node.contents.patch(at as usize, bytes);
        self.calls.pass();
        Ok(())
    }
}
