ghost use Rattle.std.specs.Prelude.{◌≡◌, ◌+◌, ◌^◌, ◌<◌, ◌≤◌, length, OnOk, OnErr};
ghost use Rattle.sf_world.specs.Contents.{HasLength, patched, Spoils};
ghost use Rattle.sf_world.specs.Counts.{HasCause, HasDenial};
ghost use Rattle.sf_world.specs.Views.{Gains, GainsPart, SinkView};

use super::{Denied, Failed};

/// Bytes that are written at the end, and patched.
pub trait Sink: Send + Drop {
    ghost seen: { Self → SinkView };

    /// Puts bytes at the end. A failed call puts a first part of them there, and without memory
    /// nothing is put.
    fn append(&mut self, bytes: &[u8]) -> Result<(), Denied>
        ensures ok { OnOk result (Gains bytes.now (seen self.old) (seen self.new)) }
        ensures failed { result ≡ Err Denied.Failed → GainsPart bytes.now (seen self.old) (seen self.new) }
        ensures no_memory { result ≡ Err Denied.NoMemory → seen self.new ≡ seen self.old }
        ensures cause { HasDenial (seen self.old).faults (seen self.new).faults result };

    /// Writes over a range that is there. After a failed call the range holds any bytes.
    fn patch(&mut self, at: u64, bytes: &[u8]) -> Result<(), Failed>
        requires { at + length bytes.now ≤ (seen self.old).size }
        ensures ok { OnOk result ((seen self.new).content ≡ patched (seen self.old).content at bytes.now) }
        ensures failed { OnErr result (Spoils (seen self.old).content at (length bytes.now) (seen self.new).content) }
        ensures size { (seen self.new).size ≡ (seen self.old).size }
        ensures cause { HasCause (seen self.old).faults (seen self.new).faults result };

    /// Told contents have the length of the sink.
    ghost whole: { (sink : Self) → HasLength (seen sink).content (seen sink).size };

    ghost bounded: { (sink : Self) → (seen sink).faults < 2 ^ 64 };
}
