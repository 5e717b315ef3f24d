//! Standard output as a text.

ghost use Rattle.std.specs.Prelude.{◌≡◌, ◌+◌, ◌^◌, ◌<◌, ◌≤◌, length, None};

use super::whole_writes::write;
use sf_world::{Denied, Failed, Sink};
use std::io;

/// Standard output as a text. It can't be patched.
#[derive(Drop)]
pub struct StdText<'a> {
    rt: &'a HostRuntime,
    length: u64,
    faults: u64,
    ghost counted: { faults < 2 ^ 64 },
}

impl<'a> StdText<'a> {
    /// Nothing was written yet.
    pub fn new(rt: &'a HostRuntime) -> StdText<'a>
        ensures length { result.length ≡ 0 }
        ensures faults { result.faults ≡ 0 }
    {
        StdText {
            rt,
            length: 0,
            faults: 0,
        }
    }
}

impl Sink for StdText<'_> {
    ghost seen = { λ text. record { content = None; size = text.length; faults = text.faults } };

    ghost whole = { λ text. tt };

    ghost bounded = { λ text. text.counted };

    fn append(&mut self, bytes: &[u8]) -> Result<(), Denied> {
        // A text that would be longer than a u64 counts takes nothing.
        let fits = self.length.checked_add(bytes.len() as u64).is_some();
        let done = if fits {
            write(&mut io::writer(self.rt), bytes)
        } else {
            0
        };
        self.length += done as u64;
        if done == bytes.len() {
            return Ok(());
        }
        self.faults = self.faults.saturating_add(1);
        Err(Denied::Failed)
    }

    fn patch(&mut self, _at: u64, _bytes: &[u8]) -> Result<(), Failed> {
        self.faults = self.faults.saturating_add(1);
        Err(Failed)
    }
}
