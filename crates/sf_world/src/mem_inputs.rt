ghost use Rattle.std.specs.Prelude.{◌≡◌, ℕ, ◌+◌, ◌^◌, ◌<◌, ◌≤◌, List, [], IsSome, IfOk, OnOk, OnErr};
ghost use Rattle.sf_world.specs.Counts.{HasDenial};
ghost use Rattle.sf_world.specs.Named.{named_bytes};
ghost use Rattle.sf_world.specs.Views.{Gave, IsGiven, NotAsked, NotGiven, TakesBack, told_source};

use super::{Denied, Inputs, Measure, MemSource, Source};
use sf_list::{Bytes, Text};
use std::alloc::{AllocError, Global};

/// Inputs in memory. Each of their sources fails at the same reads.
#[derive(Drop)]
pub struct MemInputs {
    alloc: Global,
    named: Vec<(Text, Bytes)>,
    failing: Vec<u64>,
    misses: u64,
    faults: u64,
    asked: Vec<(Text, bool)>,
    returned: Vec<u64>,
    ghost missed: { misses < 2 ^ 64 },
    ghost counted: { faults < 2 ^ 64 },
}

impl MemInputs {
    ghost use Rattle.sf_world.specs.inner.Memory.{failing_reads};

    /// The first pair of a name counts. Each source's reads with the failing numbers fail.
    pub fn new(alloc: Global, named: Vec<(Text, Bytes)>, failing: Vec<u64>) -> MemInputs
        ensures seen { ⟦<MemInputs as Inputs>⟧.seen result
            ≡ record { holds = named_bytes named.items; asked = []; returned = []; faults = 0; misses = 0; spare = 0 } }
        ensures failing { failing_reads result ≡ failing.items }
    {
        MemInputs {
            alloc,
            named,
            failing,
            misses: 0,
            faults: 0,
            asked: Vec::new(alloc),
            returned: Vec::new(alloc),
        }
    }
}

// A copy of the bytes of the first pair of the name.
fn find(alloc: Global, named: &[(Text, Bytes)], name: &str) -> Result<Option<Bytes>, AllocError>
    ensures { IfOk result (λ found. found ≡ named_bytes named.now name.now) }
{
    for pair in named {
        if pair.0.as_str() == name {
            return Ok(Some(Bytes::from_slice(alloc, pair.1.as_slice())?));
        }
    }
    Ok(None)
}

impl Inputs for MemInputs {
    ghost use Rattle.sf_world.specs.inner.Memory.{failing_reads, inputs_seen};

    type Src = MemSource;

    ghost seen = { λ inputs. inputs_seen inputs };

    ghost bounded = { λ inputs. (inputs.missed, inputs.counted) };

    fn fetch(&mut self, name: &str) -> Result<MemSource, Denied>
        ensures source { IfOk result (λ source. IsGiven (named_bytes self.old.named.items name.now)
            (told_source source.contents source.calls.faults)) }
        ensures ok { OnOk result (Gave name.now (inputs_seen self.old) (inputs_seen self.new)) }
        ensures failed { result ≡ Err Denied.Failed → NotGiven name.now (inputs_seen self.old) (inputs_seen self.new) }
        ensures no_memory { result ≡ Err Denied.NoMemory → NotAsked (inputs_seen self.old) (inputs_seen self.new) }
        ensures spare_ok { OnOk result ((inputs_seen self.old).spare + 1 ≤ (inputs_seen self.new).spare) }
        ensures spare_err { OnErr result ((inputs_seen self.new).spare ≡ (inputs_seen self.old).spare) }
        ensures named { self.new.named.items ≡ self.old.named.items }
        ensures faults { self.new.faults ≡ self.old.faults }
        ensures cause { HasDenial self.old.misses self.new.misses result }

        // It fails exactly where the name isn't there.
        ensures there { OnOk result (IsSome (named_bytes self.old.named.items name.now)) }
        ensures missing { result ≡ Err Denied.Failed → named_bytes self.old.named.items name.now ≡ None }
        ensures failing { IfOk result (λ source. source.calls.failing.items ≡ failing_reads self.old) }
        ensures first { IfOk result (λ source. source.calls.next ≡ 0) }
        ensures kept { failing_reads self.new ≡ failing_reads self.old }
    {
        let copy = Text::from_str(self.alloc, name)?;
        let failing = self.failing.as_slice().to_vec(self.alloc)?;
        self.asked.reserve(1)?;
        match find(self.alloc, &self.named, name)? {
            None => {
                self.asked.push_reserved((copy, false));
                self.misses = self.misses.saturating_add(1);
                Err(Denied::Failed)
            }
            Some(contents) => {
                let room = self.returned.capacity() - self.returned.len();
                self.returned.reserve(room + 1)?;
                self.asked.push_reserved((copy, true));
                Ok(MemSource::new(self.alloc, contents, failing))
            }
        }
    }

    fn give_back(&mut self, source: MemSource)
        requires { 1 ≤ (inputs_seen self.old).spare }
        ensures back { TakesBack source.calls.faults (inputs_seen self.old) (inputs_seen self.new) }

        // The same later reads fail.
        ensures failing { failing_reads self.new ≡ failing_reads self.old }
    {
        let count = source.count();
        self.faults = self.faults.saturating_add(count);
        self.returned.push_reserved(count);
    }
}
