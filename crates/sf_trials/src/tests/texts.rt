//! The calls that each answer makes on the text, and a text that is denied memory.

ghost use Rattle.std.specs.Prelude.{◌≡◌, ◌^◌, ◌<◌, length, None};

use super::*;
use sf_handmade::SOUND;
use sf_list::{holds, same};
use sf_world::{Denied, Failed, Sink};
use std::test::Fail;

/// A text that counts its calls, and is denied memory at the append of a number, from 0. It can't be
/// patched, and tells nothing.
#[derive(Drop)]
struct CountedText {
    bytes: Vec<u8>,
    appends: u64,
    patches: u64,
    denied: u64,
    ghost counted: { patches < 2 ^ 64 },
}

impl CountedText {
    fn new(alloc: Global, denied: u64) -> CountedText {
        CountedText {
            bytes: Vec::new(alloc),
            appends: 0,
            patches: 0,
            denied,
        }
    }
}

impl Sink for CountedText {
    ghost seen = { λ text. record { content = None; size = length text.bytes.items; faults = text.patches } };

    ghost whole = { λ text. tt };

    ghost bounded = { λ text. text.counted };

    fn append(&mut self, bytes: &[u8]) -> Result<(), Denied> {
        let number = self.appends;
        self.appends = number.saturating_add(1);
        if number == self.denied {
            return Err(Denied::NoMemory);
        }
        self.bytes.extend_from_slice(bytes)?;
        Ok(())
    }

    fn patch(&mut self, _at: u64, _bytes: &[u8]) -> Result<(), Failed> {
        self.patches = self.patches.saturating_add(1);
        Err(Failed)
    }
}

/// The number that no call has.
const NEVER: u64 = u64::MAX;

#[test]
fn each_answer_is_put_once_and_never_patched(rt: HostRuntime) -> Result<(), Fail> {
    let alloc = rt.alloc();
    let cut = INPUT[..101].to_vec(alloc)?;
    // The words, the input, and how many appends the answer takes: a list takes one for its first line.
    let rows: [(&[&str], &[u8], u64); 8] = [
        (&["record", "a"], &INPUT, 1),
        (&["record", "a"], cut.as_slice(), 1),
        (&["record", "b"], &INPUT, 1),
        (&["list", "a"], &SOUND, 2),
        (&["list", "a"], &INPUT, 1),
        (&["extract", "a", "s0,e", "r"], &SOUND, 1),
        (&["make"], &INPUT, 1),
        (&["make", "1", "1"], &INPUT, 1),
    ];
    for (words, input, appends) in rows {
        let words = words_of(alloc, words)?;
        let mut inputs = inputs_of(alloc, input, Vec::new(alloc))?;
        let mut shelf = MemShelf::new(alloc, Vec::new(alloc));
        let mut text = CountedText::new(alloc, NEVER);
        let status = run(alloc, &words, &mut inputs, &mut shelf, &mut text);
        holds(status != Status::NoMemory)?;
        same(
            (status, (text.appends, text.patches)),
            (status, (appends, 0)),
        )?;
    }
    Ok(())
}

// Without memory before its first line a list gets the line of that answer, and nothing more within it.
#[test]
fn a_text_without_memory_ends_each_answer(rt: HostRuntime) -> Result<(), Fail> {
    let alloc = rt.alloc();
    let rows: [(&[&str], &[u8], u64, &[u8]); 5] = [
        (&["record", "a"], &INPUT, 0, b""),
        (&["extract", "a", "r"], &SOUND, 0, b""),
        (&["make", "1", "1"], &INPUT, 0, b""),
        (&["list", "a"], &SOUND, 0, b"no memory\n"),
        (&["list", "a"], &SOUND, 1, b"start 0\n"),
    ];
    for (words, input, denied, said) in rows {
        let words = words_of(alloc, words)?;
        let mut inputs = inputs_of(alloc, input, Vec::new(alloc))?;
        let mut shelf = MemShelf::new(alloc, Vec::new(alloc));
        let mut text = CountedText::new(alloc, denied);
        let status = run(alloc, &words, &mut inputs, &mut shelf, &mut text);
        same((denied, status), (denied, Status::NoMemory))?;
        same((denied, text.bytes.as_slice()), (denied, said))?;
    }
    Ok(())
}
