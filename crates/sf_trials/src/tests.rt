//! The program, by `run`, over objects in memory.

use sf_app::{
    CodedFault, InputFault, LimitShown, ListFault, MovieFault, SampleFault, Status, TrackFault,
    UsageFault, list_movie, run,
};
use sf_list::{Bytes, Text, same};
use sf_world::{MemInputs, MemShelf, MemText};
use std::alloc::{AllocError, Global};
use std::test::Fail;

mod answers;
mod extracting;
mod failures;
mod inputs;
mod listing;
mod make;
mod movies;
mod options;
mod refusals;
mod several;
mod sizes;
mod tables;
mod texts;
mod video;
mod words;

/// A coded sample file of 103 bytes: its header, three samples of four bytes at 0, 21333 and 42667
/// microseconds, whose records stand at 24, 50 and 76, and the end at 102.
const INPUT: [u8; 103] = *b"SFCS\0\x01\0\x02\0\0\0\0\0\0\0\0\0\x02\0\0\0\x02\x11\x90\
    \x01\x01\0\0\0\0\0\0\0\0\0\0\0\0\0\0\0\0\0\0\0\x04\x21\x10\x04\x60\
    \x01\x01\0\0\0\0\0\0\x53\x55\0\0\0\0\0\0\x53\x55\0\0\0\x04\x21\x10\x04\x60\
    \x01\x01\0\0\0\0\0\0\xa6\xab\0\0\0\0\0\0\xa6\xab\0\0\0\x04\x21\x10\x04\x60\
    \0";

/// How a run ended, and what it left.
#[derive(Drop)]
struct Ended {
    status: Status,
    shelf: MemShelf,
    text: MemText,
}

impl Ended {
    /// Nothing where the run ended so.
    fn ends(&self, status: Status) -> Result<(), Fail> {
        same(self.status, status)
    }

    /// Nothing where the run ended so, and wrote this text.
    fn gives(&self, status: Status, text: &[u8]) -> Result<(), Fail> {
        same(self.status, status)?;
        same(self.text.bytes(), text)
    }
}

fn words_of(alloc: Global, words: &[&str]) -> Result<Vec<String>, AllocError> {
    let mut all = Vec::new(alloc);
    for word in words {
        all.push(String::from_str(alloc, word)?)?;
    }
    Ok(all)
}

/// Inputs that hold one, of the name `a`, whose reads with the failing numbers fail.
fn inputs_of(alloc: Global, input: &[u8], failing: Vec<u64>) -> Result<MemInputs, AllocError> {
    let mut named = Vec::new(alloc);
    named.push((
        Text::from_str(alloc, "a")?,
        Bytes::from_slice(alloc, input)?,
    ))?;
    Ok(MemInputs::new(alloc, named, failing))
}

/// Runs the words where one input is there, of the name `a`.
fn run_words(alloc: Global, words: &[&str], input: &[u8]) -> Result<Ended, AllocError> {
    let words = words_of(alloc, words)?;
    let mut inputs = inputs_of(alloc, input, Vec::new(alloc))?;
    let mut shelf = MemShelf::new(alloc, Vec::new(alloc));
    let mut text = MemText::new(alloc);
    let status = run(alloc, &words, &mut inputs, &mut shelf, &mut text);
    Ok(Ended {
        status,
        shelf,
        text,
    })
}

/// The sizes of the files on a shelf, of which there is one at most.
fn only_size(shelf: &MemShelf) -> Option<usize> {
    let size = shelf.file(0)?.len();
    match shelf.file(1) {
        None => Some(size),
        Some(_) => None,
    }
}

/// A coded sample file of samples at these times (in microseconds) and with so many bytes.
fn input_of(alloc: Global, samples: &[(u64, u32)]) -> Result<Vec<u8>, AllocError> {
    let mut input = Vec::new(alloc);
    input.extend_from_slice(&INPUT[..24])?;
    for (us, size) in samples {
        input.extend_from_slice(&[1, 1])?;
        input.extend_from_slice(&us.to_be_bytes())?;
        input.extend_from_slice(&us.to_be_bytes())?;
        input.extend_from_slice(&size.to_be_bytes())?;
        let payload = vec![in alloc; 7u8; *size as usize]?;
        input.extend_from_slice(&payload)?;
    }
    input.push(0)?;
    Ok(input)
}
