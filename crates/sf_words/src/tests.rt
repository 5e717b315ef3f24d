//! Words, and what they ask for.

use super::*;
use sf_list::{Items, Text};
use std::alloc::{AllocError, Global};

mod refused;
mod taken;

/// Strings of these words.
fn words_of(alloc: Global, words: &[&str]) -> Result<Vec<String>, AllocError> {
    let mut strings = Vec::new(alloc);
    for word in words {
        strings.push(String::from_str(alloc, word)?)?;
    }
    Ok(strings)
}

/// What these words ask for, or what is wrong with them.
fn read(alloc: Global, words: &[&str]) -> Result<Command, WordsFault> {
    let words = words_of(alloc, words)?;
    read_words(alloc, &words)
}
