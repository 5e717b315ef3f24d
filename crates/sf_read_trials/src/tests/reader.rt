//! Plans are read out of a movie onto a shelf in memory.

use sf_handmade::{SOUND, VIDEO};
use sf_list::{Bytes, Items};
use sf_reader::{ExtractEnd, ExtractOutcome, Plan, extract_direct, read_plan};
use sf_world::{MemShelf, MemSource};
use std::alloc::Global;
use std::test::Fail;

mod direct;

/// The plans of words.
fn plans_of(alloc: Global, words: &[&str]) -> Result<Vec<Plan>, Fail> {
    let mut plans = Vec::new(alloc);
    for word in words {
        let plan = read_plan(alloc, word).ok().ok_or("no plan")?;
        plans.push(plan).ok().ok_or("no memory")?;
    }
    Ok(plans)
}

/// Reads the plans of words out of a file, some of whose reads fail.
fn extracted(
    alloc: Global,
    words: &[&str],
    file: &[u8],
    failing: Vec<u64>,
    shelf: &mut MemShelf,
) -> Result<ExtractEnd<MemSource>, Fail> {
    let plans = plans_of(alloc, words)?;
    if plans.is_empty() || plans.len() > 16 {
        return Err("too few plans, or too many".into());
    }
    let source = MemSource::new(alloc, Bytes::from_slice(alloc, file)?, failing);
    Ok(extract_direct(alloc, source, plans, "out", shelf))
}

/// Whether a file of a shelf has these bytes.
fn is_dump(shelf: &MemShelf, number: u32, bytes: &[u8]) -> bool {
    match shelf.file(number) {
        Some(dump) => dump == bytes,
        None => false,
    }
}

/// The length of a file of a shelf.
fn len_of(shelf: &MemShelf, number: u32) -> Option<usize> {
    match shelf.file(number) {
        Some(dump) => Some(dump.len()),
        None => None,
    }
}
