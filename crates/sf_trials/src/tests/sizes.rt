//! Recordings and lists of many samples, chunks and boxes: memory suffices where it is there.

use super::*;
use sf_handmade::SOUND;
use sf_list::same;
use std::test::Fail;

// A sample's line begins with its track, and its number counts from 0.
fn samples_listed(text: &[u8]) -> usize {
    text.iter().filter(|byte| **byte == b'\n').count()
}

// 150,000 samples at one time, and 1,200 samples in a chunk each.
#[test]
fn many_samples_and_chunks_are_recorded_and_listed(rt: HostRuntime) -> Result<(), Fail> {
    let alloc = rt.alloc();
    for (count, step, size) in [(150_000usize, 0u64, 1u32), (1_200, 1_010_000, 3)] {
        let mut samples = Vec::new(alloc);
        for number in 0..count {
            let us = (number as u64).saturating_mul(step);
            samples.push((us, size))?;
        }
        let input = input_of(alloc, &samples)?;
        let ended = run_words(alloc, &["record", "a"], &input)?;
        ended.ends(Status::Done)?;
        let Some(file) = ended.shelf.file(0) else {
            return Err(Fail::from(ended.status));
        };
        let listed = run_words(alloc, &["list", "a"], file)?;
        same(listed.status, Status::Done)?;
        same(samples_listed(listed.text.bytes()), count.saturating_add(2))?;
    }
    Ok(())
}

// A hundred boxes that are passed over.
#[test]
fn many_boxes_are_passed_over(rt: HostRuntime) -> Result<(), Fail> {
    let alloc = rt.alloc();
    let mut file = SOUND.to_vec(alloc)?;
    for _ in 0..100 {
        file.extend_from_slice(b"\0\0\0\x0cfreefree")?;
    }
    let ended = run_words(alloc, &["list", "a"], &file)?;
    ended.ends(Status::Done)?;
    same(samples_listed(ended.text.bytes()), 5)?;
    Ok(())
}
