//! A long input that meets the limit of samples of its file.

ghost use Rattle.std.specs.Prelude.{◌≡◌, ◌+◌, ◌*◌, ◌-◌, ◌<◌, ◌≤◌, min, length, None, refl, IfOk};
ghost use Rattle.std.proofs.Common.{lit<};
ghost use Rattle.sf_series.specs.Series.{AreLimits};

use crate::{SerialOutcome, record_serial};
use sf_gather::Options;
use sf_list::Text;
use sf_series::{LimitShown, Limits};
use sf_world::{Failed, Fits, Measure, Source, SureShelf};
use std::alloc::{AllocError, Global};
use std::test::Fail;

/// The header of an AAC input of a million ticks a second.
const HEADER: [u8; 24] = *b"SFCS\0\x01\0\x02\0\x0F\x42\x40\0\0\0\0\0\x02\0\0\0\x02\x11\x90";

// An input of so many sync samples of one byte each, 32 microseconds apart. Its bytes are made as they are
// read: the header, 23 bytes a sample, and a 0.
#[derive(Drop)]
struct LongInput {
    samples: u32,
}

impl LongInput {
    // The byte at a place.
    fn byte_at(&self, place: u64) -> u8 {
        if place < 24 {
            return HEADER[place as usize];
        }
        let sample = (place - 24) / 23;
        if sample >= u64::from(self.samples) {
            return 0;
        }
        let time_us = sample.saturating_mul(32).to_be_bytes();
        let field = ((place - 24) % 23) as usize;
        match field {
            0 | 1 | 21 => 1,
            2..=9 => time_us[field - 2],
            10..=17 => time_us[field - 10],
            18..=20 => 0,
            _ => 7,
        }
    }
}

impl Fits for LongInput {
    ghost fits = { λ source name. (25 + 23 * source.samples ≡ name.length) × (None ≡ name.content) };
}

impl Measure for LongInput {
    ghost measure = { λ source. 0 };
}

impl Source for LongInput {
    // It doesn't tell its bytes.
    ghost seen = { λ source. record { content = None; size = 25 + 23 * source.samples; faults = 0 } };

    ghost whole = { λ source. tt };

    ghost bounded = { λ source. lit< tt };

    ghost counted = { λ source. refl };

    ghost fitting = { λ source name fits. fits };

    ghost fits_if = { λ source name fits. fits };

    fn length(&self) -> u64 {
        25 + 23 * u64::from(self.samples)
    }

    fn read_at(&mut self, at: u64, into: &mut [u8]) -> Result<usize, Failed> {
        let left = self.length().saturating_sub(at);
        let count = if left < into.len() as u64 {
            left as usize
        } else {
            into.len()
        };
        let mut place = at;
        for byte in &mut into[..count] {
            *byte = self.byte_at(place);
            place = place.saturating_add(1);
        }
        Ok(count)
    }
}

/// One file, of whatever length.
fn limits(alloc: Global) -> Result<Limits, AllocError>
    ensures { IfOk result AreLimits }
{
    Ok(Limits {
        max_bytes: 0,
        max_duration_us: 0,
        max_files: 1,
        stem: Text::from_str(alloc, "out")?,
    })
}

#[test]
fn a_file_takes_no_chunk_with_which_it_has_too_many_samples(rt: HostRuntime) -> Result<(), Fail> {
    let alloc = rt.alloc();
    let mut shelf = SureShelf::new(alloc);
    let mut inputs = Vec::new(alloc);
    inputs.push(LongInput {
        samples: 16_800_000,
    })?;
    let options = Options {
        start_us: 0,
        interleave_us: 1_000_000,
    };
    let end = record_serial(alloc, inputs, options, limits(alloc)?, &mut shelf);
    // A chunk is a second long, both ends included: 31,251 samples. 536 chunks have 16,750,536 samples, and
    // one more would be more than 2^24.
    let limit = LimitShown::Count {
        track: 0,
        sample: 16_750_536,
        would_be: 16_781_787,
        max: 16_777_216,
    };
    assert_eq!(rt; end.outcome, SerialOutcome::Limit(limit));
    // A file without samples has 604 bytes. There is one run of deltas (8) and one of chunks (12), and 536
    // places of chunks (4 each).
    assert!(rt; end.report.files.as_slice() == [16_753_304].as_slice());
    assert!(rt; end.report.tracks.as_slice() == [16_750_536].as_slice());
    assert_eq!(rt; shelf.file(0).map(|file| file.len()), Some(16_753_304));
    assert!(rt; shelf.file(1).is_none());
    Ok(())
}
