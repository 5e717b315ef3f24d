//! Configurations of sound, the entries that are made of setups, and the entries of boxes, as tables.

use super::*;
use sf_list::Bytes;
use std::alloc::{AllocError, Global};

mod asc;
mod esds;
mod stsd;
mod track_setup;

// The value of a hexadecimal digit. Other characters have none.
fn digit(character: u8) -> Option<u8> {
    match character {
        b'0'..=b'9' => Some(character - b'0'),
        b'A'..=b'F' => Some(character - b'A' + 10),
        _ => None,
    }
}

// Puts the bytes of a text in hexadecimal digits at the end. Blanks don't count.
fn put_hex(out: &mut Bytes, text: &str) -> Result<(), AllocError> {
    let mut high = None;
    for character in text.as_bytes() {
        let Some(low) = digit(*character) else {
            continue;
        };
        match high {
            None => high = Some(low),
            Some(first) => {
                out.append(&[first << 4 | low])?;
                high = None;
            }
        }
    }
    Ok(())
}

// The bytes of texts in hexadecimal digits, one after the other.
fn hex(alloc: Global, texts: &[&str]) -> Result<Bytes, AllocError> {
    let mut bytes = Bytes::new(alloc);
    for text in texts {
        put_hex(&mut bytes, text)?;
    }
    Ok(bytes)
}
