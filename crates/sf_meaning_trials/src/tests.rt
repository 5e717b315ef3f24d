//! Movies by hand: the file of three samples, with one change after the other.

use sf_box::{BoxFault, BoxHead, FourCc, put_box};
use sf_handmade::SOUND;
use sf_list::Bytes;
use sf_meaning::*;
use std::alloc::{AllocError, Global};

mod changes;
mod movies;
mod optional;
mod orders;
mod readers;
mod refusals;
mod tables;

/// Boxes one after the other, each of a type and of parts of its body.
fn boxes(alloc: Global, all: &[(FourCc, &[u8], &[u8])]) -> Result<Bytes, AllocError> {
    let mut out = Bytes::new(alloc);
    for (kind, front, rest) in all {
        let mut body = Bytes::new(alloc);
        body.append(front)?;
        body.append(rest)?;
        if body.len() > 100_000 {
            return Err(AllocError);
        }
        put_box(&mut out, *kind, body.as_slice())?;
    }
    Ok(out)
}
