//! The samples that are generated, and the inputs that hold them.

ghost use Rattle.std.specs.Prelude.{◌≡◌, ◌+◌, ◌*◌, ◌%◌, ◌==◌, ◌≤◌, ◌++◌, length, IfOk, OnOk};
ghost use Rattle.sf_make.specs.Writing.{record_bytes};
ghost use Rattle.sf_make.specs.Generator.{generated_kind, generated_config, spacing_us, generated_sync, generated_payload, generated_sample, generated_input, generated_inputs};

use crate::writing::{put_header, put_record};
use sf_list::Bytes;
use sf_tick::Kind;
use std::alloc::{AllocError, Global};

/// How many bytes a header and the end take at most.
const HEADER_MAX: usize = 22 + 17 + 1;

/// How many bytes a record takes at most.
const RECORD_MAX: usize = 22 + 11;

// The kind of a track.
fn kind_of_track(track: u32) -> Kind
    ensures { result ≡ generated_kind track }
{
    if track % 2 == 0 { Kind::Avc } else { Kind::Aac }
}

// The configuration of a kind.
#[tactic(auto, unfolding(crate::specs::Generator::generated_config))]
fn config(kind: Kind) -> &'static [u8]
    ensures bytes { result.now ≡ generated_config kind }
    ensures few { length result.now ≤ 17 }
{
    match kind {
        Kind::Avc => b"\x00\x00\x00\x01\x67\x42\x00\x1E\xF0\x00\x00\x00\x01\x68\xCE\x38\x80",
        Kind::Aac => b"\x11\x90",
    }
}

// How far apart the samples of a kind are, in microseconds.
fn spacing_us(kind: Kind) -> u64
    ensures is { result ≡ spacing_us kind }
    ensures few { result ≤ 33333 }
{
    match kind {
        Kind::Avc => 33_333,
        Kind::Aac => 21_333,
    }
}

// Whether a sample is a sync sample.
fn is_sync(kind: Kind, i: u32) -> bool
    ensures { result ≡ generated_sync kind i }
{
    match kind {
        Kind::Avc => i % 30 == 0,
        Kind::Aac => true,
    }
}

// The payload of a sample.
#[tactic(auto, unfolding(crate::specs::Generator::generated_payload))]
fn payload(kind: Kind, i: u32) -> &'static [u8]
    ensures bytes { result.now ≡ generated_payload kind i }
    ensures few { length result.now ≤ 11 }
{
    match kind {
        Kind::Avc if i % 30 == 0 => {
            &b"\x00\x00\x00\x01\x65\x80\x80\x80\x80\x80\x80"[..5 + (i % 7) as usize]
        }
        Kind::Avc => &b"\x00\x00\x00\x01\x41\x80\x80\x80\x80\x80\x80"[..5 + (i % 7) as usize],
        Kind::Aac => &b"\x21\x80\x80\x80\x80"[..1 + (i % 5) as usize],
    }
}

// Puts the record of a sample at the end. Without memory a part of it may be put there.
fn put_sample(out: &mut Bytes, kind: Kind, i: u32) -> Result<(), AllocError>
    ensures { OnOk result (out.new ≡ out.old ++ record_bytes (generated_sample kind i)) }
{
    let time_us = spacing_us(kind) * u64::from(i);
    put_record(out, time_us, is_sync(kind, i), payload(kind, i))
}

// The input with so many samples of a kind. It takes memory once.
fn make_input(alloc: Global, kind: Kind, count: u32) -> Result<Bytes, AllocError>
    requires { count ≤ 200000 }
    ensures { IfOk result (λ input. input ≡ generated_input kind count) }
{
    let most = HEADER_MAX + RECORD_MAX * count as usize;
    let mut out = Bytes::from_vec(Vec::with_capacity(alloc, most)?);
    put_header(&mut out, kind, config(kind))?;
    for i in 0..count {
        put_sample(&mut out, kind, i)?;
    }
    out.append(&[0])?;
    Ok(out)
}

/// The inputs of so many tracks, each with so many samples: track 0 first, video where the number of the
/// track is even, and sound where it is odd.
#[tactic(auto, using(crate::proofs::Inputs::inputs_more))]
pub fn make_inputs(alloc: Global, count: u32, tracks: u32) -> Result<Vec<Bytes>, AllocError>
    requires samples { count ≤ 200000 }
    requires least { 1 ≤ tracks }
    requires most { tracks ≤ 8 }
    ensures { IfOk result (λ inputs. inputs.items ≡ generated_inputs count tracks) }
{
    let mut inputs = Vec::with_capacity(alloc, tracks as usize)?;
    for track in 0..tracks {
        inputs.push(make_input(alloc, kind_of_track(track), count)?)?;
    }
    Ok(inputs)
}
