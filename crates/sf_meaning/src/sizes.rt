//! The sample size box (ISO/IEC 14496-12, 8.7.3.2) and the compact one (8.7.3.3), as they are read.

ghost use Rattle.std.specs.Prelude.{◌≡◌, true, ◌+◌, ◌*◌, ◌/◌, ◌%◌, ◌≤◌, [], length, drop, Ok, Err, IfOk, IfErr, if◌then◌else◌};
ghost use Rattle.sf_meaning.specs.Answers.{Gives};
ghost use Rattle.sf_meaning.specs.Steps.{boxed};
ghost use Rattle.sf_meaning.specs.SampleSizes.{is_compact, field_bits, fields, fields_length, known_field, sizes_of, sizes_whole, sizes_told};
ghost use Rattle.sf_meaning.specs.Tables.{sample_count, sizes_in};
ghost use Rattle.sf_meaning.specs.ReadTables.{sizes_view};

use crate::faults::TableFault;
use crate::numbers::{half_words, words};
use crate::size_list::SizeList;
use sf_box::{BoxHead, FourCc, read_u32};
use sf_list::Bytes;
use std::alloc::{AllocError, Global};

/// The sizes of the samples of a track, in bytes.
#[derive(Drop)]
pub enum Sizes {
    /// So many samples of one size.
    Same { size: u32, count: u32 },
    /// The size of each.
    Each(SizeList),
}

// Whether a box is stz2.
fn is_compact(head: BoxHead) -> bool
    ensures { result ≡ is_compact (boxed head []) }
{
    head.kind == FourCc(*b"stz2")
}

// Whether the fields have a number of bits that they may have.
fn known_bits(compact: bool, bits: u8) -> bool
    ensures { result ≡ (if compact then known_field bits else true) }
{
    !compact || bits == 4 || bits == 8 || bits == 16
}

// How many bytes the fields take.
fn fields_length(compact: bool, body: &[u8]) -> u64
    requires { 12 ≤ length body.now }
    ensures exact { result ≡ fields_length compact body.now }
{
    let count = u64::from(read_u32(body, 8));
    if compact {
        return (count * u64::from(body[7]) + 7) / 8;
    }
    if read_u32(body, 4) == 0 { 4 * count } else { 0 }
}

// The sizes are whole, and for no more samples than a track may have.
#[tactic(auto, unfolding(crate::specs::SampleSizes::sizes_whole))]
fn whole(head: BoxHead, body: &[u8]) -> Result<u32, TableFault>
    ensures held { IfOk result (λ _. sizes_whole (boxed head body.now) ≡ Ok tt) }
    ensures count { IfOk result (λ n. n ≡ sample_count body.now) }
    ensures few { IfOk result (λ n. n ≤ 16777216) }
    ensures bits { IfOk result (λ _. (if is_compact (boxed head []) then known_field (field_bits body.now) else true) ≡ true) }
    ensures long { IfOk result (λ n. 12 + fields_length (is_compact (boxed head [])) body.now ≤ length body.now) }
    ensures wrong { IfErr result (λ e. sizes_whole (boxed head body.now) ≡ Err e) }
{
    let short = TableFault::Short {
        kind: head.kind,
        at: head.at,
    };
    if body.len() < 12 {
        return Err(short);
    }
    let count = read_u32(body, 8);
    if count > 16_777_216 {
        return Err(TableFault::TooMany { at: head.at, count });
    }
    let compact = is_compact(head);
    if !known_bits(compact, body[7]) {
        return Err(TableFault::FieldSize {
            at: head.at,
            bits: body[7],
        });
    }
    if (body.len() as u64) < 12 + fields_length(compact, body) {
        return Err(short);
    }
    Ok(count)
}

// So many sizes in fields of so many bits.
fn fields(alloc: Global, bits: u8, count: u32, body: &[u8]) -> Result<SizeList, AllocError>
    requires bits { known_field bits ≡ true }
    requires long { 12 + (count * bits + 7) / 8 ≤ length body.now }
    ensures { IfOk result (λ sizes. sizes ≡ fields bits count (drop 12 body.now)) }
{
    let (_, bytes) = body.split_at(12);
    match bits {
        4 => {
            let (front, _) = bytes.split_at((count as usize + 1) / 2);
            Ok(SizeList::of_4(Bytes::from_slice(alloc, front)?, count))
        }
        8 => {
            let (front, _) = bytes.split_at(count as usize);
            Ok(SizeList::of_8(Bytes::from_slice(alloc, front)?))
        }
        _ => Ok(SizeList::of_16(half_words(alloc, body, 12, count)?)),
    }
}

/// The sizes that a sample size box says, `stsz` or `stz2`, or the first thing that is wrong with it.
#[tactic(auto, using(crate::proofs::SizeLemmas::length_fields, crate::proofs::SizeLemmas::length_words), unfolding(crate::specs::SampleSizes::sizes_told))]
pub fn read_sizes(alloc: Global, head: BoxHead, body: &[u8]) -> Result<Sizes, TableFault>
    ensures sizes { Gives TableFault.NoMemory sizes_view result (sizes_told (boxed head body.now)) }
    ensures few { IfOk result (λ sizes. length (sizes_view sizes) ≤ 16777216) }
{
    let count = whole(head, body)?;
    if is_compact(head) {
        return Ok(Sizes::Each(fields(alloc, body[7], count, body)?));
    }
    let size = read_u32(body, 4);
    if size != 0 {
        return Ok(Sizes::Same { size, count });
    }
    Ok(Sizes::Each(SizeList::of_32(words(alloc, body, 12, count)?)))
}
