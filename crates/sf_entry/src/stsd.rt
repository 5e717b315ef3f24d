//! The sample description box as it is read.

ghost use Rattle.std.specs.Prelude.{◌≡◌, ◌+◌, ◌^◌, ◌≤◌, ◌<◌, length, IfOk, Ok, option_map};
ghost use Rattle.std.specs.List.{All};
ghost use Rattle.sf_box.specs.Boxes.{leading};
ghost use Rattle.sf_box.specs.Parts.{child_piece};
ghost use Rattle.sf_box.specs.Reading.{Within, piece_at, pieces_at};
ghost use Rattle.sf_entry.specs.Stsd.{body_of, child_in, video_in, sound_in, entry_in, entry_at, entries_in, entries_of, Answers};
ghost use Rattle.sf_entry.specs.inner.Boxes.{boxed};

use crate::esds::{config_in, past};
use crate::types::{Entries, Entry, EntryAt, EntryFault};
use sf_avc::{AvcCFault, read_config};
use sf_box::{BoxHead, FourCc, body, first_head, leading, read_u16, read_u32};
use sf_list::{Bytes, Items};
use std::alloc::{AllocError, Global};

// The body of the first box of a type, up to the first place that is no whole box.
fn first_body(alloc: Global, bytes: &[u8], kind: FourCc) -> Result<Option<&[u8]>, AllocError>
    ensures { IfOk result (λ found. option_map (λ inner. inner.now) found ≡ body_of (child_piece (leading 0 bytes.now) kind.0)) }
{
    let heads = leading(alloc, bytes, 0)?;
    match first_head(heads.as_slice(), kind) {
        Some(head) => Ok(Some(body(bytes, 0, head))),
        None => Ok(None),
    }
}

// The same inside the body of an entry, after so many bytes of fields.
#[tactic(auto, using(crate::proofs::EntryLemmas::child_none, crate::proofs::EntryLemmas::child_found))]
fn child_in(
    alloc: Global,
    fields: usize,
    kind: FourCc,
    entry: &[u8],
) -> Result<Option<&[u8]>, AllocError>
    ensures { IfOk result (λ found. option_map (λ child. child.now) found ≡ child_in fields kind.0 entry.now) }
{
    match past(entry, fields) {
        Some(boxes) => first_body(alloc, boxes, kind),
        None => Ok(None),
    }
}

// An entry of video.
#[tactic(auto, unfolding(crate::specs::Stsd::video_in))]
fn read_video(alloc: Global, head: BoxHead, body: &[u8]) -> Result<Entry, EntryFault>
    ensures entry { Answers result (video_in (boxed head body.now)) }
    ensures long { IfOk result (λ _. 8 ≤ length body.now) }
{
    let at = head.at;
    if body.len() < 78 {
        return Err(EntryFault::Short { at });
    }
    let Some(avcc) = child_in(alloc, 78, FourCc(*b"avcC"), body)? else {
        return Err(EntryFault::NoAvcC { at });
    };
    match read_config(alloc, avcc) {
        Ok(config) => Ok(Entry::Avc(config)),
        Err(AvcCFault::NoMemory) => Err(EntryFault::NoMemory),
        Err(AvcCFault::Version(_) | AvcCFault::Short) => Err(EntryFault::BadAvcC { at }),
    }
}

// An entry of sound.
#[tactic(auto, unfolding(crate::specs::Stsd::sound_in))]
fn read_sound(alloc: Global, head: BoxHead, body: &[u8]) -> Result<Entry, AllocError>
    ensures { IfOk result (λ entry. entry ≡ sound_in (boxed head body.now)) }
{
    let Some(esds) = child_in(alloc, 28, FourCc(*b"esds"), body)? else {
        return Ok(Entry::Other(head.kind));
    };
    match config_in(esds) {
        Some(config) => Ok(Entry::Aac(Bytes::from_slice(alloc, config)?)),
        None => Ok(Entry::Other(head.kind)),
    }
}

// What an entry says, by its type.
#[tactic(auto, unfolding(crate::specs::Stsd::entry_in))]
fn read_kind(alloc: Global, head: BoxHead, body: &[u8]) -> Result<Entry, EntryFault>
    ensures entry { Answers result (entry_in (boxed head body.now)) }
    ensures long { IfOk result (λ _. 8 ≤ length body.now) }
{
    if head.kind == FourCc(*b"avc1") {
        return read_video(alloc, head, body);
    }
    if body.len() < 8 {
        return Err(EntryFault::Short { at: head.at });
    }
    if head.kind == FourCc(*b"mp4a") {
        return Ok(read_sound(alloc, head, body)?);
    }
    Ok(Entry::Other(head.kind))
}

// The entry of a head that lies within the bytes, whose places count from the base.
#[tactic(auto, unfolding(crate::specs::Stsd::entry_at))]
fn read_entry(alloc: Global, bytes: &[u8], base: u64, head: BoxHead) -> Result<EntryAt, EntryFault>
    requires { Within base bytes.now head }
    ensures { Answers result (entry_at (piece_at base bytes.now head)) }
{
    let body = body(bytes, base, head);
    let entry = read_kind(alloc, head, body)?;
    Ok(EntryAt {
        at: head.at,
        len: head.size,
        reference: read_u16(body, 6),
        entry,
    })
}

// The entries of boxes, or the first fault.
fn read_entries(
    alloc: Global,
    heads: &[BoxHead],
    bytes: &[u8],
    base: u64,
) -> Result<Entries, EntryFault>
    requires { All (Within base bytes.now) heads.now }
    ensures { Answers result (entries_in (pieces_at base bytes.now heads.now)) }
{
    let mut entries = Items::new(alloc);
    for head in heads {
        let entry = read_entry(alloc, bytes, base, *head)?;
        entries.push(entry)?;
    }
    Ok(entries)
}

/// The entries in the body of a sample description box, whose places count from the base, or the first
/// fault. What follows the counted entries isn't read.
#[tactic(auto, unfolding(crate::specs::Stsd::entries_of))]
pub fn read_stsd(alloc: Global, body: &[u8], base: u64) -> Result<Entries, EntryFault>
    requires { base + length body.now < 2 ^ 64 }
    ensures entries { Answers result (entries_of base body.now) }
    ensures few { IfOk result (λ entries. length entries < 2 ^ 32) }
{
    let short = EntryFault::Short { at: base };
    if body.len() < 8 {
        return Err(short);
    }
    let count = read_u32(body, 4) as usize;
    let (_, boxes) = body.split_at(8);
    let heads = leading(alloc, boxes, base + 8)?;
    let heads = heads.as_slice();
    if heads.len() < count {
        return Err(short);
    }
    let (counted, _) = heads.split_at(count);
    read_entries(alloc, counted, boxes, base + 8)
}
