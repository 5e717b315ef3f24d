ghost use Rattle.std.specs.Prelude.{◌≡◌, ℕ, ◌+◌, ◌-◌, ◌^◌, ◌≤◌, ◌<◌, min, Bool, false, List, length, take, drop, IfOk, IfSome};
ghost use Rattle.std.specs.List.{All, Contains};
ghost use Rattle.sf_box.specs.Boxes.{word16, word32, word64, sized, Takes, head_in, head_of, first_then, with_first, piece_of, boxes, leading};
ghost use Rattle.sf_box.specs.Reading.{piece_at, pieces_at, Within, AreHeads, first_head, FindsPiece};
ghost use Rattle.sf_box.specs.inner.Walks.{Walked, told};

use crate::types::{BoxFault, BoxHead, ChildrenFault, FourCc, Heads};
use byteorder::{BigEndian, ByteOrder};
use std::alloc::{AllocError, Global};

/// The number in the two bytes at a place.
#[tactic(auto, unfolding(crate::specs::Boxes::word16))]
pub fn read_u16(bytes: &[u8], at: usize) -> u16
    requires { at + 2 ≤ length bytes.now }
    ensures { result ≡ word16 (drop at bytes.now) }
{
    u16::from_be_bytes([bytes[at], bytes[at + 1]])
}

/// The number in the four bytes at a place.
#[tactic(auto, unfolding(crate::specs::Boxes::word32))]
pub fn read_u32(bytes: &[u8], at: usize) -> u32
    requires { at + 4 ≤ length bytes.now }
    ensures { result ≡ word32 (drop at bytes.now) }
{
    BigEndian::read_u32(&bytes[at..])
}

/// The number in the eight bytes at a place.
#[tactic(auto, unfolding(crate::specs::Boxes::word64))]
pub fn read_u64(bytes: &[u8], at: usize) -> u64
    requires { at + 8 ≤ length bytes.now }
    ensures { result ≡ word64 (drop at bytes.now) }
{
    BigEndian::read_u64(&bytes[at..])
}

// A head whose length and size are known.
fn sized(first: &[u8], at: u64, room: u64, head: u64, size: u64) -> Result<BoxHead, BoxFault>
    requires { 8 ≤ length first.now }
    ensures { result ≡ sized at room head size first.now }
{
    if size < head || size > room {
        return Err(BoxFault::Overrun { at, size });
    }
    Ok(BoxHead {
        kind: FourCc([first[4], first[5], first[6], first[7]]),
        at,
        head,
        size,
    })
}

// The head that begins with the first bytes at a place.
#[tactic(auto, unfolding(crate::specs::Boxes::word32, crate::specs::Boxes::word64))]
fn head_in(first: &[u8], at: u64, end: u64, top: bool) -> Result<BoxHead, BoxFault>
    requires order { at < end }
    requires first { length first.now ≡ min 16 (end - at) }
    ensures { result ≡ head_in top at (end - at) first.now }
{
    let room = end - at;
    if room < 8 {
        return Err(BoxFault::Short { at });
    }
    match read_u32(first, 0) {
        1 => {
            if room < 16 {
                return Err(BoxFault::Short { at });
            }
            sized(first, at, room, 16, read_u64(first, 8))
        }
        0 => {
            if top {
                sized(first, at, room, 8, room)
            } else {
                Err(BoxFault::Overrun { at, size: 0 })
            }
        }
        size => sized(first, at, room, 8, u64::from(size)),
    }
}

/// The head that begins with the first bytes at a place, which is the first step along the boxes up to the
/// end. The size 0 means up to the end, at the top alone.
pub fn read_head(first: &[u8], at: u64, end: u64, top: bool) -> Result<BoxHead, BoxFault>
    requires order { at < end }
    requires first { length first.now ≡ min 16 (end - at) }
    ensures head { result ≡ head_in top at (end - at) first.now }
    ensures step { (bytes : List ℕ) → length bytes ≡ end - at → take 16 bytes ≡ first.now
        → boxes top at bytes ≡ first_then result (λ h. with_first (piece_of h bytes) (boxes top (at + h.size) (drop h.size bytes))) }
{
    head_in(first, at, end, top)
}

/// The head of the box that begins bytes which stand at a place and reach to the end of their holder,
/// or of the file at the top.
pub fn next_head(rest: &[u8], at: u64, top: bool) -> Result<BoxHead, BoxFault>
    requires some { 0 < length rest.now }
    requires place { at + length rest.now < 2 ^ 64 }
    ensures head { result ≡ head_of top at rest.now }
    ensures takes { IfOk result (λ h. Takes rest.now h) }
    ensures place { IfOk result (λ h. h.at ≡ at) }
{
    let (first, _) = rest.split_at(rest.len().min(16));
    read_head(first, at, at + rest.len() as u64, top)
}

// A fault of a box, told of its holder.
fn told(fault: BoxFault) -> ChildrenFault
    ensures { result ≡ told fault }
{
    match fault {
        BoxFault::Short { at } => ChildrenFault::Short { at },
        BoxFault::Overrun { at, size } => ChildrenFault::Overrun { at, size },
    }
}

// What a walk along boxes met: their heads, and the fault of the first place that is no whole box.
#[derive(Drop)]
struct WalkEnd {
    heads: Heads,
    fault: Option<BoxFault>,
}

fn walk(alloc: Global, bytes: &[u8], base: u64) -> Result<WalkEnd, AllocError>
    requires { base + length bytes.now < 2 ^ 64 }
    ensures { IfOk result (λ w. Walked base bytes.now w.heads w.fault) }
{
    let mut heads = Heads::new(alloc);
    let mut rest = bytes;
    let mut at = base;
    while !rest.is_empty() {
        match next_head(rest, at, false) {
            Ok(head) => {
                if heads.push(head).is_err() {
                    return Err(AllocError);
                }
                let (_, behind) = rest.split_at(head.size as usize);
                rest = behind;
                at += head.size;
            }
            Err(fault) => {
                return Ok(WalkEnd {
                    heads,
                    fault: Some(fault),
                });
            }
        }
    }
    Ok(WalkEnd { heads, fault: None })
}

/// The boxes that tile the bytes, whose places count from the base, or the first fault.
pub fn children(alloc: Global, bytes: &[u8], base: u64) -> Result<Heads, ChildrenFault>
    requires { base + length bytes.now < 2 ^ 64 }
    ensures boxes { AreHeads base bytes.now result }
    ensures within { IfOk result (λ heads. All (Within base bytes.now) heads) }
{
    let Ok(WalkEnd { heads, fault }) = walk(alloc, bytes, base) else {
        return Err(ChildrenFault::NoMemory);
    };
    match fault {
        None => Ok(heads),
        Some(fault) => Err(told(fault)),
    }
}

/// The boxes up to the first place that is no whole box. Places count from the base.
pub fn leading(alloc: Global, bytes: &[u8], base: u64) -> Result<Heads, AllocError>
    requires { base + length bytes.now < 2 ^ 64 }
    ensures boxes { IfOk result (λ heads. leading base bytes.now ≡ pieces_at base bytes.now heads) }
    ensures within { IfOk result (λ heads. All (Within base bytes.now) heads) }
{
    let walked = walk(alloc, bytes, base)?;
    Ok(walked.heads)
}

/// Lends the body of a box that lies within the bytes, whose places count from the base.
pub fn body(bytes: &[u8], base: u64, head: BoxHead) -> &[u8]
    requires { Within base bytes.now head }
    ensures { result.now ≡ (piece_at base bytes.now head).body }
{
    let from = (head.at - base) as usize;
    let whole = &bytes[from..][..head.size as usize];
    &whole[head.head as usize..]
}

// The first head of a type, as the list of heads tells it.
fn look_for(heads: &[BoxHead], kind: FourCc) -> Option<BoxHead>
    ensures head { result ≡ first_head heads.now kind.0 }
    ensures among { IfSome result (λ h. Contains heads.now h) }
{
    for head in heads {
        if head.kind == kind {
            return Some(*head);
        }
    }
    None
}

/// The first head of a type.
pub fn first_head(heads: &[BoxHead], kind: FourCc) -> Option<BoxHead>
    ensures head { result ≡ first_head heads.now kind.0 }
    ensures piece { FindsPiece heads.now kind.0 result }
    ensures among { IfSome result (λ h. Contains heads.now h) }
{
    look_for(heads, kind)
}
