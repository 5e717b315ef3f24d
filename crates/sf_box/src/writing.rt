ghost use Rattle.std.specs.Prelude.{◌≡◌, ℕ, ◌+◌, ◌-◌, ◌^◌, ◌≤◌, ◌<◌, List, ◌++◌, length, take, drop, IfOk, OnOk, OnErr};
ghost use Rattle.sf_box.specs.Boxes.{be16, be32, be64, box_of, opened};

use crate::types::FourCc;
use byteorder::{BigEndian, ByteOrder};
use sf_list::Bytes;
use std::alloc::AllocError;

/// Puts a number at the end, in two bytes. Without memory nothing is put there.
#[tactic(auto, using(crate::proofs::Numbers::length_facts), unfolding(crate::specs::Boxes::be16))]
pub fn put_u16(out: &mut Bytes, x: u16) -> Result<(), AllocError>
    ensures ok { OnOk result (out.new ≡ out.old ++ be16 x) }
    ensures len { OnOk result (length out.new ≡ length out.old + 2) }
    ensures err { OnErr result (out.new ≡ out.old) }
{
    let mut word = [0u8; 2];
    BigEndian::write_u16(&mut word, x);
    out.append(&word)
}

/// Puts a number at the end, in four bytes. Without memory nothing is put there.
#[tactic(auto, using(crate::proofs::Numbers::length_facts), unfolding(crate::specs::Boxes::be32))]
pub fn put_u32(out: &mut Bytes, x: u32) -> Result<(), AllocError>
    ensures ok { OnOk result (out.new ≡ out.old ++ be32 x) }
    ensures len { OnOk result (length out.new ≡ length out.old + 4) }
    ensures err { OnErr result (out.new ≡ out.old) }
{
    let mut word = [0u8; 4];
    BigEndian::write_u32(&mut word, x);
    out.append(&word)
}

/// Puts a number at the end, in eight bytes. Without memory nothing is put there.
#[tactic(auto, using(crate::proofs::Numbers::length_facts), unfolding(crate::specs::Boxes::be64))]
pub fn put_u64(out: &mut Bytes, x: u64) -> Result<(), AllocError>
    ensures ok { OnOk result (out.new ≡ out.old ++ be64 x) }
    ensures len { OnOk result (length out.new ≡ length out.old + 8) }
    ensures err { OnErr result (out.new ≡ out.old) }
{
    let mut word = [0u8; 8];
    BigEndian::write_u64(&mut word, x);
    out.append(&word)
}

/// Puts bytes at the end. Without memory nothing is put there.
#[tactic(auto, using(crate::proofs::Numbers::length_facts))]
pub fn put_bytes(out: &mut Bytes, x: &[u8]) -> Result<(), AllocError>
    ensures ok { OnOk result (out.new ≡ out.old ++ x.now) }
    ensures len { OnOk result (length out.new ≡ length out.old + length x.now) }
    ensures err { OnErr result (out.new ≡ out.old) }
{
    out.append(x)
}

/// Puts a box whose body is at hand (ISO/IEC 14496-12, 4.2). Without memory nothing is put there.
#[tactic(auto, using(crate::proofs::Numbers::length_facts))]
pub fn put_box(out: &mut Bytes, kind: FourCc, body: &[u8]) -> Result<(), AllocError>
    requires { length body.now < 2 ^ 32 - 8 }
    ensures ok { OnOk result (out.new ≡ out.old ++ box_of kind.0 body.now) }
    ensures len { OnOk result (length out.new ≡ length out.old + 8 + length body.now) }
    ensures err { OnErr result (out.new ≡ out.old) }
{
    let before = out.len();
    let put = put_whole(out, kind, body);
    if put.is_err() {
        out.cut(before);
    }
    put
}

// A box whose body is at hand. Without memory a part of it may be put there.
#[tactic(auto, unfolding(crate::specs::Boxes::box_of))]
fn put_whole(out: &mut Bytes, kind: FourCc, body: &[u8]) -> Result<(), AllocError>
    requires { length body.now < 2 ^ 32 - 8 }
    ensures ok { OnOk result (out.new ≡ out.old ++ box_of kind.0 body.now) }
    ensures err { take (length out.old) out.new ≡ out.old }
{
    put_u32(out, 8 + body.len() as u32)?;
    put_bytes(out, &kind.0)?;
    put_bytes(out, body)
}

/// Begins a box whose size is not yet known. The answer is the place of its head, for `end_box`.
/// Without memory nothing is put there.
#[tactic(auto, using(crate::proofs::Numbers::length_facts), unfolding(crate::specs::Boxes::opened, crate::specs::Boxes::be32))]
pub fn begin_box(out: &mut Bytes, kind: FourCc) -> Result<usize, AllocError>
    ensures mark { IfOk result (λ mark. mark ≡ length out.old) }
    ensures ok { OnOk result (out.new ≡ out.old ++ opened kind.0) }
    ensures len { OnOk result (length out.new ≡ length out.old + 8) }
    ensures err { OnErr result (out.new ≡ out.old) }
{
    let mark = out.len();
    let FourCc([a, b, c, d]) = kind;
    out.append(&[0, 0, 0, 0, a, b, c, d])?;
    Ok(mark)
}

/// Ends the box that begins at the mark: what was put at the end since is its body.
#[tactic(auto, unfolding(crate::specs::Boxes::box_of, crate::specs::Boxes::opened))]
pub fn end_box(out: &mut Bytes, mark: usize)
    requires head { mark + 8 ≤ length out.old }
    requires size { length out.old < mark + 2 ^ 32 }
    ensures len { length out.new ≡ length out.old }
    ensures exact { out.new ≡ take mark out.old ++ box_of (take 4 (drop (mark + 4) out.old)) (drop (mark + 8) out.old) }
    ensures gains { (front kind body : List ℕ) → length kind ≡ 4 → mark ≡ length front → out.old ≡ front ++ opened kind ++ body
        → out.new ≡ front ++ box_of kind body }
{
    let size = out.len() - mark;
    let mut word = [0u8; 4];
    BigEndian::write_u32(&mut word, size as u32);
    out.patch(mark, &word);
}
