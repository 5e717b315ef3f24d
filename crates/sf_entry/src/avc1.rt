//! The sample entry of video.

ghost use Rattle.std.specs.Prelude.{◌≡◌, ◌+◌, ◌^◌, ◌-◌, ◌<◌, ◌++◌, length, IfOk, OnOk};
ghost use Rattle.sf_entry.specs.Avc1.{video_fields, avc1_body, avc1_entry};

use sf_box::{FourCc, put_box, put_bytes, put_u16, put_u32};
use sf_list::Bytes;
use std::alloc::{AllocError, Global};

// 72 pixels an inch, with sixteen bits after the point.
const RESOLUTION: u32 = 0x0048_0000;

// The fields of a video entry (ISO/IEC 14496-12, 12.1.3).
#[tactic(auto, unfolding(crate::specs::Avc1::video_fields))]
fn video_fields(alloc: Global, width: u16, height: u16) -> Result<Bytes, AllocError>
    ensures fields { IfOk result (λ fields. fields ≡ video_fields width height) }
    ensures len { IfOk result (λ fields. length fields ≡ 78) }
{
    let mut fields = Bytes::from_slice(alloc, &[0, 0, 0, 0, 0, 0, 0, 1])?;
    put_bytes(&mut fields, &[0; 16])?;
    put_u16(&mut fields, width)?;
    put_u16(&mut fields, height)?;
    put_u32(&mut fields, RESOLUTION)?;
    put_u32(&mut fields, RESOLUTION)?;
    put_bytes(&mut fields, &[0, 0, 0, 0, 0, 1])?;
    put_bytes(&mut fields, &[0; 32])?;
    put_bytes(&mut fields, &[0, 0x18, 0xFF, 0xFF])?;
    Ok(fields)
}

/// The sample entry box of video, with the body of its configuration box.
#[tactic(auto, unfolding(crate::specs::Avc1::avc1_entry, crate::specs::Avc1::avc1_body))]
pub(crate) fn avc1_entry(
    alloc: Global,
    width: u16,
    height: u16,
    config: &[u8],
) -> Result<Bytes, AllocError>
    requires { length config.now < 2 ^ 32 - 94 }
    ensures entry { IfOk result (λ entry. entry ≡ avc1_entry width height config.now) }
    ensures len { IfOk result (λ entry. length entry ≡ 94 + length config.now) }
{
    let mut body = video_fields(alloc, width, height)?;
    put_box(&mut body, FourCc(*b"avcC"), config)?;
    let mut entry = Bytes::new(alloc);
    put_box(&mut entry, FourCc(*b"avc1"), body.as_slice())?;
    Ok(entry)
}
