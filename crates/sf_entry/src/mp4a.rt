//! The sample entry of sound and the descriptors in it.

ghost use Rattle.std.specs.Prelude.{◌≡◌, ◌+◌, ◌≤◌, ◌++◌, length, IfOk, OnOk};
ghost use Rattle.sf_entry.specs.Mp4a.{size_bytes, descriptor, decoder_body, stream_body, esds_body, rate_field, mp4a_body, mp4a_entry};

use sf_box::{FourCc, put_box, put_bytes, put_u16, put_u32};
use sf_list::Bytes;
use std::alloc::{AllocError, Global};

// The tag of the descriptor of an elementary stream (ISO/IEC 14496-1, 7.2.2.1).
pub(crate) const STREAM: u8 = 3;

// The tag of how it is decoded.
pub(crate) const DECODER: u8 = 4;

// The tag of the configuration of its decoder.
pub(crate) const CONFIGURATION: u8 = 5;

// The tag of how its samples are packed.
const SYNC_LAYER: u8 = 6;

// A length in four bytes of seven bits each (ISO/IEC 14496-1, 8.3.3).
#[tactic(auto, unfolding(crate::specs::Mp4a::size_bytes))]
fn size_bytes(len: usize) -> [u8; 4]
    ensures { result ≡ size_bytes len }
{
    [
        0x80 | (len >> 21 & 0x7F) as u8,
        0x80 | (len >> 14 & 0x7F) as u8,
        0x80 | (len >> 7 & 0x7F) as u8,
        (len & 0x7F) as u8,
    ]
}

// Puts a descriptor whose body is at hand.
#[tactic(auto, unfolding(crate::specs::Mp4a::descriptor))]
fn put_descriptor(out: &mut Bytes, tag: u8, body: &[u8]) -> Result<(), AllocError>
    ensures put { OnOk result (out.new ≡ out.old ++ descriptor tag body.now) }
    ensures len { OnOk result (length out.new ≡ length out.old + (5 + length body.now)) }
{
    let [a, b, c, d] = size_bytes(body.len());
    put_bytes(out, &[tag, a, b, c, d])?;
    put_bytes(out, body)
}

// How the sound is decoded (ISO/IEC 14496-1, 7.2.6.6): by ISO/IEC 14496-3, an audio stream.
#[tactic(auto, unfolding(crate::specs::Mp4a::decoder_body))]
fn decoder_body(alloc: Global, config: &[u8]) -> Result<Bytes, AllocError>
    ensures body { IfOk result (λ body. body ≡ decoder_body config.now) }
    ensures len { IfOk result (λ body. length body ≡ 18 + length config.now) }
{
    let mut body = Bytes::from_slice(alloc, &[0x40, 0x15, 0, 0, 0, 0, 0, 0, 0, 0, 0, 0, 0])?;
    put_descriptor(&mut body, CONFIGURATION, config)?;
    Ok(body)
}

// The elementary stream (ISO/IEC 14496-1, 7.2.6.5). The sync layer's 2 means that it is in a file.
#[tactic(auto, unfolding(crate::specs::Mp4a::stream_body))]
fn stream_body(alloc: Global, config: &[u8]) -> Result<Bytes, AllocError>
    ensures body { IfOk result (λ body. body ≡ stream_body config.now) }
    ensures len { IfOk result (λ body. length body ≡ 32 + length config.now) }
{
    let decoder = decoder_body(alloc, config)?;
    let mut body = Bytes::from_slice(alloc, &[0, 0, 0])?;
    put_descriptor(&mut body, DECODER, decoder.as_slice())?;
    put_descriptor(&mut body, SYNC_LAYER, &[2])?;
    Ok(body)
}

// The body of the elementary stream descriptor box (ISO/IEC 14496-14, 5.6.1).
#[tactic(auto, unfolding(crate::specs::Mp4a::esds_body))]
fn esds_body(alloc: Global, config: &[u8]) -> Result<Bytes, AllocError>
    ensures body { IfOk result (λ body. body ≡ esds_body config.now) }
    ensures len { IfOk result (λ body. length body ≡ 41 + length config.now) }
{
    let stream = stream_body(alloc, config)?;
    let mut body = Bytes::from_slice(alloc, &[0, 0, 0, 0])?;
    put_descriptor(&mut body, STREAM, stream.as_slice())?;
    Ok(body)
}

// A sampling rate with sixteen bits after the point; 0 where it has more than sixteen before it.
#[tactic(auto, unfolding(crate::specs::Mp4a::rate_field))]
fn rate_field(rate: u32) -> u32
    ensures { result ≡ rate_field rate }
{
    match u16::try_from(rate) {
        Ok(rate) => u32::from(rate) << 16,
        Err(_) => 0,
    }
}

// The body of the entry of sound (ISO/IEC 14496-12, 12.2.3).
#[tactic(auto, unfolding(crate::specs::Mp4a::mp4a_body))]
fn mp4a_body(alloc: Global, channels: u16, rate: u32, config: &[u8]) -> Result<Bytes, AllocError>
    requires { length config.now ≤ 65536 }
    ensures body { IfOk result (λ body. body ≡ mp4a_body channels rate config.now) }
    ensures len { IfOk result (λ body. length body ≡ 77 + length config.now) }
{
    let esds = esds_body(alloc, config)?;
    let mut body = Bytes::from_slice(alloc, &[0, 0, 0, 0, 0, 0, 0, 1, 0, 0, 0, 0, 0, 0, 0, 0])?;
    put_u16(&mut body, channels)?;
    put_bytes(&mut body, &[0, 16, 0, 0, 0, 0])?;
    put_u32(&mut body, rate_field(rate))?;
    put_box(&mut body, FourCc(*b"esds"), esds.as_slice())?;
    Ok(body)
}

/// The sample entry box of sound with so many channels, whose configuration is at hand.
#[tactic(auto, unfolding(crate::specs::Mp4a::mp4a_entry))]
pub(crate) fn mp4a_entry(
    alloc: Global,
    channels: u16,
    rate: u32,
    config: &[u8],
) -> Result<Bytes, AllocError>
    requires { length config.now ≤ 65536 }
    ensures entry { IfOk result (λ entry. entry ≡ mp4a_entry channels rate config.now) }
    ensures len { IfOk result (λ entry. length entry ≡ 85 + length config.now) }
{
    let body = mp4a_body(alloc, channels, rate, config)?;
    let mut entry = Bytes::new(alloc);
    put_box(&mut entry, FourCc(*b"mp4a"), body.as_slice())?;
    Ok(entry)
}
