//! The elementary stream descriptor box as it is read.

ghost use Rattle.std.specs.Prelude.{◌≡◌, ◌^◌, ◌<◌, IfSome, option_map};
ghost use Rattle.sf_entry.specs.Esds.{past, length_in, descriptor_in, after_dependence, after_text, after_address, after_clock, after_stream, after_decoder, config_in};

use crate::mp4a::{CONFIGURATION, DECODER, STREAM};

// The bytes after so many, where there are so many.
#[tactic(auto, unfolding(crate::specs::Esds::past))]
pub(crate) fn past(bytes: &[u8], count: usize) -> Option<&[u8]>
    ensures { option_map (λ rest. rest.now) result ≡ past count bytes.now }
{
    if bytes.len() < count {
        return None;
    }
    let (_, rest) = bytes.split_at(count);
    Some(rest)
}

// The length in front, in one to four bytes, and the bytes after it.
fn length(bytes: &[u8]) -> Option<(usize, &[u8])>
    ensures { option_map (λ x. (x.0, x.1.now)) result ≡ length_in 4 0 bytes.now }
{
    let mut number = 0;
    let mut rest = bytes;
    for _ in 0..4u8 {
        let (first, more) = rest.split_first()?;
        number = 128 * number + usize::from(first % 128);
        rest = more;
        if *first < 128 {
            return Some((number, rest));
        }
    }
    None
}

// The body of the descriptor in front, where it has this tag and is whole.
#[tactic(auto, unfolding(crate::specs::Esds::descriptor_in))]
fn descriptor(bytes: &[u8], tag: u8) -> Option<&[u8]>
    ensures { option_map (λ body. body.now) result ≡ descriptor_in tag bytes.now }
{
    let [first, rest @ ..] = bytes else {
        return None;
    };
    if *first != tag {
        return None;
    }
    let (len, rest) = length(rest)?;
    if rest.len() < len {
        return None;
    }
    let (body, _) = rest.split_at(len);
    Some(body)
}

// What follows the number of the stream that this one depends on.
#[tactic(auto, unfolding(crate::specs::Esds::after_dependence))]
fn after_dependence(bytes: &[u8], flags: u8) -> Option<&[u8]>
    ensures { option_map (λ rest. rest.now) result ≡ after_dependence flags bytes.now }
{
    if flags / 0x80 % 2 == 1 {
        past(bytes, 2)
    } else {
        Some(bytes)
    }
}

// What follows a text that begins with its length in a byte.
fn after_text(bytes: &[u8]) -> Option<&[u8]>
    ensures { option_map (λ rest. rest.now) result ≡ after_text bytes.now }
{
    let [count, rest @ ..] = bytes else {
        return None;
    };
    past(rest, usize::from(*count))
}

// What follows the address of the stream.
#[tactic(auto, unfolding(crate::specs::Esds::after_address))]
fn after_address(bytes: &[u8], flags: u8) -> Option<&[u8]>
    ensures { option_map (λ rest. rest.now) result ≡ after_address flags bytes.now }
{
    if flags / 0x40 % 2 == 1 {
        after_text(bytes)
    } else {
        Some(bytes)
    }
}

// What follows the number of the stream of clock references.
#[tactic(auto, unfolding(crate::specs::Esds::after_clock))]
fn after_clock(bytes: &[u8], flags: u8) -> Option<&[u8]>
    ensures { option_map (λ rest. rest.now) result ≡ after_clock flags bytes.now }
{
    if flags / 0x20 % 2 == 1 {
        past(bytes, 2)
    } else {
        Some(bytes)
    }
}

// What follows the fields of a stream's descriptor.
#[tactic(auto, unfolding(crate::specs::Esds::after_stream))]
fn after_stream(stream: &[u8]) -> Option<&[u8]>
    ensures { option_map (λ rest. rest.now) result ≡ after_stream stream.now }
{
    let [_, _, flags, rest @ ..] = stream else {
        return None;
    };
    let rest = after_dependence(rest, *flags)?;
    let rest = after_address(rest, *flags)?;
    after_clock(rest, *flags)
}

// What follows the fields of a decoder's descriptor, where it decodes by ISO/IEC 14496-3.
#[tactic(auto, unfolding(crate::specs::Esds::after_decoder))]
fn after_decoder(decoder: &[u8]) -> Option<&[u8]>
    ensures { option_map (λ rest. rest.now) result ≡ after_decoder decoder.now }
{
    let [object, rest @ ..] = decoder else {
        return None;
    };
    if *object != 0x40 {
        return None;
    }
    past(rest, 12)
}

/// The configuration in the body of an elementary stream descriptor box, where it has one.
#[tactic(auto, unfolding(crate::specs::Esds::config_in))]
pub(crate) fn config_in(esds: &[u8]) -> Option<&[u8]>
    ensures { option_map (λ config. config.now) result ≡ config_in esds.now }
{
    let stream = descriptor(past(esds, 4)?, STREAM)?;
    let decoder = descriptor(after_stream(stream)?, DECODER)?;
    descriptor(after_decoder(decoder)?, CONFIGURATION)
}
