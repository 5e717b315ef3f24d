use super::*;
use sf_list::{holds, same};
use std::test::Fail;

// An input of video without samples: "SFCS", version 1, kind 1, 0 in ten bytes, then 17 bytes of configuration.
const NO_PICTURES: [u8; 40] = [
    0x53, 0x46, 0x43, 0x53, 0, 1, 0, 1, 0, 0, 0, 0, 0, 0, 0, 0, 0, 0, 0, 0, 0, 0x11, 0, 0, 0, 1,
    0x67, 0x42, 0, 0x1E, 0xF0, 0, 0, 0, 1, 0x68, 0xCE, 0x38, 0x80, 0,
];

// With one sample: a sync sample at 0 us, of five bytes.
const ONE_PICTURE: [u8; 67] = [
    0x53, 0x46, 0x43, 0x53, 0, 1, 0, 1, 0, 0, 0, 0, 0, 0, 0, 0, 0, 0, 0, 0, 0, 0x11, 0, 0, 0, 1,
    0x67, 0x42, 0, 0x1E, 0xF0, 0, 0, 0, 1, 0x68, 0xCE, 0x38, 0x80, 1, 1, 0, 0, 0, 0, 0, 0, 0, 0, 0,
    0, 0, 0, 0, 0, 0, 0, 0, 0, 0, 5, 0, 0, 0, 1, 0x65, 0,
];

// With two: the second is no sync sample, at 33333 us, of six bytes.
const TWO_PICTURES: [u8; 95] = [
    0x53, 0x46, 0x43, 0x53, 0, 1, 0, 1, 0, 0, 0, 0, 0, 0, 0, 0, 0, 0, 0, 0, 0, 0x11, 0, 0, 0, 1,
    0x67, 0x42, 0, 0x1E, 0xF0, 0, 0, 0, 1, 0x68, 0xCE, 0x38, 0x80, 1, 1, 0, 0, 0, 0, 0, 0, 0, 0, 0,
    0, 0, 0, 0, 0, 0, 0, 0, 0, 0, 5, 0, 0, 0, 1, 0x65, 1, 0, 0, 0, 0, 0, 0, 0, 0x82, 0x35, 0, 0, 0,
    0, 0, 0, 0x82, 0x35, 0, 0, 0, 6, 0, 0, 0, 1, 0x41, 0x80, 0,
];

// An input of sound without samples: "SFCS", version 1, kind 2, 0 in ten bytes, then two bytes of configuration.
const NO_SOUNDS: [u8; 25] = [
    0x53, 0x46, 0x43, 0x53, 0, 1, 0, 2, 0, 0, 0, 0, 0, 0, 0, 0, 0, 0, 0, 0, 0, 2, 0x11, 0x90, 0,
];

// With one sample: at 0 us, of one byte.
const ONE_SOUND: [u8; 48] = [
    0x53, 0x46, 0x43, 0x53, 0, 1, 0, 2, 0, 0, 0, 0, 0, 0, 0, 0, 0, 0, 0, 0, 0, 2, 0x11, 0x90, 1, 1,
    0, 0, 0, 0, 0, 0, 0, 0, 0, 0, 0, 0, 0, 0, 0, 0, 0, 0, 0, 1, 0x21, 0,
];

// With two: the second at 21333 us, of two bytes.
const TWO_SOUNDS: [u8; 72] = [
    0x53, 0x46, 0x43, 0x53, 0, 1, 0, 2, 0, 0, 0, 0, 0, 0, 0, 0, 0, 0, 0, 0, 0, 2, 0x11, 0x90, 1, 1,
    0, 0, 0, 0, 0, 0, 0, 0, 0, 0, 0, 0, 0, 0, 0, 0, 0, 0, 0, 1, 0x21, 1, 1, 0, 0, 0, 0, 0, 0, 0x53,
    0x55, 0, 0, 0, 0, 0, 0, 0x53, 0x55, 0, 0, 0, 2, 0x21, 0x80, 0,
];

#[test]
fn inputs_without_samples_are_headers_and_ends(rt: HostRuntime) -> Result<(), Fail> {
    let inputs = make_inputs(rt.alloc(), 0, 3)?;
    if let [first, second, third] = inputs.as_slice() {
        same(first.as_slice(), NO_PICTURES.as_slice())?;
        same(second.as_slice(), NO_SOUNDS.as_slice())?;
        same(third.as_slice(), NO_PICTURES.as_slice())?;
    } else {
        holds(false)?;
    }
    Ok(())
}

#[test]
fn one_sample_of_each_kind(rt: HostRuntime) -> Result<(), Fail> {
    let inputs = make_inputs(rt.alloc(), 1, 2)?;
    if let [first, second] = inputs.as_slice() {
        same(first.as_slice(), ONE_PICTURE.as_slice())?;
        same(second.as_slice(), ONE_SOUND.as_slice())?;
    } else {
        holds(false)?;
    }
    Ok(())
}

#[test]
fn two_samples_of_each_kind(rt: HostRuntime) -> Result<(), Fail> {
    let inputs = make_inputs(rt.alloc(), 2, 2)?;
    if let [first, second] = inputs.as_slice() {
        same(first.as_slice(), TWO_PICTURES.as_slice())?;
        same(second.as_slice(), TWO_SOUNDS.as_slice())?;
    } else {
        holds(false)?;
    }
    Ok(())
}

#[test]
fn one_track_is_video_alone(rt: HostRuntime) -> Result<(), Fail> {
    let inputs = make_inputs(rt.alloc(), 1, 1)?;
    if let [only] = inputs.as_slice() {
        same(only.as_slice(), ONE_PICTURE.as_slice())?;
    } else {
        holds(false)?;
    }
    Ok(())
}
