ghost use Rattle.std.specs.Prelude.{◌+◌, ◌^◌, ◌<◌, length};

use sf_box::BoxHead;

/// A box that was found, with its body. The places in it are below 2^64.
#[derive(Clone, Copy)]
pub struct Found<'a> {
    pub head: BoxHead,
    pub body: &'a [u8],
    ghost placed: { head.at + head.head + length body.now < 2 ^ 64 },
}
