//! The bits of bytes, which are taken one after another.

ghost use Rattle.std.specs.Prelude.{◌≡◌, ◌+◌, ◌^◌, ◌≤◌, ◌<◌, length, min, IfSome};
ghost use Rattle.sf_avc.specs.Bits.{Unread, bits_of, first_bits, with_rest};
ghost use Rattle.sf_avc.specs.Sps.{without_emulation};
ghost use Rattle.sf_avc.specs.inner.Taking.{NextBit};

use crate::source::Source;
use std::marker::Model;

/// The bits that are left of bytes, the highest of each byte first.
#[derive(Drop)]
pub struct Bits<'a> {
    bytes: Source<'a>,
    /// How many bytes were taken.
    taken: usize,
    /// The last byte that was taken, and how many of its low bits are left.
    byte: u8,
    left: u8,
}

impl<'a> Model for Bits<'a> {
    ghost use Rattle.std.specs.Prelude.{◌++◌, ◌+◌, ◌-◌, ◌*◌, ◌^◌, ◌≤◌, ◌<◌, length};
    ghost use Rattle.sf_avc.specs.Bits.{Unread, bits_of};
    ghost use Rattle.sf_avc.specs.inner.Taking.{low_bits};

    ghost Value = { Unread };

    ghost view = { λ b. record { at = 8 * b.taken - b.left; bits = low_bits b.left b.byte ++ bits_of b.bytes } };

    ghost invariant = { λ b. (b.left ≤ 7) × ((b.left ≤ 8 * b.taken) × (b.taken + length b.bytes < 2 ^ 63)) };
}

impl<'a> Bits<'a> {
    /// All bits of bytes.
    #[tactic(auto, unfolding(crate::specs::inner::Taking::low_bits))]
    pub fn new(bytes: &'a [u8]) -> Bits<'a>
        ensures { result ≡ record { at = 0; bits = bits_of bytes.now } }
    {
        Bits {
            bytes: Source::plain(bytes),
            taken: 0,
            byte: 0,
            left: 0,
        }
    }

    /// All bits of what follows the first byte of a NAL unit, without the bytes of emulation prevention.
    #[tactic(auto, unfolding(crate::specs::inner::Taking::low_bits))]
    pub(crate) fn of_unit(rest: &'a [u8]) -> Bits<'a>
        ensures { result ≡ record { at = 0; bits = bits_of (without_emulation 0 rest.now) } }
    {
        Bits {
            bytes: Source::unit(rest),
            taken: 0,
            byte: 0,
            left: 0,
        }
    }

    /// How many bits were taken.
    pub fn at(&self) -> u64
        requires { self.now.at < 2 ^ 63 }
        ensures { result ≡ self.now.at }
    {
        8 * (self.taken as u64) - u64::from(self.left)
    }

    /// Takes the next bit, where one is left.
    #[tactic(auto, unfolding(crate::specs::inner::Taking::low_bits, crate::specs::Bits::bits_of))]
    pub(crate) fn next_bit(&mut self) -> Option<bool>
        ensures { NextBit self.old result self.new }
    {
        if self.left == 0 {
            self.byte = self.bytes.next_byte()?;
            self.taken += 1;
            self.left = 8;
        }
        self.left -= 1;
        Some((self.byte >> self.left) % 2 == 1)
    }

    /// Takes the number in so many bits, where they are left. Where fewer are left it takes those.
    pub fn take(&mut self, count: u32) -> Option<u32>
        requires { count ≤ 32 }
        ensures taken { first_bits count self.old.bits ≡ with_rest result self.new.bits }
        ensures at { self.new.at ≡ self.old.at + min count (length self.old.bits) }
        ensures bound { IfSome result (λ n. n < 2 ^ count) }
    {
        let mut number = 0;
        for _ in 0..count {
            number = 2 * number + u32::from(self.next_bit()?);
        }
        Some(number)
    }
}
