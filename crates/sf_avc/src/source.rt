//! The bytes of which bits are taken: plain ones, or those of a NAL unit after its first one, without
//! emulation prevention (ISO/IEC 14496-10, 7.3.1).

ghost use Rattle.std.specs.Prelude.{◌≡◌, ◌+◌, ◌≤◌, ◌==◌, ◌&&◌, nat_le, min, cond, ◌∷◌, [], length, MatchOption};
ghost use Rattle.sf_avc.specs.Sps.{without_emulation};

use std::marker::Model;

/// The bytes that are left.
#[derive(Drop)]
pub(crate) struct Source<'a> {
    /// What is left, with the bytes of emulation prevention.
    rest: &'a [u8],
    /// How many zero bytes stand right before the rest, at most 2; none where no byte is left out.
    zeros: Option<u8>,
}

impl<'a> Model for Source<'a> {
    ghost use Rattle.std.specs.Prelude.{List, ℕ};
    ghost use Rattle.sf_avc.specs.inner.Taking.{bytes_left, FewZeros};

    ghost Value = { List ℕ };

    ghost view = { λ s. bytes_left s.zeros s.rest.now };

    ghost invariant = { λ s. FewZeros s.zeros };
}

impl<'a> Source<'a> {
    /// These bytes as they are.
    pub(crate) fn plain(bytes: &'a [u8]) -> Source<'a>
        ensures { result ≡ bytes.now }
    {
        Source {
            rest: bytes,
            zeros: None,
        }
    }

    /// The bytes after the first one of a unit, without those of emulation prevention.
    #[tactic(auto, using(crate::proofs::Emulation::no_longer))]
    pub(crate) fn unit(rest: &'a [u8]) -> Source<'a>
        ensures bytes { result ≡ without_emulation 0 rest.now }
        ensures len { length result ≤ length rest.now }
    {
        Source {
            rest,
            zeros: Some(0),
        }
    }

    /// Takes the next byte, where one is left.
    #[tactic(auto, using(crate::proofs::Emulation::byte_facts), unfolding(crate::specs::Sps::without_emulation))]
    pub(crate) fn next_byte(&mut self) -> Option<u8>
        ensures { MatchOption result ((self.old ≡ []) × (self.new ≡ [])) (λ byte. self.old ≡ byte ∷ self.new) }
    {
        let (first, rest) = self.rest.split_first()?;
        let Some(zeros) = self.zeros else {
            self.rest = rest;
            return Some(*first);
        };
        if !is_left_out(*first, zeros) {
            self.zeros = Some(zeros_after(*first, zeros));
            self.rest = rest;
            return Some(*first);
        }
        let (second, rest) = rest.split_first()?;
        self.zeros = Some(zeros_after(*second, 0));
        self.rest = rest;
        Some(*second)
    }
}

// Whether a byte is left out after so many zero bytes, at most 2.
fn is_left_out(byte: u8, zeros: u8) -> bool
    ensures { result ≡ (byte == 3 && nat_le 2 zeros) }
{
    byte == 3 && zeros >= 2
}

// How many zero bytes stand right after a byte that comes after so many, at most 2.
fn zeros_after(byte: u8, zeros: u8) -> u8
    requires { zeros ≤ 2 }
    ensures run { result ≡ cond (byte == 0) (min 2 (zeros + 1)) 0 }
    ensures least { result ≤ 2 }
{
    match byte {
        0 => 2.min(zeros + 1),
        _ => 0,
    }
}
