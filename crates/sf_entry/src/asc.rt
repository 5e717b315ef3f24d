//! The configuration of sound.

ghost use Rattle.std.specs.Prelude.{◌≡◌, ◌^◌, ◌<◌, IfOk, IfSome};
ghost use Rattle.sf_avc.specs.Bits.{bits_of, with_rest};
ghost use Rattle.sf_entry.specs.Asc.{object_in, stated_in, front_in, judged, asc_of, Sounds};
ghost use Rattle.sf_entry.specs.inner.Narrow.{Narrow};

use sf_avc::Bits;

/// What the configuration of sound says (ISO/IEC 14496-3, 1.6.2.1).
#[derive(Clone, Copy, Debug, PartialEq, Eq)]
pub struct Asc {
    /// The audio object type.
    pub object: u8,
    /// The sampling rate, in samples a second; at least 1.
    pub rate: u32,
    /// How many channels, 1 to 8.
    pub channels: u8,
}

/// Why the configuration of sound is refused.
#[derive(Clone, Copy, Debug, PartialEq, Eq)]
pub enum AscFault {
    /// Its fields aren't whole.
    Truncated,
    /// The frequency index has no rate.
    Index(u8),
    /// The stated rate is 0.
    Rate0,
    /// The channel configuration names no channels here.
    Channels(u8),
}

/// The fields in front of a configuration.
#[derive(Clone, Copy)]
pub(crate) struct Front {
    pub object: u8,
    /// The frequency index.
    pub index: u8,
    /// The rate after the index 15, else 0.
    pub stated: u32,
    /// The channel configuration.
    pub channels: u8,
}

/// The sampling rates of the frequency indices 0 to 12, in samples a second.
const RATES: [u32; 13] = [
    96_000, 88_200, 64_000, 48_000, 44_100, 32_000, 24_000, 22_050, 16_000, 12_000, 11_025, 8_000,
    7_350,
];

// Takes the object type.
#[tactic(auto, unfolding(crate::specs::Asc::object_in))]
fn read_object(bits: &mut Bits<'_>) -> Option<u8>
    ensures { object_in bits.old.bits ≡ with_rest result bits.new.bits }
{
    match bits.take(5)? {
        31 => Some(32 + bits.take(6)? as u8),
        object => Some(object as u8),
    }
}

// Takes the rate that stands after the frequency index 15.
#[tactic(auto, unfolding(crate::specs::Asc::stated_in))]
fn read_stated(bits: &mut Bits<'_>, index: u8) -> Option<u32>
    ensures taken { stated_in index bits.old.bits ≡ with_rest result bits.new.bits }
    ensures bound { IfSome result (λ rate. rate < 2 ^ 24) }
{
    match index {
        15 => bits.take(24),
        _ => Some(0),
    }
}

// The fields in front of a configuration, where their bits are all there.
#[tactic(auto, unfolding(crate::specs::Asc::front_in))]
fn read_front(config: &[u8]) -> Option<Front>
    ensures fields { result ≡ front_in (bits_of config.now) }
    ensures narrow { IfSome result Narrow }
{
    let mut bits = Bits::new(config);
    let object = read_object(&mut bits)?;
    let index = bits.take(4)? as u8;
    let stated = read_stated(&mut bits, index)?;
    let channels = bits.take(4)? as u8;
    Some(Front {
        object,
        index,
        stated,
        channels,
    })
}

// What the fields mean.
#[tactic(auto, unfolding(crate::specs::Asc::judged))]
fn judged(front: Front) -> Result<Asc, AscFault>
    requires { Narrow front }
    ensures exact { result ≡ judged front }
    ensures sounds { IfOk result Sounds }
{
    let rate = match front.index {
        15 => front.stated,
        index => match RATES.get(usize::from(index)) {
            Some(rate) => *rate,
            None => return Err(AscFault::Index(index)),
        },
    };
    if rate == 0 {
        return Err(AscFault::Rate0);
    }
    let channels = match front.channels {
        7 => 8,
        count @ 1..=6 => count,
        other => return Err(AscFault::Channels(other)),
    };
    Ok(Asc {
        object: front.object,
        rate,
        channels,
    })
}

/// What the configuration of sound says, or the first thing that is refused in it.
#[tactic(auto, unfolding(crate::specs::Asc::asc_of))]
pub fn read_asc(config: &[u8]) -> Result<Asc, AscFault>
    ensures exact { result ≡ asc_of config.now }
    ensures sounds { IfOk result Sounds }
{
    match read_front(config) {
        Some(front) => judged(front),
        None => Err(AscFault::Truncated),
    }
}
