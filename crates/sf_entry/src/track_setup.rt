//! The entry of a track, made from its setup.

ghost use Rattle.std.specs.Prelude.{◌≡◌, ◌≤◌, ◌^◌, ◌<◌, length, IfOk};
ghost use Rattle.sf_entry.specs.TrackSetup.{default, Makes};

use crate::asc::{AscFault, read_asc};
use crate::avc1::avc1_entry;
use crate::mp4a::mp4a_entry;
use sf_avc::{ConfigFault, make_config};
use sf_list::Bytes;
use sf_tick::{Kind, Setup};
use std::alloc::{AllocError, Global};

/// What a file says of a track from its start on.
#[derive(Drop)]
pub struct TrackSetup {
    pub kind: Kind,
    /// Ticks a second, at least 1.
    pub scale: u32,
    /// In pixels; of video alone.
    pub width: u16,
    /// In pixels; of video alone.
    pub height: u16,
    /// The whole sample entry box.
    pub entry: Bytes,
}

/// Why no entry is made of a setup.
#[derive(Clone, Copy, Debug, PartialEq, Eq)]
pub enum SetupFault {
    /// No configuration record is made of the parameter sets of video.
    Avc(ConfigFault),
    /// The configuration of sound is refused.
    Aac(AscFault),
    NoMemory,
}

impl From<ConfigFault> for SetupFault {
    ghost use Rattle.std.specs.Prelude.{◌≡◌};
    ghost use Rattle.sf_entry.specs.inner.Refused.{refused};

    ghost from_gives = { λ config fault. fault ≡ refused config };

    fn from(fault: ConfigFault) -> SetupFault {
        match fault {
            ConfigFault::NoMemory => SetupFault::NoMemory,
            refused => SetupFault::Avc(refused),
        }
    }
}

impl From<AscFault> for SetupFault {
    ghost use Rattle.std.specs.Prelude.{◌≡◌};
    ghost use Rattle.sf_entry.specs.declared.track_setup.SetupFault.TheVariants.{Aac};

    ghost from_gives = { λ refused fault. fault ≡ Aac refused };

    fn from(fault: AscFault) -> SetupFault {
        SetupFault::Aac(fault)
    }
}

impl From<AllocError> for SetupFault {
    ghost use Rattle.std.specs.Prelude.{◌≡◌};
    ghost use Rattle.sf_entry.specs.declared.track_setup.SetupFault.TheVariants.{NoMemory};

    ghost from_gives = { λ _ fault. fault ≡ NoMemory };

    fn from(_error: AllocError) -> SetupFault {
        SetupFault::NoMemory
    }
}

/// The timescale of video where its input states none, in ticks a second.
const VIDEO_SCALE: u32 = 90_000;

// The timescale of a setup, and another where it states none.
fn scale_or(setup: &Setup, other: u32) -> u32
    requires { 1 ≤ other }
    ensures scale { result ≡ default setup.now.scale other }
    ensures some { 1 ≤ result }
{
    match setup.scale {
        0 => other,
        scale => scale,
    }
}

// The track of a setup of video.
#[tactic(auto, using(crate::proofs::ConfigLength::config_length), unfolding(crate::specs::TrackSetup::made, crate::specs::TrackSetup::video_track))]
fn video_track(alloc: Global, setup: &Setup) -> Result<TrackSetup, SetupFault>
    requires { setup.now.kind ≡ Kind.Avc }
    ensures made { Makes setup.now result }
    ensures scale { IfOk result (λ track. 1 ≤ track.scale) }
    ensures len { IfOk result (λ track. length track.entry < 2 ^ 25) }
{
    let config = make_config(alloc, setup.config.as_slice())?;
    let scale = scale_or(setup, VIDEO_SCALE);
    let entry = avc1_entry(alloc, setup.width, setup.height, config.as_slice())?;
    Ok(TrackSetup {
        kind: setup.kind,
        scale,
        width: setup.width,
        height: setup.height,
        entry,
    })
}

// The track of a setup of sound.
#[tactic(auto, unfolding(crate::specs::TrackSetup::made, crate::specs::TrackSetup::sound_track))]
fn sound_track(alloc: Global, setup: &Setup) -> Result<TrackSetup, SetupFault>
    requires kind { setup.now.kind ≡ Kind.Aac }
    requires config { length setup.now.config ≤ 65536 }
    ensures made { Makes setup.now result }
    ensures scale { IfOk result (λ track. 1 ≤ track.scale) }
    ensures len { IfOk result (λ track. length track.entry < 2 ^ 25) }
{
    let config = setup.config.as_slice();
    let asc = read_asc(config)?;
    let scale = scale_or(setup, asc.rate);
    let channels = match setup.channels {
        0 => u16::from(asc.channels),
        channels => channels,
    };
    let entry = mp4a_entry(alloc, channels, asc.rate, config)?;
    Ok(TrackSetup {
        kind: setup.kind,
        scale,
        width: setup.width,
        height: setup.height,
        entry,
    })
}

/// The setup of a track and its sample entry, or the first refusal in its configuration.
pub fn make_entry(alloc: Global, setup: &Setup) -> Result<TrackSetup, SetupFault>
    requires { length setup.now.config ≤ 65536 }
    ensures made { Makes setup.now result }
    ensures scale { IfOk result (λ track. 1 ≤ track.scale) }
    ensures len { IfOk result (λ track. length track.entry < 2 ^ 25) }
{
    match setup.kind {
        Kind::Avc => video_track(alloc, setup),
        Kind::Aac => sound_track(alloc, setup),
    }
}
