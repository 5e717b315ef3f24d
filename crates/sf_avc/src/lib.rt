//! AVC video (ITU-T H.264, ISO/IEC 14496-10) as it stands in a file (ISO/IEC 14496-15).
//!
//! A coded picture is a list of NAL units. In a payload each stands after a start code (Annex B);
//! in a file each stands after its length. `read_sps` reads the first fields of a sequence parameter
//! set, `make_config` makes the configuration record of the box `avcC` of the parameter sets, and
//! `read_config` reads it. `Bits` reads the bits of any bytes.
#![tactic(auto)]

mod bits;
mod config;
mod config_body;
mod laws;
mod nal;
mod prefixed;
mod source;
mod sps;
mod values;

pub use bits::Bits;
pub use config::{AvcCFault, AvcConfig, read_config};
pub use config_body::{ConfigFault, make_config};
pub use laws::{
    codes_are_read_back, configs_are_read_back, lengths_are_read_back, units_are_proper,
};
pub use nal::{NalFault, Unit, Units, split_annexb};
pub use prefixed::{LengthFault, annexb_of, prefix, split_prefixed};
pub use sps::{SpsFault, SpsHead, read_sps};

#[cfg(test)]
mod tests;
