//! The calls on NAL units and on parameter sets, over vectors of bytes.

use super::*;

mod bits;
mod config;
mod config_body;
mod sps;
mod units;
