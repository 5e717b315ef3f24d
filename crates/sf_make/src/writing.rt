//! The parts of a coded sample file, put at the end of a byte string.

ghost use Rattle.std.specs.Prelude.{◌≡◌, ◌^◌, ◌<◌, ◌++◌, length, codes, OnOk};
ghost use Rattle.sf_box.specs.Boxes.{be16, be32};
ghost use Rattle.sf_make.specs.Writing.{kind_code, header_bytes, record_bytes};

use sf_box::{put_bytes, put_u16, put_u32, put_u64};
use sf_list::Bytes;
use sf_tick::Kind;
use std::alloc::AllocError;

// The code of a kind in a header.
fn kind_code(kind: Kind) -> u16
    ensures { result ≡ kind_code kind }
{
    match kind {
        Kind::Avc => 1,
        Kind::Aac => 2,
    }
}

// Puts what stands before the fields of the setup. Without memory a part of it may be put there.
fn put_start(out: &mut Bytes, kind: Kind) -> Result<(), AllocError>
    ensures { OnOk result (out.new ≡ out.old ++ (codes "SFCS" ++ (be16 1 ++ be16 (kind_code kind)))) }
{
    put_bytes(out, b"SFCS")?;
    put_u16(out, 1)?;
    put_u16(out, kind_code(kind))
}

// Puts a timescale, a width, a height and channels of 0. Without memory a part of them may be put there.
fn put_defaults(out: &mut Bytes) -> Result<(), AllocError>
    ensures { OnOk result (out.new ≡ out.old ++ (be32 0 ++ (be16 0 ++ (be16 0 ++ be16 0)))) }
{
    put_u32(out, 0)?;
    put_u16(out, 0)?;
    put_u16(out, 0)?;
    put_u16(out, 0)
}

/// Puts the header of a file of this kind with this configuration, and 0 in all other fields.
/// Without memory a part of it may be put there.
#[tactic(auto, unfolding(crate::specs::Writing::header_bytes))]
pub(crate) fn put_header(out: &mut Bytes, kind: Kind, config: &[u8]) -> Result<(), AllocError>
    requires { length config.now < 2 ^ 32 }
    ensures { OnOk result (out.new ≡ out.old ++ header_bytes (record { kind = kind; scale = 0; width = 0; height = 0; channels = 0; config = config.now })) }
{
    put_start(out, kind)?;
    put_defaults(out)?;
    put_u32(out, config.len() as u32)?;
    put_bytes(out, config)
}

/// Puts the record of a sample that is shown when it is decoded. Without memory a part of it may be put there.
#[tactic(auto, unfolding(crate::specs::Writing::record_bytes))]
pub(crate) fn put_record(
    out: &mut Bytes,
    time_us: u64,
    sync: bool,
    payload: &[u8],
) -> Result<(), AllocError>
    requires { length payload.now < 2 ^ 32 }
    ensures { OnOk result (out.new ≡ out.old ++ record_bytes (record { dts_us = time_us; pts_us = time_us; sync = sync; bytes = payload.now })) }
{
    put_bytes(out, &[1, u8::from(sync)])?;
    put_u64(out, time_us)?;
    put_u64(out, time_us)?;
    put_u32(out, payload.len() as u32)?;
    put_bytes(out, payload)
}
