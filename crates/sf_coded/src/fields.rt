ghost use Rattle.std.specs.Prelude.{◌≡◌, ℕ, ◌+◌, ◌^◌, ◌≤◌, ◌<◌, min, length, IfOk};
ghost use Rattle.sf_coded.specs.CodedFile.{header_in, record_in};
ghost use Rattle.sf_coded.specs.inner.Steps.{HeaderFits};

use crate::types::CodedFault;
use sf_box::{read_u16, read_u32, read_u64};
use sf_tick::Kind;

/// How many bytes the fields of the header take, and those of a record with its tag.
pub const FIELDS: usize = 22;

/// How long a configuration may be.
const CONFIG_MAX: u32 = 65_536;

/// How long a payload may be.
const PAYLOAD_MAX: u32 = 16_777_216;

/// The fields of a header.
#[derive(Clone, Copy)]
pub struct Header {
    pub kind: Kind,
    pub scale: u32,
    pub width: u16,
    pub height: u16,
    pub channels: u16,
    pub config_len: u32,
}

/// The fields of a record after its tag.
#[derive(Clone, Copy)]
pub struct Record {
    pub sync: bool,
    pub dts_us: u64,
    pub pts_us: u64,
    pub len: u32,
}

/// What stands at a place of the records.
#[derive(Clone, Copy)]
pub enum Turn {
    End,
    Next(Record),
}

/// The fields of the header of a file of so many bytes, from its first ones.
#[tactic(auto, unfolding(sf_box::specs::Boxes::word16, sf_box::specs::Boxes::word32))]
pub fn read_header(first: &[u8], len: u64) -> Result<Header, CodedFault>
    requires { length first.now ≡ min 22 len }
    ensures fields { result ≡ header_in len first.now }
    ensures fits { IfOk result (λ h. HeaderFits len h) }
{
    let truncated = Err(CodedFault::Truncated { at: len });
    if len < 4 {
        return truncated;
    }
    if &first[..4] != b"SFCS".as_slice() {
        return Err(CodedFault::Magic);
    }
    if len < 6 {
        return truncated;
    }
    let version = read_u16(first, 4);
    if version != 1 {
        return Err(CodedFault::Version(version));
    }
    if len < 8 {
        return truncated;
    }
    let kind = match read_u16(first, 6) {
        1 => Kind::Avc,
        2 => Kind::Aac,
        code => return Err(CodedFault::KindCode(code)),
    };
    if len < 22 {
        return truncated;
    }
    let config_len = read_u32(first, 18);
    if config_len > CONFIG_MAX {
        return Err(CodedFault::ConfigTooLong { len: config_len });
    }
    if len < 22 + u64::from(config_len) {
        return truncated;
    }
    Ok(Header {
        kind,
        scale: read_u32(first, 8),
        width: read_u16(first, 12),
        height: read_u16(first, 14),
        channels: read_u16(first, 16),
        config_len,
    })
}

/// The record at a place, from its first bytes, with so much room up to the end of the file.
#[tactic(auto, unfolding(sf_box::specs::Boxes::word32, sf_box::specs::Boxes::word64))]
pub fn read_record(first: &[u8], at: u64, room: u64) -> Result<Turn, CodedFault>
    requires first { length first.now ≡ min 22 room }
    requires place { at + room < 2 ^ 64 }
    ensures { result ≡ record_in at room first.now }
{
    if room == 0 {
        return Err(CodedFault::Truncated { at });
    }
    let tag = first[0];
    if tag == 0 {
        if room == 1 {
            return Ok(Turn::End);
        }
        return Err(CodedFault::Trailing { at: at + 1 });
    }
    if tag != 1 {
        return Err(CodedFault::Tag { at, tag });
    }
    if room < 22 {
        return Err(CodedFault::Truncated { at: at + room });
    }
    let len = read_u32(first, 18);
    if len == 0 {
        return Err(CodedFault::Empty { at });
    }
    if len > PAYLOAD_MAX {
        return Err(CodedFault::TooLong { at, len });
    }
    if room < 22 + u64::from(len) {
        return Err(CodedFault::Truncated { at: at + room });
    }
    Ok(Turn::Next(Record {
        sync: first[1] % 2 == 1,
        dts_us: read_u64(first, 2),
        pts_us: read_u64(first, 10),
        len,
    }))
}
