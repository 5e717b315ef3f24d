ghost use Rattle.std.specs.Prelude.{◌≡◌, ℕ, ◌+◌, ◌-◌, ◌^◌, ◌≤◌, ◌<◌, min, length, OnOk, IfOk, IfErr, ◌⊎◌};
ghost use Rattle.sf_coded.specs.declared.types.CodedFault.TheVariants.{ReadFault, NoMemory};
ghost use Rattle.sf_coded.specs.inner.Window.{AreFrom};
ghost use Rattle.sf_coded.specs.Progress.{ReadOn};
ghost use Rattle.sf_coded.specs.inner.Steps.{TurnTold, TurnFits, HeaderTold, HeaderFits, SetupTold, SetupFits};

use crate::blocks::{Blocks, zeros};
use crate::fields::{Header, Turn, read_header, read_record};
use crate::types::CodedFault;
use sf_list::Bytes;
use sf_tick::Setup;
use sf_world::Source;
use std::alloc::Global;

/// The bytes from a place on, which the source has.
pub fn bytes_at<S: Source>(
    blocks: &mut Blocks<S>,
    alloc: Global,
    at: u64,
    len: u32,
) -> Result<Bytes, CodedFault>
    requires { at + len ≤ blocks.old.size }
    ensures len { IfOk result (λ b. length b ≡ len) }
    ensures bytes { IfOk result (λ b. AreFrom blocks.old.content at b) }
    ensures fault { IfErr result (λ f. (f ≡ ReadFault) ⊎ (f ≡ NoMemory)) }
    ensures source { ReadOn blocks.old blocks.new result }
{
    let mut bytes = zeros(alloc, len as usize)?;
    blocks.read(at, &mut bytes)?;
    Ok(Bytes::from_vec(bytes))
}

/// What stands at a place of the records.
pub fn turn_at<S: Source>(blocks: &mut Blocks<S>, at: u64) -> Result<Turn, CodedFault>
    requires { at ≤ blocks.old.size }
    ensures told { TurnTold blocks.old.content at result }
    ensures fits { IfOk result (λ turn. TurnFits at blocks.old.size turn) }
    ensures source { ReadOn blocks.old blocks.new result }
{
    let room = blocks.size() - at;
    let mut fields = [0u8; 22];
    let count = room.min(22) as usize;
    let first = &mut fields[..count];
    blocks.read(at, first)?;
    read_record(first, at, room)
}

// The fields of the header.
fn header_at<S: Source>(blocks: &mut Blocks<S>) -> Result<Header, CodedFault>
    ensures told { HeaderTold blocks.old.content result }
    ensures fits { IfOk result (λ h. HeaderFits blocks.old.size h) }
    ensures source { ReadOn blocks.old blocks.new result }
{
    let size = blocks.size();
    let mut fields = [0u8; 22];
    let count = size.min(22) as usize;
    let first = &mut fields[..count];
    blocks.read(0, first)?;
    read_header(first, size)
}

/// The setup that the header states.
pub fn read_setup<S: Source>(blocks: &mut Blocks<S>, alloc: Global) -> Result<Setup, CodedFault>
    ensures told { SetupTold blocks.old.content result }
    ensures fits { IfOk result (λ setup. SetupFits blocks.old.size setup) }
    ensures source { ReadOn blocks.old blocks.new result }
{
    let header = header_at(blocks)?;
    let config = bytes_at(blocks, alloc, 22, header.config_len)?;
    Ok(Setup {
        kind: header.kind,
        scale: header.scale,
        width: header.width,
        height: header.height,
        channels: header.channels,
        config,
    })
}
