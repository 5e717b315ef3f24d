//! The pieces in which a file is written.

ghost use Rattle.std.specs.Prelude.{◌≡◌, ◌+◌, ◌*◌, ◌^◌, ◌≤◌, ◌<◌, length, Err, OnOk, OnErr, IfOk};
ghost use Rattle.std.specs.List.{AllByRecursion};
ghost use Rattle.sf_world.specs.Counts.{Rose};
ghost use Rattle.sf_world.specs.Views.{Gains, GainsPart};
ghost use Rattle.sf_layout.specs.Layout.{stored_bytes};
ghost use Rattle.sf_file.specs.FileHead.{file_head};

use crate::faults::FileFault;
use sf_list::Bytes;
use sf_tick::Stored;
use sf_world::{Denied, Sink};
use std::alloc::{AllocError, Global};

/// What stands in front of the samples of a file that isn't closed: the file type box (the brand mp42,
/// version 0, and that the file is also isom), and the head of the media data box, whose size stands
/// in eight bytes (ISO/IEC 14496-12, 4.2, 4.3, 8.1.1).
const HEAD: [u8; 40] = *b"\0\0\0\x18ftypmp42\0\0\0\0isommp42\0\0\0\x01mdat\0\0\0\0\0\0\0\x10";

/// Those bytes.
#[tactic(auto, unfolding(crate::specs::FileHead::file_head, sf_box::specs::Boxes::box_of, sf_box::specs::Boxes::be32, sf_box::specs::Boxes::be64))]
pub(crate) fn file_head() -> [u8; 40]
    ensures { result ≡ file_head 16 }
{
    HEAD
}

/// Puts bytes at the end of a sink. After an error some first part of them stands there.
pub(crate) fn put<S: Sink>(sink: &mut S, bytes: &[u8]) -> Result<(), FileFault>
    ensures ok { OnOk result (Gains bytes.now (S.seen sink.old) (S.seen sink.new)) }
    ensures part { OnErr result (GainsPart bytes.now (S.seen sink.old) (S.seen sink.new)) }
    ensures no_memory { result ≡ Err FileFault.NoMemory → S.seen sink.new ≡ S.seen sink.old }
    ensures longer { (S.seen sink.old).size ≤ (S.seen sink.new).size }
    ensures later { (S.seen sink.old).faults ≤ (S.seen sink.new).faults }
    ensures failed { result ≡ Err FileFault.WriteFault → Rose (S.seen sink.old).faults (S.seen sink.new).faults }
{
    match sink.append(bytes) {
        Ok(()) => Ok(()),
        Err(Denied::Failed) => Err(FileFault::WriteFault),
        Err(Denied::NoMemory) => Err(FileFault::NoMemory),
    }
}

/// The samples' bytes, one after the other without gaps.
pub(crate) fn chunk_bytes(alloc: Global, samples: &[Stored]) -> Result<Bytes, AllocError>
    ensures { IfOk result (λ b. b ≡ stored_bytes samples.now) }
{
    let mut out = Bytes::new(alloc);
    for sample in samples {
        out.append(sample.bytes.as_slice())?;
    }
    Ok(out)
}

/// How many bytes the samples have together.
pub(crate) fn bytes_of(samples: &[Stored]) -> u64
    requires few { length samples.now < 2 ^ 32 }
    requires short { AllByRecursion (λ s. length s.bytes ≤ 2 ^ 25) samples.now }
    ensures exact { result ≡ length (stored_bytes samples.now) }
    ensures bound { result ≤ 2 ^ 25 * length samples.now }
{
    let mut total = 0u64;
    for sample in samples {
        total += sample.bytes.len() as u64;
    }
    total
}
