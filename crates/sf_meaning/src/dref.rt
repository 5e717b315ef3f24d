//! The data reference box (ISO/IEC 14496-12, 8.7.2), as it is read.

ghost use Rattle.std.specs.Prelude.{◌≡◌, ◌+◌, ◌^◌, ◌<◌, length};
ghost use Rattle.sf_meaning.specs.Answers.{Gives};
ghost use Rattle.sf_meaning.specs.inner.Found.{pieces};
ghost use Rattle.sf_meaning.specs.References.{own_files, references_in};
ghost use Rattle.sf_meaning.specs.Steps.{boxed};

use crate::faults::HeadFault;
use crate::found::Found;
use crate::heads::boxes_at;
use sf_box::{BoxHead, read_u32};
use sf_list::Items;
use std::alloc::Global;

// For each data reference, whether it names this very file.
#[tactic(auto, unfolding(crate::specs::References::own_files))]
fn own_files(alloc: Global, entries: &[Found<'_>]) -> Result<Items<bool>, HeadFault>
    ensures { Gives HeadFault.NoMemory (λ own. own) result (own_files (pieces entries.now)) }
{
    let mut own = Items::new(alloc);
    for entry in entries {
        if entry.body.len() < 4 {
            return Err(HeadFault::Short {
                kind: entry.head.kind,
                at: entry.head.at,
            });
        }
        own.push(read_u32(entry.body, 0) % 2 == 1)?;
    }
    Ok(own)
}

/// For each data reference of a data reference box, whether it names this very file, or the first thing
/// that is wrong with them.
#[tactic(auto, unfolding(crate::specs::References::references_in))]
pub fn read_dref(alloc: Global, head: BoxHead, body: &[u8]) -> Result<Items<bool>, HeadFault>
    requires { head.at + head.head + length body.now < 2 ^ 64 }
    ensures { Gives HeadFault.NoMemory (λ own. own) result (references_in (boxed head body.now)) }
{
    if body.len() < 8 {
        return Err(HeadFault::Short {
            kind: head.kind,
            at: head.at,
        });
    }
    let (_, bytes) = body.split_at(8);
    let entries = boxes_at(alloc, bytes, head.at + head.head + 8)?;
    own_files(alloc, entries.as_slice())
}
