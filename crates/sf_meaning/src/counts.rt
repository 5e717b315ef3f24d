//! How many entries a table holds.

ghost use Rattle.std.specs.Prelude.{◌≡◌, ◌+◌, ◌*◌, ◌≤◌, length, Ok, Err, IfOk, IfErr};
ghost use Rattle.sf_meaning.specs.Steps.{boxed};
ghost use Rattle.sf_meaning.specs.SampleTables.{counted};
ghost use Rattle.sf_meaning.specs.Tables.{count_in};

use crate::faults::TableFault;
use sf_box::{BoxHead, read_u32};

/// How many entries of so many bytes a table holds, whose body has its version and flags, the count, and
/// the entries.
#[tactic(auto, unfolding(crate::specs::SampleTables::counted))]
pub(crate) fn counted(width: u32, head: BoxHead, body: &[u8]) -> Result<u32, TableFault>
    requires { width ≤ 12 }
    ensures held { IfOk result (λ _. counted width (boxed head body.now) ≡ Ok tt) }
    ensures count { IfOk result (λ n. n ≡ count_in body.now) }
    ensures long { IfOk result (λ n. 8 + width * n ≤ length body.now) }
    ensures short { IfErr result (λ e. counted width (boxed head body.now) ≡ Err e) }
{
    let short = TableFault::Short {
        kind: head.kind,
        at: head.at,
    };
    if body.len() < 8 {
        return Err(short);
    }
    let count = read_u32(body, 4);
    if (body.len() as u64) < 8 + u64::from(width) * u64::from(count) {
        return Err(short);
    }
    Ok(count)
}
