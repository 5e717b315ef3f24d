//! Runs of equal neighbours, written as they close (8.6.1.2, 8.6.1.3).

ghost use Rattle.std.specs.Prelude.{◌≡◌, ℕ, ◌+◌, ◌^◌, ◌<◌, ◌≤◌, List, ◌∷◌, ◌++◌, length, replicate, take, OnOk, IfOk};
ghost use Rattle.std.specs.List.{flat_map};
ghost use Rattle.sf_meaning.specs.Stbl.{run_bytes, runs_of};

use sf_box::put_u32;
use sf_list::Bytes;
use std::alloc::AllocError;

/// The run that isn't written yet: so many times this value.
#[derive(Clone, Copy)]
pub(crate) struct OpenRun {
    pub count: u32,
    pub value: u32,
}

// Puts a run at the end.
fn put_run(out: &mut Bytes, run: OpenRun) -> Result<(), AllocError>
    ensures ok { OnOk result (out.new ≡ out.old ++ run_bytes (run.count, run.value)) }
    ensures grows { take (length out.old) out.new ≡ out.old }
{
    put_u32(out, run.count)?;
    put_u32(out, run.value)
}

/// Takes the next value. Where it isn't that of the open run, that run is written.
pub(crate) fn take_value(out: &mut Bytes, run: OpenRun, value: u32) -> Result<OpenRun, AllocError>
    requires { run.count + 1 < 2 ^ 32 }
    ensures ok { IfOk result (λ next. (rest : List ℕ) → out.new ++ flat_map run_bytes (runs_of (replicate next.count next.value ++ rest))
        ≡ out.old ++ flat_map run_bytes (runs_of (replicate run.count run.value ++ value ∷ rest))) }
    ensures count { IfOk result (λ next. next.count ≤ run.count + 1) }
    ensures grows { take (length out.old) out.new ≡ out.old }
{
    if run.count == 0 || value == run.value {
        return Ok(OpenRun {
            count: run.count + 1,
            value,
        });
    }
    put_run(out, run)?;
    Ok(OpenRun { count: 1, value })
}

/// Writes the open run, where there is one.
pub(crate) fn end_run(out: &mut Bytes, run: OpenRun) -> Result<(), AllocError>
    ensures ok { OnOk result (out.new ≡ out.old ++ flat_map run_bytes (runs_of (replicate run.count run.value))) }
    ensures grows { take (length out.old) out.new ≡ out.old }
{
    if run.count == 0 {
        return Ok(());
    }
    put_run(out, run)
}
