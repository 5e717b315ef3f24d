ghost use Rattle.std.specs.Prelude.{◌≡◌, ◌↔◌, ◌^◌, ◌<◌, [], ◌∷◌, ◌++◌, IsTrue, OnOk, OnErr};
ghost use Rattle.sf_world.specs.Counts.{both};

use std::alloc::AllocError;

/// Numbers the calls of an object from 0, knows which of them fail, and counts the faults.
#[derive(Drop)]
pub(crate) struct Calls {
    failing: Vec<u64>,
    next: u64,
    faults: u64,
    ghost counted: { faults < 2 ^ 64 },
}

impl Calls {
    ghost use Rattle.sf_world.specs.inner.CallNumbers.{CallFailed, CallPassed, NextFails};

    /// No call was made yet.
    pub(crate) fn new(failing: Vec<u64>) -> Calls
        ensures failing { result.failing.items ≡ failing.items }
        ensures next { result.next ≡ 0 }
        ensures faults { result.faults ≡ 0 }
    {
        Calls {
            failing,
            next: 0,
            faults: 0,
        }
    }

    /// Whether the next call is to fail.
    pub(crate) fn next_fails(&self) -> bool
        ensures { IsTrue result ↔ NextFails self.now }
    {
        self.failing.contains(&self.next)
    }

    /// Counts a call that passes.
    pub(crate) fn pass(&mut self)
        requires { ¬ NextFails self.old }
        ensures { CallPassed self.old self.new }
    {
        self.next = self.next.saturating_add(1);
    }

    /// Counts a call that fails.
    pub(crate) fn fail(&mut self)
        requires { NextFails self.old }
        ensures { CallFailed self.old self.new }
    {
        self.next = self.next.saturating_add(1);
        self.faults = self.faults.saturating_add(1);
    }

    /// Lets the call of a number fail too.
    pub(crate) fn add_failing(&mut self, call: u64) -> Result<(), AllocError>
        ensures ok { OnOk result (self.new.failing.items ≡ self.old.failing.items ++ call ∷ []) }
        ensures err { OnErr result (self.new.failing.items ≡ self.old.failing.items) }
        ensures next { self.new.next ≡ self.old.next }
        ensures faults { self.new.faults ≡ self.old.faults }
    {
        self.failing.push(call)?;
        Ok(())
    }

    /// Adds the faults of another object, up to the last value.
    pub(crate) fn add(&mut self, faults: u64)
        ensures failing { self.new.failing.items ≡ self.old.failing.items }
        ensures next { self.new.next ≡ self.old.next }
        ensures faults { self.new.faults ≡ both self.old.faults faults }
    {
        self.faults = self.faults.saturating_add(faults);
    }

    /// The faults so far.
    pub(crate) fn faults(&self) -> u64
        ensures { result ≡ self.now.faults }
    {
        self.faults
    }
}
