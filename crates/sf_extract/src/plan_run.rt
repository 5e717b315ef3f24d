//! The run of a plan, and the dump that it makes.

ghost use Rattle.std.specs.Prelude.{◌≡◌, ◌+◌, ◌≤◌, ◌<◌, ◌++◌, ◌∷◌, [], ℕ, List, true, false, is_some, length, drop, None, Some, Ok, Err, IfOk, OnOk, OnErr};
ghost use Rattle.sf_extract.specs.Current.{current, stored_len, unmoved};
ghost use Rattle.sf_extract.specs.Readout.{before, ended_by};
ghost use Rattle.sf_extract.specs.Runs.{GoesOn, Needs, PutsRecord, Stores, after_read, given_now, reads_first, rest_of, weight};
ghost use Rattle.sf_extract.specs.declared.types.BadSample.{BadSample};
ghost use Rattle.sf_extract.specs.inner.Acts.{IsDone, IsHeld, Starts};
ghost use Rattle.sf_extract.specs.inner.Times.{IsInTime};

use crate::extractor::Extractor;
use crate::plan::{Command, Plan};
use crate::record::put_record;
use crate::types::{GiveFault, Turn};
use sf_list::Bytes;
use sf_movie::Movie;
use std::alloc::{AllocError, Global};
use std::marker::Model;

/// A plan that is carried out over a movie.
#[derive(Drop)]
pub struct PlanRun<'a> {
    extractor: Extractor<'a>,
    plan: Plan,
    next: usize,
}

impl<'a> Model for PlanRun<'a> {
    ghost use Rattle.std.specs.Prelude.{◌≤◌, drop, length};
    ghost use Rattle.sf_extract.specs.Runs.{Running};

    ghost Value = { Running };

    ghost view = { λ r. record { at = r.extractor; left = drop r.next r.plan } };

    ghost invariant = { λ r. r.next ≤ length r.plan };
}

// Puts the byte 00 at the end where there is no current sample, and says whether that is so.
fn put_end<'a>(extractor: &Extractor<'a>, out: &mut Bytes) -> Result<bool, AllocError>
    ensures none { IfOk result (λ done. done ≡ true → (current extractor.now ≡ None) × (out.new ≡ out.old ++ 0 ∷ [])) }
    ensures some { IfOk result (λ done. done ≡ false → (is_some (current extractor.now) ≡ true) × (out.new ≡ out.old)) }
    ensures err { OnErr result (out.new ≡ out.old) }
{
    if extractor.current().is_some() {
        return Ok(false);
    }
    out.append(&[0])?;
    Ok(true)
}

// Carries out a command, unless it reads the current sample: then the answer is false.
#[tactic(auto, using(crate::proofs::RunLemmas::selected_loaded, crate::proofs::RunLemmas::unselected_loaded, crate::proofs::RunLemmas::seeked_loaded, crate::proofs::RunLemmas::advanced_loaded))]
fn act<'a>(
    extractor: &mut Extractor<'a>,
    command: Command,
    out: &mut Bytes,
) -> Result<bool, AllocError>
    requires { IsInTime command }
    ensures done { IfOk result (λ done. done ≡ true → IsDone command out.old out.new extractor.old extractor.new) }
    ensures held { IfOk result (λ done. done ≡ false → IsHeld command out.old out.new extractor.old extractor.new) }
    ensures loaded { extractor.new.loaded ≡ extractor.old.loaded }
    ensures err { OnErr result (Starts out.old out.new) }
{
    match command {
        Command::Select(t) => extractor.select_any(t),
        Command::Unselect(t) => extractor.unselect_any(t),
        Command::Seek(mode, us) => extractor.seek(us as i64, mode),
        Command::Read => return put_end(extractor, out),
        Command::Advance => {
            let remains = extractor.advance();
            out.append(&[2, u8::from(remains)])?;
        }
        Command::ToEnd => return put_end(extractor, out),
    }
    Ok(true)
}

// Carries out the commands of a plan from a number on, up to the first one that reads a sample, and answers the
// number of that one, or at the end how many commands there are.
fn carry_out<'a>(
    extractor: &mut Extractor<'a>,
    plan: &Plan,
    from: usize,
    out: &mut Bytes,
) -> Result<usize, AllocError>
    requires { from ≤ length plan.now }
    ensures most { IfOk result (λ n. n ≤ length plan.now) }
    ensures done { IfOk result (λ n. GoesOn out.old out.new (record { at = extractor.old; left = drop from plan.now }) (record { at = extractor.new; left = drop n plan.now })) }
    ensures reads { IfOk result (λ n. n < length plan.now → (reads_first (drop n plan.now) ≡ true) × (is_some (current extractor.new) ≡ true)) }
    ensures loaded { extractor.new.loaded ≡ extractor.old.loaded }
    ensures err { OnErr result (Starts out.old out.new) }
{
    let mut n = from;
    while n < plan.len() {
        let done = act(extractor, plan.command(n), out)?;
        if !done {
            return Ok(n);
        }
        n += 1;
    }
    Ok(n)
}

impl<'a> PlanRun<'a> {
    /// A run of a plan over a movie, of which no track is selected. A command that names a track which isn't
    /// there changes nothing.
    pub fn new(alloc: Global, movie: &'a Movie, plan: Plan) -> Result<PlanRun<'a>, AllocError>
        ensures at { IfOk result (λ r. r.at ≡ unmoved movie.now) }
        ensures left { IfOk result (λ r. r.left ≡ plan) }
    {
        let extractor = Extractor::new(alloc, movie)?;
        Ok(PlanRun {
            extractor,
            plan,
            next: 0,
        })
    }

    // What the run needs next.
    fn turn(&self) -> Turn
        requires { 0 < length self.now.left → (reads_first self.now.left ≡ true) × (is_some (current self.now.at) ≡ true) }
        ensures { Needs result self.now }
    {
        if self.next >= self.plan.len() {
            return Turn::Done;
        }
        match self.extractor.place() {
            Some(place) => Turn::Read(place),
            None => Turn::Done,
        }
    }

    /// Carries out the commands up to the next one that reads a sample, and puts the dump up to there at the
    /// end. It answers where the bytes of that sample lie, or that the plan is over. Without memory all is as
    /// before.
    #[tactic(auto, using(crate::proofs::RunLemmas::put_back_same, crate::proofs::RunLemmas::seats_kept))]
    pub fn step(&mut self, out: &mut Bytes) -> Result<Turn, AllocError>
        ensures on { OnOk result (GoesOn out.old out.new self.old self.new) }
        ensures needs { IfOk result (λ turn. Needs turn self.new) }
        ensures err { OnErr result (self.new ≡ self.old) }
        ensures out { OnErr result (out.new ≡ out.old) }
    {
        let seats = self.extractor.seats()?;
        let len = out.len();
        match carry_out(&mut self.extractor, &self.plan, self.next, out) {
            Ok(n) => {
                self.next = n;
                Ok(self.turn())
            }
            Err(error) => {
                self.extractor.put_back(seats);
                out.cut(len);
                Err(error)
            }
        }
    }

    // Goes on after the current sample was read.
    fn go_on(&mut self)
        requires { reads_first self.old.left ≡ true }
        ensures { self.new ≡ after_read self.old.at self.old.left }
    {
        match self.plan.as_slice().get(self.next) {
            Some(Command::ToEnd) => {
                let _remains = self.extractor.advance();
            }
            Some(Command::Read) => self.next += 1,
            _ => {}
        }
    }

    /// Puts the record of the current sample, whose stored bytes these are, at the end, and goes on. It errs
    /// where the sample is refused; then, and without memory, all is as before.
    pub fn give(&mut self, stored: &[u8], out: &mut Bytes) -> Result<(), GiveFault>
        requires reads { reads_first self.old.left ≡ true }
        requires size { stored_len self.old.at ≡ Some (length stored.now) }
        ensures put { PutsRecord out.old out.new (given_now self.old.at stored.now) result }
        ensures on { OnOk result (self.new ≡ after_read self.old.at self.old.left) }
        ensures rest { OnOk result ((file : List ℕ) → Stores file self.old.at stored.now → before out.new (rest_of file self.new) ≡ before out.old (rest_of file self.old)) }
        ensures bad { (bad : BadSample) → result ≡ Err (GiveFault.Bad bad) → (file : List ℕ) → Stores file self.old.at stored.now → rest_of file self.old ≡ ended_by bad }
        ensures err { OnErr result (self.new ≡ self.old) }
        ensures lighter { OnOk result (weight self.new < weight self.old) }
    {
        match put_record(&self.extractor, stored, out) {
            Ok(()) => {
                self.go_on();
                Ok(())
            }
            Err(fault) => Err(fault),
        }
    }
}
