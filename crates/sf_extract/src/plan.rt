//! Plans: what an extractor is to do, one command after the other.

ghost use Rattle.std.specs.Prelude.{◌≡◌, ◌+◌, ◌<◌, [], ◌∷◌, ◌++◌, length, drop, OnOk, OnErr};
ghost use Rattle.sf_extract.specs.Plan.{is_there, missing_from};
ghost use Rattle.sf_extract.specs.declared.plan.PlanFault.TheVariants.{NoMemory};
ghost use Rattle.sf_extract.specs.inner.Times.{IsInTime};

use crate::types::Mode;
use sf_list::Items;
use sf_movie::Movie;
use std::alloc::{AllocError, Global};
use std::marker::Model;

/// A command of a plan. Tracks count from 0, and times are in microseconds.
#[derive(Clone, Copy, Debug, PartialEq, Eq)]
pub enum Command {
    Select(u64),
    Unselect(u64),
    Seek(Mode, u64),
    Read,
    Advance,
    ToEnd,
}

/// A list of commands, as a plan word says them. The time of a seek is at most 2^63 - 1.
#[derive(Drop)]
pub struct Plan {
    commands: Items<Command>,
}

impl Model for Plan {
    ghost use Rattle.std.specs.Prelude.{List};
    ghost use Rattle.std.specs.List.{AllByRecursion};
    ghost use Rattle.sf_extract.specs.declared.plan.Command.{Command};
    ghost use Rattle.sf_extract.specs.inner.Times.{IsInTime};

    ghost Value = { List Command };

    ghost view = { λ p. p.commands };

    ghost invariant = { λ p. AllByRecursion IsInTime p.commands };
}

impl Plan {
    /// A plan without commands. It takes no memory.
    pub(crate) fn new(alloc: Global) -> Plan
        ensures { result ≡ [] }
    {
        Plan {
            commands: Items::new(alloc),
        }
    }

    /// Lends the commands.
    pub fn as_slice(&self) -> &[Command]
        ensures { result.now ≡ self.now }
    {
        self.commands.as_slice()
    }

    /// The number of commands.
    pub(crate) fn len(&self) -> usize
        ensures { result ≡ length self.now }
    {
        self.commands.len()
    }

    /// The command of a number, from 0.
    pub(crate) fn command(&self, k: usize) -> Command
        requires { k < length self.now }
        ensures at { drop k self.now ≡ result ∷ drop (k + 1) self.now }
        ensures time { IsInTime result }
    {
        self.commands.as_slice()[k]
    }

    /// Puts a command at the end.
    pub(crate) fn push(&mut self, command: Command) -> Result<(), AllocError>
        requires { IsInTime command }
        ensures ok { OnOk result (self.new ≡ self.old ++ command ∷ []) }
        ensures err { OnErr result (self.new ≡ self.old) }
    {
        self.commands.push(command)?;
        Ok(())
    }
}

/// Why a word isn't a plan.
#[derive(Clone, Copy, Debug, PartialEq, Eq)]
pub enum PlanFault {
    /// The byte at this place can't continue a plan, or the word ends too early there.
    BadWord { at: u64 },
    NoMemory,
}

impl From<AllocError> for PlanFault {
    ghost from_gives = { λ _ fault. fault ≡ NoMemory };

    fn from(_error: AllocError) -> PlanFault {
        PlanFault::NoMemory
    }
}

// Whether a command names no track but one of so many.
fn is_there(tracks: u32, command: Command) -> bool
    ensures { result ≡ is_there tracks command }
{
    match command {
        Command::Select(t) => t < u64::from(tracks),
        Command::Unselect(t) => t < u64::from(tracks),
        Command::Seek(_, _) => true,
        Command::Read => true,
        Command::Advance => true,
        Command::ToEnd => true,
    }
}

/// The number of the first command, from 0, that names a track which the movie doesn't have.
#[tactic(auto, using(crate::proofs::WordLemmas::none_missing))]
pub fn missing_track(plan: &Plan, movie: &Movie) -> Option<u64>
    ensures { result ≡ missing_from (length movie.now.movie.tracks) 0 plan.now }
{
    let tracks = movie.track_count();
    for (k, command) in plan.as_slice().iter().enumerate() {
        if !is_there(tracks, *command) {
            return Some(k as u64);
        }
    }
    None
}
