//! Plan words: commands with commas between.

ghost use Rattle.std.specs.Prelude.{◌≡◌, ◌+◌, ◌-◌, ◌*◌, ◌^◌, ◌≤◌, ◌<◌, ◌==◌, nat_le, ◌&&◌, length, IfOk, MatchOption};
ghost use Rattle.sf_meaning.specs.Answers.{Gives};
ghost use Rattle.sf_extract.specs.Plan.{alone, by_letter, command_in, digits, is_digit, number_after, number_in, plan_of};
ghost use Rattle.sf_extract.specs.inner.Times.{IsInTime};
ghost use Rattle.sf_extract.specs.inner.Words.{piece_len};

use crate::plan::{Command, Plan, PlanFault};
use crate::types::Mode;
use std::alloc::Global;

// Whether a byte is a digit.
fn is_digit(b: u8) -> bool
    ensures { result ≡ is_digit b }
{
    b'0' <= b && b <= b'9'
}

// How many digits stand in front.
#[tactic(auto, using(crate::proofs::WordLemmas::digit_more, crate::proofs::WordLemmas::no_digit, crate::proofs::WordLemmas::digits_end))]
fn digits(bytes: &[u8]) -> usize
    ensures exact { result ≡ digits bytes.now }
    ensures most { result ≤ length bytes.now }
{
    for (i, b) in bytes.iter().enumerate() {
        if !is_digit(*b) {
            return i;
        }
    }
    bytes.len()
}

// A number with one digit more, where it isn't too large.
fn with_digit(number: u64, digit: u8) -> Option<u64>
    ensures { MatchOption result (2 ^ 64 ≤ number * 10 + (digit - 48)) (λ n. n ≡ number * 10 + (digit - 48)) }
{
    number
        .checked_mul(10)?
        .checked_add(u64::from(digit.saturating_sub(b'0')))
}

// The number that digits write, where it isn't too large.
#[tactic(auto, using(crate::proofs::WordLemmas::number_grows, crate::proofs::WordLemmas::number_step, crate::proofs::WordLemmas::number_end))]
fn number(bytes: &[u8]) -> Option<u64>
    ensures { MatchOption result (2 ^ 64 ≤ number_after 0 bytes.now) (λ n. n ≡ number_after 0 bytes.now) }
{
    let mut number = 0;
    for b in bytes {
        number = with_digit(number, *b)?;
    }
    Some(number)
}

// The number that bytes write, the first of which stands at a place.
#[tactic(auto, unfolding(crate::specs::Plan::number_in))]
fn number_in(at: u64, bytes: &[u8]) -> Result<u64, PlanFault>
    requires { at + length bytes.now < 2 ^ 63 + 2 ^ 10 }
    ensures exact { result ≡ number_in at bytes.now }
    ensures small { IfOk result (λ n. n < 2 ^ 63) }
{
    let count = digits(bytes);
    if count == 0 {
        return Err(PlanFault::BadWord { at });
    }
    if count >= 20 {
        return Err(PlanFault::BadWord { at: at + 19 });
    }
    let (front, rest) = bytes.split_at(count);
    let Some(number) = number(front) else {
        return Err(PlanFault::BadWord { at });
    };
    if number >= 1 << 63 {
        return Err(PlanFault::BadWord { at });
    }
    if !rest.is_empty() {
        return Err(PlanFault::BadWord {
            at: at + count as u64,
        });
    }
    Ok(number)
}

// A command after which a place with nothing more follows.
fn alone(at: u64, bytes: &[u8], command: Command) -> Result<Command, PlanFault>
    requires { IsInTime command }
    ensures exact { result ≡ alone at bytes.now command }
    ensures time { IfOk result IsInTime }
{
    match bytes {
        [] => Ok(command),
        [_, ..] => Err(PlanFault::BadWord { at }),
    }
}

// The command of a letter at a place.
#[tactic(auto, unfolding(crate::specs::Plan::by_letter))]
fn by_letter(letter: u8, at: u64, bytes: &[u8]) -> Result<Command, PlanFault>
    requires { at + length bytes.now < 2 ^ 63 }
    ensures exact { result ≡ by_letter letter at bytes.now }
    ensures time { IfOk result IsInTime }
{
    match letter {
        b's' => Ok(Command::Select(number_in(at + 1, bytes)?)),
        b'u' => Ok(Command::Unselect(number_in(at + 1, bytes)?)),
        b'p' => Ok(Command::Seek(Mode::Previous, number_in(at + 1, bytes)?)),
        b'n' => Ok(Command::Seek(Mode::Next, number_in(at + 1, bytes)?)),
        b'c' => Ok(Command::Seek(Mode::Closest, number_in(at + 1, bytes)?)),
        b'r' => alone(at + 1, bytes, Command::Read),
        b'a' => alone(at + 1, bytes, Command::Advance),
        b'e' => alone(at + 1, bytes, Command::ToEnd),
        _ => Err(PlanFault::BadWord { at }),
    }
}

// The command that bytes are, the first of which stands at a place.
#[tactic(auto, unfolding(crate::specs::Plan::command_in))]
fn command_in(at: u64, bytes: &[u8]) -> Result<Command, PlanFault>
    requires { at + length bytes.now < 2 ^ 63 }
    ensures exact { result ≡ command_in at bytes.now }
    ensures time { IfOk result IsInTime }
{
    match bytes {
        [] => Err(PlanFault::BadWord { at }),
        [letter, rest @ ..] => by_letter(*letter, at, rest),
    }
}

// How many bytes stand in front of the first comma, or in all.
#[tactic(auto, using(crate::proofs::WordLemmas::len_more, crate::proofs::WordLemmas::len_comma, crate::proofs::WordLemmas::len_end))]
fn piece_len(bytes: &[u8]) -> usize
    ensures exact { result ≡ piece_len bytes.now }
    ensures most { result ≤ length bytes.now }
{
    for (i, b) in bytes.iter().enumerate() {
        if *b == b',' {
            return i;
        }
    }
    bytes.len()
}

/// The plan that a word says: one or more commands with commas between, `sN`, `uN`, `pN`, `nN`, `cN`, `r`,
/// `a` and `e`, where N is 1 to 19 digits with a value of at most 2^63 - 1. It errs at the first byte that
/// can't continue a plan, or at the word's length where it ends too early.
pub fn read_plan(alloc: Global, word: &str) -> Result<Plan, PlanFault>
    ensures { Gives PlanFault.NoMemory (λ plan. plan) result (plan_of word.now) }
{
    let bytes = word.as_bytes();
    let mut plan = Plan::new(alloc);
    let mut at = 0;
    loop {
        let (_, rest) = bytes.split_at(at);
        let (piece, after) = rest.split_at(piece_len(rest));
        match command_in(at as u64, piece) {
            Ok(command) => plan.push(command)?,
            Err(fault) => return Err(fault),
        }
        if after.is_empty() {
            return Ok(plan);
        }
        at += piece.len() + 1;
    }
}
