//! The command `make`.

ghost use Rattle.std.specs.Prelude.{◌≡◌, ◌≤◌, string_bytes, IfOk};
ghost use Rattle.sf_app.specs.AnswerText.{TellsDone};
ghost use Rattle.sf_app.specs.MakeEnds.{MakeEnds, dump_line, made_lines, summary_line, summary_lines};
ghost use Rattle.sf_app.specs.Outside.{outside_of};
ghost use Rattle.sf_selftest.specs.SelfTest.{IsTested};
ghost use Rattle.sf_selftest.specs.declared.summary.Summary.{Summary};
ghost use Rattle.sf_words.specs.Ranges.{IsMakable};
ghost use Rattle.sf_world.specs.Views.{InputsView, ShelfView};

use super::Status;
use super::answer_text::put_answer;
use sf_selftest::{Summary, TrackSummary, self_test};
use sf_words::MakeAsked;
use sf_world::{Denied, Sink};
use std::alloc::{AllocError, Global};
use std::fmt::Write;

// The line of a track of a number.
#[tactic(auto, unfolding(crate::specs::MakeEnds::summary_line))]
fn summary_line(alloc: Global, number: usize, track: &TrackSummary) -> Result<String, AllocError>
    ensures { IfOk result (λ line. string_bytes line ≡ summary_line number track.now) }
{
    let TrackSummary {
        samples,
        syncs,
        stored,
        last,
    } = *track;
    let mut line = format!(in alloc; "track {number} {samples} {syncs} ")?;
    write!(line, "{stored} {last}\n")?;
    Ok(line)
}

// The lines of tracks.
fn summary_lines(alloc: Global, tracks: &[TrackSummary]) -> Result<String, AllocError>
    ensures { IfOk result (λ lines. string_bytes lines ≡ summary_lines 0 tracks.now) }
{
    let mut lines = String::new(alloc);
    for number in 0..tracks.len() {
        let line = summary_line(alloc, number, &tracks[number])?;
        lines.push_str(line.as_str())?;
    }
    Ok(lines)
}

// The lines of a self-test.
#[tactic(auto, unfolding(crate::specs::MakeEnds::dump_line))]
fn made_lines(alloc: Global, summary: &Summary) -> Result<String, AllocError>
    ensures { IfOk result (λ lines. string_bytes lines ≡ made_lines summary.now) }
{
    let dump = summary.dump;
    let mut lines = summary_lines(alloc, summary.tracks.as_slice())?;
    write!(lines, "dump {dump}\n")?;
    Ok(lines)
}

// Puts lines into a text.
fn tell_lines<T: Sink>(text: &mut T, lines: &str) -> Status
    ensures { TellsDone lines.now result (T.seen text.old) (T.seen text.new) }
{
    match text.append(lines.as_bytes()) {
        Ok(()) => Status::Done,
        Err(Denied::Failed) => Status::WriteFault,
        Err(Denied::NoMemory) => Status::NoMemory,
    }
}

// The lines of a self-test that is run now.
fn tested_lines(alloc: Global, count: u32, tracks: u32) -> Result<String, AllocError>
    requires samples { count ≤ 200000 }
    requires least { 1 ≤ tracks }
    requires most { tracks ≤ 8 }
    ensures { IfOk result (λ lines. (summary : Summary) × IsTested count tracks summary × (string_bytes lines ≡ made_lines summary)) }
{
    let summary = self_test(alloc, count, tracks)?;
    made_lines(alloc, &summary)
}

/// Makes a movie in memory of so many generated samples of each of so many tracks, reads it back, and tells what was read.
#[tactic(auto, using(crate::proofs::Making::done_unless, crate::proofs::Extracting::says_by))]
pub(crate) fn run_make<T: Sink>(alloc: Global, asked: &MakeAsked, text: &mut T) -> Status
    requires { IsMakable asked.now }
    ensures { (inputs : InputsView) (shelf : ShelfView) → MakeEnds asked.now.count asked.now.tracks result (outside_of inputs shelf (T.seen text.old)) (outside_of inputs shelf (T.seen text.new)) }
{
    match tested_lines(alloc, asked.count as u32, asked.tracks as u32) {
        Ok(lines) => tell_lines(text, lines.as_str()),
        Err(_) => {
            let _put = put_answer(alloc, text, &Status::NoMemory);
            Status::NoMemory
        }
    }
}
