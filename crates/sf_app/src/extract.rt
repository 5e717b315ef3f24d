//! The command `extract`.

ghost use Rattle.std.specs.Prelude.{◌≡◌, ◌≢◌, ℕ, ◌≤◌, List, length, Some, Ok, IfOk, IfErr, MatchResult};
ghost use Rattle.sf_app.specs.AnswerText.{Answered, TellsDone, dump_lines};
ghost use Rattle.sf_app.specs.ExtractEnds.{ExtractEnds, Extracts, PlansEnd, ReadsOut, answer_for};
ghost use Rattle.sf_app.specs.Outside.{KeepInputs, outside_of};
ghost use Rattle.sf_app.specs.Plans.{plans_from};
ghost use Rattle.sf_app.specs.inner.Extraction.{NotRead, answered, extraction, unread};
ghost use Rattle.sf_world.specs.Counts.{Rose};

use super::answer_text::{put_answer, put_dumps, told};
use super::{Status, UsageFault};
use sf_extract::{Plan, PlanFault, read_plan};
use sf_list::{Items, Text};
use sf_reader::{ExtractOutcome, extract_direct, files_are_read_out};
use sf_words::ExtractAsked;
use sf_world::{Denied, Inputs, Shelf, Sink};
use std::alloc::Global;

// The answer where the word of a plan isn't read.
fn unread(reader: u32, fault: PlanFault) -> Status
    ensures { result ≡ unread reader fault }
{
    match fault {
        PlanFault::BadWord { at } => Status::Usage(UsageFault::PlanWord { reader, at }),
        PlanFault::NoMemory => Status::NoMemory,
    }
}

// The plans that words say, or the first word that isn't one.
fn read_plans(alloc: Global, words: &[Text]) -> Result<Vec<Plan>, Status>
    requires few { length words.now ≤ 16 }
    ensures read { MatchResult result (λ plans. plans_from 0 words.now ≡ Ok plans.items) (NotRead (plans_from 0 words.now)) }
    ensures count { IfOk result (λ plans. length plans.items ≡ length words.now) }
{
    let Ok(mut plans) = Vec::with_capacity(alloc, words.len()) else {
        return Err(Status::NoMemory);
    };
    for number in 0..words.len() {
        match read_plan(alloc, words[number].as_str()) {
            Ok(plan) => plans.push_reserved(plan),
            Err(fault) => return Err(unread(number as u32, fault)),
        }
    }
    Ok(plans)
}

// The lengths of the dumps of an extraction that is done, or the answer of another one.
fn lengths_of(outcome: ExtractOutcome, lengths: Items<u64>) -> Result<Items<u64>, Status>
    ensures { result ≡ answered outcome lengths }
{
    match outcome {
        ExtractOutcome::Done => Ok(lengths),
        ExtractOutcome::Refused(fault) => Err(Status::MovieRefused(fault)),
        ExtractOutcome::NoTrack { reader, command } => Err(Status::PlanRefused { reader, command }),
        ExtractOutcome::BadSample {
            reader,
            track,
            sample,
            at,
        } => Err(Status::SampleRefused {
            reader,
            track,
            sample,
            at,
        }),
        ExtractOutcome::ReadFault => Err(Status::ReadFault { input: 0 }),
        ExtractOutcome::WriteFault => Err(Status::WriteFault),
        ExtractOutcome::NoMemory => Err(Status::NoMemory),
    }
}

// Fetches the movie of a name, reads the plans out of it, and gives its source back.
fn extract_plans<I: Inputs, O: Shelf>(
    alloc: Global,
    inputs: &mut I,
    asked: &ExtractAsked,
    plans: Vec<Plan>,
    shelf: &mut O,
) -> Result<Items<u64>, Status>
    requires some { 1 ≤ length plans.items }
    requires few { length plans.items ≤ 16 }
    ensures extracts { Extracts (extraction asked.now plans.items) result (I.seen inputs.old) (I.seen inputs.new) (O.seen shelf.old) (O.seen shelf.new) }
    ensures inputs { KeepInputs (I.seen inputs.old) (I.seen inputs.new) }
    ensures done { IfOk result (λ lengths. (file : List ℕ) → (I.seen inputs.old).holds asked.now.movie ≡ Some file
        → ReadsOut file (extraction asked.now plans.items) (O.seen shelf.old) (O.seen shelf.new)) }
    ensures other { IfErr result (λ status. status ≢ Status.Done) }
    ensures complete { (file : List ℕ) → (I.seen inputs.old).holds asked.now.movie ≡ Some file
        → ¬ Rose (I.seen inputs.old).misses (I.seen inputs.new).misses → ¬ Rose (I.seen inputs.old).faults (I.seen inputs.new).faults
        → ¬ Rose (O.seen shelf.old).faults (O.seen shelf.new).faults → Answered result (answer_for file plans.items) }
{
    files_are_read_out();
    let source = match inputs.fetch(asked.movie.as_str()) {
        Ok(source) => source,
        Err(Denied::Failed) => return Err(Status::OpenFault { input: 0 }),
        Err(Denied::NoMemory) => return Err(Status::NoMemory),
    };
    let end = extract_direct(alloc, source, plans, asked.out.as_str(), shelf);
    inputs.give_back(end.source);
    lengths_of(end.outcome, end.dumps)
}

// Tells that an extraction is done.
fn tell_dumps<T: Sink>(alloc: Global, text: &mut T, lengths: &Items<u64>) -> Status
    ensures { TellsDone (dump_lines lengths.now) result (T.seen text.old) (T.seen text.new) }
{
    told(put_dumps(alloc, text, lengths))
}

// Reads plans out of the movie of a name, each into a dump, and tells how it went.
fn run_plans<I: Inputs, O: Shelf, T: Sink>(
    alloc: Global,
    inputs: &mut I,
    asked: &ExtractAsked,
    plans: Vec<Plan>,
    shelf: &mut O,
    text: &mut T,
) -> Status
    requires some { 1 ≤ length plans.items }
    requires few { length plans.items ≤ 16 }
    ensures { PlansEnd (extraction asked.now plans.items) result (outside_of (I.seen inputs.old) (O.seen shelf.old) (T.seen text.old))
        (outside_of (I.seen inputs.new) (O.seen shelf.new) (T.seen text.new)) }
{
    match extract_plans(alloc, inputs, asked, plans, shelf) {
        Ok(lengths) => tell_dumps(alloc, text, &lengths),
        Err(status) => {
            let _put = put_answer(alloc, text, &status);
            status
        }
    }
}

/// Reads the plans that words say out of the movie of a name, each into a dump, and tells how it went. The words are read
/// before the movie is fetched.
pub(crate) fn run_extract<I: Inputs, O: Shelf, T: Sink>(
    alloc: Global,
    inputs: &mut I,
    asked: &ExtractAsked,
    shelf: &mut O,
    text: &mut T,
) -> Status
    requires some { 1 ≤ length asked.now.plans }
    requires few { length asked.now.plans ≤ 16 }
    ensures { ExtractEnds asked.now result (outside_of (I.seen inputs.old) (O.seen shelf.old) (T.seen text.old))
        (outside_of (I.seen inputs.new) (O.seen shelf.new) (T.seen text.new)) }
{
    match read_plans(alloc, asked.plans.as_slice()) {
        Ok(plans) => run_plans(alloc, inputs, asked, plans, shelf, text),
        Err(status) => {
            let _put = put_answer(alloc, text, &status);
            status
        }
    }
}
