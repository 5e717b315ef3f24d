//! The command `record`.

ghost use Rattle.std.specs.Prelude.{◌≡◌, ◌≢◌, ℕ, ◌≤◌, List, length, map, slice_get, Some, None, Ok, Err, IfOk, IfErr};
ghost use Rattle.sf_app.specs.AnswerText.{Answered, TellsDone, done_lines};
ghost use Rattle.sf_app.specs.Outside.{KeepInputs, outside_of};
ghost use Rattle.sf_app.specs.RecordEnds.{AreHeld, HoldsInputs, Performs, RecordEnds, answered, limits_of, options_of, status_of};
ghost use Rattle.sf_app.specs.inner.Fetching.{Fetched, TakesAllBack, Unfetched, unfetched};
ghost use Rattle.sf_record.specs.Called.{called_for};
ghost use Rattle.sf_record.specs.Said.{said_in};
ghost use Rattle.sf_series.specs.Series.{AreLimits};
ghost use Rattle.sf_words.specs.Ranges.{IsRecordable};
ghost use Rattle.sf_world.specs.Counts.{Rose};

use super::Status;
use super::answer_text::{put_answer, put_done, told};
use sf_gather::Options;
use sf_list::Text;
use sf_record::{SerialOutcome, record_serial};
use sf_series::{Limits, Report};
use sf_words::RecordAsked;
use sf_world::{Denied, Inputs, Shelf, Sink};
use std::alloc::{AllocError, Global};

// The limits of the files of a recording.
fn limits_of(alloc: Global, asked: &RecordAsked) -> Result<Limits, AllocError>
    requires { IsRecordable asked.now }
    ensures limits { IfOk result (λ limits. limits ≡ limits_of asked.now) }
    ensures within { IfOk result AreLimits }
{
    Ok(Limits {
        max_bytes: asked.numbers.max_bytes,
        max_duration_us: asked.numbers.max_duration_us,
        max_files: asked.numbers.max_files as u32,
        stem: Text::from_str(alloc, asked.out.as_str())?,
    })
}

// Gives sources back, in their order.
fn give_all_back<I: Inputs>(inputs: &mut I, sources: Vec<I::Src>)
    requires { length sources.items ≤ (I.seen inputs.old).spare }
    ensures { TakesAllBack (map (λ s. (I.Src.seen s).faults) sources.items) (I.seen inputs.old) (I.seen inputs.new) }
{
    for source in sources {
        inputs.give_back(source);
    }
}

// The answer where no source is given for the name of a number.
fn unfetched(number: u32, denied: Denied) -> Status
    ensures { result ≡ unfetched number denied }
{
    match denied {
        Denied::Failed => Status::OpenFault { input: number },
        Denied::NoMemory => Status::NoMemory,
    }
}

// Fetches the inputs of names, in their order. Where one isn't given those before it are given back.
fn fetch_all<I: Inputs>(
    alloc: Global,
    inputs: &mut I,
    names: &[Text],
) -> Result<Vec<I::Src>, Status>
    requires few { length names.now ≤ 16 }
    ensures fetched { IfOk result (λ sources. Fetched names.now (map (λ s. I.Src.seen s) sources.items) (I.seen inputs.old) (I.seen inputs.new)) }
    ensures count { IfOk result (λ sources. length sources.items ≡ length names.now) }
    ensures unfetched { IfErr result (λ status. Unfetched names.now status (I.seen inputs.old) (I.seen inputs.new)) }
    ensures inputs { KeepInputs (I.seen inputs.old) (I.seen inputs.new) }
{
    let Ok(mut sources) = Vec::with_capacity(alloc, names.len()) else {
        return Err(Status::NoMemory);
    };
    for number in 0..names.len() {
        match inputs.fetch(names[number].as_str()) {
            Ok(source) => sources.push_reserved(source),
            Err(denied) => {
                give_all_back(inputs, sources);
                return Err(unfetched(number as u32, denied));
            }
        }
    }
    Ok(sources)
}

// The report of a recording that is done, or the answer of another one.
fn report_of(outcome: SerialOutcome, report: Report) -> Result<Report, Status>
    ensures { result ≡ answered outcome report }
{
    match outcome {
        SerialOutcome::Done => Ok(report),
        SerialOutcome::WriteFault => Err(Status::WriteFault),
        SerialOutcome::Limit(limit) => Err(Status::LimitReached(limit)),
        SerialOutcome::Refused { track, fault } => Err(Status::InputRefused { track, fault }),
        SerialOutcome::ReadFault { input } => Err(Status::ReadFault { input }),
        SerialOutcome::NoMemory => Err(Status::NoMemory),
    }
}

// Fetches the inputs, records them into files, and gives them back.
fn record_inputs<I: Inputs, O: Shelf>(
    alloc: Global,
    inputs: &mut I,
    asked: &RecordAsked,
    shelf: &mut O,
) -> Result<Report, Status>
    requires { IsRecordable asked.now }
    ensures performs { Performs asked.now result (I.seen inputs.old) (I.seen inputs.new) (O.seen shelf.old) (O.seen shelf.new) }
    ensures inputs { KeepInputs (I.seen inputs.old) (I.seen inputs.new) }
    ensures done { IfOk result (λ report. (before : List (List ℕ)) → (O.seen shelf.old).files ≡ Some before → HoldsInputs asked.now (I.seen inputs.old) before (O.seen shelf.new)) }
    ensures other { IfErr result (λ status. status ≢ Status.Done) }
    ensures header { (track : ℕ) (name bytes : List ℕ) → slice_get asked.now.inputs track ≡ Some name → (I.seen inputs.old).holds name ≡ Some bytes
        → (said_in track (options_of asked.now) bytes).setup ≡ None → O.seen shelf.new ≡ O.seen shelf.old }
    ensures complete { (all : List (List ℕ)) → AreHeld (I.seen inputs.old) asked.now.inputs all
        → ¬ Rose (I.seen inputs.old).misses (I.seen inputs.new).misses → ¬ Rose (I.seen inputs.old).faults (I.seen inputs.new).faults
        → ¬ Rose (O.seen shelf.old).faults (O.seen shelf.new).faults → Answered result (status_of (called_for (options_of asked.now) (limits_of asked.now) all)) }
{
    let Ok(limits) = limits_of(alloc, asked) else {
        return Err(Status::NoMemory);
    };
    let sources = fetch_all(alloc, inputs, asked.inputs.as_slice())?;
    let options = Options {
        start_us: asked.numbers.start_us,
        interleave_us: asked.numbers.interleave_us,
    };
    let end = record_serial(alloc, sources, options, limits, shelf);
    give_all_back(inputs, end.sources);
    report_of(end.outcome, end.report)
}

// Tells that a recording is done.
fn tell_done<T: Sink>(alloc: Global, text: &mut T, report: &Report) -> Status
    ensures { TellsDone (done_lines report.now) result (T.seen text.old) (T.seen text.new) }
{
    told(put_done(alloc, text, report))
}

/// Records inputs, each as a track, into the files of a recording, and tells how it went.
pub(crate) fn run_record<I: Inputs, O: Shelf, T: Sink>(
    alloc: Global,
    inputs: &mut I,
    asked: &RecordAsked,
    shelf: &mut O,
    text: &mut T,
) -> Status
    requires { IsRecordable asked.now }
    ensures { RecordEnds asked.now result (outside_of (I.seen inputs.old) (O.seen shelf.old) (T.seen text.old))
        (outside_of (I.seen inputs.new) (O.seen shelf.new) (T.seen text.new)) }
{
    match record_inputs(alloc, inputs, asked, shelf) {
        Ok(report) => tell_done(alloc, text, &report),
        Err(status) => {
            let _put = put_answer(alloc, text, &status);
            status
        }
    }
}
