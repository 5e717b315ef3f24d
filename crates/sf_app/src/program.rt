//! The program as a whole.

ghost use Rattle.std.specs.Prelude.{◌≡◌, Err, map, string_bytes};
ghost use Rattle.sf_app.specs.Ends.{Ends};
ghost use Rattle.sf_app.specs.Outside.{outside_of};
ghost use Rattle.sf_app.specs.inner.Asked.{refused};
ghost use Rattle.sf_words.specs.Commands.{command};
ghost use Rattle.sf_words.specs.declared.faults.UsageFault.{UsageFault as WordFault};

use super::answer_text::put_answer;
use super::extract::run_extract;
use super::list::run_list;
use super::make::run_make;
use super::record::run_record;
use super::{Status, UsageFault};
use sf_words::{Command, WordsFault, read_words};
use sf_world::{Inputs, Shelf, Sink};
use std::alloc::Global;

// The answer where no command was read.
fn refused(fault: WordsFault) -> Status
    ensures { result ≡ refused fault }
{
    match fault {
        WordsFault::Usage(sf_words::UsageFault::Command) => Status::Usage(UsageFault::Command),
        WordsFault::Usage(sf_words::UsageFault::Words) => Status::Usage(UsageFault::Words),
        WordsFault::NoMemory => Status::NoMemory,
    }
}

/// Does what the words say. `record INPUT..` makes files of the samples of 1 to 16 inputs, each as a track, from `out-1.mp4` on;
/// `extract MOVIE PLAN..` reads 1 to 16 plans out of a movie, each into a dump, `out-1.dump` and so on; `list MOVIE` puts the list
/// of a movie's samples into the text; and `make COUNT TRACKS` makes a movie in memory and tells what it reads back of it. Options
/// say when a recording starts, how its chunks and files are cut, and how the names begin. The text says how it went. Each source
/// is given back, and each file that was made is kept.
#[tactic(auto, using(crate::proofs::Ending::ends_early, crate::proofs::Ending::gave_none, crate::proofs::Extracting::says_by))]
pub fn run<I: Inputs, O: Shelf, T: Sink>(
    alloc: Global,
    words: &[String],
    inputs: &mut I,
    shelf: &mut O,
    text: &mut T,
) -> Status
    // What stands after each answer, by what the words ask for.
    ensures ends { Ends (command (map string_bytes words.now)) result (outside_of (I.seen inputs.old) (O.seen shelf.old) (T.seen text.old))
        (outside_of (I.seen inputs.new) (O.seen shelf.new) (T.seen text.new)) }

    // Wrong words touch neither inputs nor shelf.
    ensures untouched { (fault : WordFault) → command (map string_bytes words.now) ≡ Err fault → (inputs.new ≡ inputs.old) × (shelf.new ≡ shelf.old) }
{
    let status = match read_words(alloc, words) {
        Ok(Command::Record(asked)) => return run_record(alloc, inputs, &asked, shelf, text),
        Ok(Command::Extract(asked)) => return run_extract(alloc, inputs, &asked, shelf, text),
        Ok(Command::List(name)) => return run_list(alloc, inputs, name.as_str(), text),
        Ok(Command::Make(asked)) => return run_make(alloc, &asked, text),
        Err(fault) => refused(fault),
    };
    let _put = put_answer(alloc, text, &status);
    status
}
