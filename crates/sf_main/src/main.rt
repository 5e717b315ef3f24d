//! The program: it hands real files and standard output to the command that its words name.
//!
//! The adapters stand between the system and the rest of the program. They tell nothing of what
//! files hold, and count each error of the system as a fault.
#![tactic(auto)]

mod file_inputs;
mod folder_shelf;
mod opened_files;
mod std_text;
mod whole_writes;

use file_inputs::FileInputs;
use folder_shelf::FolderShelf;
use opened_files::OpenedFiles;
use sf_app::{Status, run};
use std::alloc::{AllocError, Global};
use std::env;
use std::io::ErrorKind;
use std::process::ExitCode;
use std_text::StdText;

// The words after the program's name, none where they are no text.
fn words(alloc: Global, rt: &HostRuntime) -> Result<Vec<String>, AllocError> {
    let mut words = Vec::new(alloc);
    match env::args(rt) {
        Ok(args) => {
            for word in args.skip(1) {
                words.push(word)?;
            }
        }
        Err(error) if error.kind() == ErrorKind::OutOfMemory => return Err(AllocError),
        Err(_) => {}
    }
    Ok(words)
}

fn main(rt: HostRuntime) -> ExitCode {
    let alloc = rt.alloc();
    let Ok(words) = words(alloc, &rt) else {
        return ExitCode::from(Status::NoMemory.code());
    };
    let opened = OpenedFiles::new(alloc);
    let mut inputs = FileInputs::new(alloc, &rt, &opened);
    let mut shelf = FolderShelf::new(alloc, &rt, &opened);
    let mut text = StdText::new(&rt);
    ExitCode::from(run(alloc, &words, &mut inputs, &mut shelf, &mut text).code())
}

#[cfg(test)]
mod tests;
