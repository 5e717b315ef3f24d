//! The current folder as a shelf, and its files as sinks.

ghost use Rattle.std.specs.Prelude.{◌≡◌, ◌+◌, ◌^◌, ◌<◌, ◌≤◌, [], length, None};

use super::opened_files::OpenedFiles;
use super::whole_writes::write_at;
use sf_list::Text;
use sf_world::{Denied, Failed, Shelf, Sink};
use std::alloc::Global;
use std::fs::{File, OpenOptions};
use std::io::ErrorKind;
use std::os::unix::fs::FileTypeExt;
use std::{fs, io};

/// An open file as a sink. Each append is one write, unless the system takes a part alone.
#[derive(Drop)]
pub struct FileSink {
    file: File,
    length: u64,
    faults: u64,
    ghost counted: { faults < 2 ^ 64 },
}

impl Sink for FileSink {
    ghost seen = { λ sink. record { content = None; size = sink.length; faults = sink.faults } };

    ghost whole = { λ sink. tt };

    ghost bounded = { λ sink. sink.counted };

    fn append(&mut self, bytes: &[u8]) -> Result<(), Denied> {
        // A file that would be longer than a u64 counts takes nothing.
        let fits = self.length.checked_add(bytes.len() as u64).is_some();
        let done = if fits {
            write_at(&self.file, self.length, bytes)
        } else {
            0
        };
        self.length += done as u64;
        if done == bytes.len() {
            return Ok(());
        }
        self.faults = self.faults.saturating_add(1);
        Err(Denied::Failed)
    }

    fn patch(&mut self, at: u64, bytes: &[u8]) -> Result<(), Failed> {
        // The range ends at or before the length, which is a u64.
        let _length = self.length;
        if write_at(&self.file, at, bytes) == bytes.len() {
            return Ok(());
        }
        self.faults = self.faults.saturating_add(1);
        Err(Failed)
    }
}

/// The current folder as a shelf. A sink is the file of its name, from its making on. No sink is
/// made of a file that was opened as an input.
#[derive(Drop)]
pub struct FolderShelf<'a> {
    alloc: Global,
    rt: &'a HostRuntime,
    inputs: &'a OpenedFiles,
    names: Vec<Text>,
    faults: u64,
    ghost counted: { faults < 2 ^ 64 },
}

impl<'a> FolderShelf<'a> {
    /// No file was made yet.
    pub fn new(alloc: Global, rt: &'a HostRuntime, inputs: &'a OpenedFiles) -> FolderShelf<'a>
        ensures names { result.names.items ≡ [] }
        ensures faults { result.faults ≡ 0 }
    {
        FolderShelf {
            alloc,
            rt,
            inputs,
            names: Vec::new(alloc),
            faults: 0,
        }
    }
}

// Whether a name stands for a pipe, which can't be written at places, and is opened only once it
// has a reader.
fn is_pipe(rt: &HostRuntime, name: &str) -> bool {
    match fs::metadata(rt, name) {
        Ok(about) => about.file_type().is_fifo(),
        Err(_) => false,
    }
}

// Makes the file of a name, or empties the one that is there, unless that is an input.
fn make_file(rt: &HostRuntime, inputs: &OpenedFiles, name: &str) -> io::Result<File> {
    if is_pipe(rt, name) {
        return Err(io::Error::from(ErrorKind::InvalidInput));
    }
    let file = OpenOptions::new().write(true).create(true).open(rt, name)?;
    let about = file.metadata()?;
    if inputs.has(&about) {
        return Err(io::Error::from(ErrorKind::AlreadyExists));
    }
    // A file that was cut is flushed to the disk when it is closed, by some file systems: an empty one isn't.
    if about.is_file() && about.len() > 0 {
        file.set_len(0)?;
    }
    Ok(file)
}

impl Shelf for FolderShelf<'_> {
    type Out = FileSink;

    ghost seen = { λ shelf. record { names = shelf.names.items; files = None; faults = shelf.faults } };

    ghost bounded = { λ shelf. shelf.counted };

    /// Makes or empties the file of the name. It fails where that file is an input, and leaves it whole.
    fn create(&mut self, name: &str) -> Result<FileSink, Denied> {
        let copy = Text::from_str(self.alloc, name)?;
        self.names.reserve(1)?;
        match make_file(self.rt, self.inputs, name) {
            Err(_) => {
                self.faults = self.faults.saturating_add(1);
                Err(Denied::Failed)
            }
            Ok(file) => {
                self.names.push_reserved(copy);
                Ok(FileSink {
                    file,
                    length: 0,
                    faults: 0,
                })
            }
        }
    }

    fn keep(&mut self, sink: FileSink) {
        self.faults = self.faults.saturating_add(sink.faults);
    }
}
