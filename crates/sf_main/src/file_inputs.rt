//! The files of the system as inputs.

ghost use Rattle.std.specs.Prelude.{◌≡◌, ◌+◌, ◌^◌, ◌<◌, ◌≤◌, [], None, IfOk, refl};
ghost use Rattle.sf_world.specs.inner.Room.{room_for};

use super::opened_files::OpenedFiles;
use sf_list::Text;
use sf_world::{Denied, Failed, Fits, Inputs, Measure, Source};
use std::alloc::Global;
use std::fs::{File, Metadata};
use std::io::ErrorKind;
use std::os::unix::fs::FileExt;
use std::{fs, io};

/// An open regular file as a source. Its length is the one that it had when it was opened.
#[derive(Drop)]
pub struct FileSource {
    file: File,
    length: u64,
    faults: u64,
    ghost counted: { faults < 2 ^ 64 },
}

impl Fits for FileSource {
    ghost fits = { λ source name. (source.length ≡ name.length) × (None ≡ name.content) };
}

impl Measure for FileSource {
    ghost measure = { λ source. source.faults };
}

impl Source for FileSource {
    ghost seen = { λ source. record { content = None; size = source.length; faults = source.faults } };

    ghost whole = { λ source. tt };

    ghost bounded = { λ source. source.counted };

    ghost counted = { λ source. refl };

    ghost fitting = { λ source name fits. fits };

    ghost fits_if = { λ source name fits. fits };

    fn length(&self) -> u64 {
        self.length
    }

    fn read_at(&mut self, at: u64, into: &mut [u8]) -> Result<usize, Failed> {
        let left = self.length.saturating_sub(at);
        let count = left.min(into.len() as u64) as usize;
        if self.file.read_exact_at(&mut into[..count], at).is_err() {
            self.faults = self.faults.saturating_add(1);
            return Err(Failed);
        }
        Ok(count)
    }
}

/// The files of the system as inputs, by their paths. What isn't a regular file, as a pipe or a
/// device, has no length and is no input.
#[derive(Drop)]
pub struct FileInputs<'a> {
    alloc: Global,
    rt: &'a HostRuntime,
    opened: &'a OpenedFiles,
    misses: u64,
    faults: u64,
    asked: Vec<(Text, bool)>,
    returned: Vec<u64>,
    ghost missed: { misses < 2 ^ 64 },
    ghost counted: { faults < 2 ^ 64 },
}

impl<'a> FileInputs<'a> {
    /// No file was asked for yet. Each file that is opened is put among the opened ones.
    pub fn new(alloc: Global, rt: &'a HostRuntime, opened: &'a OpenedFiles) -> FileInputs<'a>
        ensures misses { result.misses ≡ 0 }
        ensures faults { result.faults ≡ 0 }
        ensures asked { result.asked.items ≡ [] }
        ensures returned { result.returned.items ≡ [] }
    {
        FileInputs {
            alloc,
            rt,
            opened,
            misses: 0,
            faults: 0,
            asked: Vec::new(alloc),
            returned: Vec::new(alloc),
        }
    }
}

fn require_regular(file: &Metadata) -> io::Result<()> {
    if file.is_file() {
        Ok(())
    } else {
        Err(io::Error::from(ErrorKind::InvalidInput))
    }
}

// Opens a regular file. What a name stands for is looked at before it is opened too, since a pipe
// without a writer is opened only once it has one.
fn open_regular(rt: &HostRuntime, name: &str) -> io::Result<(File, Metadata)> {
    require_regular(&fs::metadata(rt, name)?)?;
    let file = File::open(rt, name)?;
    let about = file.metadata()?;
    require_regular(&about)?;
    Ok((file, about))
}

fn open(rt: &HostRuntime, opened: &OpenedFiles, name: &str) -> Result<FileSource, Denied>
    ensures { IfOk result (λ source. source.faults ≡ 0) }
{
    let Ok((file, about)) = open_regular(rt, name) else {
        return Err(Denied::Failed);
    };
    opened.add(&about)?;
    Ok(FileSource {
        file,
        length: about.len(),
        faults: 0,
    })
}

impl Inputs for FileInputs<'_> {
    type Src = FileSource;

    ghost seen = { λ inputs. record {
      holds = λ name. None;
      asked = inputs.asked.items;
      returned = inputs.returned.items;
      faults = inputs.faults;
      misses = inputs.misses;
      spare = room_for inputs.returned;
    } };

    ghost bounded = { λ inputs. (inputs.missed, inputs.counted) };

    fn fetch(&mut self, name: &str) -> Result<FileSource, Denied> {
        let copy = Text::from_str(self.alloc, name)?;
        self.asked.reserve(1)?;
        match open(self.rt, self.opened, name) {
            Err(Denied::NoMemory) => Err(Denied::NoMemory),
            Err(Denied::Failed) => {
                self.asked.push_reserved((copy, false));
                self.misses = self.misses.saturating_add(1);
                Err(Denied::Failed)
            }
            Ok(source) => {
                let room = self.returned.capacity() - self.returned.len();
                self.returned.reserve(room + 1)?;
                self.asked.push_reserved((copy, true));
                Ok(source)
            }
        }
    }

    fn give_back(&mut self, source: FileSource) {
        self.faults = self.faults.saturating_add(source.faults);
        self.returned.push_reserved(source.faults);
    }
}
