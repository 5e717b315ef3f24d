//! The files that are inputs, by their identity in the file system.

use sf_world::Denied;
use std::alloc::Global;
use std::cell::RefCell;
use std::fs::Metadata;
use std::os::unix::fs::MetadataExt;

// What tells a file from every other one, whatever its names are.
#[derive(Clone, Copy, Drop, PartialEq, Eq)]
struct FileId {
    device: u64,
    node: u64,
}

fn id_of(file: &Metadata) -> FileId {
    FileId {
        device: file.dev(),
        node: file.ino(),
    }
}

/// The files that were opened as inputs. No sink is made of one of them, so no input is destroyed.
#[derive(Drop)]
pub struct OpenedFiles {
    ids: RefCell<Vec<FileId>>,
}

impl OpenedFiles {
    /// No file was opened yet.
    pub fn new(alloc: Global) -> OpenedFiles {
        OpenedFiles {
            ids: RefCell::new(Vec::new(alloc)),
        }
    }

    /// Adds a file. It fails without memory, and where the list is in use, which no caller leads to.
    pub fn add(&self, file: &Metadata) -> Result<(), Denied> {
        let Ok(mut ids) = self.ids.try_borrow_mut() else {
            return Err(Denied::Failed);
        };
        match ids.push(id_of(file)) {
            Ok(()) => Ok(()),
            Err(_) => Err(Denied::NoMemory),
        }
    }

    /// Whether a file was opened as an input, under any name. Where the list is in use it may have been.
    pub fn has(&self, file: &Metadata) -> bool {
        let id = id_of(file);
        match self.ids.try_borrow() {
            Ok(ids) => ids.iter().any(|other| *other == id),
            Err(_) => true,
        }
    }
}
