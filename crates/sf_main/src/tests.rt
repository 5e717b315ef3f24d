//! The adapters over real files, and the loops of writes over files that take a part at a time.

ghost use Rattle.std.specs.Io.{WritesAtMost};

use super::file_inputs::FileInputs;
use super::folder_shelf::FolderShelf;
use super::opened_files::OpenedFiles;
use super::std_text::StdText;
use super::whole_writes::{write, write_at};
use sf_list::{holds, same};
use sf_world::{Denied, Failed, Inputs, Shelf, Sink, Source};
use std::cell::Cell;
use std::io::{Error, ErrorKind, Write};
use std::os::unix::fs::{FileExt, symlink};
use std::test::Fail;
use std::{fs, io};

// A path in the folder of temporary files that no other test uses.
fn temporary(rt: &HostRuntime, name: &str) -> io::Result<String> {
    let alloc = rt.alloc();
    let folder = std::env::temp_dir(rt)?;
    let id = std::process::id(rt.process());
    Ok(format!(in alloc; "{}/doorcumin-{id}-{name}", folder.display())?)
}

#[test]
fn a_file_is_read_at_places(rt: HostRuntime) -> Result<(), Fail> {
    let path = temporary(&rt, "input")?;
    fs::write(&rt, path.as_str(), "abcdef")?;
    let opened = OpenedFiles::new(rt.alloc());
    let mut inputs = FileInputs::new(rt.alloc(), &rt, &opened);
    let Ok(mut source) = inputs.fetch(path.as_str()) else {
        return Err(Fail::from(Failed));
    };
    same(source.length(), 6)?;
    for (at, count, bytes) in [
        (0, 4, *b"abcd"),
        (3, 3, *b"def\0"),
        (6, 0, [0; 4]),
        (7, 0, [0; 4]),
    ] {
        let mut into = [0; 4];
        same((at, source.read_at(at, &mut into)), (at, Ok(count)))?;
        same((at, into), (at, bytes))?;
    }
    // The file is cut behind the source's back, so what it had isn't there any more.
    fs::write(&rt, path.as_str(), "abc")?;
    let mut into = [0; 4];
    same(source.read_at(1, &mut into), Err(Failed))?;
    same(source.read_at(0, &mut into[..3]), Ok(3))?;
    inputs.give_back(source);
    fs::remove_file(&rt, path.as_str())?;
    Ok(())
}

#[test]
fn a_missing_file_is_a_failure(rt: HostRuntime) -> Result<(), Fail> {
    let path = temporary(&rt, "missing")?;
    let opened = OpenedFiles::new(rt.alloc());
    let mut inputs = FileInputs::new(rt.alloc(), &rt, &opened);
    holds(matches!(inputs.fetch(path.as_str()), Err(Denied::Failed)))?;
    Ok(())
}

#[test]
fn a_file_is_made_appended_and_patched(rt: HostRuntime) -> Result<(), Fail> {
    let path = temporary(&rt, "output")?;
    fs::write(&rt, path.as_str(), "what stood there before")?;
    let opened = OpenedFiles::new(rt.alloc());
    let mut shelf = FolderShelf::new(rt.alloc(), &rt, &opened);
    let Ok(mut sink) = shelf.create(path.as_str()) else {
        return Err(Fail::from(Failed));
    };
    same(sink.append(b""), Ok(()))?;
    same(sink.append(b"ftyp"), Ok(()))?;
    same(sink.append(b"mdat"), Ok(()))?;
    same(sink.patch(2, b"yyym"), Ok(()))?;
    shelf.keep(sink);
    same(
        fs::read(&rt, path.as_str())?.as_slice(),
        b"ftyyymat".as_slice(),
    )?;
    fs::remove_file(&rt, path.as_str())?;
    Ok(())
}

#[test]
fn a_full_device_takes_no_bytes(rt: HostRuntime) -> Result<(), Fail> {
    if !fs::exists(&rt, "/dev/full")? {
        return Ok(());
    }
    let opened = OpenedFiles::new(rt.alloc());
    let mut shelf = FolderShelf::new(rt.alloc(), &rt, &opened);
    let Ok(mut sink) = shelf.create("/dev/full") else {
        return Err(Fail::from(Failed));
    };
    same(sink.append(b""), Ok(()))?;
    same(sink.append(b"ftyp"), Err(Denied::Failed))?;
    same(sink.patch(0, b""), Ok(()))?;
    shelf.keep(sink);
    Ok(())
}

#[test]
fn no_file_is_made_inside_a_file(rt: HostRuntime) -> Result<(), Fail> {
    let path = temporary(&rt, "no-folder")?;
    fs::write(&rt, path.as_str(), "")?;
    let inside = format!(in rt.alloc(); "{path}/file")?;
    let opened = OpenedFiles::new(rt.alloc());
    let mut shelf = FolderShelf::new(rt.alloc(), &rt, &opened);
    holds(matches!(shelf.create(inside.as_str()), Err(Denied::Failed)))?;
    fs::remove_file(&rt, path.as_str())?;
    Ok(())
}

#[test]
fn standard_output_takes_bytes_and_no_patch(rt: HostRuntime) -> Result<(), Fail> {
    let mut text = StdText::new(&rt);
    same(text.append(b"done\n"), Ok(()))?;
    same(text.patch(0, b"D"), Err(Failed))?;
    Ok(())
}

// A file of so many zero bytes that ends with four others, of which the zeros take no room on the disk.
fn make_sparse(rt: &HostRuntime, path: &str, zeros: u64, last: &[u8; 4]) -> io::Result<()> {
    let file = fs::create(rt, path)?;
    file.set_len(zeros)?;
    file.write_all_at(last, zeros)
}

#[test]
fn a_file_is_read_after_4_gib(rt: HostRuntime) -> Result<(), Fail> {
    let path = temporary(&rt, "sparse")?;
    make_sparse(&rt, path.as_str(), 5_368_709_120, b"last")?;
    let opened = OpenedFiles::new(rt.alloc());
    let mut inputs = FileInputs::new(rt.alloc(), &rt, &opened);
    let Ok(mut source) = inputs.fetch(path.as_str()) else {
        return Err(Fail::from(Failed));
    };
    same(source.length(), 5_368_709_124)?;
    let mut into = [1; 4];
    same(source.read_at(5_368_709_120, &mut into), Ok(4))?;
    same(into, *b"last")?;
    same(source.read_at(1_073_741_824, &mut into), Ok(4))?;
    same(into, [0; 4])?;
    inputs.give_back(source);
    fs::remove_file(&rt, path.as_str())?;
    Ok(())
}

#[test]
fn a_file_is_written_after_4_gib(rt: HostRuntime) -> Result<(), Fail> {
    let path = temporary(&rt, "far")?;
    let file = fs::create(&rt, path.as_str())?;
    same(write_at(&file, 5_368_709_120, b"last"), 4)?;
    same(file.metadata()?.len(), 5_368_709_124)?;
    fs::remove_file(&rt, path.as_str())?;
    Ok(())
}

#[test]
fn what_is_no_regular_file_is_no_input(rt: HostRuntime) -> Result<(), Fail> {
    let opened = OpenedFiles::new(rt.alloc());
    let mut inputs = FileInputs::new(rt.alloc(), &rt, &opened);
    for name in ["/", "/dev/null"] {
        same(
            (name, matches!(inputs.fetch(name), Err(Denied::Failed))),
            (name, true),
        )?;
    }
    Ok(())
}

#[test]
fn an_input_is_never_made_anew(rt: HostRuntime) -> Result<(), Fail> {
    let path = temporary(&rt, "kept")?;
    let link = temporary(&rt, "link")?;
    let hard = temporary(&rt, "hard")?;
    fs::write(&rt, path.as_str(), "abcdef")?;
    symlink(&rt, path.as_str(), link.as_str())?;
    fs::hard_link(&rt, path.as_str(), hard.as_str())?;
    let opened = OpenedFiles::new(rt.alloc());
    let mut inputs = FileInputs::new(rt.alloc(), &rt, &opened);
    let mut shelf = FolderShelf::new(rt.alloc(), &rt, &opened);
    let Ok(source) = inputs.fetch(link.as_str()) else {
        return Err(Fail::from(Failed));
    };
    for name in [path.as_str(), link.as_str(), hard.as_str()] {
        same(
            (name, matches!(shelf.create(name), Err(Denied::Failed))),
            (name, true),
        )?;
        same(
            fs::read(&rt, path.as_str())?.as_slice(),
            b"abcdef".as_slice(),
        )?;
    }
    inputs.give_back(source);
    for name in [path.as_str(), link.as_str(), hard.as_str()] {
        fs::remove_file(&rt, name)?;
    }
    Ok(())
}

// A writer that is interrupted at its first call, and then takes three bytes at most at a time, until
// it has as many as it has room for.
#[derive(Drop)]
struct Slow {
    taken: Cell<usize>,
    is_interrupted: Cell<bool>,
    room: usize,
}

impl Slow {
    fn new(room: usize) -> Slow {
        Slow {
            taken: Cell::new(0),
            is_interrupted: Cell::new(false),
            room,
        }
    }

    fn take(&self, bytes: &[u8]) -> io::Result<usize>
        ensures { WritesAtMost result bytes.now }
    {
        if !self.is_interrupted.get() {
            self.is_interrupted.set(true);
            return Err(Error::from(ErrorKind::Interrupted));
        }
        let count = bytes.len().min(3);
        let taken = self.taken.get().saturating_add(count);
        if taken > self.room {
            return Err(Error::from(ErrorKind::StorageFull));
        }
        self.taken.set(taken);
        Ok(count)
    }
}

impl FileExt for Slow {
    fn read_at(&self, _buf: &mut [u8], _offset: u64) -> io::Result<usize> {
        Ok(0)
    }

    fn write_at(&self, buf: &[u8], offset: u64) -> io::Result<usize> {
        // Each part goes on where the one before it ended.
        if offset != (self.taken.get() as u64).saturating_add(7) {
            return Err(Error::from(ErrorKind::InvalidInput));
        }
        self.take(buf)
    }
}

impl Write for Slow {
    fn write(&mut self, buf: &[u8]) -> io::Result<usize> {
        self.take(buf)
    }

    fn flush(&mut self) -> io::Result<()> {
        Ok(())
    }
}

#[test]
fn what_is_taken_in_parts_is_written_whole(rt: HostRuntime) -> Result<(), Fail> {
    for (room, written) in [(8, 8), (100, 8), (7, 6), (2, 0)] {
        same(
            (room, write_at(&Slow::new(room), 7, b"abcdefgh")),
            (room, written),
        )?;
        same(
            (room, write(&mut Slow::new(room), b"abcdefgh")),
            (room, written),
        )?;
    }
    Ok(())
}
