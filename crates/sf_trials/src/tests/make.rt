//! Movies that are made in memory.

use super::*;
use sf_list::same;
use sf_world::{Shelf, Sink};
use std::test::Fail;

// One record of 21 bytes stands in front of each sample in a dump, and a byte at its end. Sample i of video is stored in 5
// bytes and i mod 7 more, and one of sound in 1 byte and i mod 5 more. At 90000 ticks a second samples of video are at
// 0, 3000 and 6000 ticks, and at 48000 those of sound are at 0, 1024 and 2048.
#[test]
fn made_movies_are_told(rt: HostRuntime) -> Result<(), Fail> {
    let rows: [(&[&str], &[u8]); 2] = [
        (&["make", "0", "1"], b"track 0 0 0 0 0\ndump 1\n"),
        (
            &["make", "3", "2"],
            b"track 0 3 1 18 6000\ntrack 1 3 3 6 2048\ndump 151\n",
        ),
    ];
    for (words, lines) in rows {
        let ended = run_words(rt.alloc(), words, &INPUT)?;
        ended.gives(Status::Done, lines)?;
        same(only_size(&ended.shelf), None)?;
    }
    Ok(())
}

// A text whose first append fails.
#[test]
fn a_text_that_fails_under_made_movies_is_told(rt: HostRuntime) -> Result<(), Fail> {
    let alloc = rt.alloc();
    let words = words_of(alloc, &["make", "1", "1"])?;
    let mut inputs = inputs_of(alloc, &INPUT, Vec::new(alloc))?;
    let mut shelf = MemShelf::new(alloc, Vec::new(alloc));
    let mut texts = MemShelf::new(alloc, Vec::new(alloc));
    texts.fail_on(1, 0)?;
    let Ok(mut text) = texts.create("text") else {
        return Err(Fail::from(Status::NoMemory));
    };
    same(
        run(alloc, &words, &mut inputs, &mut shelf, &mut text),
        Status::WriteFault,
    )?;
    texts.keep(text);
    same(only_size(&texts), Some(0))?;
    Ok(())
}
