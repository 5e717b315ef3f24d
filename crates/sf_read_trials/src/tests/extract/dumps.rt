//! Dumps of plans, read out sample by sample.

use super::*;

/// What a plan word reads out of a file: the dump, and the sample that was refused, where one was.
#[derive(Drop)]
struct Read {
    dump: Bytes,
    refused: Option<BadSample>,
}

// The stored bytes that a run asks for.
fn stored_at(file: &[u8], place: Place) -> Option<&[u8]> {
    let from = usize::try_from(place.at).ok()?;
    file.get(from..from.checked_add(place.len as usize)?)
}

// Reads a plan out of a movie.
fn read_out(alloc: Global, file: &[u8], movie: &Movie, plan: Plan) -> Result<Read, Fail> {
    let mut run = PlanRun::new(alloc, movie, plan)?;
    let mut dump = Bytes::new(alloc);
    for _ in 0..100 {
        let Turn::Read(place) = run.step(&mut dump)? else {
            return Ok(Read {
                dump,
                refused: None,
            });
        };
        let stored = stored_at(file, place).ok_or("no bytes")?;
        if stored.len() != place.len as usize {
            return Err("other bytes".into());
        }
        match run.give(stored, &mut dump) {
            Ok(()) => {}
            Err(GiveFault::Bad(bad)) => {
                return Ok(Read {
                    dump,
                    refused: Some(bad),
                });
            }
            Err(GiveFault::NoMemory) => return Err("no memory".into()),
        }
    }
    Err("no end".into())
}

// What a plan word reads out of a file.
fn read_of(alloc: Global, file: &[u8], word: &str) -> Result<Read, Fail> {
    let movie = movie_of(alloc, file)?;
    let plan = read_plan(alloc, word).ok().ok_or("no plan")?;
    read_out(alloc, file, &movie, plan)
}

// The dump of a plan word over a file, if no sample is refused.
fn dump_of(alloc: Global, file: &[u8], word: &str) -> Result<Bytes, Fail> {
    let read = read_of(alloc, file, word)?;
    match read.refused {
        None => Ok(read.dump),
        Some(_) => Err("refused".into()),
    }
}

#[test]
fn samples_are_read_one_by_one(rt: HostRuntime) -> Result<(), Fail> {
    let dump = dump_of(rt.alloc(), &SOUND, "s0,r,a,r")?;
    let wanted = b"\
        \x01\0\0\0\0\0\0\0\x01\0\0\0\0\0\0\0\0\0\0\0\x04\x21\x10\x04\x60\
        \x02\x01\
        \x01\0\0\0\0\0\0\0\x01\0\0\0\0\0\0\x53\x55\0\0\0\x04\x21\x10\x04\x60";
    assert_eq!(rt; dump.as_slice(), wanted.as_slice());
    Ok(())
}

#[test]
fn samples_are_read_to_the_end(rt: HostRuntime) -> Result<(), Fail> {
    let dump = dump_of(rt.alloc(), &SOUND, "s0,e")?;
    let wanted = b"\
        \x01\0\0\0\0\0\0\0\x01\0\0\0\0\0\0\0\0\0\0\0\x04\x21\x10\x04\x60\
        \x01\0\0\0\0\0\0\0\x01\0\0\0\0\0\0\x53\x55\0\0\0\x04\x21\x10\x04\x60\
        \x01\0\0\0\0\0\0\0\x01\0\0\0\0\0\0\xa6\xaa\0\0\0\x04\x21\x10\x04\x60\
        \0";
    assert_eq!(rt; dump.as_slice(), wanted.as_slice());
    Ok(())
}

#[test]
fn without_a_sample_little_is_read(rt: HostRuntime) -> Result<(), Fail> {
    let alloc = rt.alloc();
    assert_eq!(rt; dump_of(alloc, &SOUND, "s0")?.as_slice(), b"".as_slice());
    assert_eq!(rt; dump_of(alloc, &SOUND, "r")?.as_slice(), b"\0".as_slice());
    assert_eq!(rt;
        dump_of(alloc, &SOUND, "a")?.as_slice(),
        b"\x02\0".as_slice()
    );
    assert_eq!(rt;
        dump_of(alloc, &SOUND, "e,s0,u0,r")?.as_slice(),
        b"\0\0".as_slice()
    );
    let past = dump_of(alloc, &SOUND, "s0,a,a,a,r")?;
    assert_eq!(rt; past.as_slice(), b"\x02\x01\x02\x01\x02\0\0".as_slice());
    Ok(())
}

#[test]
fn units_of_video_are_read_after_start_codes(rt: HostRuntime) -> Result<(), Fail> {
    let dump = dump_of(rt.alloc(), &VIDEO, "s0,a,r")?;
    let wanted = b"\
        \x02\x01\
        \x01\0\0\0\0\0\0\0\x01\0\0\0\0\0\0\x27\x10\0\0\0\x0c\
        \0\0\0\x01\x65\x88\0\0\0\x01\x41\x9a";
    assert_eq!(rt; dump.as_slice(), wanted.as_slice());
    Ok(())
}

// The unit of the first sample says nine bytes and has one.
#[test]
fn a_sample_is_refused(rt: HostRuntime) -> Result<(), Fail> {
    let read = read_of(rt.alloc(), &VIDEO, "s0,r")?;
    let bad = BadSample {
        track: 0,
        sample: 0,
        at: 0,
    };
    assert_eq!(rt; read.refused, Some(bad));
    assert!(rt; read.dump.is_empty());
    Ok(())
}
