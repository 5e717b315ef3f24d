//! The current sample, and what is handed out of it.

use super::*;

#[test]
fn samples_come_one_after_the_other(rt: HostRuntime) -> Result<(), Fail> {
    let movie = movie_of(rt.alloc(), &SOUND)?;
    let mut extractor = Extractor::new(rt.alloc(), &movie)?;
    assert_eq!(rt; extractor.track(), None);
    assert_eq!(rt; extractor.select(1), Err(NoTrack));
    assert_eq!(rt; extractor.select(0), Ok(()));
    assert_eq!(rt; extractor.track(), Some(0));
    assert_eq!(rt; extractor.time_us(), Some(0));
    assert_eq!(rt; extractor.flags(), Some(1));
    assert_eq!(rt; extractor.place(), Some(Place { at: 40, len: 4 }));
    assert_eq!(rt; extractor.advance(), true);
    assert_eq!(rt; extractor.time_us(), Some(21_333));
    assert_eq!(rt; extractor.place(), Some(Place { at: 44, len: 4 }));
    assert_eq!(rt; extractor.advance(), true);
    assert_eq!(rt; extractor.time_us(), Some(42_666));
    assert_eq!(rt; extractor.advance(), false);
    assert_eq!(rt; extractor.time_us(), None);
    assert_eq!(rt; extractor.advance(), false);
    Ok(())
}

// A track that is selected twice stays where it is, and one that is selected again after it was unselected
// begins anew.
#[test]
fn selecting_again_changes_nothing(rt: HostRuntime) -> Result<(), Fail> {
    let movie = movie_of(rt.alloc(), &SOUND)?;
    let mut extractor = Extractor::new(rt.alloc(), &movie)?;
    assert_eq!(rt; extractor.select(0), Ok(()));
    assert_eq!(rt; extractor.advance(), true);
    assert_eq!(rt; extractor.select(0), Ok(()));
    assert_eq!(rt; extractor.time_us(), Some(21_333));
    assert_eq!(rt; extractor.unselect(0), Ok(()));
    assert_eq!(rt; extractor.time_us(), None);
    assert_eq!(rt; extractor.select(0), Ok(()));
    assert_eq!(rt; extractor.time_us(), Some(0));
    Ok(())
}

// What is handed out of the current sample, if these are so many bytes as it has.
fn handed_out<'a>(alloc: Global, extractor: &Extractor<'a>, stored: &[u8]) -> Result<Bytes, Fail> {
    let place = extractor.place().ok_or("no sample")?;
    if stored.len() != place.len as usize {
        return Err("other bytes".into());
    }
    let mut out = Bytes::from_slice(alloc, b"x")?;
    match extractor.sample_bytes(stored, &mut out) {
        Ok(_) => Ok(out),
        Err(_) => Err("refused".into()),
    }
}

#[test]
fn sound_is_handed_out_as_stored(rt: HostRuntime) -> Result<(), Fail> {
    let movie = movie_of(rt.alloc(), &SOUND)?;
    let mut extractor = Extractor::new(rt.alloc(), &movie)?;
    assert_eq!(rt; extractor.select(0), Ok(()));
    let out = handed_out(rt.alloc(), &extractor, b"\x21\x10\x04\x60")?;
    assert_eq!(rt; out.as_slice(), b"x\x21\x10\x04\x60".as_slice());
    Ok(())
}
