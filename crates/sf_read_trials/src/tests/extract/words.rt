//! Plan words, and their faults at their places.

use super::*;

/// Where a word can't be a plan, if it isn't one.
fn fault_at(alloc: Global, word: &str) -> Option<u64> {
    match read_plan(alloc, word) {
        Err(PlanFault::BadWord { at }) => Some(at),
        _ => None,
    }
}

#[test]
fn a_word_is_read_as_its_commands(rt: HostRuntime) -> Result<(), Fail> {
    let plan = read_plan(rt.alloc(), "s0,u12,p5000,n9223372036854775807,c0,r,a,e")
        .ok()
        .ok_or("refused")?;
    let wanted = [
        Command::Select(0),
        Command::Unselect(12),
        Command::Seek(Mode::Previous, 5000),
        Command::Seek(Mode::Next, 9_223_372_036_854_775_807),
        Command::Seek(Mode::Closest, 0),
        Command::Read,
        Command::Advance,
        Command::ToEnd,
    ];
    assert_eq!(rt; plan.as_slice(), wanted.as_slice());
    Ok(())
}

#[test]
fn a_fault_names_the_first_byte_that_is_wrong(rt: HostRuntime) -> Result<(), Fail> {
    let alloc = rt.alloc();
    assert_eq!(rt; fault_at(alloc, ""), Some(0));
    assert_eq!(rt; fault_at(alloc, "x"), Some(0));
    assert_eq!(rt; fault_at(alloc, "s0,x"), Some(3));
    assert_eq!(rt; fault_at(alloc, "s"), Some(1));
    assert_eq!(rt; fault_at(alloc, "s,r"), Some(1));
    assert_eq!(rt; fault_at(alloc, "s0,"), Some(3));
    assert_eq!(rt; fault_at(alloc, "r5"), Some(1));
    assert_eq!(rt; fault_at(alloc, "s5x"), Some(2));
    assert_eq!(rt; fault_at(alloc, "s0 ,r"), Some(2));
    assert_eq!(rt; fault_at(alloc, "p00000000000000000001"), Some(20));
    assert_eq!(rt; fault_at(alloc, "p9223372036854775808"), Some(1));
    assert_eq!(rt; fault_at(alloc, "p9999999999999999999x"), Some(1));
    Ok(())
}

// The first command of a word that names a track which the file of one track doesn't have.
fn missing_of(alloc: Global, word: &str) -> Result<Option<u64>, Fail> {
    let movie = movie_of(alloc, &SOUND)?;
    let plan = read_plan(alloc, word).ok().ok_or("no plan")?;
    Ok(missing_track(&plan, &movie))
}

#[test]
fn a_missing_track_is_told_by_its_command(rt: HostRuntime) -> Result<(), Fail> {
    let alloc = rt.alloc();
    assert_eq!(rt; missing_of(alloc, "s5")?, Some(0));
    assert_eq!(rt; missing_of(alloc, "s0,r,u1")?, Some(2));
    assert_eq!(rt; missing_of(alloc, "s0,u0,e")?, None);
    Ok(())
}
