//! Words that no command takes.

use super::*;
use sf_list::{holds, same};
use std::test::Fail;

const USAGE: &[u8] =
    b"usage: record INPUT.. | extract MOVIE PLAN.. | list MOVIE | make COUNT TRACKS\n";

#[test]
fn words_that_are_no_command_are_refused(rt: HostRuntime) -> Result<(), Fail> {
    let rows: [(&[&str], UsageFault); 3] = [
        (&["records", "a"], UsageFault::Command),
        (&["record", "a", "-a"], UsageFault::Words),
        (
            &["extract", "a", "r", "s0,x", "x"],
            UsageFault::PlanWord { reader: 1, at: 3 },
        ),
    ];
    for (words, fault) in rows {
        let ended = run_words(rt.alloc(), words, &INPUT)?;
        ended.gives(Status::Usage(fault), USAGE)?;
        holds(ended.shelf.file(0).is_none())?;
    }
    Ok(())
}
