//! The codes and the lines of answers.

use super::*;
use sf_app::put_answer;
use sf_list::same;
use std::test::Fail;

#[test]
fn each_answer_has_its_code(rt: HostRuntime) -> Result<(), Fail> {
    let fault = TrackFault {
        why: InputFault::Coded(CodedFault::Magic),
        place: 0,
    };
    let limit = LimitShown::Count {
        track: 0,
        sample: 0,
        would_be: 1,
        max: 0,
    };
    let refused = Status::SampleRefused {
        reader: 0,
        track: 0,
        sample: 0,
        at: 0,
    };
    let missing = Status::PlanRefused {
        reader: 0,
        command: 0,
    };
    let codes = [
        (Status::Done, 0),
        (Status::Usage(UsageFault::Words), 2),
        (Status::OpenFault { input: 0 }, 3),
        (Status::ReadFault { input: 0 }, 4),
        (Status::WriteFault, 5),
        (Status::InputRefused { track: 0, fault }, 6),
        (Status::MovieRefused(MovieFault::NoMoov { at: 0 }), 7),
        (refused, 7),
        (Status::LimitReached(limit), 8),
        (missing, 9),
        (Status::NoMemory, 10),
    ];
    for (status, code) in codes {
        same(status.code(), code)?;
    }
    Ok(())
}

#[test]
fn each_limit_has_its_line(rt: HostRuntime) -> Result<(), Fail> {
    let alloc = rt.alloc();
    let movie = LimitShown::Movie {
        track: 0,
        sample: 5_000_000,
        would_be: 268_435_460,
        max: 268_435_456,
    };
    let count = LimitShown::Count {
        track: 0,
        sample: 16_777_215,
        would_be: 16_777_217,
        max: 16_777_216,
    };
    let nothing = LimitShown::Nothing {
        would_be: 604,
        max: 603,
    };
    let size = LimitShown::Size {
        track: 1,
        sample: 2,
        would_be: 648,
        max: 647,
    };
    let duration = LimitShown::Duration {
        track: 15,
        sample: 7,
        at_us: 3_000_000,
        file_start_us: 1_000_000,
        max_us: 1_500_000,
    };
    let rows: [(LimitShown, &[u8]); 5] = [
        (nothing, b"limit reached: nothing 604 603\n"),
        (size, b"limit reached: size 1 2 648 647\n"),
        (
            duration,
            b"limit reached: duration 15 7 3000000 1000000 1500000\n",
        ),
        (
            movie,
            b"limit reached: movie 0 5000000 268435460 268435456\n",
        ),
        (
            count,
            b"limit reached: count 0 16777215 16777217 16777216\n",
        ),
    ];
    for (limit, line) in rows {
        let mut text = MemText::new(alloc);
        same(
            put_answer(alloc, &mut text, &Status::LimitReached(limit)),
            Ok(()),
        )?;
        same(text.bytes(), line)?;
    }
    Ok(())
}
