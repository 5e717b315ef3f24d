ghost use Rattle.std.specs.Prelude.{◌≡◌, [], None, IfOk};
ghost use Rattle.sf_coded.specs.Progress.{EndsSo, HasRead};

use super::*;
use sf_box::{put_bytes, put_u16, put_u32, put_u64};
use sf_list::Bytes;
use sf_tick::Kind;
use sf_world::{MemSource, Source};
use std::alloc::{AllocError, Global};
use std::test::Fail;

// How many bytes there are, as a field of four bytes says it.
fn size(bytes: &[u8]) -> u32 {
    u32::try_from(bytes.len()).unwrap_or(u32::MAX)
}

// A header of an AAC input with a configuration.
fn header(alloc: Global, config: &[u8]) -> Result<Bytes, AllocError> {
    let mut out = Bytes::from_slice(alloc, b"SFCS")?;
    put_u16(&mut out, 1)?;
    put_u16(&mut out, 2)?;
    put_u32(&mut out, 0)?;
    put_u16(&mut out, 0)?;
    put_u16(&mut out, 0)?;
    put_u16(&mut out, 2)?;
    put_u32(&mut out, size(config))?;
    put_bytes(&mut out, config)?;
    Ok(out)
}

// A sync sample whose two times are equal.
fn put_record(out: &mut Bytes, time_us: u64, payload: &[u8]) -> Result<(), AllocError> {
    put_bytes(out, &[1, 1])?;
    put_u64(out, time_us)?;
    put_u64(out, time_us)?;
    put_u32(out, size(payload))?;
    put_bytes(out, payload)
}

// Three samples of four bytes, at 24, 50 and 76; the end stands at 102.
fn three_samples(alloc: Global) -> Result<Bytes, AllocError> {
    let mut out = header(alloc, &[0x11, 0x90])?;
    put_record(&mut out, 0, &[0x21, 0x10, 4, 0x60])?;
    put_record(&mut out, 21_333, &[0x21, 0x10, 4, 0x60])?;
    put_record(&mut out, 42_667, &[0x21, 0x10, 4, 0x60])?;
    put_bytes(&mut out, &[0])?;
    Ok(out)
}

// How many samples a file says, none where its header is refused, and how it ends.
#[derive(Clone, Copy, Debug, PartialEq, Eq)]
struct Outcome {
    samples: Option<u32>,
    end: Option<CodedFault>,
}

fn outcome_of(alloc: Global, bytes: Bytes) -> Outcome {
    match Coded::begin(alloc, MemSource::new(alloc, bytes, Vec::new(alloc))) {
        Err((_, fault)) => Outcome {
            samples: None,
            end: Some(fault),
        },
        Ok(mut coded) => rest(&mut coded),
    }
}

fn rest(coded: &mut Coded<MemSource>) -> Outcome {
    for count in 0..10u32 {
        match coded.next() {
            Ok(Some(_)) => {}
            Ok(None) => {
                return Outcome {
                    samples: Some(count),
                    end: None,
                };
            }
            Err(fault) => {
                return Outcome {
                    samples: Some(count),
                    end: Some(fault),
                };
            }
        }
    }
    Outcome {
        samples: Some(10),
        end: None,
    }
}

// The three samples with other bytes at a place.
fn patched(alloc: Global, at: usize, other: &[u8]) -> Result<Outcome, AllocError> {
    let mut bytes = three_samples(alloc)?;
    if at <= bytes.len() && other.len() <= bytes.len() - at {
        bytes.patch(at, other);
    }
    Ok(outcome_of(alloc, bytes))
}

fn refused(end: CodedFault) -> Outcome {
    Outcome {
        samples: None,
        end: Some(end),
    }
}

fn ends(samples: u32, end: CodedFault) -> Outcome {
    Outcome {
        samples: Some(samples),
        end: Some(end),
    }
}

#[test]
fn a_file_is_read_to_its_end(rt: HostRuntime) -> Result<(), Fail> {
    let alloc = rt.alloc();
    let source = MemSource::new(alloc, three_samples(alloc)?, Vec::new(alloc));
    let Ok(mut coded) = Coded::begin(alloc, source) else {
        assert!(rt; false);
        return Ok(());
    };
    assert_eq!(rt; coded.setup().kind, Kind::Aac);
    assert_eq!(rt; coded.setup().channels, 2);
    assert_eq!(rt; coded.setup().config.as_slice(), [0x11, 0x90].as_slice());
    let mut at = 24;
    for time in [0, 21_333, 42_667] {
        let found = coded.next();
        assert!(rt; matches!(&found, Ok(Some(_))));
        if let Ok(Some(found)) = found {
            assert_eq!(rt; found.at, at);
            assert_eq!(rt; found.sample.dts_us, time);
            assert_eq!(rt; found.sample.pts_us, time);
            assert!(rt; found.sample.sync);
            assert_eq!(rt;
                found.sample.bytes.as_slice(),
                [0x21, 0x10, 4, 0x60].as_slice()
            );
            at = found.at.saturating_add(26);
        }
    }
    assert!(rt; matches!(coded.next(), Ok(None)));
    assert!(rt; matches!(coded.next(), Ok(None)));
    assert_eq!(rt; coded.give_source().count(), 0);
    Ok(())
}

#[test]
fn a_file_cut_at_any_byte_is_truncated_there(rt: HostRuntime) -> Result<(), Fail> {
    let alloc = rt.alloc();
    for len in 0..103u64 {
        let mut bytes = three_samples(alloc)?;
        bytes.cut(len as usize);
        let truncated = CodedFault::Truncated { at: len };
        let wanted = match len {
            0..24 => refused(truncated),
            24..50 => ends(0, truncated),
            50..76 => ends(1, truncated),
            76..102 => ends(2, truncated),
            _ => ends(3, truncated),
        };
        assert_eq!(rt; outcome_of(alloc, bytes), wanted);
    }
    Ok(())
}

#[test]
fn each_refusal_of_a_header_names_its_field(rt: HostRuntime) -> Result<(), Fail> {
    let alloc = rt.alloc();
    assert_eq!(rt; patched(alloc, 3, b"T")?, refused(CodedFault::Magic));
    assert_eq!(rt;
        patched(alloc, 4, &[0, 0])?,
        refused(CodedFault::Version(0))
    );
    assert_eq!(rt;
        patched(alloc, 4, &[1, 1])?,
        refused(CodedFault::Version(257))
    );
    assert_eq!(rt;
        patched(alloc, 6, &[0, 0])?,
        refused(CodedFault::KindCode(0))
    );
    assert_eq!(rt;
        patched(alloc, 6, &[0, 3])?,
        refused(CodedFault::KindCode(3))
    );
    assert_eq!(rt;
        patched(alloc, 18, &[0, 1, 0, 1])?,
        refused(CodedFault::ConfigTooLong { len: 65_537 })
    );
    assert_eq!(rt;
        patched(alloc, 18, &[0, 1, 0, 0])?,
        refused(CodedFault::Truncated { at: 103 })
    );
    assert_eq!(rt; CodedFault::Version(257).place(), 4);
    // The first refusal in the file's order counts.
    assert_eq!(rt;
        patched(alloc, 0, &[0, 0, 0, 0, 0, 0, 0, 0])?,
        refused(CodedFault::Magic)
    );
    Ok(())
}

#[test]
fn each_refusal_of_a_record_names_its_tag(rt: HostRuntime) -> Result<(), Fail> {
    let alloc = rt.alloc();
    for tag in 2..=255u8 {
        assert_eq!(rt;
            patched(alloc, 50, &[tag])?,
            ends(1, CodedFault::Tag { at: 50, tag })
        );
    }
    assert_eq!(rt;
        patched(alloc, 50, &[0])?,
        ends(1, CodedFault::Trailing { at: 51 })
    );
    assert_eq!(rt;
        patched(alloc, 42, &[0, 0, 0, 0])?,
        ends(0, CodedFault::Empty { at: 24 })
    );
    // One byte of payload, and then the second one as a tag.
    assert_eq!(rt;
        patched(alloc, 42, &[0, 0, 0, 1])?,
        ends(1, CodedFault::Tag { at: 47, tag: 16 })
    );
    assert_eq!(rt;
        patched(alloc, 42, &[1, 0, 0, 0])?,
        ends(0, CodedFault::Truncated { at: 103 })
    );
    assert_eq!(rt;
        patched(alloc, 42, &[1, 0, 0, 1])?,
        ends(
            0,
            CodedFault::TooLong {
                at: 24,
                len: 16_777_217
            }
        )
    );
    assert_eq!(rt;
        patched(alloc, 42, &[255; 4])?,
        ends(
            0,
            CodedFault::TooLong {
                at: 24,
                len: u32::MAX
            }
        )
    );
    let mut bytes = three_samples(alloc)?;
    put_bytes(&mut bytes, &[0])?;
    assert_eq!(rt;
        outcome_of(alloc, bytes),
        ends(3, CodedFault::Trailing { at: 103 })
    );
    Ok(())
}

// So many bytes, each other than those around it.
fn pattern(alloc: Global, len: usize) -> Result<Bytes, AllocError> {
    let mut bytes = Bytes::new(alloc);
    for i in 0..len {
        if bytes.push((i % 251) as u8).is_err() {
            return Err(AllocError);
        }
    }
    Ok(bytes)
}

#[test]
fn payloads_are_whole_however_the_block_falls(rt: HostRuntime) -> Result<(), Fail> {
    let alloc = rt.alloc();
    let config = pattern(alloc, 65_536)?;
    let lens = [1usize, 40_000, 40_000, 65_535, 65_536, 65_537, 200_000, 3];
    let mut bytes = header(alloc, config.as_slice())?;
    for len in lens {
        let payload = pattern(alloc, len)?;
        put_record(&mut bytes, len as u64, payload.as_slice())?;
    }
    put_bytes(&mut bytes, &[0])?;
    let source = MemSource::new(alloc, bytes, Vec::new(alloc));
    let Ok(mut coded) = Coded::begin(alloc, source) else {
        assert!(rt; false);
        return Ok(());
    };
    assert_eq!(rt; coded.setup().config.as_slice(), config.as_slice());
    for len in lens {
        let found = coded.next();
        assert!(rt; matches!(&found, Ok(Some(_))));
        if let Ok(Some(found)) = found {
            assert_eq!(rt; found.sample.dts_us, len as u64);
            assert!(rt; found.sample.bytes.as_slice() == pattern(alloc, len)?.as_slice());
        }
    }
    assert!(rt; matches!(coded.next(), Ok(None)));
    Ok(())
}

#[test]
fn a_payload_may_have_16_777_216_bytes(rt: HostRuntime) -> Result<(), Fail> {
    let alloc = rt.alloc();
    let payload = vec![in alloc; 7u8; 16_777_216]?;
    let mut bytes = header(alloc, &[])?;
    put_record(&mut bytes, 5, payload.as_slice())?;
    put_bytes(&mut bytes, &[0])?;
    let wanted = Outcome {
        samples: Some(1),
        end: None,
    };
    assert_eq!(rt; outcome_of(alloc, bytes), wanted);
    Ok(())
}

// Reads three samples, of which the second lies in two blocks, while one read fails: how many
// samples came before the fault, and whether the rest came after it.
fn with_a_failing_read(alloc: Global, call: u64) -> Result<(Outcome, Outcome, u64), AllocError> {
    let mut bytes = header(alloc, &[0x11, 0x90])?;
    put_record(&mut bytes, 0, &[1])?;
    put_record(&mut bytes, 1, pattern(alloc, 140_000)?.as_slice())?;
    put_record(&mut bytes, 2, &[3])?;
    put_bytes(&mut bytes, &[0])?;
    match Coded::begin(alloc, MemSource::new(alloc, bytes, vec![in alloc; call]?)) {
        Err((source, fault)) => Ok((refused(fault), refused(fault), source.count())),
        Ok(mut coded) => {
            let first = rest(&mut coded);
            let second = rest(&mut coded);
            Ok((first, second, coded.give_source().count()))
        }
    }
}

#[test]
fn after_a_failed_read_nothing_is_lost(rt: HostRuntime) -> Result<(), Fail> {
    let alloc = rt.alloc();
    let whole = Outcome {
        samples: Some(3),
        end: None,
    };
    let behind = |samples: u32| Outcome {
        samples: Some(samples),
        end: None,
    };
    let fault = CodedFault::ReadFault;
    assert_eq!(rt;
        with_a_failing_read(alloc, 0)?,
        (refused(fault), refused(fault), 1)
    );
    assert_eq!(rt;
        with_a_failing_read(alloc, 1)?,
        (ends(1, fault), behind(2), 1)
    );
    assert_eq!(rt;
        with_a_failing_read(alloc, 2)?,
        (ends(2, fault), behind(1), 1)
    );
    assert_eq!(rt; with_a_failing_read(alloc, 3)?, (whole, behind(0), 0));
    Ok(())
}

// All samples of a file whose header was read: what the answers say together is what the file says.
fn all_samples<S: Source>(
    alloc: Global,
    coded: &mut Coded<S>,
) -> Result<Vec<CodedSample>, CodedFault>
    ensures { HasRead [] coded.old → IfOk result (λ v. EndsSo coded.new.source.content coded.new.setup v.items None) }
{
    let mut samples = Vec::new(alloc);
    loop {
        match coded.next()? {
            Some(found) => {
                if samples.push(found).is_err() {
                    return Err(CodedFault::NoMemory);
                }
            }
            None => return Ok(samples),
        }
    }
}

#[test]
fn the_samples_together_are_those_of_the_file(rt: HostRuntime) -> Result<(), Fail> {
    let alloc = rt.alloc();
    let source = MemSource::new(alloc, three_samples(alloc)?, Vec::new(alloc));
    if let Ok(mut coded) = Coded::begin(alloc, source) {
        let samples = all_samples(alloc, &mut coded);
        assert!(rt; matches!(&samples, Ok(found) if found.len() == 3));
    }
    Ok(())
}

// Whether values of a type may be sent to other threads.
fn is_sent<T: Send>(_value: &T) -> bool {
    true
}

#[test]
fn a_coded_file_can_be_read_in_another_thread(rt: HostRuntime) -> Result<(), Fail> {
    let alloc = rt.alloc();
    if let Ok(coded) = Coded::begin(
        alloc,
        MemSource::new(alloc, three_samples(alloc)?, Vec::new(alloc)),
    ) {
        assert!(rt; is_sent(&coded));
    }
    Ok(())
}
