use super::*;
use sf_list::{holds, same};

#[test]
fn the_box_holds_the_tables_in_order(rt: HostRuntime) -> Result<(), Fail> {
    let samples: [Given; 3] = [
        (0, 0, true, 4),
        (1024, 1024, true, 4),
        (2048, 2048, true, 4),
    ];
    let out = encoded(rt.alloc(), &[(40, &samples)])?;
    let wanted = b"\0\0\0\x78stbl\
        \0\0\0\x14stsd\0\0\0\0\0\0\0\x01ntry\
        \0\0\0\x18stts\0\0\0\0\0\0\0\x01\0\0\0\x03\0\0\x04\0\
        \0\0\0\x14stsz\0\0\0\0\0\0\0\x04\0\0\0\x03\
        \0\0\0\x1Cstsc\0\0\0\0\0\0\0\x01\0\0\0\x01\0\0\0\x03\0\0\0\x01\
        \0\0\0\x14stco\0\0\0\0\0\0\0\x01\0\0\0\x28";
    same(out.as_slice(), wanted.as_slice())?;
    Ok(())
}

#[test]
fn without_samples_the_tables_are_empty(rt: HostRuntime) -> Result<(), Fail> {
    let out = encoded(rt.alloc(), &[])?;
    let wanted = b"\0\0\0\x60stbl\
        \0\0\0\x14stsd\0\0\0\0\0\0\0\x01ntry\
        \0\0\0\x10stts\0\0\0\0\0\0\0\0\
        \0\0\0\x14stsz\0\0\0\0\0\0\0\0\0\0\0\0\
        \0\0\0\x10stsc\0\0\0\0\0\0\0\0\
        \0\0\0\x10stco\0\0\0\0\0\0\0\0";
    same(out.as_slice(), wanted.as_slice())?;
    Ok(())
}

#[test]
fn tables_tell_their_duration_count_and_first_time(rt: HostRuntime) -> Result<(), Fail> {
    let chunks: [(u64, &[Given]); 2] = [
        (40, &[(3, 3, true, 4), (8, 8, true, 4)]),
        (48, &[(12, 12, true, 4)]),
    ];
    let (none, _) = tables(rt.alloc(), &[])?;
    same(
        (none.duration(), none.count(), none.first_dts()),
        (0, 0, None),
    )?;
    let (tables, told) = tables(rt.alloc(), &chunks)?;
    holds(told)?;
    same(
        (tables.duration(), tables.count(), tables.first_dts()),
        (13, 3, Some(21)),
    )?;
    Ok(())
}

#[test]
fn the_box_is_put_behind_what_is_there(rt: HostRuntime) -> Result<(), Fail> {
    let (tables, _) = tables(rt.alloc(), &[])?;
    let mut out = Bytes::from_slice(rt.alloc(), b"before")?;
    if tables.size(4) < 1 << 32 {
        tables.encode(&ENTRY, &mut out)?;
    }
    same(out.len(), 102)?;
    holds(out.as_slice().starts_with(b"before\0\0\0\x60stbl"))?;
    Ok(())
}
