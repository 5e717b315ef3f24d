use super::*;
use sf_list::{holds, same};

#[test]
fn deltas_are_written_as_runs(rt: HostRuntime) -> Result<(), Fail> {
    let table: [(&[(u64, &[Given])], &[u8]); 5] = [
        (
            &[(
                40,
                &[
                    (0, 0, true, 4),
                    (1024, 1024, true, 4),
                    (2048, 2048, true, 4),
                ],
            )],
            b"\0\0\0\x18stts\0\0\0\0\0\0\0\x01\0\0\0\x03\0\0\x04\0",
        ),
        (
            &[(40, &[(0, 0, true, 4), (5, 5, true, 4), (9, 9, true, 4)])],
            b"\0\0\0\x20stts\0\0\0\0\0\0\0\x02\0\0\0\x01\0\0\0\x05\0\0\0\x02\0\0\0\x04",
        ),
        (
            &[
                (40, &[(0, 0, true, 4), (0, 0, true, 4)]),
                (48, &[(1024, 1024, true, 4)]),
            ],
            b"\0\0\0\x20stts\0\0\0\0\0\0\0\x02\0\0\0\x01\0\0\0\0\0\0\0\x02\0\0\x04\0",
        ),
        (
            &[(40, &[(77, 77, true, 4)])],
            b"\0\0\0\x18stts\0\0\0\0\0\0\0\x01\0\0\0\x01\0\0\0\0",
        ),
        (&[], b"\0\0\0\x10stts\0\0\0\0\0\0\0\0"),
    ];
    for (chunks, wanted) in table {
        holds(holds_bytes(&encoded(rt.alloc(), chunks)?, wanted))?;
    }
    Ok(())
}

#[test]
fn composition_offsets_are_written_where_one_is_not_0(rt: HostRuntime) -> Result<(), Fail> {
    let table: [(&[Given], bool, &[u8]); 3] = [
        (
            &[
                (0, 3000, true, 4),
                (3000, 9000, true, 4),
                (6000, 6000, true, 4),
            ],
            true,
            b"\0\0\0\x28ctts\0\0\0\0\0\0\0\x03\0\0\0\x01\0\0\x0B\xB8\0\0\0\x01\0\0\x17\x70\0\0\0\x01\0\0\0\0",
        ),
        (
            &[(9000, 9000, true, 4), (9000, 6000, true, 4)],
            true,
            b"\0\0\0\x20ctts\x01\0\0\0\0\0\0\x02\0\0\0\x01\0\0\0\0\0\0\0\x01\xFF\xFF\xF4\x48",
        ),
        (&[(0, 0, true, 4), (5, 5, true, 4)], false, b"ctts"),
    ];
    for (samples, there, wanted) in table {
        let out = encoded(rt.alloc(), &[(40, samples)])?;
        holds(!out.is_empty())?;
        same(holds_bytes(&out, wanted), there)?;
    }
    Ok(())
}

#[test]
fn sync_samples_are_numbered_where_one_is_not_sync(rt: HostRuntime) -> Result<(), Fail> {
    let table: [(&[Given], bool, &[u8]); 3] = [
        (
            &[(0, 0, true, 4), (5, 5, false, 4), (9, 9, true, 4)],
            true,
            b"\0\0\0\x18stss\0\0\0\0\0\0\0\x02\0\0\0\x01\0\0\0\x03",
        ),
        (&[(0, 0, false, 4)], true, b"\0\0\0\x10stss\0\0\0\0\0\0\0\0"),
        (&[(0, 0, true, 4), (5, 5, true, 4)], false, b"stss"),
    ];
    for (samples, there, wanted) in table {
        let out = encoded(rt.alloc(), &[(40, samples)])?;
        holds(!out.is_empty())?;
        same(holds_bytes(&out, wanted), there)?;
    }
    Ok(())
}

#[test]
fn sizes_are_written_once_where_all_are_equal(rt: HostRuntime) -> Result<(), Fail> {
    let table: [(&[Given], &[u8]); 2] = [
        (
            &[(0, 0, true, 4), (5, 5, true, 4), (9, 9, true, 4)],
            b"\0\0\0\x14stsz\0\0\0\0\0\0\0\x04\0\0\0\x03",
        ),
        (
            &[(0, 0, true, 4), (5, 5, true, 4), (9, 9, true, 5)],
            b"\0\0\0\x20stsz\0\0\0\0\0\0\0\0\0\0\0\x03\0\0\0\x04\0\0\0\x04\0\0\0\x05",
        ),
    ];
    for (samples, wanted) in table {
        holds(holds_bytes(&encoded(rt.alloc(), &[(40, samples)])?, wanted))?;
    }
    Ok(())
}
