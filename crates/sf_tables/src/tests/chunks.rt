use super::*;
use sf_list::holds;

#[test]
fn a_chunk_has_an_entry_where_its_count_differs(rt: HostRuntime) -> Result<(), Fail> {
    let chunks: [(u64, &[Given]); 3] = [
        (40, &[(0, 0, true, 4), (1, 1, true, 4)]),
        (48, &[(2, 2, true, 4), (3, 3, true, 4)]),
        (56, &[(4, 4, true, 4)]),
    ];
    let out = encoded(rt.alloc(), &chunks)?;
    let stsc =
        b"\0\0\0\x28stsc\0\0\0\0\0\0\0\x02\0\0\0\x01\0\0\0\x02\0\0\0\x01\0\0\0\x03\0\0\0\x01\0\0\0\x01";
    let stco = b"\0\0\0\x1Cstco\0\0\0\0\0\0\0\x03\0\0\0\x28\0\0\0\x30\0\0\0\x38";
    holds(holds_bytes(&out, stsc))?;
    holds(holds_bytes(&out, stco))?;
    Ok(())
}

#[test]
fn places_have_eight_bytes_where_one_needs_them(rt: HostRuntime) -> Result<(), Fail> {
    let table: [(u64, &[u8]); 3] = [
        (
            0xFFFF_FFFF,
            b"\0\0\0\x14stco\0\0\0\0\0\0\0\x01\xFF\xFF\xFF\xFF",
        ),
        (
            0x1_0000_0000,
            b"\0\0\0\x18co64\0\0\0\0\0\0\0\x01\0\0\0\x01\0\0\0\0",
        ),
        (
            0x1_0000_0028,
            b"\0\0\0\x18co64\0\0\0\0\0\0\0\x01\0\0\0\x01\0\0\0\x28",
        ),
    ];
    for (place, wanted) in table {
        let out = encoded(rt.alloc(), &[(place, &[(0, 0, true, 4)])])?;
        holds(holds_bytes(&out, wanted))?;
    }
    Ok(())
}
