use super::*;
use sf_list::{Bytes, holds, same};
use std::alloc::Global;
use std::test::Fail;

#[test]
fn numbers_stand_highest_byte_first(rt: HostRuntime) -> Result<(), Fail> {
    let mut out = Bytes::new(rt.alloc());
    put_u16(&mut out, 0x0102)?;
    put_u32(&mut out, 0x0304_0506)?;
    put_u64(&mut out, 0x0708_090A_0B0C_0D0E)?;
    put_bytes(&mut out, &[15, 16])?;
    let wanted = [1, 2, 3, 4, 5, 6, 7, 8, 9, 10, 11, 12, 13, 14, 15, 16];
    same(out.as_slice(), wanted.as_slice())?;
    same(read_u16(&wanted, 14), 0x0F10)?;
    same(read_u32(&wanted, 2), 0x0304_0506)?;
    same(read_u64(&wanted, 6), 0x0708_090A_0B0C_0D0E)?;
    Ok(())
}

#[test]
fn a_box_is_written_at_once_and_in_parts(rt: HostRuntime) -> Result<(), Fail> {
    let mut out = Bytes::from_slice(rt.alloc(), b"in front")?;
    put_box(&mut out, FourCc(*b"free"), b"abc")?;
    let mark = begin_box(&mut out, FourCc(*b"udta"))?;
    same(mark, 19)?;
    put_box(&mut out, FourCc(*b"sfts"), &[])?;
    end_box(&mut out, mark);
    let wanted = b"in front\x00\x00\x00\x0bfreeabc\x00\x00\x00\x10udta\x00\x00\x00\x08sfts";
    same(out.as_slice(), wanted.as_slice())?;
    Ok(())
}

// The heads of the children, or the first fault, of bytes that begin at place 100.
fn at_100(alloc: Global, bytes: &[u8]) -> Result<Heads, ChildrenFault> {
    if bytes.len() > 1000 {
        return Err(ChildrenFault::NoMemory);
    }
    children(alloc, bytes, 100)
}

// The only head, of the type `free`.
fn only(alloc: Global, bytes: &[u8], head: u64, size: u64) -> bool {
    match at_100(alloc, bytes) {
        Ok(heads) => {
            let wanted = BoxHead {
                kind: FourCc(*b"free"),
                at: 100,
                head,
                size,
            };
            heads.as_slice() == [wanted].as_slice()
        }
        Err(_) => false,
    }
}

// The first fault of the children.
fn fails(alloc: Global, bytes: &[u8], fault: ChildrenFault) -> bool {
    match at_100(alloc, bytes) {
        Ok(_) => false,
        Err(found) => found == fault,
    }
}

#[test]
fn children_refuse_the_first_box_that_is_not_whole(rt: HostRuntime) -> Result<(), Fail> {
    let alloc = rt.alloc();
    let short = ChildrenFault::Short { at: 100 };
    let over = |size: u64| ChildrenFault::Overrun { at: 100, size };
    holds(at_100(alloc, b"").is_ok())?;
    holds(fails(alloc, b"\x00", short))?;
    holds(fails(alloc, b"\x00\x00\x00", short))?;
    holds(fails(alloc, b"\x00\x00\x00\x08", short))?;
    holds(fails(alloc, b"\x00\x00\x00\x08fre", short))?;
    holds(fails(alloc, b"\x00\x00\x00\x07free", over(7)))?;
    holds(only(alloc, b"\x00\x00\x00\x08free", 8, 8))?;
    holds(fails(alloc, b"\x00\x00\x00\x09free", over(9)))?;
    holds(only(alloc, b"\x00\x00\x00\x09freex", 8, 9))?;
    holds(fails(alloc, b"\x00\x00\x00\x00free", over(0)))?;
    Ok(())
}

#[test]
fn children_take_sizes_in_eight_bytes(rt: HostRuntime) -> Result<(), Fail> {
    let alloc = rt.alloc();
    let short = ChildrenFault::Short { at: 100 };
    let over = |size: u64| ChildrenFault::Overrun { at: 100, size };
    holds(fails(alloc, b"\x00\x00\x00\x01free", short))?;
    holds(fails(
        alloc,
        b"\x00\x00\x00\x01free\x00\x00\x00\x00\x00\x00\x00",
        short,
    ))?;
    holds(fails(
        alloc,
        b"\x00\x00\x00\x01free\x00\x00\x00\x00\x00\x00\x00\x00",
        over(0),
    ))?;
    holds(fails(
        alloc,
        b"\x00\x00\x00\x01free\x00\x00\x00\x00\x00\x00\x00\x0f",
        over(15),
    ))?;
    holds(only(
        alloc,
        b"\x00\x00\x00\x01free\x00\x00\x00\x00\x00\x00\x00\x10",
        16,
        16,
    ))?;
    holds(fails(
        alloc,
        b"\x00\x00\x00\x01free\x00\x00\x00\x00\x00\x00\x00\x11",
        over(17),
    ))?;
    holds(fails(
        alloc,
        b"\x00\x00\x00\x01free\x80\x00\x00\x00\x00\x00\x00\x00",
        over(1 << 63),
    ))?;
    holds(fails(
        alloc,
        b"\x00\x00\x00\x01free\xff\xff\xff\xff\xff\xff\xff\xff",
        over(u64::MAX),
    ))?;
    Ok(())
}

#[test]
fn a_head_at_the_top_may_reach_to_the_end(rt: HostRuntime) -> Result<(), Fail> {
    let wide = b"\x00\x00\x00\x01mdat\x00\x00\x00\x01\x00\x00\x00\x00";
    let mdat = |head: u64, size: u64| BoxHead {
        kind: FourCc(*b"mdat"),
        at: 24,
        head,
        size,
    };
    let open = b"\x00\x00\x00\x00mdat01234567";
    same(
        read_head(open, 24, 1 << 40, true),
        Ok(mdat(8, (1 << 40) - 24)),
    )?;
    same(
        read_head(open, 24, 1 << 40, false),
        Err(BoxFault::Overrun { at: 24, size: 0 }),
    )?;
    same(read_head(&open[..8], 24, 32, true), Ok(mdat(8, 8)))?;
    same(
        read_head(wide, 24, 24 + (1 << 32), true),
        Ok(mdat(16, 1 << 32)),
    )?;
    same(
        read_head(wide, 24, 23 + (1 << 32), true),
        Err(BoxFault::Overrun {
            at: 24,
            size: 1 << 32,
        }),
    )?;
    Ok(())
}

#[test]
fn boxes_are_found_and_lent(rt: HostRuntime) -> Result<(), Fail> {
    let bytes =
        b"\x00\x00\x00\x0bfreeabc\x00\x00\x00\x0afreexy\x00\x00\x00\x08skip\x00\x00\x00\x09";
    let alloc = rt.alloc();
    holds(fails(alloc, bytes, ChildrenFault::Short { at: 129 }))?;
    let heads = leading(alloc, bytes, 100)?;
    same(heads.len(), 3)?;
    same(first_head(heads.as_slice(), FourCc(*b"moov")), None)?;
    let found = first_head(heads.as_slice(), FourCc(*b"free"));
    holds(found.is_some())?;
    if let Some(head) = found {
        same(head.at, 100)?;
        same(body(bytes, 100, head), b"abc".as_slice())?;
    }
    Ok(())
}
