use super::*;
use std::test::Fail;

#[test]
fn items_are_pushed_and_given_back(rt: HostRuntime) -> Result<(), Fail> {
    let mut items = Items::new(rt.alloc());
    holds(items.is_empty())?;
    items.push(7u32)?;
    items.push(9)?;
    same(items.len(), 2)?;
    same(items.into_vec().as_slice(), [7, 9].as_slice())?;
    Ok(())
}

#[test]
fn bytes_are_appended_and_patched(rt: HostRuntime) -> Result<(), Fail> {
    let mut bytes = Bytes::from_slice(rt.alloc(), b"moov")?;
    bytes.append(b"mdat")?;
    bytes.patch(3, b"iew");
    same(bytes.as_slice(), b"mooiewat".as_slice())?;
    Ok(())
}

#[test]
fn a_text_keeps_its_bytes(rt: HostRuntime) -> Result<(), Fail> {
    let text = Text::from_str(rt.alloc(), "\u{e9}")?;
    same(text.as_str().as_bytes(), [0xC3, 0xA9].as_slice())?;
    Ok(())
}
