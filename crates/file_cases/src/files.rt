// Whole files: their length, and lines that are missing.
use super::texts::{HEADING, checked};
use std::test::Fail;

#[test]
fn no_byte(rt: HostRuntime) -> Result<(), Fail> {
    let (asked, at) = checked(b"", rt.alloc())?;
    assert_eq!(rt; asked, 1);
    assert_eq!(rt; at, 0);
    Ok(())
}

// A file that breaks off after each of the first lines lacks the next one.
#[test]
fn broken_off(rt: HostRuntime) -> Result<(), Fail> {
    let mut text = Vec::new(rt.alloc());
    for (i, line) in HEADING.iter().enumerate() {
        text.extend_from_slice(line.as_bytes())?;
        let (asked, at) = checked(text.as_slice(), rt.alloc())?;
        if i + 1 < 13 {
            assert_eq!(rt; asked, 2);
            assert_eq!(rt; at as usize, i + 2);
        } else {
            assert_eq!(rt; asked, 0);
        }
        text.extend_from_slice(b"\r\n")?;
    }
    Ok(())
}
