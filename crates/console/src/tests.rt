// `read_whole` and `read_file`: without a limit, up to one, a file that is not there, and a folder, which cannot be read.
use crate::reading::{read_file, read_whole};
use std::fs;
use std::test::Fail;

#[test]
fn an_input_is_read_up_to_the_limit(rt: HostRuntime) -> Result<(), Fail> {
    for (most, came, left) in [
        (usize::MAX, "five!", ""),
        (5, "five!", ""),
        (3, "fiv", "e!"),
        (0, "", "five!"),
    ] {
        let mut input = "five!".as_bytes();
        let bytes = read_whole(rt, &mut input, b"five", most)?;
        assert_eq!(rt; bytes.as_slice(), came.as_bytes(), "up to {most}");
        assert_eq!(rt; input, left.as_bytes(), "after {most}");
    }
    Ok(())
}

#[test]
fn a_file_is_read_up_to_the_limit(rt: HostRuntime) -> Result<(), Fail> {
    fs::write(&rt, "five", "five!".as_bytes())?;
    for (most, came) in [(usize::MAX, "five!"), (4, "five"), (0, "")] {
        let bytes = read_file(rt, b"five", most)?;
        assert_eq!(rt; bytes.as_slice(), came.as_bytes(), "up to {most}");
    }
    fs::remove_file(&rt, "five")?;
    assert!(rt; read_file(rt, b"five", 4).is_err());
    assert!(rt; read_file(rt, b".", 4).is_err());
    Ok(())
}
