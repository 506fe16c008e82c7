//! The real outside: a file.
use input_output::{FileInputs, InputFail, Inputs};
use std::fs;
use std::test::Fail;

#[test]
fn a_file_is_read_whole(rt: HostRuntime) -> Result<(), Fail> {
    let path = "outside-input.txt";
    fs::write(&rt, path, "bytes of a file")?;
    let mut inputs = FileInputs::new(&rt);
    let whole = inputs.read(rt.alloc(), path, 15)?;
    let long = inputs.read(rt.alloc(), path, 14).err();
    let none = inputs.read(rt.alloc(), "outside-absent.txt", 15).err();
    fs::remove_file(&rt, path)?;
    assert!(rt; whole.as_slice() == b"bytes of a file".as_slice());
    assert_eq!(rt; long, Some(InputFail::TooLong));
    assert_eq!(rt; none, Some(InputFail::Failed));
    Ok(())
}
