//! Runs over texts in memory.
use std::test::Fail;
use test_runs::{
    are_bytes_counted, is_compiled_twice, is_read_again, is_sent_whole, is_usage_told,
    is_written_in_pieces, wrong_compiled, wrong_fault, wrong_run,
};

#[test]
fn each_call_fails_in_turn(rt: HostRuntime) -> Result<(), Fail> {
    assert_eq!(rt; wrong_run(rt.alloc())?, None);
    Ok(())
}

#[test]
fn runs_as_callers_have_them(rt: HostRuntime) -> Result<(), Fail> {
    let alloc = rt.alloc();
    assert_eq!(rt; wrong_compiled(alloc)?, None);
    assert_eq!(rt; wrong_fault(alloc)?, None);
    assert!(rt; is_written_in_pieces(alloc)?, "three bytes at a time");
    assert!(rt; are_bytes_counted(alloc)?, "bytes that are counted");
    assert!(rt; is_compiled_twice(alloc)?, "a text that is compiled twice");
    assert!(rt; is_read_again(alloc)?, "a failed read that is tried again");
    assert!(rt; is_usage_told(alloc), "a run without words");
    assert!(rt; is_sent_whole(alloc), "a writer");
    Ok(())
}
