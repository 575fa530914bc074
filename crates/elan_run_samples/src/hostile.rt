//! Runs on input that nobody writes by accident.

use crate::rows::{BOTH, input, outcome, status_of};
use elan_run::Status;
use elan_text::Code;
use std::test::Fail;

#[test]
fn a_front_of_a_program_ends_too_early(rt: HostRuntime) -> Result<(), Fail> {
    let alloc = rt.alloc();
    let input = input(alloc, &BOTH)?;
    // All that ends before the `d` of the last `end`, which a line feed follows.
    for count in 0..input.len().saturating_sub(2) {
        let status = status_of(alloc, &input.as_slice()[..count])?;
        assert_eq!(rt;
            status,
            Status::Refused(Code::E05),
            "the first {count} bytes"
        );
    }
    let status = status_of(alloc, &input.as_slice()[..input.len().saturating_sub(1)])?;
    assert_eq!(rt; status, Status::Done);
    Ok(())
}

#[test]
fn one_byte_past_the_limit_is_too_long(rt: HostRuntime) -> Result<(), Fail> {
    let alloc = rt.alloc();
    let mut input = input(alloc, &BOTH)?;
    for _ in input.len()..4_194_304 {
        input.push(b' ')?;
    }
    assert_eq!(rt; status_of(alloc, input.as_slice())?, Status::Done);
    input.push(b' ')?;
    let (status, written) = outcome(alloc, input.as_slice())?;
    assert_eq!(rt;
        written.as_slice(),
        b"error E01 1:1 input too long\n".as_slice()
    );
    assert_eq!(rt; status, Status::Refused(Code::E01));
    Ok(())
}
