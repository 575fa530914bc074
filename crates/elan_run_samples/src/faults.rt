//! Runs whose sources, sinks and loaders fail.

use crate::programs::{LIST, LIST_WITH_ANOTHER_SPELLING, NUMS};
use crate::rows::{BOTH, NO_READING, Row, TWO_OF_A_LIST, both, gives, having, input, lists};
use elan_loaders::Loader;
use elan_run::{Status, run_plain};
use elan_text::{Code, MemorySink, MemorySource};
use std::test::Fail;

/// Two equal results of one query, in 45 bytes.
const TWICE: Row<'static> = (
    NUMS,
    b"nums",
    b"int",
    b"dk(r1,r2)",
    b"0",
    b"[1] result term: 1\n[2] result term: 1\n[] end\n",
);

#[test]
fn a_sink_that_fails_has_a_prefix_of_the_report(rt: HostRuntime) -> Result<(), Fail> {
    let alloc = rt.alloc();
    let stream = input(alloc, &TWICE)?;
    assert_eq!(rt; TWICE.5.len(), 45);
    for call in 1..8u64 {
        let mut none: Vec<Box<dyn Loader>> = Vec::new(alloc);
        let mut source = MemorySource::new(stream.as_slice().to_vec(alloc)?, 100, Vec::new(alloc));
        let mut sink = MemorySink::new(alloc, 8, [call].to_vec(alloc)?);
        let status = run_plain(alloc, &[], &mut source, &mut none, &mut sink);
        // Six writes are enough.
        let (answer, count) = if call < 7 {
            (Status::WriteFault, 8 * (call as usize - 1))
        } else {
            (Status::Done, 45)
        };
        assert_eq!(rt; status, answer);
        assert_eq!(rt; sink.written(), &TWICE.5[..count]);
    }
    Ok(())
}

#[test]
fn a_source_that_fails_writes_nothing(rt: HostRuntime) -> Result<(), Fail> {
    let alloc = rt.alloc();
    let stream = input(alloc, &BOTH)?;
    // The last of these reads is the one that answers that nothing is left.
    let reads = stream.len().div_ceil(16) as u64 + 1;
    for call in 1..reads + 2 {
        let mut none: Vec<Box<dyn Loader>> = Vec::new(alloc);
        let bytes = stream.as_slice().to_vec(alloc)?;
        let mut source = MemorySource::new(bytes, 16, [call].to_vec(alloc)?);
        let mut sink = MemorySink::new(alloc, 100, Vec::new(alloc));
        let status = run_plain(alloc, &[], &mut source, &mut none, &mut sink);
        if call <= reads {
            assert_eq!(rt; status, Status::ReadFault);
            assert_eq!(rt; sink.written().len(), 0);
        } else {
            assert_eq!(rt; status, Status::Done);
        }
    }
    Ok(())
}

#[test]
fn a_loader_that_fails_writes_nothing(rt: HostRuntime) -> Result<(), Fail> {
    let alloc = rt.alloc();
    let first = lists(alloc, LIST, &[1])?;
    let second = lists(alloc, LIST_WITH_ANOTHER_SPELLING, &[])?;
    let mut loaders = both(alloc, first, second)?;
    gives(&rt, &TWO_OF_A_LIST, &mut loaders, Status::LoaderFault, b"")
}

#[test]
fn a_loader_that_is_not_asked_does_not_fail(rt: HostRuntime) -> Result<(), Fail> {
    let alloc = rt.alloc();
    let first = lists(alloc, LIST_WITH_ANOTHER_SPELLING, &[])?;
    let second = lists(alloc, LIST, &[1])?;
    let mut loaders = both(alloc, first, second)?;
    gives(
        &rt,
        &TWO_OF_A_LIST,
        &mut loaders,
        Status::Refused(Code::E15),
        NO_READING,
    )
}

#[test]
fn a_loader_that_fails_behind_one_without_the_text_writes_nothing(
    rt: HostRuntime,
) -> Result<(), Fail> {
    let alloc = rt.alloc();
    let first = having(alloc, "other", LIST, &[])?;
    let second = lists(alloc, LIST, &[1])?;
    let mut loaders = both(alloc, first, second)?;
    gives(&rt, &TWO_OF_A_LIST, &mut loaders, Status::LoaderFault, b"")
}
