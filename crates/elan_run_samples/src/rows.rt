//! Whole runs over sources, loaders and sinks in memory.

use crate::programs::{CHOICE, LIST, LIST_WITH_ANOTHER_SPELLING, USES};
use elan_loaders::{Loader, MemoryLoader};
use elan_run::{Status, run_plain};
use elan_text::{
    Code, MemorySink, MemorySource, NoMemory, StdSink, StdSource, SteadySink, SteadySource,
};
use std::alloc::Global;
use std::collections::BTreeMap;
use std::process::Abort;
use std::test::Fail;

/// A program, its module and its sort, the start strategy, the query, and what is written.
pub(crate) type Row<'a> = (&'a [u8], &'a [u8], &'a [u8], &'a [u8], &'a [u8], &'a [u8]);

/// These parts, one behind the other.
pub(crate) fn joined(alloc: Global, parts: &[&[u8]]) -> Result<Vec<u8>, NoMemory> {
    let mut all = Vec::new(alloc);
    for part in parts {
        all.extend_from_slice(part)?;
    }
    Ok(all)
}

/// The stream of a row.
pub(crate) fn input(alloc: Global, row: &Row<'_>) -> Result<Vec<u8>, NoMemory> {
    let (program, module, sort, start, query, _) = *row;
    joined(
        alloc,
        &[
            program,
            b"LPL q description\nquery of sort ",
            sort,
            b"\nresult of sort ",
            sort,
            b"\nimport ",
            module,
            b"\nstart with (",
            start,
            b") query\nend\n",
            query,
            b" end\n",
        ],
    )
}

/// What a run without words writes and answers, with these loaders.
pub(crate) fn outcome_with(
    alloc: Global,
    input: &[u8],
    loaders: &mut Vec<Box<dyn Loader>>,
) -> Result<(Status, Vec<u8>), NoMemory> {
    let mut source = MemorySource::new(input.to_vec(alloc)?, 7, Vec::new(alloc));
    let mut sink = MemorySink::new(alloc, 1_000, Vec::new(alloc));
    let status = run_plain(alloc, &[], &mut source, loaders, &mut sink);
    Ok((status, sink.written().to_vec(alloc)?))
}

/// What a run without words and without loaders writes and answers.
pub(crate) fn outcome(alloc: Global, input: &[u8]) -> Result<(Status, Vec<u8>), NoMemory> {
    let mut none: Vec<Box<dyn Loader>> = Vec::new(alloc);
    outcome_with(alloc, input, &mut none)
}

/// A loader that has one text, and fails at these fetches.
pub(crate) fn having(
    alloc: Global,
    name: &str,
    text: &[u8],
    failing: &[u64],
) -> Result<MemoryLoader, Fail> {
    let mut texts = BTreeMap::new(alloc);
    texts.insert(String::from_str(alloc, name)?, text.to_vec(alloc)?)?;
    Ok(MemoryLoader::new(alloc, texts, failing.to_vec(alloc)?))
}

/// The same by the name `list`.
pub(crate) fn lists(alloc: Global, text: &[u8], failing: &[u64]) -> Result<MemoryLoader, Fail> {
    having(alloc, "list", text, failing)
}

/// These loaders, of which the first is asked first.
pub(crate) fn both(
    alloc: Global,
    first: MemoryLoader,
    second: MemoryLoader,
) -> Result<Vec<Box<dyn Loader>>, NoMemory> {
    let mut loaders: Vec<Box<dyn Loader>> = Vec::new(alloc);
    loaders.push(Box::new(alloc, first)?)?;
    loaders.push(Box::new(alloc, second)?)?;
    Ok(loaders)
}

/// With these loaders a run of the row answers this, and writes that.
pub(crate) fn gives<R: Abort + AllocGlobal>(
    rt: &R,
    row: &Row<'_>,
    loaders: &mut Vec<Box<dyn Loader>>,
    status: Status,
    text: &[u8],
) -> Result<(), Fail> {
    let alloc = rt.alloc();
    let stream = input(alloc, row)?;
    let (answered, written) = outcome_with(alloc, stream.as_slice(), loaders)?;
    assert_eq!(rt; written.as_slice(), text);
    assert_eq!(rt; answered, status);
    Ok(())
}

/// A list of two integers.
pub(crate) const TWO_OF_A_LIST: Row<'static> = (
    USES,
    b"use",
    b"list[int]",
    b"id",
    b"1 . 2 . nil",
    b"[1] result term: 1 . 2 . nil\n[] end\n",
);

/// The line that refuses it where no loader has the spelling.
pub(crate) const NO_READING: &[u8] = b"error E15 10:1 no reading\n";

#[test]
fn the_first_loader_that_has_a_text_decides(rt: HostRuntime) -> Result<(), Fail> {
    let alloc = rt.alloc();
    let first = lists(alloc, LIST, &[])?;
    let second = lists(alloc, LIST_WITH_ANOTHER_SPELLING, &[])?;
    let mut loaders = both(alloc, first, second)?;
    let row = &TWO_OF_A_LIST;
    gives(&rt, row, &mut loaders, Status::Done, row.5)?;
    loaders.reverse();
    gives(
        &rt,
        row,
        &mut loaders,
        Status::Refused(Code::E15),
        NO_READING,
    )
}

#[test]
fn a_refusal_in_a_loaded_text_names_its_module(rt: HostRuntime) -> Result<(), Fail> {
    let alloc = rt.alloc();
    let first = lists(alloc, b"module list[X]\nsort nope end", &[])?;
    let second = lists(alloc, LIST, &[])?;
    let mut loaders = both(alloc, first, second)?;
    let line = b"error E05 2:11 unexpected token in module list\n";
    gives(
        &rt,
        &TWO_OF_A_LIST,
        &mut loaders,
        Status::Refused(Code::E05),
        line,
    )
}

/// Two results of one query.
pub(crate) const BOTH: Row<'static> = (
    CHOICE,
    b"choice",
    b"s",
    b"dk(ab,ac)",
    b"a",
    b"[1] result term: b\n[2] result term: c\n[] end\n",
);

/// As `outcome`, with a source that never fails and gives all that it is asked for.
pub(crate) fn status_of(alloc: Global, input: &[u8]) -> Result<Status, NoMemory> {
    let mut none: Vec<Box<dyn Loader>> = Vec::new(alloc);
    let mut source = SteadySource::new(input.to_vec(alloc)?);
    let mut sink = MemorySink::new(alloc, 1_000, Vec::new(alloc));
    Ok(run_plain(alloc, &[], &mut source, &mut none, &mut sink))
}

#[test]
fn a_reader_and_a_writer_of_std_serve(rt: HostRuntime) -> Result<(), Fail> {
    let input = input(rt.alloc(), &BOTH)?;
    let mut room = [0u8; 45];
    let mut source = StdSource::new(input.as_slice());
    let mut sink = StdSink::new(room.as_mut_slice());
    let mut none: Vec<Box<dyn Loader>> = Vec::new(rt.alloc());
    let status = run_plain(rt.alloc(), &[], &mut source, &mut none, &mut sink);
    assert_eq!(rt; status, Status::Done);
    Ok(())
}

#[test]
fn a_steady_sink_serves(rt: HostRuntime) -> Result<(), Fail> {
    let input = input(rt.alloc(), &BOTH)?;
    let mut source = StdSource::new(input.as_slice());
    let mut sink = SteadySink::new();
    let mut none: Vec<Box<dyn Loader>> = Vec::new(rt.alloc());
    let status = run_plain(rt.alloc(), &[], &mut source, &mut none, &mut sink);
    assert_eq!(rt; status, Status::Done);
    Ok(())
}

#[test]
fn each_status_has_its_number(rt: HostRuntime) {
    for (status, number) in [
        (Status::Done, 0u8),
        (Status::Usage, 2),
        (Status::ReadFault, 3),
        (Status::WriteFault, 4),
        (Status::Refused(Code::E02), 5),
        (Status::LoaderFault, 6),
        (Status::NoMemory, 7),
    ] {
        assert_eq!(rt; status.exit(), number);
    }
}
