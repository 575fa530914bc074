//! Runs with words on the command line.

use crate::rows::{BOTH, input};
use elan_loaders::Loader;
use elan_run::{Status, run_plain};
use elan_text::{MemorySink, MemorySource, NoMemory};
use std::alloc::Global;
use std::test::Fail;

/// These words as they are handed to a run.
fn words_of(alloc: Global, words: &[&str]) -> Result<Vec<String>, NoMemory> {
    let mut all = Vec::new(alloc);
    for word in words {
        all.push(String::from_str(alloc, word)?)?;
    }
    Ok(all)
}

/// What a run with words writes and answers, whose source fails at these reads.
fn outcome_of(
    alloc: Global,
    words: &[&str],
    input: &[u8],
    failing: Vec<u64>,
) -> Result<(Status, Vec<u8>), NoMemory> {
    let words = words_of(alloc, words)?;
    let mut none: Vec<Box<dyn Loader>> = Vec::new(alloc);
    let mut source = MemorySource::new(input.to_vec(alloc)?, 100, failing);
    let mut sink = MemorySink::new(alloc, 1_000, Vec::new(alloc));
    let status = run_plain(alloc, words.as_slice(), &mut source, &mut none, &mut sink);
    Ok((status, sink.written().to_vec(alloc)?))
}

#[test]
fn refused_words_give_the_usage_line_and_nothing_is_read(rt: HostRuntime) -> Result<(), Fail> {
    let alloc = rt.alloc();
    let stream = input(alloc, &BOTH)?;
    let lines: [&[&str]; 8] = [
        &["--steps", "0"],
        &["--limit", "1000001"],
        &["--workers=4", "--workers", "4"],
        &["--limit"],
        &["-h"],
        &["--plain", "--steps", "1001"],
        &["--steps", "1001"],
        &[""],
    ];
    for words in lines {
        // The first read would fail.
        let failing = [1].to_vec(alloc)?;
        let (status, written) = outcome_of(alloc, words, stream.as_slice(), failing)?;
        assert_eq!(rt;
            written.as_slice(),
            b"usage: elan [--workers W] [--limit L] [--steps N] [--plain] [--demo K]\n".as_slice()
        );
        assert_eq!(rt; status, Status::Usage);
    }
    Ok(())
}

#[test]
fn a_generated_input_is_summed_up_and_nothing_is_read(rt: HostRuntime) -> Result<(), Fail> {
    let alloc = rt.alloc();
    let rows: [(&[&str], &[u8]); 4] = [
        (&["--demo", "2"], b"items 4\nmarks 0\nbytes 83\n"),
        (&["--demo", "1"], b"items 1\nmarks 0\nbytes 26\n"),
        (
            &["--demo", "2", "--limit", "4", "--workers", "8"],
            b"items 4\nmarks 0\nbytes 85\n",
        ),
        (
            &["--demo=20", "--limit=100"],
            b"items 100\nmarks 0\nbytes 2130\n",
        ),
    ];
    for row in rows {
        let failing = [1].to_vec(alloc)?;
        let (status, written) = outcome_of(alloc, row.0, b"", failing)?;
        assert_eq!(rt; written.as_slice(), row.1);
        assert_eq!(rt; status, Status::Done);
    }
    Ok(())
}
