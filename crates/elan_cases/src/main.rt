//! Runs the cases of the files in the folder `cases`, and compares what each gives with what the file says.
#![tactic(auto)]

mod answers;
mod instances;
mod numbered;
mod outlines;
mod refusals;
mod sections;
mod signatures;
mod spans;

use crate::answers::answer;
use crate::sections::{Section, input_of, sections};
use elan_text::{ReadRefusal, StdSource, read_all};
use std::alloc::Global;
use std::process::ExitCode;
use std::rt::Files;
use std::{fs, io};

/// The names of the files.
const NAMES: [&str; 5] = ["modules", "numbers", "outlines", "runs", "signatures"];

/// The most bytes that a file has.
const MOST: usize = 4_194_304;

/// How many cases a file has, and how many of them give something else.
#[derive(Clone, Copy)]
struct Tally {
    cases: u32,
    differ: u32,
}

/// What a file has, or None where it cannot be read whole.
fn bytes_of<R: Files + AllocGlobal>(rt: &R, name: &str) -> io::Result<Option<Vec<u8>>> {
    let mut path = String::from_str(rt.alloc(), "cases/")?;
    path.push_str(name)?;
    let mut source = StdSource::new(fs::open(rt, path.as_str())?);
    match read_all(rt.alloc(), &mut source, MOST) {
        Ok(bytes) => Ok(Some(bytes)),
        Err(ReadRefusal::TooLong) | Err(ReadRefusal::ReadFault) | Err(ReadRefusal::NoMemory) => {
            Ok(None)
        }
    }
}

/// Prints a case that gives something else, with what it gives.
fn tell(rt: HostRuntime, number: u32, given: &[u8]) -> io::Result<()> {
    match str::from_utf8(given) {
        Ok(text) => println!(rt; "case {number} gives:\n{text}"),
        Err(_) => println!(rt; "case {number} gives bytes that are no text"),
    }
}

/// Runs the case that stands in a section, where the next section says what it gives.
fn ran(
    rt: HostRuntime,
    all: &[Section<'_>],
    case: &Section<'_>,
    wanted: &Section<'_>,
    tally: Tally,
) -> io::Result<Tally> {
    if wanted.words != b"gives".as_slice() {
        return Ok(tally);
    }
    let alloc = rt.alloc();
    let input = input_of(alloc, all, case)?;
    let given = answer(alloc, all, case, input.as_slice())?;
    let cases = tally.cases.saturating_add(1);
    if given.as_slice() == wanted.body.as_slice() {
        Ok(Tally {
            cases,
            differ: tally.differ,
        })
    } else {
        tell(rt, cases, given.as_slice())?;
        Ok(Tally {
            cases,
            differ: tally.differ.saturating_add(1),
        })
    }
}

/// Runs the cases of a file, in their order.
fn ran_all(rt: HostRuntime, bytes: &[u8]) -> io::Result<Tally> {
    let all = sections(rt.alloc(), bytes)?;
    let mut tally = Tally {
        cases: 0,
        differ: 0,
    };
    for (place, wanted) in all.as_slice().iter().enumerate() {
        if let Some(case) = all.as_slice().get(place.wrapping_sub(1)) {
            tally = ran(rt, all.as_slice(), case, wanted, tally)?;
        }
    }
    Ok(tally)
}

fn main(rt: HostRuntime) -> io::Result<ExitCode> {
    let mut differ = 0u32;
    for name in NAMES {
        match bytes_of(&rt, name)? {
            None => {
                println!(rt; "{name}: cannot be read")?;
                differ = differ.saturating_add(1);
            }
            Some(bytes) => {
                let tally = ran_all(rt, bytes.as_slice())?;
                let (cases, others) = (tally.cases, tally.differ);
                println!(rt; "{name}: {cases} cases, {others} differ")?;
                differ = differ.saturating_add(others);
            }
        }
    }
    Ok(ExitCode::from(if differ == 0 { 0 } else { 1 }))
}
