//! Runs each program of the folder `examples` with the modules of the folder `lib`, and compares what it writes with the
//! file that stands beside it.
#![tactic(auto)]

use elan_loaders::{FolderLoader, Loader};
use elan_run::run_plain;
use elan_text::{MemorySink, ReadRefusal, StdSource, read_all};
use std::alloc::Global;
use std::process::ExitCode;
use std::rt::Files;
use std::{fs, io};

/// The names of the examples.
const NAMES: [&str; 22] = [
    "arithmetic",
    "choice",
    "imperative",
    "intuition",
    "knaves",
    "lambda",
    "library",
    "marks",
    "peano",
    "petri",
    "process",
    "puzzle",
    "refused_label",
    "refused_readings",
    "refused_variable",
    "river",
    "sequent",
    "simplify",
    "sorting",
    "strategies",
    "unify",
    "variables",
];

/// The most bytes that a report of an example has.
const MOST: usize = 1_048_576;

/// The path of a file of an example.
fn path_of(alloc: Global, name: &str, ending: &str) -> io::Result<String> {
    let mut path = String::from_str(alloc, "examples/")?;
    path.push_str(name)?;
    path.push_str(ending)?;
    Ok(path)
}

/// What a file has, or None where it cannot be read whole.
fn bytes_of<R: Files + AllocGlobal>(rt: &R, path: &str) -> io::Result<Option<Vec<u8>>> {
    let mut source = StdSource::new(fs::open(rt, path)?);
    match read_all(rt.alloc(), &mut source, MOST) {
        Ok(bytes) => Ok(Some(bytes)),
        Err(ReadRefusal::TooLong) | Err(ReadRefusal::ReadFault) | Err(ReadRefusal::NoMemory) => {
            Ok(None)
        }
    }
}

/// Whether a run of the example writes what stands beside it.
fn is_as_expected(rt: HostRuntime, name: &str) -> io::Result<bool> {
    let alloc = rt.alloc();
    let expected = bytes_of(&rt, path_of(alloc, name, ".out")?.as_str())?;
    let mut source = StdSource::new(fs::open(&rt, path_of(alloc, name, ".eln")?.as_str())?);
    let folder = String::from_str(alloc, "lib")?;
    let mut loaders: Vec<Box<dyn Loader>> = Vec::new(alloc);
    loaders.push(Box::new(alloc, FolderLoader::new(rt, folder))?)?;
    let mut sink = MemorySink::new(alloc, MOST, Vec::new(alloc));
    run_plain(alloc, &[], &mut source, &mut loaders, &mut sink);
    match expected {
        Some(bytes) => Ok(sink.written() == bytes.as_slice()),
        None => Ok(false),
    }
}

fn main(rt: HostRuntime) -> io::Result<ExitCode> {
    let mut differ: u8 = 0;
    for name in NAMES {
        if is_as_expected(rt, name)? {
            println!(rt; "{name}: as expected")?;
        } else {
            println!(rt; "{name}: differs")?;
            differ = differ.saturating_add(1);
        }
    }
    Ok(ExitCode::from(differ))
}
