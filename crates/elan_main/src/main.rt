//! The program `elan`: words and standard input in, a report on standard output, and an exit status.
#![tactic(auto)]

use elan_loaders::{FolderLoader, Loader};
use elan_run::{Status, run_plain};
use elan_text::{StdSink, StdSource};
use std::env::Env;
use std::process::ExitCode;
use std::{env, io};

/// The words after the program's name. A word that is not UTF-8 stands as an empty one, which no rule accepts either.
fn words<R: Env + AllocGlobal>(rt: &R) -> io::Result<Vec<String>> {
    let mut words = Vec::new(rt.alloc());
    match env::args(rt) {
        Ok(all) => {
            for word in all {
                words.push(word)?;
            }
            if !words.is_empty() {
                words.remove(0);
            }
        }
        Err(error) => {
            if error.kind() != io::ErrorKind::InvalidData {
                return Err(error);
            }
            words.push(String::new(rt.alloc()))?;
        }
    }
    Ok(words)
}

/// A run with these words, whose modules may be files of the folder that it runs in.
fn ran(rt: HostRuntime, words: &[String]) -> io::Result<Status> {
    let alloc = rt.alloc();
    let folder = String::from_str(alloc, ".")?;
    let mut loaders: Vec<Box<dyn Loader>> = Vec::new(alloc);
    loaders.push(Box::new(alloc, FolderLoader::new(rt, folder))?)?;
    let mut source = StdSource::new(rt.stdin());
    let mut sink = StdSink::new(rt.stdout());
    Ok(run_plain(alloc, words, &mut source, &mut loaders, &mut sink))
}

fn main(rt: HostRuntime) -> ExitCode {
    let status = match words(&rt) {
        Ok(words) => ran(rt, words.as_slice()).unwrap_or(Status::NoMemory),
        Err(_) => Status::NoMemory,
    };
    ExitCode::from(status.exit())
}
