//! Takes matches one by one, for the script `benchmark`: the words are a pattern and a term in the letters of
//! `elan_letters`, and how many matches are taken at most.
#![tactic(auto)]

mod measure;

use crate::measure::{Measured, take_first};
use std::io;
use std::process::ExitCode;

/// The words after the program's name.
fn words<R: std::env::Env + AllocGlobal>(rt: &R) -> io::Result<Vec<String>> {
    let mut words = Vec::new(rt.alloc());
    for word in std::env::args(rt)? {
        words.push(word)?;
    }
    Ok(words)
}

/// Prints how many matches there were, and tells the time in nanoseconds as an error is told.
fn tell<R: Print + Eprint>(rt: &R, found: &Measured) -> io::Result<()> {
    let (matches, time) = (found.matches, found.time.as_nanos());
    eprintln!(rt; "walk {time}")?;
    println!(rt; "{matches} matches")
}

fn main(rt: HostRuntime) -> io::Result<ExitCode> {
    let words = words(&rt)?;
    let [_, pattern, term, most] = words.as_slice() else {
        return Ok(ExitCode::from(2));
    };
    let Ok(most) = most.as_str().parse::<u32>() else {
        return Ok(ExitCode::from(2));
    };
    let found = take_first(&rt, pattern.as_bytes(), term.as_bytes(), most)?;
    tell(&rt, &found)?;
    Ok(ExitCode::from(0))
}
