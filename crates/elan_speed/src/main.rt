//! Measures a term table, for the script `benchmark`.
#![tactic(auto)]

mod bench;
mod measure;
mod plan;

use crate::measure::Measured;
use crate::plan::Plan;
use elan_table::NoMemory;
use std::io;
use std::process::ExitCode;

/// The words after the program's name.
fn words<R: std::env::Env + AllocGlobal>(rt: &R) -> io::Result<Vec<String>> {
    let mut words = Vec::new(rt.alloc());
    for word in std::env::args(rt)? {
        words.push(word)?;
    }
    Ok(words)
}

fn main(rt: HostRuntime) -> ExitCode {
    let Ok(words) = words(&rt) else {
        return ExitCode::from(1);
    };
    let Some(plan) = plan::plan_of(words.as_slice()) else {
        return ExitCode::from(2);
    };
    let Ok(measured) = measure::run_plan(&rt, plan) else {
        return ExitCode::from(1);
    };
    match measure::tell(&rt, plan, &measured) {
        Ok(()) => ExitCode::from(0),
        Err(_) => ExitCode::from(1),
    }
}
