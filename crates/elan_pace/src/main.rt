//! Runs one query of the plain engine and says how many items it has: what the script `benchmark` measures.
#![tactic(auto)]

mod programs;

use crate::programs::{Plan, STEPS, parts, query, start};
use elan_meaning::Item;
use elan_plain::plain_items;
use elan_program::{Parts, Program};
use elan_terms::NoMemory;
use std::alloc::Global;
use std::env::Env;
use std::process::ExitCode;
use std::{env, io};

fn plan_of(word: &str) -> Option<Plan> {
    match word {
        "list" => Some(Plan::List),
        "twins" => Some(Plan::Twins),
        "sum" => Some(Plan::Sum),
        "rules" => Some(Plan::Rules),
        "grow" => Some(Plan::Grow),
        _ => None,
    }
}

fn words<R: Env + AllocGlobal>(rt: &R) -> io::Result<Vec<String>> {
    let mut words = Vec::new(rt.alloc());
    for word in env::args(rt)? {
        words.push(word)?;
    }
    Ok(words)
}

/// The program of these parts, if they are valid.
fn program(alloc: Global, parts: Parts) -> Result<Option<Program>, NoMemory> {
    if parts.is_valid(alloc)? {
        let program = Program::new(alloc, parts.signature, parts.rules, parts.named)?;
        Ok(Some(program))
    } else {
        Ok(None)
    }
}

/// How many results and how many marks the plan's query has; none where the program is not valid.
fn counted(alloc: Global, plan: Plan) -> Result<Option<(u32, u32)>, NoMemory> {
    let Some(program) = program(alloc, parts(alloc, plan)?)? else {
        return Ok(None);
    };
    let start = start(alloc, plan)?;
    let query = query(alloc, plan)?;
    let items = plain_items(alloc, &program, &start, &query, STEPS)?;
    let mut results = 0u32;
    let mut marks = 0u32;
    for item in items.as_slice() {
        match item {
            Item::Res(_, _) => results = results.saturating_add(1),
            Item::Mark(_) => marks = marks.saturating_add(1),
        }
    }
    Ok(Some((results, marks)))
}

fn main(rt: HostRuntime) -> ExitCode {
    let Ok(words) = words(&rt) else {
        return ExitCode::from(1);
    };
    let Some(plan) = words.get(1).and_then(|word| plan_of(word.as_str())) else {
        return ExitCode::from(2);
    };
    let Ok(Some((results, marks))) = counted(rt.alloc(), plan) else {
        return ExitCode::from(1);
    };
    match println!(rt; "{results} results, {marks} marks") {
        Ok(()) => ExitCode::from(0),
        Err(_) => ExitCode::from(1),
    }
}
