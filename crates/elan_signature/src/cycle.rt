//! Injections that lead a sort back to itself.

ghost use Rattle.std.specs.Prelude.{◌≡◌, map, IfOk};
ghost use Rattle.std.specs.Option.{option_copied};
ghost use Rattle.elan_signature.specs.Cycles as spec;
ghost use Rattle.elan_signature.specs.Outcomes.{Gives, Is, itself};

use crate::done::Injection;
use elan_cycles::{Edge, first_on_cycle};
use elan_modules::copy_owner;
use elan_text::{Code, NoMemory, Refusal, Stop};
use sqlite_items::{Items, at};
use std::alloc::Global;

/// The injections as edges between sorts.
fn edges_of(alloc: Global, all: &[Injection]) -> Result<Items<Edge>, NoMemory>
    ensures { IfOk result (λ edges. edges ≡ map spec.edge_of all.now) }
{
    let mut edges = Items::new(alloc);
    let mut left = all;
    'injections: while let [injection, rest @ ..] = left {
        edges.push(Edge {
            from: injection.from.0,
            to: injection.to.0,
        })?;
        left = rest;
    }
    Ok(edges)
}

/// The refusal of an injection on a cycle.
fn cycle_at(alloc: Global, injection: &Injection) -> Stop
    ensures { Is (spec.cycle_at injection.now) result }
{
    match copy_owner(alloc, &injection.module) {
        Ok(module) => Stop::Refused(Refusal {
            code: Code::E13,
            at: injection.at,
            module,
        }),
        Err(_) => Stop::NoMemory,
    }
}

/// The injection of a number, if there is a number.
fn injection_at(all: &[Injection], number: Option<usize>) -> Option<&Injection>
    ensures { option_copied result ≡ spec.element_at all.now number }
{
    match number {
        Some(number) => at(all, number),
        None => None,
    }
}

/// The first injection that lies on a cycle.
fn first_cycle(alloc: Global, all: &[Injection]) -> Result<Option<&Injection>, NoMemory>
    ensures { IfOk result (λ found. option_copied found ≡ spec.first_on_cycle all.now) }
{
    let edges = edges_of(alloc, all)?;
    let number = first_on_cycle(alloc, edges.as_slice())?;
    Ok(injection_at(all, number))
}

/// Looks whether no injection lies on a cycle.
#[tactic(auto, unfolding(crate::specs::Cycles::look_cycles))]
pub(crate) fn look_cycles(alloc: Global, injections: &[Injection]) -> Result<(), Stop>
    ensures { Gives itself result (spec.look_cycles injections.now) }
{
    match first_cycle(alloc, injections)? {
        Some(injection) => Err(cycle_at(alloc, injection)),
        None => Ok(()),
    }
}
