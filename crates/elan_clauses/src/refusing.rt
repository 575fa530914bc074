//! Refusals in a text, and names in it.

ghost use Rattle.std.specs.Prelude.{◌≡◌, IfOk};
ghost use Rattle.elan_clauses.specs.Gives.{IsRefusal};
ghost use Rattle.elan_clauses.specs.Refusals as spec;

use elan_modules::{LoadedText, copy_owner, place_at, word_at};
use elan_text::{Code, Name, NoMemory, Refusal, Stop};
use std::alloc::Global;

/// The refusal of a code at the token of a number, or the want of memory for it.
pub fn refused(alloc: Global, text: &LoadedText, number: u32, code: Code) -> Stop
    ensures { IsRefusal result (spec.refusal_at text.now number code) }
{
    match copy_owner(alloc, &text.module) {
        Ok(module) => Stop::Refused(Refusal {
            code,
            at: place_at(text, number),
            module,
        }),
        Err(_) => Stop::NoMemory,
    }
}

/// The name that the token of a number is.
pub fn name_at(alloc: Global, text: &LoadedText, number: u32) -> Result<Name, NoMemory>
    ensures { IfOk result (λ n. n ≡ spec.name_at text.now number) }
{
    Name::new(alloc, word_at(text, number))
}
