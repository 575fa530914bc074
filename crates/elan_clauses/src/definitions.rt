//! Definitions, checked one by one.

ghost use Rattle.std.specs.Prelude.{◌≡◌, ◌<◌, ◌^◌, length, if◌then◌else◌, IfOk, Some, None};
ghost use Rattle.elan_names.specs.Names.{is_taken as is_name_taken};
ghost use Rattle.elan_modules.specs.Sorts.{word_at as the_word};
ghost use Rattle.elan_clauses.specs.Gives.{Gives};
ghost use Rattle.elan_clauses.specs.Rules as spec;

use crate::reading::Read;
use crate::refusing::name_at;
use crate::rules::planned_in;
use crate::texts::Around;
use crate::twice::{once_or, second_of};
use elan_modules::word_at;
use elan_names::{Body, Known, is_taken};
use elan_program::Named;
use elan_syntax::Definition;
use elan_terms::SortId;
use elan_text::{NoMemory, Stop};
use std::alloc::Global;

/// The token of the name of a definition, where a definition among so many first ones, or a rule,
/// has its name for its sort.
fn taken<R: Read>(
    alloc: Global,
    around: &Around<'_, R>,
    before: usize,
    sort: SortId,
    name: u32,
) -> Result<Option<u32>, NoMemory>
    ensures { let a = around.now in IfOk result (λ t. t
        ≡ (if is_name_taken a.names.now before sort (the_word a.text.now name) then Some name else
        None)) }
{
    let known = Known {
        names: around.names,
        operators: around.signature.operators.as_slice(),
        index: around.index,
    };
    let word = word_at(around.text, name);
    if is_taken(alloc, &known, before, sort, word)? {
        Ok(Some(name))
    } else {
        Ok(None)
    }
}

/// A definition behind so many others.
pub fn checked_definition<'a, R: Read>(
    alloc: Global,
    around: &Around<'a, R>,
    before: usize,
    sort: SortId,
    definition: &'a Definition,
) -> Result<Named, Stop>
    requires { length definition.now.parameters < 2 ^ 32 }
    ensures { let a = around.now in
        Gives result (spec.checked_definition (R.reads a.reader.now) a.signature.now a.names.now
        a.text.now before sort definition.now) }
{
    let text = around.text;
    let parameters = definition.parameters.as_slice();
    once_or(
        alloc,
        text,
        taken(alloc, around, before, sort, definition.name)?,
    )?;
    once_or(alloc, text, second_of(alloc, text, parameters)?)?;
    let body = Some(Body { parameters, sort });
    let body = planned_in(alloc, around, body, sort, &definition.by)?;
    let name = name_at(alloc, text, definition.name)?;
    Ok(Named {
        name,
        sort,
        parameters: parameters.len() as u32,
        body,
    })
}
