//! The variables of a section.

ghost use Rattle.std.specs.Prelude.{◌≡◌, ◌<◌, ◌^◌, ◌++◌, ◌+◌, [], length, IfOk};
ghost use Rattle.std.specs.List.{flat_map};
ghost use Rattle.elan_clauses.specs.Gives.{Gives, Leaves};
ghost use Rattle.elan_check.specs.Laid as laid;

use crate::sorts::{Module, Sorts, sort_at};
use elan_clauses::name_at;
use elan_modules::LoadedText;
use elan_reading::Variable;
use elan_syntax::Vars;
use elan_terms::SortId;
use elan_text::{NoMemory, Stop};
use sqlite_items::Items;
use std::alloc::Global;

/// The variables of these tokens, behind those before them.
#[tactic(auto, using(crate::proofs::StepLemmas::variables_more))]
fn names_onto(
    alloc: Global,
    out: &mut Items<Variable>,
    text: &LoadedText,
    sort: SortId,
    numbers: &[u32],
) -> Result<(), NoMemory>
    requires { length out.old + length numbers.now < 2 ^ 32 }
    ensures { IfOk result (λ _. out.new
        ≡ out.old ++ laid.variables_at text.now sort (length out.old) numbers.now) }
{
    let mut left = numbers;
    'names: while let [first, rest @ ..] = left {
        let name = name_at(alloc, text, *first)?;
        let number = out.len() as u32;
        out.push(Variable { name, sort, number })?;
        left = rest;
    }
    Ok(())
}

/// The variables of a declaration behind those before them.
fn declared_onto(
    alloc: Global,
    sorts: &Sorts<'_>,
    site: &Module<'_, '_, '_>,
    out: &mut Items<Variable>,
    vars: &Vars,
) -> Result<(), Stop>
    requires { length out.old + length vars.now.names < 2 ^ 32 }
    ensures { Leaves result out.new
        (laid.declared sorts.now.signature.now (laid.seen site.now) out.old vars.now) }
{
    let sort = sort_at(alloc, sorts, site, vars.sort)?;
    names_onto(alloc, out, site.text, sort, vars.names.as_slice())?;
    Ok(())
}

/// The variables of a section, of which there are fewer than 4,294,967,296.
pub(crate) fn variables_of(
    alloc: Global,
    sorts: &Sorts<'_>,
    site: &Module<'_, '_, '_>,
    vars: &[Vars],
) -> Result<Items<Variable>, Stop>
    requires { length (flat_map (λ v. v.names) vars.now) < 2 ^ 32 }
    ensures { Gives result
        (laid.variables_of sorts.now.signature.now (laid.seen site.now) [] vars.now) }
{
    let mut out = Items::new(alloc);
    let mut left = vars;
    'declarations: while let [first, rest @ ..] = left {
        declared_onto(alloc, sorts, site, &mut out, first)?;
        left = rest;
    }
    Ok(out)
}

/// The tokens of the names in declarations.
pub(crate) fn tokens_of(alloc: Global, vars: &[Vars]) -> Result<Items<u32>, NoMemory>
    ensures { IfOk result (λ tokens. tokens ≡ laid.tokens_of vars.now) }
{
    let mut out = Items::new(alloc);
    let mut left = vars;
    'declarations: while let [first, rest @ ..] = left {
        out.append(Items::from_slice(alloc, first.names.as_slice())?)?;
        left = rest;
    }
    Ok(out)
}
