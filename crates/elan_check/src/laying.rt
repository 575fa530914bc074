//! The sections of a flat program in the order of the walk, each with its sorts.

ghost use Rattle.std.specs.Prelude.{◌≡◌, ◌<◌, ◌^◌, length, map, true};
ghost use Rattle.std.specs.Option.{option_map};
ghost use Rattle.std.specs.List.{list_all};
ghost use Rattle.elan_clauses.specs.Gives.{Leaves};
ghost use Rattle.elan_clauses.specs.Offered.{is_few, is_small};
ghost use Rattle.elan_check.specs.Laid as spec;
ghost use Rattle.elan_check.specs.Lent.{seen_part, Tells, TellsAll};

use crate::parts::Part;
use crate::sorts::{Module, Sorts, sort_at};
use crate::variables::{tokens_of, variables_of};
use elan_modules::{Flat, Instance, LoadedText, Origin, Replacements, parameters_of};
use elan_syntax::{Definition, ModuleOutline, RuleOutline, Section, Span, Vars};
use elan_text::Stop;
use elan_variables::Variables;
use sqlite_items::Items;
use std::alloc::Global;

/// A section of rules for a sort.
fn lay_rules<'a>(
    alloc: Global,
    sorts: &Sorts<'_>,
    site: &Module<'a, '_, '_>,
    sort: Span,
    vars: &[Vars],
    rules: &'a [RuleOutline],
) -> Result<Part<'a>, Stop>
    requires { length (spec.tokens_of vars.now) < 2 ^ 32 }
    ensures { Tells result (spec.laid_rules sorts.now.signature.now (spec.seen site.now)
        sort vars.now rules.now) }
{
    let sort = sort_at(alloc, sorts, site, sort)?;
    let variables = Variables::new(alloc, variables_of(alloc, sorts, site, vars)?)?;
    let tokens = tokens_of(alloc, vars)?;
    Ok(Part::Rules {
        text: site.text,
        sort,
        tokens,
        variables,
        rules,
    })
}

/// A section of definitions for a sort.
fn lay_strategies<'a>(
    alloc: Global,
    sorts: &Sorts<'_>,
    site: &Module<'a, '_, '_>,
    sort: Span,
    definitions: &'a [Definition],
) -> Result<Part<'a>, Stop>
    ensures { Tells result (spec.laid_strategies sorts.now.signature.now (spec.seen site.now)
        sort definitions.now) }
{
    let sort = sort_at(alloc, sorts, site, sort)?;
    Ok(Part::Strategies {
        text: site.text,
        sort,
        definitions,
    })
}

/// A section behind those before it.
fn lay_section<'a>(
    alloc: Global,
    sorts: &Sorts<'_>,
    site: &Module<'a, '_, '_>,
    parts: &mut Items<Part<'a>>,
    section: &'a Section,
) -> Result<(), Stop>
    requires { is_few section.now ≡ true }
    ensures { Leaves result (map seen_part parts.new) (spec.laid_section sorts.now.signature.now
        (spec.seen site.now) (map seen_part parts.old) section.now) }
{
    match section {
        Section::Rules { sort, vars, rules } => {
            let part = lay_rules(alloc, sorts, site, *sort, vars.as_slice(), rules.as_slice())?;
            parts.push(part)?;
            Ok(())
        }
        Section::Strategies { sort, definitions } => {
            let part = lay_strategies(alloc, sorts, site, *sort, definitions.as_slice())?;
            parts.push(part)?;
            Ok(())
        }
        Section::Imports(_) => Ok(()),
        Section::Sorts(_) => Ok(()),
        Section::Operators(_) => Ok(()),
    }
}

/// The sections of a module behind those before them.
fn lay_sections<'a>(
    alloc: Global,
    sorts: &Sorts<'_>,
    site: &Module<'a, '_, '_>,
    parts: &mut Items<Part<'a>>,
    sections: &'a [Section],
) -> Result<(), Stop>
    requires { list_all is_few sections.now ≡ true }
    ensures { Leaves result (map seen_part parts.new) (spec.laid_sections sorts.now.signature.now
        (spec.seen site.now) (map seen_part parts.old) sections.now) }
{
    let mut left = sections;
    'sections: while let [first, rest @ ..] = left {
        lay_section(alloc, sorts, site, parts, first)?;
        left = rest;
    }
    Ok(())
}

/// The module of an instance in its text, if it has one.
fn module_of(flat: &Flat, origin: Origin) -> Option<(&LoadedText, &ModuleOutline)>
    ensures { option_map (λ m. (m.0.now, m.1.now)) result ≡ spec.module_of flat.now origin }
{
    match origin {
        Origin::Builtin(_) => None,
        Origin::Text { text, module } => match flat.texts.get(text as usize) {
            None => None,
            Some(text) => match text.modules.get(module as usize) {
                None => None,
                Some(module) => Some((text, module)),
            },
        },
    }
}

/// The sections of an instance behind those before them.
#[tactic(auto, using(crate::proofs::StepLemmas::found_few))]
fn lay_instance<'a>(
    alloc: Global,
    sorts: &Sorts<'_>,
    flat: &'a Flat,
    parts: &mut Items<Part<'a>>,
    instance: &Instance,
) -> Result<(), Stop>
    requires { is_small flat.now ≡ true }
    ensures { let f = flat.now in Leaves result (map seen_part parts.new)
        (spec.laid_module sorts.now.signature.now instance.now (map seen_part parts.old)
        (spec.module_of f instance.now.origin)) }
{
    match module_of(flat, instance.origin) {
        None => Ok(()),
        Some((text, outline)) => {
            let parameters = parameters_of(alloc, text, outline.parameters.as_slice())?;
            let args = instance.args.as_slice();
            let replacements = Replacements::new(alloc, parameters.as_slice(), args)?;
            let site = Module {
                text,
                replacements: &replacements,
            };
            lay_sections(alloc, sorts, &site, parts, outline.sections.as_slice())
        }
    }
}

/// The sections of a flat program in the order of the walk.
#[tactic(auto, unfolding(crate::specs::Laid::laid))]
pub(crate) fn lay<'a>(
    alloc: Global,
    sorts: &Sorts<'_>,
    flat: &'a Flat,
) -> Result<Items<Part<'a>>, Stop>
    requires { is_small flat.now ≡ true }
    ensures { TellsAll result (spec.laid sorts.now.signature.now flat.now) }
{
    let mut parts = Items::new(alloc);
    let mut left = flat.instances.as_slice();
    'instances: while let [first, rest @ ..] = left {
        lay_instance(alloc, sorts, flat, &mut parts, first)?;
        left = rest;
    }
    Ok(parts)
}
