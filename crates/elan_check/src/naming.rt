//! What strategies see of all rules and definitions.

ghost use Rattle.std.specs.Prelude.{◌≡◌, ◌++◌, ◌<◌, ◌^◌, length, map, true, IfOk};
ghost use Rattle.std.specs.List.{list_all};
ghost use Rattle.std.specs.Option.{option_map};
ghost use Rattle.elan_clauses.specs.Refusals.{name_at as the_name};
ghost use Rattle.elan_clauses.specs.Offered.{has_few};
ghost use Rattle.elan_check.specs.Laid as spec;
ghost use Rattle.elan_check.specs.Lent.{seen_part, are_few};

use crate::parts::Part;
use elan_clauses::name_at;
use elan_modules::LoadedText;
use elan_names::{Head, Label, Names};
use elan_syntax::{Definition, RuleOutline};
use elan_terms::SortId;
use elan_text::{Name, NoMemory};
use sqlite_items::Items;
use std::alloc::Global;

fn label_name(
    alloc: Global,
    text: &LoadedText,
    label: Option<u32>,
) -> Result<Option<Name>, NoMemory>
    ensures { IfOk result (λ name. name ≡ option_map (the_name text.now) label) }
{
    match label {
        None => Ok(None),
        Some(token) => Ok(Some(name_at(alloc, text, token)?)),
    }
}

/// The labels of these rules behind those before them.
fn labels_onto(
    alloc: Global,
    out: &mut Items<Label>,
    text: &LoadedText,
    sort: SortId,
    rules: &[RuleOutline],
) -> Result<(), NoMemory>
    ensures { IfOk result (λ _. out.new ≡ out.old ++ map (spec.label_of text.now sort) rules.now) }
{
    let mut left = rules;
    'rules: while let [first, rest @ ..] = left {
        let name = label_name(alloc, text, first.label)?;
        out.push(Label { name, sort })?;
        left = rest;
    }
    Ok(())
}

/// The heads of these definitions behind those before them.
fn heads_onto(
    alloc: Global,
    out: &mut Items<Head>,
    text: &LoadedText,
    sort: SortId,
    definitions: &[Definition],
) -> Result<(), NoMemory>
    requires { list_all has_few definitions.now ≡ true }
    ensures { IfOk result (λ _. out.new
        ≡ out.old ++ map (spec.head_of text.now sort) definitions.now) }
{
    let mut left = definitions;
    'definitions: while let [first, rest @ ..] = left {
        let name = name_at(alloc, text, first.name)?;
        let parameters = first.parameters.len() as u32;
        out.push(Head {
            name,
            sort,
            parameters,
        })?;
        left = rest;
    }
    Ok(())
}

/// What strategies see of a section, behind what they see of those before it.
fn part_onto(alloc: Global, names: &mut Names, part: &Part<'_>) -> Result<(), NoMemory>
    requires { are_few (seen_part part.now) ≡ true }
    ensures labels { IfOk result (λ _. names.new.labels
        ≡ names.old.labels ++ spec.labels_in (seen_part part.now)) }
    ensures heads { IfOk result (λ _. names.new.heads
        ≡ names.old.heads ++ spec.heads_in (seen_part part.now)) }
{
    match part {
        Part::Rules {
            text,
            sort,
            rules,
            ..
        } => labels_onto(alloc, &mut names.labels, text, *sort, rules),
        Part::Strategies {
            text,
            sort,
            definitions,
        } => heads_onto(alloc, &mut names.heads, text, *sort, definitions),
    }
}

/// What strategies see of all sections.
pub(crate) fn names_of(alloc: Global, parts: &[Part<'_>]) -> Result<Names, NoMemory>
    requires { list_all are_few (map seen_part parts.now) ≡ true }
    ensures { IfOk result (λ names. names ≡ spec.names_of (map seen_part parts.now)) }
{
    let mut names = Names {
        labels: Items::new(alloc),
        heads: Items::new(alloc),
    };
    let mut left = parts;
    'parts: while let [first, rest @ ..] = left {
        part_onto(alloc, &mut names, first)?;
        left = rest;
    }
    Ok(names)
}
