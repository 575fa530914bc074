//! The steps of the walk.

ghost use Rattle.std.specs.Prelude.{◌≡◌, ◌+◌, length, map, nat_le, nat_lt, true, Ok};
ghost use Rattle.std.specs.List.{flat_map, list_all};
ghost use Rattle.elan_program.specs.Soundness.{is_sound, most, has_sort_id};
ghost use Rattle.elan_clauses.specs.Rules.{once_or as once_or_refused, none_seen, second_of as second_in};
ghost use Rattle.elan_clauses.specs.Gives.{Gives, Leaves};
ghost use Rattle.elan_clauses.specs.Offered.{ReadsWell, are_declared, has_few};
ghost use Rattle.elan_clauses.specs.Readable.{IsReadable};
ghost use Rattle.elan_check.specs.Lent.{seen_part};
ghost use Rattle.elan_check.specs.Fits.{PartFits, AllFit};
ghost use Rattle.elan_check.specs.Walk as spec;
ghost use Rattle.elan_check.specs.Walk.{ARule, ADefinition};
ghost use Rattle.elan_check.specs.Laid.{RulesFor};
ghost use Rattle.elan_names.specs.Indexed.{IsIndexOf};

use crate::parts::Part;
use elan_clauses::{
    Around, Read, checked_definition, checked_rule, numbered_rule, once_or, refused, second_of,
};
use elan_modules::LoadedText;
use elan_names::{Index, Names};
use elan_program::{Named, Rule, Signature};
use elan_syntax::{Definition, RuleOutline};
use elan_terms::SortId;
use elan_text::{Code, Stop};
use elan_variables::Variables;
use sqlite_items::Items;
use std::alloc::Global;

/// The rules and definitions that were checked, in order.
#[derive(Debug, Drop)]
pub(crate) struct Done {
    pub(crate) rules: Items<Rule>,
    pub(crate) named: Items<Named>,
}

/// How many rules and definitions there may be together.
const MOST: usize = 8_192;

fn is_full(done: &Done) -> bool
    ensures { result ≡ nat_le spec.most_rules (length done.now.rules + length done.now.named) }
{
    done.rules.len() >= MOST || done.named.len() >= MOST - done.rules.len()
}

/// Nothing, or the refusal of one more.
fn within(alloc: Global, done: &Done, text: &LoadedText, at: u32) -> Result<(), Stop>
    ensures { Gives result (spec.within done.now text.now at (Ok tt)) }
{
    if is_full(done) {
        Err(refused(alloc, text, at, Code::E14))
    } else {
        Ok(())
    }
}

/// The names of the variables of a section, which differ.
fn declares(alloc: Global, text: &LoadedText, numbers: &[u32]) -> Result<(), Stop>
    ensures { Gives result
        (once_or_refused text.now (second_in text.now none_seen numbers.now) (Ok tt)) }
{
    once_or(alloc, text, second_of(alloc, text, numbers)?)
}

/// A rule more.
#[tactic(auto, using(elan_clauses::proofs::CheckedLemmas::order_few))]
fn rule_onto<R: Read>(
    alloc: Global,
    around: &Around<'_, R>,
    done: &mut Done,
    sort: SortId,
    rule: &RuleOutline,
) -> Result<(), Stop>
    requires sound { is_sound around.now.signature.now ≡ true }
    requires readable { IsReadable around.now.text.now }
    requires reads { let a = around.now in
        ReadsWell (R.reads a.reader.now) a.signature.now a.text.now }
    requires known { let a = around.now in
        are_declared a.signature.now 0 a.variables.now ≡ true }
    requires few { nat_lt (length around.now.variables.now) most ≡ true }
    requires there { has_sort_id around.now.signature.now sort ≡ true }
    ensures { let a = around.now in
        Leaves result done.new (spec.checked_task (R.reads a.reader.now) a.signature.now
        a.names.now done.old (ARule a.text.now sort a.variables.now rule.now)) }
{
    within(alloc, done, around.text, rule.at)?;
    let (checked, order) = checked_rule(alloc, around, sort, rule)?;
    let numbered = numbered_rule(alloc, &order, checked)?;
    done.rules.push(numbered)?;
    Ok(())
}

/// A definition more.
fn definition_onto<'a, R: Read>(
    alloc: Global,
    around: &Around<'a, R>,
    done: &mut Done,
    sort: SortId,
    definition: &'a Definition,
) -> Result<(), Stop>
    requires { has_few definition.now ≡ true }
    ensures { let a = around.now in
        Leaves result done.new (spec.checked_task (R.reads a.reader.now) a.signature.now
        a.names.now done.old (ADefinition a.text.now sort definition.now)) }
{
    within(alloc, done, around.text, definition.at)?;
    let named = checked_definition(alloc, around, done.named.len(), sort, definition)?;
    done.named.push(named)?;
    Ok(())
}

/// The rules of a section.
fn rules_onto<R: Read>(
    alloc: Global,
    around: &Around<'_, R>,
    done: &mut Done,
    sort: SortId,
    rules: &[RuleOutline],
) -> Result<(), Stop>
    requires sound { is_sound around.now.signature.now ≡ true }
    requires readable { IsReadable around.now.text.now }
    requires reads { let a = around.now in
        ReadsWell (R.reads a.reader.now) a.signature.now a.text.now }
    requires known { let a = around.now in
        are_declared a.signature.now 0 a.variables.now ≡ true }
    requires few { nat_lt (length around.now.variables.now) most ≡ true }
    requires there { has_sort_id around.now.signature.now sort ≡ true }
    ensures { let a = around.now in
        Leaves result done.new (spec.checked_tasks (R.reads a.reader.now) a.signature.now
        a.names.now done.old (map (ARule a.text.now sort a.variables.now) rules.now)) }
{
    let mut left = rules;
    'rules: while let [first, rest @ ..] = left {
        rule_onto(alloc, around, done, sort, first)?;
        left = rest;
    }
    Ok(())
}

/// The definitions of a section.
fn definitions_onto<'a, R: Read>(
    alloc: Global,
    around: &Around<'a, R>,
    done: &mut Done,
    sort: SortId,
    definitions: &'a [Definition],
) -> Result<(), Stop>
    requires { list_all has_few definitions.now ≡ true }
    ensures { let a = around.now in
        Leaves result done.new (spec.checked_tasks (R.reads a.reader.now) a.signature.now
        a.names.now done.old (map (ADefinition a.text.now sort) definitions.now)) }
{
    let mut left = definitions;
    'definitions: while let [first, rest @ ..] = left {
        definition_onto(alloc, around, done, sort, first)?;
        left = rest;
    }
    Ok(())
}

/// What the sections are checked by.
#[derive(Drop)]
pub(crate) struct Checker<'a, R> {
    pub(crate) reader: &'a R,
    pub(crate) signature: &'a Signature,
    pub(crate) names: &'a Names,
    pub(crate) index: &'a Index,
    pub(crate) ghost indexed: { IsIndexOf index.now names.now signature.now.operators },
}

/// The rules of a section, whose variables differ.
fn rules_part<R: Read>(
    alloc: Global,
    around: &Around<'_, R>,
    done: &mut Done,
    sort: SortId,
    tokens: &[u32],
    rules: &[RuleOutline],
) -> Result<(), Stop>
    requires sound { is_sound around.now.signature.now ≡ true }
    requires fits { let a = around.now in PartFits (R.reads a.reader.now) a.signature.now
        (RulesFor a.text.now sort tokens.now a.variables.now rules.now) }
    ensures { let a = around.now in
        Leaves result done.new (spec.checked_tasks (R.reads a.reader.now) a.signature.now
        a.names.now done.old
        (spec.tasks_in (RulesFor a.text.now sort tokens.now a.variables.now rules.now))) }
{
    declares(alloc, around.text, tokens)?;
    rules_onto(alloc, around, done, sort, rules)
}

/// A section.
fn part_onto<'a, R: Read>(
    alloc: Global,
    checker: &'a Checker<'a, R>,
    done: &mut Done,
    part: &'a Part<'a>,
) -> Result<(), Stop>
    requires sound { is_sound checker.now.signature.now ≡ true }
    requires fits { let c = checker.now in
        PartFits (R.reads c.reader.now) c.signature.now (seen_part part.now) }
    ensures { let c = checker.now in
        Leaves result done.new (spec.checked_tasks (R.reads c.reader.now) c.signature.now
        c.names.now done.old (spec.tasks_in (seen_part part.now))) }
{
    match part {
        Part::Rules {
            text,
            sort,
            tokens,
            variables,
            rules,
        } => {
            let around = Around {
                reader: checker.reader,
                signature: checker.signature,
                names: checker.names,
                index: checker.index,
                text,
                variables,
            };
            rules_part(alloc, &around, done, *sort, tokens.as_slice(), rules)
        }
        Part::Strategies {
            text,
            sort,
            definitions,
        } => {
            let none = Variables::none(alloc);
            let around = Around {
                reader: checker.reader,
                signature: checker.signature,
                names: checker.names,
                index: checker.index,
                text,
                variables: &none,
            };
            definitions_onto(alloc, &around, done, *sort, definitions)
        }
    }
}

/// All sections.
#[tactic(auto, using(crate::proofs::StepLemmas::tasks_more, crate::proofs::StepLemmas::parts_step))]
pub(crate) fn parts_onto<'a, R: Read>(
    alloc: Global,
    checker: &'a Checker<'a, R>,
    done: &mut Done,
    parts: &'a [Part<'a>],
) -> Result<(), Stop>
    requires sound { is_sound checker.now.signature.now ≡ true }
    requires fits { let c = checker.now in
        AllFit (R.reads c.reader.now) c.signature.now (map seen_part parts.now) }
    ensures { let c = checker.now in
        Leaves result done.new (spec.checked_tasks (R.reads c.reader.now) c.signature.now
        c.names.now done.old (flat_map spec.tasks_in (map seen_part parts.now))) }
{
    let mut left = parts;
    'parts: while let [first, rest @ ..] = left {
        part_onto(alloc, checker, done, first)?;
        left = rest;
    }
    Ok(())
}
