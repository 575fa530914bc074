//! Sections of rules.

ghost use Rattle.std.specs.Prelude.{◌≡◌, ◌<◌, ◌≤◌, length, IfOk};
ghost use Rattle.elan_phrases.specs.Input.{Reads};
ghost use Rattle.elan_syntax.specs.Grammar as grammar;

use crate::clauses::more_clauses;
use crate::parts::{RuleOutline, Section, Vars};
use crate::variables::{more_vars, vars};
use elan_phrases::{Halt, Reader, Span, Symbol, SymbolSet, closing_arguments, pushed, text};
use sqlite_items::Items;
use std::alloc::Global;

/// A section of rules: its sort, its variables and its rules.
#[derive(Drop)]
pub struct RulesFor {
    pub sort: Span,
    pub vars: Items<Vars>,
    pub rules: Items<RuleOutline>,
}

/// Takes a section of rules.
#[tactic(auto, unfolding(crate::specs::Grammar::rules))]
pub fn rules(alloc: Global, reader: &mut Reader<'_>) -> Result<Section, Halt>
    ensures read { Reads grammar.rules reader.old result reader.new }
    ensures shorter { IfOk result (λ _. length reader.new.rest < length reader.old.rest) }
{
    reader.sign(Symbol::Rules)?;
    reader.sign(Symbol::For)?;
    let RulesFor { sort, vars, rules } = rules_for(alloc, reader)?;
    reader.sign(Symbol::End)?;
    Ok(Section::Rules { sort, vars, rules })
}

/// Takes the sort of a section, its variables and its rules.
#[tactic(auto, unfolding(crate::specs::Grammar::rules_for))]
fn rules_for(alloc: Global, reader: &mut Reader<'_>) -> Result<RulesFor, Halt>
    ensures read { Reads grammar.rules_for reader.old result reader.new }
    ensures shorter { IfOk result (λ _. length reader.new.rest < length reader.old.rest) }
{
    let name = reader.name_span()?;
    behind_ruled(alloc, reader, name)
}

/// Takes what stands behind the name of a section's sort.
#[tactic(auto, unfolding(crate::specs::Grammar::behind_ruled, crate::specs::Grammar::ruled_bracket, crate::specs::Grammar::vars_first, crate::specs::Grammar::vars, crate::specs::Grammar::visibility_first, elan_phrases::specs::Tokens::visibility))]
fn behind_ruled(alloc: Global, reader: &mut Reader<'_>, name: Span) -> Result<RulesFor, Halt>
    ensures read { Reads (grammar.behind_ruled name) reader.old result reader.new }
    ensures no_longer { IfOk result (λ _. length reader.new.rest ≤ length reader.old.rest) }
{
    if reader.sees(Symbol::LeftSquare) {
        ruled_bracket(alloc, reader, name)
    } else if reader.sees_any(SymbolSet::Names) {
        vars_first(alloc, reader, name)
    } else if reader.sees_any(SymbolSet::Visibilities) {
        visibility_first(alloc, reader, name)
    } else {
        Ok(RulesFor {
            sort: name,
            vars: Items::new(alloc),
            rules: Items::new(alloc),
        })
    }
}

/// Takes a `[` and what stands behind it: the rest of a rule where that is `]`, and else the arguments of the sort.
#[tactic(auto, unfolding(crate::specs::Grammar::ruled_bracket, crate::specs::Grammar::bare_rule_first))]
fn ruled_bracket(alloc: Global, reader: &mut Reader<'_>, name: Span) -> Result<RulesFor, Halt>
    ensures read { Reads (grammar.ruled_bracket name) reader.old result reader.new }
    ensures shorter { IfOk result (λ _. length reader.new.rest < length reader.old.rest) }
{
    let at = bracket(reader)?;
    if reader.sees(Symbol::RightSquare) {
        bare_rule_first(alloc, reader, name, at)
    } else {
        ruled_sort(alloc, reader, name)
    }
}

/// Takes the rest of a rule without a label, and each further rule.
#[tactic(auto, unfolding(crate::specs::Grammar::bare_rule_first))]
fn bare_rule_first(
    alloc: Global,
    reader: &mut Reader<'_>,
    name: Span,
    at: u32,
) -> Result<RulesFor, Halt>
    ensures read { Reads (grammar.bare_rule_first name at) reader.old result reader.new }
    ensures shorter { IfOk result (λ _. length reader.new.rest < length reader.old.rest) }
{
    reader.sign(Symbol::RightSquare)?;
    let first = sides(alloc, reader, at, None)?;
    let first = pushed(Items::new(alloc), first)?;
    let rules = more_ruled(alloc, reader, first)?;
    Ok(RulesFor {
        sort: name,
        vars: Items::new(alloc),
        rules,
    })
}

/// Takes the arguments of the sort, the variables, and each rule.
#[tactic(auto, unfolding(crate::specs::Grammar::ruled_sort))]
fn ruled_sort(alloc: Global, reader: &mut Reader<'_>, name: Span) -> Result<RulesFor, Halt>
    ensures read { Reads (grammar.ruled_sort name) reader.old result reader.new }
    ensures no_longer { IfOk result (λ _. length reader.new.rest ≤ length reader.old.rest) }
{
    closing_arguments(reader)?;
    let past = reader.at();
    let vars = more_vars(alloc, reader, Items::new(alloc))?;
    let rules = more_ruled(alloc, reader, Items::new(alloc))?;
    Ok(RulesFor {
        sort: Span {
            first: name.first,
            past,
        },
        vars,
        rules,
    })
}

/// Takes the variables, and each rule.
#[tactic(auto, unfolding(crate::specs::Grammar::vars_first))]
fn vars_first(alloc: Global, reader: &mut Reader<'_>, name: Span) -> Result<RulesFor, Halt>
    ensures read { Reads (grammar.vars_first name) reader.old result reader.new }
    ensures shorter { IfOk result (λ _. length reader.new.rest < length reader.old.rest) }
{
    let first = vars(alloc, reader)?;
    let first = pushed(Items::new(alloc), first)?;
    let vars = more_vars(alloc, reader, first)?;
    let rules = more_ruled(alloc, reader, Items::new(alloc))?;
    Ok(RulesFor {
        sort: name,
        vars,
        rules,
    })
}

/// Takes `global` or `local`, and each rule.
#[tactic(auto, unfolding(crate::specs::Grammar::visibility_first))]
fn visibility_first(alloc: Global, reader: &mut Reader<'_>, name: Span) -> Result<RulesFor, Halt>
    ensures read { Reads (grammar.visibility_first name) reader.old result reader.new }
    ensures shorter { IfOk result (λ _. length reader.new.rest < length reader.old.rest) }
{
    reader.visibility()?;
    let rules = more_ruled(alloc, reader, Items::new(alloc))?;
    Ok(RulesFor {
        sort: name,
        vars: Items::new(alloc),
        rules,
    })
}

/// Takes each further rule and puts it behind those before, and skips each `global` and `local`.
#[tactic(auto, using(crate::proofs::Turns::more_ruled_reads))]
fn more_ruled(
    alloc: Global,
    reader: &mut Reader<'_>,
    before: Items<RuleOutline>,
) -> Result<Items<RuleOutline>, Halt>
    ensures read { Reads (grammar.more_ruled before) reader.old result reader.new }
    ensures no_longer { IfOk result (λ _. length reader.new.rest ≤ length reader.old.rest) }
{
    let mut found = before;
    'rules: while reader.sees_any(SymbolSet::BeginsRuled) {
        found = ruled(alloc, reader, found)?;
    }
    Ok(found)
}

/// Takes a rule and puts it behind those before, or skips `global` or `local`.
#[tactic(auto, unfolding(crate::specs::Grammar::ruled, elan_phrases::specs::Tokens::visibility))]
fn ruled(
    alloc: Global,
    reader: &mut Reader<'_>,
    before: Items<RuleOutline>,
) -> Result<Items<RuleOutline>, Halt>
    ensures read { Reads (grammar.ruled before) reader.old result reader.new }
    ensures shorter { IfOk result (λ _. length reader.new.rest < length reader.old.rest) }
{
    if reader.sees_any(SymbolSet::Visibilities) {
        reader.visibility()?;
        Ok(before)
    } else {
        let found = rule(alloc, reader)?;
        pushed(before, found)
    }
}

/// Takes a rule.
#[tactic(auto, unfolding(crate::specs::Grammar::rule))]
fn rule(alloc: Global, reader: &mut Reader<'_>) -> Result<RuleOutline, Halt>
    ensures read { Reads grammar.rule reader.old result reader.new }
    ensures shorter { IfOk result (λ _. length reader.new.rest < length reader.old.rest) }
{
    let at = bracket(reader)?;
    let label = some_label(reader)?;
    reader.sign(Symbol::RightSquare)?;
    sides(alloc, reader, at, label)
}

/// Takes the `[` with which a rule or a definition begins, and answers its number.
pub fn bracket(reader: &mut Reader<'_>) -> Result<u32, Halt>
    ensures read { Reads grammar.bracket reader.old result reader.new }
    ensures shorter { IfOk result (λ _. length reader.new.rest < length reader.old.rest) }
{
    let fits = reader.sees(Symbol::LeftSquare);
    reader.number(fits)
}

/// Takes a label, where there is one.
fn some_label(reader: &mut Reader<'_>) -> Result<Option<u32>, Halt>
    ensures read { Reads grammar.some_label reader.old result reader.new }
    ensures no_longer { IfOk result (λ _. length reader.new.rest ≤ length reader.old.rest) }
{
    if reader.sees_any(SymbolSet::Labels) {
        let label = reader.number(true)?;
        Ok(Some(label))
    } else {
        Ok(None)
    }
}

/// Takes the two sides and the clauses of a rule that begins at this token and has this label.
#[tactic(auto, unfolding(crate::specs::Grammar::sides))]
fn sides(
    alloc: Global,
    reader: &mut Reader<'_>,
    at: u32,
    label: Option<u32>,
) -> Result<RuleOutline, Halt>
    ensures read { Reads (grammar.sides at label) reader.old result reader.new }
    ensures shorter { IfOk result (λ _. length reader.new.rest < length reader.old.rest) }
{
    let left = text(reader)?;
    reader.sign(Symbol::Arrow)?;
    let right = text(reader)?;
    let clauses = more_clauses(alloc, reader)?;
    reader.sign(Symbol::End)?;
    Ok(RuleOutline {
        at,
        label,
        left,
        right,
        clauses,
    })
}
