//! Rules and definitions, checked one by one.

ghost use Rattle.std.specs.Prelude.{◌≡◌, ◌<◌, ◌^◌, ◌++◌, true, false, length, map, IfOk, Ok, Err, Some, None};
ghost use Rattle.std.specs.List.{list_any};
ghost use Rattle.std.specs.Option.{option_map};
ghost use Rattle.elan_terms.specs.Match.{variables as variables_in};
ghost use Rattle.elan_program.specs.Soundness.{is_sound};
ghost use Rattle.elan_clauses.specs.Gives.{Gives, Leaves, GivesWith};
ghost use Rattle.elan_clauses.specs.Readable.{IsReadable};
ghost use Rattle.elan_names.specs.Resolved.{seen_body};
ghost use Rattle.elan_clauses.specs.Refusals.{name_at as the_name};
ghost use Rattle.elan_clauses.specs.Texts.{is_numbered_in};
ghost use Rattle.elan_clauses.specs.Rules as spec;

use crate::bound::{bind_fresh, bound_in, closed, fresh};
use crate::bound_variables::BoundVariables;
use crate::reading::Read;
use crate::refusing::{name_at, refused};
use crate::texts::{Around, sort_of, text_as, truth_as};
use elan_modules::LoadedText;
use elan_names::{Body, Known, Site, Stopped, resolve};
use elan_phrases::{Plan, PlanNode, Planned};
use elan_program::{Clause, Rule, Strategy};
use elan_reading::Sought;
use elan_syntax::{ClauseOutline, RuleOutline, Span};
use elan_terms::{Pattern, SortId};
use elan_text::{Name, NoMemory, Stop};
use sqlite_items::Items;
use std::alloc::Global;

fn label_at(alloc: Global, text: &LoadedText, number: Option<u32>) -> Result<Option<Name>, NoMemory>
    ensures { IfOk result (λ n. n ≡ option_map (the_name text.now) number) }
{
    match number {
        None => Ok(None),
        Some(number) => Ok(Some(name_at(alloc, text, number)?)),
    }
}

/// The strategy of a plan at a sort, in this body or in none.
fn resolved_in<'a, R: Read>(
    alloc: Global,
    around: &Around<'a, R>,
    body: Option<Body<'a>>,
    sort: SortId,
    plan: &Plan,
) -> Result<Strategy, Stop>
    ensures { let a = around.now in
        Gives result (spec.resolved_in a.signature.now a.names.now a.text.now
        (option_map seen_body body.entry) sort plan.now) }
{
    let text = around.text;
    let known = Known {
        names: around.names,
        operators: around.signature.operators.as_slice(),
        index: around.index,
    };
    let site = Site {
        bytes: text.bytes.as_slice(),
        tokens: text.tokens.as_slice(),
        known,
        body,
    };
    match resolve(alloc, &site, sort, plan) {
        Ok(strategy) => Ok(strategy),
        Err(Stopped::Refused(fault)) => Err(refused(alloc, text, fault.token, fault.code)),
        Err(Stopped::NoMemory) => Err(Stop::NoMemory),
    }
}

/// The strategy that is written, or the empty one, at a sort, in this body or in none.
pub fn strategy_in<'a, R: Read>(
    alloc: Global,
    around: &Around<'a, R>,
    body: Option<Body<'a>>,
    sort: SortId,
    by: &Option<Planned>,
) -> Result<Strategy, Stop>
    ensures { let a = around.now in Gives result (spec.strategy_in a.signature.now a.names.now
        a.text.now (option_map seen_body body.entry) sort by.now) }
{
    match by {
        Some(planned) => planned_in(alloc, around, body, sort, planned),
        None => {
            let plan = Plan { node: PlanNode::Id };
            resolved_in(alloc, around, body, sort, &plan)
        }
    }
}

/// A strategy that is not empty, at a sort, in this body or in none.
pub(crate) fn planned_in<'a, R: Read>(
    alloc: Global,
    around: &Around<'a, R>,
    body: Option<Body<'a>>,
    sort: SortId,
    by: &Planned,
) -> Result<Strategy, Stop>
    ensures { let a = around.now in Gives result (spec.strategy_in a.signature.now a.names.now
        a.text.now (option_map seen_body body.entry) sort (Some by.now)) }
{
    resolved_in(alloc, around, body, sort, &by.plan)
}

fn checked_if<R: Read>(
    alloc: Global,
    around: &Around<'_, R>,
    bound: &BoundVariables,
    at: Span,
) -> Result<Pattern, Stop>
    requires sound { is_sound around.now.signature.now ≡ true }
    requires readable { IsReadable around.now.text.now }
    ensures { let a = around.now in
        Gives result (spec.checked_if (R.reads a.reader.now) a.signature.now a.names.now a.text.now
        a.variables.now bound.now at) }
{
    let test = truth_as(alloc, around, at)?;
    closed(alloc, around.text, at, bound, test)
}

/// The pattern of a `where` and its sort.
fn checked_left<R: Read>(
    alloc: Global,
    around: &Around<'_, R>,
    bound: &BoundVariables,
    at: Span,
) -> Result<(Pattern, SortId), Stop>
    requires sound { is_sound around.now.signature.now ≡ true }
    requires readable { IsReadable around.now.text.now }
    ensures exact { let a = around.now in
        Gives result (spec.checked_left (R.reads a.reader.now) a.signature.now a.names.now
        a.text.now a.variables.now bound.now at) }
    ensures fresh { IfOk result
        (λ l. list_any (is_numbered_in bound.now) (variables_in l.0) ≡ false) }
{
    let left = text_as(alloc, around, Sought::Any, at)?;
    let left = fresh(alloc, around.text, at, bound, left)?;
    let sort = sort_of(alloc, around.signature, around.text, at, &left)?;
    Ok((left, sort))
}

/// The strategy of a `where` and the term from which it starts.
fn checked_start<R: Read>(
    alloc: Global,
    around: &Around<'_, R>,
    bound: &BoundVariables,
    sort: SortId,
    by: &Option<Planned>,
    at: Span,
) -> Result<(Strategy, Pattern), Stop>
    requires sound { is_sound around.now.signature.now ≡ true }
    requires readable { IsReadable around.now.text.now }
    ensures { let a = around.now in
        Gives result (spec.checked_start (R.reads a.reader.now) a.signature.now a.names.now
        a.text.now a.variables.now bound.now sort by.now at) }
{
    let strategy = strategy_in(alloc, around, None, sort, by)?;
    let of = text_as(alloc, around, Sought::Sort(sort), at)?;
    let of = closed(alloc, around.text, at, bound, of)?;
    Ok((strategy, of))
}

fn checked_where<R: Read>(
    alloc: Global,
    around: &Around<'_, R>,
    bound: &mut BoundVariables,
    left: Span,
    by: &Option<Planned>,
    of: Span,
) -> Result<Clause, Stop>
    requires sound { is_sound around.now.signature.now ≡ true }
    requires readable { IsReadable around.now.text.now }
    ensures { let a = around.now in
        GivesWith result bound.new (spec.checked_where (R.reads a.reader.now) a.signature.now
        a.names.now a.text.now a.variables.now bound.old left by.now of) }
{
    let (left, sort) = checked_left(alloc, around, bound, left)?;
    let (by, of) = checked_start(alloc, around, bound, sort, by, of)?;
    bind_fresh(alloc, bound, &left)?;
    Ok(Clause::Where { left, by, of })
}

/// A condition, behind which its variables are bound.
fn checked_clause<R: Read>(
    alloc: Global,
    around: &Around<'_, R>,
    bound: &mut BoundVariables,
    clause: &ClauseOutline,
) -> Result<Clause, Stop>
    requires sound { is_sound around.now.signature.now ≡ true }
    requires readable { IsReadable around.now.text.now }
    ensures { let a = around.now in
        GivesWith result bound.new (spec.checked_clause (R.reads a.reader.now) a.signature.now
        a.names.now a.text.now a.variables.now bound.old clause.now) }
{
    match clause {
        ClauseOutline::If(test) => {
            let test = checked_if(alloc, around, bound, *test)?;
            Ok(Clause::If(test))
        }
        ClauseOutline::Where { left, by, of } => {
            checked_where(alloc, around, bound, *left, by, *of)
        }
    }
}

/// Checks conditions, behind those before them.
fn clauses_onto<R: Read>(
    alloc: Global,
    around: &Around<'_, R>,
    out: &mut Items<Clause>,
    bound: &mut BoundVariables,
    clauses: &[ClauseOutline],
) -> Result<(), Stop>
    requires sound { is_sound around.now.signature.now ≡ true }
    requires readable { IsReadable around.now.text.now }
    ensures { let a = around.now in
        Leaves result (out.new, bound.new) (spec.checked_clauses (R.reads a.reader.now)
        a.signature.now a.names.now a.text.now a.variables.now out.old bound.old clauses.now) }
{
    let mut left = clauses;
    'clauses: while let [first, rest @ ..] = left {
        let clause = checked_clause(alloc, around, bound, first)?;
        out.push(clause)?;
        left = rest;
    }
    Ok(())
}

/// A rule with the numbers of its section, and its variables in the order in which they are bound.
pub fn checked_rule<R: Read>(
    alloc: Global,
    around: &Around<'_, R>,
    sort: SortId,
    rule: &RuleOutline,
) -> Result<(Rule, BoundVariables), Stop>
    requires sound { is_sound around.now.signature.now ≡ true }
    requires readable { IsReadable around.now.text.now }
    ensures { let a = around.now in
        Gives result (spec.checked_rule (R.reads a.reader.now) a.signature.now a.names.now
        a.text.now a.variables.now sort rule.now) }
{
    let left = text_as(alloc, around, Sought::Sort(sort), rule.left)?;
    let right = text_as(alloc, around, Sought::Sort(sort), rule.right)?;
    let mut bound = bound_in(alloc, &left)?;
    let mut clauses = Items::new(alloc);
    clauses_onto(
        alloc,
        around,
        &mut clauses,
        &mut bound,
        rule.clauses.as_slice(),
    )?;
    let right = closed(alloc, around.text, rule.right, &bound, right)?;
    let label = label_at(alloc, around.text, rule.label)?;
    Ok((
        Rule {
            label,
            sort,
            left,
            right,
            clauses,
        },
        bound,
    ))
}
