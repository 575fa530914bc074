//! Operators that are declared, and the checks of a declaration.

ghost use Rattle.std.specs.Prelude.{◌≡◌, ◌≤◌, ◌++◌, ◌∷◌, [], length, IfOk, OnOk, map};
ghost use Rattle.elan_program.specs.Soundness.{leads};
ghost use Rattle.elan_signature.specs.Declarations as spec;
ghost use Rattle.elan_signature.specs.Outcomes.{Gives, Is, itself, become};
ghost use Rattle.elan_signature.specs.Walk as walk;

use crate::attributes::{associativity_of, pieces_of, priority_of, tokens_in};
use crate::done::{Done, Injection};
use crate::scope::Scope;
use elan_modules::{LoadedText, copy_owner, place_at};
use elan_program::{Operator, Piece, ac_fits, are_spelled, holes};
use elan_syntax::{Attributes, OpDecl, Span};
use elan_terms::SortId;
use elan_text::{Code, NoMemory, Stop};
use sqlite_items::Items;
use std::alloc::Global;

/// How many operators and sorts there may be.
pub(crate) const MOST: usize = 4_096;

/// The operator of a declaration with these sorts.
fn operator_with(
    alloc: Global,
    text: &LoadedText,
    declared: &OpDecl,
    args: Items<SortId>,
    sort: SortId,
) -> Result<Operator, NoMemory>
    ensures { IfOk result (λ o. o ≡ spec.operator_with text.now declared.now args sort) }
{
    let bytes = text.bytes.as_slice();
    let pieces = pieces_of(alloc, bytes, tokens_in(text, declared.spelling))?;
    let Attributes {
        priority,
        associativity,
        ac,
    } = declared.attributes;
    Ok(Operator {
        pieces,
        args,
        sort,
        pri: priority_of(priority),
        assoc: associativity_of(associativity, ac),
        ac,
        builtin: None,
    })
}

/// Whether a spelling has at least one piece, and only words that it may have.
fn is_spelling(pieces: &[Piece]) -> bool
    ensures { result ≡ spec.is_spelling pieces.now }
{
    match pieces {
        [] => false,
        [_, ..] => are_spelled(pieces),
    }
}

/// The operator with this number, unless something is wrong with it.
#[tactic(auto, unfolding(crate::specs::Declarations::admitted))]
fn admitted(
    alloc: Global,
    scope: &Scope<'_>,
    number: usize,
    spelling: Span,
    operator: Operator,
) -> Result<Operator, Stop>
    ensures { Gives itself result (spec.admitted scope.now number spelling operator) }
{
    if !is_spelling(operator.pieces.as_slice()) {
        return Err(scope.refusal(alloc, Code::E05, spelling.first));
    }
    if holes(operator.pieces.as_slice()) != operator.args.len() {
        return Err(scope.refusal(alloc, Code::E11, spelling.first));
    }
    if !ac_fits(&operator) {
        return Err(scope.refusal(alloc, Code::E12, spelling.first));
    }
    if number >= MOST {
        return Err(scope.refusal(alloc, Code::E14, spelling.first));
    }
    Ok(operator)
}

/// The operator of a declaration.
#[tactic(auto, unfolding(crate::specs::Declarations::operator_at))]
fn operator_at(
    alloc: Global,
    scope: &Scope<'_>,
    number: usize,
    declared: &OpDecl,
) -> Result<Operator, Stop>
    ensures { Gives itself result (spec.operator_at scope.now number declared.now) }
{
    let args = scope.sorts_at(alloc, declared.args.as_slice())?;
    let sort = scope.sort_at(alloc, declared.sort)?;
    let operator = operator_with(alloc, scope.text(), declared, args, sort)?;
    admitted(alloc, scope, number, declared.spelling, operator)
}

/// Adds an operator to the injections, if it is one.
fn add_injection(
    alloc: Global,
    injections: &mut Items<Injection>,
    scope: &Scope<'_>,
    spelling: Span,
    operator: &Operator,
) -> Result<(), NoMemory>
    ensures { OnOk result (injections.new ≡ injections.old
        ++ map (walk.injection_at scope.now spelling)
        (leads operator.now.pieces operator.now.args operator.now.sort)) }
{
    match (operator.pieces.as_slice(), operator.args.as_slice()) {
        ([Piece::Hole], [from]) => {
            let module = copy_owner(alloc, &scope.text().module)?;
            injections.push(Injection {
                from: *from,
                to: operator.sort,
                at: place_at(scope.text(), spelling.first),
                module,
            })
        }
        _ => Ok(()),
    }
}

/// Adds the operator of a declaration.
fn add_operator(
    alloc: Global,
    done: &mut Done,
    scope: &Scope<'_>,
    declared: &OpDecl,
) -> Result<(), Stop>
    ensures { Gives (become done.new) result (walk.with_operator scope.now done.old declared.now) }
{
    let operator = operator_at(alloc, scope, done.operators.len(), declared)?;
    add_injection(
        alloc,
        &mut done.injections,
        scope,
        declared.spelling,
        &operator,
    )?;
    done.operators.push(operator)?;
    Ok(())
}

/// Adds the operators of these declarations.
#[tactic(auto, unfolding(crate::specs::Walk::with_operators))]
pub(crate) fn add_operators(
    alloc: Global,
    done: &mut Done,
    scope: &Scope<'_>,
    all: &[OpDecl],
) -> Result<(), Stop>
    ensures { Gives (become done.new) result (walk.with_operators scope.now done.old all.now) }
{
    let mut left = all;
    'declarations: while let [declared, rest @ ..] = left {
        add_operator(alloc, done, scope, declared)?;
        left = rest;
    }
    Ok(())
}
