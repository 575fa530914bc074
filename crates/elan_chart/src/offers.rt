//! The steps of a reading: what a run is read as, from what shorter runs are. Each is put straight
//! into the run.

ghost use Rattle.std.specs.Prelude.{◌≡◌, ◌<◌, ◌^◌, IfOk};
ghost use Rattle.std.specs.List.{flat_map};
ghost use Rattle.std.specs.Option.{option_copied};
ghost use Rattle.elan_lexer.specs.Bytes.{value};
ghost use Rattle.elan_reading.specs.Lexemes.{IsInRange};
ghost use Rattle.elan_entries.specs.Found as found;
ghost use Rattle.elan_chart.specs.Offers as spec;

use elan_entries::found::{Entry, Found, Key, applied, is_settled, joined, one, put};
use elan_entries::lexemes::{integer, is_number, is_sign, is_word};
use elan_entries::pieces::{fits_arg, fits_before, is_injection_from, is_word_at, takes_hole};
use elan_entries::shared::Tree;
use elan_program::{Operator, Signature};
use elan_reading::{Lexeme, Variable, is_injection, tie};
use elan_terms::{OpId, SortId};
use elan_text::NoMemory;
use elan_variables::Variables;
use sqlite_items::Items;
use std::alloc::Global;

/// Puts a tree before what is found, unless several are found at the key.
fn put_joined(
    alloc: Global,
    run: &mut Items<Entry>,
    key: Key,
    tree: &Found,
    rest: &Found,
) -> Result<(), NoMemory>
    ensures { IfOk result (λ _. run.new ≡ found.put run.old (spec.entry key (found.joined tree.now
        rest.now))) }
{
    if is_settled(run.as_slice(), key) {
        Ok(())
    } else {
        put(
            run,
            Entry {
                key,
                found: joined(alloc, tree, rest)?,
            },
        )
    }
}

/// Puts an operator over what is found, unless several are found at the key.
fn put_applied(
    alloc: Global,
    run: &mut Items<Entry>,
    key: Key,
    op: OpId,
    args: &Found,
) -> Result<(), NoMemory>
    ensures { IfOk result (λ _. run.new ≡ found.put run.old (spec.entry key (found.applied op
        args.now))) }
{
    if is_settled(run.as_slice(), key) {
        Ok(())
    } else {
        put(
            run,
            Entry {
                key,
                found: applied(alloc, op, args)?,
            },
        )
    }
}

/// Puts an operator over a tree before what is found, unless several are found at the key.
fn put_whole(
    alloc: Global,
    run: &mut Items<Entry>,
    key: Key,
    op: OpId,
    tree: &Found,
    rest: &Found,
) -> Result<(), NoMemory>
    ensures { IfOk result (λ _. run.new ≡ found.put run.old (spec.entry key (found.applied op
        (found.joined tree.now rest.now)))) }
{
    if is_settled(run.as_slice(), key) {
        Ok(())
    } else {
        let args = joined(alloc, tree, rest)?;
        put_applied(alloc, run, key, op, &args)
    }
}

/// Puts an operator from this piece on, with a tree before what is found: whole, or where the piece
/// before may stand there.
fn advance(
    alloc: Global,
    run: &mut Items<Entry>,
    before: Option<&Lexeme>,
    op: OpId,
    operator: &Operator,
    piece: usize,
    arg: usize,
    tree: &Found,
    rest: &Found,
) -> Result<(), NoMemory>
    ensures { IfOk result (λ _. run.new ≡ found.put_all run.old (spec.advanced (option_copied
        before.entry) op operator.now piece arg (found.joined tree.now rest.now))) }
{
    if piece == 0 {
        if arg == 0 && !is_injection(operator) {
            let key = Key::Whole(operator.sort, tie(operator), false);
            put_whole(alloc, run, key, op, tree, rest)
        } else {
            Ok(())
        }
    } else if fits_before(operator, piece - 1, before) {
        put_joined(alloc, run, Key::Rest(op, piece, arg), tree, rest)
    } else {
        Ok(())
    }
}

/// Puts an operator from this piece on, with what is found.
#[tactic(auto, using(elan_entries::proofs::PutLemmas::joined_none))]
fn advance_alone(
    alloc: Global,
    run: &mut Items<Entry>,
    before: Option<&Lexeme>,
    op: OpId,
    operator: &Operator,
    piece: usize,
    arg: usize,
    rest: &Found,
) -> Result<(), NoMemory>
    ensures { IfOk result (λ _. run.new ≡ found.put_all run.old (spec.advanced (option_copied
        before.entry) op operator.now piece arg rest.now)) }
{
    let nothing = Found::One(Items::new(alloc));
    advance(alloc, run, before, op, operator, piece, arg, &nothing, rest)
}

/// A word before what is read.
fn put_word(
    alloc: Global,
    run: &mut Items<Entry>,
    signature: &Signature,
    before: Option<&Lexeme>,
    first: &Lexeme,
    rest: &Entry,
) -> Result<(), NoMemory>
    ensures { IfOk result (λ _. run.new ≡ found.put_all run.old (spec.word_offer signature.now
        (option_copied before.entry) first.now rest.now)) }
{
    match rest.key {
        Key::Whole(_, _, _) => Ok(()),
        Key::Rest(op, piece, arg) => match signature.operators.get(op.0 as usize) {
            None => Ok(()),
            Some(operator) => {
                if 0 < piece && is_word_at(operator, piece - 1, first) {
                    advance_alone(
                        alloc,
                        run,
                        before,
                        op,
                        operator,
                        piece - 1,
                        arg,
                        &rest.found,
                    )
                } else {
                    Ok(())
                }
            }
        },
    }
}

#[tactic(auto, using(elan_entries::proofs::PutLemmas::put_all_append))]
pub(crate) fn put_words(
    alloc: Global,
    run: &mut Items<Entry>,
    signature: &Signature,
    before: Option<&Lexeme>,
    first: &Lexeme,
    rests: &[Entry],
) -> Result<(), NoMemory>
    ensures { IfOk result (λ _. run.new ≡ found.put_all run.old (spec.word_offers signature.now
        (option_copied before.entry) first.now rests.now)) }
{
    for rest in rests {
        put_word(alloc, run, signature, before, first, rest)?;
    }
    Ok(())
}

/// A tree before an operator from a piece on, where it may stand in the hole before that piece.
fn put_tree(
    alloc: Global,
    run: &mut Items<Entry>,
    before: Option<&Lexeme>,
    op: OpId,
    operator: &Operator,
    piece: usize,
    arg: usize,
    rest: &Found,
    whole: &Entry,
) -> Result<(), NoMemory>
    requires pieces { 0 < piece }
    requires args { 0 < arg }
    ensures { IfOk result (λ _. run.new ≡ found.put_all run.old (spec.tree_offer (option_copied
        before.entry) op operator.now piece arg rest.now whole.now)) }
{
    match whole.key {
        Key::Rest(_, _, _) => Ok(()),
        Key::Whole(sort, tie, _) => {
            if fits_arg(operator, piece, arg, sort, tie) {
                advance(
                    alloc,
                    run,
                    before,
                    op,
                    operator,
                    piece - 1,
                    arg - 1,
                    &whole.found,
                    rest,
                )
            } else {
                Ok(())
            }
        }
    }
}

/// Each of these trees before an operator from a piece on.
#[tactic(auto, using(elan_entries::proofs::PutLemmas::put_all_append))]
fn put_trees(
    alloc: Global,
    run: &mut Items<Entry>,
    before: Option<&Lexeme>,
    op: OpId,
    operator: &Operator,
    piece: usize,
    arg: usize,
    rest: &Found,
    wholes: &[Entry],
) -> Result<(), NoMemory>
    requires pieces { 0 < piece }
    requires args { 0 < arg }
    ensures { IfOk result (λ _. run.new ≡ found.put_all run.old (flat_map (spec.tree_offer
        (option_copied before.entry) op operator.now piece arg rest.now) wholes.now)) }
{
    for whole in wholes {
        put_tree(alloc, run, before, op, operator, piece, arg, rest, whole)?;
    }
    Ok(())
}

/// The trees before what is read.
fn put_rest(
    alloc: Global,
    run: &mut Items<Entry>,
    signature: &Signature,
    before: Option<&Lexeme>,
    wholes: &[Entry],
    rest: &Entry,
) -> Result<(), NoMemory>
    ensures { IfOk result (λ _. run.new ≡ found.put_all run.old (spec.rest_offer signature.now
        (option_copied before.entry) wholes.now rest.now)) }
{
    match rest.key {
        Key::Whole(_, _, _) => Ok(()),
        Key::Rest(op, piece, arg) => match signature.operators.get(op.0 as usize) {
            None => Ok(()),
            Some(operator) => {
                if takes_hole(operator, piece, arg) {
                    put_trees(
                        alloc,
                        run,
                        before,
                        op,
                        operator,
                        piece,
                        arg,
                        &rest.found,
                        wholes,
                    )
                } else {
                    Ok(())
                }
            }
        },
    }
}

/// A run that is cut in two.
#[tactic(auto, using(elan_entries::proofs::PutLemmas::put_all_append))]
pub(crate) fn put_cut(
    alloc: Global,
    run: &mut Items<Entry>,
    signature: &Signature,
    before: Option<&Lexeme>,
    wholes: &[Entry],
    rests: &[Entry],
) -> Result<(), NoMemory>
    ensures { IfOk result (λ _. run.new ≡ found.put_all run.old (spec.cut_offers signature.now
        (option_copied before.entry) wholes.now rests.now)) }
{
    for rest in rests {
        put_rest(alloc, run, signature, before, wholes, rest)?;
    }
    Ok(())
}

/// An injection of a tree.
fn put_injection(
    alloc: Global,
    run: &mut Items<Entry>,
    signature: &Signature,
    sort: SortId,
    tie: Option<u8>,
    tree: &Found,
    op: OpId,
) -> Result<(), NoMemory>
    ensures { IfOk result (λ _. run.new ≡ found.put_all run.old (spec.injection_offer signature.now
        sort tie tree.now op)) }
{
    match signature.operators.get(op.0 as usize) {
        None => Ok(()),
        Some(operator) => {
            if is_injection_from(operator, sort) {
                put_applied(alloc, run, Key::Whole(operator.sort, tie, true), op, tree)
            } else {
                Ok(())
            }
        }
    }
}

#[tactic(auto, using(elan_entries::proofs::PutLemmas::put_all_append))]
fn put_injections(
    alloc: Global,
    run: &mut Items<Entry>,
    signature: &Signature,
    sort: SortId,
    tie: Option<u8>,
    tree: &Found,
    injections: &[OpId],
) -> Result<(), NoMemory>
    ensures { IfOk result (λ _. run.new ≡ found.put_all run.old (flat_map (spec.injection_offer
        signature.now sort tie tree.now) injections.now)) }
{
    for op in injections {
        put_injection(alloc, run, signature, sort, tie, tree, *op)?;
    }
    Ok(())
}

/// The operators at this sort.
fn at_sort<'a>(table: &'a [Items<OpId>], sort: SortId) -> &'a [OpId]
    ensures { result.now ≡ spec.at_sort table.now sort }
{
    match table.get(sort.0 as usize) {
        None => &[],
        Some(row) => row.as_slice(),
    }
}

/// All injections of what is read.
fn put_risen_of(
    alloc: Global,
    run: &mut Items<Entry>,
    signature: &Signature,
    injections: &[Items<OpId>],
    whole: &Entry,
) -> Result<(), NoMemory>
    ensures { IfOk result (λ _. run.new ≡ found.put_all run.old (spec.risen_offer signature.now
        injections.now whole.now)) }
{
    match whole.key {
        Key::Rest(_, _, _) => Ok(()),
        Key::Whole(sort, tie, _) => {
            let ops = at_sort(injections, sort);
            put_injections(alloc, run, signature, sort, tie, &whole.found, ops)
        }
    }
}

/// All injections of a level.
#[tactic(auto, using(elan_entries::proofs::PutLemmas::put_all_append))]
pub(crate) fn put_risen(
    alloc: Global,
    run: &mut Items<Entry>,
    signature: &Signature,
    injections: &[Items<OpId>],
    level: &[Entry],
) -> Result<(), NoMemory>
    ensures { IfOk result (λ _. run.new ≡ found.put_all run.old (spec.risen signature.now
        injections.now level.now)) }
{
    for whole in level {
        put_risen_of(alloc, run, signature, injections, whole)?;
    }
    Ok(())
}

/// What is read in the last hole of an operator.
fn put_last(
    alloc: Global,
    run: &mut Items<Entry>,
    signature: &Signature,
    before: Option<&Lexeme>,
    whole: &Entry,
    op: OpId,
) -> Result<(), NoMemory>
    ensures { IfOk result (λ _. run.new ≡ found.put_all run.old (spec.last_offer signature.now
        (option_copied before.entry) whole.now op)) }
{
    match signature.operators.get(op.0 as usize) {
        None => Ok(()),
        Some(operator) => {
            let pieces = operator.pieces.len();
            let args = operator.args.len();
            if takes_hole(operator, pieces, args) {
                let nothing = Found::One(Items::new(alloc));
                put_tree(
                    alloc, run, before, op, operator, pieces, args, &nothing, whole,
                )
            } else {
                Ok(())
            }
        }
    }
}

#[tactic(auto, using(elan_entries::proofs::PutLemmas::put_all_append))]
fn put_each_last(
    alloc: Global,
    run: &mut Items<Entry>,
    signature: &Signature,
    before: Option<&Lexeme>,
    whole: &Entry,
    operators: &[OpId],
) -> Result<(), NoMemory>
    ensures { IfOk result (λ _. run.new ≡ found.put_all run.old (flat_map (spec.last_offer
        signature.now (option_copied before.entry) whole.now) operators.now)) }
{
    for op in operators {
        put_last(alloc, run, signature, before, whole, *op)?;
    }
    Ok(())
}

/// What is read in the last holes of operators.
fn put_lasts_of(
    alloc: Global,
    run: &mut Items<Entry>,
    signature: &Signature,
    before: Option<&Lexeme>,
    lasts: &[Items<OpId>],
    whole: &Entry,
) -> Result<(), NoMemory>
    ensures { IfOk result (λ _. run.new ≡ found.put_all run.old (spec.lasts_offer signature.now
        (option_copied before.entry) lasts.now whole.now)) }
{
    match whole.key {
        Key::Rest(_, _, _) => Ok(()),
        Key::Whole(sort, _, _) => {
            put_each_last(alloc, run, signature, before, whole, at_sort(lasts, sort))
        }
    }
}

/// All that is read in the last holes of operators.
#[tactic(auto, using(elan_entries::proofs::PutLemmas::put_all_append))]
pub(crate) fn put_lasts(
    alloc: Global,
    run: &mut Items<Entry>,
    signature: &Signature,
    before: Option<&Lexeme>,
    lasts: &[Items<OpId>],
    wholes: &[Entry],
) -> Result<(), NoMemory>
    ensures { IfOk result (λ _. run.new ≡ found.put_all run.old (spec.last_offers signature.now
        (option_copied before.entry) lasts.now wholes.now)) }
{
    for whole in wholes {
        put_lasts_of(alloc, run, signature, before, lasts, whole)?;
    }
    Ok(())
}

/// What is read between parentheses.
fn put_group(alloc: Global, run: &mut Items<Entry>, inner: &Entry) -> Result<(), NoMemory>
    ensures { IfOk result (λ _. run.new ≡ found.put_all run.old (spec.group_offer inner.now)) }
{
    match inner.key {
        Key::Rest(_, _, _) => Ok(()),
        Key::Whole(sort, _, injected) => put(
            run,
            Entry {
                key: Key::Whole(sort, None, injected),
                found: inner.found.again(alloc)?,
            },
        ),
    }
}

#[tactic(auto, using(elan_entries::proofs::PutLemmas::put_all_append))]
fn put_each_group(alloc: Global, run: &mut Items<Entry>, inner: &[Entry]) -> Result<(), NoMemory>
    ensures { IfOk result (λ _. run.new ≡ found.put_all run.old (flat_map spec.group_offer
        inner.now)) }
{
    for entry in inner {
        put_group(alloc, run, entry)?;
    }
    Ok(())
}

pub(crate) fn put_groups(
    alloc: Global,
    run: &mut Items<Entry>,
    first: &Lexeme,
    last: &Lexeme,
    inner: &[Entry],
) -> Result<(), NoMemory>
    ensures { IfOk result (λ _. run.new ≡ found.put_all run.old (spec.group_offers first.now
        last.now inner.now)) }
{
    if is_sign(40, first) && is_sign(41, last) {
        put_each_group(alloc, run, inner)
    } else {
        Ok(())
    }
}

/// The variable at a place, where there is one.
fn put_variable(
    alloc: Global,
    run: &mut Items<Entry>,
    variables: &[Variable],
    place: usize,
) -> Result<(), NoMemory>
    ensures { IfOk result (λ _. run.new ≡ found.put_all run.old (spec.variable_at variables.now
        place)) }
{
    match variables.get(place) {
        None => Ok(()),
        Some(variable) => put(
            run,
            Entry {
                key: Key::Whole(variable.sort, None, false),
                found: one(alloc, Tree::var(variable.number, variable.sort))?,
            },
        ),
    }
}

/// The variables at these places.
#[tactic(auto, using(elan_entries::proofs::PutLemmas::put_all_append))]
fn put_places(
    alloc: Global,
    run: &mut Items<Entry>,
    variables: &[Variable],
    places: &[usize],
) -> Result<(), NoMemory>
    ensures { IfOk result (λ _. run.new ≡ found.put_all run.old (flat_map (spec.variable_at
        variables.now) places.now)) }
{
    for place in places {
        put_variable(alloc, run, variables, *place)?;
    }
    Ok(())
}

/// The variables whose name a token is; it does not go through the others.
#[tactic(auto, using(crate::proofs::VariableLemmas::all_called))]
fn put_each_variable(
    alloc: Global,
    run: &mut Items<Entry>,
    variables: &Variables,
    token: &Lexeme,
) -> Result<(), NoMemory>
    ensures { IfOk result (λ _. run.new ≡ found.put_all run.old (flat_map (spec.variable_offer
        token.now.text) variables.now)) }
{
    let places = variables.places_of(token.text.as_slice());
    put_places(alloc, run, variables.as_slice(), places)?;
    Ok(())
}

fn put_variables(
    alloc: Global,
    run: &mut Items<Entry>,
    variables: &Variables,
    token: &Lexeme,
) -> Result<(), NoMemory>
    ensures { IfOk result (λ _. run.new ≡ found.put_all run.old (spec.variable_offers variables.now
        token.now)) }
{
    if is_word(token) {
        put_each_variable(alloc, run, variables, token)
    } else {
        Ok(())
    }
}

/// An integer, where the token is a number and there are integers.
pub(crate) fn put_integer(
    alloc: Global,
    run: &mut Items<Entry>,
    int: Option<SortId>,
    negative: bool,
    token: &Lexeme,
) -> Result<(), NoMemory>
    requires { IsInRange token.now }
    ensures { IfOk result (λ _. run.new ≡ found.put_all run.old (spec.integer_offers int negative
        token.now)) }
{
    match int {
        None => Ok(()),
        Some(sort) => {
            if is_number(token) {
                let value = integer(negative, token.text.as_slice());
                put(
                    run,
                    Entry {
                        key: Key::Whole(sort, None, false),
                        found: one(alloc, Tree::int(value))?,
                    },
                )
            } else {
                Ok(())
            }
        }
    }
}

/// What one token is read as.
#[tactic(auto, using(elan_entries::proofs::PutLemmas::put_all_append))]
pub(crate) fn put_token(
    alloc: Global,
    run: &mut Items<Entry>,
    signature: &Signature,
    variables: &Variables,
    token: &Lexeme,
) -> Result<(), NoMemory>
    requires { IsInRange token.now }
    ensures { IfOk result (λ _. run.new ≡ found.put_all run.old (spec.token_offers signature.now
        variables.now token.now)) }
{
    put_variables(alloc, run, variables, token)?;
    put_integer(alloc, run, signature.int, false, token)
}
