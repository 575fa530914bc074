//! The arguments that terms bring under an operator, in order.
ghost use Rattle.std.specs.Prelude.{◌≡◌, ◌++◌, [], ◌∷◌, length, IfOk, OnOk};
ghost use Rattle.std.specs.List.{flat_map};
ghost use Rattle.elan_terms.specs.Term.{arms_under, ascending as spec_ascending, order};
ghost use Rattle.elan_shared.specs.Nodes.{arguments};
ghost use Rattle.elan_table.specs.Rows.{terms};

use elan_table::{Name, NoMemory, Node, Table, TermRef};
use elan_terms::OpId;
use std::alloc::Global;
use std::cmp::Ordering;
use std::sync::Wait;

/// Puts the rows of the arguments of a term to the end.
fn args_onto<N: Name, R: Wait>(
    rt: &R,
    table: &Table<N>,
    out: &mut Vec<TermRef<N>>,
    term: &TermRef<N>,
    many: u64,
) -> Result<(), NoMemory>
    requires { many ≡ length (arguments term.now.value) }
    ensures { IfOk result (λ _.
        terms out.new.items ≡ terms out.old.items ++ arguments term.now.value) }
{
    for place in 0..many {
        out.push(table.arg(rt, term, place)?)?;
    }
    Ok(())
}

/// Puts the row to the end.
fn row_onto<N: Name>(out: &mut Vec<TermRef<N>>, row: &TermRef<N>) -> Result<(), NoMemory>
    ensures { IfOk result (λ _. terms out.new.items ≡ terms out.old.items ++ row.now.value ∷ []) }
{
    out.push(row.again())?;
    Ok(())
}

/// Puts what a term brings under an operator to the end: its arguments where it is headed by the
/// operator, else the term.
fn arms_onto<N: Name, R: Wait>(
    rt: &R,
    table: &Table<N>,
    out: &mut Vec<TermRef<N>>,
    op: OpId,
    term: &TermRef<N>,
) -> Result<(), NoMemory>
    ensures { IfOk result (λ _.
        terms out.new.items ≡ terms out.old.items ++ arms_under op term.now.value) }
{
    match table.node(term) {
        Node::App(f, many) => {
            if op.0 == f.0 {
                args_onto(rt, table, out, term, many)
            } else {
                row_onto(out, term)
            }
        }
        Node::Int(_) => row_onto(out, term),
    }
}

fn all_onto<N: Name, R: Wait>(
    rt: &R,
    table: &Table<N>,
    out: &mut Vec<TermRef<N>>,
    op: OpId,
    args: &[TermRef<N>],
) -> Result<(), NoMemory>
    ensures { IfOk result (λ _.
        terms out.new.items ≡ terms out.old.items ++ flat_map (arms_under op) (terms args.now)) }
{
    match args {
        [] => Ok(()),
        [first, rest @ ..] => {
            arms_onto(rt, table, out, op, first)?;
            all_onto(rt, table, out, op, rest)
        }
    }
}

/// Puts the rows into the term order; equal terms all stay.
fn sort<N: Name>(table: &Table<N>, rows: &mut Vec<TermRef<N>>) -> Result<(), NoMemory>
    ensures { OnOk result (terms rows.new.items ≡ spec_ascending (terms rows.old.items)) }
{
    let by_terms = |a: &TermRef<N>, b: &TermRef<N>| -> Ordering
        ensures { result ≡ order a.now.value b.now.value }
    { table.compare(a, b) };
    rows.sort_by(by_terms)
}

/// The arguments that these terms bring under an operator, ascending in the term order; equal ones
/// all stay.
pub(crate) fn ascending_arms<N: Name, R: Wait>(
    rt: &R,
    alloc: Global,
    table: &Table<N>,
    op: OpId,
    args: &[TermRef<N>],
) -> Result<Vec<TermRef<N>>, NoMemory>
    ensures { IfOk result (λ v.
        terms v.items ≡ spec_ascending (flat_map (arms_under op) (terms args.now))) }
{
    let mut rows = Vec::new(alloc);
    all_onto(rt, table, &mut rows, op, args)?;
    sort(table, &mut rows)?;
    Ok(rows)
}
