//! The canonical node of an operator over canonical terms.
ghost use Rattle.std.specs.Prelude.{◌≡◌, ◌<◌, ◌↔◌, IfOk, IsTrue};
ghost use Rattle.std.specs.List.{All};
ghost use Rattle.elan_terms.specs.Trees.{app_term};
ghost use Rattle.elan_terms.specs.Term.{depth, node};
ghost use Rattle.elan_terms.specs.Valid.{IsAllowed};
ghost use Rattle.elan_terms.specs.Canonical.{IsSettled};
ghost use Rattle.elan_table.specs.Rows.{MayStand, terms};
ghost use Rattle.elan_ac.specs.Built.{IsBuilt};

use crate::arms::ascending_arms;
use elan_table::{Name, NoMemory, Table, TermRef};
use elan_terms::{OpId, is_ac};
use std::alloc::Global;
use std::sync::Wait;

/// A node that was built.
#[derive(Drop)]
pub enum Built<N: Name> {
    /// Its row.
    Node(TermRef<N>),
    /// It is more than 2,000 deep.
    TooDeep,
}

/// What holds of the term of each row.
fn all_known<N: Name>(rows: &[TermRef<N>])
    ensures { All (λ t. MayStand N.shapes t.value) rows.now }
{
    match rows {
        [] => {}
        [first, rest @ ..] => {
            first.known();
            all_known(rest);
        }
    }
}

fn are_shallow<N: Name>(table: &Table<N>, rows: &[TermRef<N>]) -> bool
    ensures { IsTrue result ↔ All (λ t. depth t.value < 2000) rows.now }
{
    match rows {
        [] => true,
        [first, rest @ ..] => table.depth(first) < 2000 && are_shallow(table, rest),
    }
}

/// The application of an operator to canonical arguments that stand in its order.
fn make<N: Name, R: Wait>(
    rt: &R,
    table: &Table<N>,
    op: OpId,
    args: &[TermRef<N>],
) -> Result<Built<N>, NoMemory>
    requires fits { IsAllowed N.shapes op (terms args.now) }
    requires settled { IsSettled N.shapes op (terms args.now) }
    ensures { IfOk result (IsBuilt (app_term op (terms args.now))) }
{
    if are_shallow(table, args) {
        Ok(Built::Node(table.intern(rt, op, args)?))
    } else {
        Ok(Built::TooDeep)
    }
}

/// The canonical node of an operator over the terms of these rows: under an associative and
/// commutative operator arguments that it heads give way to their own arguments, and all of them
/// ascend in the term order. `TooDeep` exactly where that node is more than 2,000 deep. The
/// arguments fit the operator; an associative and commutative one has at least two.
pub fn build<N: Name, R: Wait>(
    rt: &R,
    alloc: Global,
    table: &Table<N>,
    op: OpId,
    args: &[TermRef<N>],
) -> Result<Built<N>, NoMemory>
    requires { IsAllowed N.shapes op (terms args.now) }
    ensures { IfOk result (IsBuilt (node N.shapes op (terms args.now))) }
{
    all_known(args);
    if is_ac(table.shapes(), op) {
        let arms = ascending_arms(rt, alloc, table, op, args)?;
        make(rt, table, op, arms.as_slice())
    } else {
        make(rt, table, op, args)
    }
}
