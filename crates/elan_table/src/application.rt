//! An operator over rows, which tells nodes apart.
ghost use Rattle.std.specs.Prelude.{◌≡◌, ◌++◌, map, nat_eq, IfOk};
ghost use Rattle.std.specs.Cmp.{partial_equiv_from_equiv};
ghost use Rattle.std.specs.Cmp.Lexicographic.{pointwise, on_texts_equal};
ghost use Rattle.std.specs.List.{fold, flat_map};
ghost use Rattle.std.specs.Hash as fed;
ghost use Rattle.elan_table.specs.Shown.{op_of, listed, key_of};
ghost use Rattle.elan_table.specs.Keys.{fed_alike};

use crate::NoMemory;
use crate::name::Name;
use crate::row::TermRef;
use elan_terms::OpId;
use sqlite_items::{Boxed, Items};
use std::alloc::Global;
use std::hash::{Hash, Hasher};

/// An operator with the rows of its arguments from left to right, up to two of them in place.
#[derive(Drop)]
pub enum Application<N: Name> {
    Zero(OpId),
    One(OpId, [TermRef<N>; 1]),
    Two(OpId, [TermRef<N>; 2]),
    Many(OpId, Boxed<Items<TermRef<N>>>),
}

fn copies_onto<N: Name>(out: &mut Items<TermRef<N>>, args: &[TermRef<N>]) -> Result<(), NoMemory>
    ensures { IfOk result (λ _. out.new ≡ out.old ++ args.now) }
{
    match args {
        [] => Ok(()),
        [first, rest @ ..] => {
            out.push(first.again())?;
            copies_onto(out, rest)
        }
    }
}

fn many<N: Name>(alloc: Global, op: OpId, args: &[TermRef<N>]) -> Result<Application<N>, NoMemory>
    ensures op { IfOk result (λ a. op_of a ≡ op) }
    ensures args { IfOk result (λ a. listed a ≡ args.now) }
{
    let mut all = Items::new(alloc);
    copies_onto(&mut all, args)?;
    Ok(Application::Many(op, Boxed::new(alloc, all)?))
}

impl<N: Name> Application<N> {
    /// The operator over these rows.
    pub(crate) fn new(
        alloc: Global,
        op: OpId,
        args: &[TermRef<N>],
    ) -> Result<Application<N>, NoMemory>
        ensures op { IfOk result (λ a. op_of a ≡ op) }
        ensures args { IfOk result (λ a. listed a ≡ args.now) }
    {
        match args {
            [] => Ok(Application::Zero(op)),
            [a] => Ok(Application::One(op, [a.again()])),
            [a, b] => Ok(Application::Two(op, [a.again(), b.again()])),
            _ => many(alloc, op, args),
        }
    }

    pub(crate) fn op(&self) -> OpId
        ensures { result ≡ op_of self.now }
    {
        match self {
            Application::Zero(op) => *op,
            Application::One(op, _) => *op,
            Application::Two(op, _) => *op,
            Application::Many(op, _) => *op,
        }
    }

    /// The rows of the arguments.
    pub(crate) fn args(&self) -> &[TermRef<N>]
        ensures { result.now ≡ listed self.now }
    {
        match self {
            Application::Zero(_) => &[],
            Application::One(_, one) => one.as_slice(),
            Application::Two(_, two) => two.as_slice(),
            Application::Many(_, many) => many.get().as_slice(),
        }
    }
}

/// Whether the rows have the same numbers.
fn same_numbers<N: Name>(some: &[TermRef<N>], others: &[TermRef<N>]) -> bool
    ensures { result
        ≡ pointwise nat_eq (map (λ t. t.index) some.now) (map (λ t. t.index) others.now) }
{
    match some {
        [] => others.is_empty(),
        [a, some @ ..] => match others {
            [] => false,
            [b, others @ ..] => a.number() == b.number() && same_numbers(some, others),
        },
    }
}

/// Feeds the numbers of the rows.
fn feed<N: Name, H: Hasher>(rows: &[TermRef<N>], state: &mut H)
    ensures { state.new ≡ fold H.write state.old (flat_map fed.u64 (map (λ t. t.index) rows.now)) }
{
    match rows {
        [] => {}
        [first, rest @ ..] => {
            state.write_u64(first.number());
            feed(rest, state);
        }
    }
}

impl<N: Name> PartialEq for Application<N> {
    ghost eq = { λ a b. pointwise nat_eq (key_of a) (key_of b) };

    ghost laws = { partial_equiv_from_equiv (on_texts_equal (λ a. key_of a)) };

    fn eq(&self, other: &Application<N>) -> bool {
        self.op().0 == other.op().0 && same_numbers(self.args(), other.args())
    }
}

impl<N: Name> Eq for Application<N> {
    ghost laws = { on_texts_equal (λ a. key_of a) };
}

impl<N: Name> Hash for Application<N> {
    ghost hash_input = { λ a. flat_map fed.u64 (key_of a) };

    ghost respects_eq = { λ x y e. fed_alike (key_of x) (key_of y) e };

    fn hash<H: Hasher>(&self, state: &mut H) {
        state.write_u64(u64::from(self.op().0));
        feed(self.args(), state);
    }
}
