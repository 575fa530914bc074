//! A tree is put at an open place, and marks are cleared.
ghost use Rattle.std.specs.Prelude.{◌≡◌, true, false, MatchOption};
ghost use Rattle.elan_tree.specs.Tree.{trees};
ghost use Rattle.elan_tree.specs.Shape.{arms_of};
ghost use Rattle.elan_tree.specs.Places.{has, any_has, arm_has, put, put_all, put_arms};
ghost use Rattle.elan_tree.specs.Marks.{at_place, unmarked, all_unmarked, arms_unmarked};

use crate::branch::Branch;
use crate::name::Name;
use crate::node::Shape;
use crate::settle::{Limb, Twig};

/// Puts a tree at the leftmost open place of the number, or hands it back.
#[cycle(place)]
pub(crate) fn place<B: Branch, N: Name>(
    node: &mut Twig<B, N>,
    number: u64,
    new: Twig<B, N>,
) -> Option<Twig<B, N>>
    ensures { MatchOption result
        ((has (at_place number) node.old ≡ true) × (node.new ≡ put (at_place number) new node.old))
        (λ back. (back ≡ new) × (has (at_place number) node.old ≡ false) × (node.new ≡ node.old)) }
{
    match &mut node.shape {
        Shape::Item(_) => Some(new),
        Shape::Open(at) => {
            if at.spot.number() == number {
                *node = new;
                None
            } else {
                Some(new)
            }
        }
        Shape::Cat(kids) => place_all(kids, number, new),
        Shape::First(_, arms) => place_arms(arms, number, new),
        Shape::Then(_, child, _) => place(child, number, new),
    }
}

#[cycle(place)]
fn place_all<B: Branch, N: Name>(
    kids: &mut Vec<Twig<B, N>>,
    number: u64,
    new: Twig<B, N>,
) -> Option<Twig<B, N>>
    ensures { MatchOption result ((any_has (at_place number) (trees kids.old.items) ≡ true)
        × (trees kids.new.items ≡ put_all (at_place number) new (trees kids.old.items)))
        (λ back. (back ≡ new) × (any_has (at_place number) (trees kids.old.items) ≡ false)
        × (trees kids.new.items ≡ trees kids.old.items)) }
{
    let mut new = new;
    for i in 0..kids.len() {
        match place(&mut kids[i], number, new) {
            None => return None,
            Some(back) => new = back,
        }
    }
    Some(new)
}

#[cycle(place)]
fn place_arms<B: Branch, N: Name>(
    arms: &mut Vec<Limb<B, N>>,
    number: u64,
    new: Twig<B, N>,
) -> Option<Twig<B, N>>
    ensures { MatchOption result ((arm_has (at_place number) (arms_of arms.old.items) ≡ true)
        × (arms_of arms.new.items ≡ put_arms (at_place number) new (arms_of arms.old.items)))
        (λ back. (back ≡ new) × (arm_has (at_place number) (arms_of arms.old.items) ≡ false)
        × (arms_of arms.new.items ≡ arms_of arms.old.items)) }
{
    let mut new = new;
    for i in 0..arms.len() {
        match place(&mut arms[i].node, number, new) {
            None => return None,
            Some(back) => new = back,
        }
    }
    Some(new)
}

/// Clears the marks of fresh places.
#[cycle(unmark)]
pub(crate) fn unmark<B: Branch, N: Name>(node: &mut Twig<B, N>)
    ensures { node.new ≡ unmarked node.old }
{
    match &mut node.shape {
        Shape::Item(_) => {}
        Shape::Open(at) => at.fresh = false,
        Shape::Cat(kids) => unmark_all(kids),
        Shape::First(_, arms) => unmark_arms(arms),
        Shape::Then(_, child, _) => unmark(child),
    }
}

#[cycle(unmark)]
fn unmark_all<B: Branch, N: Name>(kids: &mut Vec<Twig<B, N>>)
    ensures { trees kids.new.items ≡ all_unmarked (trees kids.old.items) }
{
    for i in 0..kids.len() {
        unmark(&mut kids[i]);
    }
}

#[cycle(unmark)]
fn unmark_arms<B: Branch, N: Name>(arms: &mut Vec<Limb<B, N>>)
    ensures { arms_of arms.new.items ≡ arms_unmarked (arms_of arms.old.items) }
{
    for i in 0..arms.len() {
        unmark(&mut arms[i].node);
    }
}
