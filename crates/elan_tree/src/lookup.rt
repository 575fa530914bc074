//! Open places are looked up.
ghost use Rattle.std.specs.Prelude.{◌≡◌};
ghost use Rattle.std.specs.Option.{option_copied};
ghost use Rattle.elan_tree.specs.Tree.{trees};
ghost use Rattle.elan_tree.specs.Shape.{arms_of};
ghost use Rattle.elan_tree.specs.Places.{first_place, any_place, arm_place, first_at, any_first, arm_first};
ghost use Rattle.elan_tree.specs.Marks.{at_place};

use crate::name::Name;
use crate::node::{Arm, Node, Shape};
use crate::place::Place;

/// The leftmost open place of this number.
#[cycle(find)]
pub(crate) fn find<I, B, K, N: Name>(
    node: &Node<I, Place<B, N>, K>,
    number: u64,
) -> Option<&Place<B, N>>
    ensures { option_copied result ≡ first_at (at_place number) node.now }
{
    match &node.shape {
        Shape::Item(_) => None,
        Shape::Open(place) => {
            if place.spot.number() == number {
                Some(place)
            } else {
                None
            }
        }
        Shape::Cat(kids) => any_find(kids, number),
        Shape::First(_, arms) => arm_find(arms, number),
        Shape::Then(_, child, _) => find(child, number),
    }
}

#[cycle(find)]
fn any_find<I, B, K, N: Name>(
    kids: &Vec<Node<I, Place<B, N>, K>>,
    number: u64,
) -> Option<&Place<B, N>>
    ensures { option_copied result ≡ any_first (at_place number) (trees kids.now.items) }
{
    for i in 0..kids.len() {
        if let Some(found) = find(&kids[i], number) {
            return Some(found);
        }
    }
    None
}

#[cycle(find)]
fn arm_find<I, B, K, N: Name>(
    arms: &Vec<Arm<I, Place<B, N>, K>>,
    number: u64,
) -> Option<&Place<B, N>>
    ensures { option_copied result ≡ arm_first (at_place number) (arms_of arms.now.items) }
{
    for i in 0..arms.len() {
        if let Some(found) = find(&arms[i].node, number) {
            return Some(found);
        }
    }
    None
}

/// The leftmost open place.
#[cycle(leftmost)]
pub(crate) fn leftmost<I, B, K, N: Name>(node: &Node<I, Place<B, N>, K>) -> Option<&Place<B, N>>
    ensures { option_copied result ≡ first_place node.now }
{
    match &node.shape {
        Shape::Item(_) => None,
        Shape::Open(at) => Some(at),
        Shape::Cat(kids) => any_leftmost(kids),
        Shape::First(_, arms) => arm_leftmost(arms),
        Shape::Then(_, child, _) => leftmost(child),
    }
}

#[cycle(leftmost)]
fn any_leftmost<I, B, K, N: Name>(kids: &Vec<Node<I, Place<B, N>, K>>) -> Option<&Place<B, N>>
    ensures { option_copied result ≡ any_place (trees kids.now.items) }
{
    for i in 0..kids.len() {
        if let Some(found) = leftmost(&kids[i]) {
            return Some(found);
        }
    }
    None
}

#[cycle(leftmost)]
fn arm_leftmost<I, B, K, N: Name>(arms: &Vec<Arm<I, Place<B, N>, K>>) -> Option<&Place<B, N>>
    ensures { option_copied result ≡ arm_place (arms_of arms.now.items) }
{
    for i in 0..arms.len() {
        if let Some(found) = leftmost(&arms[i].node) {
            return Some(found);
        }
    }
    None
}
