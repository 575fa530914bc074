//! Open places are counted, and the new ones listed.
ghost use Rattle.std.specs.Prelude.{◌≡◌, ◌++◌, [], ◌∷◌, IfSome, OnOk, IfOk, length};
ghost use Rattle.elan_tree.specs.Tree.{trees};
ghost use Rattle.elan_tree.specs.Shape.{arms_of};
ghost use Rattle.elan_tree.specs.Places.{places, all_places, arm_places};
ghost use Rattle.elan_tree.specs.Marks.{fresh_spots};

use crate::name::Name;
use crate::node::{Arm, Node, Shape};
use crate::place::Place;
use crate::posts::Spot;
use elan_text::NoMemory;
use std::alloc::{AllocError, Global};

/// How many places are open. A count past 64 bits is want of memory.
pub(crate) fn count_open<I, O, K>(node: &Node<I, O, K>) -> Result<u64, NoMemory>
    ensures { IfOk result (λ n. n ≡ length (places node.now)) }
{
    match count(node) {
        Some(places) => Ok(places),
        None => Err(AllocError),
    }
}

/// How many places are open, where that is a number of 64 bits.
#[cycle(count)]
fn count<I, O, K>(node: &Node<I, O, K>) -> Option<u64>
    ensures { IfSome result (λ n. n ≡ length (places node.now)) }
{
    match &node.shape {
        Shape::Item(_) => Some(0),
        Shape::Open(_) => Some(1),
        Shape::Cat(kids) => count_all(kids),
        Shape::First(_, arms) => count_arms(arms),
        Shape::Then(_, child, _) => count(child),
    }
}

#[cycle(count)]
fn count_all<I, O, K>(kids: &Vec<Node<I, O, K>>) -> Option<u64>
    ensures { IfSome result (λ n. n ≡ length (all_places (trees kids.now.items))) }
{
    let mut sum: u64 = 0;
    for i in 0..kids.len() {
        sum = sum.checked_add(count(&kids[i])?)?;
    }
    Some(sum)
}

#[cycle(count)]
fn count_arms<I, O, K>(arms: &Vec<Arm<I, O, K>>) -> Option<u64>
    ensures { IfSome result (λ n. n ≡ length (arm_places (arms_of arms.now.items))) }
{
    let mut sum: u64 = 0;
    for i in 0..arms.len() {
        sum = sum.checked_add(count(&arms[i].node)?)?;
    }
    Some(sum)
}

/// The spots of the new places, in tree order.
pub(crate) fn fresh<I, B, K, N: Name>(
    alloc: Global,
    node: &Node<I, Place<B, N>, K>,
) -> Result<Vec<Spot<B, N>>, NoMemory>
    ensures { IfOk result (λ v. v.items ≡ fresh_spots (places node.now)) }
{
    let mut out = Vec::new(alloc);
    list(node, &mut out)?;
    Ok(out)
}

/// Adds the spots of the new places.
#[cycle(list)]
fn list<I, B, K, N: Name>(
    node: &Node<I, Place<B, N>, K>,
    out: &mut Vec<Spot<B, N>>,
) -> Result<(), NoMemory>
    ensures { OnOk result (out.new.items ≡ out.old.items ++ fresh_spots (places node.now)) }
{
    match &node.shape {
        Shape::Item(_) => Ok(()),
        Shape::Open(place) => list_one(place, out),
        Shape::Cat(kids) => list_all(kids, out),
        Shape::First(_, arms) => list_arms(arms, out),
        Shape::Then(_, child, _) => list(child, out),
    }
}

/// Adds the spot of a place, if the place is new.
fn list_one<B, N: Name>(place: &Place<B, N>, out: &mut Vec<Spot<B, N>>) -> Result<(), NoMemory>
    ensures { OnOk result (out.new.items ≡ out.old.items ++ fresh_spots (place.now ∷ [])) }
{
    if place.fresh {
        out.push(place.spot.again())?;
    }
    Ok(())
}

#[cycle(list)]
fn list_all<I, B, K, N: Name>(
    kids: &Vec<Node<I, Place<B, N>, K>>,
    out: &mut Vec<Spot<B, N>>,
) -> Result<(), NoMemory>
    ensures { OnOk result (out.new.items
        ≡ out.old.items ++ fresh_spots (all_places (trees kids.now.items))) }
{
    for i in 0..kids.len() {
        list(&kids[i], out)?;
    }
    Ok(())
}

#[cycle(list)]
fn list_arms<I, B, K, N: Name>(
    arms: &Vec<Arm<I, Place<B, N>, K>>,
    out: &mut Vec<Spot<B, N>>,
) -> Result<(), NoMemory>
    ensures { OnOk result (out.new.items
        ≡ out.old.items ++ fresh_spots (arm_places (arms_of arms.now.items))) }
{
    for i in 0..arms.len() {
        list(&arms[i].node, out)?;
    }
    Ok(())
}
