//! The way to an open place.
ghost use Rattle.std.specs.Prelude.{◌≡◌, ◌∷◌, Some, IfOk, reverse};
ghost use Rattle.elan_tree.specs.Tree.{trees};
ghost use Rattle.elan_tree.specs.Shape.{arms_of};
ghost use Rattle.elan_tree.specs.Paths.{path_at, any_path, arm_path, through};
ghost use Rattle.elan_tree.specs.Backwards.{backwards};
ghost use Rattle.elan_tree.specs.Marks.{at_place};

use crate::name::Name;
use crate::node::{Arm, Node, Shape};
use crate::place::Place;
use elan_text::NoMemory;
use std::alloc::Global;
use std::marker::Model;

/// The numbers of children, counted from 0, on the way from the root of a tree to a place. The root's path is empty.
#[derive(Drop)]
pub struct Path {
    steps: Vec<u64>,
}

impl Model for Path {
    ghost use Rattle.std.specs.Prelude.{ℕ, List};
    ghost use base.Stored.{coded_list, coded_ℕ};

    ghost Value = { List ℕ };

    ghost coded = { coded_list coded_ℕ };

    ghost view = { λ p. p.steps.items };
}

impl Path {
    /// The numbers, the root's child first.
    pub fn as_slice(&self) -> &[u64]
        ensures { result.now ≡ self.now }
    {
        self.steps.as_slice()
    }

    /// The numbers as a vector. Takes no memory.
    pub fn into_vec(self) -> Vec<u64>
        ensures { result.items ≡ self }
    {
        let Path { steps } = self;
        steps
    }
}

/// The path to the leftmost open place of this number.
pub(crate) fn way_to<I, B, K, N: Name>(
    alloc: Global,
    node: &Node<I, Place<B, N>, K>,
    number: u64,
) -> Result<Option<Path>, NoMemory>
    ensures { IfOk result (λ p. p ≡ path_at (at_place number) node.now) }
{
    match way(alloc, node, number)? {
        Some(mut steps) => {
            steps.reverse();
            Ok(Some(Path { steps }))
        }
        None => Ok(None),
    }
}

/// The path, with the last step first.
#[cycle(way)]
fn way<I, B, K, N: Name>(
    alloc: Global,
    node: &Node<I, Place<B, N>, K>,
    number: u64,
) -> Result<Option<Vec<u64>>, NoMemory>
    ensures { IfOk result (λ p. backwards p ≡ path_at (at_place number) node.now) }
{
    match &node.shape {
        Shape::Item(_) => Ok(None),
        Shape::Open(place) => {
            if place.spot.number() == number {
                Ok(Some(Vec::new(alloc)))
            } else {
                Ok(None)
            }
        }
        Shape::Cat(kids) => any_way(alloc, kids, number),
        Shape::First(_, arms) => arm_way(alloc, arms, number),
        Shape::Then(_, child, _) => lead(way(alloc, child, number)?, 0),
    }
}

/// The path that comes to a place by way of this child.
fn lead(path: Option<Vec<u64>>, child: u64) -> Result<Option<Vec<u64>>, NoMemory>
    ensures { IfOk result (λ p. backwards p ≡ through child (backwards path)) }
{
    match path {
        Some(mut steps) => {
            steps.push(child)?;
            Ok(Some(steps))
        }
        None => Ok(None),
    }
}

#[cycle(way)]
fn any_way<I, B, K, N: Name>(
    alloc: Global,
    kids: &Vec<Node<I, Place<B, N>, K>>,
    number: u64,
) -> Result<Option<Vec<u64>>, NoMemory>
    ensures { IfOk result (λ p. backwards p ≡ any_path (at_place number) 0 (trees kids.now.items)) }
{
    for i in 0..kids.len() {
        let found = lead(way(alloc, &kids[i], number)?, i as u64)?;
        if found.is_some() {
            return Ok(found);
        }
    }
    Ok(None)
}

#[cycle(way)]
fn arm_way<I, B, K, N: Name>(
    alloc: Global,
    arms: &Vec<Arm<I, Place<B, N>, K>>,
    number: u64,
) -> Result<Option<Vec<u64>>, NoMemory>
    ensures { IfOk result (λ p. backwards p
        ≡ arm_path (at_place number) 0 (arms_of arms.now.items)) }
{
    for i in 0..arms.len() {
        let found = lead(way(alloc, &arms[i].node, number)?, i as u64)?;
        if found.is_some() {
            return Ok(found);
        }
    }
    Ok(None)
}
