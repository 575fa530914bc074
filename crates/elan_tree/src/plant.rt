//! The tree of a growth: each branch is posted, and an open place stands for it.
ghost use Rattle.std.specs.Prelude.{◌≡◌, IfOk};
ghost use Rattle.elan_tree.specs.Tree.{Cat, First};
ghost use Rattle.elan_tree.specs.Planting.{Posted, AllPosted, ArmsPosted, Planted};
ghost use Rattle.elan_tree.specs.Marks.{IsFresh};

use crate::branch::{Branch, Growth};
use crate::name::Name;
use crate::node::{Arm, Node, Shape};
use crate::place::Place;
use crate::posts::Posts;
use crate::settle::Twig;
use crate::shared::Shared;
use elan_text::NoMemory;
use std::alloc::Global;
use std::sync::{Arc, Wait};

/// Posts a branch, and makes its fresh open place.
fn post<B: Branch, N: Name, R: Wait + Sync>(
    rt: &R,
    posts: &Posts<B, N>,
    branch: B,
) -> Result<Twig<B, N>, NoMemory>
    ensures { IfOk result (Posted IsFresh branch) }
{
    let spot = posts.post(rt, branch)?;
    Ok(Node {
        shape: Shape::Open(Place { spot, fresh: true }),
    })
}

/// The tree of a growth.
pub(crate) fn plant<B: Branch, N: Name, R: Wait + Sync>(
    rt: &R,
    alloc: Global,
    posts: &Posts<B, N>,
    growth: Growth<B>,
) -> Result<Twig<B, N>, NoMemory>
    ensures { IfOk result (Planted IsFresh growth) }
{
    match growth {
        Growth::Nothing => Ok(Node::nothing(alloc)),
        Growth::Item(item) => Ok(Node {
            shape: Shape::Item(item),
        }),
        Growth::Next(branch) => post(rt, posts, branch),
        Growth::Many(branches) => plant_many(rt, alloc, posts, branches),
        Growth::Scope { one, alts } => plant_scope(rt, alloc, posts, one, alts),
    }
}

/// The open places of branches, in order.
fn plant_many<B: Branch, N: Name, R: Wait + Sync>(
    rt: &R,
    alloc: Global,
    posts: &Posts<B, N>,
    mut branches: Vec<B>,
) -> Result<Twig<B, N>, NoMemory>
    ensures { IfOk result (λ t. (ts : _) × (t ≡ Cat ts) × AllPosted IsFresh branches.items ts) }
{
    let mut kids = Vec::with_capacity(alloc, branches.len())?;
    'rest: while !branches.is_empty() {
        let branch = branches.remove(0);
        kids.push(post(rt, posts, branch)?)?;
    }
    Ok(Node {
        shape: Shape::Cat(kids),
    })
}

/// The alternatives of a scope, in order.
fn plant_scope<B: Branch, N: Name, R: Wait + Sync>(
    rt: &R,
    alloc: Global,
    posts: &Posts<B, N>,
    one: bool,
    mut alts: Vec<(B, Arc<B::Then>)>,
) -> Result<Twig<B, N>, NoMemory>
    ensures { IfOk result (λ t. (arms : _) × (t ≡ First one arms)
        × ArmsPosted IsFresh alts.items arms) }
{
    let mut arms = Vec::with_capacity(alloc, alts.len())?;
    'rest: while !alts.is_empty() {
        let (branch, then) = alts.remove(0);
        let node = Box::new(alloc, post(rt, posts, branch)?)?;
        arms.push(Arm {
            node,
            then: Shared::from_arc(then),
        })?;
    }
    Ok(Node {
        shape: Shape::First(one, arms),
    })
}
