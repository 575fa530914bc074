//! A tree is settled: moved by the steps of the core other than growing until none applies.
ghost use Rattle.std.specs.Prelude.{◌≡◌, IfOk, OnOk, MatchResult, length, true, false};
ghost use Rattle.elan_tree.specs.Tree.{Cat, First, Then, trees};
ghost use Rattle.elan_tree.specs.Shape.{arms_of};
ghost use Rattle.elan_tree.specs.Kids.{flat, joined, trimmed};
ghost use Rattle.elan_tree.specs.Normal.{Normal, NormalArms, Below, Flats, Normals, NotCat, NotEmpty, Waits, AllWait};
ghost use Rattle.elan_tree.specs.Sense.{Sense};
ghost use Rattle.elan_tree.specs.Settling.{Makes, Fit, Fits, FitArms, Settles, SettlesAll, SettlesArms};

use crate::branch::{Branch, Resumed};
use crate::kids::{cut, fill_all, flatten, only, shells};
use crate::name::Name;
use crate::node::{Arm, Node, Shape};
use crate::place::Place;
use crate::posts::Posts;
use crate::shared::Shared;
use elan_text::NoMemory;
use std::alloc::{AllocError, Global};
use std::mem;
use std::sync::Wait;

pub(crate) type Twig<B, N> = Node<<B as Branch>::Item, Place<B, N>, Shared<<B as Branch>::Then>>;

pub(crate) type Limb<B, N> = Arm<<B as Branch>::Item, Place<B, N>, Shared<<B as Branch>::Then>>;

/// What the continuation makes of the item, as a node.
fn resume<B: Branch, N: Name, R: Wait + Sync>(
    rt: &R,
    posts: &Posts<B, N>,
    root: &B,
    then: &B::Then,
    item: &B::Item,
) -> Result<Twig<B, N>, NoMemory>
    requires then { B.sense.kin_of_then then.now ≡ B.sense.kin root.now }
    requires item { B.sense.kin_of_item item.now ≡ B.sense.kin root.now }
    ensures { IfOk result (Makes B.sense (B.sense.kin root.now) then.now item.now) }
{
    match B::resume(rt, then, item)? {
        Resumed::Item(made) => Ok(Node {
            shape: Shape::Item(made),
        }),
        Resumed::Next(branch) => {
            let spot = posts.post(rt, branch)?;
            Ok(Node {
                shape: Shape::Open(Place { spot, fresh: true }),
            })
        }
    }
}

/// The node of a continuation over a settled child that is no `Cat`.
fn under<B: Branch, N: Name, R: Wait + Sync>(
    rt: &R,
    posts: &Posts<B, N>,
    root: &B,
    one: bool,
    child: Box<Twig<B, N>>,
    then: Shared<B::Then>,
) -> (Twig<B, N>, Result<(), NoMemory>)
    requires fit { Fit B.sense (B.sense.kin root.now) (Then one child.value then) }
    requires normal { NotCat child.value × Normal child.value }
    ensures settles { Settles B.sense (B.sense.kin root.now) (Then one child.value then) result.0 }
    ensures normal { OnOk result.1 (NotCat result.0 × Normal result.0) }
{
    let node: &Twig<B, N> = &child;
    if let Shape::Item(item) = &node.shape {
        match resume(rt, posts, root, then.get(), item) {
            Ok(made) => (made, Ok(())),
            Err(e) => (
                Node {
                    shape: Shape::Then(one, child, then),
                },
                Err(e),
            ),
        }
    } else {
        (
            Node {
                shape: Shape::Then(one, child, then),
            },
            Ok(()),
        )
    }
}

/// Settles a continuation over a settled child that is no `Cat`.
fn settle_shell<B: Branch, N: Name, R: Wait + Sync>(
    rt: &R,
    alloc: Global,
    posts: &Posts<B, N>,
    root: &B,
    node: &mut Twig<B, N>,
) -> Result<(), NoMemory>
    requires fit { Fit B.sense (B.sense.kin root.now) node.old }
    requires waits { Waits node.old }
    ensures settles { Settles B.sense (B.sense.kin root.now) node.old node.new }
    ensures normal { OnOk result (NotCat node.new × Normal node.new) }
{
    let Node { shape } = mem::replace(node, Node::nothing(alloc));
    match shape {
        Shape::Then(one, child, then) => {
            let (made, done) = under(rt, posts, root, one, child, then);
            *node = made;
            done
        }
        shape => {
            *node = Node { shape };
            Ok(())
        }
    }
}

/// Settles continuations over settled children that are no `Cat`.
fn settle_shells<B: Branch, N: Name, R: Wait + Sync>(
    rt: &R,
    alloc: Global,
    posts: &Posts<B, N>,
    root: &B,
    kids: &mut Vec<Twig<B, N>>,
) -> Result<(), NoMemory>
    requires fit { Fits B.sense (B.sense.kin root.now) (trees kids.old.items) }
    requires waits { AllWait (trees kids.old.items) }
    ensures settles { SettlesAll B.sense (B.sense.kin root.now)
        (trees kids.old.items) (trees kids.new.items) }
    ensures normal { OnOk result (Flats (trees kids.new.items)) }
    ensures len { length kids.new.items ≡ length kids.old.items }
{
    for i in 0..kids.len() {
        settle_shell(rt, alloc, posts, root, &mut kids[i])?;
    }
    Ok(())
}

/// Puts a continuation that keeps all over each of settled children.
fn push_down<B: Branch, N: Name, R: Wait + Sync>(
    rt: &R,
    alloc: Global,
    posts: &Posts<B, N>,
    root: &B,
    kids: Vec<Twig<B, N>>,
    mut child: Box<Twig<B, N>>,
    then: Shared<B::Then>,
) -> (Twig<B, N>, Result<(), NoMemory>)
    requires fit { Fit B.sense (B.sense.kin root.now) (Then false (Cat (trees kids.items)) then) }
    requires normal { Normal (Cat (trees kids.items)) }
    ensures settles { Settles B.sense (B.sense.kin root.now)
        (Then false (Cat (trees kids.items)) then) result.0 }
    ensures normal { OnOk result.1 (Normal result.0) }
{
    match shells(alloc, kids.len(), &then) {
        Ok(mut all) => {
            fill_all(&mut all, kids);
            let done = settle_shells(rt, alloc, posts, root, &mut all);
            (
                Node {
                    shape: Shape::Cat(all),
                },
                done,
            )
        }
        Err(e) => {
            *child = Node {
                shape: Shape::Cat(kids),
            };
            (
                Node {
                    shape: Shape::Then(false, child, then),
                },
                Err(e),
            )
        }
    }
}

/// Cuts settled children under a continuation that keeps the first item.
fn cut_down<B: Branch, N: Name, R: Wait + Sync>(
    rt: &R,
    posts: &Posts<B, N>,
    root: &B,
    mut kids: Vec<Twig<B, N>>,
    mut child: Box<Twig<B, N>>,
    then: Shared<B::Then>,
) -> (Twig<B, N>, Result<(), NoMemory>)
    requires fit { Fit B.sense (B.sense.kin root.now) (Then true (Cat (trees kids.items)) then) }
    requires normal { Normal (Cat (trees kids.items)) × NotEmpty (Cat (trees kids.items)) }
    ensures settles { Settles B.sense (B.sense.kin root.now)
        (Then true (Cat (trees kids.items)) then) result.0 }
    ensures normal { OnOk result.1 (Normal result.0) }
{
    cut(&mut kids);
    match only(kids) {
        Ok(kid) => {
            *child = kid;
            under(rt, posts, root, true, child, then)
        }
        Err(kids) => {
            *child = Node {
                shape: Shape::Cat(kids),
            };
            (
                Node {
                    shape: Shape::Then(true, child, then),
                },
                Ok(()),
            )
        }
    }
}

/// Settles a continuation over a settled child.
fn pass<B: Branch, N: Name, R: Wait + Sync>(
    rt: &R,
    alloc: Global,
    posts: &Posts<B, N>,
    root: &B,
    one: bool,
    mut child: Box<Twig<B, N>>,
    then: Shared<B::Then>,
) -> (Twig<B, N>, Result<(), NoMemory>)
    requires fit { Fit B.sense (B.sense.kin root.now) (Then one child.value then) }
    requires normal { Normal child.value }
    ensures settles { Settles B.sense (B.sense.kin root.now) (Then one child.value then) result.0 }
    ensures normal { OnOk result.1 (Normal result.0) }
{
    let Node { shape } = mem::replace(&mut *child, Node::nothing(alloc));
    match shape {
        Shape::Cat(kids) => {
            if kids.is_empty() {
                (
                    Node {
                        shape: Shape::Cat(kids),
                    },
                    Ok(()),
                )
            } else if one {
                cut_down(rt, posts, root, kids, child, then)
            } else {
                push_down(rt, alloc, posts, root, kids, child, then)
            }
        }
        shape => {
            *child = Node { shape };
            under(rt, posts, root, one, child, then)
        }
    }
}

/// The alternatives at the front that are empty go.
fn trim<I: Drop, O: Drop, K: Drop>(arms: &mut Vec<Arm<I, O, K>>)
    ensures { arms_of arms.new.items ≡ trimmed (arms_of arms.old.items) }
{
    while !arms.is_empty() && arms[0].node.is_empty() {
        let _gone = arms.remove(0);
    }
}

/// Settles a `First` over settled alternatives.
fn choose<B: Branch, N: Name, R: Wait + Sync>(
    rt: &R,
    alloc: Global,
    posts: &Posts<B, N>,
    root: &B,
    one: bool,
    mut arms: Vec<Limb<B, N>>,
) -> (Twig<B, N>, Result<(), NoMemory>)
    requires fit { Fit B.sense (B.sense.kin root.now) (First one (arms_of arms.items)) }
    requires normal { NormalArms (arms_of arms.items) }
    ensures settles { Settles B.sense (B.sense.kin root.now)
        (First one (arms_of arms.items)) result.0 }
    ensures normal { OnOk result.1 (Normal result.0) }
{
    trim(&mut arms);
    if arms.is_empty() {
        return (Node::nothing(alloc), Ok(()));
    }
    if !arms[0].node.is_sure() {
        return (
            Node {
                shape: Shape::First(one, arms),
            },
            Ok(()),
        );
    }
    let Arm { node, then } = arms.remove(0);
    pass(rt, alloc, posts, root, one, node, then)
}

/// Settles a `Cat` over settled children.
fn tidy<I: Drop, O: Drop, K: Drop>(
    alloc: Global,
    kids: Vec<Node<I, O, K>>,
) -> (Node<I, O, K>, Result<(), NoMemory>)
    ensures { MatchResult result.1 (λ _. result.0 ≡ joined (flat (trees kids.items)))
        (λ _. result.0 ≡ Cat (trees kids.items)) }
{
    match flatten(alloc, kids) {
        Ok(all) => match only(all) {
            Ok(kid) => (kid, Ok(())),
            Err(all) => (
                Node {
                    shape: Shape::Cat(all),
                },
                Ok(()),
            ),
        },
        Err(all) => (
            Node {
                shape: Shape::Cat(all),
            },
            Err(AllocError),
        ),
    }
}

/// Settles a node over settled nodes.
fn close<B: Branch, N: Name, R: Wait + Sync>(
    rt: &R,
    alloc: Global,
    posts: &Posts<B, N>,
    root: &B,
    node: Twig<B, N>,
) -> (Twig<B, N>, Result<(), NoMemory>)
    requires fit { Fit B.sense (B.sense.kin root.now) node }
    requires normal { Below node }
    ensures settles { Settles B.sense (B.sense.kin root.now) node result.0 }
    ensures normal { OnOk result.1 (Normal result.0) }
{
    let Node { shape } = node;
    match shape {
        Shape::Cat(kids) => tidy(alloc, kids),
        Shape::First(one, arms) => choose(rt, alloc, posts, root, one, arms),
        Shape::Then(one, child, then) => pass(rt, alloc, posts, root, one, child, then),
        shape => (Node { shape }, Ok(())),
    }
}

/// Settles a node. Without memory it is on the way there.
#[cycle(settle)]
pub(crate) fn settle<B: Branch, N: Name, R: Wait + Sync>(
    rt: &R,
    alloc: Global,
    posts: &Posts<B, N>,
    root: &B,
    node: &mut Twig<B, N>,
) -> Result<(), NoMemory>
    requires fit { Fit B.sense (B.sense.kin root.now) node.old }
    ensures settles { Settles B.sense (B.sense.kin root.now) node.old node.new }
    ensures normal { OnOk result (Normal node.new) }
{
    settle_below(rt, alloc, posts, root, node)?;
    let whole = mem::replace(node, Node::nothing(alloc));
    let (made, done) = close(rt, alloc, posts, root, whole);
    *node = made;
    done
}

/// Settles what stands directly below a node.
#[cycle(settle)]
fn settle_below<B: Branch, N: Name, R: Wait + Sync>(
    rt: &R,
    alloc: Global,
    posts: &Posts<B, N>,
    root: &B,
    node: &mut Twig<B, N>,
) -> Result<(), NoMemory>
    requires fit { Fit B.sense (B.sense.kin root.now) node.old }
    ensures settles { Settles B.sense (B.sense.kin root.now) node.old node.new }
    ensures below { OnOk result (Below node.new) }
{
    match &mut node.shape {
        Shape::Cat(kids) => settle_all(rt, alloc, posts, root, kids),
        Shape::First(_, arms) => settle_arms(rt, alloc, posts, root, arms),
        Shape::Then(_, child, _) => settle(rt, alloc, posts, root, child),
        Shape::Item(_) | Shape::Open(_) => Ok(()),
    }
}

/// Settles each child.
#[cycle(settle)]
fn settle_all<B: Branch, N: Name, R: Wait + Sync>(
    rt: &R,
    alloc: Global,
    posts: &Posts<B, N>,
    root: &B,
    kids: &mut Vec<Twig<B, N>>,
) -> Result<(), NoMemory>
    requires fit { Fits B.sense (B.sense.kin root.now) (trees kids.old.items) }
    ensures settles { SettlesAll B.sense (B.sense.kin root.now)
        (trees kids.old.items) (trees kids.new.items) }
    ensures normal { OnOk result (Normals (trees kids.new.items)) }
{
    for i in 0..kids.len() {
        settle(rt, alloc, posts, root, &mut kids[i])?;
    }
    Ok(())
}

/// Settles each alternative.
#[cycle(settle)]
fn settle_arms<B: Branch, N: Name, R: Wait + Sync>(
    rt: &R,
    alloc: Global,
    posts: &Posts<B, N>,
    root: &B,
    arms: &mut Vec<Limb<B, N>>,
) -> Result<(), NoMemory>
    requires fit { FitArms B.sense (B.sense.kin root.now) (arms_of arms.old.items) }
    ensures settles { SettlesArms B.sense (B.sense.kin root.now) (arms_of arms.old.items)
        (arms_of arms.new.items) }
    ensures normal { OnOk result (NormalArms (arms_of arms.new.items)) }
{
    for i in 0..arms.len() {
        settle(rt, alloc, posts, root, &mut arms[i].node)?;
    }
    Ok(())
}
