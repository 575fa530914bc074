//! The children of a node as a list.
ghost use Rattle.std.specs.Prelude.{◌≡◌, ℕ, ◌+◌, ◌≤◌, ◌<◌, [], ◌∷◌, ◌++◌, vec_len, vec_capacity, length, IfOk, IfSome, MatchResult, take_while, replicate, false};
ghost use Rattle.elan_tree.specs.Tree.{Cat, Then, none, trees};
ghost use Rattle.elan_tree.specs.Moves.{join};
ghost use Rattle.elan_tree.specs.Normal.{Normal, Flats, NotOne, SureLast};
ghost use Rattle.elan_tree.specs.Kids.{not_item, with_child, with_children, flat, width, widths, parts, cut_kids};

use crate::node::{Node, Shape};
use crate::shared::Shared;
use elan_text::NoMemory;
use std::alloc::{AllocError, Global};
use std::mem;

/// The only child, or else all of them.
pub(crate) fn only<I: Drop, O: Drop, K: Drop>(
    mut kids: Vec<Node<I, O, K>>,
) -> Result<Node<I, O, K>, Vec<Node<I, O, K>>>
    ensures { MatchResult result (λ kid. kids.items ≡ kid ∷ [])
        (λ all. (all.items ≡ kids.items) × NotOne (trees kids.items)) }
{
    if kids.len() != 1 {
        return Err(kids);
    }
    match kids.pop() {
        Some(kid) => Ok(kid),
        None => Err(kids),
    }
}

/// How many children stand to the left of the first item.
fn before_item<I, O, K>(kids: &[Node<I, O, K>]) -> usize
    ensures { result ≡ length (take_while not_item kids.now) }
{
    kids.iter().take_while(|kid| !kid.is_item()).count()
}

/// The children to the right of the first item go.
pub(crate) fn cut<I: Drop, O: Drop, K: Drop>(kids: &mut Vec<Node<I, O, K>>)
    ensures { trees kids.new.items ≡ cut_kids (trees kids.old.items) }
{
    let before = before_item(kids);
    if before < kids.len() {
        kids.truncate(before + 1);
    }
}

/// Moves items to the end of a list that has room for them.
fn append_within<T: Drop>(out: &mut Vec<T>, mut more: Vec<T>)
    requires { vec_len out.old + vec_len more ≤ vec_capacity out.old }
    ensures items { out.new.items ≡ out.old.items ++ more.items }
    ensures len { vec_len out.new ≡ vec_len out.old + vec_len more }
    ensures capacity { vec_capacity out.old ≤ vec_capacity out.new }
{
    let _done = out.append(&mut more);
}

/// Moves an item to the end of a list that has room for it.
pub(crate) fn push_within<T: Drop>(out: &mut Vec<T>, item: T)
    requires { vec_len out.old < vec_capacity out.old }
    ensures items { out.new.items ≡ out.old.items ++ item ∷ [] }
    ensures len { vec_len out.new ≡ vec_len out.old + 1 }
    ensures capacity { vec_capacity out.old ≤ vec_capacity out.new }
{
    let _done = out.push(item);
}

/// How many children there are once each `Cat` among them is spliced in, where that is a number of the machine.
fn widths<I, O, K>(kids: &[Node<I, O, K>]) -> Option<usize>
    ensures { IfSome result (λ n. n ≡ widths (trees kids.now)) }
{
    let mut count: usize = 0;
    for kid in kids {
        let here = kid.width();
        count = count.checked_add(here)?;
    }
    Some(count)
}

/// Moves the children of a `Cat`, or the node itself, to the end of a list that has room for them.
fn splice<I: Drop, O: Drop, K: Drop>(out: &mut Vec<Node<I, O, K>>, kid: Node<I, O, K>)
    requires { vec_len out.old + width kid ≤ vec_capacity out.old }
    ensures items { trees out.new.items ≡ join (trees out.old.items) (parts kid) }
    ensures len { vec_len out.new ≡ vec_len out.old + width kid }
    ensures capacity { vec_capacity out.old ≤ vec_capacity out.new }
{
    let Node { shape } = kid;
    match shape {
        Shape::Cat(more) => append_within(out, more),
        shape => push_within(out, Node { shape }),
    }
}

/// The children with each `Cat` among them spliced in. Without memory they stay.
pub(crate) fn flatten<I: Drop, O: Drop, K: Drop>(
    alloc: Global,
    mut kids: Vec<Node<I, O, K>>,
) -> Result<Vec<Node<I, O, K>>, Vec<Node<I, O, K>>>
    ensures { MatchResult result (λ all. trees all.items ≡ flat (trees kids.items))
        (λ all. all.items ≡ kids.items) }
{
    let Some(total) = widths(&kids) else {
        return Err(kids);
    };
    let Ok(mut out) = Vec::with_capacity(alloc, total) else {
        return Err(kids);
    };
    for i in 0..kids.len() {
        let kid = mem::replace(&mut kids[i], Node::nothing(alloc));
        splice(&mut out, kid);
    }
    Ok(out)
}

/// As many nodes as there are children, each the continuation over nothing.
pub(crate) fn shells<I: Drop, O: Drop, T: Drop>(
    alloc: Global,
    count: usize,
    then: &Shared<T>,
) -> Result<Vec<Node<I, O, Shared<T>>>, NoMemory>
    ensures { IfOk result (λ all. all.items ≡ replicate count (Then false (Cat none) then.now)) }
{
    let mut all = Vec::new(alloc);
    for _made in 0..count {
        let child = Box::new(alloc, Node::nothing(alloc))?;
        all.push(Node {
            shape: Shape::Then(false, child, then.again()?),
        })?;
    }
    Ok(all)
}

/// Puts a child under a continuation.
fn fill<I: Drop, O: Drop, K: Drop>(shell: &mut Node<I, O, K>, kid: Node<I, O, K>)
    ensures { shell.new ≡ with_child shell.old kid }
{
    if let Shape::Then(_, child, _) = &mut shell.shape {
        **child = kid;
    }
}

/// Puts each child under a continuation of its own.
pub(crate) fn fill_all<I: Drop, O: Drop, K: Drop>(
    shells: &mut Vec<Node<I, O, K>>,
    mut kids: Vec<Node<I, O, K>>,
)
    requires { length shells.old.items ≡ length kids.items }
    ensures { shells.new.items ≡ with_children shells.old.items kids.items }
{
    while let Some(kid) = kids.pop() {
        fill(&mut shells[kids.len()], kid);
    }
}
