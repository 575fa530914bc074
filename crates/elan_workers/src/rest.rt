//! What the workers left is done on the caller's thread.
ghost use Rattle.std.specs.Prelude.{◌≡◌, take, true, IfOk};
ghost use Rattle.elan_tree.specs.Standing.{whole};
ghost use Rattle.elan_workers.specs.First.{Firsts};

use elan_alone::finish;
use elan_text::NoMemory;
use elan_tree::branch::Branch;
use elan_tree::name::Name;
use elan_tree::posts::{Posts, Spot};
use elan_tree::tree::Tree;
use std::alloc::Global;
use std::sync::Wait;

/// Whether a tree is that of the root and the limit. If so, its first items are those of the root.
fn is_of<'p, B: Branch, N: Name>(
    tree: &Tree<'p, B, N>,
    posts: &Posts<B, N>,
    root: &Spot<B, N>,
    limit: u32,
) -> bool
    ensures limit { result ≡ true → tree.now.limit ≡ limit }
    ensures root { result ≡ true → tree.now.root.value ≡ root.now.value }
    ensures first { result ≡ true
        → take limit (whole B.sense tree.now) ≡ take limit (B.sense.items root.now.value) }
{
    let own = tree.root();
    if tree.limit() != limit || own.number() != root.number() {
        return false;
    }
    posts.agrees(&own, root);
    let _sound = tree.is_over();
    true
}

/// The first items of the root, by a new tree.
pub(crate) fn anew<'p, B: Branch, N: Name, R: Wait + Sync>(
    rt: &R,
    alloc: Global,
    posts: &'p Posts<B, N>,
    root: &Spot<B, N>,
    limit: u32,
) -> Result<Vec<B::Item>, NoMemory>
    ensures { IfOk result (λ v. Firsts B.sense limit root.now.value v.items) }
{
    let tree = Tree::new(alloc, posts, root.again(), limit)?;
    let _whole = tree.is_over();
    finish(rt, tree)
}

/// The first items of the root, by this tree where it is that of the root and the limit, and else by a new one.
pub(crate) fn rest<'p, B: Branch, N: Name, R: Wait + Sync>(
    rt: &R,
    alloc: Global,
    posts: &'p Posts<B, N>,
    root: &Spot<B, N>,
    limit: u32,
    left: Tree<'p, B, N>,
) -> Result<Vec<B::Item>, NoMemory>
    ensures { IfOk result (λ v. Firsts B.sense limit root.now.value v.items) }
{
    if !is_of(&left, posts, root, limit) {
        return anew(rt, alloc, posts, root, limit);
    }
    finish(rt, left)
}
