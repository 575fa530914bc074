//! A tree and its released items are moved on: settled, released and grown.
ghost use Rattle.std.specs.Prelude.{◌≡◌, ◌≤◌, ◌+◌, ◌⊎◌, false, length, IfOk, OnOk, OnErr, IsSomeAnd, None, MatchBool};
ghost use Rattle.elan_tree.specs.Moves.{Star, Step};
ghost use Rattle.elan_tree.specs.Normal.{Normal, NoGrow, IsSettled};
ghost use Rattle.elan_tree.specs.Settling.{Makes, Fit};
ghost use Rattle.elan_tree.specs.Marks.{plain, at_place};
ghost use Rattle.elan_tree.specs.Places.{has, first_at, places};
ghost use Rattle.elan_tree.specs.Growths.{GrowthOf};
ghost use Rattle.elan_tree.specs.Growing.{Stands, Kept, kept, Moved, Tells, Told, Replies};

use crate::branch::{Branch, Grown, Growth};
use crate::kids::push_within;
use crate::lookup::find;
use crate::name::Name;
use crate::node::Node;
use crate::plant::plant;
use crate::posts::{Posts, Spot};
use crate::release::take_first;
use crate::replace::{place, unmark};
use crate::settle::{Twig, settle};
use crate::tally::{count_open, fresh};
use elan_text::NoMemory;
use std::alloc::Global;
use std::sync::Wait;

/// Releases what stands first in a settled node, and stops at the limit.
fn release<B: Branch, N: Name>(
    alloc: Global,
    root: &B,
    limit: u32,
    released: &mut Vec<B::Item>,
    node: &mut Twig<B, N>,
) -> Result<(), NoMemory>
    requires normal { Normal node.old }
    requires within { length released.old.items ≤ limit }
    ensures steps { Star (Step NoGrow (Makes B.sense (B.sense.kin root.now)) limit)
        record { released = released.old.items; tree = node.old }
        record { released = released.new.items; tree = node.new } }
    ensures settled { OnOk result (IsSettled limit
        record { released = released.new.items; tree = plain node.new }) }
{
    while released.len() < limit as usize {
        released.reserve(1)?;
        match take_first(alloc, node) {
            Some(item) => push_within(released, item),
            None => return Ok(()),
        }
    }
    *node = Node::nothing(alloc);
    Ok(())
}

/// Moves a tree by steps other than growing until none applies, and answers how many items are released.
pub(crate) fn advance<B: Branch, N: Name, R: Wait + Sync>(
    rt: &R,
    alloc: Global,
    posts: &Posts<B, N>,
    root: &B,
    limit: u32,
    released: &mut Vec<B::Item>,
    node: &mut Twig<B, N>,
) -> Result<u64, NoMemory>
    requires fit { Fit B.sense (B.sense.kin root.now) node.old }
    requires within { length released.old.items ≤ limit }
    ensures steps { Star (Step NoGrow (Makes B.sense (B.sense.kin root.now)) limit)
        record { released = released.old.items; tree = node.old }
        record { released = released.new.items; tree = node.new } }
    ensures settled { IfOk result (λ n. (n ≡ length released.new.items)
        × IsSettled limit record { released = released.new.items; tree = plain node.new }) }
{
    settle(rt, alloc, posts, root, node)?;
    release(alloc, root, limit, released, node)?;
    Ok(released.len() as u64)
}

/// Whether the spot is open. If so, its place names the branch of the spot.
fn is_there<B: Branch, N: Name>(posts: &Posts<B, N>, spot: &Spot<B, N>, node: &Twig<B, N>) -> bool
    ensures { MatchBool result
        (IsSomeAnd (first_at (at_place spot.now.index) node.now) (λ p. p.spot.value ≡ spot.now.value))
        (first_at (at_place spot.now.index) node.now ≡ None) }
{
    match find(node, spot.number()) {
        Some(place) => {
            posts.agrees(&place.spot, spot);
            true
        }
        None => false,
    }
}

/// Lets the tree of a growth stand at the leftmost place of the spot, or answers that there is none.
fn stand<B: Branch, N: Name, R: Wait + Sync>(
    rt: &R,
    alloc: Global,
    posts: &Posts<B, N>,
    spot: &Spot<B, N>,
    growth: Growth<B>,
    node: &mut Twig<B, N>,
) -> Result<bool, NoMemory>
    ensures stands { IfOk result (λ b.
        MatchBool b (Stands spot.now growth node.old node.new)
        ((has (at_place spot.now.index) node.old ≡ false) × (node.new ≡ node.old))) }
    ensures err { OnErr result (node.new ≡ node.old) }
{
    if !is_there(posts, spot, node) {
        return Ok(false);
    }
    let planted = plant(rt, alloc, posts, growth)?;
    unmark(node);
    let _unused = place(node, spot.number(), planted);
    Ok(true)
}

/// How many places went, besides the one that was grown, of those that were open before.
fn cut_count(before: u64, after: u64, opened: u64) -> u64
    requires opened { opened ≤ after }
    requires before { after + 1 ≤ before + opened }
    ensures { after + 1 + result ≡ before + opened }
{
    before - 1 - (after - opened)
}

/// The answer to a growth that stands in a settled tree.
fn tell<B: Branch, N: Name>(
    alloc: Global,
    before: u64,
    released: u64,
    node: &Twig<B, N>,
) -> Result<Grown<B, N>, NoMemory>
    requires { Tells before node.now }
    ensures { IfOk result (Told before released node.now) }
{
    let opened = fresh(alloc, node)?;
    let after = count_open(node)?;
    Ok(Grown::Taken {
        released,
        cut: cut_count(before, after, opened.len() as u64),
        opened,
    })
}

/// Lets a growth stand at the leftmost place of the spot, and moves the tree on.
pub(crate) fn grow<B: Branch, N: Name, R: Wait + Sync>(
    rt: &R,
    alloc: Global,
    posts: &Posts<B, N>,
    root: &B,
    limit: u32,
    spot: &Spot<B, N>,
    growth: Growth<B>,
    grown: &mut u64,
    released: &mut Vec<B::Item>,
    node: &mut Twig<B, N>,
) -> Result<Grown<B, N>, NoMemory>
    requires fit { Fit B.sense (B.sense.kin root.now) node.old }
    requires within { length released.old.items ≤ limit }
    requires growth { GrowthOf B.sense spot.now.value growth }
    ensures moved { Moved B.sense (B.sense.kin root.now) limit spot.now growth
        (kept grown.old released.old.items node.old) (kept grown.new released.new.items node.new) }
    ensures answer { IfOk result (Replies B.sense (B.sense.kin root.now) limit spot.now growth
        (kept grown.old released.old.items node.old) (kept grown.new released.new.items node.new)) }
{
    let before = count_open(node)?;
    if !stand(rt, alloc, posts, spot, growth, node)? {
        return Ok(Grown::Stale);
    }
    *grown = grown.saturating_add(1);
    let told = advance(rt, alloc, posts, root, limit, released, node)?;
    tell(alloc, before, told, node)
}
