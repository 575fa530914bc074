//! A tree is finished on the caller's thread.
ghost use Rattle.std.specs.Prelude.{◌≡◌, map, take, IfOk};
ghost use Rattle.elan_tree.specs.Standing.{whole, ItemsOfKin};

use elan_text::NoMemory;
use elan_tree::branch::Branch;
use elan_tree::name::Name;
use elan_tree::tree::Tree;
use std::sync::Wait;

/// Grows the leftmost open place until the limit is reached or the tree is empty, and answers the released items.
/// They are the first items, up to the limit, of those that were released before, followed by the tree's list.
pub fn finish<'p, B: Branch, N: Name, R: Wait + Sync>(
    rt: &R,
    mut tree: Tree<'p, B, N>,
) -> Result<Vec<B::Item>, NoMemory>
    ensures first { IfOk result (λ v. map B.sense.means v.items
        ≡ take tree.entry.limit (whole B.sense tree.entry)) }
    ensures kin { IfOk result (λ v. ItemsOfKin B.sense
        (B.sense.kin tree.entry.root.value) v.items) }
{
    let _sound = tree.is_over();
    for _ in rt.forever() {
        if tree.is_over() {
            return Ok(tree.into_items());
        }
        match tree.leftmost() {
            Some(spot) => {
                let growth = tree.posts().branch(&spot).expand(rt)?;
                let _answer = tree.grow(rt, &spot, growth)?;
            }
            None => {
                let _released = tree.settle(rt)?;
            }
        }
    }
    Ok(tree.into_items())
}
