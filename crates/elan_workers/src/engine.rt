//! The search of a root by several workers.
ghost use Rattle.std.specs.Prelude.{◌≡◌, ◌+◌, ◌≤◌, length, IfOk};
ghost use Rattle.elan_workers.specs.First.{Firsts};

use crate::crew::crew;
use crate::gate::Gate;
use crate::rest::{anew, rest};
use crate::turn::work;
use elan_board::board::Board;
use elan_text::NoMemory;
use elan_tree::branch::Branch;
use elan_tree::name::Name;
use elan_tree::posts;
use elan_tree::tree::Tree;
use std::alloc::Global;
use std::marker::Brand;
use std::sync::ledger::Ledger;
use std::sync::{Wait, ledger};
use std::thread;
use std::thread::Threads;

/// The first items of a root, up to the limit, in order, by so many workers. The caller is worker 0.
/// A worker leaves where no place is open, or where its memory is refused, and the caller does what is left. So a
/// thread that cannot be started is no error: `NoMemory` comes where the caller's own memory is refused.
pub fn search<B: Branch, G: Gate, R: Threads + Wait + Sync>(
    rt: &R,
    alloc: Global,
    root: B,
    limit: u32,
    workers: u32,
    gate: &G,
) -> Result<Vec<B::Item>, NoMemory>
    requires workers { (1 ≤ workers) × (workers ≤ 64) }
    ensures { IfOk result (λ v. Firsts B.sense limit root v.items) }
{
    let blank = posts::Blank::new(alloc)?;
    let ledger = ledger::Blank::new(workers as u64 + 1);
    searched::<B, Brand, Brand, G, R>(rt, alloc, blank, ledger, root, limit, workers, gate)
}

/// The search, over posts and a ledger that have a name.
fn searched<
    B: Branch,
    N: Name + Send + Sync,
    L: Ledger + Send + Sync,
    G: Gate,
    R: Threads + Wait + Sync,
>(
    rt: &R,
    alloc: Global,
    blank: posts::Blank<B>,
    ledger: ledger::Blank,
    root: B,
    limit: u32,
    workers: u32,
    gate: &G,
) -> Result<Vec<B::Item>, NoMemory>
    requires posts { blank ≡ N.shelves }
    requires ledger { (ledger.name ≡ L.name) × (ledger.parts ≡ L.parts) }
    requires parts { ledger.parts ≡ workers + 1 }
    requires workers { workers ≤ 64 }
    ensures { IfOk result (λ v. Firsts B.sense limit root v.items) }
{
    let posts = blank.named::<N>();
    let spot = posts.post(rt, root)?;
    let tree = Tree::new(alloc, &posts, spot.again(), limit)?;
    let (board, seats) = Board::<B, N, L>::new(alloc, ledger, tree, workers)?;
    let crew = crew(alloc, seats)?;
    let lent = &posts;
    let shared = &board;
    match thread::map_vec(rt, crew, &|worker| work(rt, lent, shared, gate, worker)) {
        Ok(seats) => rest(rt, alloc, &posts, &spot, limit, board.close(seats).tree),
        Err(_) => anew(rt, alloc, &posts, &spot, limit),
    }
}
