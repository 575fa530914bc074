//! One deque: the worker's end of it, and what others take by.
ghost use Rattle.std.specs.Prelude.{◌≡◌, ◌+◌, ◌<◌, ◌≤◌, [], IfErr, OnOk, MatchOption, MatchResult};
ghost use Rattle.crossbeam_deque.specs.Handles.{view, IsPassOf, SameWorker, worker_view, worker_deque};
ghost use Rattle.crossbeam_deque.specs.Handles.{worker_flavor, worker_capacity, worker_index};
ghost use Rattle.crossbeam_deque.specs.Handles.{stealer_deque, stealer_flavor};
ghost use Rattle.elan_pool.specs.Balance.{tally, with_put, with_taken, with_less, joined, DrainsTo};

use crate::rule::{Balance, Cut, Drains, Most, Puts, Takes, Tally, Whole};
use crossbeam_deque::{Pass, Steal, Stealer, Worker};
use elan_text::NoMemory;
use elan_tree::name::Name;
use elan_tree::posts::Spot;
use std::alloc::{AllocError, Global};

/// The end of a deque at which its worker puts and takes.
pub(crate) type Lane<B, N> = Worker<Spot<B, N>, Global, Tally, Balance>;

/// The end of a deque at which others take.
pub(crate) type Door<B, N> = Stealer<Spot<B, N>, Global, Tally, Balance>;

/// What one of the others has taken at a door.
pub(crate) type Key<B, N> = Pass<Spot<B, N>, Tally>;

/// Puts a spot, or hands it back.
pub(crate) fn put<B, N: Name>(lane: &mut Lane<B, N>, spot: Spot<B, N>) -> Result<(), Spot<B, N>>
    requires part { 0 < (worker_view lane.old).parts }
    ensures same { SameWorker lane.old lane.new }
    ensures put { MatchResult result
        (λ _. worker_view lane.new ≡ with_put (worker_view lane.old) spot.index)
        (λ s. (s ≡ spot) × (worker_view lane.new ≡ worker_view lane.old)) }
    ensures index { MatchResult result
        (λ _. worker_index lane.new ≡ worker_index lane.old + 1)
        (λ _. worker_index lane.new ≡ worker_index lane.old) }
    ensures refused { IfErr result (λ _. worker_capacity lane.old ≤ worker_index lane.old) }
{
    lane.push_as::<Puts>(spot)
}

/// Takes the first spot.
pub(crate) fn pop<B, N: Name>(lane: &mut Lane<B, N>) -> Option<Spot<B, N>>
    requires part { 0 < (worker_view lane.old).parts }
    requires fifo { worker_flavor lane.old ≡ 0 }
    ensures same { SameWorker lane.old lane.new × (worker_index lane.new ≤ worker_index lane.old) }
    ensures taken { MatchOption result
        (worker_view lane.new ≡ worker_view lane.old)
        (λ s. worker_view lane.new ≡ with_taken (worker_view lane.old) s.index) }
{
    lane.pop_as::<Takes>()
}

/// A key, by which another thread takes.
pub(crate) fn lend<B, N: Name>(lane: &mut Lane<B, N>) -> Key<B, N>
    requires part { 1 < (worker_view lane.old).parts }
    ensures same { SameWorker lane.old lane.new × (worker_index lane.new ≡ worker_index lane.old) }
    ensures left { worker_view lane.new ≡ with_less (worker_view lane.old) }
    ensures key { IsPassOf (worker_deque lane.old) result × (view result ≡ tally 1 [] []) }
{
    lane.another::<Cut>()
}

/// Takes a key back.
pub(crate) fn take_in<B, N: Name>(lane: &mut Lane<B, N>, key: Key<B, N>)
    requires part { 0 < (worker_view lane.old).parts }
    requires key { IsPassOf (worker_deque lane.old) key }
    ensures same { SameWorker lane.old lane.new × (worker_index lane.new ≡ worker_index lane.old) }
    ensures both { worker_view lane.new ≡ joined (worker_view lane.old) (view key) }
    ensures most { (worker_view lane.new).parts ≤ 256 }
{
    lane.absorb::<Cut>(key);
    lane.len_as::<Most>();
}

/// All that the worker of a lane knows, as a key.
pub(crate) fn whole<B: Drop, N: Name>(lane: Lane<B, N>) -> Key<B, N>
    ensures key { IsPassOf (worker_deque lane) result × (view result ≡ worker_view lane) }
{
    let mut lane = lane;
    lane.another::<Whole>()
}

/// Takes what is left, once all keys are back: what was put is what was taken with what is left, each spot as often.
pub(crate) fn drain<B: Drop, N: Name>(
    lane: Lane<B, N>,
    left: &mut Vec<Spot<B, N>>,
) -> Result<(), NoMemory>
    requires all { (worker_view lane).parts ≡ 256 }
    requires fifo { worker_flavor lane ≡ 0 }
    ensures { OnOk result (DrainsTo left.old.items (worker_view lane) left.new.items) }
{
    let mut lane = lane;
    for _ in 0..u64::MAX {
        match lane.pop_as::<Drains>() {
            Some(spot) => left.push(spot)?,
            None => return Ok(()),
        }
    }
    Err(AllocError)
}

/// Takes the first spot of another's deque.
pub(crate) fn steal<B, N: Name>(door: &Door<B, N>, key: &mut Key<B, N>) -> Option<Spot<B, N>>
    requires key { IsPassOf (stealer_deque door.now) key.old }
    requires part { 0 < (view key.old).parts }
    requires fifo { stealer_flavor door.now ≡ 0 }
    ensures same { IsPassOf (stealer_deque door.now) key.new }
    ensures taken { MatchOption result
        (view key.new ≡ view key.old)
        (λ s. view key.new ≡ with_taken (view key.old) s.index) }
{
    match door.steal_as::<Takes>(key) {
        Steal::Success(spot) => Some(spot),
        Steal::Empty | Steal::Retry => None,
    }
}
