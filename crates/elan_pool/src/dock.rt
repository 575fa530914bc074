//! One deque of a pool: the end that its worker has.
ghost use Rattle.std.specs.Prelude.{◌≡◌, ◌<◌, ◌≤◌, [], Some, length, slice_get};
ghost use Rattle.std.specs.Prelude.{IfOk, IfErr, OnOk, MatchOption, MatchResult};
ghost use Rattle.crossbeam_deque.specs.Handles.{view, worker_view, worker_deque};
ghost use Rattle.crossbeam_deque.specs.Handles.{worker_flavor, worker_capacity, worker_index};
ghost use Rattle.elan_pool.specs.Balance.{tally, with_put, with_taken, with_less, joined, DrainsTo};

use crate::lane::{Lane, drain, lend, pop, put, take_in, whole};
use crate::pool_name::PoolName;
use crate::side::Side;
use elan_text::NoMemory;
use elan_tree::name::Name;
use elan_tree::posts::Spot;
use std::alloc::Global;
use std::marker::PhantomData;

/// The slots that a deque begins with.
const SLOTS: usize = 64;

/// A new deque, which has no name yet.
#[derive(Drop)]
pub struct NewDeque<B, N: Name> {
    pub(crate) lane: Lane<B, N>,
    ghost fifo: { worker_flavor lane ≡ 0 },
    ghost empty: { worker_index lane ≡ 0 },
    ghost roomy: { 64 ≤ worker_capacity lane },
    ghost parts: { (worker_view lane).parts ≡ 256 },
    ghost put: { (worker_view lane).put ≡ [] },
    ghost taken: { (worker_view lane).taken ≡ [] },
}

impl<B: Drop, N: Name> NewDeque<B, N> {
    pub(crate) fn new(alloc: Global) -> Result<NewDeque<B, N>, NoMemory> {
        Ok(NewDeque {
            lane: Lane::fifo_as(alloc, SLOTS)?,
        })
    }
}

/// The end of a deque that its worker has: its number in the pool, and how many slots it had when it was made.
#[derive(Drop)]
pub struct Dock<B, N: Name, P: PoolName> {
    pub(crate) number: u32,
    pub(crate) lane: Lane<B, N>,
    pub(crate) room: u64,
    of: PhantomData<P>,
    ghost at: { slice_get P.deques number ≡ Some (worker_deque lane) },
    ghost fifo: { worker_flavor lane ≡ 0 },
    ghost many: { 192 ≤ (worker_view lane).parts },
    ghost most: { (worker_view lane).parts ≤ 256 },
    ghost room_is: { room ≤ worker_capacity lane },
    ghost filled: { worker_index lane ≤ length (worker_view lane).put },
}

impl<B, N: Name, P: PoolName> Dock<B, N, P> {
    /// A new deque under its number.
    pub(crate) fn named(new: NewDeque<B, N>, number: u32) -> Dock<B, N, P>
        requires { slice_get P.deques number ≡ Some (worker_deque new.lane) }
        ensures number { result.number ≡ number }
        ensures room { 64 ≤ result.room }
        ensures new { worker_view result.lane ≡ tally 256 [] [] }
    {
        let NewDeque { lane } = new;
        let room = lane.capacity() as u64;
        Dock {
            number,
            lane,
            room,
            of: PhantomData,
        }
    }

    /// Puts a spot, or hands it back.
    pub(crate) fn put(&mut self, spot: Spot<B, N>) -> Result<(), Spot<B, N>>
        ensures same { (self.new.number ≡ self.old.number) × (self.new.room ≡ self.old.room) }
        ensures put { MatchResult result
            (λ _. worker_view self.new.lane ≡ with_put (worker_view self.old.lane) spot.index)
            (λ s. (s ≡ spot) × (worker_view self.new.lane ≡ worker_view self.old.lane)) }
        ensures refused { IfErr result (λ _. self.old.room ≤ length (worker_view self.old.lane).put) }
    {
        put(&mut self.lane, spot)
    }

    /// Takes the first spot.
    pub(crate) fn pop(&mut self) -> Option<Spot<B, N>>
        ensures same { (self.new.number ≡ self.old.number) × (self.new.room ≡ self.old.room) }
        ensures taken { MatchOption result
            (worker_view self.new.lane ≡ worker_view self.old.lane)
            (λ s. worker_view self.new.lane ≡ with_taken (worker_view self.old.lane) s.index) }
    {
        pop(&mut self.lane)
    }

    /// A side, by which one of the seats takes.
    pub(crate) fn side(&mut self) -> Result<Side<B, N, P>, NoMemory>
        requires { 192 < (worker_view self.old.lane).parts }
        ensures same { (self.new.number ≡ self.old.number) × (self.new.room ≡ self.old.room) }
        ensures left { IfOk result (λ _. worker_view self.new.lane ≡ with_less (worker_view self.old.lane)) }
        ensures number { IfOk result (λ s. s.number ≡ self.old.number) }
        ensures new { IfOk result (λ s. (view s.key ≡ tally 1 [] []) × (s.misses ≡ 0)) }
    {
        let door = self.lane.stealer()?;
        let key = lend(&mut self.lane);
        Ok(Side {
            number: self.number,
            door,
            key,
            misses: 0,
            of: PhantomData,
        })
    }

    /// Takes a side back.
    pub(crate) fn absorb(&mut self, side: Side<B, N, P>)
        requires { side.number ≡ self.old.number }
        ensures same { (self.new.number ≡ self.old.number) × (self.new.room ≡ self.old.room) }
        ensures both { worker_view self.new.lane ≡ joined (worker_view self.old.lane) (view side.key) }
    {
        let Side {
            number: _,
            door: _,
            key,
            misses: _,
            of: _,
        } = side;
        take_in(&mut self.lane, key);
    }

    /// No two docks have one number.
    pub(crate) fn clash(&mut self, other: Dock<B, N, P>)
    where
        B: Drop,
        requires { other.number ≡ self.old.number }
        ensures { ⊥ }
    {
        let Dock {
            number: _,
            lane,
            room: _,
            of: _,
        } = other;
        take_in(&mut self.lane, whole(lane));
    }

    /// Takes what is left, once all sides are back: what was put is what was taken with what is left, each spot as often.
    pub(crate) fn drain(self, left: &mut Vec<Spot<B, N>>) -> Result<(), NoMemory>
    where
        B: Drop,
        requires { (worker_view self.lane).parts ≡ 256 }
        ensures { OnOk result (DrainsTo left.old.items (worker_view self.lane) left.new.items) }
    {
        let Dock {
            number: _,
            lane,
            room: _,
            of: _,
        } = self;
        drain(lane, left)
    }
}
