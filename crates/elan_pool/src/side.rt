//! The way of a seat to one deque: where it steals, what it took there, and how often it found nothing.
ghost use Rattle.std.specs.Prelude.{◌≡◌, ◌≤◌, [], ◌∷◌, ◌++◌, Some, slice_get, IfNone, MatchOption};
ghost use Rattle.crossbeam_deque.specs.Handles.{view, IsPassOf, worker_deque, stealer_deque, stealer_flavor};
ghost use Rattle.elan_pool.specs.Taking.{Rose};

use crate::lane::{Door, Key, steal};
use crate::pool_name::PoolName;
use elan_tree::name::Name;
use elan_tree::posts::Spot;
use std::marker::PhantomData;

/// The way to one deque, by its number in the pool.
#[derive(Drop)]
pub struct Side<B, N: Name, P: PoolName> {
    pub(crate) number: u32,
    pub(crate) door: Door<B, N>,
    pub(crate) key: Key<B, N>,
    pub(crate) misses: u64,
    pub(crate) of: PhantomData<P>,
    ghost at: { slice_get P.deques number ≡ Some (stealer_deque door) },
    ghost fits: { IsPassOf (stealer_deque door) key },
    ghost fifo: { stealer_flavor door ≡ 0 },
    ghost part: { (view key).parts ≡ 1 },
    ghost puts: { (view key).put ≡ [] },
}

impl<B, N: Name, P: PoolName> Side<B, N, P> {
    /// Counts a miss.
    pub(crate) fn miss(&mut self)
        ensures same { (self.new.number ≡ self.old.number) × (view self.new.key ≡ view self.old.key) }
        ensures rose { (self.old.misses ≤ self.new.misses) × Rose self.old.misses self.new.misses }
    {
        self.misses = self.misses.saturating_add(1);
    }

    /// Takes the first spot of the deque, or counts a miss.
    pub(crate) fn steal(&mut self) -> Option<Spot<B, N>>
        ensures same { self.new.number ≡ self.old.number }
        ensures taken { MatchOption result
            ((view self.new.key).taken ≡ (view self.old.key).taken)
            (λ s. (view self.new.key).taken ≡ (view self.old.key).taken ++ s.index ∷ []) }
        ensures fall { self.old.misses ≤ self.new.misses }
        ensures missed { IfNone result (Rose self.old.misses self.new.misses) }
    {
        let Side {
            number: _,
            door,
            key,
            misses,
            of: _,
        } = self;
        let found = steal(door, key);
        if found.is_none() {
            *misses = misses.saturating_add(1);
        }
        found
    }
}
