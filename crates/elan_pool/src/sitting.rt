//! The ends of a seat.
ghost use Rattle.std.specs.Prelude.{◌≡◌, ◌≢◌, ℕ, ◌<◌, ◌≤◌, List, IfNone, MatchOption};
ghost use Rattle.elan_pool.specs.Seats.{taken_of, missed_of, count_of, own_of, put_of, room_of};
ghost use Rattle.elan_pool.specs.Taking.{Same, Took, Misses, Rose};

use crate::ends::Ends;
use crate::pool_name::PoolName;
use crate::seat::PoolSeat;
use elan_tree::name::Name;
use elan_tree::posts::Spot;

impl<B, N: Name, P: PoolName> Ends<B, N> for PoolSeat<B, N, P> {
    ghost use Rattle.elan_pool.specs.Seats.{taken_of, missed_of, count_of, own_of, put_of, room_of};

    ghost count = { count_of };

    ghost mine = { own_of };

    ghost taken = { taken_of };

    ghost missed = { missed_of };

    ghost put = { put_of };

    ghost room = { room_of };

    fn deques(&self) -> u32 {
        self.sides.len() as u32
    }

    fn own(&self) -> u32 {
        self.dock.number
    }

    fn pop(&mut self) -> Option<Spot<B, N>> {
        let found = self.dock.pop();
        if found.is_none() {
            self.sides[self.dock.number as usize].miss();
        }
        found
    }

    fn steal(&mut self, deque: u32) -> Option<Spot<B, N>> {
        self.sides[deque as usize].steal()
    }

    fn misses(&self, deque: u32) -> u64 {
        self.sides[deque as usize].misses
    }
}
