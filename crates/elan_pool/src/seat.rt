//! The seat of one worker at the pool.
ghost use Rattle.std.specs.Prelude.{◌≡◌, ℕ, ◌+◌, ◌<◌, ◌≤◌, [], Some, slice_get, vec_len};
ghost use Rattle.crossbeam_deque.specs.Handles.{worker_view};
ghost use Rattle.elan_pool.specs.Sides.{number_at, taken_at};

use crate::dock::Dock;
use crate::pool_name::PoolName;
use crate::side::Side;
use elan_tree::name::Name;

/// The right to put into one deque of a pool, and to take from all of them.
#[derive(Drop)]
pub struct PoolSeat<B, N: Name, P: PoolName> {
    pub(crate) dock: Dock<B, N, P>,
    pub(crate) sides: Vec<Side<B, N, P>>,
    ghost inside: { dock.number < vec_len sides },
    ghost few: { vec_len sides ≤ 64 },
    ghost parts: { (worker_view dock.lane).parts + vec_len sides ≡ 256 },
    ghost numbered: { (d : ℕ) → d < vec_len sides → number_at (slice_get sides.items d) ≡ Some d },
    ghost own_side: { taken_at (slice_get sides.items dock.number) ≡ [] },
}
