//! Ends over lists in memory, for tests.
ghost use Rattle.std.specs.Prelude.{◌≡◌, ◌<◌, ◌≤◌, ◌+◌, ◌^◌, [], ◌∷◌, ◌++◌, vec_len, vec_capacity, IfOk, IfNone, MatchOption};
ghost use Rattle.elan_pool.specs.Taking.{Rose};

use elan_text::NoMemory;
use elan_tree::name::Name;
use elan_tree::posts::Spot;
use std::alloc::Global;

/// One deque as a list of spots, the next one last, the numbers of those that were taken, and how often it gave nothing.
#[derive(Drop)]
pub struct Line<B, N: Name> {
    spots: Vec<Spot<B, N>>,
    pub(crate) taken: Vec<u64>,
    pub(crate) misses: u64,
    ghost room: { vec_len taken + vec_len spots ≤ vec_capacity taken },
}

impl<B, N: Name> Line<B, N> {
    /// A line of these spots, the first of which is the next one, with room for their numbers.
    pub(crate) fn new(alloc: Global, spots: Vec<Spot<B, N>>) -> Result<Line<B, N>, NoMemory>
        ensures taken { IfOk result (λ l. l.taken.items ≡ []) }
        ensures misses { IfOk result (λ l. l.misses ≡ 0) }
    {
        let taken = Vec::with_capacity(alloc, spots.len())?;
        let mut spots = spots;
        spots.reverse();
        Ok(Line {
            spots,
            taken,
            misses: 0,
        })
    }

    /// Takes the next spot, or counts a miss. Takes no memory.
    pub(crate) fn take(&mut self) -> Option<Spot<B, N>>
        ensures taken { MatchOption result
            (self.new.taken.items ≡ self.old.taken.items)
            (λ s. self.new.taken.items ≡ self.old.taken.items ++ s.index ∷ []) }
        ensures fall { self.old.misses ≤ self.new.misses }
        ensures missed { IfNone result (Rose self.old.misses self.new.misses) }
    {
        let Line {
            spots,
            taken,
            misses,
        } = self;
        let Some(spot) = spots.pop() else {
            *misses = misses.saturating_add(1);
            return None;
        };
        taken.push_reserved(spot.number());
        Some(spot)
    }
}

/// Ends over lists of spots.
#[derive(Drop)]
pub struct MemoryEnds<B, N: Name> {
    pub(crate) own: u32,
    pub(crate) lines: Vec<Line<B, N>>,
    ghost inside: { own < vec_len lines },
    ghost few: { vec_len lines < 2 ^ 32 },
}
