//! The ends in memory.
ghost use Rattle.std.specs.Prelude.{◌≡◌, ◌≢◌, ℕ, ◌<◌, ◌≤◌, ◌^◌, List, [], length, All, IfOk, IfNone, MatchOption};
ghost use Rattle.elan_pool.specs.Lines.{IsNewLine, line_taken_of, line_missed_of, line_count_of, line_own_of};
ghost use Rattle.elan_pool.specs.Taking.{Same, Took, Misses, Rose};

use crate::ends::Ends;
use crate::memory::{Line, MemoryEnds};
use elan_text::NoMemory;
use elan_tree::name::Name;
use elan_tree::posts::Spot;
use std::alloc::Global;

/// A line for each list of spots, in their order.
fn lines_of<B: Drop, N: Name>(
    alloc: Global,
    deques: Vec<Vec<Spot<B, N>>>,
) -> Result<Vec<Line<B, N>>, NoMemory>
    ensures len { IfOk result (λ v. length v.items ≡ length deques.items) }
    ensures new { IfOk result (λ v. All IsNewLine v.items) }
{
    let mut deques = deques;
    deques.reverse();
    let mut lines = Vec::with_capacity(alloc, deques.len())?;
    'deques: while let Some(spots) = deques.pop() {
        lines.push(Line::new(alloc, spots)?)?;
    }
    Ok(lines)
}

impl<B: Drop, N: Name> MemoryEnds<B, N> {
    /// Ends over these lists, by deque, each with its first spot first, of which one is the own. Nothing is taken yet.
    pub fn new(
        alloc: Global,
        own: u32,
        deques: Vec<Vec<Spot<B, N>>>,
    ) -> Result<MemoryEnds<B, N>, NoMemory>
        requires { (length deques.items < 2 ^ 32) × (own < length deques.items) }
        ensures count { IfOk result (λ e. line_count_of e ≡ length deques.items) }
        ensures own { IfOk result (λ e. line_own_of e ≡ own) }
        ensures taken { IfOk result (λ e. (d : ℕ) → line_taken_of e d ≡ []) }
        ensures missed { IfOk result (λ e. (d : ℕ) → line_missed_of e d ≡ 0) }
    {
        let lines = lines_of(alloc, deques)?;
        Ok(MemoryEnds { own, lines })
    }
}

impl<B, N: Name> Ends<B, N> for MemoryEnds<B, N> {
    ghost use Rattle.std.specs.Prelude.{[]};
    ghost use Rattle.elan_pool.specs.Lines.{line_taken_of, line_missed_of, line_count_of, line_own_of};

    ghost count = { line_count_of };

    ghost mine = { line_own_of };

    ghost taken = { line_taken_of };

    ghost missed = { line_missed_of };

    ghost put = { λ e. [] };

    ghost room = { λ e. 0 };

    fn deques(&self) -> u32 {
        self.lines.len() as u32
    }

    fn own(&self) -> u32 {
        self.own
    }

    fn pop(&mut self) -> Option<Spot<B, N>> {
        let MemoryEnds { own, lines } = self;
        lines[*own as usize].take()
    }

    fn steal(&mut self, deque: u32) -> Option<Spot<B, N>> {
        self.lines[deque as usize].take()
    }

    fn misses(&self, deque: u32) -> u64 {
        self.lines[deque as usize].misses
    }
}
