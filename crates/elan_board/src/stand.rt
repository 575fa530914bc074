//! What lies under the lock.
ghost use Rattle.std.specs.Prelude.{◌≡◌, ℕ, ◌+◌, ◌⊎◌, length, sum, map, IfOk, IsOkAnd, OnErr, MatchResult};
ghost use Rattle.elan_tree.specs.Growths.{GrowthOf};
ghost use Rattle.elan_tree.specs.Standing.{Sound};
ghost use Rattle.elan_tree.specs.Places.{first_place, has, numbered};
ghost use Rattle.elan_tree.specs.Answer.{Answers, Refused};
ghost use Rattle.elan_board.specs.Seats.{taken_by, look_of, taken_in};
ghost use Rattle.elan_board.specs.Commits.{IsFull, HasRoom, IsStale};

use crate::seat::Seat;
use elan_text::NoMemory;
use elan_tree::branch::{Branch, Grown, Growth};
use elan_tree::name::Name;
use elan_tree::posts::Spot;
use elan_tree::tree::Tree;
use std::sync::Wait;
use std::sync::ledger::{Book, Ledger, Share};

/// The tree, the book of the growths that stand in it, and the one share that no seat has.
#[derive(Drop)]
pub(crate) struct Stand<'p, B: Branch, N: Name, L: Ledger> {
    pub(crate) tree: Tree<'p, B, N>,
    pub(crate) book: Book<L>,
    pub(crate) rest: Share<L>,
    ghost counted: { book.total ≡ tree.grown },
    ghost one_part: { rest.parts ≡ 1 },
    ghost none: { rest.amount ≡ 0 },
}

impl<'p, B: Branch, N: Name, L: Ledger> Stand<'p, B, N, L> {
    /// Lets a growth stand, and counts it in the seat. Where no more can be counted, the growth is dropped and stale.
    pub(crate) fn commit<R: Wait + Sync>(
        &mut self,
        rt: &R,
        seat: &mut Seat<L>,
        spot: &Spot<B, N>,
        growth: Growth<B>,
    ) -> Result<Grown<B, N>, NoMemory>
        requires { GrowthOf B.sense spot.now.value growth }
        ensures answer { HasRoom self.old.tree → IfOk result (Answers B.sense spot.now growth self.old.tree self.new.tree) }
        ensures refused { OnErr result (Refused B.sense spot.now growth self.old.tree self.new.tree) }
        ensures full { IsFull self.old.tree → IsOkAnd result IsStale × (self.new.tree ≡ self.old.tree) }
        ensures counted { MatchResult result
            (λ g. taken_by seat.new ≡ taken_by seat.old + taken_in g)
            (λ _. (taken_by seat.new ≡ taken_by seat.old) ⊎ (taken_by seat.new ≡ taken_by seat.old + 1)) }
        ensures look { look_of seat.new ≡ look_of seat.old }
    {
        let before = self.tree.grown();
        if before == u64::MAX {
            return Ok(Grown::Stale);
        }
        let Stand { tree, book, .. } = self;
        let grown = tree.grow(rt, spot, growth);
        if tree.grown() > before {
            seat.count(book);
        }
        grown
    }

    /// The first open place, or nothing where no place is open.
    pub(crate) fn leftmost(&self) -> Option<Spot<B, N>>
        ensures { result ≡ first_place self.now.tree.tree }
    {
        self.tree.leftmost()
    }

    /// Whether the spot is open.
    pub(crate) fn is_open(&self, spot: &Spot<B, N>) -> bool
        ensures { result ≡ has (numbered spot.now.index) self.now.tree.tree }
    {
        self.tree.is_open(spot)
    }

    /// Takes all shares, which have all that was counted, and gives the tree with its number of growths.
    pub(crate) fn close(self, seats: Vec<Seat<L>>) -> (Tree<'p, B, N>, u64)
        requires { length seats.items + 1 ≡ L.parts }
        ensures tree { result.0 ≡ self.entry.tree }
        ensures taken { result.1 ≡ sum (map taken_by seats.items) }
        ensures grown { result.1 ≡ result.0.grown }
        ensures sound { Sound B.sense result.0 }
    {
        let Stand { tree, book, rest } = self;
        let mut book = book;
        let mut all = rest;
        let mut seats = seats;
        'seats: while let Some(seat) = seats.pop() {
            let Seat {
                share,
                watch: _,
                words: _,
            } = seat;
            all.merge(share);
        }
        book.audit(&mut all);
        let _over = tree.is_over();
        let taken = tree.grown();
        (tree, taken)
    }
}
