//! The board.
ghost use Rattle.std.specs.Prelude.{◌≡◌, ℕ, ◌+◌, ◌<◌, ◌≤◌, ◌⊎◌, length, sum, map, IfOk, MatchResult, All};
ghost use Rattle.elan_tree.specs.Growths.{GrowthOf};
ghost use Rattle.elan_tree.specs.Standing.{Sound};
ghost use Rattle.elan_board.specs.Rule.{look};
ghost use Rattle.elan_board.specs.Seats.{taken_by, look_of, taken_in, IsNew, Tells, Loads};

use crate::seat::Seat;
use crate::stand::Stand;
use crate::watch::{Posted, Watch, another, opened};
use crate::words::Progress;
use elan_text::NoMemory;
use elan_tree::branch::{Branch, Grown, Growth};
use elan_tree::name::Name;
use elan_tree::posts::Spot;
use elan_tree::tree::Tree;
use std::alloc::Global;
use std::sync::ledger::{Blank, Ledger, Share};
use std::sync::{Arc, Mutex, Wait};

/// A search tree that threads share.
#[derive(Drop)]
pub struct Board<'p, B: Branch, N: Name, L: Ledger> {
    stand: Mutex<Stand<'p, B, N, L>>,
}

/// A tree that is no longer shared, and how many growths the seats counted.
#[derive(Drop)]
pub struct Closed<'p, B: Branch, N: Name> {
    pub tree: Tree<'p, B, N>,
    pub taken: u64,
}

/// A seat with one part of the ledger, which counted nothing and told nothing.
fn seat_of<L: Ledger>(
    rest: &mut Share<L>,
    watch: &mut Watch,
    words: &Arc<Posted>,
) -> Result<Seat<L>, NoMemory>
    requires parts { 1 < rest.old.parts }
    requires fits { watch.old.mark.table_id ≡ words.now.value.words.shared.table_id }
    requires shown { watch.old.mark.me.0 ≡ look 0 0 0 0 0 0 }
    ensures parts { IfOk result (λ _. (rest.new.parts + 1 ≡ rest.old.parts) × (rest.new.amount ≡ rest.old.amount)) }
    ensures watch { (watch.new.mark.table_id ≡ watch.old.mark.table_id) × (watch.new.mark.me.0 ≡ watch.old.mark.me.0) }
    ensures new { IfOk result IsNew }
{
    let words = words.clone()?;
    let share = rest.split_off(1, 0);
    let watch = another(&words, watch);
    Ok(Seat {
        share,
        watch,
        words,
    })
}

impl<'p, B: Branch, N: Name, L: Ledger> Board<'p, B, N, L> {
    /// Puts a tree, in which no growth stands yet, behind a lock, and makes so many seats.
    /// The ledger is blank, and has one part for each seat and one for the board. Without memory all of it is dropped.
    pub fn new(
        alloc: Global,
        blank: Blank,
        tree: Tree<'p, B, N>,
        seats: u32,
    ) -> Result<(Board<'p, B, N, L>, Vec<Seat<L>>), NoMemory>
        requires name { (blank.name ≡ L.name) × (blank.parts ≡ L.parts) }
        requires parts { blank.parts ≡ seats + 1 }
        requires fresh { tree.grown ≡ 0 }
        ensures len { IfOk result (λ r. length r.1.items ≡ seats) }
        ensures new { IfOk result (λ r. All IsNew r.1.items) }
    {
        let (book, mut rest) = blank.open::<L>();
        let (words, mut watch) = opened(alloc)?;
        let words = Arc::new(alloc, words)?;
        let mut made = Vec::with_capacity(alloc, seats as usize)?;
        for _i in 0..seats {
            made.push(seat_of(&mut rest, &mut watch, &words)?)?;
        }
        Ok((
            Board {
                stand: Mutex::new(Stand { tree, book, rest }),
            },
            made,
        ))
    }

    /// Lets a growth stand at the leftmost open place of the spot's number, as `Tree::grow` does, and counts it in the seat.
    /// The answer is that of the tree, and a growth that was taken is told to the words. Where the tree counts as many
    /// growths as 64 bits hold, the growth is dropped and `Stale`. Without memory it is counted where it stands all the same.
    pub fn commit<R: Wait + Sync>(
        &self,
        rt: &R,
        seat: &mut Seat<L>,
        spot: &Spot<B, N>,
        growth: Growth<B>,
    ) -> Result<Grown<B, N>, NoMemory>
        requires { GrowthOf B.sense spot.now.value growth }
        ensures counted { MatchResult result
            (λ g. taken_by seat.new ≡ taken_by seat.old + taken_in g)
            (λ _. (taken_by seat.new ≡ taken_by seat.old) ⊎ (taken_by seat.new ≡ taken_by seat.old + 1)) }
        ensures told { MatchResult result
            (λ g. Tells g (look_of seat.old) (look_of seat.new))
            (λ _. look_of seat.new ≡ look_of seat.old) }
    {
        let grown = self.stand.lock(rt).commit(rt, seat, spot, growth)?;
        if let Grown::Taken { released, cut, .. } = &grown {
            seat.tell(*released, *cut);
        }
        Ok(grown)
    }

    /// The first open place of the tree, or nothing where no place is open.
    pub fn draw<R: Wait + Sync>(&self, rt: &R, seat: &mut Seat<L>) -> Option<Spot<B, N>>
        ensures { seat.new ≡ seat.old }
    {
        let _ = seat;
        self.stand.lock(rt).leftmost()
    }

    /// Whether the spot is open in the tree.
    pub fn is_open<R: Wait + Sync>(&self, rt: &R, seat: &mut Seat<L>, spot: &Spot<B, N>) -> bool
        ensures { seat.new ≡ seat.old }
    {
        let _ = seat;
        self.stand.lock(rt).is_open(spot)
    }

    /// How many items are released and how many places were cut, as far as the seat was ever shown. Each word is loaded
    /// once, without the lock.
    pub fn progress(&self, seat: &mut Seat<L>) -> Progress
        ensures taken { taken_by seat.new ≡ taken_by seat.old }
        ensures loads { Loads (look_of seat.old) (look_of seat.new) }
        ensures released { result.released ≡ (look_of seat.new).released }
        ensures cuts { result.cuts ≡ (look_of seat.new).cuts }
        // Neither number falls, and no commit of the seat told of more released items.
        ensures later { ((look_of seat.old).released ≤ result.released) × ((look_of seat.old).cuts ≤ result.cuts) }
        ensures told { (look_of seat.old).told ≤ result.released }
    {
        let _ = &self.stand;
        seat.look()
    }

    /// Takes all seats, and gives the tree and how many growths they counted, which are those that stand. Takes no memory.
    pub fn close(self, seats: Vec<Seat<L>>) -> Closed<'p, B, N>
        requires { length seats.items + 1 ≡ L.parts }
        ensures taken { result.taken ≡ sum (map taken_by seats.items) }
        ensures grown { result.taken ≡ result.tree.grown }
        ensures sound { Sound B.sense result.tree }
    {
        let (tree, taken) = self.stand.into_inner().close(seats);
        Closed { tree, taken }
    }
}
