//! What a seat does: it looks at the words, tells them, and counts in the book.
ghost use Rattle.std.specs.Prelude.{◌≡◌, ℕ, ◌+◌, ◌≤◌};
ghost use Rattle.elan_board.specs.Seats.{taken_by, look_of, Loads, Tell};

use crate::seat::Seat;
use crate::watch::{told, watched};
use crate::words::Progress;
use std::sync::ledger::{Book, Ledger};

impl<L: Ledger> Seat<L> {
    /// Loads both words once, and answers the greatest number of each that the seat was shown.
    pub(crate) fn look(&mut self) -> Progress
        ensures taken { taken_by self.new ≡ taken_by self.old }
        ensures loads { Loads (look_of self.old) (look_of self.new) }
        ensures released { result.released ≡ (look_of self.new).released }
        ensures cuts { result.cuts ≡ (look_of self.new).cuts }
        ensures later { ((look_of self.old).released ≤ result.released) × ((look_of self.old).cuts ≤ result.cuts) }
        ensures told { (look_of self.old).told ≤ result.released }
    {
        let Seat {
            share: _,
            watch,
            words,
        } = self;
        watched(&words.words, watch)
    }

    /// Tells the words of a growth that was taken.
    pub(crate) fn tell(&mut self, released: u64, cut: u64)
        ensures taken { taken_by self.new ≡ taken_by self.old }
        ensures told { Tell released cut (look_of self.old) (look_of self.new) }
    {
        let Seat {
            share: _,
            watch,
            words,
        } = self;
        told(&words.words, watch, released, cut);
    }

    /// Counts a growth in the book.
    pub(crate) fn count(&mut self, book: &mut Book<L>)
        ensures taken { taken_by self.new ≡ taken_by self.old + 1 }
        ensures book { book.new.total ≡ book.old.total + 1 }
        ensures look { look_of self.new ≡ look_of self.old }
    {
        book.add(&mut self.share, 1);
    }
}
