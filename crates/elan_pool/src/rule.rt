//! The rule of one deque: what was put is what was taken with what it holds, each spot as often.
ghost use Rattle.elan_pool.specs.Balance.{tally, numbers, Balanced};

use crossbeam_deque::protocol::{Join, Lesson, Outcome, Protocol, Split};
use elan_tree::name::Name;
use elan_tree::posts::Spot;
use std::collections::LinkedList;

/// What a pass has put and taken, by number, and its parts of the right to know the whole. No value of it is made.
pub struct Tally {
    pub parts: u64,
    pub put: LinkedList<u64>,
    pub taken: LinkedList<u64>,
}

/// The rule of a deque, which has 256 parts in all.
pub struct Balance;

impl<B, N: Name> Protocol<Spot<B, N>, Tally> for Balance {
    ghost use Rattle.std.specs.Prelude.{[]};
    ghost use Rattle.elan_pool.specs.Balance.{tally, Balanced};

    ghost holds = { λ items views. Balanced items views };

    ghost first = { tally 256 [] [] };

    ghost guest = { tally 0 [] [] };
}

/// One part is cut off, and parts are put together again.
pub struct Cut;

impl Split<Tally> for Cut {
    ghost use Rattle.std.specs.Prelude.{[], ◌-◌};
    ghost use Rattle.elan_pool.specs.Balance.{tally};

    ghost left = { λ v. tally (v.parts - 1) v.put v.taken };

    ghost right = { λ v. tally 1 [] [] };
}

impl Join<Tally> for Cut {
    ghost use Rattle.std.specs.Prelude.{[]};
    ghost use Rattle.elan_pool.specs.Balance.{tally, joined};

    ghost both = { joined };

    ghost spent = { tally 0 [] [] };
}

/// All is cut off.
pub struct Whole;

impl Split<Tally> for Whole {
    ghost use Rattle.std.specs.Prelude.{[]};
    ghost use Rattle.elan_pool.specs.Balance.{tally};

    ghost left = { λ v. tally 0 [] [] };

    ghost right = { λ v. v };
}

/// What a put tells.
pub struct Puts;

impl<B, N: Name> Outcome<Spot<B, N>, Tally> for Puts {
    ghost use Rattle.std.specs.Prelude.{◌≡◌, ◌++◌};
    ghost use Rattle.elan_pool.specs.Balance.{tally, numbers};

    ghost then = { λ v xs w. w ≡ tally v.parts (v.put ++ numbers xs) v.taken };
}

/// What a take tells.
pub struct Takes;

impl<B, N: Name> Outcome<Spot<B, N>, Tally> for Takes {
    ghost use Rattle.std.specs.Prelude.{◌≡◌, ◌++◌};
    ghost use Rattle.elan_pool.specs.Balance.{tally, numbers};

    ghost then = { λ v xs w. w ≡ tally v.parts v.put (v.taken ++ numbers xs) };
}

/// As `Takes`, by who has every part: where nothing is left, what was put is what was taken.
pub struct Drains;

impl<B, N: Name> Outcome<Spot<B, N>, Tally> for Drains {
    ghost use Rattle.std.specs.Prelude.{◌≡◌, ◌++◌};
    ghost use Rattle.elan_pool.specs.Balance.{tally, numbers, SameSpots};

    ghost then = { λ v xs w. w ≡ tally v.parts v.put (v.taken ++ numbers xs) };

    ghost empty = { λ v. SameSpots v.put v.taken };
}

/// No pass has more parts than there are.
pub struct Most;

impl<B, N: Name> Lesson<Spot<B, N>, Tally> for Most {
    ghost use Rattle.std.specs.Prelude.{◌≤◌};

    ghost fact = { λ v items. v.parts ≤ 256 };
}
