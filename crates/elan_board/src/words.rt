//! The two progress words: how many items are released, and how many places were cut.
ghost use Rattle.std.specs.Prelude.{◌≡◌, ◌+◌, ◌≤◌, max, [], IfOk};
ghost use Rattle.elan_board.specs.Rule.{look};

use atomic_table::{Play, Seat, Split, Table, TableRule};
use elan_text::NoMemory;
use std::alloc::Global;

/// What a seat was shown of the words, and what it told. No value of it is made.
pub struct Look {
    /// The greatest number of released items that it was shown.
    pub released: u64,
    /// The greatest number of cut places that it was shown.
    pub cuts: u64,
    /// The greatest number of released items that it told.
    pub told: u64,
    /// How many cut places it told in all.
    pub added: u64,
    /// How often it loaded the number of released items.
    pub released_loads: u64,
    /// How often it loaded the number of cut places.
    pub cuts_loads: u64,
}

/// What a board tells of its search.
#[derive(Drop)]
pub struct Progress {
    /// How many items are released in all.
    pub released: u64,
    /// How many places were cut, modulo 2^64.
    pub cuts: u64,
}

/// The rule of the words.
pub struct Rule;

impl TableRule<u64, Look, ()> for Rule {
    ghost use Rattle.elan_board.specs.Rule.{look, Kept};

    ghost holds = { λ _ s. Kept s };

    ghost first = { λ _. look 0 0 0 0 0 0 };
}

pub(crate) struct SeesReleased;

impl Play<u64, Look> for SeesReleased {
    ghost use Rattle.elan_board.specs.Rule.{LoadsReleased};

    ghost then = { LoadsReleased };
}

pub(crate) struct SeesCuts;

impl Play<u64, Look> for SeesCuts {
    ghost use Rattle.elan_board.specs.Rule.{LoadsCuts};

    ghost then = { LoadsCuts };
}

pub(crate) struct Tell;

impl Play<u64, Look> for Tell {
    ghost use Rattle.elan_board.specs.Rule.{Tells};

    ghost then = { Tells };
}

pub(crate) struct Add;

impl Play<u64, Look> for Add {
    ghost use Rattle.elan_board.specs.Rule.{Adds};

    ghost then = { Adds };
}

/// A new seat was shown what the old one was, and told nothing.
pub(crate) struct Fork;

impl Split<Look> for Fork {
    ghost use Rattle.elan_board.specs.Rule.{look};

    ghost left = { λ v. v };

    ghost right = { λ v. look v.released v.cuts 0 0 0 0 };
}

pub(crate) type Words = Table<u64, Look, (), Rule, Global>;

pub(crate) type Mark = Seat<u64, Look>;

/// Both words at 0, and the mark that was shown nothing.
pub(crate) fn open(alloc: Global) -> Result<(Words, Mark), NoMemory>
    ensures words { IfOk result (λ r. r.0.shared.table_id.words ≡ 2) }
    ensures slots { IfOk result (λ r. r.0.shared.table_id.slots ≡ 0) }
    ensures same { IfOk result (λ r. r.1.table_id ≡ r.0.shared.table_id) }
    ensures mark { IfOk result (λ r. r.1.me ≡ (look 0 0 0 0 0 0, [])) }
{
    Words::of_words(alloc, &[0, 0], &())
}

/// Loads the number of released items, which is no less than the mark was shown.
pub(crate) fn load_released(words: &Words, mark: &mut Mark) -> u64
    requires { (mark.old.table_id ≡ words.now.shared.table_id) × (words.now.shared.table_id.words ≡ 2) }
    ensures same { mark.new.table_id ≡ mark.old.table_id }
    ensures later { mark.old.me.0.released ≤ result }
    ensures loaded { mark.new.me ≡ (
      look result mark.old.me.0.cuts mark.old.me.0.told mark.old.me.0.added
          (mark.old.me.0.released_loads + 1) mark.old.me.0.cuts_loads,
      mark.old.me.1,
    ) }
{
    words.shared.load::<SeesReleased>(mark, 0)
}

/// Loads the number of cuts, which wraps.
pub(crate) fn load_cuts(words: &Words, mark: &mut Mark) -> u64
    requires { (mark.old.table_id ≡ words.now.shared.table_id) × (words.now.shared.table_id.words ≡ 2) }
    ensures same { mark.new.table_id ≡ mark.old.table_id }
    ensures loaded { mark.new.me ≡ (
      look mark.old.me.0.released (max mark.old.me.0.cuts result) mark.old.me.0.told
          mark.old.me.0.added mark.old.me.0.released_loads (mark.old.me.0.cuts_loads + 1),
      mark.old.me.1,
    ) }
{
    words.shared.load::<SeesCuts>(mark, 1)
}

/// Tells that so many items are released, and answers the greatest number that was told.
pub(crate) fn tell_released(words: &Words, mark: &mut Mark, count: u64) -> u64
    requires { (mark.old.table_id ≡ words.now.shared.table_id) × (words.now.shared.table_id.words ≡ 2) }
    ensures same { mark.new.table_id ≡ mark.old.table_id }
    ensures answer { (result ≡ mark.new.me.0.released) × (mark.new.me.1 ≡ mark.old.me.1)
        × (mark.new.me.0.told ≤ max mark.old.me.0.told result) }
    ensures told { (mark.new.me.0.told ≡ max mark.old.me.0.told count) × (count ≤ mark.new.me.0.released)
        × (mark.old.me.0.released ≤ mark.new.me.0.released) }
    ensures others { (mark.new.me.0.cuts ≡ mark.old.me.0.cuts) × (mark.new.me.0.added ≡ mark.old.me.0.added)
        × (mark.new.me.0.released_loads ≡ mark.old.me.0.released_loads)
        × (mark.new.me.0.cuts_loads ≡ mark.old.me.0.cuts_loads) }
{
    let found = words.shared.fetch_max::<Tell>(mark, 0, count);
    if found < count { count } else { found }
}

/// Adds cuts.
pub(crate) fn add_cuts(words: &Words, mark: &mut Mark, count: u64)
    requires { (mark.old.table_id ≡ words.now.shared.table_id) × (words.now.shared.table_id.words ≡ 2) }
    ensures same { mark.new.table_id ≡ mark.old.table_id }
    ensures added { mark.new.me ≡ (
      look mark.old.me.0.released mark.old.me.0.cuts mark.old.me.0.told
          (mark.old.me.0.added + count) mark.old.me.0.released_loads mark.old.me.0.cuts_loads,
      mark.old.me.1,
    ) }
{
    words.shared.fetch_add::<Add>(mark, 1, count);
}

/// A mark for another seat, which was shown as much and told nothing.
pub(crate) fn fork_mark(words: &Words, mark: &mut Mark) -> Mark
    requires { (mark.old.table_id ≡ words.now.shared.table_id) × (words.now.shared.table_id.words ≡ 2) }
    ensures same { (mark.new.me ≡ mark.old.me) × (mark.new.table_id ≡ mark.old.table_id)
        × (result.table_id ≡ mark.old.table_id) }
    ensures new { result.me ≡ (look mark.old.me.0.released mark.old.me.0.cuts 0 0 0 0, []) }
{
    words.shared.split_seat::<Fork>(mark)
}
