//! The words of a board, and what one seat keeps of them.
ghost use Rattle.std.specs.Prelude.{◌≡◌, ◌+◌, ◌≤◌, max, [], IfOk};
ghost use Rattle.elan_board.specs.Rule.{look};

use crate::words::{
    Mark, Progress, Words, add_cuts, fork_mark, load_cuts, load_released, open, tell_released,
};
use elan_text::NoMemory;
use std::alloc::Global;

/// The words of a board.
#[derive(Drop)]
pub(crate) struct Posted {
    pub(crate) words: Words,
    ghost two: { words.shared.table_id.words ≡ 2 },
}

/// What a seat keeps of the words: its mark, and the greatest numbers that it was shown.
#[derive(Drop)]
pub(crate) struct Watch {
    mark: Mark,
    released: u64,
    cuts: u64,
    ghost released_is: { released ≡ mark.me.0.released },
    ghost cuts_is: { cuts ≡ mark.me.0.cuts },
    ghost told: { mark.me.0.told ≤ mark.me.0.released },
    ghost no_slots: { mark.me.1 ≡ [] },
}

/// Both words at 0, and a watch that was shown nothing.
pub(crate) fn opened(alloc: Global) -> Result<(Posted, Watch), NoMemory>
    ensures same { IfOk result (λ r. r.1.mark.table_id ≡ r.0.words.shared.table_id) }
    ensures none { IfOk result (λ r. r.1.mark.me.0 ≡ look 0 0 0 0 0 0) }
{
    let (words, mark) = open(alloc)?;
    Ok((
        Posted { words },
        Watch {
            mark,
            released: 0,
            cuts: 0,
        },
    ))
}

/// A watch for another seat, which was shown as much and told nothing.
pub(crate) fn another(posted: &Posted, watch: &mut Watch) -> Watch
    requires { watch.old.mark.table_id ≡ posted.now.words.shared.table_id }
    ensures same { (watch.new.mark.table_id ≡ watch.old.mark.table_id)
        × (watch.new.mark.me.0 ≡ watch.old.mark.me.0) }
    ensures new { (result.mark.table_id ≡ watch.old.mark.table_id)
        × (result.mark.me.0 ≡ look watch.old.mark.me.0.released watch.old.mark.me.0.cuts 0 0 0 0) }
{
    let Watch {
        mark,
        released,
        cuts,
    } = watch;
    let mark = fork_mark(&posted.words, mark);
    Watch {
        mark,
        released: *released,
        cuts: *cuts,
    }
}

/// Loads both words once, and answers the greatest number of each that the watch was shown.
pub(crate) fn watched(words: &Words, watch: &mut Watch) -> Progress
    requires { (watch.old.mark.table_id ≡ words.now.shared.table_id) × (words.now.shared.table_id.words ≡ 2) }
    ensures same { watch.new.mark.table_id ≡ watch.old.mark.table_id }
    ensures loads { (watch.new.mark.me.0.released_loads ≡ watch.old.mark.me.0.released_loads + 1)
        × (watch.new.mark.me.0.cuts_loads ≡ watch.old.mark.me.0.cuts_loads + 1) }
    ensures answer { (result.released ≡ watch.new.mark.me.0.released) × (result.cuts ≡ watch.new.mark.me.0.cuts) }
    ensures later { (watch.old.mark.me.0.released ≤ result.released) × (watch.old.mark.me.0.cuts ≤ result.cuts) }
    ensures kept { (watch.new.mark.me.0.told ≡ watch.old.mark.me.0.told)
        × (watch.new.mark.me.0.added ≡ watch.old.mark.me.0.added) }
    ensures told { watch.old.mark.me.0.told ≤ result.released }
{
    let Watch {
        mark,
        released,
        cuts,
    } = watch;
    *released = load_released(words, mark);
    let seen = load_cuts(words, mark);
    if *cuts < seen {
        *cuts = seen;
    }
    Progress {
        released: *released,
        cuts: *cuts,
    }
}

/// Tells of a growth: how many items are released in all, and how many places it cut.
pub(crate) fn told(words: &Words, watch: &mut Watch, count: u64, cut: u64)
    requires { (watch.old.mark.table_id ≡ words.now.shared.table_id) × (words.now.shared.table_id.words ≡ 2) }
    ensures same { watch.new.mark.table_id ≡ watch.old.mark.table_id }
    ensures told { watch.new.mark.me.0.told ≡ max watch.old.mark.me.0.told count }
    ensures added { watch.new.mark.me.0.added ≡ watch.old.mark.me.0.added + cut }
    ensures later { (watch.old.mark.me.0.released ≤ watch.new.mark.me.0.released)
        × (watch.new.mark.me.0.cuts ≡ watch.old.mark.me.0.cuts) }
    ensures loads { (watch.new.mark.me.0.released_loads ≡ watch.old.mark.me.0.released_loads)
        × (watch.new.mark.me.0.cuts_loads ≡ watch.old.mark.me.0.cuts_loads) }
{
    let Watch {
        mark,
        released,
        cuts: _,
    } = watch;
    *released = tell_released(words, mark, count);
    add_cuts(words, mark, cut);
}
