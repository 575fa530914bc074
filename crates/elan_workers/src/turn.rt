//! The turns of one worker.
ghost use Rattle.std.specs.Prelude.{◌≡◌, true};
ghost use Rattle.elan_board.specs.Seats.{taken_by, look_of, Loads};
ghost use Rattle.elan_workers.specs.Turns.{Counts, OneTurn};

use crate::crew::Worker;
use crate::gate::Gate;
use elan_board::board::Board;
use elan_board::seat::Seat;
use elan_tree::branch::Branch;
use elan_tree::name::Name;
use elan_tree::posts::{Posts, Spot};
use std::sync::Wait;
use std::sync::ledger::Ledger;

/// Whether a spot that was drawn is still to be grown. Where no place was cut since the worker last read the words,
/// it is, and the board is not asked.
fn is_due<'p, B: Branch, N: Name, L: Ledger, R: Wait + Sync>(
    rt: &R,
    board: &Board<'p, B, N, L>,
    worker: &mut Worker<L>,
    spot: &Spot<B, N>,
) -> bool
    ensures loads { Loads (look_of worker.old.seat) (look_of worker.new.seat) }
    ensures taken { taken_by worker.new.seat ≡ taken_by worker.old.seat }
    ensures read { worker.new.cuts ≡ (look_of worker.new.seat).cuts }
    ensures unread { worker.new.cuts ≡ worker.old.cuts → result ≡ true }
{
    let last = worker.cuts;
    worker.cuts = board.progress(&mut worker.seat).cuts;
    worker.cuts == last || board.is_open(rt, &mut worker.seat, spot)
}

/// Lets the branch of a spot expand, and commits the growth. Answers whether memory was there.
#[tactic(auto, using(crate::proofs::Turning::commits))]
fn grow<'p, B: Branch, N: Name, L: Ledger, R: Wait + Sync>(
    rt: &R,
    posts: &Posts<B, N>,
    board: &Board<'p, B, N, L>,
    seat: &mut Seat<L>,
    spot: &Spot<B, N>,
) -> bool
    ensures { Counts seat.old seat.new }
{
    match posts.branch(spot).expand(rt) {
        Ok(growth) => board.commit(rt, seat, spot, growth).is_ok(),
        Err(_) => false,
    }
}

/// One turn: a worker draws the first open place, enters the gate, lets the branch expand, and commits. A spot that
/// is no longer open is dropped. Answers whether the worker stays: not where no place is open, or memory was refused.
fn turn<'p, B: Branch, N: Name, L: Ledger, G: Gate, R: Wait + Sync>(
    rt: &R,
    posts: &Posts<B, N>,
    board: &Board<'p, B, N, L>,
    gate: &G,
    worker: &mut Worker<L>,
) -> bool
    ensures { OneTurn worker.old.seat worker.new.seat }
{
    let Some(spot) = board.draw(rt, &mut worker.seat) else {
        return false;
    };
    gate.enter(worker.number);
    if !is_due(rt, board, worker, &spot) {
        return true;
    }
    grow(rt, posts, board, &mut worker.seat, &spot)
}

/// A worker takes its turns, and gives its seat back.
pub(crate) fn work<'p, B: Branch, N: Name, L: Ledger, G: Gate, R: Wait + Sync>(
    rt: &R,
    posts: &Posts<B, N>,
    board: &Board<'p, B, N, L>,
    gate: &G,
    mut worker: Worker<L>,
) -> Seat<L> {
    for _ in rt.forever() {
        if !turn(rt, posts, board, gate, &mut worker) {
            break;
        }
    }
    let Worker {
        number: _,
        seat,
        cuts: _,
    } = worker;
    seat
}
