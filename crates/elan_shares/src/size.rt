//! How many arguments each place of the variable may take.
ghost use Rattle.std.specs.Prelude.{◌≡◌, ◌<◌, ◌↔◌, IsTrue};
ghost use Rattle.elan_shares.specs.Sizes.{Leaves, Fits, FindsNext};

use crate::share::Places;

/// Whether enough of the arguments are left where so many are taken.
fn leaves_enough(places: &Places, count: usize, taken: usize) -> bool
    ensures { IsTrue result ↔ Leaves places.now count taken }
{
    match count.checked_sub(taken) {
        None => false,
        Some(left) => match left.checked_sub(places.others) {
            None => false,
            Some(rest) => {
                if places.free == 0 {
                    rest == 0
                } else {
                    places.free <= rest
                }
            }
        },
    }
}

/// Whether each place of the variable may take so many of the arguments.
#[tactic(auto, using(crate::proofs::SizeLemmas::sizes))]
pub(crate) fn may_take(places: &Places, count: usize, many: usize) -> bool
    ensures { IsTrue result ↔ Fits places.now count many }
{
    match places.sought.checked_mul(many) {
        None => false,
        Some(taken) => leaves_enough(places, count, taken),
    }
}

/// The same where no other variable has a place: then there is one number at most.
#[tactic(auto, using(crate::proofs::SizeLemmas::sizes))]
fn only_size(places: &Places, count: usize, past: usize) -> Option<usize>
    requires sought { 0 < places.now.sought }
    requires none_free { places.now.free ≡ 0 }
    ensures { FindsNext places.now count past result }
{
    let many = count.saturating_sub(places.others) / places.sought;
    if past < many && may_take(places, count, many) {
        Some(many)
    } else {
        None
    }
}

/// The same where another variable has a place: then the next number will do, or none.
#[tactic(auto, using(crate::proofs::SizeLemmas::sizes))]
fn size_after(places: &Places, count: usize, past: usize) -> Option<usize>
    requires sought { 0 < places.now.sought }
    requires free { 0 < places.now.free }
    ensures { FindsNext places.now count past result }
{
    match past.checked_add(1) {
        None => None,
        Some(many) => {
            if may_take(places, count, many) {
                Some(many)
            } else {
                None
            }
        }
    }
}

/// The least number above `past` that each place of the variable may take, if there is one.
pub(crate) fn next_size(places: &Places, count: usize, past: usize) -> Option<usize>
    requires { 0 < places.now.sought }
    ensures { FindsNext places.now count past result }
{
    if places.free == 0 {
        only_size(places, count, past)
    } else {
        size_after(places, count, past)
    }
}
