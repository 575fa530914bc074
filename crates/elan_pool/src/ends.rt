//! Where a worker takes from: its own deque, and those of the others.
ghost use Rattle.std.specs.Prelude.{◌≡◌, ◌≢◌, ℕ, ◌<◌, ◌≤◌, List, IfNone, IfSome, MatchOption};
ghost use Rattle.elan_pool.specs.Taking.{Same, Took, NoFall, Misses, Rose, Found, FoundNone};

use elan_tree::name::Name;
use elan_tree::posts::Spot;

/// The ends of the deques that one worker has.
pub trait Ends<B, N: Name> {
    /// How many deques there are.
    ghost count: { Self → ℕ };

    /// Which deque is its own.
    ghost mine: { Self → ℕ };

    /// The numbers of the spots taken so far, by deque.
    ghost taken: { Self → ℕ → List ℕ };

    /// How often each deque was found empty, or another was quicker.
    ghost missed: { Self → ℕ → ℕ };

    /// The numbers of the spots put into the own deque, which no call here changes.
    ghost put: { Self → List ℕ };

    /// How many slots the own deque had when it was made.
    ghost room: { Self → ℕ };

    fn deques(&self) -> u32
        ensures { result ≡ count self.now };

    fn own(&self) -> u32
        ensures value { result ≡ mine self.now }
        ensures below { result < count self.now };

    /// Takes the first spot of the own deque.
    fn pop(&mut self) -> Option<Spot<B, N>>
        ensures same { (count self.new ≡ count self.old) × (mine self.new ≡ mine self.old) }
        ensures kept { (put self.new ≡ put self.old) × (room self.new ≡ room self.old) }
        ensures taken { MatchOption result
            (Same (taken self.old) (taken self.new))
            (λ s. Took (mine self.old) s.index (taken self.old) (taken self.new)) }
        ensures misses { Misses (mine self.old) (missed self.old) (missed self.new) }
        ensures missed { IfNone result (Rose (missed self.old (mine self.old)) (missed self.new (mine self.old))) };

    /// Takes the first spot of another deque.
    fn steal(&mut self, deque: u32) -> Option<Spot<B, N>>
        requires { (deque < count self.old) × (deque ≢ mine self.old) }
        ensures same { (count self.new ≡ count self.old) × (mine self.new ≡ mine self.old) }
        ensures kept { (put self.new ≡ put self.old) × (room self.new ≡ room self.old) }
        ensures taken { MatchOption result
            (Same (taken self.old) (taken self.new))
            (λ s. Took deque s.index (taken self.old) (taken self.new)) }
        ensures misses { Misses deque (missed self.old) (missed self.new) }
        ensures missed { IfNone result (Rose (missed self.old deque) (missed self.new deque)) };

    /// How often the deque gave nothing. At the greatest number of 64 bits it stays.
    fn misses(&self, deque: u32) -> u64
        requires { deque < count self.now }
        ensures { result ≡ missed self.now deque };
}

/// Takes from the own deque, or else from the first of the others, by number, that gives one.
pub fn take_by<B, N: Name, E: Ends<B, N>>(ends: &mut E) -> Option<Spot<B, N>>
    ensures same { (E.count ends.new ≡ E.count ends.old) × (E.mine ends.new ≡ E.mine ends.old) }
    ensures kept { (E.put ends.new ≡ E.put ends.old) × (E.room ends.new ≡ E.room ends.old) }
    ensures taken { MatchOption result
        (FoundNone (E.count ends.old) (E.taken ends.old) (E.taken ends.new)
        (E.missed ends.old) (E.missed ends.new))
        (λ s. Found (E.count ends.old) (E.mine ends.old) s.index (E.taken ends.old) (E.taken ends.new)
        (E.missed ends.old) (E.missed ends.new)) }
    ensures fall { NoFall (E.missed ends.old) (E.missed ends.new) }
{
    let own = ends.own();
    if let Some(spot) = ends.pop() {
        return Some(spot);
    }
    let deques = ends.deques();
    'others: for deque in 0..deques {
        if let Some(spot) = take_from(ends, own, deque) {
            return Some(spot);
        }
    }
    None
}

/// Takes the first spot of a deque, where that is not the own one.
fn take_from<B, N: Name, E: Ends<B, N>>(ends: &mut E, own: u32, deque: u32) -> Option<Spot<B, N>>
    requires { (deque < E.count ends.old) × (own ≡ E.mine ends.old) }
    ensures same { (E.count ends.new ≡ E.count ends.old) × (E.mine ends.new ≡ E.mine ends.old) }
    ensures kept { (E.put ends.new ≡ E.put ends.old) × (E.room ends.new ≡ E.room ends.old) }
    ensures taken { MatchOption result
        (Same (E.taken ends.old) (E.taken ends.new))
        (λ s. Took deque s.index (E.taken ends.old) (E.taken ends.new)) }
    ensures other { IfSome result (λ _. deque ≢ E.mine ends.old) }
    ensures misses { Misses deque (E.missed ends.old) (E.missed ends.new) }
    ensures missed { IfNone result (deque ≢ E.mine ends.old
        → Rose (E.missed ends.old deque) (E.missed ends.new deque)) }
{
    if deque == own {
        return None;
    }
    ends.steal(deque)
}
