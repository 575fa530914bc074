//! What holds of choices, of what is left of a list, and of what a value takes of some arguments. Each
//! law is the contract of a call that does nothing.
ghost use Rattle.std.specs.Prelude.{◌≡◌, ◌≤◌, ◌<◌, ◌+◌, ◌*◌, ◌⊎◌, ℕ, List, length, take};
ghost use Rattle.elan_terms.specs.declared.tree.Term.{Term as TermValue};
ghost use Rattle.elan_terms.specs.Ascending.{Ascends};
ghost use Rattle.elan_laws.specs.Parts.{SomeOf, times as count};
ghost use Rattle.elan_bags.specs.Choices.{BeginsAfter, NotAfterList};
ghost use Rattle.elan_bags.specs.Bags.{IsLeft, IsOver};

/// A list that does not come before another begins with the same terms or with greater ones: so
/// where no list that begins with some terms will do, the next that may do begins after them.
#[tactic(auto, using(crate::proofs::LawLemmas::choice_laws))]
pub fn choices_come_in_order()
    ensures { (k : ℕ) (xs ys : List TermValue) → k ≤ length xs → NotAfterList xs ys →
        (take k xs ≡ take k ys) ⊎ BeginsAfter (take k xs) ys }
{}

/// Lists that ascend and hold each term as often are equal; lists that hold each term as often have
/// one length. What is left of a list and what was taken away have its length together.
#[tactic(auto, using(crate::proofs::LawLemmas::bag_laws))]
pub fn bags_are_shared()
    ensures equal { (us ts : List TermValue) → Ascends us → Ascends ts →
        ((t : TermValue) → count t us ≡ count t ts) → us ≡ ts }
    ensures long { (us ts : List TermValue) → ((t : TermValue) → count t us ≡ count t ts) →
        length us ≡ length ts }
    ensures left { (us vs ws : List TermValue) → IsLeft us vs ws → length us ≡ length vs + length ws }
{}

/// Where the arguments of a node are so many times those of a value, and others, the arguments of
/// the value are some of those that are there so many times, and the numbers of arguments add up.
#[tactic(auto, using(crate::proofs::LawLemmas::share_laws))]
pub fn values_are_shares()
    ensures among { (many : ℕ) (us ms os ws : List TermValue) → 0 < many → Ascends ms → IsOver many us ws →
        ((t : TermValue) → count t us ≡ many * count t ms + count t os) → SomeOf ms ws }
    ensures long { (many : ℕ) (us ms os : List TermValue) →
        ((t : TermValue) → count t us ≡ many * count t ms + count t os) → length us ≡ many * length ms + length os }
{}
