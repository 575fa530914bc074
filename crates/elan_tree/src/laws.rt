//! What holds of the definitions alone.
ghost use Rattle.std.specs.Prelude.{◌≡◌, ℕ, ◌<◌, ◌≤◌, List, [], map, take, length, Bool, Some};
ghost use Rattle.elan_tree.specs.Tree.{Tree, Cat, none};
ghost use Rattle.elan_tree.specs.Moves.{State, Step};
ghost use Rattle.elan_tree.specs.Core.{whole, CoreRun, GrowsTo, ResumesTo};
ghost use Rattle.elan_tree.specs.Normal.{IsSettled, AnyResume};
ghost use Rattle.elan_tree.specs.Places.{places, first_at, put};

/// Over every list of core steps from an open root, and over each single step.
pub fn core_run<I, O, K, M>()
    // At most the limit is released.
    ensures within { (means : I → M) (at : O → List M) (after : K → M → List M) (limit : ℕ)
        (root : O) (s : State I O K) →
        CoreRun means at after limit root s → length s.released ≤ limit }
    // The first items of the released ones followed by the tree's list are the first items of the root.
    ensures first { (means : I → M) (at : O → List M) (after : K → M → List M) (limit : ℕ)
        (root : O) (s : State I O K) →
        CoreRun means at after limit root s → take limit (whole means at after s) ≡ take limit (at root) }
    // Where the tree is empty, the released items are those.
    ensures over { (means : I → M) (at : O → List M) (after : K → M → List M) (limit : ℕ)
        (root : O) (s : State I O K) →
        CoreRun means at after limit root s → s.tree ≡ Cat none → map means s.released ≡ take limit (at root) }
    // Each step keeps both, from every state with at most the limit released.
    ensures keeps { (means : I → M) (at : O → List M) (after : K → M → List M)
        (limit : ℕ) (s t : State I O K) →
        Step (GrowsTo means at after) (ResumesTo means at after) limit s t → length s.released ≤ limit →
        (length t.released ≤ limit) × (take limit (whole means at after t) ≡ take limit (whole means at after s)) }
{}

/// While fewer items are released than the limit allows, nothing is lost.
pub fn whole_before_stop<I, O, K, M>()
    // The released items followed by the tree's list are all of the root's items.
    ensures whole { (means : I → M) (at : O → List M) (after : K → M → List M) (limit : ℕ)
        (root : O) (s : State I O K) →
        CoreRun means at after limit root s → length s.released < limit → whole means at after s ≡ at root }
    // Each step keeps them. No step is the stop there, which needs the limit to be released.
    ensures keeps { (means : I → M) (at : O → List M) (after : K → M → List M)
        (limit : ℕ) (s t : State I O K) →
        Step (GrowsTo means at after) (ResumesTo means at after) limit s t → length s.released < limit →
        whole means at after t ≡ whole means at after s }
{}

/// A settled tree without an open place is empty.
pub fn settled_empty<I, O, K>()
    ensures { (limit : ℕ) (s : State I O K) → length s.released ≤ limit → IsSettled limit s
        → places s.tree ≡ [] → s.tree ≡ Cat none }
{}

/// Putting a tree at the leftmost open place that passes a test is one step of growing, at that place.
pub fn put_is_a_step<I, O, K>()
    ensures { (test : O → Bool) (limit : ℕ) (released : List I) (t u : Tree I O K) (p : O)
        → first_at test t ≡ Some p →
        Step (λ o v. (o ≡ p) × (v ≡ u)) AnyResume limit record { released = released; tree = t } record { released = released; tree = put test u t } }
{}
