//! What the arguments of a node are that a pattern makes. Each law is the contract of a call that
//! does nothing.

ghost use Rattle.std.specs.Prelude.{◌≡◌, ◌≤◌, ◌↔◌, ℕ, List, [], ◌∷◌, length, IsTrue, IsFalse};
ghost use Rattle.std.specs.List.{All, AllZip};
ghost use Rattle.elan_terms.specs.declared.tree.OpId.{OpId as OpValue};
ghost use Rattle.elan_terms.specs.declared.tree.Term.{Term as TermValue};
ghost use Rattle.elan_terms.specs.declared.tree.Pattern.{Pattern as PatternValue};
ghost use Rattle.elan_terms.specs.declared.tree.Shapes.{Shapes as ShapesValue};
ghost use Rattle.elan_terms.specs.Trees.{app_term};
ghost use Rattle.elan_terms.specs.Term.{is_ac};
ghost use Rattle.elan_terms.specs.Match.{instance, may_fit};
ghost use Rattle.elan_terms.specs.Ascending.{Ascends};
ghost use Rattle.elan_laws.specs.Parts.{times};
ghost use Rattle.elan_arms.specs.Arms.{app_pattern, is_variable, heads, taken_apart, arms, times_brought, many_brought};
ghost use Rattle.elan_arms.specs.Values.{AreProper};

/// Under an associative and commutative operator the arguments ascend, and each term stands among
/// them as often as the patterns bring it, all together: where arguments ascend, the pattern is the
/// operator over them exactly where that holds of them.
pub fn arguments_are_brought()
    ensures ascend { (shapes : ShapesValue) (value : ℕ → TermValue) (op : OpValue)
        (ps : List PatternValue) (ts : List TermValue) → IsTrue (is_ac shapes op)
        → instance shapes value (app_pattern op ps) ≡ app_term op ts → Ascends ts }
    ensures some { (shapes : ShapesValue) (value : ℕ → TermValue) (op : OpValue)
        (ps : List PatternValue)
        → (ts : List TermValue) × (instance shapes value (app_pattern op ps) ≡ app_term op ts) }
    ensures exactly { (shapes : ShapesValue) (value : ℕ → TermValue) (op : OpValue)
        (ps : List PatternValue) (ts : List TermValue) → IsTrue (is_ac shapes op) → Ascends ts →
        (instance shapes value (app_pattern op ps) ≡ app_term op ts)
        ↔ ((u : TermValue) → times u ts ≡ times_brought shapes value op u ps) }
    ensures many { (shapes : ShapesValue) (value : ℕ → TermValue) (op : OpValue)
        (ps : List PatternValue) (ts : List TermValue) → IsTrue (is_ac shapes op)
        → instance shapes value (app_pattern op ps) ≡ app_term op ts
        → length ts ≡ many_brought shapes value op ps }
{}

/// A pattern that the operator heads itself brings what its own patterns bring. So it may give way
/// to them: what the patterns bring stays the same, and what they make.
pub fn nested_patterns_give_way()
    ensures nested { (shapes : ShapesValue) (value : ℕ → TermValue) (op : OpValue) (u : TermValue)
        (ps : List PatternValue) → IsTrue (is_ac shapes op)
        → times u (arms shapes value op (app_pattern op ps)) ≡ times_brought shapes value op u ps }
    ensures many { (shapes : ShapesValue) (value : ℕ → TermValue) (op : OpValue)
        (ps : List PatternValue) → IsTrue (is_ac shapes op)
        → length (arms shapes value op (app_pattern op ps)) ≡ many_brought shapes value op ps }
    ensures apart { (shapes : ShapesValue) (value : ℕ → TermValue) (op : OpValue) (u : TermValue)
        (ps : List PatternValue) → IsTrue (is_ac shapes op)
        → times_brought shapes value op u (taken_apart op ps) ≡ times_brought shapes value op u ps }
    ensures same { (shapes : ShapesValue) (value : ℕ → TermValue) (op : OpValue)
        (ps : List PatternValue) → IsTrue (is_ac shapes op)
        → instance shapes value (app_pattern op (taken_apart op ps)) ≡ instance shapes value (app_pattern op ps) }
    ensures none { (op : OpValue) (ps : List PatternValue)
        → All (λ p. IsFalse (heads op p)) (taken_apart op ps) }
{}

/// A pattern that is no variable and that the operator does not head brings one term, its instance.
/// A variable with a valid value brings at least one, and so does each such pattern.
pub fn patterns_bring_terms()
    ensures one { (shapes : ShapesValue) (value : ℕ → TermValue) (op : OpValue) (p : PatternValue)
        → IsFalse (is_variable p) → IsFalse (heads op p)
        → arms shapes value op p ≡ instance shapes value p ∷ [] }
    ensures some { (shapes : ShapesValue) (value : ℕ → TermValue) (op : OpValue) (p : PatternValue)
        → IsTrue (is_ac shapes op) → IsFalse (heads op p) → AreProper shapes value p
        → 1 ≤ length (arms shapes value op p) }
{}

/// Under any other operator the pattern is a term exactly where the two operators are one, and each
/// pattern is the argument in its place, and there are as many of the ones as of the others. Under
/// every operator the heads of the pattern and the term agree.
pub fn places_agree()
    ensures exactly { (shapes : ShapesValue) (value : ℕ → TermValue) (op f : OpValue)
        (ps : List PatternValue) (ts : List TermValue) → IsFalse (is_ac shapes op) →
        (instance shapes value (app_pattern op ps) ≡ app_term f ts)
        ↔ ((op ≡ f) × AllZip (λ p t. instance shapes value p ≡ t) ps ts) }
    ensures heads { (shapes : ShapesValue) (value : ℕ → TermValue) (p : PatternValue) (t : TermValue)
        → instance shapes value p ≡ t → IsTrue (may_fit p t) }
{}
