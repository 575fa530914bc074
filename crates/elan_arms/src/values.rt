//! Which values of the variables make a pattern a term. Each law is the contract of a call that does
//! nothing.

ghost use Rattle.std.specs.Prelude.{◌≡◌, ◌↔◌, ℕ, List};
ghost use Rattle.std.specs.List.{All, Contains};
ghost use Rattle.elan_terms.specs.declared.tree.Term.{Term as TermValue};
ghost use Rattle.elan_terms.specs.declared.tree.Pattern.{Pattern as PatternValue};
ghost use Rattle.elan_terms.specs.declared.tree.Shapes.{Shapes as ShapesValue};
ghost use Rattle.elan_terms.specs.Match.{occurrences, variables, parts, instance, matches};
ghost use Rattle.elan_arms.specs.Values.{IsProper, AreProper, AgreeOn, Makes};

/// Only the values of the variables that occur count.
pub fn values_decide()
    ensures places { (shapes : ShapesValue) (value other : ℕ → TermValue) (p : PatternValue)
        → AgreeOn value other (occurrences p) → instance shapes value p ≡ instance shapes other p }
    ensures variables { (shapes : ShapesValue) (value other : ℕ → TermValue) (p : PatternValue)
        → AgreeOn value other (variables p) → instance shapes value p ≡ instance shapes other p }
{}

/// Where a pattern is a valid canonical term, values that are valid and canonical are parts of the
/// term. So the matches are the lists of such values that make the pattern the term.
pub fn values_are_parts()
    ensures parts { (shapes : ShapesValue) (value : ℕ → TermValue) (p : PatternValue) (t : TermValue)
        → IsProper shapes t → AreProper shapes value p → instance shapes value p ≡ t
        → All (λ v. Contains (parts shapes t) (value v.0)) (occurrences p) }
    ensures matches { (shapes : ShapesValue) (p : PatternValue) (t : TermValue)
        (values : List TermValue) → IsProper shapes t
        → Contains (matches shapes p t) values ↔ Makes shapes p t values }
{}
