//! The law, as the contract of a call that does nothing.

ghost use Rattle.std.specs.Prelude.{◌≡◌, ℕ, true, List, [], ◌∷◌, Some};
ghost use Rattle.std.specs.List.{Contains};
ghost use Rattle.elan_terms.specs.declared.tree.SortId.{SortId as SortValue};
ghost use Rattle.elan_terms.specs.declared.tree.Term.{Term as TermValue};
ghost use Rattle.elan_terms.specs.declared.tree.Pattern.{Pattern as PatternValue};
ghost use Rattle.elan_program.specs.declared.strategy.Strategy.{Strategy as StrategyValue};
ghost use Rattle.elan_program.specs.declared.program.Clause.{Clause as ClauseValue};
ghost use Rattle.elan_program.specs.declared.program.Rule.{Rule as RuleValue};
ghost use Rattle.elan_program.specs.declared.program.Program.{Program as ProgramValue};
ghost use Rattle.elan_program.specs.Signature.{shapes_of};
ghost use Rattle.elan_program.specs.Extension.{unlabelled};
ghost use Rattle.elan_program.specs.Validity.{IsValid, bound_by, is_valid_rule};
ghost use Rattle.elan_terms.specs.Valid.{IsValidOf};
ghost use Rattle.elan_terms.specs.Canonical.{IsCanonical};
ghost use Rattle.elan_meaning.specs.Meaning.{answers};
ghost use Rattle.elan_meaning.specs.Laws.{strategy_items, rule_items, clause_entries};
ghost use Rattle.elan_meaning.specs.Laws.{position_items, normal_item, node_item};
ghost use Rattle.elan_kinds.specs.Kinds.{IsKind, Given, Results, Rows, IsWell, IsFor};

/// In a valid program each result of a list is a valid, canonical term of the right sort that is at
/// most 2,000 deep, where the list is made of such a term or of such values of variables.
pub fn results_keep_their_kind()
    // A strategy that is valid at a sort, on a term of that sort's kind.
    ensures strategy { (p : ProgramValue) (s : SortValue) (by : StrategyValue) (t : TermValue)
        (n : ℕ)
        → IsValid p → IsFor p s by → IsKind p s t
        → Results (IsKind p s) (strategy_items p by t n) }
    // A valid rule, on a term of any sort's kind.
    ensures rule { (p : ProgramValue) (r : RuleValue) (s : SortValue) (t : TermValue) (n : ℕ)
        → IsValid p → is_valid_rule p r ≡ true → IsKind p s t
        → Results (IsKind p s) (rule_items p r t n) }
    // A rule that normalising tries, the extension rules among them.
    ensures tried { (p : ProgramValue) (r : RuleValue) (s : SortValue) (t : TermValue) (n : ℕ)
        → IsValid p → Contains (unlabelled p) r → IsKind p s t
        → Results (IsKind p s) (rule_items p r t n) }
    // Conditions that bind variables, under values of the kinds of those bound before.
    ensures clauses { (p : ProgramValue) (cs : List ClauseValue)
        (bound later : List (ℕ × SortValue))
        (a : List TermValue) (n : ℕ)
        → IsValid p → bound_by p bound cs ≡ Some later → Given p bound a
        → Rows (Given p later) (clause_entries p cs a n) }
    // A strategy that is valid at a sort, at the positions of that sort in a term of any kind.
    ensures positions { (p : ProgramValue) (place s : SortValue) (by : StrategyValue)
        (t : TermValue) (n : ℕ)
        → IsValid p → IsFor p place by → IsKind p s t
        → Results (IsKind p s) (position_items p place by t n) }
    // A well-sorted pattern, under values of its variables' kinds.
    ensures normal { (p : ProgramValue) (q : PatternValue) (bound : List (ℕ × SortValue))
        (a : List TermValue)
        (s : SortValue) (n : ℕ)
        → IsValid p → IsWell p bound s q → Given p bound a
        → Results (IsKind p s) (normal_item p q a n ∷ []) }
    // A valid canonical node of a sort, of any depth.
    ensures node { (p : ProgramValue) (s : SortValue) (u : TermValue) (n : ℕ)
        → IsValid p → IsValidOf (shapes_of p.signature) s u
        → IsCanonical (shapes_of p.signature) u
        → Results (IsKind p s) (node_item p u n ∷ []) }
    // A start strategy that is valid at the sort of the query.
    ensures answers { (p : ProgramValue) (s : SortValue) (by : StrategyValue) (q : PatternValue)
        (n : ℕ)
        → IsValid p → IsFor p s by → IsWell p [] s q
        → Results (IsKind p s) (answers p by q n) }
{}
