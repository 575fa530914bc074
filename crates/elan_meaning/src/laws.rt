//! Laws of the definitions, each the contract of a call that does nothing.

ghost use Rattle.std.specs.Prelude.{◌≡◌, ℕ, suc, ℤ, ◌+◌, ◌<◌, ◌≤◌, true, false, Some};
ghost use Rattle.std.specs.Prelude.{List, [], ◌∷◌, ◌++◌, map, slice_get};
ghost use Rattle.std.specs.List.{flat_map, zip};
ghost use Rattle.elan_terms.specs.declared.tree.OpId.{OpId as OpValue};
ghost use Rattle.elan_terms.specs.declared.tree.SortId.{SortId as SortValue};
ghost use Rattle.elan_terms.specs.declared.tree.Term.{Term as TermValue};
ghost use Rattle.elan_terms.specs.declared.tree.Pattern.{Pattern as PatternValue};
ghost use Rattle.elan_program.specs.declared.strategy.Strategy.{Strategy as StrategyValue};
ghost use Rattle.elan_program.specs.declared.program.Clause.{Clause as ClauseValue};
ghost use Rattle.elan_program.specs.declared.program.Rule.{Rule as RuleValue};
ghost use Rattle.elan_program.specs.declared.program.Program.{Program as ProgramValue};
ghost use Rattle.elan_terms.specs.Trees.{int_term, app_term};
ghost use Rattle.elan_terms.specs.Term.{depth, node, sort_of};
ghost use Rattle.elan_terms.specs.Match.{matches, is_sort};
ghost use Rattle.elan_program.specs.declared.program.Clause.TheVariants.{If, Where};
ghost use Rattle.elan_program.specs.declared.program.Named.{Named as NamedValue};
ghost use Rattle.elan_program.specs.declared.strategy.StrategyNode.TheVariants as kind;
ghost use Rattle.elan_program.specs.Signature.{shapes_of};
ghost use Rattle.elan_program.specs.Strategies.{made, with_actuals};
ghost use Rattle.elan_program.specs.Extension.{unlabelled, var_pattern, int_pattern, app_pattern};
ghost use Rattle.elan_program.specs.Builtins.{reduced, is_true};
ghost use Rattle.elan_meaning.specs.declared.item.Item.{Item as ItemValue};
ghost use Rattle.elan_meaning.specs.declared.item.Item.TheVariants.{Res, Mark};
ghost use Rattle.elan_meaning.specs.declared.item.Entry.TheVariants.{At, Stop};
ghost use Rattle.elan_meaning.specs.declared.item.Cause.{Cause as CauseValue};
ghost use Rattle.elan_meaning.specs.declared.item.Cause.TheVariants.{Steps, Depth};
ghost use Rattle.elan_meaning.specs.Items.{on_results, first_of, head, first_or};
ghost use Rattle.elan_meaning.specs.Items.{rows_of, items_of, one_of, in_turn, rows};
ghost use Rattle.elan_meaning.specs.Meaning.{max_depth, value_of, pattern_of, answers};
ghost use Rattle.elan_meaning.specs.Laws.{AtMost, AtMostRows, lowered, lowered_rows};
ghost use Rattle.elan_meaning.specs.Laws.{GoesOn, RowsGoOn, strategy_items, rule_items};
ghost use Rattle.elan_meaning.specs.Laws.{clause_entries, position_items, place_items};
ghost use Rattle.elan_meaning.specs.Laws.{normal_item, node_item};

/// No result and no row of a list that is made with n steps left has more than n steps left.
pub fn steps_left()
    ensures strategy { (p : ProgramValue) (s : StrategyValue) (t : TermValue) (n : ℕ)
        → AtMost n (strategy_items p s t n) }
    ensures rule { (p : ProgramValue) (r : RuleValue) (t : TermValue) (n : ℕ)
        → AtMost n (rule_items p r t n) }
    ensures clauses { (p : ProgramValue) (cs : List ClauseValue) (a : List TermValue) (n : ℕ)
        → AtMostRows n (clause_entries p cs a n) }
    ensures positions { (p : ProgramValue) (sort : SortValue) (s : StrategyValue) (t : TermValue)
        (n : ℕ)
        → AtMost n (position_items p sort s t n) }
    ensures normal { (p : ProgramValue) (q : PatternValue) (a : List TermValue) (n : ℕ)
        → AtMost n (normal_item p q a n ∷ []) }
    ensures node { (p : ProgramValue) (u : TermValue) (n : ℕ) → AtMost n (node_item p u n ∷ []) }
    ensures answers { (p : ProgramValue) (s : StrategyValue) (q : PatternValue) (n : ℕ)
        → AtMost n (answers p s q n) }
{}

/// With more steps each list goes on as it did: what stands before its first mark `out of steps`
/// begins the longer list, and is all of it where there is no such mark.
pub fn more_steps()
    ensures strategy { (p : ProgramValue) (s : StrategyValue) (t : TermValue) (n k : ℕ)
        → GoesOn k (strategy_items p s t n) (strategy_items p s t (n + k)) }
    ensures rule { (p : ProgramValue) (r : RuleValue) (t : TermValue) (n k : ℕ)
        → GoesOn k (rule_items p r t n) (rule_items p r t (n + k)) }
    ensures clauses { (p : ProgramValue) (cs : List ClauseValue) (a : List TermValue) (n k : ℕ)
        → RowsGoOn k (clause_entries p cs a n) (clause_entries p cs a (n + k)) }
    ensures positions { (p : ProgramValue) (sort : SortValue) (s : StrategyValue) (t : TermValue)
        (n k : ℕ)
        → GoesOn k (position_items p sort s t n) (position_items p sort s t (n + k)) }
    ensures normal { (p : ProgramValue) (q : PatternValue) (a : List TermValue) (n k : ℕ)
        → GoesOn k (normal_item p q a n ∷ []) (normal_item p q a (n + k) ∷ []) }
    ensures node { (p : ProgramValue) (u : TermValue) (n k : ℕ)
        → GoesOn k (node_item p u n ∷ []) (node_item p u (n + k) ∷ []) }
    ensures answers { (p : ProgramValue) (s : StrategyValue) (q : PatternValue) (n k : ℕ)
        → GoesOn k (answers p s q n) (answers p s q (n + k)) }
{}

/// The rows of the definitions: what each list is, with the steps that stand in the row.
///
/// They are free of the levels by which the recursion is founded. Where a row goes on with the
/// steps left in an item, the lesser of these and of the steps that the item's list was made with
/// may stand as well: it changes no list.
pub fn rows_hold()
    // A pattern under an assignment. A variable gives its value.
    ensures variable { (p : ProgramValue) (x : ℕ) (sort : SortValue) (a : List TermValue) (n : ℕ)
        → normal_item p (var_pattern x sort) a n ≡ Res (value_of a x) n }
    // An integer is a node.
    ensures integer { (p : ProgramValue) (z : ℤ) (a : List TermValue) (n : ℕ)
        → normal_item p (int_pattern z) a n ≡ node_item p (int_term z) n }
    // The arguments from left to right, each with the steps that the one before left; the first
    // mark among them is the item. Then the canonical node of their results.
    ensures application { (p : ProgramValue) (op : OpValue) (qs : List PatternValue)
        (a : List TermValue) (n : ℕ)
        → normal_item p (app_pattern op qs) a n
        ≡ one_of (in_turn (map (normal_item p) qs) a n)
        (λ us m. node_item p (node (shapes_of p.signature) op us) m) }
    // A node that is too deep.
    ensures deep_node { (p : ProgramValue) (u : TermValue) (n : ℕ)
        → max_depth < depth u → node_item p u n ≡ Mark Depth }
    // Any other node, or its value where it is a reducible built-in operation: the first item of
    // the first unlabelled rule that gives any, and else that term.
    ensures node { (p : ProgramValue) (u : TermValue) (n : ℕ) → depth u ≤ max_depth
        → node_item p u n
        ≡ first_or (first_of (map (λ r. rule_items p r (reduced p.signature u) n) (unlabelled p)))
        (Res (reduced p.signature u) n) }
    // Without conditions: the assignment and the steps.
    ensures no_conditions { (p : ProgramValue) (a : List TermValue) (n : ℕ)
        → clause_entries p [] a n ≡ At a n ∷ [] }
    // An `if` whose term gives a mark: the mark is the whole list.
    ensures if_mark { (p : ProgramValue) (t : PatternValue) (cs : List ClauseValue)
        (a : List TermValue) (n : ℕ)
        (c : CauseValue)
        → normal_item p t a n ≡ Mark c → clause_entries p (If t ∷ cs) a n ≡ Stop c ∷ [] }
    // An `if` whose term gives `true`: the other conditions with the steps left.
    ensures if_true { (p : ProgramValue) (t : PatternValue) (cs : List ClauseValue)
        (a : List TermValue) (n : ℕ)
        (u : TermValue) (m : ℕ)
        → normal_item p t a n ≡ Res u m → is_true p.signature.truth u ≡ true
        → clause_entries p (If t ∷ cs) a n ≡ clause_entries p cs a m }
    // An `if` whose term gives another result: nothing.
    ensures if_other { (p : ProgramValue) (t : PatternValue) (cs : List ClauseValue)
        (a : List TermValue) (n : ℕ)
        (u : TermValue) (m : ℕ)
        → normal_item p t a n ≡ Res u m → is_true p.signature.truth u ≡ false
        → clause_entries p (If t ∷ cs) a n ≡ [] }
    // A `where` whose term gives a mark: the mark is the whole list.
    ensures where_mark { (p : ProgramValue) (left : PatternValue) (s : StrategyValue)
        (t : PatternValue)
        (cs : List ClauseValue) (a : List TermValue) (n : ℕ) (c : CauseValue)
        → normal_item p t a n ≡ Mark c
        → clause_entries p (Where left s t ∷ cs) a n ≡ Stop c ∷ [] }
    // A `where` whose term gives a result: for each item of the strategy on it the mark, or for
    // each match of the left side the other conditions, with its values after those bound before.
    ensures where_result { (p : ProgramValue) (left : PatternValue) (s : StrategyValue)
        (t : PatternValue)
        (cs : List ClauseValue) (a : List TermValue) (n : ℕ) (u : TermValue) (m : ℕ)
        → normal_item p t a n ≡ Res u m
        → clause_entries p (Where left s t ∷ cs) a n
        ≡ rows_of (strategy_items p s u m)
        (λ v k. flat_map (λ b. clause_entries p cs (a ++ b) k)
        (matches (shapes_of p.signature) left v)) }
    // A rule with no step left: a mark for each match of its left side.
    ensures rule_out { (p : ProgramValue) (r : RuleValue) (t : TermValue)
        → rule_items p r t 0
        ≡ map (λ a. Mark Steps) (matches (shapes_of p.signature) r.left t) }
    // A rule otherwise: for each match, with a step less, each entry of the conditions, where a
    // mark stays and an assignment gives the item of the right side.
    ensures rule { (p : ProgramValue) (r : RuleValue) (t : TermValue) (n : ℕ)
        → rule_items p r t (suc n)
        ≡ flat_map
        (λ a. items_of (clause_entries p r.clauses a n) (λ b m. normal_item p r.right b m ∷ []))
        (matches (shapes_of p.signature) r.left t) }
    // `id`: the term.
    ensures identity { (p : ProgramValue) (t : TermValue) (n : ℕ)
        → strategy_items p (made kind.Id) t n ≡ Res t n ∷ [] }
    // `fail`: nothing.
    ensures failure { (p : ProgramValue) (t : TermValue) (n : ℕ)
        → strategy_items p (made kind.Fail) t n ≡ [] }
    // The empty sequence: the term.
    ensures empty_sequence { (p : ProgramValue) (t : TermValue) (n : ℕ)
        → strategy_items p (made (kind.Seq [])) t n ≡ Res t n ∷ [] }
    // The first strategy, and the others on each of its results.
    ensures sequence { (p : ProgramValue) (s : StrategyValue) (ss : List StrategyValue)
        (t : TermValue) (n : ℕ)
        → strategy_items p (made (kind.Seq (s ∷ ss))) t n
        ≡ on_results (strategy_items p s t n) (strategy_items p (made (kind.Seq ss))) }
    // A label without rules: nothing.
    ensures empty_label { (p : ProgramValue) (t : TermValue) (n : ℕ)
        → strategy_items p (made (kind.Label [])) t n ≡ [] }
    // The lists of a label's rules, joined in their order.
    ensures label { (p : ProgramValue) (k : ℕ) (ks : List ℕ) (r : RuleValue) (t : TermValue) (n : ℕ)
        → slice_get p.rules k ≡ Some r
        → strategy_items p (made (kind.Label (k ∷ ks))) t n
        ≡ rule_items p r t n ++ strategy_items p (made (kind.Label ks)) t n }
    // A call with no step left.
    ensures call_out { (p : ProgramValue) (d : ℕ) (actuals : List StrategyValue) (t : TermValue)
        → strategy_items p (made (kind.Call d actuals)) t 0 ≡ Mark Steps ∷ [] }
    // A call: its body with its actuals in the places of its parameters, with a step less.
    ensures call { (p : ProgramValue) (d : ℕ) (actuals : List StrategyValue) (named : NamedValue)
        (t : TermValue) (n : ℕ)
        → slice_get p.named d ≡ Some named
        → strategy_items p (made (kind.Call d actuals)) t (suc n)
        ≡ strategy_items p (with_actuals actuals named.body) t n }
    // A parameter has no list.
    ensures parameter { (p : ProgramValue) (k : ℕ) (t : TermValue) (n : ℕ)
        → strategy_items p (made (kind.Param k)) t n ≡ [] }
    // `dk`: the lists of the arms, joined.
    ensures all { (p : ProgramValue) (ss : List StrategyValue) (t : TermValue) (n : ℕ)
        → strategy_items p (made (kind.All ss)) t n ≡ flat_map (λ s. strategy_items p s t n) ss }
    // `first`: the first of the arms' lists that is not empty.
    ensures first { (p : ProgramValue) (ss : List StrategyValue) (t : TermValue) (n : ℕ)
        → strategy_items p (made (kind.First false ss)) t n
        ≡ first_of (map (λ s. strategy_items p s t n) ss) }
    // `first one`: its first item.
    ensures first_one { (p : ProgramValue) (ss : List StrategyValue) (t : TermValue) (n : ℕ)
        → strategy_items p (made (kind.First true ss)) t n
        ≡ head (first_of (map (λ s. strategy_items p s t n) ss)) }
    // `repeat*` with no step left.
    ensures repeat_out { (p : ProgramValue) (s : StrategyValue) (t : TermValue)
        → strategy_items p (made (kind.Repeat s)) t 0 ≡ Mark Steps ∷ [] }
    // `repeat*` where its strategy gives nothing: the term, with a step less.
    ensures repeat_end { (p : ProgramValue) (s : StrategyValue) (t : TermValue) (n : ℕ)
        → strategy_items p s t n ≡ []
        → strategy_items p (made (kind.Repeat s)) t (suc n) ≡ Res t n ∷ [] }
    // `repeat*` where its strategy gives something: `repeat*` again on each result.
    ensures repeat { (p : ProgramValue) (s : StrategyValue) (t : TermValue) (n : ℕ) (i : ItemValue)
        (is : List ItemValue)
        → strategy_items p s t n ≡ i ∷ is
        → strategy_items p (made (kind.Repeat s)) t (suc n)
        ≡ on_results (i ∷ is) (strategy_items p (made (kind.Repeat s))) }
    // `iterate*` with no step left.
    ensures iterate_out { (p : ProgramValue) (s : StrategyValue) (t : TermValue)
        → strategy_items p (made (kind.Iterate s)) t 0 ≡ Mark Steps ∷ [] }
    // `iterate*`: the term, with a step less, and then `iterate*` again on each result.
    ensures iterate { (p : ProgramValue) (s : StrategyValue) (t : TermValue) (n : ℕ)
        → strategy_items p (made (kind.Iterate s)) t (suc n)
        ≡ Res t n ∷ on_results (strategy_items p s t n) (strategy_items p (made (kind.Iterate s))) }
    // `iterate+` with no step left.
    ensures iterate_plus_out { (p : ProgramValue) (s : StrategyValue) (t : TermValue)
        → strategy_items p (made (kind.IteratePlus s)) t 0 ≡ Mark Steps ∷ [] }
    // `iterate+`: `iterate*` on each result, with a step less.
    ensures iterate_plus { (p : ProgramValue) (s : StrategyValue) (t : TermValue) (n : ℕ)
        → strategy_items p (made (kind.IteratePlus s)) t (suc n)
        ≡ on_results (strategy_items p s t n) (strategy_items p (made (kind.Iterate s))) }
    // `normalise`: the strategy at the positions of the sort, and each result normalised whole.
    ensures normalise { (p : ProgramValue) (s : StrategyValue) (t : TermValue) (sort : SortValue)
        (n : ℕ)
        → strategy_items p (made (kind.Normalise sort s)) t n
        ≡ on_results (position_items p sort s t n)
        (λ u m. normal_item p (pattern_of u) [] m ∷ []) }
    // A congruence on an integer: nothing.
    ensures congruence_integer { (p : ProgramValue) (op : OpValue) (ss : List StrategyValue)
        (z : ℤ) (n : ℕ)
        → strategy_items p (made (kind.Cong op ss)) (int_term z) n ≡ [] }
    // A congruence on a term that another operator heads: nothing.
    ensures congruence_other { (p : ProgramValue) (op : OpValue) (ss : List StrategyValue)
        (headed : OpValue)
        (us : List TermValue) (n : ℕ)
        → (op.0 ≡ headed.0 → ⊥)
        → strategy_items p (made (kind.Cong op ss)) (app_term headed us) n ≡ [] }
    // A congruence: the arguments from left to right, each with all items of its strategy, the
    // steps running on and each mark standing alone; each row of results is normalised whole.
    ensures congruence { (p : ProgramValue) (op : OpValue) (ss : List StrategyValue)
        (us : List TermValue) (n : ℕ)
        → strategy_items p (made (kind.Cong op ss)) (app_term op us) n
        ≡ items_of (rows (map (λ x. strategy_items p x.0 x.1) (zip ss us)) n)
        (λ vs m. normal_item p (pattern_of (app_term op vs)) [] m ∷ []) }
    // A strategy at the positions of a sort: an integer is a node.
    ensures positions_integer { (p : ProgramValue) (sort : SortValue) (s : StrategyValue) (z : ℤ)
        (n : ℕ)
        → position_items p sort s (int_term z) n ≡ place_items p sort s (int_term z) n }
    // The arguments from left to right, each with all items of its own positions, the steps running
    // on and each mark standing alone; then the canonical node of each row of results.
    ensures positions { (p : ProgramValue) (sort : SortValue) (s : StrategyValue) (op : OpValue)
        (us : List TermValue) (n : ℕ)
        → position_items p sort s (app_term op us) n
        ≡ items_of (rows (map (position_items p sort s) us) n)
        (λ vs m. place_items p sort s (node (shapes_of p.signature) op vs) m) }
    // A node that is too deep.
    ensures deep_place { (p : ProgramValue) (sort : SortValue) (s : StrategyValue) (u : TermValue)
        (n : ℕ)
        → max_depth < depth u → place_items p sort s u n ≡ Mark Depth ∷ [] }
    // A node of another sort stays.
    ensures other_place { (p : ProgramValue) (sort : SortValue) (s : StrategyValue) (u : TermValue)
        (n : ℕ)
        → depth u ≤ max_depth → is_sort (sort_of (shapes_of p.signature) u) sort ≡ false
        → place_items p sort s u n ≡ Res u n ∷ [] }
    // A node of the sort, with no step left.
    ensures place_out { (p : ProgramValue) (sort : SortValue) (s : StrategyValue) (u : TermValue)
        → depth u ≤ max_depth → is_sort (sort_of (shapes_of p.signature) u) sort ≡ true
        → place_items p sort s u 0 ≡ Mark Steps ∷ [] }
    // A node of the sort on which the strategy gives nothing: the node, with a step less.
    ensures place_end { (p : ProgramValue) (sort : SortValue) (s : StrategyValue) (u : TermValue)
        (n : ℕ)
        → depth u ≤ max_depth → is_sort (sort_of (shapes_of p.signature) u) sort ≡ true
        → strategy_items p s u n ≡ [] → place_items p sort s u (suc n) ≡ Res u n ∷ [] }
    // A node of the sort on which the strategy gives something: the positions of each result again.
    ensures place { (p : ProgramValue) (sort : SortValue) (s : StrategyValue) (u : TermValue)
        (n : ℕ)
        (i : ItemValue) (is : List ItemValue)
        → depth u ≤ max_depth → is_sort (sort_of (shapes_of p.signature) u) sort ≡ true
        → strategy_items p s u n ≡ i ∷ is
        → place_items p sort s u (suc n) ≡ on_results (i ∷ is) (position_items p sort s) }
    // The answers: the start strategy on the normalised query.
    ensures answers { (p : ProgramValue) (start : StrategyValue) (query : PatternValue) (n : ℕ)
        → answers p start query n
        ≡ on_results (normal_item p query [] n ∷ []) (strategy_items p start) }
    // The lesser of the steps left in each item and of those that its list was made with.
    ensures lesser_strategy { (p : ProgramValue) (s : StrategyValue) (t : TermValue) (n : ℕ)
        → lowered n (strategy_items p s t n) ≡ strategy_items p s t n }
    ensures lesser_node { (p : ProgramValue) (u : TermValue) (n : ℕ)
        → lowered n (node_item p u n ∷ []) ≡ node_item p u n ∷ [] }
    ensures lesser_rule { (p : ProgramValue) (r : RuleValue) (t : TermValue) (n : ℕ)
        → lowered n (rule_items p r t n) ≡ rule_items p r t n }
    ensures lesser_conditions { (p : ProgramValue) (cs : List ClauseValue) (a : List TermValue)
        (n : ℕ)
        → lowered_rows n (clause_entries p cs a n) ≡ clause_entries p cs a n }
    ensures lesser_positions { (p : ProgramValue) (sort : SortValue) (s : StrategyValue)
        (t : TermValue) (n : ℕ)
        → lowered n (position_items p sort s t n) ≡ position_items p sort s t n }
    ensures lesser_normal { (p : ProgramValue) (q : PatternValue) (a : List TermValue) (n : ℕ)
        → lowered n (normal_item p q a n ∷ []) ≡ normal_item p q a n ∷ [] }
{}
