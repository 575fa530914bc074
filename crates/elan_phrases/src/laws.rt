//! What holds of sort expressions and strategies. Each law is the contract of a call that does nothing.

ghost use Rattle.std.specs.Prelude.{◌≡◌, ◌<◌, ◌↔◌, ℕ, List, [], ◌∷◌, ◌++◌, length, count_by, true};
ghost use Rattle.elan_forms.specs.Whole.{EndsWith, IsFirstMark, Possible};
ghost use Rattle.elan_phrases.specs.SortExpressions.{sort, most_sort_names};
ghost use Rattle.elan_phrases.specs.Strategies.{strategy, most_strategy_tokens};
ghost use Rattle.elan_phrases.specs.Symbols.{Seen, a, names};

/// A front of a sort expression counts as too long exactly where it ends with a name and has more than 64 names.
pub fn long_sort_expressions()
    ensures { (n : ℕ) (front : List Seen) → (sort most_sort_names).marks n front
        ↔ (EndsWith (a names) front × (64 < count_by (a names) front) × Possible ((sort most_sort_names).words n) front) }
{}

/// The first token that is one too many for a sort expression is its 65th name.
pub fn sixty_fifth_name()
    ensures { (n : ℕ) (front : List Seen) (token : Seen)
        → IsFirstMark ((sort most_sort_names).marks n) front token
        ↔ ((a names token ≡ true) × (count_by (a names) front ≡ 64)
        × Possible ((sort most_sort_names).words n) (front ++ token ∷ [])) }
{}

/// A front of a strategy counts as too long exactly where it has more than 256 tokens.
pub fn long_strategies()
    ensures { (n : ℕ) (front : List Seen) → (strategy most_strategy_tokens).marks n front
        ↔ ((256 < length front) × Possible ((strategy most_strategy_tokens).words n) front) }
{}

/// The first token that is one too many for a strategy is its 257th token.
pub fn two_hundred_fifty_seventh_token()
    ensures { (n : ℕ) (front : List Seen) (token : Seen)
        → IsFirstMark ((strategy most_strategy_tokens).marks n) front token
        ↔ ((length front ≡ 256) × Possible ((strategy most_strategy_tokens).words n) (front ++ token ∷ [])) }
{}
