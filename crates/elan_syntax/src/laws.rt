//! What holds of every list of tokens. Each law is the contract of a call that does nothing.

ghost use Rattle.std.specs.Prelude.{◌≡◌, ◌⊎◌, ◌↔◌, ℕ, List};
ghost use Rattle.elan_text.specs.declared.refusal.Code.{Code as CodeValue};
ghost use Rattle.elan_text.specs.declared.refusal.Place.{Place as PlaceValue};
ghost use Rattle.elan_lexer.specs.declared.token.Token.{Token as TokenValue};
ghost use Rattle.elan_phrases.specs.Symbols.{Seen, seen};
ghost use Rattle.elan_syntax.specs.Grammar.{rules_for, strategies_for};
ghost use Rattle.elan_syntax.specs.PlainGrammar.{plain_rules, plain_strategies, LeavesNoBracket};
ghost use Rattle.elan_syntax.specs.Outlines.{IsOutline, Refuses};
ghost use Rattle.elan_syntax.specs.declared.parts.Outline.{Outline as OutlineValue};
ghost use Rattle.elan_syntax.specs.declared.rules.RulesFor.{RulesFor as RulesForValue};
ghost use Rattle.elan_syntax.specs.declared.definitions.StrategiesFor.{StrategiesFor as StrategiesForValue};

/// A text with its tokens has no two answers.
pub fn one_answer()
    ensures outline { (tokens : List Seen) (one two : OutlineValue) →
        IsOutline tokens one → IsOutline tokens two → one ≡ two }
    ensures apart { (bytes : List ℕ) (tokens : List TokenValue) (outline : OutlineValue)
        (code : CodeValue) (at : PlaceValue) →
        IsOutline (seen bytes tokens) outline → Refuses bytes tokens code at → ⊥ }
    ensures refusal { (bytes : List ℕ) (tokens : List TokenValue) (one two : CodeValue)
        (here there : PlaceValue) →
        Refuses bytes tokens one here → Refuses bytes tokens two there → (one ≡ two) × (here ≡ there) }
{}

/// A text with its tokens has an answer: its outline or its refusal.
pub fn some_answer()
    ensures { (bytes : List ℕ) (tokens : List TokenValue) →
        ((outline : OutlineValue) × IsOutline (seen bytes tokens) outline)
        ⊎ ((code : CodeValue) × (at : PlaceValue) × Refuses bytes tokens code at) }
{}

/// What stands behind the `for` of a section of rules is a sort expression, `{ vars }` and `{ vis | rule }`, where a `[`
/// directly after the name of the sort belongs to the sort, unless `]` follows it.
pub fn rules_behind_a_sort()
    ensures { (n : ℕ) (tokens : List Seen) (found : RulesForValue) → rules_for.words n tokens found
        ↔ (plain_rules.words n tokens found × LeavesNoBracket tokens found) }
{}

/// What stands behind the `for` of a section of strategies is a sort expression and `{ vis | "implicit" | definition }`.
pub fn strategies_behind_a_sort()
    ensures { (n : ℕ) (tokens : List Seen) (found : StrategiesForValue)
        → strategies_for.words n tokens found
        ↔ plain_strategies.words n tokens found }
{}
