//! What holds of every text. Each law is the contract of a call that does nothing.

ghost use Rattle.std.specs.Prelude.{◌≡◌, ◌≤◌, ◌⊎◌, ◌↔◌, ℕ, List, length};
ghost use Rattle.std.specs.List.{All};
ghost use Rattle.elan_text.specs.declared.refusal.Code.{Code as CodeValue};
ghost use Rattle.elan_text.specs.declared.refusal.Place.{Place as PlaceValue};
ghost use Rattle.elan_lexer.specs.declared.token.Token.{Token as TokenValue};
ghost use Rattle.elan_lexer.specs.Spans.{HasSpans};
ghost use Rattle.elan_lexer.specs.Text.{Fits, IsInside, Refuses};

/// A text has no two answers.
pub fn one_answer()
    ensures apart { (bytes : List ℕ) (found : List TokenValue)
        (code : CodeValue) (at : PlaceValue) →
        Fits bytes found → Refuses bytes code at → ⊥ }
    ensures tokens { (bytes : List ℕ) (one two : List TokenValue) →
        Fits bytes one → Fits bytes two → one ≡ two }
    ensures refusal { (bytes : List ℕ) (one two : CodeValue) (here there : PlaceValue) →
        Refuses bytes one here → Refuses bytes two there → (one ≡ two) × (here ≡ there) }
{}

/// A text has an answer: its tokens or its refusal.
pub fn some_answer()
    ensures { (bytes : List ℕ) → ((found : List TokenValue) × Fits bytes found)
        ⊎ ((code : CodeValue) × (at : PlaceValue) × Refuses bytes code at) }
{}

/// The tokens of a text lie inside it, and there are no more of them than bytes.
pub fn tokens_inside()
    ensures within { (bytes : List ℕ) (found : List TokenValue) → Fits bytes found
        → All (λ t. IsInside bytes t) found }
    ensures count { (bytes : List ℕ) (found : List TokenValue) → Fits bytes found
        → length found ≤ length bytes }
{}

/// A list is the tokens of a text exactly where its spans stand in order, each the longest token at its place, and
/// all that is between and around them is white space and whole comments.
pub fn tokens_are_spans()
    ensures { (bytes : List ℕ) (found : List TokenValue) → Fits bytes found ↔ HasSpans bytes found }
{}
