//! What holds of the readings of all texts. Each law is the contract of a call that does nothing.

ghost use Rattle.std.specs.Prelude.{◌≡◌, ◌⊎◌, ℕ, true, List, map};
ghost use Rattle.std.specs.List.{All};
ghost use Rattle.elan_lexer.specs.declared.token.Token.{Token as TokenValue};
ghost use Rattle.elan_lexer.specs.Text.{Fits};
ghost use Rattle.elan_terms.specs.declared.tree.Pattern.{Pattern as PatternValue};
ghost use Rattle.elan_program.specs.declared.signature.Signature.{Signature as SignatureValue};
ghost use Rattle.elan_program.specs.Soundness.{is_sound};
ghost use Rattle.elan_program.specs.Patterns.{uses};
ghost use Rattle.elan_reading.specs.declared.lexeme.Lexeme.{Lexeme as LexemeValue};
ghost use Rattle.elan_reading.specs.declared.lexeme.Variable.{Variable as VariableValue};
ghost use Rattle.elan_reading.specs.declared.sought.Sought.{Sought as SoughtValue};
ghost use Rattle.elan_reading.specs.Lexemes.{lexeme_of, IsInRange};
ghost use Rattle.elan_reading.specs.Answers.{IsReading, IsOnly, HasNone, HasSeveral};
ghost use Rattle.elan_chart.specs.Fitting.{as_numbered, IsOfSought};

/// The numbers among the tokens of a text are at most 9,223,372,036,854,775,807.
pub fn numbers_are_in_range()
    ensures { (bytes : List ℕ) (found : List TokenValue) → Fits bytes found
        → All IsInRange (map (lexeme_of bytes) found) }
{}

/// In a sound signature a reading is a valid pattern of the sort that is sought, and each variable
/// that occurs in it is a
/// declared one with its number and its sort.
pub fn readings_fit()
    ensures sort { (g : SignatureValue) (vs : List VariableValue) (run : List LexemeValue)
        (what : SoughtValue) (t : PatternValue) → is_sound g ≡ true → All IsInRange run
        → IsReading g vs run what t → IsOfSought g what t }
    ensures variables { (g : SignatureValue) (vs : List VariableValue) (run : List LexemeValue)
        (what : SoughtValue) (t : PatternValue)
        → IsReading g vs run what t → uses (map as_numbered vs) t ≡ true }
{}

/// Over a sound signature a text has one reading, none or several, and no two of these.
pub fn each_text_has_one_answer()
    ensures some { (g : SignatureValue) (vs : List VariableValue) (run : List LexemeValue)
        (what : SoughtValue) → is_sound g ≡ true → ((t : PatternValue) × IsOnly g vs run what t)
        ⊎ (HasNone g vs run what ⊎ HasSeveral g vs run what) }
    ensures one { (g : SignatureValue) (vs : List VariableValue) (run : List LexemeValue)
        (what : SoughtValue) (t u : PatternValue)
        → IsOnly g vs run what t → IsOnly g vs run what u → t ≡ u }
    ensures not_none { (g : SignatureValue) (vs : List VariableValue) (run : List LexemeValue)
        (what : SoughtValue) (t : PatternValue)
        → IsOnly g vs run what t → HasNone g vs run what → ⊥ }
    ensures not_several { (g : SignatureValue) (vs : List VariableValue) (run : List LexemeValue)
        (what : SoughtValue) (t : PatternValue)
        → IsOnly g vs run what t → HasSeveral g vs run what → ⊥ }
    ensures apart { (g : SignatureValue) (vs : List VariableValue) (run : List LexemeValue)
        (what : SoughtValue) → HasNone g vs run what → HasSeveral g vs run what → ⊥ }
{}
