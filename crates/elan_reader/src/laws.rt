//! What holds of what all texts are read as. Each law is the contract of a call that does nothing.

ghost use Rattle.std.specs.Prelude.{◌≡◌, ℕ, true, Result, List, map};
ghost use Rattle.std.specs.List.{All};
ghost use Rattle.elan_text.specs.declared.refusal.Code.{Code as CodeValue};
ghost use Rattle.elan_lexer.specs.declared.token.Token.{Token as TokenValue};
ghost use Rattle.elan_terms.specs.declared.tree.Pattern.{Pattern as PatternValue};
ghost use Rattle.elan_program.specs.declared.signature.Signature.{Signature as SignatureValue};
ghost use Rattle.elan_program.specs.Soundness.{is_sound};
ghost use Rattle.elan_modules.specs.declared.flat.LoadedText.{LoadedText as TextValue};
ghost use Rattle.elan_reading.specs.declared.lexeme.Variable.{Variable as VariableValue};
ghost use Rattle.elan_reading.specs.declared.sought.Sought.{Sought as SoughtValue};
ghost use Rattle.elan_reading.specs.Lexemes.{lexeme_of, IsInRange};
ghost use Rattle.elan_clauses.specs.Offered.{ReadsWell};
ghost use Rattle.elan_reader.specs.Answers.{IsAnswer};
ghost use Rattle.elan_reader.specs.ReadAs.{read_as};
ghost use Rattle.elan_reader.specs.Asked.{chart_reader};

/// Over a sound signature, what a text is read as is the one answer to it: the tree that is its only
/// reading, where it has at most 256 tokens; else E15 for none, E16 for several, and E17 for more
/// than 256 tokens.
pub fn a_text_is_read_as_its_answer()
    ensures answer { (g : SignatureValue) (vs : List VariableValue) (what : SoughtValue)
        (bytes : List ℕ) (tokens : List TokenValue) → is_sound g ≡ true
        → IsAnswer g vs (map (lexeme_of bytes) tokens) what (read_as g vs what bytes tokens) }
    ensures only { (g : SignatureValue) (vs : List VariableValue) (what : SoughtValue)
        (bytes : List ℕ) (tokens : List TokenValue) (r : Result PatternValue CodeValue)
        → is_sound g ≡ true → IsAnswer g vs (map (lexeme_of bytes) tokens) what r
        → r ≡ read_as g vs what bytes tokens }
{}

/// Over a sound signature, each run of a text whose numbers are below 2^63 is read as a valid pattern
/// of the sort that is sought, with only declared variables.
pub fn chart_reads_well()
    ensures { (g : SignatureValue) (text : TextValue) → is_sound g ≡ true
        → All IsInRange (map (lexeme_of text.bytes) text.tokens) → ReadsWell chart_reader g text }
{}
