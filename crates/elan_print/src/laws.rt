//! What holds of printed terms. Each law is the contract of a call that does nothing.

ghost use Rattle.std.specs.Prelude.{◌≡◌, List, map, true};
ghost use Rattle.elan_terms.specs.declared.tree.SortId.{SortId as SortValue};
ghost use Rattle.elan_terms.specs.declared.tree.Term.{Term as TermValue};
ghost use Rattle.elan_terms.specs.Valid.{IsValid, IsValidOf};
ghost use Rattle.elan_terms.specs.Canonical.{IsCanonical};
ghost use Rattle.elan_program.specs.declared.signature.Signature.{Signature as SignatureValue};
ghost use Rattle.elan_program.specs.Signature.{shapes_of};
ghost use Rattle.elan_program.specs.Soundness.{is_sound};
ghost use Rattle.elan_reading.specs.declared.lexeme.Variable.{Variable as VariableValue};
ghost use Rattle.elan_print.specs.Tokens.{token_of};
ghost use Rattle.elan_print.specs.Terms.{term_tokens, term_text};
ghost use Rattle.elan_print.specs.Laws as spec;

/// In a sound signature the tokens of a valid canonical term have, at its sort and among any
/// variables, a reading whose canonical form is the term; and its text is cut into exactly these
/// tokens.
pub fn printed_terms_are_read()
    ensures tokens { (g : SignatureValue) (vs : List VariableValue) (s : SortValue) (t : TermValue)
        → is_sound g ≡ true → IsValidOf (shapes_of g) s t → IsCanonical (shapes_of g) t
        → spec.ReadsAs g vs s (map token_of (term_tokens g t)) t }
    ensures text { (g : SignatureValue) (t : TermValue)
        → is_sound g ≡ true → IsValid (shapes_of g) t
        → spec.IsCutInto (term_text g t) (map token_of (term_tokens g t)) }
{}
