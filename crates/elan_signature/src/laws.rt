//! What holds of every text and of every declaration. Each law is the contract of a call that does
//! nothing.

ghost use Rattle.std.specs.Prelude.{◌≡◌, ◌≢◌, ◌≤◌, ◌<◌, ◌↔◌, ℕ, Ok, Err, Some, List, [], map, length, slice_get, codes, true, false};
ghost use Rattle.std.specs.List.{All};
ghost use Rattle.std.specs.Str.{bytes_eq};
ghost use Rattle.elan_text.specs.declared.refusal.Code.TheVariants.{E10, E11, E12, E14};
ghost use Rattle.elan_text.specs.declared.refusal.Refusal.{Refusal as RefusalValue};
ghost use Rattle.elan_lexer.specs.Pieces.{IsToken};
ghost use Rattle.elan_lexer.specs.declared.token.Kind.{Kind as KindValue};
ghost use Rattle.elan_lexer.specs.declared.token.Kind.TheVariants.{Word};
ghost use Rattle.elan_phrases.specs.declared.span.Span.{Span as SpanValue};
ghost use Rattle.elan_phrases.specs.Symbols.{names, spelled, symbol_of};
ghost use Rattle.elan_program.specs.declared.signature.Operator.{Operator as OperatorValue};
ghost use Rattle.elan_program.specs.Soundness.{ac_fits, holes};
ghost use Rattle.elan_program.specs.Spelling.{is_name, is_spelled};
ghost use Rattle.elan_cycles.specs.Edges.{HasNoCycle, IsFirstOnCycle};
ghost use Rattle.elan_signature.specs.declared.done.Injection.{Injection as InjectionValue};
ghost use Rattle.elan_signature.specs.Cycles.{cycle_at, edge_of, look_cycles};
ghost use Rattle.elan_signature.specs.Declarations.{Scope as ScopeValue, admitted, is_spelling, sort_at, sort_text};
ghost use Rattle.elan_signature.specs.Outcomes.{refusal_at};

/// The crates that cut texts, that read them and that make programs agree on words. A text is a
/// name of a program exactly where, alone, it is one word that is not reserved. A spelling may have
/// it exactly where, alone, it is one token that may stand in a declaration before its `:` and is
/// not `@`, the place of an argument.
pub fn spellings_agree()
    ensures names { (text : List ℕ) → (is_name text ≡ true)
        ↔ (IsToken Word text [] × (names (symbol_of Word text) ≡ true)) }
    ensures spellings { (text : List ℕ) → (is_spelled text ≡ true)
        ↔ ((kind : KindValue) × IsToken kind text [] × (spelled (symbol_of kind text) ≡ true)
        × (bytes_eq text (codes "@") ≡ false)) }
{}

/// A sort expression is refused with E10 at its first token exactly where no declared sort has its
/// written form.
pub fn sorts_are_unknown()
    ensures { (c : ScopeValue) (s : SpanValue) → (sort_at c s ≡ Err (refusal_at c.text E10 s.first))
        ↔ All (λ n. n.bytes ≡ sort_text c s → ⊥) c.sorts }
{}

/// An operator of a spelling is refused with E11 exactly where it has not as many holes as argument
/// sorts; else with E12 where it is associative and commutative and has not two arguments of its
/// own sort; else with E14 where 4,096 operators or more are before it; else it is admitted. The
/// place is its first spelling token.
pub fn operators_are_checked()
    ensures holes { (c : ScopeValue) (n : ℕ) (s : SpanValue) (o : OperatorValue)
        → is_spelling o.pieces ≡ true
        → (admitted c n s o ≡ Err (refusal_at c.text E11 s.first))
        ↔ (holes o.pieces ≢ length o.args) }
    ensures ac { (c : ScopeValue) (n : ℕ) (s : SpanValue) (o : OperatorValue)
        → is_spelling o.pieces ≡ true
        → holes o.pieces ≡ length o.args
        → (admitted c n s o ≡ Err (refusal_at c.text E12 s.first)) ↔ (ac_fits o ≡ false) }
    ensures many { (c : ScopeValue) (n : ℕ) (s : SpanValue) (o : OperatorValue)
        → is_spelling o.pieces ≡ true
        → holes o.pieces ≡ length o.args → ac_fits o ≡ true
        → (admitted c n s o ≡ Err (refusal_at c.text E14 s.first)) ↔ (4096 ≤ n) }
    ensures admitted { (c : ScopeValue) (n : ℕ) (s : SpanValue) (o : OperatorValue)
        → is_spelling o.pieces ≡ true
        → holes o.pieces ≡ length o.args → ac_fits o ≡ true
        → (admitted c n s o ≡ Ok o) ↔ (n < 4096) }
{}

/// Injections are refused exactly where one lies on a cycle: with E13 at the first one that does.
pub fn cycles_are_refused()
    ensures none { (all : List InjectionValue) → (look_cycles all ≡ Ok tt)
        ↔ HasNoCycle (map edge_of all) }
    ensures first { (all : List InjectionValue) (r : RefusalValue) → (look_cycles all ≡ Err r)
        ↔ ((n : ℕ) × (i : InjectionValue) × (slice_get all n ≡ Some i)
        × IsFirstOnCycle (map edge_of all) n × (r ≡ cycle_at i)) }
{}
