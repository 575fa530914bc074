//! The look ahead.
ghost use Rattle.std.specs.Prelude.{◌≡◌, ℕ, IsTrue, IsFalse, IfOk};
ghost use Rattle.elan_terms.specs.declared.tree.Term.{Term as TermValue};
ghost use Rattle.elan_terms.specs.Match.{instance};
ghost use Rattle.elan_look.specs.Lows.{is_empty};
ghost use Rattle.elan_look.specs.Sights.{is_given, seeks};
ghost use Rattle.elan_look.specs.Tells.{Agrees, Knows, Allows, IsTaken, SaysIf, sought_value};

use crate::NoMemory;
use crate::low::Low;
use crate::sight::Sight;
use crate::walk::look_at;
use elan_table::{Name, Table, TermRef};
use elan_terms::Pattern;
use std::alloc::Global;
use std::sync::Wait;

/// A bound for the value of the sought variable where the pattern is the term of the row. Values that
/// it does not allow lead to no match. Where the values of all variables are known it is `Empty`
/// exactly where the pattern is not the term.
#[tactic(auto, unfolding(crate::specs::Tells::Makes))]
pub fn look<N: Name, R: Wait>(
    rt: &R,
    alloc: Global,
    table: &Table<N>,
    sight: &Sight<N>,
    pattern: &Pattern,
    term: &TermRef<N>,
) -> Result<Low<N>, NoMemory>
    ensures prunes { IfOk result (λ low. (value : ℕ → TermValue) → Agrees N.shapes sight.now value
        → instance N.shapes value pattern.now ≡ term.now.value
        → Allows low (sought_value sight.now.sought value)) }
    ensures taken { IfOk result (IsTaken N.shapes sight.now) }
    ensures says { IfOk result (SaysIf (seeks sight.now pattern.now)) }
    ensures exact { IfOk result (λ low. IsTrue (is_given sight.now pattern.now)
        → (value : ℕ → TermValue) → Knows sight.now value → IsFalse (is_empty low)
        → instance N.shapes value pattern.now ≡ term.now.value) }
{
    look_at(rt, alloc, table, sight, pattern, term)
}
