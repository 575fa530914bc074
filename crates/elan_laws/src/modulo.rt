//! The test of equality modulo associativity and commutativity.

ghost use Rattle.std.specs.Prelude.{◌≡◌, ◌↔◌, IsTrue, IfOk};
ghost use Rattle.elan_terms.specs.Term.{canon};
ghost use Rattle.elan_terms.specs.Valid.{IsValid};
ghost use Rattle.elan_laws.specs.Equality.{EqualModulo};

use elan_terms::{NoMemory, Shapes, Term, canon, compare};
use std::alloc::Global;

/// Whether two terms have one canonical form, which for valid terms says that they are equal modulo
/// associativity and commutativity.
pub fn equal_modulo(alloc: Global, shapes: &Shapes, a: &Term, b: &Term) -> Result<bool, NoMemory>
    ensures forms { IfOk result (λ yes.
        IsTrue yes ↔ (canon shapes.now a.now ≡ canon shapes.now b.now)) }
    ensures equal { IsValid shapes.now a.now → IsValid shapes.now b.now →
        IfOk result (λ yes. IsTrue yes ↔ EqualModulo shapes.now a.now b.now) }
{
    let first = canon(alloc, shapes, a)?;
    let second = canon(alloc, shapes, b)?;
    Ok(compare(&first, &second).is_eq())
}
