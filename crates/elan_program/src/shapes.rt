//! What a signature says of terms.

ghost use Rattle.std.specs.Prelude.{◌≡◌, IfOk};
ghost use Rattle.elan_terms.specs.Term.{is_ac};
ghost use Rattle.elan_program.specs.Signature as spec;

use crate::{Builtin, Operator, Signature};
use elan_terms::{OpId, Shape, Shapes};
use elan_text::NoMemory;
use sqlite_items::Items;
use std::alloc::Global;

fn shape_of(alloc: Global, operator: &Operator) -> Result<Shape, NoMemory>
    ensures { IfOk result (λ shape. shape ≡ spec.shape_of operator.now) }
{
    Ok(Shape {
        args: Items::from_slice(alloc, operator.args.as_slice())?,
        sort: operator.sort,
        ac: operator.ac,
    })
}

impl Signature {
    /// The shape of each operator, in order, and the sort of integers.
    #[tactic(auto, unfolding(crate::specs::Signature::shapes_of))]
    pub fn shapes(&self, alloc: Global) -> Result<Shapes, NoMemory>
        ensures { IfOk result (λ shapes. shapes ≡ spec.shapes_of self.now) }
    {
        let mut shapes = Items::new(alloc);
        for operator in self.operators.as_slice() {
            shapes.push(shape_of(alloc, operator)?)?;
        }
        Ok(Shapes {
            shapes,
            int: self.int,
        })
    }

    /// The built-in operation of an operator, if it has one.
    #[tactic(auto, unfolding(crate::specs::Signature::builtin_at))]
    pub fn builtin(&self, op: OpId) -> Option<Builtin>
        ensures { result ≡ spec.builtin_at self.now op }
    {
        match self.operators.get(op.0 as usize) {
            None => None,
            Some(operator) => operator.builtin,
        }
    }

    /// Whether an operator is there and is associative and commutative.
    #[tactic(auto, using(crate::proofs::ShapeLemmas::acs))]
    pub fn is_ac(&self, op: OpId) -> bool
        ensures { result ≡ is_ac (spec.shapes_of self.now) op }
    {
        match self.operators.get(op.0 as usize) {
            None => false,
            Some(operator) => operator.ac,
        }
    }
}
