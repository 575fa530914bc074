//! What shows where a row is. It takes no bytes.
//!
//! A row holds the `TermRef`s of its arguments, and a `TermRef` holds the tokens of `boxcar` which
//! show that a slot holds a row. Written so, the type of a row would contain itself through its
//! tokens. So a `TermRef` holds tokens of `Term`, the value that contracts see of a row, and the
//! two functions at the end go from the one view to the other. Their `unsafe` lines are the only
//! ones of the repository. They cast a pointer to a value of no bytes, read nothing through it and
//! write nothing. What makes them right is that the proof of a token speaks of its slot by the code
//! of the value in it and of nothing else, and that a row has the code of its term: so what a token
//! of `Row` owns is what one of `Term` owns. Each cast has its own proof, a walk over its few
//! instructions in `proofs/spot/`, and its contract says that slot and value stay the same.
ghost use Rattle.std.specs.Prelude.{◌≡◌};

use crate::name::Name;
use crate::row::Row;
use boxcar::slot::{OnceSlot, SlotRule, Written};
use elan_terms::Term;

/// The rule of a slot that takes any value.
pub struct Any;

impl<T> SlotRule<T> for Any {
    ghost use Rattle.std.specs.Prelude.{⊤};

    ghost holds = { λ _ _. ⊤ };
}

/// The rule of a slot for a chunk: its slots are so many.
pub struct Long;

impl<T> SlotRule<Vec<OnceSlot<T, Any>>> for Long {
    ghost use Rattle.std.specs.Prelude.{◌≡◌, length};

    ghost holds = { λ _ b. length b.items ≡ 32768 };
}

/// The chunk that was put into the directory, and the value that was put into the chunk.
#[derive(Drop)]
pub struct Spot<T> {
    pub chunk: Written<Vec<OnceSlot<T, Any>>>,
    pub item: Written<T>,
}

impl<T> Spot<T> {
    /// The same spot.
    pub fn again(&self) -> Spot<T>
        ensures chunk { (result.chunk.of ≡ self.now.chunk.of)
            × (result.chunk.value ≡ self.now.chunk.value) }
        ensures item { (result.item.of ≡ self.now.item.of)
            × (result.item.value ≡ self.now.item.value) }
    {
        Spot {
            chunk: self.chunk.again(),
            item: self.item.again(),
        }
    }
}

/// The spot of a row, seen as that of its term. It does nothing.
pub fn of_terms<N: Name>(spot: &Spot<Row<N>>) -> &Spot<Term>
    ensures { (result.now.chunk.of ≡ spot.now.chunk.of)
        × (result.now.chunk.value.items ≡ spot.now.chunk.value.items)
        × (result.now.item.of ≡ spot.now.item.of)
        × (result.now.item.value ≡ spot.now.item.value) }
{
    unsafe { &*(spot as *const Spot<Row<N>> as *const Spot<Term>) }
}

/// The spot of a term, seen as that of its row. It does nothing.
pub fn of_rows<N: Name>(spot: &Spot<Term>) -> &Spot<Row<N>>
    ensures { (result.now.chunk.of ≡ spot.now.chunk.of)
        × (result.now.chunk.value.items ≡ spot.now.chunk.value.items)
        × (result.now.item.of ≡ spot.now.item.of)
        × (result.now.item.value ≡ spot.now.item.value) }
{
    unsafe { &*(spot as *const Spot<Term> as *const Spot<Row<N>>) }
}
