//! Where a node is remembered.
ghost use Rattle.std.specs.Prelude.{◌≤◌};

use elan_table::{Name, TermRef};
use elan_terms::OpId;

// An odd number near 2^64 divided by the golden ratio: products with it differ in their high bits.
const SPREAD: u64 = 0x9e37_79b9_7f4a_7c15;

// Integers are told from applications of the first operators.
const INTEGERS: u64 = 0x0100_0000_0000;

/// A number for the node of this operator over these rows. Few nodes share one.
pub(crate) fn of_node<N: Name>(op: OpId, args: &[TermRef<N>]) -> u64 {
    let mut mixed = u64::from(op.0).wrapping_mul(SPREAD);
    for arg in args {
        mixed = mixed.wrapping_add(arg.number()).wrapping_mul(SPREAD);
    }
    mixed
}

/// A number for the node of this integer. Few nodes share one.
pub(crate) fn of_integer(value: i64) -> u64 {
    value
        .unsigned_abs()
        .wrapping_add(INTEGERS)
        .wrapping_mul(SPREAD)
}

/// The place for such a number, of those from 0 to the last one.
pub(crate) fn within(mixed: u64, last: usize) -> usize
    ensures { result ≤ last }
{
    (mixed >> 32) as usize & last
}
