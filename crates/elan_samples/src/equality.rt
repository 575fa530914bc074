//! Equality modulo associativity and commutativity, and laws.

use crate::spelled::{sets, term};
use elan_laws::equal_modulo;
use elan_laws::laws::{
    canonical_form, equality_modulo_ac, injections_end, instances_are_canonical, matches_once,
    order_by_heads, order_is_total, parts_ascend, sorts_are_kept,
};
use elan_terms::NoMemory;
use std::alloc::Global;
use std::test::Fail;

#[test]
fn a_law_does_nothing() {
    order_is_total();
    order_by_heads();
    canonical_form();
    equality_modulo_ac();
    parts_ascend();
    matches_once();
    instances_are_canonical();
    sorts_are_kept();
    injections_end();
}

fn are_equal(alloc: Global, left: &[u8], right: &[u8]) -> Result<bool, NoMemory> {
    let shapes = sets(alloc)?;
    let left = term(alloc, left)?;
    let right = term(alloc, right)?;
    equal_modulo(alloc, &shapes, &left, &right)
}

#[test]
fn brackets_and_places_do_not_matter_but_arguments_do(rt: HostRuntime) -> Result<(), Fail> {
    let rows = [
        (b"ca2b2".as_slice(), b"abc22".as_slice(), true),
        (b"ca2b2", b"bca3", true),
        (b"ca2b2", b"ab2", false),
        (b"aa2", b"a", false),
    ];
    for (left, right, wanted) in rows {
        assert_eq!(rt; are_equal(rt.alloc(), left, right)?, wanted);
    }
    Ok(())
}
