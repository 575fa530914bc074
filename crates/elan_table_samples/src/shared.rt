use elan_shared::{Node, SharedTerm, compare, is_equal, shared, to_owned};
use elan_terms::{NoMemory, OpId};
use sqlite_items::Items;
use std::alloc::Global;
use std::test::Fail;

fn constant(alloc: Global, op: u32) -> Result<SharedTerm, NoMemory> {
    SharedTerm::app(alloc, OpId(op), Items::new(alloc))
}

// The operator 9 over both.
fn pair(alloc: Global, a: &SharedTerm, b: &SharedTerm) -> Result<SharedTerm, NoMemory> {
    let mut args = Items::new(alloc);
    args.push(a.again()?)?;
    args.push(b.again()?)?;
    SharedTerm::app(alloc, OpId(9), args)
}

// Copied node by node it would have 2^2000 leaves.
#[test]
fn a_term_of_depth_2000_is_made_of_2000_nodes(rt: HostRuntime) -> Result<(), Fail> {
    let alloc = rt.alloc();
    let mut term = SharedTerm::int(7);
    for _ in 1..2000 {
        term = pair(alloc, &term, &term)?;
    }
    assert_eq!(rt; term.depth(), 2000);
    Ok(())
}

#[test]
fn an_argument_is_found_by_its_place(rt: HostRuntime) -> Result<(), Fail> {
    let alloc = rt.alloc();
    let a = constant(alloc, 0)?;
    let b = constant(alloc, 1)?;
    let both = pair(alloc, &a, &b)?;
    match both.arg(1) {
        Some(second) => assert_eq!(rt; is_equal(second, &b), true),
        None => assert!(rt; false),
    }
    assert_eq!(rt; both.arg(2).is_none(), true);
    assert_eq!(rt; SharedTerm::int(1).args().len(), 0);
    match both.node() {
        Node::Int(_) => assert!(rt; false),
        Node::App(op, args) => assert_eq!(rt; (op.0, args.len()), (9, 2)),
    }
    Ok(())
}

#[test]
fn a_copy_is_equal_to_what_it_copies(rt: HostRuntime) -> Result<(), Fail> {
    let alloc = rt.alloc();
    let both = pair(alloc, &constant(alloc, 0)?, &SharedTerm::int(-5))?;
    let copy = to_owned(alloc, &both)?;
    assert_eq!(rt; elan_terms::depth(&copy), 2);
    assert_eq!(rt; is_equal(&both, &shared(alloc, &copy)?), true);
    assert_eq!(rt; is_equal(&both, &both.again()?), true);
    Ok(())
}

// Each of these stands before the next.
#[test]
fn the_order_is_by_kind_operator_length_and_arguments(rt: HostRuntime) -> Result<(), Fail> {
    let alloc = rt.alloc();
    let a = constant(alloc, 0)?;
    let b = constant(alloc, 1)?;
    let mut terms = Items::new(alloc);
    terms.push(SharedTerm::int(-1))?;
    terms.push(SharedTerm::int(3))?;
    terms.push(a.again()?)?;
    terms.push(b.again()?)?;
    terms.push(constant(alloc, 9)?)?;
    terms.push(pair(alloc, &a, &b)?)?;
    terms.push(pair(alloc, &b, &a)?)?;
    let all = terms.as_slice();
    for (at, term) in all.iter().enumerate() {
        for (other_at, other) in all.iter().enumerate() {
            assert_eq!(rt; compare(term, other), at.cmp(&other_at));
            assert_eq!(rt; is_equal(term, other), at == other_at);
        }
    }
    Ok(())
}
