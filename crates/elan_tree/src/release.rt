//! Items at the front of a settled tree are released.
ghost use Rattle.std.specs.Prelude.{◌≡◌, MatchOption};
ghost use Rattle.elan_tree.specs.Tree.{Cat, none, trees};
ghost use Rattle.elan_tree.specs.Normal.{Normal};
ghost use Rattle.elan_tree.specs.Fronts.{Gives, NotFirst};

use crate::kids::only;
use crate::node::{Node, Shape};
use elan_text::NoMemory;
use std::alloc::Global;
use std::mem;

/// Takes the first item out, if there is one.
pub(crate) fn take_first<I: Drop, O: Drop, K: Drop>(
    alloc: Global,
    node: &mut Node<I, O, K>,
) -> Option<I>
    requires { Normal node.old }
    ensures { MatchOption result ((node.new ≡ node.old) × NotFirst node.old)
        (λ i. Gives node.old i node.new) }
{
    let Node { shape } = mem::replace(node, Node::nothing(alloc));
    match shape {
        Shape::Item(item) => Some(item),
        Shape::Cat(kids) => {
            let (first, rest) = split(kids);
            *node = rest;
            first
        }
        shape => {
            *node = Node { shape };
            None
        }
    }
}

/// Takes the first child out, if it is an item.
fn split<I: Drop, O: Drop, K: Drop>(mut kids: Vec<Node<I, O, K>>) -> (Option<I>, Node<I, O, K>)
    ensures { MatchOption result.0 ((result.1 ≡ Cat (trees kids.items))
        × NotFirst (Cat (trees kids.items))) (λ i. Gives (Cat (trees kids.items)) i result.1) }
{
    if kids.is_empty() || !kids[0].is_item() {
        return (
            None,
            Node {
                shape: Shape::Cat(kids),
            },
        );
    }
    let Node { shape } = kids.remove(0);
    match shape {
        Shape::Item(item) => match only(kids) {
            Ok(kid) => (Some(item), kid),
            Err(kids) => (
                Some(item),
                Node {
                    shape: Shape::Cat(kids),
                },
            ),
        },
        shape => (None, Node { shape }),
    }
}
