//! The nodes of a tree, which contracts see as plain data.

ghost use Rattle.std.specs.Prelude.{◌≡◌};
ghost use Rattle.std.specs.List.{list_any};
ghost use Rattle.elan_tree.specs.Listing.{sure, is_item, is_empty};
ghost use Rattle.elan_tree.specs.Normal.{Normal};
ghost use Rattle.elan_tree.specs.Tree.{Cat, none};
ghost use Rattle.elan_tree.specs.Kids.{width};

use std::alloc::Global;
use std::marker::Model;

#[derive(Drop)]
#[cycle(node)]
pub struct Node<I, O, K> {
    pub(crate) shape: Shape<I, O, K>,
}

#[derive(Drop)]
#[cycle(node)]
pub(crate) enum Shape<I, O, K> {
    Item(I),
    Open(O),
    Cat(Vec<Node<I, O, K>>),
    First(bool, Vec<Arm<I, O, K>>),
    Then(bool, Box<Node<I, O, K>>, K),
}

#[derive(Drop)]
#[cycle(node)]
pub(crate) struct Arm<I, O, K> {
    pub(crate) node: Box<Node<I, O, K>>,
    pub(crate) then: K,
}

impl<I, O, K> Model for Node<I, O, K> {
    ghost use Rattle.elan_tree.specs.Tree.{Tree, tree_code, weight};

    ghost Value = { Tree I O K };

    ghost coded = { tree_code I.code O.code K.code };

    ghost use Rattle.elan_tree.specs.Shape.{tree_of};

    ghost view = { λ n. tree_of n.shape };

    ghost size = { weight };

    ghost use Rattle.elan_tree.specs.Falls.{falls};

    ghost size_decreases = { λ a h. falls a.shape };
}

impl<I, O, K> Node<I, O, K> {
    /// The empty `Cat`.
    pub(crate) fn nothing(alloc: Global) -> Node<I, O, K>
        ensures { result ≡ Cat none }
    {
        Node {
            shape: Shape::Cat(Vec::new(alloc)),
        }
    }

    /// How many children the node stands for.
    pub(crate) fn width(&self) -> usize
        ensures { result ≡ width self.now }
    {
        match &self.shape {
            Shape::Cat(kids) => kids.len(),
            Shape::Item(_) | Shape::Open(_) | Shape::First(_, _) | Shape::Then(_, _, _) => 1,
        }
    }

    pub(crate) fn is_item(&self) -> bool
        ensures { result ≡ is_item self.now }
    {
        matches!(&self.shape, Shape::Item(_))
    }

    pub(crate) fn is_empty(&self) -> bool
        ensures { result ≡ is_empty self.now }
    {
        match &self.shape {
            Shape::Cat(kids) => kids.is_empty(),
            Shape::Item(_) | Shape::Open(_) | Shape::First(_, _) | Shape::Then(_, _, _) => false,
        }
    }

    /// Whether a normal node is sure to give an item.
    pub(crate) fn is_sure(&self) -> bool
        requires { Normal self.now }
        ensures { result ≡ sure self.now }
    {
        match &self.shape {
            Shape::Item(_) => true,
            Shape::Cat(kids) => any_item(kids),
            Shape::Open(_) | Shape::First(_, _) | Shape::Then(_, _, _) => false,
        }
    }
}

/// Whether a node is an item.
fn any_item<I, O, K>(kids: &[Node<I, O, K>]) -> bool
    ensures { result ≡ list_any is_item kids.now }
{
    kids.iter().any(|kid| kid.is_item())
}
