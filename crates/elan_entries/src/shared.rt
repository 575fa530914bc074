//! Patterns whose copies share their parts.

ghost use Rattle.std.specs.Prelude.{◌≡◌, ◌++◌, ◌&&◌, ◌==◌, IfOk};
ghost use Rattle.std.specs.Ordering.{int_eq};
ghost use Rattle.elan_program.specs.Extension.{var_pattern, int_pattern, app_pattern};
ghost use Rattle.elan_entries.specs.Trees as spec;

use elan_terms::{OpId, Pattern, PatternNode, SortId};
use elan_text::NoMemory;
use sqlite_items::Items;
use std::alloc::Global;
use std::marker::Model;
use std::sync::Arc;

/// A pattern that may have several owners. Contracts see it as the pattern.
#[cycle(tree)]
#[derive(Drop)]
pub struct Tree {
    node: TreeNode,
}

#[cycle(tree)]
#[derive(Drop)]
enum TreeNode {
    Var(u32, SortId),
    Int(i64),
    App(Arc<Application>),
}

/// An operator over shared arguments.
#[cycle(tree)]
#[derive(Drop)]
struct Application {
    op: OpId,
    args: Items<Tree>,
}

/// The three kinds of pattern; an application lends its arguments from left to right.
#[derive(Clone, Copy)]
enum Node<'a> {
    Var(u32, SortId),
    Int(i64),
    App(OpId, &'a [Tree]),
}

impl Model for Tree {
    ghost use Rattle.elan_terms.specs.declared.tree.Pattern.{Pattern};
    ghost use Rattle.elan_terms.specs.contracts.tree.Pattern as pattern;
    ghost use Rattle.std.specs.Coded.{codes};

    ghost Value = { Pattern };

    ghost coded = { Prim.hlevel (codes, pattern.the_row.coded) };

    ghost use Rattle.elan_entries.specs.Trees.{shown};
    ghost use Rattle.elan_terms.specs.Weight.{pattern_weight};

    ghost view = { λ t. shown t.node };

    ghost size = { pattern_weight };

    ghost use Rattle.elan_entries.specs.Falls.{deep_le-weight};

    ghost size_decreases = { λ t h. deep_le-weight t.node };
}

impl Tree {
    /// A variable, by its number, with its sort. It takes no memory.
    pub fn var(number: u32, sort: SortId) -> Tree
        ensures { result ≡ var_pattern number sort }
    {
        Tree {
            node: TreeNode::Var(number, sort),
        }
    }

    /// An integer. It takes no memory.
    pub fn int(value: i64) -> Tree
        ensures { result ≡ int_pattern value }
    {
        Tree {
            node: TreeNode::Int(value),
        }
    }

    /// The operator over these arguments, from left to right, none of which is copied.
    ///
    /// # Errors
    ///
    /// The machine had no memory to give; the arguments are let go then.
    pub fn app(alloc: Global, op: OpId, args: Items<Tree>) -> Result<Tree, NoMemory>
        ensures { IfOk result (λ t. t ≡ app_pattern op args) }
    {
        let made = Arc::new(alloc, Application { op, args })?;
        Ok(Tree {
            node: TreeNode::App(made),
        })
    }

    /// The same pattern with one more owner. It takes no memory, and fails only past 2^63 owners.
    pub fn again(&self) -> Result<Tree, NoMemory>
        ensures { IfOk result (λ t. t ≡ self.now) }
    {
        match &self.node {
            TreeNode::Var(number, sort) => Ok(Tree::var(*number, *sort)),
            TreeNode::Int(z) => Ok(Tree::int(*z)),
            TreeNode::App(made) => Ok(Tree {
                node: TreeNode::App(Arc::try_clone(made)?),
            }),
        }
    }

    fn node(&self) -> Node<'_>
        ensures { self.now ≡ spec.told result }
    {
        match &self.node {
            TreeNode::Var(number, sort) => Node::Var(*number, *sort),
            TreeNode::Int(z) => Node::Int(*z),
            TreeNode::App(made) => Node::App(made.op, made.args.as_slice()),
        }
    }
}

/// Whether two variables have one number and one sort.
fn is_same_var(x: u32, s: SortId, y: u32, t: SortId) -> bool
    ensures { result ≡ (x == y && s.0 == t.0) }
{
    x == y && s.0 == t.0
}

/// Whether two integers are equal.
fn is_same_int(x: i64, y: i64) -> bool
    ensures { result ≡ int_eq x y }
{
    x == y
}

/// Whether two patterns are equal.
#[cycle(same)]
#[tactic(auto, using(elan_terms::proofs::WeightLemmas::falls))]
fn same(a: &Tree, b: &Tree) -> bool
    ensures { result ≡ spec.same a.now b.now }
{
    match (a.node(), b.node()) {
        (Node::Var(x, s), Node::Var(y, t)) => is_same_var(x, s, y, t),
        (Node::Var(_, _), Node::Int(_)) => false,
        (Node::Var(_, _), Node::App(_, _)) => false,
        (Node::Int(_), Node::Var(_, _)) => false,
        (Node::Int(x), Node::Int(y)) => is_same_int(x, y),
        (Node::Int(_), Node::App(_, _)) => false,
        (Node::App(_, _), Node::Var(_, _)) => false,
        (Node::App(_, _), Node::Int(_)) => false,
        (Node::App(f, xs), Node::App(g, ys)) => {
            if f.0 == g.0 { same_all(xs, ys) } else { false }
        }
    }
}

/// Whether two lists of patterns are equal.
#[cycle(same)]
#[tactic(auto, using(elan_terms::proofs::WeightLemmas::falls))]
pub(crate) fn same_all(xs: &[Tree], ys: &[Tree]) -> bool
    ensures { result ≡ spec.same_all xs.now ys.now }
{
    match xs {
        [] => match ys {
            [] => true,
            [_, ..] => false,
        },
        [x, xs @ ..] => match ys {
            [] => false,
            [y, ys @ ..] => same(x, y) && same_all(xs, ys),
        },
    }
}

/// Puts the same patterns with one more owner to the end.
pub(crate) fn again_onto(out: &mut Items<Tree>, trees: &[Tree]) -> Result<(), NoMemory>
    ensures { IfOk result (λ _. out.new ≡ out.old ++ trees.now) }
{
    for tree in trees {
        out.push(tree.again()?)?;
    }
    Ok(())
}

/// A copy with one owner, which shares nothing. It recurses by the depth of the tree, which stays
/// as it is.
///
/// # Errors
///
/// The machine had no memory to give.
#[cycle(to_owned)]
#[tactic(auto, using(elan_terms::proofs::WeightLemmas::falls))]
pub fn to_owned(alloc: Global, tree: &Tree) -> Result<Pattern, NoMemory>
    ensures { IfOk result (λ p. p ≡ tree.now) }
{
    match tree.node() {
        Node::Var(number, sort) => Ok(Pattern {
            node: PatternNode::Var(number, sort),
        }),
        Node::Int(z) => Ok(Pattern {
            node: PatternNode::Int(z),
        }),
        Node::App(op, trees) => {
            let mut args = Items::new(alloc);
            owned_onto(alloc, &mut args, trees)?;
            Ok(Pattern {
                node: PatternNode::App(op, args),
            })
        }
    }
}

#[cycle(to_owned)]
#[tactic(auto, using(elan_terms::proofs::WeightLemmas::falls))]
fn owned_onto(alloc: Global, out: &mut Items<Pattern>, trees: &[Tree]) -> Result<(), NoMemory>
    ensures { IfOk result (λ _. out.new ≡ out.old ++ trees.now) }
{
    match trees {
        [] => Ok(()),
        [first, rest @ ..] => {
            out.push(to_owned(alloc, first)?)?;
            owned_onto(alloc, out, rest)
        }
    }
}
