//! The tree, and how its nodes are made and read.

ghost use Rattle.std.specs.Prelude.{◌≡◌, ◌-◌, ◌^◌, min, map, IfOk, slice_get};
ghost use Rattle.std.specs.Option.{option_copied};
ghost use Rattle.elan_terms.specs.Trees.{int_term, app_term};
ghost use Rattle.elan_terms.specs.Term as spec;

use elan_terms::{NoMemory, OpId};
use sqlite_items::Items;
use std::alloc::Global;
use std::marker::Model;
use std::sync::Arc;

/// A term that may have several owners. Contracts see it as the term.
#[cycle(tree)]
#[derive(Drop)]
pub struct SharedTerm {
    node: SharedNode,
}

/// An integer, or an application with several owners.
#[cycle(tree)]
#[derive(Drop)]
enum SharedNode {
    Int(i64),
    App(Arc<Application>),
}

/// An operator over shared arguments, and how deep the whole is, at most `u64::MAX`.
#[cycle(tree)]
#[derive(Drop)]
struct Application {
    op: OpId,
    args: Items<SharedTerm>,
    depth: u64,
}

/// The two kinds of term; an application lends its arguments from left to right.
pub enum Node<'a> {
    Int(i64),
    App(OpId, &'a [SharedTerm]),
}

impl Model for SharedTerm {
    ghost use Rattle.elan_terms.specs.declared.tree.Term.{Term};
    ghost use Rattle.elan_terms.specs.contracts.tree.Term as term;
    ghost use Rattle.std.specs.Coded.{codes};

    ghost Value = { Term };

    ghost coded = { Prim.hlevel (codes, term.the_row.coded) };

    ghost use Rattle.elan_shared.specs.Shown.{shown, IsDeep};
    ghost use Rattle.elan_terms.specs.Weight.{weight};

    ghost view = { λ t. shown t.node };

    ghost invariant = { λ t. IsDeep t.node };

    ghost size = { weight };

    ghost use Rattle.elan_shared.specs.Falls.{deep_le-weight};

    ghost size_decreases = { λ t h. deep_le-weight t.node };
}

impl SharedTerm {
    ghost use Rattle.elan_shared.specs.Nodes.{told, arguments};

    /// An integer. It takes no memory.
    pub fn int(value: i64) -> SharedTerm
        ensures { result ≡ int_term value }
    {
        SharedTerm {
            node: SharedNode::Int(value),
        }
    }

    /// The operator over these arguments, none of which is copied.
    #[tactic(auto, using(elan_terms::proofs::TermLemmas::depths))]
    pub fn app(alloc: Global, op: OpId, args: Items<SharedTerm>) -> Result<SharedTerm, NoMemory>
        ensures { IfOk result (λ t. t ≡ app_term op args) }
    {
        let depth = greatest(args.as_slice()).saturating_add(1);
        let made = Arc::new(alloc, Application { op, args, depth })?;
        Ok(SharedTerm {
            node: SharedNode::App(made),
        })
    }

    /// The same term with one more owner. It takes no memory, and fails only past 2^63 owners.
    pub fn again(&self) -> Result<SharedTerm, NoMemory>
        ensures { IfOk result (λ t. t ≡ self.now) }
    {
        match &self.node {
            SharedNode::Int(z) => Ok(SharedTerm::int(*z)),
            SharedNode::App(made) => Ok(SharedTerm {
                node: SharedNode::App(Arc::try_clone(made)?),
            }),
        }
    }

    /// The depth: 1 for an integer or a constant. A term past `u64::MAX` answers `u64::MAX`.
    #[tactic(auto, using(elan_terms::proofs::TermLemmas::depths))]
    pub fn depth(&self) -> u64
        ensures { result ≡ min (spec.depth self.now) (2 ^ 64 - 1) }
    {
        match &self.node {
            SharedNode::Int(_) => 1,
            SharedNode::App(made) => made.depth,
        }
    }

    /// The integer, or the operator and the arguments.
    pub fn node(&self) -> Node<'_>
        ensures { self.now ≡ told result }
    {
        match &self.node {
            SharedNode::Int(z) => Node::Int(*z),
            SharedNode::App(made) => Node::App(made.op, made.args.as_slice()),
        }
    }

    /// The arguments from left to right; an integer has none.
    pub fn args(&self) -> &[SharedTerm]
        ensures { result.now ≡ arguments self.now }
    {
        match self.node() {
            Node::Int(_) => &[],
            Node::App(_, args) => args,
        }
    }

    /// The argument at that place, counted from 0.
    pub fn arg(&self, place: usize) -> Option<&SharedTerm>
        ensures { option_copied result ≡ slice_get (arguments self.now) place }
    {
        self.args().get(place)
    }
}

/// The greatest depth of these, or 0; at most `u64::MAX`.
fn greatest(terms: &[SharedTerm]) -> u64
    ensures { result ≡ min (spec.greatest (map spec.depth terms.now)) (2 ^ 64 - 1) }
{
    match terms {
        [] => 0,
        [first, rest @ ..] => first.depth().max(greatest(rest)),
    }
}
