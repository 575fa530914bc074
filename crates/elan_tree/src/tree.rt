//! The ordered search tree.
ghost use Rattle.std.specs.Prelude.{◌≡◌, ◌↔◌, ◌⊎◌, [], length, IsTrue, IfOk, IsOkAnd, OnErr, All, Some, None};
ghost use Rattle.elan_tree.specs.Tree.{Cat, Open, none};
ghost use Rattle.elan_tree.specs.Normal.{IsSettled};
ghost use Rattle.elan_tree.specs.Standing.{Standing, state, Sound, Advances, ItemsOfKin};
ghost use Rattle.elan_tree.specs.Growths.{GrowthOf};
ghost use Rattle.elan_tree.specs.Places.{first_place, has, numbered};
ghost use Rattle.elan_tree.specs.Paths.{path_at};
ghost use Rattle.elan_tree.specs.Answer.{Answers, Refused, Same};

use crate::advance::{advance, grow};
use crate::branch::{Branch, Grown, Growth};
use crate::lookup::{find, leftmost};
use crate::name::Name;
use crate::node::{Node, Shape};
use crate::path::{Path, way_to};
use crate::place::Place;
use crate::posts::{Posts, Spot};
use crate::settle::Twig;
use elan_text::NoMemory;
use std::alloc::Global;
use std::marker::Model;
use std::sync::Wait;

/// An ordered search tree: what it has released, followed by the list of what is left, is the list of its root, up to the limit.
#[derive(Drop)]
pub struct Tree<'p, B: Branch, N: Name> {
    alloc: Global,
    posts: &'p Posts<B, N>,
    root: Spot<B, N>,
    limit: u32,
    grown: u64,
    released: Vec<B::Item>,
    node: Twig<B, N>,
}

impl<'p, B: Branch, N: Name> Model for Tree<'p, B, N> {
    ghost use Rattle.elan_tree.specs.Standing.{Standing, standing_code, Sound};
    ghost use Rattle.elan_tree.specs.Marks.{plain};

    ghost Value = { Standing B B.Item B.Then };

    ghost coded = { standing_code B.code B.Item.code B.Then.code };

    ghost view = { λ t. record {
      root = t.root;
      limit = t.limit;
      grown = t.grown;
      released = t.released.items;
      tree = plain t.node;
    } };

    ghost invariant = { λ t. Sound B.sense record {
      root = t.root;
      limit = t.limit;
      grown = t.grown;
      released = t.released.items;
      tree = plain t.node;
    } };
}

impl<'p, B: Branch, N: Name> Tree<'p, B, N> {
    /// A tree whose only open place is the root. Takes no memory.
    pub fn new(
        alloc: Global,
        posts: &'p Posts<B, N>,
        root: Spot<B, N>,
        limit: u32,
    ) -> Result<Tree<'p, B, N>, NoMemory>
        ensures { IsOkAnd result (λ t.
            t ≡ record { root = root; limit = limit; grown = 0; released = []; tree = Open root }) }
    {
        let node = Node {
            shape: Shape::Open(Place {
                spot: root.again(),
                fresh: false,
            }),
        };
        Ok(Tree {
            alloc,
            posts,
            root,
            limit,
            grown: 0,
            released: Vec::new(alloc),
            node,
        })
    }

    /// The released items, first released first.
    pub fn released(&self) -> &[B::Item]
        ensures value { result.now ≡ self.now.released }
        ensures kin { ItemsOfKin B.sense (B.sense.kin self.now.root.value) result.now }
    {
        self.released.as_slice()
    }

    /// How many growths stand. At the greatest number of 64 bits it stays.
    pub fn grown(&self) -> u64
        ensures { result ≡ self.now.grown }
    {
        self.grown
    }

    /// The most items that are released.
    pub fn limit(&self) -> u32
        ensures { result ≡ self.now.limit }
    {
        self.limit
    }

    /// The spot that the tree began with.
    pub fn root(&self) -> Spot<B, N>
        ensures { result ≡ self.now.root }
    {
        self.root.again()
    }

    /// The posts over which the tree was made.
    pub fn posts(&self) -> &'p Posts<B, N>
        ensures { result.now ≡ N.shelves }
    {
        self.posts.have_name();
        self.posts
    }

    /// Whether the limit is reached or the tree is empty. Callers also learn what holds of every tree.
    pub fn is_over(&self) -> bool
        ensures over { IsTrue result ↔ ((length self.now.released ≡ self.now.limit)
            ⊎ (self.now.tree ≡ Cat none)) }
        ensures sound { Sound B.sense self.now }
    {
        self.released.len() >= self.limit as usize || self.node.is_empty()
    }

    /// The released items, first released first. What is left of the tree is dropped.
    pub fn into_items(self) -> Vec<B::Item>
        ensures value { result.items ≡ self.entry.released }
        ensures kin { ItemsOfKin B.sense (B.sense.kin self.entry.root.value) result.items }
    {
        let Tree {
            alloc: _,
            posts: _,
            root: _,
            limit: _,
            grown: _,
            released,
            node: _,
        } = self;
        released
    }

    /// Whether the spot is open.
    pub fn is_open(&self, spot: &Spot<B, N>) -> bool
        ensures { result ≡ has (numbered spot.now.index) self.now.tree }
    {
        find(&self.node, spot.number()).is_some()
    }

    /// The first open place, or nothing where no place is open.
    pub fn leftmost(&self) -> Option<Spot<B, N>>
        ensures { result ≡ first_place self.now.tree }
    {
        match leftmost(&self.node) {
            Some(place) => Some(place.spot.again()),
            None => None,
        }
    }

    /// The way to the leftmost open place of the spot's number, or nothing where no such place is open.
    pub fn path_of(&self, spot: &Spot<B, N>) -> Result<Option<Path>, NoMemory>
        ensures { IfOk result (λ p. p ≡ path_at (numbered spot.now.index) self.now.tree) }
    {
        way_to(self.alloc, &self.node, spot.number())
    }

    /// Moves the tree by steps other than growing until none applies, and answers how many items are released in all.
    /// Without memory the tree is on the way there.
    pub fn settle<R: Wait + Sync>(&mut self, rt: &R) -> Result<u64, NoMemory>
        ensures advances { Advances B.sense self.old self.new }
        ensures settled { IfOk result (λ n.
            (n ≡ length self.new.released) × IsSettled self.new.limit (state self.new)) }
    {
        let root = self.posts.branch(&self.root);
        advance(
            rt,
            self.alloc,
            self.posts,
            root,
            self.limit,
            &mut self.released,
            &mut self.node,
        )
    }

    /// Lets a growth stand at the leftmost open place of the spot's number, and settles the tree.
    /// `Stale` comes where no such place is open: the tree is as before and the growth is dropped.
    /// Without memory either nothing has changed, or the growth stands and the tree is on the way to a settled one.
    pub fn grow<R: Wait + Sync>(
        &mut self,
        rt: &R,
        spot: &Spot<B, N>,
        growth: Growth<B>,
    ) -> Result<Grown<B, N>, NoMemory>
        requires { GrowthOf B.sense spot.now.value growth }
        ensures answer { IfOk result (Answers B.sense spot.now growth self.old self.new) }
        ensures refused { OnErr result (Refused B.sense spot.now growth self.old self.new) }
        ensures same { Same self.old self.new }
    {
        let root = self.posts.branch(&self.root);
        grow(
            rt,
            self.alloc,
            self.posts,
            root,
            self.limit,
            spot,
            growth,
            &mut self.grown,
            &mut self.released,
            &mut self.node,
        )
    }
}
