//! Branches, what they grow to, and what a tree answers to a growth.
ghost use Rattle.std.specs.Prelude.{◌≡◌, ℕ, List, [], ◌∷◌, ◌++◌, IfOk};
ghost use Rattle.elan_tree.specs.Sense.{Sense};
ghost use Rattle.elan_tree.specs.Growths.{GrowthOf, ResumedOf};

use crate::name::Name;
use crate::posts::Spot;
use elan_text::NoMemory;
use std::sync::{Arc, Wait};

/// A part of a search: it stands for a finite list of items.
pub trait Branch: Sized + Send + Sync + Drop {
    /// What a search answers.
    type Item: Send + Sync + Drop;

    /// A continuation: what is made of an item.
    type Then: Send + Sync + Drop;

    /// What items mean. Only clauses use it.
    type Meaning;

    /// What items, branches and continuations mean, and the kin of each.
    ghost sense: { Sense Self Self.Item Self.Then Self.Meaning };

    /// One step of the search. The list of the growth is the list of the branch, and all of it has the branch's kin.
    fn expand<R: Wait + Sync>(&self, rt: &R) -> Result<Growth<Self>, NoMemory>
        ensures { IfOk result (λ g. GrowthOf sense self.now g) };

    /// Puts an item through a continuation of its kin. The answer's list is what the continuation makes of the item.
    /// The item is only lent.
    fn resume<R: Wait + Sync>(
        rt: &R,
        then: &Self::Then,
        item: &Self::Item,
    ) -> Result<Resumed<Self>, NoMemory>
        requires { sense.kin_of_then then.now ≡ sense.kin_of_item item.now }
        ensures { IfOk result (λ r. ResumedOf sense then.now item.now r) };
}

/// What a branch grows to.
#[derive(Drop)]
pub enum Growth<B: Branch> {
    /// No item.
    Nothing,
    /// One item.
    Item(B::Item),
    /// The items of another branch.
    Next(B),
    /// The items of these branches, one branch after the other.
    Many(Vec<B>),
    /// The first of the branches that has an item counts: its continuation is put through its items, or through the first
    /// of them alone.
    Scope {
        one: bool,
        alts: Vec<(B, Arc<B::Then>)>,
    },
}

/// What a continuation makes of an item.
#[derive(Drop)]
pub enum Resumed<B: Branch> {
    /// One item.
    Item(B::Item),
    /// The items of a branch.
    Next(B),
}

/// What a tree answers to a growth.
#[derive(Drop)]
pub enum Grown<B, N: Name> {
    /// The growth stands and the tree is settled.
    Taken {
        /// How many items are released in all.
        released: u64,
        /// How many places that were open before were removed, besides the one that grew.
        cut: u64,
        /// The places that were made by this call and are still open, in tree order.
        opened: Vec<Spot<B, N>>,
    },
    /// No open place has the spot's number. Nothing changed.
    Stale,
}
