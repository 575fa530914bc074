//! The shared list of branches, and the spots that name them.
ghost use Rattle.std.specs.Prelude.{◌≡◌, IfOk};

use crate::name::Name;
use boxcar::{Pushed, Vec};
use elan_text::NoMemory;
use std::alloc::{AllocError, Global};
use std::marker::{Model, PhantomData};
use std::sync::Wait;

/// An empty list of branches that has no name yet.
#[derive(Drop)]
pub struct Blank<B> {
    list: Vec<B>,
}

impl<B> Model for Blank<B> {
    ghost use Rattle.boxcar.specs.Table.{Shelves, shelves_coded};

    ghost Value = { Shelves };

    ghost coded = { shelves_coded };

    ghost view = { λ p. p.list };
}

impl<B: Drop> Blank<B> {
    /// An empty list.
    pub fn new(alloc: Global) -> Result<Blank<B>, NoMemory> {
        Ok(Blank {
            list: Vec::new(alloc)?,
        })
    }

    /// The list under the name that stands for it. Takes no memory.
    pub fn named<N: Name>(self) -> Posts<B, N>
        requires { self ≡ N.shelves }
        ensures { result ≡ N.shelves }
    {
        Posts {
            list: self.list,
            of: PhantomData,
        }
    }
}

/// A shared list of branches, which only grows.
#[derive(Drop)]
pub struct Posts<B, N: Name> {
    list: Vec<B>,
    of: PhantomData<N>,
}

impl<B, N: Name> Model for Posts<B, N> {
    ghost use Rattle.std.specs.Prelude.{◌≡◌};
    ghost use Rattle.boxcar.specs.Table.{Shelves, shelves_coded};

    ghost Value = { Shelves };

    ghost coded = { shelves_coded };

    ghost view = { λ p. p.list };

    ghost invariant = { λ p. p.list ≡ N.shelves };
}

/// Names one posted branch. Contracts see the branch and its number.
#[derive(Drop)]
pub struct Spot<B, N: Name> {
    pushed: Pushed<B>,
    of: PhantomData<N>,
}

impl<B, N: Name> Model for Spot<B, N> {
    ghost use Rattle.std.specs.Prelude.{◌≡◌};
    ghost use Rattle.boxcar.specs.Table.{Where, where_coded, Shows};

    ghost Value = { Where B };

    ghost coded = { where_coded B.code };

    ghost view = { λ s. s.pushed };

    ghost invariant = { λ s. Shows N.shelves s.pushed };
}

impl<B: Drop, N: Name> Posts<B, N> {
    /// Posts a branch. Its spot names it.
    pub fn post<R: Wait>(&self, rt: &R, branch: B) -> Result<Spot<B, N>, NoMemory>
        ensures { IfOk result (λ s. s.value ≡ branch) }
    {
        match self.list.push_shown(rt, branch) {
            Ok(pushed) => Ok(Spot {
                pushed,
                of: PhantomData,
            }),
            Err(_) => Err(AllocError),
        }
    }
}

impl<B, N: Name> Posts<B, N> {
    /// Hands out that the posts are those of the name.
    pub(crate) fn have_name(&self)
        ensures { self.now ≡ N.shelves }
    {
        let _ = &self.list;
    }

    /// The branch that was posted.
    pub fn branch(&self, spot: &Spot<B, N>) -> &B
        ensures { result.now ≡ spot.now.value }
    {
        self.list.value(&spot.pushed)
    }

    /// Two spots of one number name one branch.
    pub fn agrees(&self, a: &Spot<B, N>, b: &Spot<B, N>)
        requires { a.now.index ≡ b.now.index }
        ensures { a.now.value ≡ b.now.value }
    {
        self.list.agrees(&a.pushed, &b.pushed);
    }
}

impl<B, N: Name> Spot<B, N> {
    pub fn number(&self) -> u64
        ensures { result ≡ self.now.index }
    {
        self.pushed.index() as u64
    }

    /// Names the same branch.
    pub fn again(&self) -> Spot<B, N>
        ensures { result ≡ self.now }
    {
        Spot {
            pushed: self.pushed.again(),
            of: PhantomData,
        }
    }
}
