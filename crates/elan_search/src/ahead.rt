//! What a search goes by.
ghost use Rattle.std.specs.Prelude.{◌≡◌, ◌<◌, ◌↔◌, ℕ, List, length, IfOk, IsTrue};
ghost use Rattle.std.specs.List.{All, Contains};
ghost use Rattle.std.specs.Option.{option_copied};
ghost use Rattle.elan_terms.specs.declared.tree.Term.{Term};
ghost use Rattle.elan_laws.specs.Matching.{AscendLexicographically};
ghost use Rattle.elan_table.specs.Rows.{terms};
ghost use Rattle.elan_search.specs.Bounds.{term_if, Bounds};

use elan_table::{Name, NoMemory, Table, TermRef};
use std::alloc::Global;
use std::sync::Wait;

/// What is known of the next term of a list.
#[derive(Drop)]
pub enum Low<N: Name> {
    /// There is none.
    Empty,
    /// None stands before this one.
    At(TermRef<N>),
}

/// Lists of terms that are not kept: each term of a list is asked for, behind those in front of it.
/// The lists are all of one length. They ascend lexicographically, so each stands there once.
pub trait Ahead<N: Name> {
    /// The lists.
    ghost lists: { Self → List (List Term) };

    /// How many terms each of them has.
    ghost long: { Self → ℕ };

    /// How many terms each list has.
    fn count(&self) -> usize
        ensures { result ≡ long self.now };

    /// A bound for the next term of the lists that begin with the terms of `done` and go on with a
    /// term after the floor: `Empty` only where there is no such list; else a term after the floor,
    /// which need not be in any list, but no such list goes on with a term before it.
    fn bound<R: Wait>(
        &self,
        rt: &R,
        alloc: Global,
        table: &Table<N>,
        done: &[TermRef<N>],
        floor: Option<&TermRef<N>>,
    ) -> Result<Low<N>, NoMemory>
        requires { length done.now < long self.now }
        ensures { IfOk result (Bounds (lists self.now) (terms done.now) (term_if (option_copied floor.entry))) };

    /// Whether the terms of `done` are one of the lists.
    fn fits<R: Wait>(
        &self,
        rt: &R,
        alloc: Global,
        table: &Table<N>,
        done: &[TermRef<N>],
    ) -> Result<bool, NoMemory>
        requires { length done.now ≡ long self.now }
        ensures { IfOk result (λ yes. IsTrue yes ↔ Contains (lists self.now) (terms done.now)) };

    /// The lists are so long.
    ghost all_long: { (a : Self) → All (λ xs. length xs ≡ long a) (lists a) };

    /// The lists ascend.
    ghost ascend: { (a : Self) → AscendLexicographically (lists a) };
}
