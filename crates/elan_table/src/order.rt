//! The term order of rows.
ghost use Rattle.std.specs.Prelude.{◌≡◌};
ghost use Rattle.std.specs.Cmp.Lexicographic.{slice_cmp};
ghost use Rattle.elan_terms.specs.Term as spec;
ghost use Rattle.elan_table.specs.Rows.{terms};

use crate::name::Name;
use crate::row::{TermRef, Top};
use crate::rows::Rows;
use std::cmp::Ordering;

impl<N: Name> Rows<N> {
    /// The term order. Rows of equal numbers are equal, and are not looked into.
    #[cycle(compare)]
    pub(crate) fn compare(&self, a: &TermRef<N>, b: &TermRef<N>) -> Ordering
        ensures { result ≡ spec.order a.now.value b.now.value }
    {
        if a.number() == b.number() {
            a.agrees(b);
            Ordering::Equal
        } else {
            self.compare_nodes(a, b)
        }
    }

    #[cycle(compare)]
    fn compare_nodes(&self, a: &TermRef<N>, b: &TermRef<N>) -> Ordering
        ensures { result ≡ spec.order a.now.value b.now.value }
    {
        match (self.row(a).node(), self.row(b).node()) {
            (Top::Int(x), Top::Int(y)) => x.cmp(&y),
            (Top::Int(_), Top::App(_, _)) => Ordering::Less,
            (Top::App(_, _), Top::Int(_)) => Ordering::Greater,
            (Top::App(f, xs), Top::App(g, ys)) => match f.0.cmp(&g.0) {
                Ordering::Equal => match xs.len().cmp(&ys.len()) {
                    Ordering::Equal => self.compare_all(xs, ys),
                    unequal => unequal,
                },
                unequal => unequal,
            },
        }
    }

    #[cycle(compare)]
    fn compare_all(&self, xs: &[TermRef<N>], ys: &[TermRef<N>]) -> Ordering
        ensures { result ≡ slice_cmp spec.order (terms xs.now) (terms ys.now) }
    {
        match xs {
            [] => match ys {
                [] => Ordering::Equal,
                [_, ..] => Ordering::Less,
            },
            [x, xs @ ..] => match ys {
                [] => Ordering::Greater,
                [y, ys @ ..] => match self.compare(x, y) {
                    Ordering::Equal => self.compare_all(xs, ys),
                    unequal => unequal,
                },
            },
        }
    }
}
