//! Copies with one owner.
ghost use Rattle.std.specs.Prelude.{◌≡◌, ◌++◌, IfOk};
ghost use Rattle.elan_table.specs.Rows.{terms};

use crate::NoMemory;
use crate::name::Name;
use crate::row::{TermRef, Top};
use crate::rows::Rows;
use elan_terms::{Term, TermNode};
use sqlite_items::Items;
use std::alloc::Global;

impl<N: Name> Rows<N> {
    /// A copy with one owner.
    #[cycle(to_owned)]
    pub(crate) fn to_owned(&self, alloc: Global, term: &TermRef<N>) -> Result<Term, NoMemory>
        ensures { IfOk result (λ t. t ≡ term.now.value) }
    {
        match self.row(term).node() {
            Top::Int(z) => Ok(Term {
                node: TermNode::Int(z),
            }),
            Top::App(op, rows) => {
                let mut args = Items::new(alloc);
                self.owned_onto(alloc, &mut args, rows)?;
                Ok(Term {
                    node: TermNode::App(op, args),
                })
            }
        }
    }

    #[cycle(to_owned)]
    fn owned_onto(
        &self,
        alloc: Global,
        out: &mut Items<Term>,
        rows: &[TermRef<N>],
    ) -> Result<(), NoMemory>
        ensures { IfOk result (λ _. out.new ≡ out.old ++ terms rows.now) }
    {
        match rows {
            [] => Ok(()),
            [first, rest @ ..] => {
                out.push(self.to_owned(alloc, first)?)?;
                self.owned_onto(alloc, out, rest)
            }
        }
    }
}
