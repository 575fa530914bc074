//! All matches in a list.
ghost use Rattle.std.specs.Prelude.{◌≡◌, map, IfOk};
ghost use Rattle.elan_terms.specs.Match.{variables as spec_variables, matches as spec_matches};
ghost use Rattle.elan_match.specs.Plain.{AreNumbered};
ghost use Rattle.elan_table.specs.Rows.{terms};

use crate::NoMemory;
use crate::walk::AcWalk;
use elan_match::Bindings;
use elan_table::{Name, Table, TermRef};
use elan_terms::Pattern;
use sqlite_items::Items;
use std::alloc::Global;
use std::sync::Wait;

/// All matches in order, each once.
pub fn matches<N: Name, R: Wait>(
    rt: &R,
    alloc: Global,
    table: &Table<N>,
    pattern: &Pattern,
    first: u32,
    term: TermRef<N>,
) -> Result<Items<Bindings<N>>, NoMemory>
    requires { AreNumbered first (spec_variables pattern.now) }
    ensures { IfOk result (λ all. map terms all ≡ spec_matches N.shapes pattern.now term.value) }
{
    let mut walk = AcWalk::new(alloc, pattern, first, term)?;
    let mut all = Items::new(alloc);
    'matches: while let Some(values) = walk.next(rt, alloc, table)? {
        all.push(values)?;
    }
    Ok(all)
}
