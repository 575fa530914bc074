//! Modules that are loaded.

use crate::rows::{Row, both, gives, having};
use elan_run::Status;
use elan_text::Code;
use std::test::Fail;

/// A module with a parameter that needs another.
const WRAPPED: Row<'static> = (
    b"module top\nimport cell[s]; end\nsort s; end\noperators\nz : s;\nend\nend\n",
    b"top",
    b"cell[s]",
    b"id",
    b"wrap(z)",
    b"[1] result term: wrap(z)\n[] end\n",
);

/// A text that it can do with.
const WRAP: &[u8] =
    b"module cell[X]\nsort cell[X]; end\noperators\nwrap(@) : (X) cell[X];\nend\nend\n";

/// The same with another spelling.
const PACK: &[u8] =
    b"module cell[X]\nsort cell[X]; end\noperators\npack(@) : (X) cell[X];\nend\nend\n";

#[test]
fn a_module_with_a_parameter_is_loaded_from_the_first_that_has_it(
    rt: HostRuntime,
) -> Result<(), Fail> {
    let alloc = rt.alloc();
    let first = having(alloc, "cell", WRAP, &[])?;
    let second = having(alloc, "cell", PACK, &[])?;
    let mut loaders = both(alloc, first, second)?;
    gives(&rt, &WRAPPED, &mut loaders, Status::Done, WRAPPED.5)?;
    loaders.reverse();
    let line = b"error E15 14:1 no reading\n";
    gives(
        &rt,
        &WRAPPED,
        &mut loaders,
        Status::Refused(Code::E15),
        line,
    )
}
