//! The name that values which belong together carry. Only clauses use it.
ghost use Rattle.boxcar.specs.Table.{Shelves};

use std::marker::Brand;

/// Which list of posts a value belongs to. A search picks its name, so that types tell the lists of two searches apart.
pub trait Name {
    ghost use Rattle.boxcar.specs.Table.{Shelves};

    /// The list of posts.
    ghost shelves: { Shelves };
}

impl Name for Brand {
    ghost use Rattle.std.specs.Prelude.{[]};

    ghost shelves = { record { tag = []; buckets = [] } };
}
