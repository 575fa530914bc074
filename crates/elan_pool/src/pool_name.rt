//! The name that a pool and its seats carry. Only clauses use it.
ghost use Rattle.std.specs.Prelude.{List};
ghost use Rattle.elan_pool.specs.Names.{Deque};

use std::marker::Brand;

/// Which deques a value belongs to. A search picks its name, so that types tell the seats of two pools apart.
pub trait PoolName {
    ghost use Rattle.std.specs.Prelude.{List};
    ghost use Rattle.elan_pool.specs.Names.{Deque};

    /// The deques, by number.
    ghost deques: { List Deque };
}

impl PoolName for Brand {
    ghost use Rattle.std.specs.Prelude.{[]};

    ghost deques = { [] };
}
