//! What holds of every graph. The law is the contract of a call that does nothing.

ghost use Rattle.std.specs.Prelude.{◌≡◌, ◌↔◌, ℕ, List, true};
ghost use Rattle.elan_cycles.specs.declared.edge.Edge.{Edge as EdgeValue};
ghost use Rattle.elan_cycles.specs.Edges.{Path};
ghost use Rattle.elan_cycles.specs.Search.{leads};

/// The test that computes whether a way leads from one node to another answers `true` exactly where
/// one does.
pub fn leads_where_a_way_does()
    ensures { (edges : List EdgeValue) (a b : ℕ) → (leads edges a b ≡ true) ↔ Path edges a b }
{}
