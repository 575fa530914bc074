//! An open place of a tree.
use crate::name::Name;
use crate::posts::Spot;
use std::marker::Model;

/// An open place: the branch that is to grow there, and whether the place was made since the marks were last cleared.
#[derive(Drop)]
pub struct Place<B, N: Name> {
    pub spot: Spot<B, N>,
    pub fresh: bool,
}

impl<B, N: Name> Model for Place<B, N> {
    ghost use Rattle.elan_tree.specs.Marks.{Place, place_code};

    ghost Value = { Place B };

    ghost coded = { place_code B.code };

    ghost view = { λ p. record { spot = p.spot; fresh = p.fresh } };
}
