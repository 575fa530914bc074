//! The deques of a pool, which carry no name yet.
ghost use Rattle.std.specs.Prelude.{◌≤◌, vec_len};

use crate::dock::NewDeque;
use elan_tree::name::Name;

/// New deques, 1 to 64 of them, which carry no name yet.
#[derive(Drop)]
pub struct Deques<B, N: Name> {
    pub(crate) list: Vec<NewDeque<B, N>>,
    ghost some: { 1 ≤ vec_len list },
    ghost few: { vec_len list ≤ 64 },
}
