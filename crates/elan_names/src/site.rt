//! Where a strategy stands.

ghost use Rattle.std.specs.Prelude.{◌<◌, ◌^◌, length};
ghost use Rattle.elan_names.specs.Indexed.{IsIndexOf};

use crate::heads::Names;
use crate::index::Index;
use elan_lexer::Token;
use elan_program::Operator;
use elan_terms::SortId;

/// The rules, definitions and operators of a program, with their index.
#[derive(Clone, Copy)]
pub struct Known<'a> {
    pub names: &'a Names,
    pub operators: &'a [Operator],
    pub index: &'a Index,
    pub ghost indexed: { IsIndexOf index.now names.now operators.now },
}

/// The definition in whose body a strategy stands.
#[derive(Clone, Copy)]
pub struct Body<'a> {
    /// Its parameters, by the numbers of their tokens, which are fewer than 4,294,967,296.
    pub parameters: &'a [u32],
    /// Its sort.
    pub sort: SortId,
    pub ghost few: { length parameters.now < 2 ^ 32 },
}

/// Where a strategy stands: in this text, in a program with these names, and in this body, if it
/// is in one.
#[derive(Clone, Copy)]
pub struct Site<'a> {
    pub bytes: &'a [u8],
    pub tokens: &'a [Token],
    pub known: Known<'a>,
    pub body: Option<Body<'a>>,
}
