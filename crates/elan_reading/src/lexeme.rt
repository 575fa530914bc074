//! Tokens and variables as readings see them.

use elan_lexer::Kind;
use elan_terms::SortId;
use elan_text::Name;
use sqlite_items::Items;

/// A token's kind and bytes.
#[derive(Debug, Drop)]
pub struct Lexeme {
    pub kind: Kind,
    pub text: Items<u8>,
}

/// A variable of a section: its name in the text, its sort, and the number that it has in a tree.
#[derive(Debug, Drop)]
pub struct Variable {
    pub name: Name,
    pub sort: SortId,
    pub number: u32,
}
