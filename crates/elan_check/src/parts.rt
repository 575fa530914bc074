//! Sections that hold rules and definitions.

use elan_modules::LoadedText;
use elan_syntax::{Definition, RuleOutline};
use elan_terms::SortId;
use elan_variables::Variables;
use sqlite_items::Items;

/// A section in its text, with its sort.
#[derive(Drop)]
pub(crate) enum Part<'a> {
    /// Rules with the variables of the section, and the tokens that are the names of these.
    Rules {
        text: &'a LoadedText,
        sort: SortId,
        tokens: Items<u32>,
        variables: Variables,
        rules: &'a [RuleOutline],
    },
    Strategies {
        text: &'a LoadedText,
        sort: SortId,
        definitions: &'a [Definition],
    },
}
