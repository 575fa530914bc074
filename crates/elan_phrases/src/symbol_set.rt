//! The sets of symbols that the grammar speaks of.

ghost use Rattle.std.specs.Prelude.{◌≡◌};
ghost use Rattle.elan_phrases.specs.Symbols as spec;
ghost use Rattle.elan_phrases.specs.Beginnings as begin;
ghost use Rattle.elan_phrases.specs.Sets.{set_of};

use crate::symbol::{Importer, Symbol, names, same_symbol};

/// A set of symbols that the grammar speaks of.
#[derive(Clone, Copy, Debug)]
pub enum SymbolSet {
    /// The words that are not reserved.
    Names,
    /// The names that may label a rule.
    Labels,
    /// The names that may be that of a module where this imports.
    Importable(Importer),
    /// `global` and `local`.
    Visibilities,
    /// `id` and `fail`.
    PlainSteps,
    /// `dc` and `first`.
    Choices,
    /// What a spelling is made of.
    Spelled,
    /// What a text is made of.
    InText,
    /// What begins a step of a strategy.
    BeginsStep,
    /// What begins another name of a list, which may have a comma before it.
    BeginsAnotherName,
    /// What begins references, `global` and `local` among them.
    BeginsImported,
    /// What begins a declaration of an operator, `global` and `local` among them.
    BeginsDeclared,
    /// What begins a rule, `global` and `local` among them.
    BeginsRuled,
    /// What begins a clause of a rule.
    BeginsClause,
    /// What begins a mark of a section of strategies: `global`, `local` and `implicit`.
    BeginsMark,
    /// What begins a definition of a strategy, such marks among them.
    BeginsDefined,
    /// What begins a section of a module.
    BeginsSection,
}

/// Whether the symbol is in the set.
pub fn is_in(symbol: Symbol, set: SymbolSet) -> bool
    ensures { result ≡ set_of set symbol }
{
    match set {
        SymbolSet::Names => names(symbol),
        SymbolSet::Labels => labels(symbol),
        SymbolSet::Importable(importer) => importable(importer, symbol),
        SymbolSet::Visibilities => visibilities(symbol),
        SymbolSet::PlainSteps => plain_steps(symbol),
        SymbolSet::Choices => choices(symbol),
        SymbolSet::Spelled => spelled(symbol),
        SymbolSet::InText => in_text(symbol),
        SymbolSet::BeginsStep => begins_step(symbol),
        SymbolSet::BeginsAnotherName => same_symbol(symbol, Symbol::Comma) || names(symbol),
        SymbolSet::BeginsImported => visibilities(symbol) || names(symbol),
        SymbolSet::BeginsDeclared => visibilities(symbol) || spelled(symbol),
        SymbolSet::BeginsRuled => visibilities(symbol) || same_symbol(symbol, Symbol::LeftSquare),
        SymbolSet::BeginsClause => begins_clause(symbol),
        SymbolSet::BeginsMark => begins_mark(symbol),
        SymbolSet::BeginsDefined => begins_mark(symbol) || same_symbol(symbol, Symbol::LeftSquare),
        SymbolSet::BeginsSection => begins_section(symbol),
    }
}

/// Whether it may label a rule.
#[tactic(auto, unfolding(crate::specs::Symbols::labels, crate::specs::Symbols::names))]
fn labels(symbol: Symbol) -> bool
    ensures { result ≡ spec.labels symbol }
{
    match symbol {
        Symbol::Id
        | Symbol::Fail
        | Symbol::Dk
        | Symbol::Dc
        | Symbol::First
        | Symbol::Repeat
        | Symbol::Iterate
        | Symbol::Normalise => false,
        _ => names(symbol),
    }
}

/// Whether it is `id` or `fail`.
fn plain_steps(symbol: Symbol) -> bool
    ensures { result ≡ spec.plain_steps symbol }
{
    same_symbol(symbol, Symbol::Id) || same_symbol(symbol, Symbol::Fail)
}

/// Whether it is `dc` or `first`.
#[tactic(auto, unfolding(crate::specs::Symbols::choices))]
fn choices(symbol: Symbol) -> bool
    ensures { result ≡ spec.choices symbol }
{
    matches!(symbol, Symbol::Dc | Symbol::First)
}

/// Whether it is a name that does not end the imports of an `LPL` text.
#[tactic(auto, unfolding(crate::specs::Symbols::imported, crate::specs::Symbols::names))]
fn imported(symbol: Symbol) -> bool
    ensures { result ≡ spec.imported symbol }
{
    match symbol {
        Symbol::Start => false,
        _ => names(symbol),
    }
}

/// Whether it may be the name of a module where this imports.
#[tactic(auto, unfolding(crate::specs::Symbols::imported, crate::specs::Symbols::names))]
fn importable(importer: Importer, symbol: Symbol) -> bool
    ensures { result ≡ spec.importable importer symbol }
{
    match importer {
        Importer::AModule => names(symbol),
        Importer::AnLplText => imported(symbol),
    }
}

/// Whether it is `global` or `local`.
#[tactic(auto, unfolding(crate::specs::Symbols::visibilities))]
fn visibilities(symbol: Symbol) -> bool
    ensures { result ≡ spec.visibilities symbol }
{
    matches!(symbol, Symbol::Global | Symbol::Local)
}

/// Whether it is a token of a spelling: no reserved word, no number, and not `:`, `;`, `=>` or `:=`.
#[tactic(auto, unfolding(crate::specs::Symbols::spelled, crate::specs::Symbols::names))]
fn spelled(symbol: Symbol) -> bool
    ensures { result ≡ spec.spelled symbol }
{
    match symbol {
        Symbol::Comma
        | Symbol::LeftRound
        | Symbol::RightRound
        | Symbol::LeftSquare
        | Symbol::RightSquare
        | Symbol::Hole
        | Symbol::Star
        | Symbol::Plus
        | Symbol::Sign => true,
        _ => names(symbol),
    }
}

/// Whether it is a token of a text: neither a reserved word nor `=>` nor `:=`.
#[tactic(auto, unfolding(crate::specs::Symbols::in_text, crate::specs::Symbols::names))]
fn in_text(symbol: Symbol) -> bool
    ensures { result ≡ spec.in_text symbol }
{
    match symbol {
        Symbol::Arrow | Symbol::Becomes => false,
        Symbol::Number
        | Symbol::Comma
        | Symbol::Semicolon
        | Symbol::Colon
        | Symbol::LeftRound
        | Symbol::RightRound
        | Symbol::LeftSquare
        | Symbol::RightSquare
        | Symbol::Hole
        | Symbol::Star
        | Symbol::Plus
        | Symbol::Sign => true,
        _ => names(symbol),
    }
}

/// Whether it begins a step of a strategy.
fn begins_step(symbol: Symbol) -> bool
    ensures { result ≡ begin.begins_step symbol }
{
    plain_steps(symbol)
        || labels(symbol)
        || same_symbol(symbol, Symbol::LeftRound)
        || same_symbol(symbol, Symbol::Dk)
        || choices(symbol)
        || same_symbol(symbol, Symbol::Repeat)
        || same_symbol(symbol, Symbol::Iterate)
        || same_symbol(symbol, Symbol::Normalise)
}

/// Whether it begins a clause of a rule.
fn begins_clause(symbol: Symbol) -> bool
    ensures { result ≡ begin.begins_clause symbol }
{
    same_symbol(symbol, Symbol::Where) || same_symbol(symbol, Symbol::If)
}

/// Whether it is `global`, `local` or `implicit`.
fn begins_mark(symbol: Symbol) -> bool
    ensures { result ≡ begin.begins_mark symbol }
{
    visibilities(symbol) || same_symbol(symbol, Symbol::Implicit)
}

/// Whether it begins a section of a module.
fn begins_section(symbol: Symbol) -> bool
    ensures { result ≡ begin.begins_section symbol }
{
    same_symbol(symbol, Symbol::Import)
        || same_symbol(symbol, Symbol::Sort)
        || same_symbol(symbol, Symbol::Operators)
        || same_symbol(symbol, Symbol::Rules)
        || same_symbol(symbol, Symbol::Strategies)
}
