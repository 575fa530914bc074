//! What a token is to the grammar.

ghost use Rattle.std.specs.Prelude.{◌≡◌, map};
ghost use Rattle.elan_phrases.specs.Symbols as spec;

use elan_lexer::Kind;

/// What a token is to the grammar: a reserved word, a word with a place of its own, another name, a number or a sign.
#[derive(Clone, Copy, Debug, PartialEq, Eq)]
pub enum Symbol {
    Module,
    Import,
    Sort,
    Operators,
    Rules,
    Strategies,
    For,
    Global,
    Local,
    End,
    Where,
    If,
    Lpl,
    Id,
    Fail,
    Dk,
    Dc,
    First,
    Repeat,
    Iterate,
    Normalise,
    One,
    Implicit,
    Pri,
    AssocLeft,
    AssocRight,
    Ac,
    Description,
    Query,
    Of,
    Result,
    Start,
    With,
    Name,
    Number,
    Arrow,
    Becomes,
    Comma,
    Semicolon,
    Colon,
    LeftRound,
    RightRound,
    LeftSquare,
    RightSquare,
    Hole,
    Star,
    Plus,
    Sign,
}

/// What imports modules.
#[derive(Clone, Copy, Debug, PartialEq, Eq)]
pub enum Importer {
    /// A module, which may import one that is called `start`.
    AModule,
    /// The `LPL` text, whose list the word `start` ends.
    AnLplText,
}

/// A token as the grammar sees it.
#[derive(Clone, Copy, Debug)]
pub struct Lexeme<'a> {
    pub symbol: Symbol,
    pub text: &'a [u8],
}

/// Whether the two are one symbol.
#[tactic(auto, unfolding(crate::specs::Symbols::same_symbol))]
pub fn same_symbol(a: Symbol, b: Symbol) -> bool
    ensures { result ≡ spec.same_symbol a b }
{
    a == b
}

/// The words that no name may be.
const RESERVED_WORDS: [(&[u8], Symbol); 13] = [
    (b"module", Symbol::Module),
    (b"import", Symbol::Import),
    (b"sort", Symbol::Sort),
    (b"operators", Symbol::Operators),
    (b"rules", Symbol::Rules),
    (b"strategies", Symbol::Strategies),
    (b"for", Symbol::For),
    (b"global", Symbol::Global),
    (b"local", Symbol::Local),
    (b"end", Symbol::End),
    (b"where", Symbol::Where),
    (b"if", Symbol::If),
    (b"LPL", Symbol::Lpl),
];

/// The words that a strategy is made of, and no label may be.
const STRATEGY_WORDS: [(&[u8], Symbol); 8] = [
    (b"id", Symbol::Id),
    (b"fail", Symbol::Fail),
    (b"dk", Symbol::Dk),
    (b"dc", Symbol::Dc),
    (b"first", Symbol::First),
    (b"repeat", Symbol::Repeat),
    (b"iterate", Symbol::Iterate),
    (b"normalise", Symbol::Normalise),
];

/// The other words that have a place of their own. They are names and labels elsewhere.
const PLACED_WORDS: [(&[u8], Symbol); 12] = [
    (b"one", Symbol::One),
    (b"implicit", Symbol::Implicit),
    (b"pri", Symbol::Pri),
    (b"assocLeft", Symbol::AssocLeft),
    (b"assocRight", Symbol::AssocRight),
    (b"AC", Symbol::Ac),
    (b"description", Symbol::Description),
    (b"query", Symbol::Query),
    (b"of", Symbol::Of),
    (b"result", Symbol::Result),
    (b"start", Symbol::Start),
    (b"with", Symbol::With),
];

/// The signs that the grammar names.
const NAMED_SIGNS: [(&[u8], Symbol); 12] = [
    (b"=>", Symbol::Arrow),
    (b":=", Symbol::Becomes),
    (b",", Symbol::Comma),
    (b";", Symbol::Semicolon),
    (b":", Symbol::Colon),
    (b"(", Symbol::LeftRound),
    (b")", Symbol::RightRound),
    (b"[", Symbol::LeftSquare),
    (b"]", Symbol::RightSquare),
    (b"@", Symbol::Hole),
    (b"*", Symbol::Star),
    (b"+", Symbol::Plus),
];

/// The symbol that a table gives to a text, or else the other.
fn look_up(table: &[(&[u8], Symbol)], text: &[u8], other: Symbol) -> Symbol
    ensures { result ≡ spec.found_or
        (spec.look_up text.now (map (λ row. (row.0.now, row.1)) table.now)) other }
{
    'rows: for (word, symbol) in table {
        if text == *word {
            return *symbol;
        }
    }
    other
}

/// The symbol of a word.
fn word_symbol(word: &[u8]) -> Symbol
    ensures { result ≡ spec.word_symbol word.now }
{
    let symbol = look_up(&PLACED_WORDS, word, Symbol::Name);
    let symbol = look_up(&STRATEGY_WORDS, word, symbol);
    look_up(&RESERVED_WORDS, word, symbol)
}

/// The symbol of a token of this kind with these bytes.
#[tactic(auto, unfolding(crate::specs::Symbols::symbol_of, crate::specs::Symbols::named_signs))]
pub fn symbol_of(kind: Kind, text: &[u8]) -> Symbol
    ensures { result ≡ spec.symbol_of kind text.now }
{
    match kind {
        Kind::Word => word_symbol(text),
        Kind::Number => Symbol::Number,
        Kind::Sign => look_up(&NAMED_SIGNS, text, Symbol::Sign),
    }
}

/// Whether it is a word that is not reserved.
#[tactic(auto, unfolding(crate::specs::Symbols::names))]
pub fn names(symbol: Symbol) -> bool
    ensures { result ≡ spec.names symbol }
{
    !matches!(
        symbol,
        Symbol::Module
            | Symbol::Import
            | Symbol::Sort
            | Symbol::Operators
            | Symbol::Rules
            | Symbol::Strategies
            | Symbol::For
            | Symbol::Global
            | Symbol::Local
            | Symbol::End
            | Symbol::Where
            | Symbol::If
            | Symbol::Lpl
            | Symbol::Number
            | Symbol::Arrow
            | Symbol::Becomes
            | Symbol::Comma
            | Symbol::Semicolon
            | Symbol::Colon
            | Symbol::LeftRound
            | Symbol::RightRound
            | Symbol::LeftSquare
            | Symbol::RightSquare
            | Symbol::Hole
            | Symbol::Star
            | Symbol::Plus
            | Symbol::Sign
    )
}

/// Whether these bytes, which are a word, are not reserved, so that they are a name.
#[tactic(auto, unfolding(crate::specs::Symbols::is_unreserved))]
pub fn is_unreserved(word: &[u8]) -> bool
    ensures { result ≡ spec.is_unreserved word.now }
{
    names(word_symbol(word))
}
