//! A cursor over the tokens of a text.

ghost use Rattle.std.specs.Prelude.{◌≡◌, ◌<◌, ◌≤◌, ℕ, ◌^◌, List, Bool, length, true, false, IfOk};
ghost use Rattle.elan_forms.specs.Form.{counted};
ghost use Rattle.elan_phrases.specs.Input.{Reads, sees, is_at_end, next_text, seen_of};
ghost use Rattle.elan_phrases.specs.Symbols.{Seen, one, a};
ghost use Rattle.elan_phrases.specs.Symbols as spec;
ghost use Rattle.elan_phrases.specs.Sets.{set_of};
ghost use Rattle.elan_phrases.specs.Tokens as grammar;

use crate::halt::Halt;
use crate::span::Span;
use crate::symbol::{Lexeme, Symbol, names, same_symbol};
use crate::symbol_set::{SymbolSet, is_in};
use crate::worth::{is_named, small_value};
use elan_forms::Why;
use elan_text::{Name, NoMemory};
use std::alloc::Global;
use std::marker::Model;

/// The tokens that are not read yet. After a refusal the next one is the one that is refused.
#[derive(Drop)]
pub struct Reader<'a> {
    rest: &'a [Lexeme<'a>],
    at: u32,
}

impl<'a> Model for Reader<'a> {
    ghost use Rattle.elan_phrases.specs.Input.{Input, input_of, IsShort};

    ghost Value = { Input };

    ghost view = { input_of };

    ghost invariant = { IsShort };
}

impl<'a> Reader<'a> {
    /// A reader that stands at the first of these tokens.
    pub fn new(tokens: &'a [Lexeme<'a>]) -> Reader<'a>
        requires { length tokens.now < 2 ^ 32 }
        ensures at { result.at ≡ 0 }
        ensures rest { result.rest ≡ seen_of tokens.now }
    {
        Reader {
            rest: tokens,
            at: 0,
        }
    }

    /// Whether the next token has this symbol.
    pub fn sees(&self, symbol: Symbol) -> bool
        ensures { result ≡ sees (a (one symbol)) self.now }
    {
        match self.rest {
            [next, ..] => same_symbol(next.symbol, symbol),
            [] => false,
        }
    }

    /// Whether the symbol of the next token is in this set.
    pub fn sees_any(&self, set: SymbolSet) -> bool
        ensures { result ≡ sees (a (set_of set)) self.now }
    {
        match self.rest {
            [next, ..] => is_in(next.symbol, set),
            [] => false,
        }
    }

    /// Whether the next token is this name.
    #[tactic(auto, unfolding(crate::specs::Symbols::the_name))]
    pub fn sees_the_name(&self, name: &Name) -> bool
        ensures { result ≡ sees (spec.the_name name.now) self.now }
    {
        match self.rest {
            [next, ..] => names(next.symbol) && is_named(next.text, name),
            [] => false,
        }
    }

    /// The bytes of the next token, as a name; no bytes where no token is left.
    pub fn next_word(&self, alloc: Global) -> Result<Name, NoMemory>
        ensures { IfOk result (λ name. name.bytes ≡ next_text self.now.rest) }
    {
        match self.rest {
            [next, ..] => Name::new(alloc, next.text),
            [] => Name::new(alloc, &[]),
        }
    }

    /// Whether no token is left.
    pub fn is_at_end(&self) -> bool
        ensures { result ≡ is_at_end self.now }
    {
        match self.rest {
            [_, ..] => false,
            [] => true,
        }
    }

    /// How many tokens are left.
    pub fn left(&self) -> usize
        ensures { result ≡ length self.now.rest }
    {
        self.rest.len()
    }

    /// The number of the next token.
    pub fn at(&self) -> u32
        ensures { result ≡ self.now.at }
    {
        self.at
    }

    /// Takes the next token if it fits, where so many are left, and answers how many are left then.
    pub fn counted(&mut self, fits: bool, left: u32) -> Result<u32, Halt>
        ensures read { (p : Seen → Bool) → fits ≡ sees p self.old
            → Reads (counted p left) self.old result self.new }
        ensures fewer { IfOk result (λ now. now < left) }
    {
        match self.rest {
            [_, rest @ ..] => {
                if !fits {
                    return Err(Halt::Misfit(Why::Unexpected));
                }
                if left == 0 {
                    return Err(Halt::Misfit(Why::TooMany));
                }
                self.rest = rest;
                self.at += 1;
                Ok(left - 1)
            }
            [] => Err(Halt::Misfit(Why::Unexpected)),
        }
    }

    /// Takes a token of this symbol, of which so many tokens are left.
    pub fn counted_sign(&mut self, symbol: Symbol, left: u32) -> Result<u32, Halt>
        ensures read { Reads (counted (a (one symbol)) left) self.old result self.new }
        ensures fewer { IfOk result (λ now. now < left) }
    {
        let fits = self.sees(symbol);
        self.counted(fits, left)
    }

    /// Takes the next token if it fits, and answers its number.
    pub fn number(&mut self, fits: bool) -> Result<u32, Halt>
        ensures read { (p : Seen → Bool) → fits ≡ sees p self.old
            → Reads (grammar.number_of p) self.old result self.new }
        ensures shorter { IfOk result (λ _. length self.new.rest < length self.old.rest) }
    {
        match self.rest {
            [_, rest @ ..] => {
                if !fits {
                    return Err(Halt::Misfit(Why::Unexpected));
                }
                let at = self.at;
                self.rest = rest;
                self.at += 1;
                Ok(at)
            }
            [] => Err(Halt::Misfit(Why::Unexpected)),
        }
    }

    /// Takes the next token if it fits.
    #[tactic(auto, using(crate::proofs::ExactTokens::taken_reads))]
    pub fn skip(&mut self, fits: bool) -> Result<(), Halt>
        ensures read { (p : Seen → Bool) → fits ≡ sees p self.old
            → Reads (grammar.taken p) self.old result self.new }
        ensures shorter { IfOk result (λ _. length self.new.rest < length self.old.rest) }
    {
        self.number(fits)?;
        Ok(())
    }

    /// Takes a token of this symbol.
    pub fn sign(&mut self, symbol: Symbol) -> Result<(), Halt>
        ensures read { Reads (grammar.sign symbol) self.old result self.new }
        ensures shorter { IfOk result (λ _. length self.new.rest < length self.old.rest) }
    {
        let fits = self.sees(symbol);
        self.skip(fits)
    }

    /// Takes a number of at most 255, and answers its value.
    #[tactic(auto, unfolding(crate::specs::Symbols::small_value, crate::specs::Symbols::small_numbers))]
    pub fn small_number(&mut self) -> Result<u8, Halt>
        ensures read { Reads grammar.small_number self.old result self.new }
        ensures shorter { IfOk result (λ _. length self.new.rest < length self.old.rest) }
    {
        let [next, rest @ ..] = self.rest else {
            return Err(Halt::Misfit(Why::Unexpected));
        };
        if !same_symbol(next.symbol, Symbol::Number) {
            return Err(Halt::Misfit(Why::Unexpected));
        }
        match small_value(next.text) {
            Some(value) => {
                self.rest = rest;
                self.at += 1;
                Ok(value)
            }
            None => Err(Halt::Misfit(Why::Unexpected)),
        }
    }

    /// Takes a name.
    #[tactic(auto, unfolding(crate::specs::Tokens::name))]
    pub fn name(&mut self) -> Result<(), Halt>
        ensures read { Reads grammar.name self.old result self.new }
        ensures shorter { IfOk result (λ _. length self.new.rest < length self.old.rest) }
    {
        let fits = self.sees_any(SymbolSet::Names);
        self.skip(fits)
    }

    /// Takes a name, and answers its number.
    pub fn name_number(&mut self) -> Result<u32, Halt>
        ensures read { Reads (grammar.number_of (a spec.names)) self.old result self.new }
        ensures shorter { IfOk result (λ _. length self.new.rest < length self.old.rest) }
    {
        let fits = self.sees_any(SymbolSet::Names);
        self.number(fits)
    }

    /// Takes a name, as a span.
    #[tactic(auto, using(crate::proofs::ExactTokens::span_reads))]
    pub fn name_span(&mut self) -> Result<Span, Halt>
        ensures read { Reads (grammar.span_of (a spec.names)) self.old result self.new }
        ensures shorter { IfOk result (λ _. length self.new.rest < length self.old.rest) }
    {
        let first = self.name_number()?;
        Ok(Span {
            first,
            past: self.at,
        })
    }

    /// Takes `global` or `local`.
    #[tactic(auto, unfolding(crate::specs::Tokens::visibility))]
    pub fn visibility(&mut self) -> Result<(), Halt>
        ensures read { Reads grammar.visibility self.old result self.new }
        ensures shorter { IfOk result (λ _. length self.new.rest < length self.old.rest) }
    {
        let fits = self.sees_any(SymbolSet::Visibilities);
        self.skip(fits)
    }
}
