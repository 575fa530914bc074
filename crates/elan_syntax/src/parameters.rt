//! Parameters of modules, which differ.

ghost use Rattle.std.specs.Prelude.{◌≡◌, ◌<◌, ◌≤◌, length, false, IfOk, IfErr};
ghost use Rattle.elan_numbers.specs.Numbering.{with_name};
ghost use Rattle.elan_phrases.specs.Input.{Reads, is_misfit, next_text, sees};
ghost use Rattle.elan_phrases.specs.Symbols.{fresh};
ghost use Rattle.elan_syntax.specs.Grammar as grammar;

use elan_numbers::Numbers;
use elan_phrases::{Halt, Reader, Symbol, SymbolSet, pushed};
use elan_text::Name;
use sqlite_items::Items;
use std::alloc::Global;

/// The parameters that were taken.
#[derive(Drop)]
pub struct Parameters {
    /// Their tokens.
    pub numbers: Items<u32>,
    /// Their bytes, in the same order.
    pub names: Numbers,
}

/// Takes the parameters of a module, where it has some.
#[tactic(auto, unfolding(crate::specs::Grammar::parameters))]
pub fn some_parameters(alloc: Global, reader: &mut Reader<'_>) -> Result<Items<u32>, Halt>
    ensures read { Reads grammar.some_parameters reader.old result reader.new }
    ensures no_longer { IfOk result (λ _. length reader.new.rest ≤ length reader.old.rest) }
{
    if reader.sees(Symbol::LeftSquare) {
        parameter_list(alloc, reader)
    } else {
        Ok(Items::new(alloc))
    }
}

/// Takes the parameters of a module with their brackets.
#[tactic(auto, unfolding(crate::specs::Grammar::parameters))]
fn parameter_list(alloc: Global, reader: &mut Reader<'_>) -> Result<Items<u32>, Halt>
    ensures read { Reads grammar.parameters reader.old result reader.new }
    ensures shorter { IfOk result (λ _. length reader.new.rest < length reader.old.rest) }
{
    reader.sign(Symbol::LeftSquare)?;
    let none = Parameters {
        numbers: Items::new(alloc),
        names: Numbers::new(alloc),
    };
    let first = parameter(alloc, reader, none)?;
    let Parameters { numbers, names: _ } = more_parameters(alloc, reader, first)?;
    reader.sign(Symbol::RightSquare)?;
    Ok(numbers)
}

/// Takes each further parameter, behind its comma, and puts it behind those before.
#[tactic(auto, using(crate::proofs::Turns::more_parameters_reads))]
fn more_parameters(
    alloc: Global,
    reader: &mut Reader<'_>,
    before: Parameters,
) -> Result<Parameters, Halt>
    ensures read { Reads (grammar.more_parameters before) reader.old result reader.new }
    ensures no_longer { IfOk result (λ _. length reader.new.rest ≤ length reader.old.rest) }
{
    let mut taken = before;
    'parameters: while reader.sees(Symbol::Comma) {
        reader.sign(Symbol::Comma)?;
        taken = parameter(alloc, reader, taken)?;
    }
    Ok(taken)
}

/// Whether the next token, which has these bytes, is a name that is none of those taken.
fn is_fresh(reader: &Reader<'_>, word: &Name, taken: &Numbers) -> bool
    requires { word.now.bytes ≡ next_text reader.now.rest }
    ensures { result ≡ sees (fresh taken.now) reader.now }
{
    reader.sees_any(SymbolSet::Names) && taken.number_of(word.as_bytes()).is_none()
}

/// The names with one more, unless it is there.
fn added(alloc: Global, taken: Numbers, word: &Name) -> Result<Numbers, Halt>
    ensures ok { IfOk result (λ all. all ≡ with_name taken word.now.bytes) }
    ensures err { IfErr result (λ halt. is_misfit halt ≡ false) }
{
    let mut all = taken;
    match all.add(alloc, word.as_bytes()) {
        Ok(()) => Ok(all),
        Err(_) => Err(Halt::NoMemory),
    }
}

/// Takes a name that none of those before is, and puts it behind them.
#[tactic(auto, using(crate::proofs::FreshNames::fresh_added), unfolding(crate::specs::Grammar::parameter))]
fn parameter(alloc: Global, reader: &mut Reader<'_>, before: Parameters) -> Result<Parameters, Halt>
    ensures read { Reads (grammar.parameter before) reader.old result reader.new }
    ensures shorter { IfOk result (λ _. length reader.new.rest < length reader.old.rest) }
{
    let Parameters { numbers, names } = before;
    let word = reader.next_word(alloc)?;
    let fits = is_fresh(reader, &word, &names);
    let at = reader.number(fits)?;
    let numbers = pushed(numbers, at)?;
    let names = added(alloc, names, &word)?;
    Ok(Parameters { numbers, names })
}
