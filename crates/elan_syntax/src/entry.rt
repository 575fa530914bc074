//! The outline of a whole text.

ghost use Rattle.std.specs.Prelude.{◌≡◌, ◌<◌, ◌≤◌, ◌-◌, ◌^◌, length, true, IfOk, IfErr};
ghost use Rattle.std.specs.List.{All};
ghost use Rattle.elan_lexer.specs.Text.{IsInside};
ghost use Rattle.elan_phrases.specs.Input.{Reads};
ghost use Rattle.elan_phrases.specs.Symbols.{seen, is_unreserved};
ghost use Rattle.elan_syntax.specs.Grammar as grammar;
ghost use Rattle.elan_syntax.specs.Outlines as spec;
ghost use Rattle.elan_syntax.specs.Outlines.{IsOutline, IsModuleOutline, HasNone, IsRefusal};
ghost use Rattle.elan_syntax.specs.declared.parts.Outline.{Outline as OutlineValue};
ghost use Rattle.elan_syntax.specs.declared.parts.ModuleOutline.{ModuleOutline as ModuleValue};

use crate::lpl::lpl;
use crate::modules::{module_called, more_modules};
use crate::parts::{ModuleOutline, Outline};
use elan_forms::Why;
use elan_lexer::{Token, end_place};
use elan_phrases::{Halt, Reader, Symbol, lexemes, text};
use elan_text::{Code, Name, Place, Refusal, Stop};
use std::alloc::Global;

/// The outline of a text, given its tokens.
///
/// A list of tokens has at most one outline. One that has none is refused: E05 at the first token after which no text of
/// the grammar goes on, the end included, whose place is that after the last byte; or E14 at the 65th name of a sort
/// expression or at the 257th token of a strategy. The least such token decides, and E05 where a token is both.
pub fn outline(alloc: Global, bytes: &[u8], tokens: &[Token]) -> Result<Outline, Stop>
    requires bytes { length bytes.now ≤ 4194304 }
    requires inside { All (λ t. IsInside bytes.now t) tokens.now }
    requires count { length tokens.now < 2 ^ 32 }
    // What is found is a derivation of the grammar, and no other outline is.
    ensures found { IfOk result (λ o. IsOutline (seen bytes.now tokens.now) o) }
    ensures only { IfOk result (λ o.
        (other : OutlineValue) → IsOutline (seen bytes.now tokens.now) other → other ≡ o) }
    // A refusal says that there is no outline, and has the code and the place of the token that decides.
    ensures none { IfErr result (λ e. HasNone grammar.stream (seen bytes.now tokens.now) e) }
    ensures refused { IfErr result (λ e. IsRefusal grammar.stream bytes.now tokens.now e) }
{
    let lexemes = lexemes(alloc, bytes, tokens)?;
    let mut reader = Reader::new(lexemes.as_slice());
    match stream(alloc, &mut reader) {
        Ok(outline) => Ok(outline),
        Err(halt) => Err(stop(bytes, tokens, reader.left(), halt)),
    }
}

/// The outline of a text that is one module of this name, given its tokens.
///
/// It is refused as a stream is, and with E05 at another name and at a token behind the module's last `end`.
pub fn module_outline(
    alloc: Global,
    bytes: &[u8],
    tokens: &[Token],
    name: &Name,
) -> Result<ModuleOutline, Stop>
    requires bytes { length bytes.now ≤ 4194304 }
    requires inside { All (λ t. IsInside bytes.now t) tokens.now }
    requires count { length tokens.now < 2 ^ 32 }
    requires name { is_unreserved name.now.bytes ≡ true }
    // What is found is a derivation of the grammar, and no other outline is.
    ensures found { IfOk result (λ o. IsModuleOutline name.now (seen bytes.now tokens.now) o) }
    ensures only { IfOk result (λ o.
        (other : ModuleValue) → IsModuleOutline name.now (seen bytes.now tokens.now) other
        → other ≡ o) }
    // A refusal says that there is no outline, and has the code and the place of the token that decides.
    ensures none { IfErr result (λ e.
        HasNone (grammar.module_text name.now) (seen bytes.now tokens.now) e) }
    ensures refused { IfErr result (λ e.
        IsRefusal (grammar.module_text name.now) bytes.now tokens.now e) }
{
    let lexemes = lexemes(alloc, bytes, tokens)?;
    let mut reader = Reader::new(lexemes.as_slice());
    match module_text(alloc, &mut reader, name) {
        Ok(outline) => Ok(outline),
        Err(halt) => Err(stop(bytes, tokens, reader.left(), halt)),
    }
}

/// What is answered where reading stops with so many tokens left.
fn stop(bytes: &[u8], tokens: &[Token], left: usize, halt: Halt) -> Stop
    requires { length bytes.now ≤ 4194304 }
    ensures { result ≡ spec.stop_of bytes.now tokens.now (length tokens.now - left) halt }
{
    match halt {
        Halt::Misfit(why) => Stop::Refused(Refusal {
            code: code(why),
            at: place(bytes, tokens, tokens.len().saturating_sub(left)),
            module: None,
        }),
        Halt::NoMemory => Stop::NoMemory,
    }
}

/// The code of a reason.
fn code(why: Why) -> Code
    ensures { result ≡ spec.code_of why }
{
    match why {
        Why::Unexpected => Code::E05,
        Why::TooMany => Code::E14,
    }
}

/// The place of the token of a number, or that after the last byte where there is none.
#[tactic(auto, unfolding(crate::specs::Outlines::place_of))]
fn place(bytes: &[u8], tokens: &[Token], number: usize) -> Place
    requires { length bytes.now ≤ 4194304 }
    ensures { result ≡ spec.place_of bytes.now tokens.now number }
{
    match tokens.get(number) {
        Some(token) => token.at,
        None => end_place(bytes),
    }
}

/// Takes a whole stream.
#[tactic(auto, using(crate::proofs::Whole::read_end_reads))]
fn stream(alloc: Global, reader: &mut Reader<'_>) -> Result<Outline, Halt>
    ensures { Reads grammar.stream reader.old result reader.new }
{
    let outline = program(alloc, reader)?;
    if reader.is_at_end() {
        Ok(outline)
    } else {
        Err(Halt::Misfit(Why::Unexpected))
    }
}

/// Takes the modules, the `LPL` text and the query.
#[tactic(auto, unfolding(crate::specs::Grammar::program))]
fn program(alloc: Global, reader: &mut Reader<'_>) -> Result<Outline, Halt>
    ensures { Reads grammar.program reader.old result reader.new }
{
    let modules = more_modules(alloc, reader)?;
    let lpl = lpl(alloc, reader)?;
    let query = text(reader)?;
    reader.sign(Symbol::End)?;
    Ok(Outline {
        modules,
        lpl,
        query,
    })
}

/// Takes a whole text that is one module of this name.
#[tactic(auto, using(crate::proofs::Whole::read_end_reads))]
fn module_text(alloc: Global, reader: &mut Reader<'_>, name: &Name) -> Result<ModuleOutline, Halt>
    ensures { Reads (grammar.module_text name.now) reader.old result reader.new }
{
    let outline = module_called(alloc, reader, name)?;
    if reader.is_at_end() {
        Ok(outline)
    } else {
        Err(Halt::Misfit(Why::Unexpected))
    }
}
