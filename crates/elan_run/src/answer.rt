//! The text and the status for the bytes of an input.

ghost use Rattle.std.specs.Prelude.{◌≡◌, ◌≤◌, ◌<◌, ◌^◌, length, true, Some, IfOk, IfErr, map};
ghost use Rattle.std.specs.List.{All};
ghost use Rattle.elan_check.specs.Validity.{IsPrepared};
ghost use Rattle.elan_cli.specs.Ranges.{AreInRange};
ghost use Rattle.elan_demo.specs.Demo as demo;
ghost use Rattle.elan_lexer.specs.Text.{Fits, IsInside};
ghost use Rattle.elan_modules.specs.Walks.{shelf, Moved, Untouched};
ghost use Rattle.elan_run.specs.Verdict as spec;
ghost use Rattle.elan_run.specs.Verdict.{IsReportFor, NeedsNone, Says, TooLong, BadToken, BadOutline, BadProgram, Accepted};
ghost use Rattle.elan_run.specs.Asked.{IsTold};
ghost use Rattle.elan_run.specs.Runs.{IsWhy};
ghost use Rattle.elan_run.specs.declared.answer.Unanswered.TheVariants.{NoMemory as WantsMemory};

use crate::lines::{refusal_line, shown};
use crate::program::asked;
use crate::status::Status;
use elan_check::Prepared;
use elan_cli::Options;
use elan_demo::demo_input;
use elan_lexer::{Token, tokens};
use elan_loaders::Loader;
use elan_modules::FlattenRefusal;
use elan_plain::plain_items;
use elan_syntax::outline;
use elan_text::{Code, NoMemory, Place, Refusal, Stop};
use std::alloc::{AllocError, Global};

/// How many bytes an input may have.
pub const MOST_BYTES: usize = 4_194_304;

/// A text to be written, and the status that goes with it.
#[derive(Drop)]
pub struct Answer {
    pub text: Vec<u8>,
    pub status: Status,
}

/// Why there is no text to be written.
#[derive(Clone, Copy, Debug, PartialEq, Eq)]
pub enum Unanswered {
    /// A loader failed.
    LoaderFault,
    /// The machine had no memory to give.
    NoMemory,
}

impl From<AllocError> for Unanswered {
    ghost from_gives = { λ _ e. e ≡ WantsMemory };

    fn from(_: AllocError) -> Unanswered {
        Unanswered::NoMemory
    }
}

/// The place of the first byte.
fn first_place() -> Place
    ensures { result ≡ spec.first_place }
{
    Place { line: 1, column: 1 }
}

/// The line of a refusal of the stream, and its status.
fn refused(alloc: Global, code: Code, at: Place) -> Result<Answer, NoMemory>
    ensures { IfOk result (λ a. Says (BadToken code at) a.text.items a.status) }
{
    Ok(Answer {
        text: refusal_line(alloc, code, at)?,
        status: Status::Refused(code),
    })
}

/// The answer to an input that is too long.
pub fn too_long(alloc: Global) -> Result<Answer, Unanswered>
    ensures ok { IfOk result (λ a. Says TooLong a.text.items a.status) }
    ensures err { IfErr result (λ e. e ≡ WantsMemory) }
{
    Ok(refused(alloc, Code::E01, first_place())?)
}

/// The line of a refusal of an outline, and its status.
fn unread(alloc: Global, code: Code, at: Place) -> Result<Answer, NoMemory>
    ensures { IfOk result (λ a. Says (BadOutline code at) a.text.items a.status) }
{
    Ok(Answer {
        text: refusal_line(alloc, code, at)?,
        status: Status::Refused(code),
    })
}

/// The line of a refusal of a program, and its status.
fn refused_program(alloc: Global, refusal: &Refusal) -> Result<Answer, NoMemory>
    ensures { IfOk result (λ a. Says (BadProgram refusal.now) a.text.items a.status) }
{
    Ok(Answer {
        text: elan_print::refusal_line(alloc, refusal)?,
        status: Status::Refused(refusal.code),
    })
}

/// What is written of what is asked.
fn accepted(alloc: Global, options: &Options, prepared: &Prepared) -> Result<Answer, NoMemory>
    requires { AreInRange true options.now }
    ensures { IfOk result
        (λ a. Says (Accepted options.now prepared.now) a.text.items a.status) }
{
    let items = plain_items(
        alloc,
        &prepared.program,
        &prepared.start,
        &prepared.query,
        options.steps,
    )?;
    Ok(Answer {
        text: shown(alloc, options, &prepared.program, items.as_slice())?,
        status: Status::Done,
    })
}

/// The text and the status for what a stream asks.
fn told(
    alloc: Global,
    options: &Options,
    found: Result<Prepared, FlattenRefusal>,
) -> Result<Answer, Unanswered>
    requires { AreInRange true options.now }
    ensures { IsTold options.now found result }
{
    match found {
        Ok(prepared) => Ok(accepted(alloc, options, &prepared)?),
        Err(FlattenRefusal::Refused(refusal)) => Ok(refused_program(alloc, &refusal)?),
        Err(FlattenRefusal::LoaderFault) => Err(Unanswered::LoaderFault),
        Err(FlattenRefusal::NoMemory) => Err(Unanswered::NoMemory),
    }
}

/// The text and the status for an input with these tokens.
fn answered_of(
    alloc: Global,
    options: &Options,
    bytes: &[u8],
    found: &[Token],
    loaders: &mut Vec<Box<dyn Loader>>,
) -> Result<Answer, Unanswered>
    requires ranges { AreInRange true options.now }
    requires within { length bytes.now ≤ 4194304 }
    requires fits { Fits bytes.now found.now }
    requires inside { All (IsInside bytes.now) found.now }
    requires count { length found.now < 2 ^ 32 }
    ensures report { IfOk result (λ a. IsReportFor (Some options.now) (map (λ l. library l) loaders.old.items)
        bytes.now a.text.items a.status) }
    ensures why { IfErr result (λ e. IsWhy bytes.now
        (shelf (λ l. library l) (λ l. misses l) (λ l. failures l) loaders.old.items)
        (shelf (λ l. library l) (λ l. misses l) (λ l. failures l) loaders.new.items) e) }
    // What becomes of the loaders.
    ensures moved { Moved
        (shelf (λ l. library l) (λ l. misses l) (λ l. failures l) loaders.old.items)
        (shelf (λ l. library l) (λ l. misses l) (λ l. failures l) loaders.new.items) }
    ensures untouched { NeedsNone bytes.now
        → Untouched
        (shelf (λ l. library l) (λ l. misses l) (λ l. failures l) loaders.old.items)
        (shelf (λ l. library l) (λ l. misses l) (λ l. failures l) loaders.new.items) }
{
    match outline(alloc, bytes, found) {
        Ok(outline) => told(alloc, options, asked(alloc, bytes, found, outline, loaders)),
        Err(Stop::Refused(refusal)) => Ok(unread(alloc, refusal.code, refusal.at)?),
        Err(Stop::NoMemory) => Err(Unanswered::NoMemory),
    }
}

/// The text and the status for an input that is not too long.
pub fn answered(
    alloc: Global,
    options: &Options,
    bytes: &[u8],
    loaders: &mut Vec<Box<dyn Loader>>,
) -> Result<Answer, Unanswered>
    requires ranges { AreInRange true options.now }
    requires within { length bytes.now ≤ 4194304 }
    ensures report { IfOk result (λ a. IsReportFor (Some options.now) (map (λ l. library l) loaders.old.items)
        bytes.now a.text.items a.status) }
    ensures why { IfErr result (λ e. IsWhy bytes.now
        (shelf (λ l. library l) (λ l. misses l) (λ l. failures l) loaders.old.items)
        (shelf (λ l. library l) (λ l. misses l) (λ l. failures l) loaders.new.items) e) }
    // What becomes of the loaders.
    ensures moved { Moved
        (shelf (λ l. library l) (λ l. misses l) (λ l. failures l) loaders.old.items)
        (shelf (λ l. library l) (λ l. misses l) (λ l. failures l) loaders.new.items) }
    ensures untouched { NeedsNone bytes.now
        → Untouched
        (shelf (λ l. library l) (λ l. misses l) (λ l. failures l) loaders.old.items)
        (shelf (λ l. library l) (λ l. misses l) (λ l. failures l) loaders.new.items) }
{
    match tokens(alloc, bytes) {
        Ok(found) => answered_of(alloc, options, bytes, found.as_slice(), loaders),
        Err(Stop::Refused(refusal)) => Ok(refused(alloc, refusal.code, refusal.at)?),
        Err(Stop::NoMemory) => Err(Unanswered::NoMemory),
    }
}

/// The text and the status for an input.
fn answered_to(
    alloc: Global,
    options: &Options,
    bytes: &[u8],
    loaders: &mut Vec<Box<dyn Loader>>,
) -> Result<Answer, Unanswered>
    requires { AreInRange true options.now }
    ensures report { IfOk result (λ a. IsReportFor (Some options.now) (map (λ l. library l) loaders.old.items)
        bytes.now a.text.items a.status) }
    ensures why { IfErr result (λ e. IsWhy bytes.now
        (shelf (λ l. library l) (λ l. misses l) (λ l. failures l) loaders.old.items)
        (shelf (λ l. library l) (λ l. misses l) (λ l. failures l) loaders.new.items) e) }
    // What becomes of the loaders.
    ensures moved { Moved
        (shelf (λ l. library l) (λ l. misses l) (λ l. failures l) loaders.old.items)
        (shelf (λ l. library l) (λ l. misses l) (λ l. failures l) loaders.new.items) }
    ensures untouched { NeedsNone bytes.now
        → Untouched
        (shelf (λ l. library l) (λ l. misses l) (λ l. failures l) loaders.old.items)
        (shelf (λ l. library l) (λ l. misses l) (λ l. failures l) loaders.new.items) }
{
    if bytes.len() > MOST_BYTES {
        return too_long(alloc);
    }
    answered(alloc, options, bytes, loaders)
}

/// The text and the status for the input that is generated from a number.
pub fn generated(
    alloc: Global,
    options: &Options,
    number: u32,
    loaders: &mut Vec<Box<dyn Loader>>,
) -> Result<Answer, Unanswered>
    requires { AreInRange true options.now }
    ensures report { IfOk result (λ a. IsReportFor (Some options.now) (map (λ l. library l) loaders.old.items)
        (demo.demo_input number) a.text.items a.status) }
    ensures why { IfErr result (λ e. IsWhy (demo.demo_input number)
        (shelf (λ l. library l) (λ l. misses l) (λ l. failures l) loaders.old.items)
        (shelf (λ l. library l) (λ l. misses l) (λ l. failures l) loaders.new.items) e) }
    // What becomes of the loaders.
    ensures moved { Moved
        (shelf (λ l. library l) (λ l. misses l) (λ l. failures l) loaders.old.items)
        (shelf (λ l. library l) (λ l. misses l) (λ l. failures l) loaders.new.items) }
    ensures untouched { NeedsNone (demo.demo_input number)
        → Untouched
        (shelf (λ l. library l) (λ l. misses l) (λ l. failures l) loaders.old.items)
        (shelf (λ l. library l) (λ l. misses l) (λ l. failures l) loaders.new.items) }
{
    match demo_input(alloc, number) {
        Ok(bytes) => answered_to(alloc, options, bytes.as_slice(), loaders),
        Err(_) => Err(Unanswered::NoMemory),
    }
}
