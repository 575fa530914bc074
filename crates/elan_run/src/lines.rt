//! The lines that a run writes.

ghost use Rattle.std.specs.Prelude.{◌≡◌, ◌≤◌, IfOk, take};
ghost use Rattle.elan_demo.specs.Demo as demo;
ghost use Rattle.elan_run.specs.Lines as spec;

use elan_cli::Options;
use elan_demo::{summary, summary_text};
use elan_meaning::Item;
use elan_program::Program;
use elan_text::{Code, NoMemory, Place, Refusal};
use std::alloc::Global;

/// How the program is called.
pub const USAGE_LINE: &[u8] =
    b"usage: elan [--workers W] [--limit L] [--steps N] [--plain] [--demo K]\n";

/// The line of a refusal of the stream: the code, its place and its words.
pub fn refusal_line(alloc: Global, code: Code, at: Place) -> Result<Vec<u8>, NoMemory>
    ensures { IfOk result (λ line. line.items ≡ spec.refusal_line code at) }
{
    let refusal = Refusal {
        code,
        at,
        module: None,
    };
    elan_print::refusal_line(alloc, &refusal)
}

/// The first items up to the limit.
fn first_items(limit: u32, items: &[Item]) -> &[Item]
    ensures { result.now ≡ take limit items.now }
{
    items.split_at((limit as usize).min(items.len())).0
}

/// The lines of the first items up to the limit, and the last line.
#[tactic(auto, using(crate::proofs::Printing::sound_in))]
fn report(alloc: Global, program: &Program, limit: u32, items: &[Item]) -> Result<Vec<u8>, NoMemory>
    ensures { IfOk result
        (λ text. text.items ≡ spec.report program.now.signature limit items.now) }
{
    let first = first_items(limit, items);
    elan_print::report(alloc, &program.parts().signature, first, limit)
}

/// The summary of a report of the first items up to the limit.
fn summary_of(alloc: Global, limit: u32, items: &[Item], report: &[u8]) -> Result<Vec<u8>, NoMemory>
    requires { limit ≤ 1000000 }
    ensures { IfOk result (λ text. text.items
        ≡ demo.summary_text (demo.summary (take limit items.now) report.now)) }
{
    let first = first_items(limit, items);
    summary_text(alloc, &summary(first, report))
}

/// What is written of items: their report, or for a generated input its summary.
pub fn shown(
    alloc: Global,
    options: &Options,
    program: &Program,
    items: &[Item],
) -> Result<Vec<u8>, NoMemory>
    requires { options.now.limit ≤ 1000000 }
    ensures { IfOk result (λ text. text.items
        ≡ spec.shown options.now.demo program.now.signature options.now.limit items.now) }
{
    let lines = report(alloc, program, options.limit, items)?;
    match options.demo {
        None => Ok(lines),
        Some(_) => summary_of(alloc, options.limit, items, lines.as_slice()),
    }
}
