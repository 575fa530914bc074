//! The lines of a report.

ghost use Rattle.std.specs.Prelude.{◌≡◌, ◌≤◌, ◌<◌, ◌^◌, ◌++◌, true, codes, decimal, length, IfOk, OnOk};
ghost use Rattle.elan_program.specs.Soundness.{is_sound};
ghost use Rattle.elan_print.specs.Terms.{term_text};
ghost use Rattle.elan_print.specs.Reports as spec;

use crate::numbers::number_onto;
use crate::page::Page;
use crate::terms::term_onto;
use elan_meaning::{Cause, Item};
use elan_program::Signature;
use elan_terms::Term;
use elan_text::NoMemory;
use std::alloc::Global;

fn cause_text(cause: Cause) -> &'static [u8]
    ensures { result.now ≡ spec.cause_text cause }
{
    match cause {
        Cause::Steps => b"out of steps",
        Cause::Depth => b"too deep",
    }
}

/// The text of a term, which begins anew.
fn term_behind(page: &mut Page, signature: &Signature, term: &Term) -> Result<(), NoMemory>
    requires { is_sound signature.now ≡ true }
    ensures { OnOk result (page.new.text.items
        ≡ page.old.text.items ++ term_text signature.now term.now) }
{
    page.tight = true;
    term_onto(page, signature, term)
}

fn result_onto(page: &mut Page, signature: &Signature, term: &Term) -> Result<(), NoMemory>
    requires { is_sound signature.now ≡ true }
    ensures { OnOk result (page.new.text.items
        ≡ page.old.text.items ++ (codes "result term: " ++ term_text signature.now term.now)) }
{
    page.text.extend_from_slice(b"result term: ")?;
    term_behind(page, signature, term)?;
    Ok(())
}

fn item_onto(page: &mut Page, signature: &Signature, item: &Item) -> Result<(), NoMemory>
    requires { is_sound signature.now ≡ true }
    ensures { OnOk result (page.new.text.items
        ≡ page.old.text.items ++ spec.item_text signature.now item.now) }
{
    match item {
        Item::Res(term, _) => result_onto(page, signature, term),
        Item::Mark(cause) => page.text.extend_from_slice(cause_text(*cause)),
    }
}

#[tactic(auto, unfolding(crate::specs::Reports::item_line))]
fn line_onto(
    page: &mut Page,
    signature: &Signature,
    number: u32,
    item: &Item,
) -> Result<(), NoMemory>
    requires { is_sound signature.now ≡ true }
    ensures { OnOk result (page.new.text.items
        ≡ page.old.text.items ++ spec.item_line signature.now number item.now) }
{
    page.text.extend_from_slice(b"[")?;
    number_onto(&mut page.text, number)?;
    page.text.extend_from_slice(b"] ")?;
    item_onto(page, signature, item)?;
    page.text.extend_from_slice(b"\n")
}

fn lines_onto(page: &mut Page, signature: &Signature, items: &[Item]) -> Result<(), NoMemory>
    requires sound { is_sound signature.now ≡ true }
    requires few { length items.now < 2 ^ 32 }
    ensures { OnOk result (page.new.text.items
        ≡ page.old.text.items ++ spec.item_lines signature.now 1 items.now) }
{
    for index in 0..items.len() {
        line_onto(page, signature, index as u32 + 1, &items[index])?;
    }
    Ok(())
}

fn last_line(limit: u32, count: usize) -> &'static [u8]
    ensures { result.now ≡ spec.last_line limit count }
{
    if limit as usize <= count {
        b"[] limit\n"
    } else {
        b"[] end\n"
    }
}

/// A report: a line for each item with its number in the list, counted from 1, and a last line that
/// says whether there are as many items as the limit. Each line ends with a line feed. The time is
/// linear in the text, the results and the spellings of their operators.
#[tactic(auto, unfolding(crate::specs::Reports::report))]
pub fn report(
    alloc: Global,
    signature: &Signature,
    items: &[Item],
    limit: u32,
) -> Result<Vec<u8>, NoMemory>
    requires sound { is_sound signature.now ≡ true }
    requires within { length items.now ≤ limit }
    ensures { IfOk result (λ text. text.items ≡ spec.report signature.now items.now limit) }
{
    let mut page = Page {
        text: Vec::new(alloc),
        tight: true,
    };
    lines_onto(&mut page, signature, items)?;
    page.text.extend_from_slice(last_line(limit, items.len()))?;
    Ok(page.text)
}
