//! What is written of a report in place of the report.

ghost use Rattle.std.specs.Prelude.{◌≡◌, ◌≤◌, length, IfOk};
ghost use Rattle.elan_demo.specs.Demo as spec;

use crate::size::Summary;
use elan_meaning::Item;
use elan_text::NoMemory;
use itoa::Buffer;
use std::alloc::Global;

/// The summary of a report of these items. It takes no memory.
pub fn summary(items: &[Item], report: &[u8]) -> Summary
    requires { length items.now ≤ 1000000 }
    ensures { result ≡ spec.summary items.now report.now }
{
    Summary {
        items: items.len() as u32,
        marks: marks_in(items),
        bytes: report.len() as u64,
    }
}

/// How many of these items are marks.
#[tactic(auto, unfolding(crate::specs::Demo::marks_in))]
fn marks_in(items: &[Item]) -> u32
    requires { length items.now ≤ 1000000 }
    ensures { result ≡ spec.marks_in items.now }
{
    let mut count = 0;
    let mut left = items;
    'items: while let [item, rest @ ..] = left {
        if matches!(item, Item::Mark(_)) {
            count += 1;
        }
        left = rest;
    }
    count
}

/// The three lines of a summary.
#[tactic(auto, unfolding(crate::specs::Demo::summary_text))]
pub fn summary_text(alloc: Global, summary: &Summary) -> Result<Vec<u8>, NoMemory>
    ensures { IfOk result (λ text. text.items ≡ spec.summary_text summary.now) }
{
    let mut text = Vec::new(alloc);
    let mut buffer = Buffer::new();
    text.extend_from_slice(b"items ")?;
    text.extend_from_slice(buffer.format(summary.items).as_bytes())?;
    text.extend_from_slice(b"\nmarks ")?;
    text.extend_from_slice(buffer.format(summary.marks).as_bytes())?;
    text.extend_from_slice(b"\nbytes ")?;
    text.extend_from_slice(buffer.format(summary.bytes).as_bytes())?;
    text.extend_from_slice(b"\n")?;
    Ok(text)
}
