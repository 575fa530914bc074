//! The generated input.

ghost use Rattle.std.specs.Prelude.{◌≡◌, ◌+◌, ◌++◌, decimal, IfOk, OnOk};
ghost use Rattle.elan_demo.specs.Demo as spec;

use elan_text::NoMemory;
use itoa::Buffer;
use std::alloc::Global;

/// A program, a start strategy and a query whose list has `n * n` results.
///
/// The program has `n` rules with the same label, each of which adds another sum to a number; the start strategy applies
/// the label twice. Without `n`, that is for 0, it has no such rule, and the label of the start strategy is unknown.
pub fn demo_input(alloc: Global, n: u32) -> Result<Vec<u8>, NoMemory>
    ensures { IfOk result (λ text. text.items ≡ spec.demo_input n) }
{
    let mut text = Vec::new(alloc);
    text.extend_from_slice(opening())?;
    rules_onto(&mut text, n)?;
    text.extend_from_slice(closing())?;
    Ok(text)
}

/// The lines in front of the rules that are counted.
#[tactic(auto, unfolding(crate::specs::Demo::opening))]
fn opening() -> &'static [u8]
    ensures { result.now ≡ spec.opening }
{
    b"module demo\nimport global int; end\noperators global\nsum(@) : (int) int;\nend\nrules for int\nn : int;\nglobal\n[] sum(0) => 0 end\n[] sum(n) => n + sum(n - 1) if n > 0 end\n"
}

/// The lines behind them.
#[tactic(auto, unfolding(crate::specs::Demo::closing))]
fn closing() -> &'static [u8]
    ensures { result.now ≡ spec.closing }
{
    b"end\nend\nLPL demo description\nquery of sort int\nresult of sort int\nimport demo\nstart with (r;r) query\nend\n0 end\n"
}

/// Puts the rules for the numbers from 1 to `n` behind what is there.
fn rules_onto(text: &mut Vec<u8>, n: u32) -> Result<(), NoMemory>
    ensures { OnOk result (text.new.items ≡ text.old.items ++ spec.rules 1 n) }
{
    let mut left = n;
    'rules: while left > 0 {
        rule_onto(text, n - left + 1)?;
        left -= 1;
    }
    Ok(())
}

/// Puts the rule for a number behind what is there.
#[tactic(auto, unfolding(crate::specs::Demo::rule))]
fn rule_onto(text: &mut Vec<u8>, k: u32) -> Result<(), NoMemory>
    ensures { OnOk result (text.new.items ≡ text.old.items ++ spec.rule k) }
{
    let mut buffer = Buffer::new();
    text.extend_from_slice(b"[r] n => n + sum(")?;
    text.extend_from_slice(buffer.format(k).as_bytes())?;
    text.extend_from_slice(b") end\n")
}
