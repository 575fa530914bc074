//! The line of a refusal.

ghost use Rattle.std.specs.Prelude.{◌≡◌, ◌++◌, IfOk, OnOk};
ghost use Rattle.elan_print.specs.Refusals as spec;

use crate::numbers::number_onto;
use elan_text::{Code, Name, NoMemory, Refusal};
use std::alloc::Global;

fn code_name(code: Code) -> &'static [u8]
    ensures { result.now ≡ spec.code_name code }
{
    match code {
        Code::E01 => b"E01",
        Code::E02 => b"E02",
        Code::E03 => b"E03",
        Code::E04 => b"E04",
        Code::E05 => b"E05",
        Code::E06 => b"E06",
        Code::E07 => b"E07",
        Code::E08 => b"E08",
        Code::E09 => b"E09",
        Code::E10 => b"E10",
        Code::E11 => b"E11",
        Code::E12 => b"E12",
        Code::E13 => b"E13",
        Code::E14 => b"E14",
        Code::E15 => b"E15",
        Code::E16 => b"E16",
        Code::E17 => b"E17",
        Code::E18 => b"E18",
        Code::E19 => b"E19",
        Code::E20 => b"E20",
        Code::E21 => b"E21",
        Code::E22 => b"E22",
    }
}

/// What a code says.
fn code_words(code: Code) -> &'static [u8]
    ensures { result.now ≡ spec.code_words code }
{
    match code {
        Code::E01 => b"input too long",
        Code::E02 => b"bad byte",
        Code::E03 => b"comment not closed",
        Code::E04 => b"number out of range",
        Code::E05 => b"unexpected token",
        Code::E06 => b"unknown module",
        Code::E07 => b"wrong number of arguments",
        Code::E08 => b"import cycle",
        Code::E09 => b"module twice",
        Code::E10 => b"unknown sort",
        Code::E11 => b"holes and sorts differ",
        Code::E12 => b"AC operator of another form",
        Code::E13 => b"injection cycle",
        Code::E14 => b"too many",
        Code::E15 => b"no reading",
        Code::E16 => b"two readings",
        Code::E17 => b"too many tokens",
        Code::E18 => b"unbound variable",
        Code::E19 => b"variable bound twice",
        Code::E20 => b"unknown strategy",
        Code::E21 => b"name twice",
        Code::E22 => b"strategy of another sort",
    }
}

/// The module in which a place lies, where it lies in a loaded text.
fn module_onto(out: &mut Vec<u8>, loaded: &Option<Name>) -> Result<(), NoMemory>
    ensures { OnOk result (out.new.items ≡ out.old.items ++ spec.module_words loaded.now) }
{
    match loaded {
        None => Ok(()),
        Some(name) => {
            out.extend_from_slice(b" in module ")?;
            out.extend_from_slice(name.as_bytes())?;
            Ok(())
        }
    }
}

/// The line of a refusal: its code, its place, its words and, where the place lies in a loaded
/// text, the module's name. A line feed ends it.
#[tactic(auto, unfolding(crate::specs::Refusals::refusal_line))]
pub fn refusal_line(alloc: Global, refusal: &Refusal) -> Result<Vec<u8>, NoMemory>
    ensures { IfOk result (λ line. line.items ≡ spec.refusal_line refusal.now) }
{
    let mut line = Vec::from_slice(alloc, b"error ")?;
    line.extend_from_slice(code_name(refusal.code))?;
    line.extend_from_slice(b" ")?;
    number_onto(&mut line, refusal.at.line)?;
    line.extend_from_slice(b":")?;
    number_onto(&mut line, refusal.at.column)?;
    line.extend_from_slice(b" ")?;
    line.extend_from_slice(code_words(refusal.code))?;
    module_onto(&mut line, &refusal.module)?;
    line.extend_from_slice(b"\n")?;
    Ok(line)
}
