//! A refusal as a line.

use elan_text::{Place, Refusal};
use std::alloc::Global;
use std::io;

/// Puts the code of a refusal, its place and its module to the end.
pub(crate) fn refusal_onto(alloc: Global, into: &mut Vec<u8>, refusal: &Refusal) -> io::Result<()> {
    let Place { line, column } = refusal.at;
    let code = refusal.code;
    let text = format!(in alloc; "{code:?} {line}:{column}")?;
    into.extend_from_slice(text.as_str().as_bytes())?;
    if let Some(module) = &refusal.module {
        into.extend_from_slice(b" in ")?;
        into.extend_from_slice(module.as_bytes())?;
    }
    Ok(())
}
