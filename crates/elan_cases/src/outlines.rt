//! Outlines of inputs.

use crate::refusals::refusal_onto;
use elan_lexer::{Token, tokens};
use elan_syntax::{Outline, outline};
use elan_text::{NoMemory, Stop};
use std::alloc::Global;
use std::io;

/// The tokens of an input of at most 4,194,304 bytes, and their outline.
pub(crate) fn outline_of(alloc: Global, input: &[u8]) -> Result<(Vec<Token>, Outline), Stop> {
    if input.len() > 4_194_304 {
        return Err(Stop::NoMemory);
    }
    let found = tokens(alloc, input)?;
    let made = outline(alloc, input, found.as_slice())?;
    Ok((found, made))
}

/// Why there is no answer, as a line.
pub(crate) fn stop_line(alloc: Global, stop: &Stop) -> io::Result<Vec<u8>> {
    let mut line = Vec::new(alloc);
    match stop {
        Stop::Refused(refusal) => refusal_onto(alloc, &mut line, refusal)?,
        Stop::NoMemory => line.extend_from_slice(b"no memory")?,
    }
    line.push(b'\n')?;
    Ok(line)
}

/// Whether the input has an outline, or its refusal.
pub(crate) fn outlined(alloc: Global, input: &[u8]) -> io::Result<Vec<u8>> {
    match outline_of(alloc, input) {
        Ok(_) => Ok(b"an outline\n".to_vec(alloc)?),
        Err(stop) => stop_line(alloc, &stop),
    }
}
