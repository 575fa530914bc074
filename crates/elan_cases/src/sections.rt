//! The sections of a file of cases. A line that begins with `%%` and a space heads a section; the lines up to the next
//! such line are its body.

use bstr::ByteSlice;
use std::alloc::Global;
use std::io;

/// A section: the words of its head, and its body.
#[derive(Drop)]
pub(crate) struct Section<'a> {
    pub words: &'a [u8],
    pub body: Vec<u8>,
}

/// The words of a line that heads a section.
fn head(line: &[u8]) -> Option<&[u8]> {
    match line.split_once_str(b"%% ") {
        None => None,
        Some((front, words)) => {
            if front.is_empty() {
                Some(words.trim_end())
            } else {
                None
            }
        }
    }
}

/// The sections of a file. Lines in front of the first one are left out.
pub(crate) fn sections<'a>(alloc: Global, bytes: &'a [u8]) -> io::Result<Vec<Section<'a>>> {
    let mut all = Vec::new(alloc);
    let mut words = b"".as_slice();
    let mut body = Vec::new(alloc);
    'lines: for line in bytes.lines_with_terminator() {
        match head(line) {
            None => body.extend_from_slice(line)?,
            Some(next) => {
                all.push(Section { words, body })?;
                words = next;
                body = Vec::new(alloc);
            }
        }
    }
    all.push(Section { words, body })?;
    Ok(all)
}

/// The first word of a head, and those behind it.
pub(crate) fn first_word(words: &[u8]) -> (&[u8], &[u8]) {
    match words.split_once_str(b" ") {
        None => (words, b"".as_slice()),
        Some(found) => found,
    }
}

/// Puts the text of that name to the end, where there is one.
fn text_onto(into: &mut Vec<u8>, all: &[Section<'_>], name: &[u8]) -> io::Result<()> {
    for section in all {
        let (kind, own) = first_word(section.words);
        if kind == b"text".as_slice() && own == name {
            into.extend_from_slice(section.body.as_slice())?;
        }
    }
    Ok(())
}

/// The input of a case: the text that its head names second, and its body without the last line feed.
pub(crate) fn input_of(
    alloc: Global,
    all: &[Section<'_>],
    case: &Section<'_>,
) -> io::Result<Vec<u8>> {
    let mut input = Vec::new(alloc);
    let (_, rest) = first_word(case.words);
    let (name, _) = first_word(rest);
    text_onto(&mut input, all, name)?;
    input.extend_from_slice(case.body.as_slice())?;
    input.pop();
    Ok(input)
}
