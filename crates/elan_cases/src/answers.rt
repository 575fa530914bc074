//! What a case gives.

use crate::instances::instances;
use crate::numbered::numbered;
use crate::outlines::outlined;
use crate::sections::{Section, first_word};
use crate::signatures::signed;
use bstr::ByteSlice;
use elan_loaders::{Loader, MemoryLoader};
use elan_run::run_plain;
use elan_text::{MemorySink, MemorySource};
use std::alloc::Global;
use std::collections::BTreeMap;
use std::io;

/// The most bytes that a case writes.
const MOST: usize = 1_048_576;

/// A loader that has the modules of the file.
pub(crate) fn loader_of(alloc: Global, all: &[Section<'_>]) -> io::Result<MemoryLoader> {
    let mut texts = BTreeMap::new(alloc);
    for section in all {
        let (kind, name) = first_word(section.words);
        if kind == b"module".as_slice() {
            let name = String::from_str(alloc, str::from_utf8(name).unwrap_or(""))?;
            texts.insert(name, section.body.as_slice().to_vec(alloc)?)?;
        }
    }
    Ok(MemoryLoader::new(alloc, texts, Vec::new(alloc)))
}

/// The words of the command line that stand in a head.
fn command_words(alloc: Global, words: &[u8]) -> io::Result<Vec<String>> {
    let mut all = Vec::new(alloc);
    for word in words.split_str(b" ") {
        if !word.is_empty() {
            all.push(String::from_str(alloc, str::from_utf8(word).unwrap_or(""))?)?;
        }
    }
    Ok(all)
}

/// What a run of the plain engine writes.
fn written(
    alloc: Global,
    all: &[Section<'_>],
    words: &[String],
    input: &[u8],
) -> io::Result<Vec<u8>> {
    let mut loaders: Vec<Box<dyn Loader>> = Vec::new(alloc);
    loaders.push(Box::new(alloc, loader_of(alloc, all)?)?)?;
    let mut source = MemorySource::new(input.to_vec(alloc)?, 1_000, Vec::new(alloc));
    let mut sink = MemorySink::new(alloc, MOST, Vec::new(alloc));
    run_plain(alloc, words, &mut source, &mut loaders, &mut sink);
    Ok(sink.written().to_vec(alloc)?)
}

/// What the case gives: `run NAME WORDS` the report, `outline` whether there is one, `numbers` the outline with the numbers
/// of its tokens, `modules` the instances, and `signature` the sorts and operators.
pub(crate) fn answer(
    alloc: Global,
    all: &[Section<'_>],
    case: &Section<'_>,
    input: &[u8],
) -> io::Result<Vec<u8>> {
    let (kind, rest) = first_word(case.words);
    if kind == b"run".as_slice() {
        let (_, words) = first_word(rest);
        let words = command_words(alloc, words)?;
        written(alloc, all, words.as_slice(), input)
    } else if kind == b"outline".as_slice() {
        outlined(alloc, input)
    } else if kind == b"numbers".as_slice() {
        numbered(alloc, input)
    } else if kind == b"modules".as_slice() {
        instances(alloc, all, input)
    } else if kind == b"signature".as_slice() {
        signed(alloc, all, input)
    } else {
        Ok(b"no such case\n".to_vec(alloc)?)
    }
}
