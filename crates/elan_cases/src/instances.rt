//! The module instances of inputs.

use crate::answers::loader_of;
use crate::outlines::{outline_of, stop_line};
use crate::sections::Section;
use elan_loaders::Loader;
use elan_modules::{Flat, FlattenRefusal, Instance, Origin, flatten};
use elan_text::Stop;
use std::alloc::Global;
use std::io;

/// What an input comes to with the modules of its file, or the line that says why it comes to nothing.
pub(crate) fn flat_of(
    alloc: Global,
    all: &[Section<'_>],
    input: &[u8],
) -> io::Result<Result<Flat, Vec<u8>>> {
    let mut loaders: Vec<Box<dyn Loader>> = Vec::new(alloc);
    loaders.push(Box::new(alloc, loader_of(alloc, all)?)?)?;
    match outline_of(alloc, input) {
        Err(stop) => Ok(Err(stop_line(alloc, &stop)?)),
        Ok((found, made)) => match flatten(alloc, input, found.as_slice(), made, &mut loaders) {
            Ok(flat) => Ok(Ok(flat)),
            Err(refusal) => Ok(Err(refusal_line(alloc, refusal)?)),
        },
    }
}

/// Why there is no list of instances, as a line.
fn refusal_line(alloc: Global, refusal: FlattenRefusal) -> io::Result<Vec<u8>> {
    match refusal {
        FlattenRefusal::Refused(refusal) => stop_line(alloc, &Stop::Refused(refusal)),
        FlattenRefusal::LoaderFault => Ok(b"loader fault\n".to_vec(alloc)?),
        FlattenRefusal::NoMemory => stop_line(alloc, &Stop::NoMemory),
    }
}

/// Puts an instance to the end, as `name(args)` and behind it the numbers of its text and its module; a built-in one
/// has none.
fn instance_onto(alloc: Global, into: &mut Vec<u8>, instance: &Instance) -> io::Result<()> {
    into.extend_from_slice(instance.name.as_bytes())?;
    for arg in instance.args.as_slice() {
        into.extend_from_slice(b"(")?;
        into.extend_from_slice(arg.as_bytes())?;
        into.extend_from_slice(b")")?;
    }
    let place = match instance.origin {
        Origin::Builtin(_) => String::from_str(alloc, "/-\n")?,
        Origin::Text { text, module } => format!(in alloc; "/{text}.{module}\n")?,
    };
    into.extend_from_slice(place.as_str().as_bytes())?;
    Ok(())
}

/// The instances of an input, each on a line of its own, or its refusal.
pub(crate) fn instances(alloc: Global, all: &[Section<'_>], input: &[u8]) -> io::Result<Vec<u8>> {
    match flat_of(alloc, all, input)? {
        Err(line) => Ok(line),
        Ok(flat) => {
            let mut into = Vec::new(alloc);
            for instance in flat.instances.as_slice() {
                instance_onto(alloc, &mut into, instance)?;
            }
            Ok(into)
        }
    }
}
