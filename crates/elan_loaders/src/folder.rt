//! A folder of files as a loader. It tells nothing: that the files hold what is read is trusted.

ghost use Rattle.std.specs.Prelude.{◌≡◌, ◌≤◌, None, length};
ghost use Rattle.std.specs.Io.{StartsWith};

use crate::{Fetched, Loader};
use elan_text::NoMemory;
use std::alloc::Global;
use std::io::Read;
use std::rt::Files;
use std::{fs, io};

/// The most bytes that are taken of a file: one more than a program may have.
const MOST: usize = 4_194_305;

/// How many bytes are asked for at a time.
const CHUNK: usize = 16_384;

/// The files of a folder as a loader: the text of a name is the file of that name with `.eln` behind it.
#[derive(Drop)]
pub struct FolderLoader<R> {
    rt: R,
    folder: String,
    absences: u64,
    faults: u64,
}

impl<R: Files + AllocGlobal + Drop> FolderLoader<R> {
    /// A loader of the files of this folder, which this runtime opens. It takes no memory.
    pub fn new(rt: R, folder: String) -> FolderLoader<R>
        ensures library { ⟦<FolderLoader<R> as Loader>⟧.library result ≡ None }
        ensures misses { ⟦<FolderLoader<R> as Loader>⟧.misses result ≡ 0 }
        ensures failures { ⟦<FolderLoader<R> as Loader>⟧.failures result ≡ 0 }
    {
        FolderLoader {
            rt,
            folder,
            absences: 0,
            faults: 0,
        }
    }
}

impl<R: Files + AllocGlobal + Drop> Loader for FolderLoader<R> {
    ghost library = { λ _. None };

    ghost misses = { λ loader. loader.absences };

    ghost failures = { λ loader. loader.faults };

    fn fetch(&mut self, name: &str, into: &mut Vec<u8>) -> Fetched {
        let before = into.len();
        let answer = take_file(&self.rt, self.folder.as_str(), name, into);
        match answer {
            Fetched::Found => return answer,
            Fetched::Absent => self.absences = self.absences.saturating_add(1),
            Fetched::Failed => self.faults = self.faults.saturating_add(1),
            Fetched::NoMemory => {}
        }
        into.truncate(before);
        answer
    }

    fn absences(&self) -> u64 {
        self.absences
    }

    fn faults(&self) -> u64 {
        self.faults
    }
}

/// Puts bytes of the file of a name at the end of a buffer: all of them, and the answer is `Found`; or some of them.
fn take_file<R: Files + AllocGlobal>(
    rt: &R,
    folder: &str,
    name: &str,
    into: &mut Vec<u8>,
) -> Fetched
    ensures { StartsWith into.new.items into.old.items }
{
    let Ok(path) = path_of(rt.alloc(), folder, name) else {
        return Fetched::NoMemory;
    };
    match fs::open(rt, path.as_str()) {
        Ok(mut file) => take_bytes(&mut file, into),
        Err(error) if error.kind() == io::ErrorKind::NotFound => Fetched::Absent,
        Err(_) => Fetched::Failed,
    }
}

/// The path of the file of a name.
fn path_of(alloc: Global, folder: &str, name: &str) -> Result<String, NoMemory> {
    let mut path = String::from_str(alloc, folder)?;
    path.push_str("/")?;
    path.push_str(name)?;
    path.push_str(".eln")?;
    Ok(path)
}

/// Puts the bytes that a reader has left at the end of a buffer, at most `MOST`.
fn take_bytes<F: Read>(file: &mut F, into: &mut Vec<u8>) -> Fetched
    ensures { StartsWith into.new.items into.old.items }
{
    let mut chunk = [0; CHUNK];
    let mut left = MOST;
    'reads: while left > 0 {
        let most = left.min(CHUNK);
        match file.read(&mut chunk[..most]) {
            Ok(0) => return Fetched::Found,
            Ok(count) => {
                if into.extend_from_slice(&chunk[..count]).is_err() {
                    return Fetched::NoMemory;
                }
                left -= count;
            }
            Err(_) => return Fetched::Failed,
        }
    }
    Fetched::Found
}
