//! A loader in memory, which tells its texts and fails where it is told to.

ghost use Rattle.std.specs.Prelude.{◌≡◌, ◌≢◌, ◌≤◌, ◌∷◌, ◌++◌, ◌⊎◌, Some, [], OnOk, OnErr, map, string_bytes};
ghost use Rattle.std.specs.Option.{option_map};
ghost use Rattle.std.specs.BTreeMap.{get_by_text};
ghost use Rattle.elan_text.specs.Streams.{Rose};
ghost use Rattle.elan_loaders.specs.Libraries.{Answers};
ghost use Rattle.elan_loaders.specs.Asked.{names_asked};
ghost use Rattle.elan_loaders.specs.declared.loader.Fetched.TheVariants.{Absent, Failed, NoMemory as OutOfMemory};

use crate::{Fetched, Loader};
use elan_text::NoMemory;
use std::alloc::Global;
use std::collections::BTreeMap;

/// Texts in memory as a loader. It tells them.
#[derive(Drop)]
pub struct MemoryLoader {
    alloc: Global,
    texts: BTreeMap<String, Vec<u8>>,
    failing: Vec<u64>,
    asked: Vec<String>,
    calls: u64,
    absences: u64,
    faults: u64,
}

impl MemoryLoader {
    /// A loader of these texts, by their names, that fails at each fetch whose number, counted from 1, stands in
    /// `failing`. It takes no memory.
    pub fn new(alloc: Global, texts: BTreeMap<String, Vec<u8>>, failing: Vec<u64>) -> MemoryLoader
        ensures library { ⟦<MemoryLoader as Loader>⟧.library result
            ≡ Some (λ name. option_map (λ text. text.items) (get_by_text texts name)) }
        ensures misses { ⟦<MemoryLoader as Loader>⟧.misses result ≡ 0 }
        ensures failures { ⟦<MemoryLoader as Loader>⟧.failures result ≡ 0 }
        ensures asked { names_asked result ≡ [] }
    {
        MemoryLoader {
            alloc,
            texts,
            failing,
            asked: Vec::new(alloc),
            calls: 0,
            absences: 0,
            faults: 0,
        }
    }

    /// The names that were asked for, in order. It takes no memory.
    pub fn asked(&self) -> &[String]
        ensures { map string_bytes result.now ≡ names_asked self.now }
    {
        self.asked.as_slice()
    }

    /// Counts this fetch, and keeps its name where there is room.
    fn note(&mut self, name: &str) -> Result<(), NoMemory>
        ensures texts { self.new.texts ≡ self.old.texts }
        ensures absences { self.new.absences ≡ self.old.absences }
        ensures faults { self.new.faults ≡ self.old.faults }
        ensures ok { OnOk result (names_asked self.new ≡ names_asked self.old ++ name.now ∷ []) }
        ensures err { OnErr result (names_asked self.new ≡ names_asked self.old) }
    {
        self.calls = self.calls.saturating_add(1);
        self.asked.push(String::from_str(self.alloc, name)?)?;
        Ok(())
    }
}

impl Loader for MemoryLoader {
    ghost use Rattle.std.specs.BTreeMap.{get_by_text};

    ghost library = { λ loader. Some (λ name.
        option_map (λ text. text.items) (get_by_text loader.texts name)) };

    ghost misses = { λ loader. loader.absences };

    ghost failures = { λ loader. loader.faults };

    /// Puts the text of a name at the end of a buffer, and keeps the name among those that were asked for. Only for
    /// want of memory it may be lost.
    fn fetch(&mut self, name: &str, into: &mut Vec<u8>) -> Fetched
        ensures answers { Answers (⟦<MemoryLoader as Loader>⟧.library self.old) name.now
            result into.old.items into.new.items }
        ensures library { ⟦<MemoryLoader as Loader>⟧.library self.new
            ≡ ⟦<MemoryLoader as Loader>⟧.library self.old }
        ensures absent { result ≡ Absent → Rose (⟦<MemoryLoader as Loader>⟧.misses self.old)
            (⟦<MemoryLoader as Loader>⟧.misses self.new) }
        ensures failed { result ≡ Failed → Rose (⟦<MemoryLoader as Loader>⟧.failures self.old)
            (⟦<MemoryLoader as Loader>⟧.failures self.new) }
        ensures misses { ⟦<MemoryLoader as Loader>⟧.misses self.old
            ≤ ⟦<MemoryLoader as Loader>⟧.misses self.new }
        ensures failures { ⟦<MemoryLoader as Loader>⟧.failures self.old
            ≤ ⟦<MemoryLoader as Loader>⟧.failures self.new }
        ensures asked { result ≢ OutOfMemory
            → names_asked self.new ≡ names_asked self.old ++ name.now ∷ [] }
        ensures kept { (names_asked self.new ≡ names_asked self.old)
            ⊎ (names_asked self.new ≡ names_asked self.old ++ name.now ∷ []) }
    {
        if self.note(name).is_err() {
            return Fetched::NoMemory;
        }
        if self.failing.contains(&self.calls) {
            self.faults = self.faults.saturating_add(1);
            return Fetched::Failed;
        }
        match self.texts.get(name) {
            None => {
                self.absences = self.absences.saturating_add(1);
                Fetched::Absent
            }
            Some(text) => match into.extend_from_slice(text.as_slice()) {
                Ok(()) => Fetched::Found,
                Err(_) => Fetched::NoMemory,
            },
        }
    }

    fn absences(&self) -> u64 {
        self.absences
    }

    fn faults(&self) -> u64 {
        self.faults
    }
}
