//! How far a walk through the imports came.

ghost use Rattle.std.specs.Prelude.{◌≡◌, ◌++◌, ◌∷◌, [], drop, length, IfOk, OnOk};
ghost use Rattle.std.specs.List.{All, list_any};
ghost use Rattle.elan_modules.specs.Fitting.{IsFitting, HasOrigin, IsOriginOf};
ghost use Rattle.elan_modules.specs.Visits as spec;
ghost use Rattle.elan_modules.specs.Walking as walking;

use crate::flat::{Instance, LoadedText, Origin};
use crate::walk::Reference;
use elan_numbers::Numbers;
use elan_text::{Name, NoMemory};
use sqlite_items::Items;
use std::alloc::{AllocError, Global};
use std::marker::Model;

/// The texts that were opened and the instances that were finished, which are found again by name and arguments.
#[derive(Drop)]
pub(crate) struct Walk {
    /// The stream first, and then the texts that were loaded, in that order.
    texts: Items<LoadedText>,
    /// The instances that were finished, in that order.
    done: Items<Instance>,
    /// The name and the arguments of each of them.
    keys: Numbers,
}

impl Model for Walk {
    ghost use Rattle.elan_modules.specs.Walking.{Walk as WalkValue, IsWalk};
    ghost use Rattle.elan_phrases.specs.contracts.plan.Plan as plan;
    ghost use Rattle.std.specs.Coded.{codes};

    ghost Value = { WalkValue };

    ghost coded = { Prim.hlevel (codes, plan.the_row.coded) };

    ghost view = { λ w. record { texts = w.texts; done = w.done } };

    ghost invariant = { λ w. IsWalk w.keys w.texts w.done };
}

impl Walk {
    /// A walk that begins: nothing is loaded but the stream, and nothing is finished.
    pub(crate) fn start(alloc: Global, stream: LoadedText) -> Result<Walk, NoMemory>
        ensures { IfOk result (λ walk. walk ≡ spec.start stream) }
    {
        let mut texts = Items::new(alloc);
        texts.push(stream)?;
        Ok(Walk {
            texts,
            done: Items::new(alloc),
            keys: Numbers::new(alloc),
        })
    }

    /// The stream and the texts that were loaded.
    pub(crate) fn texts(&self) -> &[LoadedText]
        ensures { result.now ≡ self.now.texts }
    {
        self.texts.as_slice()
    }

    /// How many instances were finished.
    pub(crate) fn finished(&self) -> usize
        ensures { result ≡ length self.now.done }
    {
        self.done.len()
    }

    /// Adds a text that was loaded.
    pub(crate) fn add_text(&mut self, text: LoadedText) -> Result<(), NoMemory>
        requires { IsFitting text }
        ensures ok { OnOk result (self.new ≡ walking.with_text self.old text) }
        ensures kept { walking.Keeps self.old.texts self.new.texts }
    {
        self.texts.push(text)?;
        Ok(())
    }

    /// Whether the instance of a reference is finished.
    pub(crate) fn is_finished(&self, alloc: Global, reference: &Reference) -> Result<bool, NoMemory>
        ensures { IfOk result (λ found. found
            ≡ list_any (spec.is_instance reference.now) self.now.done) }
    {
        let key = key_of(alloc, &reference.name, reference.args.as_slice())?;
        Ok(self.keys.number_of(key.as_slice()).is_some())
    }

    /// Appends the instance of a reference to those that are finished.
    pub(crate) fn finish(
        &mut self,
        alloc: Global,
        reference: &Reference,
        origin: Origin,
    ) -> Result<(), NoMemory>
        requires { IsOriginOf self.old.texts reference.now.name.bytes origin }
        ensures ok { OnOk result (self.new ≡ spec.finished reference.now origin self.old) }
        ensures texts { self.new.texts ≡ self.old.texts }
    {
        let key = key_of(alloc, &reference.name, reference.args.as_slice())?;
        let instance = instance_of(alloc, reference, origin)?;
        self.done.push(instance)?;
        match self.keys.add(alloc, key.as_slice()) {
            Ok(()) => Ok(()),
            Err(_) => {
                self.done.pop();
                Err(AllocError)
            }
        }
    }

    /// The texts and the instances.
    pub(crate) fn into_parts(self) -> (Items<LoadedText>, Items<Instance>)
        ensures parts { result ≡ (self.texts, self.done) }
        ensures loaded { All IsFitting (drop 1 self.texts) }
        ensures origins { All (HasOrigin self.texts) self.done }
    {
        let Walk { texts, done, .. } = self;
        (texts, done)
    }
}

/// The instance of a reference.
fn instance_of(alloc: Global, reference: &Reference, origin: Origin) -> Result<Instance, NoMemory>
    ensures { IfOk result (λ instance. instance ≡ spec.instance_of reference.now origin) }
{
    let name = reference.name.copy(alloc)?;
    let args = copied(alloc, reference.args.as_slice())?;
    Ok(Instance { name, args, origin })
}

/// A copy of names.
pub(crate) fn copied(alloc: Global, names: &[Name]) -> Result<Items<Name>, NoMemory>
    ensures { IfOk result (λ copy. copy ≡ names.now) }
{
    let mut copy = Items::new(alloc);
    let mut left = names;
    'names: while let [first, rest @ ..] = left {
        copy.push(first.copy(alloc)?)?;
        left = rest;
    }
    Ok(copy)
}

/// The bytes by which an instance is found again.
fn key_of(alloc: Global, name: &Name, args: &[Name]) -> Result<Vec<u8>, NoMemory>
    ensures { IfOk result (λ key. key.items ≡ walking.key_of name.now args.now) }
{
    let mut key = Vec::new(alloc);
    marked_onto(&mut key, name.as_bytes())?;
    let mut left = args;
    'names: while let [first, rest @ ..] = left {
        marked_onto(&mut key, first.as_bytes())?;
        left = rest;
    }
    Ok(key)
}

/// Puts the bytes of a name behind what is there, so that they tell where it ends.
fn marked_onto(key: &mut Vec<u8>, name: &[u8]) -> Result<(), NoMemory>
    ensures { OnOk result (key.new.items ≡ key.old.items ++ walking.marked name.now) }
{
    let mut left = name;
    'bytes: while let [byte, rest @ ..] = left {
        key.push(1)?;
        key.push(*byte)?;
        left = rest;
    }
    key.push(0)?;
    Ok(())
}
