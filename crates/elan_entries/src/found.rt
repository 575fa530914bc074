//! What a chart keeps of a run: at each key the only list of trees, or that there are several.

ghost use Rattle.std.specs.Prelude.{◌≡◌, ◌++◌, ◌∷◌, [], IfOk};
ghost use Rattle.elan_entries.specs.Found as spec;

use crate::shared::{Tree, again_onto, same_all};
use elan_terms::{OpId, SortId};
use elan_text::NoMemory;
use sqlite_items::Items;
use std::alloc::Global;

/// What a run is read as.
#[derive(Clone, Copy)]
pub enum Key {
    /// A tree of a sort; the priority that the edge rule looks at, where it does; and whether the
    /// outermost node is an injection.
    Whole(SortId, Option<u8>, bool),
    /// The pieces of an operator from this one on, whose arguments begin with this one; both are
    /// counted from 0.
    Rest(OpId, usize, usize),
}

/// The only list of trees, or that there are different ones.
#[derive(Drop)]
pub enum Found {
    /// No other list was found: a tree alone where a run is read as a whole, and the arguments that
    /// are left where it is the rest of a spelling.
    One(Items<Tree>),
    /// Two lists that differ were found. None is kept.
    Several,
}

/// What a run is read as in one way.
#[derive(Drop)]
pub struct Entry {
    /// In which way.
    pub key: Key,
    /// What was found of it.
    pub found: Found,
}

fn same_tie(a: Option<u8>, b: Option<u8>) -> bool
    ensures { result ≡ spec.same_tie a b }
{
    match (a, b) {
        (None, None) => true,
        (Some(p), Some(q)) => p == q,
        _ => false,
    }
}

fn same_flag(i: bool, j: bool) -> bool
    ensures { result ≡ spec.same_flag i j }
{
    if i { j } else { !j }
}

fn same_key(a: Key, b: Key) -> bool
    ensures { result ≡ spec.same_key a b }
{
    match (a, b) {
        (Key::Whole(s, p, i), Key::Whole(t, q, j)) => s.0 == t.0
            && (same_tie(p, q) && same_flag(i, j)),
        (Key::Rest(f, k, h), Key::Rest(g, l, m)) => f.0 == g.0 && (k == l && h == m),
        _ => false,
    }
}

/// Whether there is nothing new in other trees.
fn stays(known: &Found, more: &Found) -> bool
    ensures { result ≡ spec.stays known.now more.now }
{
    match (known, more) {
        (Found::Several, _) => true,
        (Found::One(_), Found::Several) => false,
        (Found::One(ts), Found::One(us)) => same_all(ts.as_slice(), us.as_slice()),
    }
}

/// What is known of one key with more of it: several, where the lists differ. It takes no memory.
pub fn merged(known: Found, more: &Found) -> Found
    ensures { result ≡ spec.merged known more.now }
{
    if stays(&known, more) {
        known
    } else {
        Found::Several
    }
}

/// How many entries stand before the first of this key.
fn place(entries: &[Entry], key: Key) -> usize
    ensures { result ≡ spec.place entries.now key }
{
    let mut at = 0;
    for entry in entries {
        if same_key(entry.key, key) {
            return at;
        }
        at += 1;
    }
    at
}

/// Whether different ones are found.
fn is_several(found: &Found) -> bool
    ensures { result ≡ spec.is_several found.now }
{
    match found {
        Found::One(_) => false,
        Found::Several => true,
    }
}

/// Whether different ones are found at a key, so that nothing more changes what is found there. It
/// takes no memory, and time by the number of entries.
pub fn is_settled(entries: &[Entry], key: Key) -> bool
    ensures { result ≡ spec.is_settled entries.now key }
{
    for entry in entries {
        if same_key(entry.key, key) {
            return is_several(&entry.found);
        }
    }
    false
}

/// Adds what is found at a key: behind the entries, where none has the key, and else to the first
/// that has it. The other entries stay, and so does their order. It takes time by their number.
///
/// # Errors
///
/// The machine had no memory to give; it is not said what the entries are then.
#[tactic(auto, using(crate::proofs::PutLemmas::puts))]
pub fn put(entries: &mut Items<Entry>, entry: Entry) -> Result<(), NoMemory>
    ensures { IfOk result (λ _. entries.new ≡ spec.put entries.old entry) }
{
    let at = place(entries.as_slice(), entry.key);
    match entries.get(at) {
        None => entries.push(entry),
        Some(old) => {
            let key = old.key;
            if stays(&old.found, &entry.found) {
                Ok(())
            } else {
                entries.set(
                    at,
                    Entry {
                        key,
                        found: Found::Several,
                    },
                );
                Ok(())
            }
        }
    }
}

/// Adds what copies of these entries find, from the first on. Those that are given stay.
///
/// # Errors
///
/// The machine had no memory to give; it is not said what the entries are then.
pub fn put_all(alloc: Global, entries: &mut Items<Entry>, more: &[Entry]) -> Result<(), NoMemory>
    ensures { IfOk result (λ _. entries.new ≡ spec.put_all entries.old more.now) }
{
    for entry in more {
        put(entries, entry.again(alloc)?)?;
    }
    Ok(())
}

impl Found {
    /// The same trees with one more owner each.
    ///
    /// # Errors
    ///
    /// The machine had no memory to give.
    pub fn again(&self, alloc: Global) -> Result<Found, NoMemory>
        ensures { IfOk result (λ f. f ≡ self.now) }
    {
        match self {
            Found::Several => Ok(Found::Several),
            Found::One(trees) => {
                let mut all = Items::new(alloc);
                again_onto(&mut all, trees.as_slice())?;
                Ok(Found::One(all))
            }
        }
    }
}

impl Entry {
    /// The same key with the same trees, which have one more owner each.
    ///
    /// # Errors
    ///
    /// The machine had no memory to give.
    pub fn again(&self, alloc: Global) -> Result<Entry, NoMemory>
        ensures { IfOk result (λ e. e ≡ self.now) }
    {
        Ok(Entry {
            key: self.key,
            found: self.found.again(alloc)?,
        })
    }
}

/// The trees of one before those of the other; several, where either is.
///
/// # Errors
///
/// The machine had no memory to give.
pub fn joined(alloc: Global, first: &Found, second: &Found) -> Result<Found, NoMemory>
    ensures { IfOk result (λ f. f ≡ spec.joined first.now second.now) }
{
    match (first, second) {
        (Found::One(ts), Found::One(us)) => {
            let mut all = Items::new(alloc);
            again_onto(&mut all, ts.as_slice())?;
            again_onto(&mut all, us.as_slice())?;
            Ok(Found::One(all))
        }
        _ => Ok(Found::Several),
    }
}

/// The operator over the trees, as its arguments from left to right; several, where those are.
///
/// # Errors
///
/// The machine had no memory to give.
pub fn applied(alloc: Global, op: OpId, found: &Found) -> Result<Found, NoMemory>
    ensures { IfOk result (λ f. f ≡ spec.applied op found.now) }
{
    match found {
        Found::Several => Ok(Found::Several),
        Found::One(trees) => {
            let mut args = Items::new(alloc);
            again_onto(&mut args, trees.as_slice())?;
            one(alloc, Tree::app(alloc, op, args)?)
        }
    }
}

/// One tree alone.
///
/// # Errors
///
/// The machine had no memory to give; the tree is let go then.
pub fn one(alloc: Global, tree: Tree) -> Result<Found, NoMemory>
    ensures { IfOk result (λ f. f ≡ Found.One (tree ∷ [])) }
{
    let mut trees = Items::new(alloc);
    trees.push(tree)?;
    Ok(Found::One(trees))
}
