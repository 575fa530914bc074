//! The top call.

ghost use Rattle.std.specs.Prelude.{◌≡◌, ◌≤◌, ◌⊎◌, ℕ, true, None, Some, List, IfOk, IfSome, OnErr};
ghost use Rattle.elan_cli.specs.Ranges.{AreInRange};
ghost use Rattle.elan_cli.specs.Words.{texts};
ghost use Rattle.elan_text.specs.Whole.{IsPast};
ghost use Rattle.elan_modules.specs.Walks.{shelf, Moved, Untouched};
ghost use Rattle.elan_run.specs.Runs.{Reading, read, wrote, Feeds, Finishes, IsComplete, Leaves, MeetsHeadline, Sends};
ghost use Rattle.elan_run.specs.Verdict.{chosen_by, input_of, AreAccepted, IsRead, NeedsNone};

use crate::answer::{Answer, MOST_BYTES, Unanswered, answered, generated, too_long};
use crate::lines::USAGE_LINE;
use crate::status::Status;
use elan_cli::{Options, WordsRefusal};
use elan_loaders::Loader;
use elan_text::{NoMemory, ReadRefusal, Sink, Source, read_all, write_all};
use std::alloc::{AllocError, Global};

/// Writes a text and answers the status that goes with it, or `WriteFault`.
fn send<K: Sink>(sink: &mut K, text: &[u8], status: Status) -> Status
    ensures sends { Sends text.now status
        (wrote (K.written sink.old) (K.written sink.new) (K.failures sink.old) (K.failures sink.new))
        result }
    ensures kept { K.failures sink.old ≤ K.failures sink.new }
{
    match write_all(sink, text) {
        Ok(()) => status,
        Err(_) => Status::WriteFault,
    }
}

/// Writes what was answered, where there is an answer.
fn finish<K: Sink>(sink: &mut K, made: Result<Answer, Unanswered>) -> Status
    ensures finishes { Finishes
        (wrote (K.written sink.old) (K.written sink.new) (K.failures sink.old) (K.failures sink.new))
        made result }
    ensures kept { K.failures sink.old ≤ K.failures sink.new }
{
    match made {
        Ok(answer) => send(sink, answer.text.as_slice(), answer.status),
        Err(Unanswered::LoaderFault) => Status::LoaderFault,
        Err(Unanswered::NoMemory) => Status::NoMemory,
    }
}

/// A run whose input is what the source has left.
fn streamed<S: Source, K: Sink>(
    alloc: Global,
    options: &Options,
    source: &mut S,
    loaders: &mut Vec<Box<dyn Loader>>,
    sink: &mut K,
) -> Status
    requires ranges { AreInRange true options.now }
    requires read { options.now.demo ≡ None }
    ensures leaves { Leaves (Some options.now)
        (read (S.left source.old) (S.left source.new) (S.failures source.old) (S.failures source.new))
        (shelf (λ l. library l) (λ l. misses l) (λ l. ⟦<Box<dyn Loader> as Loader>⟧.failures l) loaders.old.items)
        (shelf (λ l. library l) (λ l. misses l) (λ l. ⟦<Box<dyn Loader> as Loader>⟧.failures l) loaders.new.items)
        (wrote (K.written sink.old) (K.written sink.new) (K.failures sink.old) (K.failures sink.new))
        result }
    ensures read_kept { S.failures source.old ≤ S.failures source.new }
    ensures kept { K.failures sink.old ≤ K.failures sink.new }
    ensures past { IsPast (S.left source.old) (S.left source.new) }
    // What becomes of the loaders.
    ensures moved { Moved
        (shelf (λ l. library l) (λ l. misses l) (λ l. ⟦<Box<dyn Loader> as Loader>⟧.failures l) loaders.old.items)
        (shelf (λ l. library l) (λ l. misses l) (λ l. ⟦<Box<dyn Loader> as Loader>⟧.failures l) loaders.new.items) }
    ensures untouched { (bytes : List ℕ) → Feeds (Some options.now) (S.left source.old) bytes
        → NeedsNone (input_of (Some options.now) bytes)
        → Untouched
        (shelf (λ l. library l) (λ l. misses l) (λ l. ⟦<Box<dyn Loader> as Loader>⟧.failures l) loaders.old.items)
        (shelf (λ l. library l) (λ l. misses l) (λ l. ⟦<Box<dyn Loader> as Loader>⟧.failures l) loaders.new.items) }
{
    match read_all(alloc, source, MOST_BYTES) {
        Ok(bytes) => finish(sink, answered(alloc, options, bytes.as_slice(), loaders)),
        Err(ReadRefusal::TooLong) => finish(sink, too_long(alloc)),
        Err(ReadRefusal::ReadFault) => Status::ReadFault,
        Err(ReadRefusal::NoMemory) => Status::NoMemory,
    }
}

/// A run whose input is generated from a number. No source is read.
fn demonstrated<K: Sink>(
    alloc: Global,
    options: &Options,
    number: u32,
    loaders: &mut Vec<Box<dyn Loader>>,
    sink: &mut K,
) -> Status
    requires ranges { AreInRange true options.now }
    requires generated { options.now.demo ≡ Some number }
    ensures leaves { (reading : Reading) → Leaves (Some options.now)
        reading
        (shelf (λ l. library l) (λ l. misses l) (λ l. ⟦<Box<dyn Loader> as Loader>⟧.failures l) loaders.old.items)
        (shelf (λ l. library l) (λ l. misses l) (λ l. ⟦<Box<dyn Loader> as Loader>⟧.failures l) loaders.new.items)
        (wrote (K.written sink.old) (K.written sink.new) (K.failures sink.old) (K.failures sink.new))
        result }
    ensures kept { K.failures sink.old ≤ K.failures sink.new }
    // What becomes of the loaders.
    ensures moved { Moved
        (shelf (λ l. library l) (λ l. misses l) (λ l. ⟦<Box<dyn Loader> as Loader>⟧.failures l) loaders.old.items)
        (shelf (λ l. library l) (λ l. misses l) (λ l. ⟦<Box<dyn Loader> as Loader>⟧.failures l) loaders.new.items) }
    ensures untouched { (bytes : List ℕ) → NeedsNone (input_of (Some options.now) bytes)
        → Untouched
        (shelf (λ l. library l) (λ l. misses l) (λ l. ⟦<Box<dyn Loader> as Loader>⟧.failures l) loaders.old.items)
        (shelf (λ l. library l) (λ l. misses l) (λ l. ⟦<Box<dyn Loader> as Loader>⟧.failures l) loaders.new.items) }
{
    finish(sink, generated(alloc, options, number, loaders))
}

/// A run with these options.
fn ran_with<S: Source, K: Sink>(
    alloc: Global,
    options: &Options,
    source: &mut S,
    loaders: &mut Vec<Box<dyn Loader>>,
    sink: &mut K,
) -> Status
    requires { AreInRange true options.now }
    ensures leaves { Leaves (Some options.now)
        (read (S.left source.old) (S.left source.new) (S.failures source.old) (S.failures source.new))
        (shelf (λ l. library l) (λ l. misses l) (λ l. ⟦<Box<dyn Loader> as Loader>⟧.failures l) loaders.old.items)
        (shelf (λ l. library l) (λ l. misses l) (λ l. ⟦<Box<dyn Loader> as Loader>⟧.failures l) loaders.new.items)
        (wrote (K.written sink.old) (K.written sink.new) (K.failures sink.old) (K.failures sink.new))
        result }
    ensures read_kept { S.failures source.old ≤ S.failures source.new }
    ensures kept { K.failures sink.old ≤ K.failures sink.new }
    ensures past { IsPast (S.left source.old) (S.left source.new) }
    ensures unread { (IsRead (Some options.now) → ⊥) → source.new ≡ source.old }
    // What becomes of the loaders.
    ensures moved { Moved
        (shelf (λ l. library l) (λ l. misses l) (λ l. ⟦<Box<dyn Loader> as Loader>⟧.failures l) loaders.old.items)
        (shelf (λ l. library l) (λ l. misses l) (λ l. ⟦<Box<dyn Loader> as Loader>⟧.failures l) loaders.new.items) }
    ensures untouched { (bytes : List ℕ) → Feeds (Some options.now) (S.left source.old) bytes
        → NeedsNone (input_of (Some options.now) bytes)
        → Untouched
        (shelf (λ l. library l) (λ l. misses l) (λ l. ⟦<Box<dyn Loader> as Loader>⟧.failures l) loaders.old.items)
        (shelf (λ l. library l) (λ l. misses l) (λ l. ⟦<Box<dyn Loader> as Loader>⟧.failures l) loaders.new.items) }
{
    match options.demo {
        Some(number) => demonstrated(alloc, options, number, loaders, sink),
        None => streamed(alloc, options, source, loaders, sink),
    }
}

/// What words choose, or None where they are refused.
#[tactic(auto, using(crate::proofs::Leaving::words_accepted))]
fn chosen(alloc: Global, words: &[String]) -> Result<Option<Options>, NoMemory>
    ensures value { IfOk result (λ c. c ≡ chosen_by (texts words.now)) }
    ensures ranges { IfOk result (λ c. IfSome c (λ o. AreInRange true o)) }
    ensures wanted { OnErr result (AreAccepted (chosen_by (texts words.now))) }
{
    match elan_cli::options(alloc, words, true) {
        Ok(options) => Ok(Some(options)),
        Err(WordsRefusal::Unknown(_)) => Ok(None),
        Err(WordsRefusal::Repeated(_)) => Ok(None),
        Err(WordsRefusal::NoValue(_)) => Ok(None),
        Err(WordsRefusal::OutOfRange(_)) => Ok(None),
        Err(WordsRefusal::NoMemory) => Err(AllocError),
    }
}

/// A run, with all that it leaves.
fn ran<S: Source, K: Sink>(
    alloc: Global,
    words: &[String],
    source: &mut S,
    loaders: &mut Vec<Box<dyn Loader>>,
    sink: &mut K,
) -> Status
    ensures leaves { Leaves (chosen_by (texts words.now))
        (read (S.left source.old) (S.left source.new) (S.failures source.old) (S.failures source.new))
        (shelf (λ l. library l) (λ l. misses l) (λ l. ⟦<Box<dyn Loader> as Loader>⟧.failures l) loaders.old.items)
        (shelf (λ l. library l) (λ l. misses l) (λ l. ⟦<Box<dyn Loader> as Loader>⟧.failures l) loaders.new.items)
        (wrote (K.written sink.old) (K.written sink.new) (K.failures sink.old) (K.failures sink.new))
        result }
    ensures read_kept { S.failures source.old ≤ S.failures source.new }
    ensures kept { K.failures sink.old ≤ K.failures sink.new }
    ensures past { IsPast (S.left source.old) (S.left source.new) }
    ensures unread { (IsRead (chosen_by (texts words.now)) → ⊥) → source.new ≡ source.old }
    ensures unasked { (chosen_by (texts words.now)) ≡ None → loaders.new ≡ loaders.old }
    // What becomes of the loaders.
    ensures moved { Moved
        (shelf (λ l. library l) (λ l. misses l) (λ l. ⟦<Box<dyn Loader> as Loader>⟧.failures l) loaders.old.items)
        (shelf (λ l. library l) (λ l. misses l) (λ l. ⟦<Box<dyn Loader> as Loader>⟧.failures l) loaders.new.items) }
    ensures untouched { (bytes : List ℕ) → Feeds (chosen_by (texts words.now)) (S.left source.old) bytes
        → NeedsNone (input_of (chosen_by (texts words.now)) bytes)
        → Untouched
        (shelf (λ l. library l) (λ l. misses l) (λ l. ⟦<Box<dyn Loader> as Loader>⟧.failures l) loaders.old.items)
        (shelf (λ l. library l) (λ l. misses l) (λ l. ⟦<Box<dyn Loader> as Loader>⟧.failures l) loaders.new.items) }
{
    match chosen(alloc, words) {
        Ok(Some(options)) => ran_with(alloc, &options, source, loaders, sink),
        Ok(None) => send(sink, USAGE_LINE, Status::Usage),
        Err(_) => Status::NoMemory,
    }
}

/// Reads words and a source, and writes the report of what the source asks.
///
/// The words choose how many items are written at most (`--limit`, 1 to 1,000,000, else 1,000,000) and how many steps each
/// path may take (`--steps`, 1 to 1,000, else 1,000); `--plain` and `--workers` change nothing here. With `--demo K` the source
/// is not read: the input is generated from K, and the summary of the report is written in its place.
///
/// The source is read to its end, modules that it lacks are loaded, and the whole text is made before any of it is written.
/// The call starts no thread and returns for every input. After a refusal the loaders stand as their fetches left them.
pub fn run_plain<S: Source, K: Sink>(
    alloc: Global,
    words: &[String],
    source: &mut S,
    loaders: &mut Vec<Box<dyn Loader>>,
    sink: &mut K,
) -> Status
    // For what is accepted, over a library that may be taken for the loaders: a run that met no fault and was refused no
    // memory wrote exactly the report of the first items, up to the limit, of the list that sequential backtracking
    // defines; any other run wrote a prefix of it.
    ensures headline { MeetsHeadline (chosen_by (texts words.now))
        (read (S.left source.old) (S.left source.new) (S.failures source.old) (S.failures source.new))
        (shelf (λ l. library l) (λ l. misses l) (λ l. ⟦<Box<dyn Loader> as Loader>⟧.failures l) loaders.old.items)
        (shelf (λ l. library l) (λ l. misses l) (λ l. ⟦<Box<dyn Loader> as Loader>⟧.failures l) loaders.new.items)
        (wrote (K.written sink.old) (K.written sink.new) (K.failures sink.old) (K.failures sink.new))
        result }
    // For every input, over a library that may be taken for the loaders: where no count of faults rose, the whole text was
    // written and the status is that of the input, or memory was wanted and nothing was written.
    ensures complete { IsComplete (chosen_by (texts words.now))
        (read (S.left source.old) (S.left source.new) (S.failures source.old) (S.failures source.new))
        (shelf (λ l. library l) (λ l. misses l) (λ l. ⟦<Box<dyn Loader> as Loader>⟧.failures l) loaders.old.items)
        (shelf (λ l. library l) (λ l. misses l) (λ l. ⟦<Box<dyn Loader> as Loader>⟧.failures l) loaders.new.items)
        (wrote (K.written sink.old) (K.written sink.new) (K.failures sink.old) (K.failures sink.new))
        result }
    // The cause of each status, and what it leaves.
    ensures leaves { Leaves (chosen_by (texts words.now))
        (read (S.left source.old) (S.left source.new) (S.failures source.old) (S.failures source.new))
        (shelf (λ l. library l) (λ l. misses l) (λ l. ⟦<Box<dyn Loader> as Loader>⟧.failures l) loaders.old.items)
        (shelf (λ l. library l) (λ l. misses l) (λ l. ⟦<Box<dyn Loader> as Loader>⟧.failures l) loaders.new.items)
        (wrote (K.written sink.old) (K.written sink.new) (K.failures sink.old) (K.failures sink.new))
        result }
    ensures read_kept { S.failures source.old ≤ S.failures source.new }
    ensures kept { K.failures sink.old ≤ K.failures sink.new }
    ensures past { IsPast (S.left source.old) (S.left source.new) }
    // Words that are refused are so whatever the source has.
    ensures words { (chosen_by (texts words.now)) ≡ None → (result ≡ Status.Usage) ⊎ (result ≡ Status.WriteFault) }
    // A source whose bytes are not the input is not read, and for words that are refused nothing is loaded.
    ensures unread { (IsRead (chosen_by (texts words.now)) → ⊥) → source.new ≡ source.old }
    ensures unasked { (chosen_by (texts words.now)) ≡ None → loaders.new ≡ loaders.old }
    // What becomes of the loaders.
    ensures moved { Moved
        (shelf (λ l. library l) (λ l. misses l) (λ l. ⟦<Box<dyn Loader> as Loader>⟧.failures l) loaders.old.items)
        (shelf (λ l. library l) (λ l. misses l) (λ l. ⟦<Box<dyn Loader> as Loader>⟧.failures l) loaders.new.items) }
    ensures untouched { (bytes : List ℕ) → Feeds (chosen_by (texts words.now)) (S.left source.old) bytes
        → NeedsNone (input_of (chosen_by (texts words.now)) bytes)
        → Untouched
        (shelf (λ l. library l) (λ l. misses l) (λ l. ⟦<Box<dyn Loader> as Loader>⟧.failures l) loaders.old.items)
        (shelf (λ l. library l) (λ l. misses l) (λ l. ⟦<Box<dyn Loader> as Loader>⟧.failures l) loaders.new.items) }
{
    ran(alloc, words, source, loaders, sink)
}
