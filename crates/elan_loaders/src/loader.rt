//! Loaders of texts, and what a call of one promises.

ghost use Rattle.std.specs.Prelude.{◌≡◌, ◌≤◌, ℕ, Option};
ghost use Rattle.elan_text.specs.Streams.{Rose};
ghost use Rattle.elan_loaders.specs.Libraries.{Library, Answers};
ghost use Rattle.elan_loaders.specs.declared.loader.Fetched.TheVariants.{Absent, Failed};

/// What one fetch of a text answers.
#[derive(Clone, Copy, Debug, PartialEq, Eq)]
pub enum Fetched {
    /// The text of that name was put at the end of the buffer.
    Found,
    /// The loader has no text of that name.
    Absent,
    /// The loader failed.
    Failed,
    /// The machine had no memory to give.
    NoMemory,
}

/// What texts are loaded from, by the names of their modules. Its meaning is its library, where it tells that.
pub trait Loader: Drop {
    /// The texts that it has, or None where it does not tell.
    ghost library: { Self → Option Library };

    /// How often it had no text of a name; the count stands still at 18,446,744,073,709,551,615.
    ghost misses: { Self → ℕ };

    /// How often it has failed; the count stands still at 18,446,744,073,709,551,615.
    ghost failures: { Self → ℕ };

    /// Puts the text of a name at the end of a buffer. After every other answer than `Found` the buffer is as before.
    fn fetch(&mut self, name: &str, into: &mut Vec<u8>) -> Fetched
        ensures answers { Answers (library self.old) name.now result into.old.items into.new.items }
        ensures library { library self.new ≡ library self.old }
        ensures absent { result ≡ Absent → Rose (misses self.old) (misses self.new) }
        ensures failed { result ≡ Failed → Rose (failures self.old) (failures self.new) }
        // Neither count falls.
        ensures misses { misses self.old ≤ misses self.new }
        ensures failures { failures self.old ≤ failures self.new };

    /// How often it had no text of a name. It takes no memory.
    fn absences(&self) -> u64
        ensures { result ≡ misses self.now };

    /// How often it has failed. It takes no memory.
    fn faults(&self) -> u64
        ensures { result ≡ failures self.now };
}
