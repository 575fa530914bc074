//! Sources and sinks of bytes, and what a call of one promises.

ghost use Rattle.std.specs.Prelude.{◌≡◌, ◌≤◌, ◌<◌, ℕ, ◌+◌, List, Option, length, take, drop};
ghost use Rattle.elan_text.specs.declared.stream.Got.TheVariants as got;
ghost use Rattle.elan_text.specs.declared.stream.Put.TheVariants as put;
ghost use Rattle.elan_text.specs.Streams.{Rose, IsCount, Gives, Takes};

/// What one read of a source answers.
#[derive(Clone, Copy, Debug, PartialEq, Eq)]
pub enum Got {
    /// So many bytes were put at the front of the buffer.
    Bytes(usize),
    /// Nothing is left.
    End,
    /// The source failed; nothing was taken from it.
    Failed,
}

/// What one write to a sink answers.
#[derive(Clone, Copy, Debug, PartialEq, Eq)]
pub enum Put {
    /// So many bytes from the front of the piece were appended.
    Bytes(usize),
    /// The sink failed; nothing was written.
    Failed,
}

/// What bytes are read from. Its meaning is the bytes that it has left, where it tells them.
pub trait Source {
    /// The bytes that it has left, or None where it does not tell.
    ghost left: { Self → Option (List ℕ) };

    /// How often it has failed; the count stands still at 18,446,744,073,709,551,615.
    ghost failures: { Self → ℕ };

    /// Takes the next bytes, at least one where the buffer is not empty and bytes are left.
    fn read(&mut self, buf: &mut [u8]) -> Got
        ensures bytes { (n : ℕ) → result ≡ got.Bytes n → IsCount n (length buf.old) }
        ensures gives { Gives (left self.old) result buf.new (left self.new) }
        ensures kept { failures self.old ≤ failures self.new }
        ensures failed { result ≡ got.Failed → Rose (failures self.old) (failures self.new) };

    /// How often it has failed. It takes no memory.
    fn faults(&self) -> u64
        ensures { result ≡ failures self.now };
}

/// What bytes are written to. Its meaning is the bytes that were written, where it tells them.
pub trait Sink {
    /// The bytes that were written to it, or None where it does not tell.
    ghost written: { Self → Option (List ℕ) };

    /// How often it has failed; the count stands still at 18,446,744,073,709,551,615.
    ghost failures: { Self → ℕ };

    /// Appends bytes from the front of a piece, at least one where the piece is not empty.
    fn write(&mut self, bytes: &[u8]) -> Put
        ensures bytes { (n : ℕ) → result ≡ put.Bytes n → IsCount n (length bytes.now) }
        ensures takes { Takes (written self.old) bytes.now result (written self.new) }
        ensures kept { failures self.old ≤ failures self.new }
        ensures failed { result ≡ put.Failed → Rose (failures self.old) (failures self.new) };

    /// How often it has failed. It takes no memory.
    fn faults(&self) -> u64
        ensures { result ≡ failures self.now };
}

/// Copies bytes of a text from a place on to the front of a buffer, at most `most`, and answers how many.
pub(crate) fn fill(buf: &mut [u8], text: &[u8], at: usize, most: usize) -> usize
    requires inside { at ≤ length text.now }
    requires some { 0 < most }
    ensures some { 0 < length buf.old → at < length text.now → 0 < result }
    ensures within { at + result ≤ length text.now }
    ensures fits { result ≤ length buf.old }
    ensures copied { take result buf.new ≡ take result (drop at text.now) }
{
    let rest = text.split_at(at).1;
    let count = rest.len().min(buf.len()).min(most);
    buf[..count].copy_from_slice(&rest[..count]);
    count
}
