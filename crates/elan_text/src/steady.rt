//! A source and a sink that never fail.

ghost use Rattle.std.specs.Prelude.{◌≡◌, ◌≤◌, Some, None, drop, vec_len};

use crate::stream::fill;
use crate::{Got, Put, Sink, Source};

/// Bytes in memory as a source that never fails. It tells what it has left.
#[derive(Drop)]
pub struct SteadySource {
    bytes: Vec<u8>,
    at: usize,
    ghost inside: { at ≤ vec_len bytes },
}

impl SteadySource {
    /// A source of these bytes. It takes no memory.
    pub fn new(bytes: Vec<u8>) -> SteadySource
        ensures left { ⟦<SteadySource as Source>⟧.left result ≡ Some bytes.items }
        ensures faults { ⟦<SteadySource as Source>⟧.failures result ≡ 0 }
    {
        SteadySource { bytes, at: 0 }
    }
}

impl Source for SteadySource {
    ghost left = { λ source. Some (drop source.at source.bytes.items) };

    ghost failures = { λ _. 0 };

    fn read(&mut self, buf: &mut [u8]) -> Got {
        if self.at == self.bytes.len() {
            return Got::End;
        }
        let count = fill(buf, self.bytes.as_slice(), self.at, usize::MAX);
        self.at += count;
        Got::Bytes(count)
    }

    fn faults(&self) -> u64 {
        0
    }
}

/// A sink that never fails. It drops the bytes that it takes and tells nothing.
#[derive(Clone, Copy, Debug)]
pub struct SteadySink;

impl SteadySink {
    /// It takes no memory.
    pub fn new() -> SteadySink
        ensures { ⟦<SteadySink as Sink>⟧.failures result ≡ 0 }
    {
        SteadySink
    }
}

impl Sink for SteadySink {
    ghost written = { λ _. None };

    ghost failures = { λ _. 0 };

    fn write(&mut self, bytes: &[u8]) -> Put {
        Put::Bytes(bytes.len())
    }

    fn faults(&self) -> u64 {
        0
    }
}
