//! A source and a sink in memory, which tell their content and fail where they are told to.

ghost use Rattle.std.specs.Prelude.{◌≡◌, ◌≤◌, ◌<◌, Some, [], drop, length, vec_len};

use crate::stream::fill;
use crate::{Got, Put, Sink, Source};
use std::alloc::Global;

/// Bytes in memory as a source. It tells what it has left.
#[derive(Drop)]
pub struct MemorySource {
    bytes: Vec<u8>,
    at: usize,
    most: usize,
    failing: Vec<u64>,
    calls: u64,
    count: u64,
    ghost inside: { at ≤ vec_len bytes },
    ghost some: { 0 < most },
}

impl MemorySource {
    /// A source of these bytes that gives at most `most` bytes a read, and fails at each read whose number, counted
    /// from 1, stands in `failing`. It takes no memory.
    pub fn new(bytes: Vec<u8>, most: usize, failing: Vec<u64>) -> MemorySource
        requires { 0 < most }
        ensures left { ⟦<MemorySource as Source>⟧.left result ≡ Some bytes.items }
        ensures faults { ⟦<MemorySource as Source>⟧.failures result ≡ 0 }
    {
        MemorySource {
            bytes,
            at: 0,
            most,
            failing,
            calls: 0,
            count: 0,
        }
    }
}

impl Source for MemorySource {
    ghost left = { λ source. Some (drop source.at source.bytes.items) };

    ghost failures = { λ source. source.count };

    fn read(&mut self, buf: &mut [u8]) -> Got {
        self.calls = self.calls.saturating_add(1);
        if self.failing.contains(&self.calls) {
            self.count = self.count.saturating_add(1);
            return Got::Failed;
        }
        if self.at == self.bytes.len() {
            return Got::End;
        }
        let count = fill(buf, self.bytes.as_slice(), self.at, self.most);
        self.at += count;
        Got::Bytes(count)
    }

    fn faults(&self) -> u64 {
        self.count
    }
}

/// A sink in memory. It tells what was written.
#[derive(Drop)]
pub struct MemorySink {
    bytes: Vec<u8>,
    most: usize,
    failing: Vec<u64>,
    calls: u64,
    count: u64,
    ghost some: { 0 < most },
}

impl MemorySink {
    /// A sink that takes at most `most` bytes a write, and fails at each write whose number, counted from 1, stands in
    /// `failing`. It takes no memory. A write for which it is refused memory fails too.
    pub fn new(alloc: Global, most: usize, failing: Vec<u64>) -> MemorySink
        requires { 0 < most }
        ensures written { ⟦<MemorySink as Sink>⟧.written result ≡ Some [] }
        ensures faults { ⟦<MemorySink as Sink>⟧.failures result ≡ 0 }
    {
        MemorySink {
            bytes: Vec::new(alloc),
            most,
            failing,
            calls: 0,
            count: 0,
        }
    }

    /// What was written. It takes no memory.
    pub fn written(&self) -> &[u8]
        ensures { ⟦<MemorySink as Sink>⟧.written self.now ≡ Some result.now }
    {
        self.bytes.as_slice()
    }
}

impl Sink for MemorySink {
    ghost written = { λ sink. Some sink.bytes.items };

    ghost failures = { λ sink. sink.count };

    fn write(&mut self, bytes: &[u8]) -> Put {
        self.calls = self.calls.saturating_add(1);
        let count = bytes.len().min(self.most);
        if self.failing.contains(&self.calls)
            || self.bytes.extend_from_slice(&bytes[..count]).is_err()
        {
            self.count = self.count.saturating_add(1);
            return Put::Failed;
        }
        Put::Bytes(count)
    }

    fn faults(&self) -> u64 {
        self.count
    }
}
