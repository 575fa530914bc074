//! Readers and writers of std as sources and sinks. They tell nothing of their content: that the real thing behaves
//! as its answers say is trusted.

ghost use Rattle.std.specs.Prelude.{◌≡◌, None};

use crate::{Got, Put, Sink, Source};
use std::io::{Read, Write};

/// A reader of std as a source.
#[derive(Drop)]
pub struct StdSource<R> {
    inner: R,
    count: u64,
}

impl<R> StdSource<R> {
    /// A source over this reader. It takes no memory.
    pub fn new(inner: R) -> StdSource<R>
        ensures { result.count ≡ 0 }
    {
        StdSource { inner, count: 0 }
    }
}

impl<R: Read> Source for StdSource<R> {
    ghost left = { λ _. None };

    ghost failures = { λ source. source.count };

    fn read(&mut self, buf: &mut [u8]) -> Got {
        match self.inner.read(buf) {
            Ok(0) => Got::End,
            Ok(count) => Got::Bytes(count),
            Err(_) => {
                self.count = self.count.saturating_add(1);
                Got::Failed
            }
        }
    }

    fn faults(&self) -> u64 {
        self.count
    }
}

/// A writer of std as a sink.
#[derive(Drop)]
pub struct StdSink<W> {
    inner: W,
    count: u64,
}

impl<W> StdSink<W> {
    /// A sink over this writer. It takes no memory.
    pub fn new(inner: W) -> StdSink<W>
        ensures { result.count ≡ 0 }
    {
        StdSink { inner, count: 0 }
    }
}

impl<W: Write> Sink for StdSink<W> {
    ghost written = { λ _. None };

    ghost failures = { λ sink. sink.count };

    fn write(&mut self, bytes: &[u8]) -> Put {
        match self.inner.write(bytes) {
            Ok(count) if count > 0 || bytes.is_empty() => Put::Bytes(count),
            _ => {
                self.count = self.count.saturating_add(1);
                Put::Failed
            }
        }
    }

    fn faults(&self) -> u64 {
        self.count
    }
}
