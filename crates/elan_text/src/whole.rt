//! A source read to its end, and a piece written whole.

ghost use Rattle.std.specs.Prelude.{◌≡◌, ◌≤◌, ◌+◌, length, IfOk, OnOk, OnErr, IsErrOf};
ghost use Rattle.elan_text.specs.Streams.{Rose, Appends, Consumes};
ghost use Rattle.elan_text.specs.Whole.{Drained, PastMost, IsPast, PastWithin, AppendsPart};

use crate::{Got, Put, ReadRefusal, Sink, Source, WriteFault};
use std::alloc::Global;

/// How many bytes are asked for at a time.
const CHUNK: usize = 16_384;

/// All bytes of a source up to its end, where there are at most `max`. After an error the source is past the bytes
/// that were taken: at most 16,384 more than `max`, and at most `max` where the source failed.
#[tactic(auto, using(crate::proofs::Fronts::consumes_both))]
pub fn read_all<S: Source>(
    alloc: Global,
    source: &mut S,
    max: usize,
) -> Result<Vec<u8>, ReadRefusal>
    // What is read is all that was left.
    ensures found { IfOk result (λ v. Drained (S.left source.old) v.items (S.left source.new)) }
    ensures within { IfOk result (λ v. length v.items ≤ max) }
    // Each error has its cause.
    ensures long { IsErrOf result ReadRefusal.TooLong
        → PastMost max (S.left source.old) (S.left source.new) }
    ensures fault { IsErrOf result ReadRefusal.ReadFault
        → Rose (S.failures source.old) (S.failures source.new) }
    // No more is taken than the limit asks for.
    ensures early { IsErrOf result ReadRefusal.ReadFault
        → PastWithin max (S.left source.old) (S.left source.new) }
    ensures most { OnErr result (PastWithin (max + 16384) (S.left source.old) (S.left source.new)) }
    ensures past { OnErr result (IsPast (S.left source.old) (S.left source.new)) }
    ensures kept { S.failures source.old ≤ S.failures source.new }
{
    let mut found = Vec::new(alloc);
    let mut chunk = [0; CHUNK];
    'reads: while found.len() <= max {
        match source.read(&mut chunk) {
            Got::Bytes(count) => found.extend_from_slice(&chunk[..count])?,
            Got::End => return Ok(found),
            Got::Failed => return Err(ReadRefusal::ReadFault),
        }
    }
    Err(ReadRefusal::TooLong)
}

/// Writes the whole piece. It takes no memory. After an error a prefix of the piece is written that is not all of it.
#[tactic(auto, using(crate::proofs::Fronts::appends_both))]
pub fn write_all<K: Sink>(sink: &mut K, bytes: &[u8]) -> Result<(), WriteFault>
    ensures ok { OnOk result (Appends (K.written sink.old) bytes.now (K.written sink.new)) }
    ensures part { OnErr result (AppendsPart (K.written sink.old) bytes.now (K.written sink.new)) }
    ensures fault { OnErr result (Rose (K.failures sink.old) (K.failures sink.new)) }
    ensures kept { K.failures sink.old ≤ K.failures sink.new }
{
    let mut left = bytes;
    'writes: while !left.is_empty() {
        match sink.write(left) {
            Put::Bytes(count) => left = left.split_at(count).1,
            Put::Failed => return Err(WriteFault),
        }
    }
    Ok(())
}
