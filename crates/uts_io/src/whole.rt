ghost use Rattle.std.specs.Prelude.{◌≡◌, ℕ, ◌+◌, ◌≤◌, ◌^◌, List, length, IfOk, OnOk, OnErr, IsErrOf};
ghost use Rattle.uts_io.specs.Streams.{Rose, TakesFront, IsAtEnd, grown, GrewByPrefix};

use crate::{Read, Sink, Source, Wrote};
use std::alloc::Global;

/// Memory ran out.
#[derive(Clone, Copy, Debug, PartialEq, Eq)]
pub struct NoMemory;

/// Why a source was not read to its end.
#[derive(Clone, Copy, Debug, PartialEq, Eq)]
pub enum ReadAll {
    /// The source failed.
    Failed,
    /// One byte more came than the limit allows.
    TooLong,
    /// Memory ran out.
    NoMemory,
}

/// A sink failed.
#[derive(Clone, Copy, Debug, PartialEq, Eq)]
pub struct SinkFault;

/// All that the source has left, at most `limit` bytes, read to its end. After an error the bytes that
/// were read are gone from the source, and at `TooLong` they are `limit + 1`.
pub fn read_all<S: Source>(alloc: Global, source: &mut S, limit: usize) -> Result<Vec<u8>, ReadAll>
    requires { limit ≤ 2 ^ 30 }
    ensures all { IfOk result (λ bytes. TakesFront (S.left source.old) bytes.items (S.left source.new)) }
    ensures to_the_end { OnOk result (IsAtEnd (S.left source.new)) }
    ensures within { IfOk result (λ bytes. length bytes.items ≤ limit) }
    ensures calm { OnOk result (S.faults source.new ≡ S.faults source.old) }
    ensures failed { IsErrOf result ReadAll.Failed → Rose (S.faults source.old) (S.faults source.new) }
    ensures too_long { IsErrOf result ReadAll.TooLong →
        ((front : List ℕ) × (length front ≡ limit + 1) × TakesFront (S.left source.old) front (S.left source.new)) }
    ensures failed_within { IsErrOf result ReadAll.Failed →
        ((front : List ℕ) × (length front ≤ limit) × TakesFront (S.left source.old) front (S.left source.new)) }
    ensures front { (front : List ℕ) × TakesFront (S.left source.old) front (S.left source.new) }
    ensures never_falls { S.faults source.old ≤ S.faults source.new }
{
    let mut bytes = Vec::new(alloc);
    let mut chunk = [0u8; 4096];
    loop {
        let room = (limit + 1 - bytes.len()).min(chunk.len());
        match source.read(&mut chunk[..room]) {
            Read::Got(n) => bytes
                .extend_from_slice(&chunk[..n])
                .map_err(|_| ReadAll::NoMemory)?,
            Read::End => return Ok(bytes),
            Read::Failed => return Err(ReadAll::Failed),
        }
        if bytes.len() > limit {
            return Err(ReadAll::TooLong);
        }
    }
}

/// Writes all bytes. After an error the sink has taken a prefix of them.
pub fn write_all<O: Sink>(sink: &mut O, bytes: &[u8]) -> Result<(), SinkFault>
    ensures all { OnOk result (O.taken sink.new ≡ grown O.after (O.taken sink.old) bytes.now) }
    ensures calm { OnOk result (O.faults sink.new ≡ O.faults sink.old) }
    ensures failed { OnErr result (Rose (O.faults sink.old) (O.faults sink.new)) }
    ensures prefix { GrewByPrefix O.after (O.taken sink.old) (O.taken sink.new) bytes.now }
    ensures never_falls { O.faults sink.old ≤ O.faults sink.new }
{
    let mut rest = bytes;
    while !rest.is_empty() {
        match sink.write(rest) {
            Wrote::Took(n) => rest = &rest[n..],
            Wrote::Failed => return Err(SinkFault),
        }
    }
    Ok(())
}
