ghost use Rattle.std.specs.Prelude.{◌≡◌, ◌≢◌, ◌<◌, ◌≤◌, ◌++◌, length, take, None};
ghost use Rattle.std.specs.Io.KnownBytes.{Appends, Consumes, Keeps};
ghost use Rattle.std.proofs.Common.{append_assoc, append-nil};
ghost use Rattle.uts_io.specs.Memory.{counted};
ghost use Rattle.uts_io.specs.Reads.{IfGot};
ghost use Rattle.uts_io.specs.Streams.{IsAtEnd};
ghost use Rattle.uts_io.specs.Writes.{IfTook};

use crate::{Read, Sink, Source, Wrote};
use std::io;
use std::marker::Model;

/// A reader of the standard library as a source. It tells no bytes to those who read any source, and each
/// error counts as a fault.
#[derive(Drop)]
pub struct StdSource<R: io::Read> {
    reader: R,
    faults: u64,
}

impl<R: io::Read> Model for StdSource<R> {
    ghost use Rattle.uts_io.specs.Standard.{StdStream};

    ghost Value = { StdStream };

    ghost view = { λ s. record { known = R.remaining s.reader; faults = s.faults } };
}

impl<R: io::Read> StdSource<R> {
    /// The reader as a source that has not failed yet.
    pub fn new(reader: R) -> Self
        ensures faults { result.faults ≡ 0 }
        ensures known { result.known ≡ R.remaining reader }
    {
        StdSource { reader, faults: 0 }
    }
}

impl<R: io::Read> Source for StdSource<R> {
    ghost left = { λ _. None };

    ghost faults = { λ s. s.faults };

    fn read(&mut self, buf: &mut [u8]) -> Read
        requires { 0 < length buf.old }
        ensures got { IfGot result (λ n. (1 ≤ n) × (n ≤ length buf.old) × Consumes self.old.known self.new.known (take n buf.new)) }
        ensures end { result ≡ Read.End → IsAtEnd self.old.known × Keeps self.old.known self.new.known }
        ensures failed { result ≡ Read.Failed → (self.new.faults ≡ counted self.old.faults) × Keeps self.old.known self.new.known }
        ensures calm { result ≢ Read.Failed → self.new.faults ≡ self.old.faults }
    {
        match self.reader.read(buf) {
            Ok(0) => Read::End,
            Ok(n) => Read::Got(n),
            Err(_) => {
                self.faults = self.faults.saturating_add(1);
                Read::Failed
            }
        }
    }
}

/// A writer of the standard library as a sink. It tells no bytes to those who write to any sink, and each
/// error counts as a fault, as does a write that takes nothing.
#[derive(Drop)]
pub struct StdSink<W: io::Write> {
    writer: W,
    faults: u64,
}

impl<W: io::Write> Model for StdSink<W> {
    ghost use Rattle.uts_io.specs.Standard.{StdStream};

    ghost Value = { StdStream };

    ghost view = { λ s. record { known = W.contents s.writer; faults = s.faults } };
}

impl<W: io::Write> StdSink<W> {
    /// The writer as a sink that has not failed yet.
    pub fn new(writer: W) -> Self
        ensures faults { result.faults ≡ 0 }
        ensures known { result.known ≡ W.contents writer }
    {
        StdSink { writer, faults: 0 }
    }
}

impl<W: io::Write> Sink for StdSink<W> {
    ghost taken = { λ _. None };

    ghost faults = { λ s. s.faults };

    ghost after = { λ t bytes. t ++ bytes };

    fn write(&mut self, piece: &[u8]) -> Wrote
        requires { 0 < length piece.now }
        ensures took { IfTook result (λ n. (1 ≤ n) × (n ≤ length piece.now) × Appends self.old.known self.new.known (take n piece.now)) }
        ensures failed { result ≡ Wrote.Failed → (self.new.faults ≡ counted self.old.faults) × Keeps self.old.known self.new.known }
        ensures calm { result ≢ Wrote.Failed → self.new.faults ≡ self.old.faults }
    {
        match self.writer.write(piece) {
            Ok(n) if n > 0 => Wrote::Took(n),
            _ => {
                self.faults = self.faults.saturating_add(1);
                Wrote::Failed
            }
        }
    }

    ghost after_none = { λ t. append-nil t };

    ghost after_both = { λ t a b. append_assoc t a b };
}
