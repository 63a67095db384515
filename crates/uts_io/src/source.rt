ghost use Rattle.std.specs.Prelude.{◌≡◌, ◌≢◌, ℕ, ◌<◌, ◌≤◌, List, length, take, Option};
ghost use Rattle.uts_io.specs.Streams.{Rose, TakesFront, IsAtEnd};
ghost use Rattle.uts_io.specs.Reads.{IfGot};

/// What one call of `Source::read` did.
#[derive(Clone, Copy, Debug, PartialEq, Eq)]
pub enum Read {
    /// So many bytes, at least one, stand at the front of the buffer.
    Got(usize),
    /// Nothing is left.
    End,
    /// The source failed; nothing was read.
    Failed,
}

/// A stream of bytes to read.
pub trait Source {
    /// The bytes not yet read, where the source tells them.
    ghost left: { Self → Option (List ℕ) };

    /// How often the source has failed: a count that never falls, and stays where a call does not fail.
    ghost faults: { Self → ℕ };

    /// Reads some bytes into the front of `buf`.
    fn read(&mut self, buf: &mut [u8]) -> Read
        requires { 0 < length buf.old }
        ensures got { IfGot result (λ n. (1 ≤ n) × (n ≤ length buf.old) × TakesFront (left self.old) (take n buf.new) (left self.new)) }
        ensures end { result ≡ Read.End → IsAtEnd (left self.old) × (left self.new ≡ left self.old) }
        ensures failed { result ≡ Read.Failed → Rose (faults self.old) (faults self.new) × (left self.new ≡ left self.old) }
        ensures calm { result ≢ Read.Failed → faults self.new ≡ faults self.old }
        ensures never_falls { faults self.old ≤ faults self.new };
}
