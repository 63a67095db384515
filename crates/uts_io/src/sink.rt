ghost use Rattle.std.specs.Prelude.{◌≡◌, ◌≢◌, ℕ, ◌<◌, ◌≤◌, List, [], ◌++◌, length, take, Option};
ghost use Rattle.uts_io.specs.Streams.{Rose, grown};
ghost use Rattle.uts_io.specs.Writes.{IfTook};

/// What one call of `Sink::write` did.
#[derive(Clone, Copy, Debug, PartialEq, Eq)]
pub enum Wrote {
    /// The sink took so many bytes from the front of the piece, at least one.
    Took(usize),
    /// The sink failed; nothing was taken.
    Failed,
}

/// A stream of bytes to write.
pub trait Sink {
    /// A list that stands for the bytes taken so far, where the sink tells it.
    ghost taken: { Self → Option (List ℕ) };

    /// How often the sink has failed: a count that never falls, and stays where a call does not fail.
    ghost faults: { Self → ℕ };

    /// What stands for the bytes taken once more bytes follow.
    ghost after: { List ℕ → List ℕ → List ℕ };

    /// Takes some bytes from the front of `piece`.
    fn write(&mut self, piece: &[u8]) -> Wrote
        requires { 0 < length piece.now }
        ensures took { IfTook result (λ n. (1 ≤ n) × (n ≤ length piece.now) × (taken self.new ≡ grown after (taken self.old) (take n piece.now))) }
        ensures failed { result ≡ Wrote.Failed → Rose (faults self.old) (faults self.new) × (taken self.new ≡ taken self.old) }
        ensures calm { result ≢ Wrote.Failed → faults self.new ≡ faults self.old }
        ensures never_falls { faults self.old ≤ faults self.new };

    /// No bytes change nothing.
    ghost after_none: { (t : List ℕ) → after t [] ≡ t };

    /// Bytes in two pieces are those bytes in one.
    ghost after_both: { (t a b : List ℕ) → after (after t a) b ≡ after t (a ++ b) };
}
