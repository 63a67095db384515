ghost use Rattle.std.specs.Prelude.{◌≡◌, ◌≢◌, ◌↔◌, ◌⊎◌, ◌-◌, ◌^◌, ◌<◌, ◌≤◌, [], ◌++◌, length, take, min, Some, IfOk, IsTrue, Contains};
ghost use Rattle.std.proofs.Common.{append_assoc, append-nil};
ghost use Rattle.uts_io.specs.Memory.{counted};
ghost use Rattle.uts_io.specs.Reads.{IfGot};
ghost use Rattle.uts_io.specs.Writes.{IfTook};

use crate::{NoMemory, Read, Sink, Source, Wrote};
use std::alloc::Global;
use std::marker::Model;

/// A source over bytes in memory that never fails.
#[derive(Drop)]
pub struct CalmSource {
    bytes: Vec<u8>,
    at: usize,
}

impl Model for CalmSource {
    ghost use Rattle.std.specs.Prelude.{ℕ, ◌≤◌, List, drop, length};

    ghost Value = { List ℕ };

    ghost view = { λ s. drop s.at s.bytes.items };

    ghost invariant = { λ s. s.at ≤ length s.bytes.items };
}

impl CalmSource {
    /// A source that has these bytes left.
    pub fn new(bytes: Vec<u8>) -> Self
        ensures { result ≡ bytes.items }
    {
        CalmSource { bytes, at: 0 }
    }
}

/// Copies bytes to the front of `buf`, as many as both have, and says how many.
fn fill(buf: &mut [u8], bytes: &[u8]) -> usize
    ensures count { result ≡ min (length buf.old) (length bytes.now) }
    ensures front { take result buf.new ≡ take result bytes.now }
{
    let n = buf.len().min(bytes.len());
    buf[..n].copy_from_slice(&bytes[..n]);
    n
}

impl Source for CalmSource {
    ghost left = { λ s. Some s };

    ghost faults = { λ _. 0 };

    fn read(&mut self, buf: &mut [u8]) -> Read
        requires { 0 < length buf.old }
        ensures calm { result ≢ Read.Failed }
        ensures got { IfGot result (λ n. (1 ≤ n) × (n ≡ min (length buf.old) (length self.old)) × (self.old ≡ take n buf.new ++ self.new)) }
        ensures end { result ≡ Read.End → (self.old ≡ []) × (self.new ≡ []) }
    {
        let n = fill(buf, &self.bytes[self.at..]);
        if n == 0 {
            return Read::End;
        }
        self.at += n;
        Read::Got(n)
    }
}

/// Which calls fail, by their numbers from 0, and how many calls were made and how many failed.
#[derive(Drop)]
struct Calls {
    fails: Vec<u32>,
    made: u64,
    faults: u64,
}

impl Calls {
    fn new(fails: Vec<u32>) -> Self
        ensures fails { result.fails.items ≡ fails.items }
        ensures made { result.made ≡ 0 }
        ensures faults { result.faults ≡ 0 }
    {
        Calls {
            fails,
            made: 0,
            faults: 0,
        }
    }

    /// Counts a call, and says whether it is one of those that fail.
    fn next_fails(&mut self) -> bool
        ensures answer { IsTrue result ↔ Contains self.old.fails.items self.old.made }
        ensures made { self.new.made ≡ counted self.old.made }
        ensures fails { self.new.fails.items ≡ self.old.fails.items }
        ensures faults { self.new.faults ≡ self.old.faults }
    {
        let number = self.made;
        self.made = self.made.saturating_add(1);
        self.fails.iter().any(|&fail| u64::from(fail) == number)
    }

    /// Counts a fault.
    fn raise(&mut self)
        ensures faults { self.new.faults ≡ counted self.old.faults }
        ensures made { self.new.made ≡ self.old.made }
        ensures fails { self.new.fails.items ≡ self.old.fails.items }
    {
        self.faults = self.faults.saturating_add(1);
    }
}

/// A source over bytes in memory of which chosen calls fail.
#[derive(Drop)]
pub struct MemSource {
    left: CalmSource,
    calls: Calls,
}

impl Model for MemSource {
    ghost use Rattle.uts_io.specs.Memory.{SourceInMemory};

    ghost Value = { SourceInMemory };

    ghost view = { λ s. record { left = s.left; calls = s.calls.made; fails = s.calls.fails.items; faults = s.calls.faults } };
}

impl MemSource {
    /// A source that has these bytes left, and fails at the calls of `read` whose numbers, from 0, stand
    /// in `fails`.
    pub fn new(bytes: Vec<u8>, fails: Vec<u32>) -> Self
        ensures left { result.left ≡ bytes.items }
        ensures fails { result.fails ≡ fails.items }
        ensures calls { result.calls ≡ 0 }
        ensures faults { result.faults ≡ 0 }
    {
        MemSource {
            left: CalmSource::new(bytes),
            calls: Calls::new(fails),
        }
    }
}

impl Source for MemSource {
    ghost left = { λ s. Some s.left };

    ghost faults = { λ s. s.faults };

    fn read(&mut self, buf: &mut [u8]) -> Read
        requires { 0 < length buf.old }
        ensures fails { (result ≡ Read.Failed) ↔ Contains self.old.fails self.old.calls }
        ensures failed { result ≡ Read.Failed → (self.new.faults ≡ counted self.old.faults) × (self.new.left ≡ self.old.left) }
        ensures got { IfGot result (λ n. (1 ≤ n) × (n ≡ min (length buf.old) (length self.old.left)) × (self.old.left ≡ take n buf.new ++ self.new.left)) }
        ensures end { result ≡ Read.End → (self.old.left ≡ []) × (self.new.left ≡ []) }
        ensures calm { result ≢ Read.Failed → self.new.faults ≡ self.old.faults }
        ensures calls { self.new.calls ≡ counted self.old.calls }
        ensures keeps_fails { self.new.fails ≡ self.old.fails }
    {
        if self.calls.next_fails() {
            self.calls.raise();
            return Read::Failed;
        }
        self.left.read(buf)
    }
}

/// A sink in memory with room for so many bytes, of which chosen calls fail.
#[derive(Drop)]
pub struct MemSink {
    bytes: Vec<u8>,
    room: usize,
    calls: Calls,
}

impl Model for MemSink {
    ghost use Rattle.std.specs.Prelude.{◌≤◌, length};
    ghost use Rattle.std.specs.Vec.{vec_capacity};
    ghost use Rattle.uts_io.specs.Memory.{SinkInMemory};

    ghost Value = { SinkInMemory };

    ghost view = { λ s. record { bytes = s.bytes.items; room = s.room; calls = s.calls.made; fails = s.calls.fails.items; faults = s.calls.faults } };

    ghost invariant = { λ s. (length s.bytes.items ≤ s.room) × (s.room ≤ vec_capacity s.bytes) };
}

impl MemSink {
    /// A sink that has taken nothing, and fails at the calls of `write` whose numbers, from 0, stand in
    /// `fails`, and where it has no room. It takes all its memory here.
    pub fn new(alloc: Global, room: usize, fails: Vec<u32>) -> Result<Self, NoMemory>
        requires { room ≤ 2 ^ 30 }
        ensures bytes { IfOk result (λ sink. sink.bytes ≡ []) }
        ensures room { IfOk result (λ sink. sink.room ≡ room) }
        ensures fails { IfOk result (λ sink. sink.fails ≡ fails.items) }
        ensures calls { IfOk result (λ sink. sink.calls ≡ 0) }
        ensures faults { IfOk result (λ sink. sink.faults ≡ 0) }
    {
        let bytes = Vec::with_capacity(alloc, room).map_err(|_| NoMemory)?;
        Ok(MemSink {
            bytes,
            room,
            calls: Calls::new(fails),
        })
    }

    /// The bytes taken so far.
    pub fn bytes(&self) -> &[u8]
        ensures taken { result.now ≡ self.now.bytes }
        ensures within { length result.now ≤ self.now.room }
    {
        &self.bytes
    }
}

impl Sink for MemSink {
    ghost taken = { λ s. Some s.bytes };

    ghost faults = { λ s. s.faults };

    ghost after = { λ taken bytes. taken ++ bytes };

    fn write(&mut self, piece: &[u8]) -> Wrote
        requires { 0 < length piece.now }
        ensures fails { (result ≡ Wrote.Failed) ↔ (Contains self.old.fails self.old.calls ⊎ (length self.old.bytes ≡ self.old.room)) }
        ensures failed { result ≡ Wrote.Failed → (self.new.faults ≡ counted self.old.faults) × (self.new.bytes ≡ self.old.bytes) }
        ensures took { IfTook result (λ n. (1 ≤ n) × (n ≡ min (length piece.now) (self.old.room - length self.old.bytes)) × (self.new.bytes ≡ self.old.bytes ++ take n piece.now)) }
        ensures calm { result ≢ Wrote.Failed → self.new.faults ≡ self.old.faults }
        ensures calls { self.new.calls ≡ counted self.old.calls }
        ensures keeps_fails { self.new.fails ≡ self.old.fails }
        ensures keeps_room { self.new.room ≡ self.old.room }
    {
        let room = self.room - self.bytes.len();
        if self.calls.next_fails() || room == 0 {
            self.calls.raise();
            return Wrote::Failed;
        }
        let n = piece.len().min(room);
        self.bytes.extend_from_slice(&piece[..n]).unwrap();
        Wrote::Took(n)
    }

    ghost after_none = { λ t. append-nil t };

    ghost after_both = { λ t a b. append_assoc t a b };
}
