ghost use Rattle.std.specs.Prelude.{◌≡◌, ◌<◌, [], Some, None, Ok, length, IfOk, OnOk, OnErr, IsErr};
ghost use Rattle.std.specs.Io.{WritesAtMost};
ghost use Rattle.std.specs.Io.KnownBytes.{WriteAppends};
ghost use Rattle.tect_edge.specs.Counts.{HasCause};
ghost use Rattle.tect_edge.specs.Memory.{PutFails, after_put, after_failed_put, after_bounded_put};

use crate::sink::Sink;
use crate::source::Failed;
use std::alloc::{AllocError, Global};
use std::marker::Model;

/// A sink in memory, some of whose calls fail. It tells the bytes written.
#[derive(Drop)]
pub struct BytesSink {
    bytes: Vec<u8>,
    calls: u64,
    failing: Vec<u64>,
    faults: u64,
}

impl Model for BytesSink {
    ghost use Rattle.tect_edge.specs.Memory.{ScriptedSink};

    ghost Value = { ScriptedSink };

    ghost view = { λ s. record {
      written = s.bytes.items;
      calls = s.calls;
      failing = s.failing.items;
      faults = s.faults;
    } };
}

impl BytesSink {
    /// An empty sink. The calls of `put` whose number is in `failing` fail, where the first has number 1.
    pub fn new(alloc: Global, failing: Vec<u64>) -> BytesSink
        ensures { result ≡ record { written = []; calls = 0; failing = failing.items; faults = 0 } }
    {
        BytesSink {
            bytes: Vec::new(alloc),
            calls: 0,
            failing,
            faults: 0,
        }
    }

    /// The bytes written.
    pub fn bytes(&self) -> &[u8]
        ensures { result.now ≡ self.now.written }
    {
        self.bytes.as_slice()
    }

    /// How often `put` failed.
    pub fn faults(&self) -> u64
        ensures { result ≡ self.now.faults }
    {
        self.faults
    }
}

impl Sink for BytesSink {
    ghost written = { λ s. Some s.written };

    ghost faults = { λ s. s.faults };

    /// Takes the whole piece. Fails where the call's number is listed, and else only for want of memory, which a
    /// nonempty piece alone can meet.
    fn put(&mut self, piece: &[u8]) -> Result<usize, Failed>
        ensures bound { WritesAtMost result piece.now }
        ensures some { 0 < length piece.now → IfOk result (λ n. 0 < n) }
        ensures bytes { WriteAppends (Some self.old.written) (Some self.new.written) result piece.now }
        ensures cause { HasCause self.old.faults self.new.faults result }

        ensures fails { PutFails self.old → IsErr result }
        ensures wanting { IsErr result → ¬ PutFails self.old → 0 < length piece.now }
        ensures count { IfOk result (λ n. n ≡ length piece.now) }
        ensures after { OnOk result (self.new ≡ after_put self.old piece.now) }
        ensures failed { OnErr result (self.new ≡ after_failed_put self.old) }
    {
        self.calls = self.calls.saturating_add(1);
        if self.failing.contains(&self.calls) || self.bytes.extend_from_slice(piece).is_err() {
            self.faults = self.faults.saturating_add(1);
            return Err(Failed);
        }
        Ok(piece.len())
    }
}

/// A sink in memory that never fails. It keeps the first bytes that were put, as many as it was given room for,
/// and passes over the rest.
///
/// A sink that tells its bytes by `written` has to tell each further one, which no finite memory can do without
/// failing. So this one tells none by `written`, and its own clauses say which bytes it keeps.
#[derive(Drop)]
pub struct SureSink {
    bytes: Vec<u8>,
    room: usize,
}

impl Model for SureSink {
    ghost use Rattle.std.specs.Prelude.{◌≤◌, length, vec_capacity};
    ghost use Rattle.tect_edge.specs.Memory.{BoundedSink};

    ghost Value = { BoundedSink };

    ghost view = { λ s. record { room = s.room; kept = s.bytes.items } };

    ghost invariant = { λ s. (length s.bytes.items ≤ s.room) × (s.room ≤ vec_capacity s.bytes) };
}

impl SureSink {
    /// An empty sink that keeps at most `room` bytes, whose memory it takes now.
    pub fn new(alloc: Global, room: usize) -> Result<SureSink, AllocError>
        ensures { IfOk result (λ sink. sink ≡ record { room = room; kept = [] }) }
    {
        let bytes = Vec::with_capacity(alloc, room)?;
        Ok(SureSink { bytes, room })
    }

    /// The bytes kept.
    pub fn bytes(&self) -> &[u8]
        ensures { result.now ≡ self.now.kept }
    {
        self.bytes.as_slice()
    }
}

impl Sink for SureSink {
    ghost written = { λ _. None };

    ghost faults = { λ _. 0 };

    /// Takes the whole piece, and keeps of it what there is room for.
    fn put(&mut self, piece: &[u8]) -> Result<usize, Failed>
        ensures bound { WritesAtMost result piece.now }
        ensures some { 0 < length piece.now → IfOk result (λ n. 0 < n) }
        ensures bytes { WriteAppends None None result piece.now }
        ensures cause { HasCause 0 0 result }

        ensures count { result ≡ Ok (length piece.now) }
        ensures after { self.new ≡ after_bounded_put self.old piece.now }
    {
        let count = piece.len().min(self.room - self.bytes.len());
        let _ = self.bytes.extend_from_slice(&piece[..count]);
        Ok(piece.len())
    }
}
