ghost use Rattle.std.specs.Prelude.{◌≡◌, ◌↔◌, ◌≤◌, ◌++◌, min, Some, drop, take, length, IfOk, OnErr, IsErr};
ghost use Rattle.std.specs.Io.{ReadsAtMost};
ghost use Rattle.std.specs.Io.KnownBytes.{ReadConsumes};
ghost use Rattle.tect_edge.specs.Counts.{HasCause, next_count};
ghost use Rattle.tect_edge.specs.Memory.{TakeFails, after_take, after_failed_take};

use crate::source::{Failed, Source};
use std::marker::Model;

/// The bytes of a vector that were not given yet.
#[derive(Drop)]
struct Unread {
    bytes: Vec<u8>,
    at: usize,
}

impl Model for Unread {
    ghost use Rattle.std.specs.Prelude.{ℕ, List, ◌≤◌, drop, length};

    ghost Value = { List ℕ };

    ghost view = { λ u. drop u.at u.bytes.items };

    ghost invariant = { λ u. u.at ≤ length u.bytes.items };
}

impl Unread {
    fn new(bytes: Vec<u8>) -> Unread
        ensures { result ≡ bytes.items }
    {
        Unread { bytes, at: 0 }
    }

    /// Moves as many bytes as fit to the front of `into`, and answers how many.
    fn give(&mut self, into: &mut [u8]) -> usize
        ensures count { result ≡ min (length into.old) (length self.old) }
        ensures left { self.new ≡ drop result self.old }
        ensures moved { into.new ≡ take result self.old ++ drop result into.old }
    {
        let left = &self.bytes[self.at..];
        let count = into.len().min(left.len());
        into[..count].copy_from_slice(&left[..count]);
        self.at += count;
        count
    }
}

/// A source in memory, some of whose calls fail. It tells the bytes left.
#[derive(Drop)]
pub struct BytesSource {
    unread: Unread,
    calls: u64,
    failing: Vec<u64>,
    faults: u64,
}

impl Model for BytesSource {
    ghost use Rattle.tect_edge.specs.Memory.{ScriptedSource};

    ghost Value = { ScriptedSource };

    ghost view = { λ s. record {
      left = s.unread;
      calls = s.calls;
      failing = s.failing.items;
      faults = s.faults;
    } };
}

impl BytesSource {
    /// A source of these bytes. The calls of `take` whose number is in `failing` fail, where the first has number 1.
    pub fn new(bytes: Vec<u8>, failing: Vec<u64>) -> BytesSource
        ensures { result ≡ record { left = bytes.items; calls = 0; failing = failing.items; faults = 0 } }
    {
        BytesSource {
            unread: Unread::new(bytes),
            calls: 0,
            failing,
            faults: 0,
        }
    }

    /// How often `take` was called.
    pub fn calls(&self) -> u64
        ensures { result ≡ self.now.calls }
    {
        self.calls
    }

    /// How often `take` failed.
    pub fn faults(&self) -> u64
        ensures { result ≡ self.now.faults }
    {
        self.faults
    }
}

impl Source for BytesSource {
    ghost left = { λ s. Some s.left };

    ghost faults = { λ s. s.faults };

    ghost calls = { λ s. s.calls };

    /// Fails exactly where the call's number is listed, and else moves as many bytes as fit.
    fn take(&mut self, into: &mut [u8]) -> Result<usize, Failed>
        ensures bound { ReadsAtMost result into.new }
        ensures bytes { ReadConsumes (Some self.old.left) (Some self.new.left) result into.new }
        ensures cause { HasCause self.old.faults self.new.faults result }
        ensures call { self.new.calls ≡ next_count self.old.calls }

        ensures fails { IsErr result ↔ TakeFails self.old }
        ensures count { IfOk result (λ n. n ≡ min (length into.old) (length self.old.left)) }
        ensures moved { IfOk result (λ n. into.new ≡ take n self.old.left ++ drop n into.old) }
        ensures after { IfOk result (λ n. self.new ≡ after_take self.old n) }
        ensures failed { OnErr result (self.new ≡ after_failed_take self.old) }
        ensures unmoved { OnErr result (into.new ≡ into.old) }
    {
        self.calls = self.calls.saturating_add(1);
        if self.failing.contains(&self.calls) {
            self.faults = self.faults.saturating_add(1);
            return Err(Failed);
        }
        Ok(self.unread.give(into))
    }
}

/// A source in memory that never fails. It tells the bytes left.
#[derive(Drop)]
pub struct SureSource {
    unread: Unread,
    calls: u64,
}

impl Model for SureSource {
    ghost use Rattle.tect_edge.specs.Memory.{PlainSource};

    ghost Value = { PlainSource };

    ghost view = { λ s. record { left = s.unread; calls = s.calls } };
}

impl SureSource {
    /// A source of these bytes.
    pub fn new(bytes: Vec<u8>) -> SureSource
        ensures { result ≡ record { left = bytes.items; calls = 0 } }
    {
        SureSource {
            unread: Unread::new(bytes),
            calls: 0,
        }
    }
}

impl Source for SureSource {
    ghost left = { λ s. Some s.left };

    ghost faults = { λ _. 0 };

    ghost calls = { λ s. s.calls };

    /// Moves as many bytes as fit.
    fn take(&mut self, into: &mut [u8]) -> Result<usize, Failed>
        ensures bound { ReadsAtMost result into.new }
        ensures bytes { ReadConsumes (Some self.old.left) (Some self.new.left) result into.new }
        ensures cause { HasCause 0 0 result }
        ensures call { self.new.calls ≡ next_count self.old.calls }

        ensures count { result ≡ Ok (min (length into.old) (length self.old.left)) }
        ensures left { IfOk result (λ n. self.new.left ≡ drop n self.old.left) }
        ensures moved { IfOk result (λ n. into.new ≡ take n self.old.left ++ drop n into.old) }
    {
        self.calls = self.calls.saturating_add(1);
        Ok(self.unread.give(into))
    }
}
