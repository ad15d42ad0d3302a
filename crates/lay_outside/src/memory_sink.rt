//! Sinks over memory.

ghost use Rattle.std.specs.Prelude.{◌≡◌, ◌+◌, ◌-◌, ◌<◌, ◌≤◌, ◌↔◌, ◌^◌, ◌⊎◌, ◌++◌, []};
ghost use Rattle.std.specs.Prelude.{Some, length, take, IfOk, OnErr, OnOk, IsErr, IsTrue, min};
ghost use Rattle.lay_outside.specs.Outside.{Rose};
ghost use Rattle.lay_outside.specs.Memory.{Room, Drain, is_listed};

use crate::{Failed, Sink};
use lay_units::NoMemory;
use std::alloc::Global;
use std::marker::Model;

/// Takes bytes while there is room, which it has from the start. Contracts see it as a `Room`
/// (specs/Memory.antt).
#[derive(Drop)]
pub struct FixedSink {
    bytes: Vec<u8>,
    room: usize,
    faults: u64,
}

impl Model for FixedSink {
    ghost use Rattle.std.specs.Prelude.{◌-◌, ◌≤◌, length, vec_len, vec_capacity};
    ghost use Rattle.lay_outside.specs.Memory.{Room};

    ghost Value = { Room };

    ghost view = { λ s. record { bytes = s.bytes.items; room = s.room - vec_len s.bytes; faults = s.faults } };

    ghost invariant = { λ s. (vec_len s.bytes ≤ s.room) × (s.room ≤ vec_capacity s.bytes) };
}

impl FixedSink {
    /// An empty sink with room for this many bytes.
    pub fn new(alloc: Global, room: usize) -> Result<FixedSink, NoMemory>
        ensures { IfOk result (λ s. s ≡ record { bytes = []; room = room; faults = 0 }) }
    {
        let bytes = Vec::with_capacity(alloc, room)?;
        Ok(FixedSink {
            bytes,
            room,
            faults: 0,
        })
    }

    /// The bytes that were taken.
    pub fn bytes(&self) -> &[u8]
        ensures { result.now ≡ self.now.bytes }
    {
        self.bytes.as_slice()
    }
}

impl Sink for FixedSink {
    ghost taken = { λ s. Some s.bytes };

    ghost faults = { λ s. s.faults };

    fn write(&mut self, piece: &[u8]) -> Result<usize, Failed>
        ensures count { IfOk result (λ n. n ≤ length piece.now) }
        ensures takes { IfOk result (λ n. self.new.bytes ≡ self.old.bytes ++ take n piece.now) }
        ensures stalled { IfOk result (λ n. n ≡ 0 → 0 < length piece.now → Rose self.old.faults self.new.faults) }
        ensures takes_none { OnErr result (self.new.bytes ≡ self.old.bytes) }
        ensures failed { OnErr result (Rose self.old.faults self.new.faults) }
        ensures never_falls { self.old.faults ≤ self.new.faults }

        ensures fails_where_full { IsErr result ↔ ((self.old.room ≡ 0) × (0 < length piece.now)) }
        ensures amount { IfOk result (λ n. n ≡ min (length piece.now) self.old.room) }
        ensures room { IfOk result (λ n. self.new.room ≡ self.old.room - n) }
        ensures room_kept { OnErr result (self.new.room ≡ self.old.room) }
        ensures risen { OnErr result (self.old.faults < 2 ^ 64 - 1 → self.new.faults ≡ self.old.faults + 1) }
        ensures quiet { OnOk result (self.new.faults ≡ self.old.faults) }
    {
        let n = piece.len().min(self.room - self.bytes.len());
        if n == 0 && !piece.is_empty() {
            self.faults = self.faults.saturating_add(1);
            return Err(Failed);
        }
        match self.bytes.extend_from_slice(&piece[..n]) {
            Ok(()) => Ok(n),
            Err(_) => unreachable!(),
        }
    }
}

/// Takes bytes while there is room, at most `step` in a write, and fails the writes whose numbers,
/// from 1, are listed. Contracts see it as a `Drain` (specs/Memory.antt).
#[derive(Drop)]
pub struct MemSink {
    bytes: Vec<u8>,
    room: usize,
    step: usize,
    fail: Vec<u64>,
    calls: u64,
    faults: u64,
}

impl Model for MemSink {
    ghost use Rattle.std.specs.Prelude.{◌-◌, ◌≤◌, ◌<◌, length, vec_len, vec_capacity};
    ghost use Rattle.lay_outside.specs.Memory.{Drain};

    ghost Value = { Drain };

    ghost view = { λ s.
        record {
          bytes = s.bytes.items;
          room = s.room - vec_len s.bytes;
          step = s.step;
          fail = s.fail.items;
          calls = s.calls;
          faults = s.faults;
        } };

    ghost invariant = { λ s. (vec_len s.bytes ≤ s.room) × (s.room ≤ vec_capacity s.bytes) × (0 < s.step) };
}

impl MemSink {
    /// An empty sink with room for this many bytes that was not written to yet.
    pub fn new(alloc: Global, room: usize, step: usize, fail: Vec<u64>) -> Result<MemSink, NoMemory>
        requires { 0 < step }
        ensures { IfOk result (λ s. s ≡ record { bytes = []; room = room; step = step; fail = fail.items; calls = 0; faults = 0 }) }
    {
        let bytes = Vec::with_capacity(alloc, room)?;
        Ok(MemSink {
            bytes,
            room,
            step,
            fail,
            calls: 0,
            faults: 0,
        })
    }

    /// The bytes that were taken.
    pub fn bytes(&self) -> &[u8]
        ensures { result.now ≡ self.now.bytes }
    {
        self.bytes.as_slice()
    }
}

impl Sink for MemSink {
    ghost taken = { λ s. Some s.bytes };

    ghost faults = { λ s. s.faults };

    fn write(&mut self, piece: &[u8]) -> Result<usize, Failed>
        ensures count { IfOk result (λ n. n ≤ length piece.now) }
        ensures takes { IfOk result (λ n. self.new.bytes ≡ self.old.bytes ++ take n piece.now) }
        ensures stalled { IfOk result (λ n. n ≡ 0 → 0 < length piece.now → Rose self.old.faults self.new.faults) }
        ensures takes_none { OnErr result (self.new.bytes ≡ self.old.bytes) }
        ensures failed { OnErr result (Rose self.old.faults self.new.faults) }
        ensures never_falls { self.old.faults ≤ self.new.faults }

        ensures fails_only { self.old.calls < 2 ^ 64 - 1 → IsErr result
            → IsTrue (is_listed self.old.fail self.old.calls) ⊎ ((self.old.room ≡ 0) × (0 < length piece.now)) }
        ensures fails_where_listed { self.old.calls < 2 ^ 64 - 1 → IsTrue (is_listed self.old.fail self.old.calls) → IsErr result }
        ensures fails_where_full { self.old.room ≡ 0 → 0 < length piece.now → IsErr result }
        ensures amount { IfOk result (λ n. n ≡ min (length piece.now) (min self.old.step self.old.room)) }
        ensures room { IfOk result (λ n. self.new.room ≡ self.old.room - n) }
        ensures room_kept { OnErr result (self.new.room ≡ self.old.room) }
        ensures risen { OnErr result (self.old.faults < 2 ^ 64 - 1 → self.new.faults ≡ self.old.faults + 1) }
        ensures quiet { OnOk result (self.new.faults ≡ self.old.faults) }
        ensures counted { self.old.calls < 2 ^ 64 - 1 → self.new.calls ≡ self.old.calls + 1 }
        ensures step { self.new.step ≡ self.old.step }
        ensures fail { self.new.fail ≡ self.old.fail }
    {
        let call = self.calls.saturating_add(1);
        let fails = self.fail.contains(&call);
        self.calls = call;
        let n = piece.len().min(self.step.min(self.room - self.bytes.len()));
        if fails {
            self.faults = self.faults.saturating_add(1);
            return Err(Failed);
        }
        if n == 0 && !piece.is_empty() {
            self.faults = self.faults.saturating_add(1);
            return Err(Failed);
        }
        match self.bytes.extend_from_slice(&piece[..n]) {
            Ok(()) => Ok(n),
            Err(_) => unreachable!(),
        }
    }
}
