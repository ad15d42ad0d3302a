//! Sources over memory.

ghost use Rattle.std.specs.Prelude.{◌≡◌, ℕ, ◌+◌, ◌-◌, ◌<◌, ◌≤◌, ◌↔◌, ◌^◌, List, [], Some};
ghost use Rattle.std.specs.Prelude.{length, drop, IfOk, OnErr, OnOk, IsErr, IsOk, IsTrue, min};
ghost use Rattle.lay_outside.specs.Outside.{Rose, GivesNext};
ghost use Rattle.lay_outside.specs.Memory.{Feed, is_listed};

use crate::{Failed, Source};
use std::marker::Model;

/// Gives the bytes of a vector, as many as the buffer takes, and never fails. Contracts see the bytes
/// that are left.
#[derive(Drop)]
pub struct SafeSource {
    bytes: Vec<u8>,
    at: usize,
}

impl Model for SafeSource {
    ghost use Rattle.std.specs.Prelude.{List, ℕ, drop, ◌≤◌, length};

    ghost Value = { List ℕ };

    ghost view = { λ s. drop s.at s.bytes.items };

    ghost invariant = { λ s. s.at ≤ length s.bytes.items };
}

impl SafeSource {
    /// A source of these bytes.
    pub fn new(bytes: Vec<u8>) -> SafeSource
        ensures { result ≡ bytes.items }
    {
        SafeSource { bytes, at: 0 }
    }
}

impl Source for SafeSource {
    ghost left = { λ s. Some s };

    ghost faults = { λ _. 0 };

    fn read(&mut self, buf: &mut [u8]) -> Result<usize, Failed>
        ensures count { IfOk result (λ n. n ≤ length buf.old) }
        ensures gives { IfOk result (λ n. GivesNext (Some self.old) (Some self.new) buf.new n) }
        ensures end { IfOk result (λ n. n ≡ 0 → 0 < length buf.old → self.old ≡ []) }
        ensures gives_none { OnErr result (self.new ≡ self.old) }
        ensures failed { OnErr result (Rose 0 0) }
        ensures never_falls { 0 ≤ 0 }

        ensures never_fails { IsOk result }
        ensures amount { IfOk result (λ n. n ≡ min (length buf.old) (length self.old)) }
    {
        let n = buf.len().min(self.bytes.len() - self.at);
        buf[..n].copy_from_slice(&self.bytes[self.at..self.at + n]);
        self.at += n;
        Ok(n)
    }
}

/// Gives the bytes of a vector, at most `step` in a read, and fails the reads whose numbers, from 1,
/// are listed. Contracts see it as a `Feed` (specs/Memory.antt).
#[derive(Drop)]
pub struct MemSource {
    bytes: Vec<u8>,
    at: usize,
    step: usize,
    fail: Vec<u64>,
    calls: u64,
    faults: u64,
}

impl Model for MemSource {
    ghost use Rattle.std.specs.Prelude.{List, ℕ, drop, ◌≤◌, ◌<◌, length};
    ghost use Rattle.lay_outside.specs.Memory.{Feed};

    ghost Value = { Feed };

    ghost view = { λ s.
        record { bytes = drop s.at s.bytes.items; step = s.step; fail = s.fail.items; calls = s.calls; faults = s.faults } };

    ghost invariant = { λ s. (s.at ≤ length s.bytes.items) × (0 < s.step) };
}

impl MemSource {
    /// A source of these bytes that was not read yet.
    pub fn new(bytes: Vec<u8>, step: usize, fail: Vec<u64>) -> MemSource
        requires { 0 < step }
        ensures { result ≡ record { bytes = bytes.items; step = step; fail = fail.items; calls = 0; faults = 0 } }
    {
        MemSource {
            bytes,
            at: 0,
            step,
            fail,
            calls: 0,
            faults: 0,
        }
    }
}

impl Source for MemSource {
    ghost left = { λ s. Some s.bytes };

    ghost faults = { λ s. s.faults };

    fn read(&mut self, buf: &mut [u8]) -> Result<usize, Failed>
        ensures count { IfOk result (λ n. n ≤ length buf.old) }
        ensures gives { IfOk result (λ n. GivesNext (Some self.old.bytes) (Some self.new.bytes) buf.new n) }
        ensures end { IfOk result (λ n. n ≡ 0 → 0 < length buf.old → self.old.bytes ≡ []) }
        ensures gives_none { OnErr result (self.new.bytes ≡ self.old.bytes) }
        ensures failed { OnErr result (Rose self.old.faults self.new.faults) }
        ensures never_falls { self.old.faults ≤ self.new.faults }

        ensures fails_where_listed { self.old.calls < 2 ^ 64 - 1 → (IsErr result ↔ IsTrue (is_listed self.old.fail self.old.calls)) }
        ensures amount { IfOk result (λ n. n ≡ min (length buf.old) (min self.old.step (length self.old.bytes))) }
        ensures quiet { OnOk result (self.new.faults ≡ self.old.faults) }
        ensures counted { self.old.calls < 2 ^ 64 - 1 → self.new.calls ≡ self.old.calls + 1 }
        ensures step { self.new.step ≡ self.old.step }
        ensures fail { self.new.fail ≡ self.old.fail }
    {
        let call = self.calls.saturating_add(1);
        let fails = self.fail.contains(&call);
        self.calls = call;
        if fails {
            self.faults = self.faults.saturating_add(1);
            return Err(Failed);
        }
        let n = buf.len().min(self.step.min(self.bytes.len() - self.at));
        buf[..n].copy_from_slice(&self.bytes[self.at..self.at + n]);
        self.at += n;
        Ok(n)
    }
}
