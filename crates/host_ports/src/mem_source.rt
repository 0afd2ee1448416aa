//! A source in memory.

ghost use Rattle.std.specs.Prelude.{◌≡◌, ℕ, ◌≤◌, ◌⊎◌, ◌↔◌, List, [], ◌++◌, length, take, drop, min, Option, Some, IsOk, IsErr, IfOk, OnOk, OnErr, Contains};
ghost use Rattle.host_ports.specs.Streams.{FaultsCounted, Takes, IsAtEnd};
ghost use Rattle.host_ports.specs.Memory.{counted, read_failed, read_done};

use crate::{Failed, Source};
use std::marker::Model;

/// Bytes in memory to be read, where chosen calls fail.
#[derive(Drop)]
pub struct MemSource {
    bytes: Vec<u8>,
    at: usize,
    fails: Vec<u64>,
    calls: u64,
    faults: u64,
}

impl Model for MemSource {
    ghost use Rattle.std.specs.Prelude.{◌≤◌, drop};
    ghost use Rattle.std.specs.Vec.{vec_len};
    ghost use Rattle.host_ports.specs.Memory.{SourceState};

    ghost Value = { SourceState };

    ghost view = { λ s. record { left = drop s.at s.bytes.items; fails = s.fails.items; calls = s.calls; faults = s.faults } };

    ghost invariant = { λ s. s.at ≤ vec_len s.bytes };
}

impl MemSource {
    /// A source of these bytes. The calls with the numbers in `fails`, counted from 1, fail.
    pub fn make(left: Vec<u8>, fails: Vec<u64>) -> MemSource
        ensures { result
            ≡ record { left = left.items; fails = fails.items; calls = 0; faults = 0 } }
    {
        MemSource {
            bytes: left,
            at: 0,
            fails,
            calls: 0,
            faults: 0,
        }
    }

    /// The bytes that are left to read.
    pub fn left(&self) -> &[u8]
        ensures { result.now ≡ self.now.left }
    {
        &self.bytes[self.at..]
    }

    /// How many calls failed.
    pub fn faults(&self) -> u64
        ensures { result ≡ self.now.faults }
    {
        self.faults
    }
}

impl Source for MemSource {
    ghost left = { λ s. Some s.left };

    ghost faults = { λ s. s.faults };

    ghost never_fails = { λ s. s.fails ≡ [] };

    /// Reads as many bytes as there are and `out` holds.
    ///
    /// # Errors
    ///
    /// The call's number is listed.
    fn read(&mut self, out: &mut [u8]) -> Result<usize, Failed>
        ensures most { IfOk result (λ n. n ≤ length out.old) }
        ensures taken { IfOk result (λ n. Takes (Some self.old.left) (Some self.new.left)
            (take n out.new)) }
        ensures end { IfOk result (λ n. n ≡ 0 → IsAtEnd (Some self.old.left) ⊎ (out.old ≡ [])) }
        ensures err { OnErr result (Some self.new.left ≡ Some self.old.left) }
        ensures faults_unchanged { OnOk result (self.new.faults ≡ self.old.faults) }
        ensures faults_counted { OnErr result (FaultsCounted self.old.faults self.new.faults) }
        ensures faults_monotone { self.old.faults ≤ self.new.faults }
        ensures never { self.old.fails ≡ [] → IsOk result }
        ensures stays { self.old.fails ≡ [] → self.new.fails ≡ [] }

        // Beyond the trait: when it fails, how much it reads, and all that it leaves.
        ensures fails { IsErr result ↔ Contains self.old.fails (counted self.old.calls) }
        ensures failed { OnErr result (self.new ≡ read_failed self.old) }
        ensures kept { OnErr result (out.new ≡ out.old) }
        ensures count { IfOk result (λ n. n ≡ min (length out.old) (length self.old.left)) }
        ensures bytes { IfOk result (λ n. out.new ≡ take n self.old.left ++ drop n out.old) }
        ensures done { IfOk result (λ n. self.new ≡ read_done self.old n) }
    {
        self.calls = self.calls.saturating_add(1);
        if self.fails.contains(&self.calls) {
            self.faults = self.faults.saturating_add(1);
            return Err(Failed);
        }
        let n = out.len().min(self.bytes.len() - self.at);
        out[..n].copy_from_slice(&self.bytes[self.at..self.at + n]);
        self.at += n;
        Ok(n)
    }
}
