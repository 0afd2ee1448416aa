//! A sink in memory.

ghost use Rattle.std.specs.Prelude.{◌≡◌, ◌≢◌, ℕ, ◌+◌, ◌<◌, ◌≤◌, ◌⊎◌, ◌↔◌, List, [], length, take, min, Option, Some, IsErr, IfOk, IsOkAnd, OnErr, Contains};
ghost use Rattle.host_ports.specs.Streams.{FaultsCounted, Puts};
ghost use Rattle.host_ports.specs.Memory.{counted, write_failed, write_done, sure_room};

use crate::{Failed, Sink};
use std::alloc::AllocError;
use std::marker::Model;

/// Bytes in memory that are written, up to a room, where chosen calls fail.
#[derive(Drop)]
pub struct MemSink {
    bytes: Vec<u8>,
    room: usize,
    fails: Vec<u64>,
    calls: u64,
    faults: u64,
}

impl Model for MemSink {
    ghost use Rattle.std.specs.Prelude.{◌≤◌, ◌+◌};
    ghost use Rattle.std.specs.Vec.{vec_len, vec_capacity};
    ghost use Rattle.host_ports.specs.Memory.{SinkState};

    ghost Value = { SinkState };

    ghost view = { λ s. record { held = s.bytes.items; room = s.room; fails = s.fails.items; calls = s.calls; faults = s.faults } };

    ghost invariant = { λ s. vec_len s.bytes + s.room ≤ vec_capacity s.bytes };
}

impl MemSink {
    /// A sink that holds these bytes and has room for `room` more. The calls with the numbers in
    /// `fails`, counted from 1, fail.
    ///
    /// All memory is taken here, by the allocator of `held`.
    ///
    /// # Errors
    ///
    /// `AllocError` when out of memory.
    pub fn make(held: Vec<u8>, fails: Vec<u64>, room: usize) -> Result<MemSink, AllocError>
        ensures { IfOk result (λ s. s
            ≡ record {
              held = held.items;
              room = room;
              fails = fails.items;
              calls = 0;
              faults = 0;
            }) }
    {
        let mut bytes = held;
        bytes.reserve_exact(room)?;
        Ok(MemSink {
            bytes,
            room,
            fails,
            calls: 0,
            faults: 0,
        })
    }

    /// The bytes that it holds.
    pub fn held(&self) -> &[u8]
        ensures { result.now ≡ self.now.held }
    {
        &self.bytes
    }

    /// The bytes that it held.
    pub fn into_held(self) -> Vec<u8>
        ensures { result.items ≡ self.held }
    {
        self.bytes
    }

    /// How many more bytes it has room for.
    pub fn room(&self) -> usize
        ensures { result ≡ self.now.room }
    {
        self.room
    }

    /// How many calls failed.
    pub fn faults(&self) -> u64
        ensures { result ≡ self.now.faults }
    {
        self.faults
    }
}

impl Sink for MemSink {
    ghost held = { λ s. Some s.held };

    ghost faults = { λ s. s.faults };

    ghost room = { λ s. sure_room s.fails s.room };

    /// Writes as many of the bytes as the room takes. It takes no memory.
    ///
    /// # Errors
    ///
    /// The call's number is listed, or the piece isn't empty and no room is left.
    fn write(&mut self, bytes: &[u8]) -> Result<usize, Failed>
        ensures most { IfOk result (λ n. n ≤ length bytes.now) }
        ensures put { IfOk result (λ n. Puts (Some self.old.held) (Some self.new.held)
            (take n bytes.now)) }
        ensures zero { IfOk result (λ n. n ≡ 0
            → (bytes.now ≡ []) ⊎ FaultsCounted self.old.faults self.new.faults) }
        ensures err { OnErr result (Some self.new.held ≡ Some self.old.held) }
        ensures faults_unchanged { IfOk result (λ n. 0 < n → self.new.faults ≡ self.old.faults) }
        ensures faults_counted { OnErr result (FaultsCounted self.old.faults self.new.faults) }
        ensures faults_monotone { self.old.faults ≤ self.new.faults }
        ensures fits { 0 < length bytes.now → length bytes.now
            ≤ sure_room self.old.fails self.old.room → IsOkAnd result (λ n. 0 < n) }
        ensures spends { IfOk result (λ n. sure_room self.old.fails self.old.room
            ≤ sure_room self.new.fails self.new.room + n) }

        // Beyond the trait: when it fails, how much it writes, and all that it leaves.
        ensures fails { IsErr result ↔ Contains self.old.fails (counted self.old.calls)
            ⊎ ((self.old.room ≡ 0) × (bytes.now ≢ [])) }
        ensures failed { OnErr result (self.new ≡ write_failed self.old) }
        ensures count { IfOk result (λ n. n ≡ min (length bytes.now) self.old.room) }
        ensures done { IfOk result (λ n. self.new ≡ write_done self.old (take n bytes.now)) }
    {
        self.calls = self.calls.saturating_add(1);
        let n = bytes.len().min(self.room);
        if self.fails.contains(&self.calls) || (n == 0 && !bytes.is_empty()) {
            self.faults = self.faults.saturating_add(1);
            return Err(Failed);
        }
        self.bytes.extend_from_slice(&bytes[..n]).unwrap();
        self.room -= n;
        Ok(n)
    }
}
