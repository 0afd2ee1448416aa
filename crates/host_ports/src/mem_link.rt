//! Links in memory.

ghost use Rattle.std.specs.Prelude.{◌≡◌, ◌++◌, ◌<◌, ◌≤◌, ◌+◌, ◌⊎◌, ◌↔◌, [], Some, None, IsErr, IsOk, IfOk, OnOk, OnErr, Contains, length, drop};
ghost use Rattle.std.specs.List.{All};
ghost use Rattle.host_ports.specs.Streams.{FaultsCounted};
ghost use Rattle.host_ports.specs.Memory.{counted, sure_room};
ghost use Rattle.std.specs.Vec.{vec_capacity};
ghost use Rattle.host_ports.specs.Links.{FitsIn, SendsOne, TakesFirst, first_waiting, got_of, link_called, link_failed, link_sent, link_taken, longest_datagram};

use crate::link::LONGEST_DATAGRAM;
use crate::{Failed, Got, Link};
use rdma_types::{Address, Items};
use std::alloc::{AllocError, Global};
use std::marker::Model;

/// Datagrams in memory that wait and that are sent, where chosen calls fail.
#[derive(Drop)]
pub struct MemLink {
    waiting: Vec<(Address, Items<u8>)>,
    at: usize,
    sent: Vec<(Address, Items<u8>)>,
    spare: Vec<Vec<u8>>,
    fails: Vec<u64>,
    calls: u64,
    faults: u64,
}

impl Model for MemLink {
    ghost use Rattle.std.specs.Prelude.{◌≡◌, ◌≤◌, ◌+◌, [], drop, length};
    ghost use Rattle.std.specs.List.{All};
    ghost use Rattle.std.specs.Vec.{vec_len, vec_capacity};
    ghost use Rattle.host_ports.specs.Links.{LinkState, longest_datagram};

    ghost Value = { LinkState };

    ghost view = { λ s. record { waiting = drop s.at s.waiting.items; sent = s.sent.items; room = vec_len s.spare; fails = s.fails.items; calls = s.calls; faults = s.faults } };

    ghost invariant = { λ s. (s.at ≤ vec_len s.waiting) × All (λ d. length d.1 ≤ longest_datagram) s.waiting.items × (vec_len s.sent + vec_len s.spare ≤ vec_capacity s.sent) × All (λ b. (b.items ≡ []) × (longest_datagram ≤ vec_capacity b)) s.spare.items };
}

/// Room for that many datagrams.
fn room_for(alloc: Global, count: usize) -> Result<Vec<Vec<u8>>, AllocError>
    ensures count { IfOk result (λ v. length v.items ≡ count) }
    ensures room { IfOk result (λ v. All (λ b. (b.items ≡ [])
        × (longest_datagram ≤ vec_capacity b)) v.items) }
{
    let mut spare = Vec::new(alloc);
    for _ in 0..count {
        spare.push(Vec::with_capacity(alloc, LONGEST_DATAGRAM)?)?;
    }
    Ok(spare)
}

impl MemLink {
    /// A link on which these datagrams wait, of at most 4,200 bytes each, and that has room to send `room` datagrams of as
    /// many bytes. The calls with the numbers in `fails`, counted from 1, fail. All memory is taken here.
    ///
    /// # Errors
    ///
    /// `AllocError` when out of memory.
    pub fn make(
        alloc: Global,
        waiting: Vec<(Address, Items<u8>)>,
        fails: Vec<u64>,
        room: usize,
    ) -> Result<MemLink, AllocError>
        requires { All (λ d. length d.1 ≤ longest_datagram) waiting.items }
        ensures { IfOk result (λ l. l
            ≡ record {
              waiting = waiting.items;
              sent = [];
              room = room;
              fails = fails.items;
              calls = 0;
              faults = 0;
            }) }
    {
        let mut sent = Vec::new(alloc);
        sent.reserve_exact(room)?;
        Ok(MemLink {
            waiting,
            at: 0,
            sent,
            spare: room_for(alloc, room)?,
            fails,
            calls: 0,
            faults: 0,
        })
    }

    /// The datagrams that were sent, each with the address that it went to.
    pub fn sent(&self) -> &[(Address, Items<u8>)]
        ensures { result.now ≡ self.now.sent }
    {
        &self.sent
    }

    /// How many calls failed.
    pub fn faults(&self) -> u64
        ensures { result ≡ self.now.faults }
    {
        self.faults
    }

    /// Counts a call, and the fault where it is one that fails.
    fn call(&mut self) -> Result<(), Failed>
        ensures fails { IsErr result ↔ Contains self.old.fails (counted self.old.calls) }
        ensures done { OnOk result (self.new ≡ link_called self.old) }
        ensures faults_monotone { self.old.faults ≤ self.new.faults }
        ensures failed { OnErr result (self.new ≡ link_failed self.old) }
    {
        self.calls = self.calls.saturating_add(1);
        if self.fails.contains(&self.calls) {
            self.faults = self.faults.saturating_add(1);
            return Err(Failed);
        }
        Ok(())
    }
}

impl Link for MemLink {
    ghost waiting = { λ s. Some s.waiting };

    ghost sent = { λ s. Some s.sent };

    ghost faults = { λ s. s.faults };

    ghost never_fails = { λ s. s.fails ≡ [] };

    ghost room = { λ s. sure_room s.fails s.room };

    /// Counts a call.
    ///
    /// # Errors
    ///
    /// The call's number is listed.
    fn start(&mut self, _own: Address) -> Result<(), Failed>
        ensures waiting { Some self.new.waiting ≡ Some self.old.waiting }
        ensures sent { Some self.new.sent ≡ Some self.old.sent }
        ensures faults_unchanged { OnOk result (self.new.faults ≡ self.old.faults) }
        ensures faults_counted { OnErr result (FaultsCounted self.old.faults self.new.faults) }
        ensures faults_monotone { self.old.faults ≤ self.new.faults }
        ensures never { self.old.fails ≡ [] → IsOk result }
        ensures stays { self.old.fails ≡ [] → self.new.fails ≡ [] }
        ensures room { sure_room self.old.fails self.old.room
            ≤ sure_room self.new.fails self.new.room }

        // Beyond the trait: when it fails, and all that it leaves.
        ensures fails { IsErr result ↔ Contains self.old.fails (counted self.old.calls) }
        ensures failed { OnErr result (self.new ≡ link_failed self.old) }
        ensures done { OnOk result (self.new ≡ link_called self.old) }
    {
        self.call()
    }

    /// Keeps the datagram. It takes no memory.
    ///
    /// # Errors
    ///
    /// The call's number is listed, no room is left, or the datagram is longer than 4,200 bytes.
    fn send_to(&mut self, to: Address, bytes: &[u8]) -> Result<(), Failed>
        ensures sent { OnOk result (SendsOne (Some self.old.sent) (Some self.new.sent)
            (to, bytes.now)) }
        ensures unsent { OnErr result (Some self.new.sent ≡ Some self.old.sent) }
        ensures waiting { Some self.new.waiting ≡ Some self.old.waiting }
        ensures faults_unchanged { OnOk result (self.new.faults ≡ self.old.faults) }
        ensures faults_counted { OnErr result (FaultsCounted self.old.faults self.new.faults) }
        ensures faults_monotone { self.old.faults ≤ self.new.faults }
        ensures fits { length bytes.now ≤ longest_datagram
            → 0 < sure_room self.old.fails self.old.room → IsOk result }
        ensures stays { self.old.fails ≡ [] → self.new.fails ≡ [] }
        ensures room { sure_room self.old.fails self.old.room
            ≤ sure_room self.new.fails self.new.room + 1 }

        // Beyond the trait: when it fails, and all that it leaves.
        ensures fails { IsErr result ↔ Contains self.old.fails (counted self.old.calls)
            ⊎ ((self.old.room ≡ 0) ⊎ (longest_datagram < length bytes.now)) }
        ensures failed { OnErr result (self.new ≡ link_failed self.old) }
        ensures done { OnOk result (self.new ≡ link_sent self.old (to, bytes.now)) }
    {
        self.calls = self.calls.saturating_add(1);
        let fits = bytes.len() <= LONGEST_DATAGRAM && !self.spare.is_empty();
        if self.fails.contains(&self.calls) || !fits {
            self.faults = self.faults.saturating_add(1);
            return Err(Failed);
        }
        let mut datagram = self.spare.pop().unwrap();
        datagram.extend_from_slice(bytes).unwrap();
        self.sent.push((to, Items::new(datagram))).unwrap();
        Ok(())
    }

    /// Takes the first datagram that waits. It takes no memory.
    ///
    /// # Errors
    ///
    /// The call's number is listed.
    fn take(&mut self, out: &mut [u8]) -> Result<Got, Failed>
        requires { longest_datagram ≤ length out.old }
        ensures fits { IfOk result (λ g. FitsIn (length out.old) g) }
        ensures taken { IfOk result (λ g. TakesFirst (Some self.old.waiting) (Some self.new.waiting)
            (got_of g out.new)) }
        ensures left { OnErr result (Some self.new.waiting ≡ Some self.old.waiting) }
        ensures sent { Some self.new.sent ≡ Some self.old.sent }
        ensures faults_unchanged { OnOk result (self.new.faults ≡ self.old.faults) }
        ensures faults_counted { OnErr result (FaultsCounted self.old.faults self.new.faults) }
        ensures faults_monotone { self.old.faults ≤ self.new.faults }
        ensures never { self.old.fails ≡ [] → IsOk result }
        ensures stays { self.old.fails ≡ [] → self.new.fails ≡ [] }
        ensures room { sure_room self.old.fails self.old.room
            ≤ sure_room self.new.fails self.new.room }

        // Beyond the trait: when it fails, and all that it leaves.
        ensures fails { IsErr result ↔ Contains self.old.fails (counted self.old.calls) }
        ensures failed { OnErr result (self.new ≡ link_failed self.old) }
        ensures kept { OnErr result (out.new ≡ out.old) }
        ensures done { OnOk result (self.new ≡ link_taken self.old) }
    {
        self.call()?;
        let Some((from, bytes)) = self.waiting.get(self.at) else {
            return Ok(Got::Nothing);
        };
        let length = bytes.len();
        out[..length].copy_from_slice(bytes.as_slice());
        let from = *from;
        self.at += 1;
        Ok(Got::Datagram { from, length })
    }
}

/// A link on which nothing waits. What is sent over it goes nowhere, and isn't told. It never fails.
#[derive(Drop)]
pub struct ShutLink;

impl Link for ShutLink {
    ghost waiting = { λ _. Some [] };

    ghost sent = { λ _. None };

    ghost faults = { λ _. 0 };

    ghost never_fails = { λ _. Unit {0} };

    ghost room = { λ _. 1 };

    fn start(&mut self, _own: Address) -> Result<(), Failed> {
        Ok(())
    }

    fn send_to(&mut self, _to: Address, _bytes: &[u8]) -> Result<(), Failed> {
        Ok(())
    }

    fn take(&mut self, _out: &mut [u8]) -> Result<Got, Failed> {
        Ok(Got::Nothing)
    }
}
