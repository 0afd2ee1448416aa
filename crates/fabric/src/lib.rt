//! The network's store: every datagram that was sent has a number, from 1 on, and the last 16,384 are kept (this
//! project's choice).
#![tactic(auto)]

ghost use Rattle.std.specs.Prelude.{◌≡◌, ◌+◌, ◌-◌, ◌^◌, ◌<◌, ◌≤◌, ◌⊎◌, [], ◌∷◌, drop, length, is_some, IfOk, MatchOption};
ghost use Rattle.std.specs.List.{prefix_len};
ghost use Rattle.std.specs.Option.{option_copied};
ghost use Rattle.std.specs.VecDeque.{deque_capacity, deque_len};
ghost use Rattle.protocol.specs.Fabric as rules;
ghost use Rattle.protocol.specs.Fabric.{forgetting};
ghost use Rattle.fabric.specs.Store.{is_pending, is_settled, oldest_of_full};

mod flights;
mod laws;

pub use flights::{DatagramState, Flight};
pub use laws::nothing_asked_for_is_forgotten;
use rdma_types::{Address, Sent};
use std::alloc::{AllocError, Global};
use std::collections::VecDeque;
use std::marker::Model;

/// How many datagrams are kept.
const ROOM: usize = 16_384;

/// The datagrams that were sent. The last 16,384 of them are kept. Contracts see them all, with a blank in the place of
/// each that is not kept any more. Only `make` takes memory. Each call takes constant time, except that the place of the
/// least pending number passes once over each datagram that is lost or taken.
#[derive(Drop)]
pub struct Fabric {
    gone: u64,
    settled: usize,
    ring: VecDeque<Flight>,
}

impl Model for Fabric {
    ghost use Rattle.std.specs.Prelude.{◌≤◌, List};
    ghost use Rattle.std.specs.VecDeque.{deque_capacity};
    ghost use Rattle.protocol.specs.State as state;
    ghost use Rattle.protocol.specs.Fabric.{after_blanks};
    ghost use Rattle.fabric.specs.Store.{IsStore};

    ghost Value = { List state.Flight };

    ghost view = { λ f. after_blanks f.gone f.ring.items };

    ghost invariant = { λ f. IsStore f.gone f.settled f.ring.items × (16384 ≤ deque_capacity f.ring) };
}

impl Fabric {
    ghost use Rattle.fabric.specs.Told.{told};

    /// An empty store with room for 16,384 datagrams. Errors: `AllocError` when out of memory.
    pub fn make(alloc: Global) -> Result<Fabric, AllocError>
        ensures { IfOk result (λ f. f ≡ []) }
    {
        let ring = VecDeque::with_capacity(alloc, ROOM)?;
        Ok(Fabric {
            gone: 0,
            settled: 0,
            ring,
        })
    }

    /// The number that the next datagram gets.
    pub fn next(&self) -> u64
        ensures number { result ≡ length self.now + 1 }
        ensures bounded { result ≤ 2 ^ 63 }
        ensures kept { forgetting self.now ≡ self.now }
    {
        self.gone + self.ring.len() as u64 + 1
    }

    /// Keeps a datagram from this address under the next number, and forgets the oldest one where 16,384 are kept; that
    /// one is the answer. The next number is below 2^63. It takes no memory.
    #[inline(always)]
    pub fn send(&mut self, from: Address, s: Sent) -> Option<Flight>
        requires { length self.old + 1 < 2 ^ 63 }
        ensures forgotten { result ≡ rules.kept_flight self.old (length self.old - 16383) }
        ensures sent { self.new ≡ forgetting (rules.sending self.old from (s ∷ [])) }
        ensures count { length self.new ≡ length self.old + 1 }
    {
        let count = (self.ring.len() + 1).saturating_sub(ROOM);
        let forgotten = forget_oldest(&mut self.ring);
        self.gone += count as u64;
        self.settled = self.settled.saturating_sub(count);
        self.ring.push_back_reserved(Flight::new(from, s));
        self.settled = unsettled_from(&self.ring, self.settled);
        forgotten
    }

    /// Datagram `k`, whether lost or not; None where it is not among the last 16,384.
    #[inline(always)]
    pub fn kept(&self, k: u64) -> Option<&Flight>
        ensures { option_copied result ≡ rules.kept_flight self.now k }
    {
        let place = place_of(k, self.gone, self.ring.len())?;
        self.ring.get(place)
    }

    /// What datagram `k` is where its receiver is at number `now`: gone, lost, aged or here, by the first that holds.
    pub fn look(&self, k: u64, now: u64) -> DatagramState<'_>
        ensures { told result ≡ rules.look self.now k now }
    {
        match self.kept(k) {
            None => DatagramState::Gone,
            Some(flight) => flight.look(now),
        }
    }

    /// Datagram `k` is taken, where it is kept.
    #[inline(always)]
    pub fn took(&mut self, k: u64)
        ensures taken { self.new ≡ rules.took self.old k }
        ensures count { length self.new ≡ length self.old }
    {
        if let Some(place) = place_of(k, self.gone, self.ring.len()) {
            self.ring[place].take();
            self.settled = unsettled_from(&self.ring, self.settled);
        }
    }

    /// Datagram `k` is lost, where it is kept; and whether it is.
    pub fn lose(&mut self, k: u64) -> bool
        ensures lost { self.new ≡ rules.losing self.old k }
        ensures known { result ≡ is_some (rules.kept_flight self.old k) }
        ensures count { length self.new ≡ length self.old }
    {
        let Some(place) = place_of(k, self.gone, self.ring.len()) else {
            return false;
        };
        self.ring[place].lose();
        self.settled = unsettled_from(&self.ring, self.settled);
        true
    }

    /// Whether datagram `k` is kept and neither lost nor taken.
    #[inline(always)]
    pub fn is_pending(&self, k: u64) -> bool
        ensures { result ≡ is_pending self.now k }
    {
        match self.kept(k) {
            None => false,
            Some(flight) => flight.is_open(),
        }
    }

    /// The least number of a datagram that is kept and neither lost nor taken.
    #[inline(always)]
    pub fn pending(&self) -> Option<u64>
        ensures { result ≡ rules.pending self.now }
    {
        if self.settled == self.ring.len() {
            None
        } else {
            Some(self.gone + self.settled as u64 + 1)
        }
    }
}

/// Where datagram `k` stands among the `count` kept ones, where `gone` were sent before them.
#[inline(always)]
fn place_of(k: u64, gone: u64, count: usize) -> Option<usize>
    requires { gone < 2 ^ 63 }
    ensures { MatchOption result ((k ≤ gone) ⊎ (gone + count < k)) (λ i. (i < count)
        × (k ≡ gone + i + 1)) }
{
    let place = k.checked_sub(gone + 1)?;
    if place < count as u64 {
        Some(place as usize)
    } else {
        None
    }
}

/// Forgets the oldest datagram where the store is full, and gives it.
#[inline(always)]
fn forget_oldest(ring: &mut VecDeque<Flight>) -> Option<Flight>
    requires { length ring.old.items ≤ 16384 }
    ensures oldest { result ≡ oldest_of_full ring.old.items }
    ensures rest { ring.new.items ≡ drop (length ring.old.items + 1 - 16384) ring.old.items }
    ensures room { deque_capacity ring.new ≡ deque_capacity ring.old }
{
    if ring.len() < ROOM {
        return None;
    }
    ring.pop_front()
}

/// The first place from `from` on whose datagram is neither lost nor taken, or the end.
#[inline(always)]
fn unsettled_from(ring: &VecDeque<Flight>, from: usize) -> usize
    requires { from ≤ deque_len ring.now }
    ensures { result ≡ from + prefix_len is_settled (drop from ring.now.items) }
{
    let mut place = from;
    while place < ring.len() && ring[place].is_settled() {
        place += 1;
    }
    place
}
