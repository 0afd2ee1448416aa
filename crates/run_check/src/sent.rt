//! Datagrams that were sent.

ghost use Rattle.std.specs.Prelude.{◌≡◌, ◌↔◌, ◌<◌, ◌^◌, ◌++◌, [], IfSome, IsTrue, None, OnOk, length, map};
ghost use Rattle.protocol.specs.Fabric.{flight_of};
ghost use Rattle.order_rules.specs.Order.{HasArrived, HasDatagram};
ghost use Rattle.run_check.specs.Checks.{IsAt};

use protocol::Event;
use rdma_types::{Address, Sent};
use std::alloc::{AllocError, Global};
use std::marker::Model;

/// A datagram that was sent, and from where.
#[derive(Drop)]
struct Flown<'a> {
    from: Address,
    sent: &'a Sent,
}

impl<'a> Model for Flown<'a> {
    ghost use Rattle.protocol.specs.Fabric.{flight_of};
    ghost use Rattle.protocol.specs.State.{Flight};

    ghost Value = { Flight };

    ghost view = { λ f. flight_of f.from f.sent.now };
}

/// The datagrams that were sent, in the order of their numbers. Contracts see what was sent, and from where.
#[derive(Drop)]
pub struct Flights<'a> {
    flown: Vec<Flown<'a>>,
    /// The place behind the last one that arrived, from where the next one is looked for: most arrive in their order.
    next: usize,
}

impl<'a> Model for Flights<'a> {
    ghost use Rattle.std.specs.Prelude.{List};
    ghost use Rattle.protocol.specs.State.{Flight};

    ghost Value = { List Flight };

    ghost view = { λ f. f.flown.items };
}

/// A datagram from an address.
fn flight<'a>(from: Address, sent: &'a Sent) -> Flown<'a>
    ensures { result ≡ flight_of from sent.now }
{
    Flown { from, sent }
}

/// Whether a datagram has that sender, that receiver and those bytes.
fn is_datagram(flight: &Flown<'_>, from: Address, to: Address, bytes: &[u8]) -> bool
    ensures { IsTrue result ↔ (flight.now.from ≡ from) × (flight.now.to ≡ to)
        × (flight.now.bytes ≡ bytes.now) }
{
    flight.from == from && flight.sent.to == to && flight.sent.bytes.as_slice() == bytes
}

/// Whether the one at a place is like that.
fn is_at(flights: &[Flown<'_>], place: usize, from: Address, to: Address, bytes: &[u8]) -> bool
    ensures { IsTrue result ↔ IsAt flights.now from to bytes.now place }
{
    if place >= flights.len() {
        return false;
    }
    is_datagram(&flights[place], from, to, bytes)
}

/// The place of the last one like that.
fn last_like(flights: &[Flown<'_>], from: Address, to: Address, bytes: &[u8]) -> Option<usize>
    ensures some { IfSome result (λ _. HasDatagram flights.now from to bytes.now) }
    ensures none { result ≡ None → HasDatagram flights.now from to bytes.now → ⊥ }
{
    let count = flights.len();
    for i in 0..count {
        let k = count - 1 - i;
        if is_at(flights, k, from, to, bytes) {
            return Some(k);
        }
    }
    None
}

/// The place of the first one like that from a place on.
fn first_like(
    flights: &[Flown<'_>],
    place: usize,
    from: Address,
    to: Address,
    bytes: &[u8],
) -> Option<usize>
    ensures { IfSome result (λ _. HasDatagram flights.now from to bytes.now) }
{
    for k in place..flights.len() {
        if is_at(flights, k, from, to, bytes) {
            return Some(k);
        }
    }
    None
}

impl<'a> Flights<'a> {
    /// None.
    pub fn none(alloc: Global) -> Flights<'a>
        ensures { result ≡ [] }
    {
        Flights {
            flown: Vec::new(alloc),
            next: 0,
        }
    }

    /// How many there are.
    pub fn len(&self) -> usize
        ensures count { result ≡ length self.now }
        ensures small { result < 2 ^ 63 }
    {
        self.flown.len()
    }

    /// Puts what a device sent from its address behind the others.
    pub fn put(&mut self, from: Address, sent: &'a [Sent]) -> Result<(), AllocError>
        ensures { OnOk result (self.new ≡ self.old ++ map (flight_of from) sent.now) }
    {
        for one in sent {
            self.flown.push(flight(from, one))?;
        }
        Ok(())
    }

    /// Whether one is like that. Those before it, that did not arrive in their turn, are passed.
    fn was_sent(&mut self, from: Address, to: Address, bytes: &[u8]) -> bool
        ensures sent { IsTrue result ↔ HasDatagram self.old from to bytes.now }
        ensures same { self.new ≡ self.old }
    {
        let flown = self.flown.as_slice();
        if let Some(place) = first_like(flown, self.next, from, to, bytes) {
            self.next = place.saturating_add(1);
            return true;
        }
        last_like(flown, from, to, bytes).is_some()
    }

    /// Whether what arrives at an address was sent to it.
    pub fn has_arrived(&mut self, to: Address, event: &Event) -> bool
        ensures arrived { IsTrue result ↔ HasArrived self.old to event.now }
        ensures same { self.new ≡ self.old }
    {
        match event {
            Event::Arrive { from, bytes } => self.was_sent(*from, to, bytes.as_slice()),
            _ => true,
        }
    }
}
