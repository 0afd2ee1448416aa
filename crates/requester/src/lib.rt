//! The requesting half of a connection's end (IBA 9.7 and 9.9): which packet is sent next, and what acknowledges,
//! responses and expiries do to what is sent. The numbers are true packet numbers, counted from 0.
#![tactic(auto)]

mod answers;
mod caches;
mod kinds;
mod laws;
mod marks;
mod posting;
mod responses;
mod telling;
mod transmitting;

use crate::caches::DerivedNumbers;
pub use answers::{Expiry, RequesterParts, ResponseEffect, Transmit};
use end_queues::work_queues::SendQueue;
pub use laws::{answers_are_the_protocols_rows, rules_look_at_no_payload};
use rdma_types::Terms;
use std::marker::Model;

/// The requester of a connected end: its posted requests that are not told yet, and its numbers. Only what its queue
/// was made with takes memory. Each call takes constant time, where each request is passed once between two rewinds,
/// but for `from_parts`, which goes through the queue once.
#[derive(Drop)]
pub struct Requester {
    terms: Terms,
    queue: SendQueue,
    numbers: RequesterParts,
    caches: DerivedNumbers,
}

impl Model for Requester {
    ghost use Rattle.requester.specs.Sending.{Sending, bares, sender_with};
    ghost use Rattle.requester.specs.Held.{IsHeld};

    ghost Value = { Sending };

    ghost view = { λ r. record { terms = r.terms; depth = r.queue.depth; items = r.queue.items; numbers = r.numbers } };

    ghost invariant = { λ r. IsHeld r.terms (sender_with (bares r.queue.items) r.numbers) r.caches };
}
