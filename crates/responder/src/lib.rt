//! The responding half of a connection's end (IBA 9.7 and 9.9): which requests act, what they do to regions, receives and
//! completions, and which answer is due. The numbers are true packet numbers, counted from 0.
#![tactic(auto)]

mod acting;
mod answers;
mod checks;
mod kinds;
mod laws;
mod parts;
mod places;
mod taking;

pub use answers::{Flow, Reply, ResponderParts};
pub use laws::{
    answers_are_the_protocols_rows, answers_leave_the_rest, requests_change_granted_bytes_alone,
    soundness_stays,
};
use rdma_types::Terms;
pub use rdma_types::{DropReason, RefusalReason};
use std::marker::Model;
use transport::atomic_replay::ReplyCache;

/// The responder of a connected end: the message in progress, its numbers, and the last sixteen replies to atomics. No
/// call takes memory, and each takes constant time or that of the bytes that it moves.
#[derive(Drop)]
pub struct Responder {
    terms: Terms,
    parts: ResponderParts,
    kept: ReplyCache,
}

impl Model for Responder {
    ghost use Rattle.responder.specs.Receiving.{IsHeld, Receiving, receiver_of};

    ghost Value = { Receiving };

    ghost view = { λ r. record { terms = r.terms; receiver = receiver_of r.parts r.kept } };

    ghost invariant = { λ r. IsHeld r.terms (receiver_of r.parts r.kept) };
}
