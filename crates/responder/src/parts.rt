//! Making a responder, and its parts.

ghost use Rattle.std.specs.Prelude.{◌≡◌, ◌<◌, slice_get};
ghost use Rattle.protocol.specs.EndWords.{in_use_by};
ghost use Rattle.protocol.specs.State.{fresh_receiver};
ghost use Rattle.responder.specs.Receiving.{IsHeld, idled, parts_of, receiver_of};

use crate::{Flow, Responder, ResponderParts};
use rdma_types::{Receive, Terms};
use transport::atomic_replay::ReplyCache;

impl Responder {
    /// The responder of a new connection: packet 0 is expected, and there is no message and no reply.
    pub fn make(terms: &Terms) -> Responder
        requires { 0 < terms.now.mtu }
        ensures { result ≡ record { terms = terms.now; receiver = fresh_receiver } }
    {
        let parts = ResponderParts {
            expected: 0,
            nak_sent: false,
            msn: 0,
            flow: Flow::Idle,
        };
        Responder::from_parts(terms, ReplyCache::make(), parts)
    }

    /// The responder with these parts, as an image says them.
    pub fn from_parts(terms: &Terms, kept: ReplyCache, parts: ResponderParts) -> Responder
        requires { IsHeld terms.now (receiver_of parts kept) }
        ensures { result ≡ record { terms = terms.now; receiver = receiver_of parts kept } }
    {
        Responder {
            terms: *terms,
            parts,
            kept,
        }
    }

    /// An equal responder.
    pub fn copy(&self) -> Responder
        ensures { result ≡ self.now }
    {
        Responder {
            terms: self.terms,
            parts: self.parts,
            kept: self.kept.copy(),
        }
    }

    /// The replies to atomics that are kept.
    pub fn kept(&self) -> &ReplyCache
        ensures kept { result.now ≡ self.now.receiver.kept }
        ensures held { IsHeld self.now.terms self.now.receiver }
    {
        &self.kept
    }

    /// All but the kept replies.
    pub fn parts(&self) -> ResponderParts
        ensures parts { result ≡ parts_of self.now.receiver }
        ensures held { IsHeld self.now.terms self.now.receiver }
    {
        self.parts
    }

    /// Ends the message in progress, and hands out its receive; None exactly where no receive is in use.
    pub fn cut(&mut self) -> Option<Receive>
        ensures receive { result ≡ slice_get (in_use_by self.old.receiver.progress) 0 }
        ensures idle { self.new
            ≡ record { terms = self.old.terms; receiver = idled self.old.receiver } }
    {
        let flow = self.parts.flow;
        self.parts.flow = Flow::Idle;
        match flow {
            Flow::Send { done: _, receive } => Some(receive),
            Flow::Idle | Flow::Write { .. } => None,
        }
    }
}
