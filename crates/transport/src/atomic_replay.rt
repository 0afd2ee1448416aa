//! The replies to atomics that a responder keeps, so that a repeated atomic is answered and not executed again
//! (IBA 9.4). That the last sixteen are kept is this project's choice.

ghost use Rattle.std.specs.Prelude.{◌≡◌, ℕ, ◌-◌, ◌<◌, ◌≤◌, ◌↔◌, ◌==◌, List, [], ◌++◌, length, drop, find, fold, slice_get, All, Contains, Some};
ghost use Rattle.std.specs.Option.{option_map};
ghost use Rattle.protocol.specs.declared.images.KeptReply.{KeptReply};
ghost use Rattle.rdma_types.specs.Lists.{first_that};
ghost use Rattle.protocol.specs.Responder.{keeping};
ghost use Rattle.transport.specs.Ring.{Rises};

use protocol::KeptReply;
use std::marker::Model;

/// How many replies are kept.
const ROOM: usize = 16;

/// The last sixteen replies to atomics, the oldest first. Their numbers rise.
#[derive(Drop)]
pub struct ReplyCache {
    ring: [KeptReply; 16],
    oldest: usize,
    len: usize,
}

impl Model for ReplyCache {
    ghost use Rattle.std.specs.Prelude.{List};
    ghost use Rattle.protocol.specs.declared.images.KeptReply.{KeptReply};
    ghost use Rattle.transport.specs.Ring.{in_order, IsRing};

    ghost Value = { List KeptReply };

    ghost view = { λ k. in_order k.oldest k.len k.ring };

    ghost invariant = { λ k. IsRing k.oldest k.len k.ring };
}

impl ReplyCache {
    /// No reply yet.
    pub fn make() -> ReplyCache
        ensures { result ≡ [] }
    {
        ReplyCache {
            ring: [KeptReply { number: 0, old: 0 }; ROOM],
            oldest: 0,
            len: 0,
        }
    }

    /// The same replies.
    pub fn copy(&self) -> ReplyCache
        ensures { result ≡ self.now }
    {
        ReplyCache {
            ring: self.ring,
            oldest: self.oldest,
            len: self.len,
        }
    }

    /// Keeps the old value that packet `number` was answered with, and forgets the oldest reply where sixteen are kept.
    /// The numbers rise.
    pub fn put(&mut self, number: u64, old: u64)
        requires rises { All (λ k. k.number < number) self.old }
        ensures { self.new ≡ keeping self.old (record { number = number; old = old }) }
    {
        let reply = KeptReply { number, old };
        if self.len < ROOM {
            self.ring[self.len] = reply;
            self.len += 1;
        } else {
            self.ring[self.oldest] = reply;
            self.oldest = (self.oldest + 1) % ROOM;
        }
    }

    /// The old value that packet `number` was answered with, where that reply is still kept.
    pub fn find(&self, number: u64) -> Option<u64>
        ensures kept { (old : ℕ) → (result ≡ Some old)
            ↔ Contains self.now (record { number = number; old = old }) }

        // The protocol's rules answer the same.
        ensures rule { result ≡ option_map (λ k. k.old)
            (first_that (λ k. k.number == number) self.now) }
    {
        let (older, newer) = self.in_order();
        old_of(older, number).or(old_of(newer, number))
    }

    /// Reply `i`, its number and its old value, counted from 0 for the oldest; None where fewer are kept.
    pub fn at(&self, i: usize) -> Option<(u64, u64)>
        ensures { result ≡ option_map (λ k. (k.number, k.old)) (slice_get self.now i) }
    {
        let (older, newer) = self.in_order();
        let reply = match i.checked_sub(older.len()) {
            None => older.get(i),
            Some(j) => newer.get(j),
        };
        reply.map(|reply| (reply.number, reply.old))
    }

    /// How many replies are kept, at most sixteen.
    pub fn len(&self) -> usize
        ensures len { result ≡ length self.now }
        ensures room { length self.now ≤ 16 }
        ensures rises { Rises self.now }
    {
        self.len
    }

    /// The replies in two parts, the older ones first.
    fn in_order(&self) -> (&[KeptReply], &[KeptReply])
        ensures whole { result.0.now ++ result.1.now ≡ self.now }
        ensures rises { Rises self.now }
    {
        (&self.ring[self.oldest..self.len], &self.ring[..self.oldest])
    }
}

/// The old value in the first reply to packet `number`.
fn old_of(replies: &[KeptReply], number: u64) -> Option<u64>
    ensures { result ≡ option_map (λ k. k.old) (find (λ k. k.number == number) replies.now) }
{
    replies
        .iter()
        .find(|reply| reply.number == number)
        .map(|reply| reply.old)
}

/// Of all replies that were ever put, the last sixteen are kept.
pub fn last_sixteen_are_kept()
    ensures { (ks : List KeptReply) → fold keeping [] ks ≡ drop (length ks - 16) ks }
{}
