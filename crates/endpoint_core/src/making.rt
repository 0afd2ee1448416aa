//! Making an end and connecting it.

ghost use Rattle.std.specs.Prelude.{◌≡◌, ◌↔◌, ℕ, List, None, Some, IsErr, IsSome, OnErr, OnOk, IfOk};
ghost use Rattle.rdma_types.specs.Limits.{AreTerms};
ghost use Rattle.end_queues.specs.Postings.{empty_queue};
ghost use Rattle.page_pool.specs.Pool.{Pool};
ghost use Rattle.memory_keys.specs.declared.RegisteredRegion.{RegisteredRegion};
ghost use Rattle.protocol.specs.EndWords.{linked};
ghost use Rattle.protocol.specs.State.{Context, fresh_link};
ghost use Rattle.endpoint_core.specs.Ends.{Names};
ghost use Rattle.endpoint_core.specs.Queues.{promised};
ghost use Rattle.endpoint_core.specs.Sites.{IsHome, KeepsEnd, EndWithMemory, end_at, home};
ghost use Rattle.endpoint_core.specs.Sound.{HoldsQueue, IsEnd};

use crate::answers::BadState;
use crate::end::{EndLink, Endpoint};
use end_queues::work_queues::{RecvQueue, SendQueue};
use rdma_types::{Address, Name, Terms};
use requester::Requester;
use responder::{Responder, soundness_stays};
use std::alloc::{AllocError, Global};
use transport::move_core::MoveState;

impl Endpoint {
    /// An end in Init, with both its queues. Errors: `AllocError` when out of memory.
    pub fn make(
        alloc: Global,
        number: u32,
        domain: Name,
        send_depth: u32,
        recv_depth: u32,
    ) -> Result<Endpoint, AllocError>
        ensures { IfOk result (λ e. e
            ≡ record {
              number = number;
              domain = domain;
              send_depth = send_depth;
              recv_depth = recv_depth;
              recvs = empty_queue recv_depth;
              unlinked = Some
                  (empty_queue send_depth);
              link = None;
            }) }
    {
        Ok(Endpoint {
            number,
            domain,
            send_depth,
            recv_depth,
            recvs: RecvQueue::make(alloc, recv_depth)?,
            unlinked: Some(SendQueue::make(alloc, send_depth)?),
            link: None,
        })
    }

    /// Connects an end in Init with a partner of that number, at that address. Errors: `BadState` exactly where the end
    /// is connected already; it then stays as it was.
    pub fn connect(&mut self, peer: u32, partner: Address, terms: &Terms) -> Result<(), BadState>
        requires terms { AreTerms terms.now }
        requires queue { HoldsQueue self.old.send_depth self.old.unlinked self.old.link }
        ensures state { IsErr result ↔ IsSome self.old.link }
        ensures linked { OnOk result (IsSome self.new.link) }
        ensures queue { HoldsQueue self.new.send_depth self.new.unlinked self.new.link }
        ensures step { OnOk result ((s : EndWithMemory) → s.end ≡ self.old → (c : Context) (names : Names) → IsHome c names s
            → linked c (end_at names s) (fresh_link peer partner terms.now) ≡ home c names (record s { end = self.new })) }
        ensures sound { OnOk result ((pool : Pool) (held : List RegisteredRegion)
            → IsEnd pool held self.old → IsEnd pool held self.new) }
        ensures end { KeepsEnd self.old self.new }
        ensures reserved { OnOk result ((send recv place : ℕ)
            → promised send recv self.new place ≡ promised send recv self.old place) }
        ensures err { OnErr result (self.new ≡ self.old) }
    {
        let Some(queue) = self.unlinked.take() else {
            return Err(BadState);
        };
        soundness_stays();
        self.link = Some(EndLink {
            peer,
            terms: *terms,
            ended: false,
            requester: Requester::make(terms, queue),
            responder: Responder::make(terms),
            moves: MoveState::make(partner),
        });
        Ok(())
    }
}
