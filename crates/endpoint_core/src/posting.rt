//! Requests and receives are posted.

ghost use Rattle.std.specs.Prelude.{◌≡◌, ◌+◌, ◌^◌, ◌<◌, ◌≤◌, ◌↔◌, ◌∷◌, [], length, true, IsErr, IsSome, IfErr, OnErr, OnOk};
ghost use Rattle.protocol.specs.State.{Context};
ghost use Rattle.protocol.specs.Requester.{end_of_queue};
ghost use Rattle.rdma_types.specs.Spans.{span};
ghost use Rattle.requester.specs.Sending.{posting, sender_of};
ghost use Rattle.responder.specs.Sound.{IsPlace};
ghost use Rattle.end_queues.specs.Untold.{posted_in};
ghost use Rattle.endpoint_core.specs.Answers.{posted_by, received_at};
ghost use Rattle.endpoint_core.specs.Ends.{Names, is_ended_link, untold_by};
ghost use Rattle.endpoint_core.specs.Queues.{count_at, nothing};
ghost use Rattle.endpoint_core.specs.Sites.{IsHome, IsSound, Keeps, end_at, home, pool_left, queues_left, regions_left, site_left, site_of};
ghost use Rattle.endpoint_core.specs.Sound.{IsNew};

use crate::end::{EndLink, Endpoint};
use crate::memory::EndMemory;
use crate::queues::{fail_at, push_at};
use end_completions::received;
use end_queues::work_queues::QueuedRequest;
use rdma_types::{Receive, WcStatus};
use responder::soundness_stays;

impl Endpoint {
    /// Posts a request, and reserves one more place for its completion. In Error it completes at once, flushed, and its
    /// payload's pages are free. Errors: the request itself, exactly where the send depth is reached; all then stays as
    /// it was.
    pub fn post_send(
        &mut self,
        p: QueuedRequest,
        memory: EndMemory<'_>,
    ) -> Result<(), QueuedRequest>
        requires connected { IsSome self.old.link }
        requires sound { IsSound (site_of memory self.old) (count_at memory.send 1) }
        requires new { IsNew memory.pool.now memory.regions.now self.old p }
        ensures step { OnOk result ((c : Context) (names : Names) → IsHome c names (site_of memory.entry self.old)
            → posted_by c (end_at names (site_of memory.entry self.old)) (end_at names (site_of memory.entry self.old)).link (posted_in memory.entry.pool.now p)
            ≡ home c names (site_left memory.exit self.new)) }
        ensures sound { OnOk result (IsSound (site_left memory.exit self.new) nothing) }
        ensures keeps { OnOk result (Keeps (site_of memory.entry self.old)
            (site_left memory.exit self.new) (p ∷ []) (count_at memory.entry.send 1)) }
        ensures still { OnOk result (is_ended_link self.old.link ≡ true → self.new ≡ self.old) }
        ensures full { IsErr result ↔ (self.old.send_depth ≤ length (untold_by self.old.link)) }
        ensures back { IfErr result (λ x. x ≡ p) }
        ensures err { OnErr result (self.new ≡ self.old) }
        ensures err_pool { OnErr result (pool_left memory.exit ≡ memory.entry.pool.now) }
        ensures err_regions { OnErr result (regions_left memory.exit ≡ memory.entry.regions.now) }
        ensures err_queues { OnErr result (queues_left memory.exit ≡ memory.entry.queues.now) }
    {
        let number = self.number;
        let Some(link) = &mut self.link else {
            unreachable!()
        };
        if !link.ended {
            return link.post(p);
        }
        if self.send_depth == 0 {
            return Err(p);
        }
        let EndMemory {
            pool,
            regions: _,
            queues,
            send,
            recv: _,
        } = memory;
        fail_at(&mut *queues, send, p, number, WcStatus::Flush, &mut *pool);
        Ok(())
    }

    /// Posts a receive, and reserves one more place for its completion. In Error it completes at once, flushed. Errors:
    /// the receive itself, exactly where the receive depth is reached; all then stays as it was.
    pub fn post_recv(&mut self, r: Receive, memory: EndMemory<'_>) -> Result<(), Receive>
        requires sound { IsSound (site_of memory self.old) (count_at memory.recv 1) }
        requires place { IsPlace memory.regions.now self.old.domain r }
        ensures step { OnOk result ((c : Context) (names : Names) → IsHome c names (site_of memory.entry self.old)
            → received_at c (end_at names (site_of memory.entry self.old)) r
            ≡ home c names (site_left memory.exit self.new)) }
        ensures sound { OnOk result (IsSound (site_left memory.exit self.new) nothing) }
        ensures keeps { OnOk result (Keeps (site_of memory.entry self.old)
            (site_left memory.exit self.new) [] (count_at memory.entry.recv 1)) }
        ensures full { IsErr result ↔ (self.old.recv_depth ≤ length self.old.recvs.items) }
        ensures back { IfErr result (λ x. x ≡ r) }
        ensures err { OnErr result (self.new ≡ self.old) }
        ensures err_pool { OnErr result (pool_left memory.exit ≡ memory.entry.pool.now) }
        ensures err_regions { OnErr result (regions_left memory.exit ≡ memory.entry.regions.now) }
        ensures err_queues { OnErr result (queues_left memory.exit ≡ memory.entry.queues.now) }
    {
        soundness_stays();
        if self.recvs.len() >= self.recv_depth as usize {
            return Err(r);
        }
        if self.is_ended() {
            let completion = received(self.number, &r, WcStatus::Flush);
            let recv = memory.recv;
            push_at(memory.queues, recv, completion);
            return Ok(());
        }
        self.recvs.post(r)
    }

    /// It is in Error.
    fn is_ended(&self) -> bool
        ensures { result ≡ is_ended_link self.now.link }
    {
        matches!(&self.link, Some(link) if link.ended)
    }
}

impl EndLink {
    /// Posts a request at an end that is not in Error.
    fn post(&mut self, p: QueuedRequest) -> Result<(), QueuedRequest>
        requires { end_of_queue self.old.requester.terms (sender_of self.old.requester)
            + span p.request.shape self.old.requester.terms.mtu < 2 ^ 62 }
        ensures ok { OnOk result (self.new
            ≡ record self.old { requester = posting self.old.requester p }) }
        ensures full { IsErr result ↔ (length self.old.requester.items ≡ self.old.requester.depth) }
        ensures back { IfErr result (λ x. x ≡ p) }
        ensures err { OnErr result (self.new ≡ self.old) }
    {
        self.requester.post(p)
    }
}
