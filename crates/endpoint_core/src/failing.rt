//! Expiries, and an end that goes to Error.

ghost use Rattle.std.specs.Prelude.{◌≡◌, ◌<◌, ◌≤◌, [], length, Some, true, IfNone, IfSome, IsSome};
ghost use Rattle.protocol.specs.State.{Context};
ghost use Rattle.endpoint_core.specs.declared.end.EndLink.{EndLink};
ghost use Rattle.endpoint_core.specs.Answers.{IsExpiry, expired_at, expiry_of, failed_at, is_spent};
ghost use Rattle.endpoint_core.specs.Ends.{KeepsLink, KeepsPartner, Names, link_in};
ghost use Rattle.protocol.specs.EndWords.{in_use_by};
ghost use Rattle.protocol.specs.Requester.{emptied_at, end_of_queue, failing, not_counted};
ghost use Rattle.page_pool.specs.Pool.{Pool};
ghost use Rattle.requester.specs.Sending.{bares, sender_of};
ghost use Rattle.responder.specs.Receiving.{idled};
ghost use Rattle.end_completions.specs.Completing.{listed};
ghost use Rattle.end_completions.specs.Payloads.{AreApart, GivesBack};
ghost use Rattle.endpoint_core.specs.Queues.{nothing, reserved_in, settle_at};
ghost use Rattle.endpoint_core.specs.Sites.{IsHome, IsSound, Keeps, end_at, home, site_left, site_of};
ghost use Rattle.std.specs.Option.{option_map};

use crate::end::{EndLink, Endpoint};
use crate::memory::EndMemory;
use crate::queues::{flush_receives_at, flush_requests_at};
use end_queues::completion_queue::Cq;
use indexmap::IndexMap;
use page_pool::PagePool;
use rdma_types::{Answer, ExpiryIgnored, Name, Receive, WcStatus};
use requester::Expiry;
use responder::soundness_stays;
use transport::move_core::Phase;

impl Endpoint {
    /// The retransmission timer expired. It is not counted where the end is in Error, Paused or Resuming, waits for the RNR
    /// timer, or has nothing in flight; one more than the retries of the terms ends the end.
    pub fn expire(&mut self, memory: EndMemory<'_>) -> Answer
        requires connected { IsSome self.old.link }
        requires sound { IsSound (site_of memory self.old) nothing }
        ensures answer { result
            ≡ expiry_of (option_map (link_in memory.entry.pool.now) self.old.link) }
        ensures step { (c : Context) (names : Names) → IsHome c names (site_of memory.entry self.old)
            → expired_at c (end_at names (site_of memory.entry self.old)) (end_at names (site_of memory.entry self.old)).link
            ≡ home c names (site_left memory.exit self.new) }
        ensures sound { IsSound (site_left memory.exit self.new) nothing }
        ensures keeps { Keeps (site_of memory.entry self.old)
            (site_left memory.exit self.new) [] nothing }
    {
        let Some(link) = &mut self.link else {
            unreachable!()
        };
        let Some(answer) = link.expire() else {
            self.fail(WcStatus::RetryExceeded, memory);
            return Answer::Spent;
        };
        answer
    }

    /// The end goes to Error: its oldest request completes with the status, and all its other work is flushed, requests
    /// first, then the receive in use, then the unused ones. The pages of all payloads are free.
    pub fn fail(&mut self, status: WcStatus, memory: EndMemory<'_>)
        requires connected { IsSome self.old.link }
        requires sound { IsSound (site_of memory self.old) nothing }
        ensures step { (c : Context) (names : Names) → IsHome c names (site_of memory.entry self.old)
            → failed_at c (end_at names (site_of memory.entry self.old)) (end_at names (site_of memory.entry self.old)).link status
            ≡ home c names (site_left memory.exit self.new) }
        ensures sound { IsSound (site_left memory.exit self.new) nothing }
        ensures partner { (l : EndLink) → self.old.link ≡ Some l → KeepsPartner l self.new.link }
        ensures keeps { Keeps (site_of memory.entry self.old)
            (site_left memory.exit self.new) [] nothing }
    {
        soundness_stays();
        let EndMemory {
            pool,
            regions: _,
            queues,
            send,
            recv,
        } = memory;
        let number = self.number;
        let Some(link) = &mut self.link else {
            unreachable!()
        };
        let in_use = link.flush(number, status, &mut *pool, &mut *queues, send);
        flush_receives_at(&mut *queues, recv, &mut self.recvs, in_use, number);
    }
}

impl EndLink {
    /// Why an expiry is not counted, if there is a reason.
    #[tactic(auto, unfolding(protocol::specs::Requester::not_counted))]
    fn why_not(&self) -> Option<ExpiryIgnored>
        ensures { (pool : Pool) → result ≡ not_counted (link_in pool self.now) }
    {
        if self.ended {
            return Some(ExpiryIgnored::Ended);
        }
        match self.moves.phase {
            Phase::Running => {}
            Phase::Paused => return Some(ExpiryIgnored::Paused),
            Phase::Resuming => return Some(ExpiryIgnored::Resuming),
        }
        let parts = self.requester.parts();
        if parts.rnr_wait {
            return Some(ExpiryIgnored::Rnr);
        }
        (parts.next == parts.una).then_some(ExpiryIgnored::Nothing)
    }

    /// What an expiry is answered; None where the retries are spent, and all is then as it was.
    fn expire(&mut self) -> Option<Answer>
        ensures answer { (pool : Pool) → self.old.requester.terms ≡ self.old.terms
            → IfSome result (λ a. IsExpiry (link_in pool self.old) a (link_in pool self.new)) }
        ensures spent { (pool : Pool) → self.old.requester.terms ≡ self.old.terms
            → IfNone result (is_spent (link_in pool self.old) (not_counted (link_in pool self.old))
            ≡ true) }
        ensures same { IfNone result (self.new ≡ self.old) }
        ensures keeps { KeepsLink self.old self.new }
    {
        if let Some(why) = self.why_not() {
            return Some(Answer::NotCounted(why));
        }
        match self.requester.expire() {
            Expiry::Counted(count) => Some(Answer::Expired(count)),
            Expiry::Spent => None,
            Expiry::NotCounted => Some(Answer::NotCounted(ExpiryIgnored::Nothing)),
        }
    }

    /// Completes all requests of an end that goes to Error, the oldest with a status and the others flushed. Hands out the
    /// receive in use, if there is one.
    fn flush(
        &mut self,
        number: u32,
        status: WcStatus,
        pool: &mut PagePool,
        queues: &mut IndexMap<Name, Cq>,
        send: u32,
    ) -> Option<Receive>
        requires payloads { AreApart pool.old self.old.requester.items }
        requires there { send < length queues.old.entries }
        requires reserved { length self.old.requester.items ≤ reserved_in queues.old.entries send }
        ensures used { listed result ≡ in_use_by self.old.responder.receiver.progress }
        ensures link { self.new
            ≡ record self.old {
              ended = true;
              requester = self.new.requester;
              responder = record
                  self.old.responder { receiver = idled self.old.responder.receiver };
              moves = record
                  self.old.moves { phase = Phase.Running };
            } }
        ensures terms { self.new.requester.terms ≡ self.old.requester.terms }
        ensures depth { self.new.requester.depth ≡ self.old.requester.depth }
        ensures items { self.new.requester.items ≡ [] }
        ensures numbers { sender_of self.new.requester
            ≡ emptied_at (end_of_queue self.old.requester.terms (sender_of self.old.requester)) }
        ensures queues { queues.new.entries
            ≡ settle_at queues.old.entries send (length self.old.requester.items) (failing number status (bares self.old.requester.items)) }
        ensures lists { GivesBack pool.old pool.new self.old.requester.items }
    {
        flush_requests_at(queues, send, &mut self.requester, number, status, pool);
        self.ended = true;
        self.moves.phase = Phase::Running;
        self.responder.cut()
    }
}
