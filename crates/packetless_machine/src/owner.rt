//! Inner steps at the owner of a request: it learns what became of its first untold request.
#![tactic(auto, unfolding(crate::specs::Steps::has_untold, crate::specs::Steps::may_land_offer, crate::specs::Steps::may_land, crate::specs::Steps::land_at, crate::specs::Steps::bytes_of, crate::specs::Steps::landed, crate::specs::Steps::in_place, crate::specs::Steps::may_know, crate::specs::Steps::knowing, crate::specs::Steps::may_tell, crate::specs::Steps::success, crate::specs::Steps::tell_at, crate::specs::Steps::tell, crate::specs::Steps::expire, crate::specs::Steps::may_wait, crate::specs::Steps::wait, crate::specs::Steps::is_denied, crate::specs::Steps::may_bounce, crate::specs::Steps::bounce_status, crate::specs::Steps::bounce, crate::specs::Steps::ended_with, crate::specs::Machine::completing))]

ghost use Rattle.std.specs.Prelude.{◌≡◌, ◌<◌, ◌+◌, length, IfSome, IfNone, IfOk, OnOk, OnErr, true, false, slice_get, Some};
ghost use Rattle.packetless_machine.specs.Machine.{end_of, has_end, nobody, in_end, completing, context_of};
ghost use Rattle.packetless_machine.specs.Steps.{has_untold, front, in_place, may_land, landed, may_know, knowing, may_tell, tell, expire, may_wait, wait, is_denied, may_bounce, bounce_status, bounce, ended_with, success, put_old, told_one, expired, waited, with_known, may_land_offer, failed_queues, receives_of, closed};

use crate::end::End;
use crate::kinds::{is_read, lands, request_done};
use crate::machine::PacketlessMachine;
use crate::posted::{IdealRequest, Offered};
use crate::queue::{Queue, copied};
use crate::region::{KeyKind, KeyedRange};
use crate::reply::Reply;
use rdma_types::{Completion, Name, ObjName, RefusalReason, Request, WcStatus};
use std::alloc::{AllocError, Global};

impl End {
    /// The bytes of request number i that are in place.
    fn in_place(&self, i: usize) -> u32
        ensures { result ≡ in_place self.now i }
    {
        match self.posted.get(i) {
            Some(r) if i < self.acted => r.request.shape.length,
            _ if i == self.acted => self.into,
            _ => 0,
        }
    }

    /// An offer is the one that comes next.
    fn may_land(&self, offer: &Offered) -> bool
        ensures next { result ≡ may_land_offer self.now (Some offer.now) }
        ensures there { result ≡ true → offer.now.offset ≡ self.now.known }
    {
        !offer.bytes.is_empty() && offer.request == self.told && offer.offset == self.known
    }

    /// The completion of its first untold request, where that is signaled.
    fn success(&self, alloc: Global, r: &IdealRequest) -> Result<Vec<Completion>, AllocError>
        ensures { IfOk result (λ v. v.items ≡ success self.now r.now) }
    {
        let mut all = Vec::new(alloc);
        if r.request.signaled {
            all.push(request_done(self.number, r, WcStatus::Success, r.request.shape.length))?;
        }
        Ok(all)
    }
}

/// The local place of a request, from an offset on.
fn local_place(r: &IdealRequest, offset: u32, count: usize) -> KeyedRange
    ensures { result
        ≡ record {
          kind = KeyKind.Local;
          key = r.now.request.lkey;
          address = r.now.request.local
              + offset;
          count = count;
        } }
{
    KeyedRange {
        kind: KeyKind::Local,
        key: r.request.lkey,
        address: u128::from(r.request.local) + u128::from(offset),
        count,
    }
}

/// The queues, once all work of an end is completed in them.
fn failed_queues(
    alloc: Global,
    end: &End,
    status: WcStatus,
    queues: &[Queue],
) -> Result<Vec<Queue>, AllocError>
    ensures { IfOk result (λ v. v.items ≡ failed_queues end.now status
        (receives_of end.now) queues.now) }
{
    let mut queues = copied(alloc, queues)?;
    let receives = end.receives(alloc)?;
    end.fail_in(alloc, status, &receives, &mut queues)?;
    Ok(queues)
}

impl PacketlessMachine {
    /// The end of that name and its first untold request, where it has one.
    fn owner(&self, q: &ObjName) -> Option<(&End, &IdealRequest)>
        ensures some { IfSome result (λ p. (p.0.now ≡ end_of self.now q.now)
            × (p.1.now ≡ front (end_of self.now q.now)) × (has_end self.now q.now ≡ true)
            × (has_untold self.now q.now ≡ true)
            × ((end_of self.now q.now).told < length (end_of self.now q.now).posted)) }
        ensures none { IfNone result (has_untold self.now q.now ≡ false) }
    {
        let end = self.end(q)?;
        if !end.connected || end.ended {
            return None;
        }
        let r = end.posted.get(end.told)?;
        Some((end, r))
    }

    /// .. and offer number o, where it is the one that comes next.
    fn next_offer(&self, q: &ObjName, o: usize) -> Option<(&End, &IdealRequest, &Offered)>
        ensures some { IfSome result (λ p. (p.0.now ≡ end_of self.now q.now)
            × (p.1.now ≡ front (end_of self.now q.now))
            × (Some p.2.now ≡ slice_get (end_of self.now q.now).offers o)
            × (p.2.now.offset ≡ (end_of self.now q.now).known)
            × (may_land self.now q.now o ≡ true)) }
        ensures none { IfNone result (may_land self.now q.now o ≡ false) }
    {
        let (end, r) = self.owner(q)?;
        let offer = end.offers.get(o)?;
        if !end.may_land(offer) {
            return None;
        }
        Some((end, r, offer))
    }

    pub(crate) fn has_untold(&self, q: &ObjName) -> bool
        ensures { result ≡ has_untold self.now q.now }
    {
        self.owner(q).is_some()
    }

    pub(crate) fn may_land(&self, q: &ObjName, o: usize) -> bool
        ensures { result ≡ may_land self.now q.now o }
    {
        self.next_offer(q, o).is_some()
    }

    pub(crate) fn may_know(&self, q: &ObjName, bytes: u32) -> bool
        ensures { result ≡ may_know self.now q.now bytes }
    {
        let Some((end, r)) = self.owner(q) else {
            return false;
        };
        !lands(r.request.shape.kind) && end.known < bytes && bytes <= end.in_place(end.told)
    }

    pub(crate) fn may_tell(&self, q: &ObjName) -> bool
        ensures { result ≡ may_tell self.now q.now }
    {
        let Some((end, r)) = self.owner(q) else {
            return false;
        };
        end.told < end.acted
            && (!is_read(r.request.shape.kind) || end.known == r.request.shape.length)
    }

    pub(crate) fn may_wait(&self, q: &ObjName) -> bool
        ensures { result ≡ may_wait self.now q.now }
    {
        let Some((end, _)) = self.owner(q) else {
            return false;
        };
        end.is_dry()
    }

    pub(crate) fn may_bounce(&self, q: &ObjName) -> bool
        ensures { result ≡ may_bounce self.now q.now }
    {
        let Some((end, _)) = self.owner(q) else {
            return false;
        };
        matches!(end.answers.get(end.told), Some(Reply::Denied(_)))
    }

    /// The end fails, and all its work is completed.
    pub(crate) fn end_with(
        &mut self,
        alloc: Global,
        o: &ObjName,
        status: WcStatus,
    ) -> Result<(), AllocError>
        requires { has_end self.old o.now ≡ true }
        ensures ok { OnOk result (self.new ≡ ended_with self.old o.now status) }
        ensures err { OnErr result (self.new ≡ self.old) }
    {
        let Some((context, end)) = self.home(o) else {
            return Ok(());
        };
        let queues = failed_queues(alloc, end, status, &context.queues)?;
        if let Some(end) = self.end_mut(o) {
            end.close();
        }
        self.set_queues(o.context, queues);
        Ok(())
    }

    pub(crate) fn know(&mut self, q: &ObjName, bytes: u32)
        ensures { self.new ≡ knowing self.old q.now bytes }
    {
        if let Some(end) = self.end_mut(q) {
            end.know(bytes);
        }
    }

    pub(crate) fn expire(&mut self, alloc: Global, q: &ObjName) -> Result<(), AllocError>
        requires { has_untold self.old q.now ≡ true }
        ensures ok { OnOk result (self.new ≡ expire self.old q.now) }
        ensures err { OnErr result (self.new ≡ self.old) }
    {
        let Some((end, _)) = self.owner(q) else {
            return Ok(());
        };
        if end.spent == end.retry {
            return self.end_with(alloc, q, WcStatus::RetryExceeded);
        }
        if let Some(end) = self.end_mut(q) {
            end.expire();
        }
        Ok(())
    }

    pub(crate) fn wait(&mut self, alloc: Global, q: &ObjName) -> Result<(), AllocError>
        requires { may_wait self.old q.now ≡ true }
        ensures ok { OnOk result (self.new ≡ wait self.old q.now) }
        ensures err { OnErr result (self.new ≡ self.old) }
    {
        let Some((end, _)) = self.owner(q) else {
            return Ok(());
        };
        if end.rnr == 7 {
            return Ok(());
        }
        if end.waits == end.rnr {
            return self.end_with(alloc, q, WcStatus::RnrExceeded);
        }
        if let Some(end) = self.end_mut(q) {
            end.wait();
        }
        Ok(())
    }

    pub(crate) fn bounce(&mut self, alloc: Global, q: &ObjName) -> Result<(), AllocError>
        requires { may_bounce self.old q.now ≡ true }
        ensures ok { OnOk result (self.new ≡ bounce self.old q.now) }
        ensures err { OnErr result (self.new ≡ self.old) }
    {
        let Some((end, _)) = self.owner(q) else {
            return Ok(());
        };
        let status = match end.answers.get(end.told) {
            Some(Reply::Denied(RefusalReason::Access)) => WcStatus::RemoteAccess,
            _ => WcStatus::RemoteInvalid,
        };
        self.end_with(alloc, q, status)
    }

    /// The bytes of an offer land.
    pub(crate) fn land(&mut self, alloc: Global, q: &ObjName, o: usize) -> Result<(), AllocError>
        requires { may_land self.old q.now o ≡ true }
        ensures ok { OnOk result (self.new ≡ landed self.old q.now o) }
        ensures err { OnErr result (self.new ≡ self.old) }
    {
        let Some((end, r, offer)) = self.next_offer(q, o) else {
            return Ok(());
        };
        let bytes = Vec::from_slice(alloc, &offer.bytes)?;
        let place = local_place(r, end.known, bytes.len());
        let known = end.known + bytes.len() as u32;
        self.put(q.context, &place, &bytes);
        if let Some(end) = self.end_mut(q) {
            end.know(known);
        }
        Ok(())
    }

    /// The first untold request is finished for its owner.
    #[tactic(auto, unfolding(crate::specs::Steps::may_tell, crate::specs::Steps::tell_at, crate::specs::Steps::tell), using(crate::proofs::Views::ends_kept))]
    pub(crate) fn tell(&mut self, alloc: Global, q: &ObjName) -> Result<(), AllocError>
        requires { may_tell self.old q.now ≡ true }
        ensures ok { OnOk result (self.new ≡ tell self.old q.now) }
        ensures err { OnErr result (self.new ≡ self.old) }
    {
        let Some((end, r)) = self.owner(q) else {
            return Ok(());
        };
        let done = end.success(alloc, r)?;
        let request = r.request;
        let reply = end.answers.get(end.told).copied();
        let queue = end.send_queue;
        self.complete(q.context, queue, &done)?;
        self.put_old(q.context, &request, reply);
        if let Some(end) = self.end_mut(q) {
            end.tell();
        }
        Ok(())
    }

    /// An old value comes to the local place of its atomic.
    #[tactic(auto, unfolding(crate::specs::Steps::put_old, rdma_types::specs::Memory::word_bytes))]
    fn put_old(&mut self, home: Name, request: &Request, reply: Option<Reply>)
        ensures { self.new ≡ put_old self.old home request.now reply }
    {
        match reply {
            Some(Reply::OldValue(value)) => {
                let place = KeyedRange {
                    kind: KeyKind::Local,
                    key: request.lkey,
                    address: u128::from(request.local),
                    count: 8,
                };
                self.put(home, &place, &value.to_be_bytes());
            }
            Some(Reply::Finished) | Some(Reply::Denied(_)) | None => {}
        }
    }

    /// Completions are added to a queue.
    pub(crate) fn complete(
        &mut self,
        context: Name,
        queue: Name,
        done: &[Completion],
    ) -> Result<(), AllocError>
        ensures ok { OnOk result (self.new ≡ completing self.old context queue done.now) }
        ensures err { OnErr result (self.new ≡ self.old) }
    {
        match self.queue_mut(context, queue) {
            Some(queue) => queue.complete(done),
            None => Ok(()),
        }
    }
}
