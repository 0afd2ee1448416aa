//! Why a verb is refused: for each verb the first cause that holds, in its order.
#![tactic(auto, unfolding(rdma_types::specs::Causes::first_cause, rdma_types::specs::Lists::has_name, crate::specs::Verbs::lacks_domain, crate::specs::Verbs::lacks_queue, crate::specs::Verbs::is_local_granted, crate::specs::Verbs::is_full, crate::specs::Verbs::is_written, crate::specs::Verbs::in_use_names, crate::specs::Verbs::is_used_by, crate::specs::Verbs::is_in_use, crate::specs::Machine::reserved, crate::specs::Machine::has_end))]

ghost use Rattle.std.specs.Prelude.{◌≡◌, length};
ghost use Rattle.std.specs.List.{list_any};
ghost use Rattle.rdma_types.specs.Memory.{is_granted, local_key};
ghost use Rattle.packetless_machine.specs.Keyed.{right_of};
ghost use Rattle.packetless_machine.specs.Machine.{context_of};
ghost use Rattle.packetless_machine.specs.Verbs.{refusal_of, lacks_domain, lacks_queue, is_full, is_written, is_used_by, is_in_use};

use crate::context::Context;
use crate::end::End;
use crate::kinds::{is_write, lands};
use crate::machine::PacketlessMachine;
use crate::region::{KeyKind, KeyedRange, Need, Region, is_granted};
use crate::work::reserved;
use rdma_types::limits::MOST_BYTES;
use rdma_types::{Items, Name, ObjName, Receive, Refusal, Request, Rights, Terms, Verb};

/// The local place of posted work is granted.
fn is_local_granted(
    context: &Context,
    end: &End,
    key: u32,
    address: u64,
    count: u32,
    need: Need,
) -> bool
    ensures { result ≡ is_granted local_key context.now.regions end.now.domain key address count
        (right_of need) }
{
    let place = KeyedRange {
        kind: KeyKind::Local,
        key,
        address: u128::from(address),
        count: count as usize,
    };
    is_granted(&context.regions, end.domain, &place, need)
}

impl PacketlessMachine {
    fn lacks_domain(&self, context: Name, word: &Option<Name>) -> bool
        ensures { result ≡ lacks_domain self.now context word.now }
    {
        let Some(name) = word else {
            return true;
        };
        match self.context(context) {
            Some(context) => !context.has_domain(*name),
            None => true,
        }
    }

    fn lacks_queue(&self, context: Name, word: &Option<Name>) -> bool
        ensures { result ≡ lacks_queue self.now context word.now }
    {
        match word {
            Some(name) => self.queue(context, *name).is_none(),
            None => true,
        }
    }

    /// The entries and the reserved ones fill a queue.
    fn is_full(&self, context: &Context, home: Name, name: Name) -> bool
        requires { context.now ≡ context_of self.now home }
        ensures { result ≡ is_full self.now home name }
    {
        let reserved = reserved(&context.ends, name);
        match self.queue(home, name) {
            Some(queue) => {
                let free = (queue.capacity as usize).saturating_sub(queue.entries.len());
                free as u128 <= reserved
            }
            None => true,
        }
    }

    /// A Write in progress towards an end names a region by its remote key.
    fn is_written(&self, end: &End, key: u32) -> bool
        ensures { result ≡ is_written self.now end.now key }
    {
        if !end.connected {
            return false;
        }
        match self.turn(&end.peer) {
            Some((from, _, _, r)) => {
                from.into > 0 && is_write(r.request.shape.kind) && r.request.shape.rkey == key
            }
            None => false,
        }
    }

    /// Work of an end names a region.
    fn is_used_by(&self, region: &Region, end: &End) -> bool
        ensures { result ≡ is_used_by self.now region.now end.now }
    {
        end.requests_name(region.keys.local)
            || end.receives_name(region.keys.local)
            || end.in_use_names(region.keys.local)
            || self.is_written(end, region.keys.remote)
    }

    /// Work of some end names a region.
    #[tactic(auto)]
    fn some_use(&self, region: &Region, ends: &[End]) -> bool
        ensures { result ≡ list_any (is_used_by self.now region.now) ends.now }
    {
        for end in ends {
            if self.is_used_by(region, end) {
                return true;
            }
        }
        false
    }

    pub(crate) fn refuse_context(&self, name: Name, made: bool) -> Option<Refusal>
        ensures { result ≡ refusal_of self.now (Verb.Context name made) }
    {
        if !made {
            return Some(Refusal::NoSuch);
        }
        if self.context(name).is_some() {
            return Some(Refusal::NumberTaken);
        }
        None
    }

    pub(crate) fn refuse_connect(
        &self,
        one: &ObjName,
        two: &ObjName,
        terms: &Terms,
    ) -> Option<Refusal>
        ensures { result ≡ refusal_of self.now (Verb.Connect one.now two.now terms.now) }
    {
        let _ = terms;
        if self.context(one.context).is_none() || self.context(two.context).is_none() {
            return Some(Refusal::NoSuch);
        }
        let (Some(first), Some(second)) = (self.end(one), self.end(two)) else {
            return Some(Refusal::NoSuch);
        };
        if first.connected || second.connected || one.context == two.context {
            return Some(Refusal::BadState);
        }
        None
    }

    pub(crate) fn refuse_domain(&self, name: &ObjName) -> Option<Refusal>
        ensures { result ≡ refusal_of self.now (Verb.MakeDomain name.now) }
    {
        let Some(context) = self.context(name.context) else {
            return Some(Refusal::NoSuch);
        };
        if context.has_domain(name.name) {
            return Some(Refusal::NumberTaken);
        }
        None
    }

    pub(crate) fn refuse_region(
        &self,
        name: &ObjName,
        domain: &Option<Name>,
        base: u64,
        count: u32,
        rights: Rights,
    ) -> Option<Refusal>
        ensures { result ≡ refusal_of self.now
            (Verb.MakeRegion name.now domain.now base count rights) }
    {
        let _ = (base, count, rights);
        if self.context(name.context).is_none() || self.lacks_domain(name.context, domain) {
            return Some(Refusal::NoSuch);
        }
        if self.region(name).is_some() {
            return Some(Refusal::NumberTaken);
        }
        None
    }

    pub(crate) fn refuse_cq(&self, name: &ObjName, capacity: u32) -> Option<Refusal>
        ensures { result ≡ refusal_of self.now (Verb.MakeCq name.now capacity) }
    {
        let _ = capacity;
        if self.context(name.context).is_none() {
            return Some(Refusal::NoSuch);
        }
        if self.queue(name.context, name.name).is_some() {
            return Some(Refusal::NumberTaken);
        }
        None
    }

    pub(crate) fn refuse_qp(
        &self,
        name: &ObjName,
        domain: &Option<Name>,
        send: &Option<Name>,
        receive: &Option<Name>,
        depths: (u32, u32),
    ) -> Option<Refusal>
        ensures { result ≡ refusal_of self.now
            (Verb.MakeQp name.now domain.now send.now receive.now depths.0 depths.1) }
    {
        let _ = depths;
        let home = name.context;
        if self.context(home).is_none()
            || self.lacks_domain(home, domain)
            || self.lacks_queue(home, send)
            || self.lacks_queue(home, receive)
        {
            return Some(Refusal::NoSuch);
        }
        if self.end(name).is_some() {
            return Some(Refusal::NumberTaken);
        }
        None
    }

    pub(crate) fn refuse_drop(&self, name: &ObjName) -> Option<Refusal>
        ensures { result ≡ refusal_of self.now (Verb.DropRegion name.now) }
    {
        let Some(context) = self.context(name.context) else {
            return Some(Refusal::NoSuch);
        };
        let Some(region) = self.region(name) else {
            return Some(Refusal::NoSuch);
        };
        if self.some_use(region, &context.ends) {
            return Some(Refusal::InUse);
        }
        None
    }

    pub(crate) fn refuse_store(
        &self,
        region: &ObjName,
        address: u64,
        bytes: &Items<u8>,
    ) -> Option<Refusal>
        ensures { result ≡ refusal_of self.now (Verb.Store region.now address bytes.now) }
    {
        if self.context(region.context).is_none() {
            return Some(Refusal::NoSuch);
        }
        let Some(held) = self.region(region) else {
            return Some(Refusal::NoSuch);
        };
        if !held.holds(u128::from(address), bytes.len()) {
            return Some(Refusal::BadKey);
        }
        None
    }

    pub(crate) fn refuse_load(&self, region: &ObjName, address: u64, count: u32) -> Option<Refusal>
        ensures { result ≡ refusal_of self.now (Verb.Load region.now address count) }
    {
        if self.context(region.context).is_none() {
            return Some(Refusal::NoSuch);
        }
        let Some(held) = self.region(region) else {
            return Some(Refusal::NoSuch);
        };
        if !held.holds(u128::from(address), count as usize) {
            return Some(Refusal::BadKey);
        }
        None
    }

    pub(crate) fn refuse_send(&self, o: &ObjName, r: &Request) -> Option<Refusal>
        ensures { result ≡ refusal_of self.now (Verb.PostSend o.now r.now) }
    {
        if self.context(o.context).is_none() {
            return Some(Refusal::NoSuch);
        }
        let Some((context, end)) = self.home(o) else {
            return Some(Refusal::NoSuch);
        };
        if !end.connected {
            return Some(Refusal::BadState);
        }
        if r.shape.length > MOST_BYTES {
            return Some(Refusal::TooLong);
        }
        let need = if lands(r.shape.kind) {
            Need::LocalWrite
        } else {
            Need::Nothing
        };
        if !is_local_granted(context, end, r.lkey, r.local, r.shape.length, need) {
            return Some(Refusal::BadKey);
        }
        if end.untold_count() >= end.send_depth as usize {
            return Some(Refusal::SqFull);
        }
        if self.is_full(context, o.context, end.send_queue) {
            return Some(Refusal::CqFull);
        }
        None
    }

    pub(crate) fn refuse_receive(&self, o: &ObjName, v: &Receive) -> Option<Refusal>
        ensures { result ≡ refusal_of self.now (Verb.PostRecv o.now v.now) }
    {
        if self.context(o.context).is_none() {
            return Some(Refusal::NoSuch);
        }
        let Some((context, end)) = self.home(o) else {
            return Some(Refusal::NoSuch);
        };
        if v.length > MOST_BYTES {
            return Some(Refusal::TooLong);
        }
        if !is_local_granted(context, end, v.lkey, v.local, v.length, Need::LocalWrite) {
            return Some(Refusal::BadKey);
        }
        if end.unused.len() >= end.receive_depth as usize {
            return Some(Refusal::RqFull);
        }
        if self.is_full(context, o.context, end.receive_queue) {
            return Some(Refusal::CqFull);
        }
        None
    }

    pub(crate) fn refuse_poll(&self, cq: &ObjName, max: u32) -> Option<Refusal>
        ensures { result ≡ refusal_of self.now (Verb.Poll cq.now max) }
    {
        let _ = max;
        if self.context(cq.context).is_none() || self.queue(cq.context, cq.name).is_none() {
            return Some(Refusal::NoSuch);
        }
        None
    }
}
