//! What a verb does where it is not refused.
#![tactic(auto, unfolding(rdma_types::specs::Memory::cut, crate::specs::Verbs::taken, crate::specs::Verbs::with_domain, crate::specs::Verbs::made_region, crate::specs::Verbs::made_queue, crate::specs::Verbs::made_end, crate::specs::Verbs::connected_pair, crate::specs::Verbs::stored, crate::specs::Verbs::posted, crate::specs::Verbs::received, crate::specs::Verbs::polled, crate::specs::Verbs::is_fresh, crate::specs::Machine::with_regions, crate::specs::Machine::with_context, crate::specs::Machine::context_of))]

ghost use Rattle.std.specs.Prelude.{◌≡◌, ◌++◌, ◌∷◌, [], ◌+◌, ◌-◌, ◌<◌, ◌^◌, ◌%◌, ◌==◌, length, take, true, false, IfOk, OnOk, OnErr, if◌then◌else◌};
ghost use Rattle.std.specs.List.{list_any};
ghost use Rattle.rdma_types.specs.Lists.{without};
ghost use Rattle.rdma_types.specs.Memory.{holds, cut, local_key};
ghost use Rattle.rdma_types.specs.Kinds.{lands};
ghost use Rattle.packetless_machine.specs.Machine.{no_context, has_end, bytes_at, queue_of, regions_of, with_regions};
ghost use Rattle.packetless_machine.specs.Verbs.{region_of, has_queue, with_domain, made_region, made_queue, made_end, connected_pair, stored, posted, received, polled, is_fresh};

use crate::context::Context;
use crate::end::End;
use crate::kinds::{lands, receive_done, request_done};
use crate::machine::PacketlessMachine;
use crate::named::place_of;
use crate::posted::IdealRequest;
use crate::queue::Queue;
use crate::region::{KeyKind, KeyedRange, Region, bytes_at};
use rdma_types::{Completion, Name, ObjName, Receive, Request, Rights, Terms, WcKind, WcStatus};
use std::alloc::{AllocError, Global};

/// No number of a list is the given one.
#[tactic(auto, unfolding(crate::specs::Verbs::is_fresh))]
pub fn is_fresh(used: &[u32], given: u32) -> bool
    ensures { result ≡ is_fresh used.now given }
{
    !used.contains(&given)
}

/// A copy of a list with one more number.
#[tactic(auto)]
fn with_one(alloc: Global, numbers: &[u32], given: u32) -> Result<Vec<u32>, AllocError>
    ensures { IfOk result (λ v. v.items ≡ numbers.now ++ given ∷ []) }
{
    let mut all = Vec::from_slice(alloc, numbers)?;
    all.push(given)?;
    Ok(all)
}

/// A request with the bytes that a Write or Send takes as it is posted.
fn take(alloc: Global, context: &Context, r: &Request) -> Result<IdealRequest, AllocError>
    ensures { IfOk result (λ p. p
        ≡ record {
          request = r.now;
          payload = (if lands r.now.shape.kind then []
              else bytes_at local_key r.now.lkey r.now.local r.now.shape.length context.now.regions);
        }) }
{
    if lands(r.shape.kind) {
        return Ok(IdealRequest {
            request: *r,
            payload: Vec::new(alloc),
        });
    }
    let place = KeyedRange {
        kind: KeyKind::Local,
        key: r.lkey,
        address: u128::from(r.local),
        count: r.shape.length as usize,
    };
    let payload = bytes_at(alloc, &context.regions, &place)?;
    Ok(IdealRequest {
        request: *r,
        payload,
    })
}

impl PacketlessMachine {
    pub(crate) fn add_context(&mut self, alloc: Global, name: Name) -> Result<(), AllocError>
        ensures ok { OnOk result (self.new ≡ record self.old {
          contexts = self.old.contexts
              ++ no_context name ∷ [];
        }) }
        ensures err { OnErr result (self.new ≡ self.old) }
    {
        self.contexts.push(Context::make(alloc, name))?;
        Ok(())
    }

    pub(crate) fn connect(&mut self, one: &ObjName, two: &ObjName, terms: &Terms)
        ensures { self.new ≡ connected_pair self.old one.now two.now terms.now }
    {
        if let Some(end) = self.end_mut(one) {
            end.join(two, terms);
        }
        if let Some(end) = self.end_mut(two) {
            end.join(one, terms);
        }
    }

    pub(crate) fn add_domain(&mut self, name: &ObjName) -> Result<(), AllocError>
        ensures ok { OnOk result (self.new ≡ with_domain self.old name.now) }
        ensures err { OnErr result (self.new ≡ self.old) }
    {
        if let Some(context) = self.context_mut(name.context) {
            context.domains.push(name.name)?;
        }
        Ok(())
    }

    pub(crate) fn add_region(
        &mut self,
        alloc: Global,
        home: Name,
        region: Region,
        given: u32,
    ) -> Result<(), AllocError>
        ensures ok { OnOk result (self.new ≡ with_regions
            (record self.old { keys = self.old.keys ++ given ∷ [] }) home
            (regions_of self.old home ++ region ∷ [])) }
        ensures err { OnErr result (self.new ≡ self.old) }
    {
        let keys = with_one(alloc, &self.keys, given)?;
        if let Some(context) = self.context_mut(home) {
            context.regions.push(region)?;
        }
        self.keys = keys;
        Ok(())
    }

    pub(crate) fn add_queue(
        &mut self,
        alloc: Global,
        name: &ObjName,
        capacity: u32,
    ) -> Result<(), AllocError>
        ensures ok { OnOk result (self.new ≡ made_queue self.old name.now capacity) }
        ensures err { OnErr result (self.new ≡ self.old) }
    {
        if let Some(context) = self.context_mut(name.context) {
            context
                .queues
                .push(Queue::make(alloc, name.name, capacity))?;
        }
        Ok(())
    }

    pub(crate) fn add_end(
        &mut self,
        alloc: Global,
        name: &ObjName,
        given: u32,
        domain: Name,
        queues: (Name, Name),
        depths: (u32, u32),
    ) -> Result<(), AllocError>
        ensures ok { OnOk result (self.new
            ≡ made_end self.old name.now domain queues.0 queues.1 depths.0 depths.1 given) }
        ensures err { OnErr result (self.new ≡ self.old) }
    {
        let numbers = with_one(alloc, &self.numbers, given)?;
        let end = End::make(alloc, name, given, domain, queues, depths);
        if let Some(context) = self.context_mut(name.context) {
            context.ends.push(end)?;
        }
        self.numbers = numbers;
        Ok(())
    }

    pub(crate) fn drop_region(&mut self, name: &ObjName)
        ensures { self.new ≡ with_regions self.old name.now.context
            (without (λ r. r.name) name.now.name (regions_of self.old name.now.context)) }
    {
        if let Some(context) = self.context_mut(name.context) {
            context.drop_region(name.name);
        }
    }

    #[tactic(auto, unfolding(crate::specs::Verbs::stored, crate::specs::Verbs::region_of, crate::specs::Machine::with_regions), using(crate::proofs::Same::same_parts))]
    pub(crate) fn store(&mut self, region: &ObjName, address: u64, bytes: &[u8])
        requires { holds (region_of self.old region.now) address (length bytes.now) ≡ true }
        ensures { self.new ≡ stored self.old region.now address bytes.now }
    {
        if let Some(context) = self.context_mut(region.context) {
            context.store(region.name, address, bytes);
        }
    }

    pub(crate) fn load(
        &self,
        alloc: Global,
        region: &ObjName,
        address: u64,
        count: u32,
    ) -> Result<Vec<u8>, AllocError>
        requires { holds (region_of self.now region.now) address count ≡ true }
        ensures { IfOk result (λ v. v.items ≡ cut
            (address - (region_of self.now region.now).base) count
            (region_of self.now region.now).bytes) }
    {
        match self.region(region) {
            Some(region) => region.read(alloc, u128::from(address), count as usize),
            None => Ok(Vec::new(alloc)),
        }
    }

    pub(crate) fn post_send(
        &mut self,
        alloc: Global,
        o: &ObjName,
        r: &Request,
    ) -> Result<(), AllocError>
        requires { has_end self.old o.now ≡ true }
        ensures ok { OnOk result (self.new ≡ posted self.old o.now r.now) }
        ensures err { OnErr result (self.new ≡ self.old) }
    {
        let Some((context, end)) = self.home(o) else {
            return Ok(());
        };
        let r = take(alloc, context, r)?;
        if end.ended {
            let queue = end.send_queue;
            let done = [request_done(end.number, &r, WcStatus::Flush, 0)];
            return self.complete(o.context, queue, &done);
        }
        match self.end_mut(o) {
            Some(end) => end.post(r),
            None => Ok(()),
        }
    }

    pub(crate) fn post_receive(&mut self, o: &ObjName, v: &Receive) -> Result<(), AllocError>
        requires { has_end self.old o.now ≡ true }
        ensures ok { OnOk result (self.new ≡ received self.old o.now v.now) }
        ensures err { OnErr result (self.new ≡ self.old) }
    {
        let Some(end) = self.end(o) else {
            return Ok(());
        };
        if end.ended {
            let queue = end.receive_queue;
            let done = [receive_done(end.number, *v, WcKind::Recv, WcStatus::Flush, 0, None)];
            return self.complete(o.context, queue, &done);
        }
        match self.end_mut(o) {
            Some(end) => end.receive(*v),
            None => Ok(()),
        }
    }

    /// Copies of the oldest entries of a queue, at most so many. Errors: `AllocError` when out of memory.
    pub(crate) fn oldest_entries(
        &self,
        alloc: Global,
        cq: &ObjName,
        max: u32,
    ) -> Result<Vec<Completion>, AllocError>
        requires { has_queue self.now cq.now.context cq.now.name ≡ true }
        ensures { IfOk result (λ v. v.items ≡ take max
            (queue_of self.now cq.now.context cq.now.name).entries) }
    {
        match self.queue(cq.context, cq.name) {
            Some(queue) => queue.oldest(alloc, max),
            None => Ok(Vec::new(alloc)),
        }
    }

    /// The oldest entries of a queue are taken out, at most so many. Errors: `AllocError` when out of memory; nothing
    /// has changed.
    pub(crate) fn poll(&mut self, alloc: Global, cq: &ObjName, max: u32) -> Result<(), AllocError>
        ensures left { OnOk result (self.new ≡ polled self.old cq.now max) }
        ensures err { OnErr result (self.new ≡ self.old) }
    {
        match self.queue_mut(cq.context, cq.name) {
            Some(queue) => queue.drop_oldest(alloc, max),
            None => Ok(()),
        }
    }
}
