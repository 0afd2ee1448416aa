//! The packetless machine as a program, and what is found in it by name.
#![tactic(auto, unfolding(crate::specs::Machine::has_context, crate::specs::Machine::context_of, crate::specs::Machine::has_end, crate::specs::Machine::end_of, crate::specs::Machine::queue_of, crate::specs::Machine::with_context, crate::specs::Machine::with_end, crate::specs::Machine::with_queue, crate::specs::Machine::with_queues, crate::specs::Machine::with_regions, crate::specs::Verbs::region_of, crate::specs::Tables::replaced), using(crate::proofs::Places::by_names))]

ghost use Rattle.std.specs.Prelude.{◌≡◌, [], length, IfSome, IfNone, true, false};
ghost use Rattle.std.specs.Borrow.{sem};
ghost use Rattle.rdma_types.specs.Objects.{no_queue, no_region, Region as RegionRecord, CompletionQueue};
ghost use Rattle.packetless_machine.specs.Keyed.{key_by};
ghost use Rattle.packetless_machine.specs.Machine.{Context as ContextRecord, End as EndRecord, empty, no_context, nobody, has_context, context_of, has_end, end_of, queue_of, regions_of, with_context, with_end, with_queue, with_queues, with_regions, put_at};
ghost use Rattle.packetless_machine.specs.Verbs.{has_region, has_queue, region_of};
ghost use Rattle.packetless_machine.specs.Lending.{LendsContext, LendsEnd, LendsQueue};

use crate::context::Context;
use crate::end::End;
use crate::named::{find, place_of};
use crate::queue::Queue;
use crate::region::{KeyedRange, Region, put_at};
use rdma_types::{Name, ObjName};
use std::alloc::Global;
use std::marker::Model;

/// The packetless machine: what a reliable connection gives its users, with no packets, devices or addresses.
#[derive(Drop)]
pub struct PacketlessMachine {
    pub(crate) contexts: Vec<Context>,
    pub(crate) keys: Vec<u32>,
    pub(crate) numbers: Vec<u32>,
}

impl Model for PacketlessMachine {
    ghost use Rattle.packetless_machine.specs.Machine.{Machine};

    ghost Value = { Machine };

    ghost view = { λ m. record { contexts = m.contexts.items; keys = m.keys.items; numbers = m.numbers.items } };
}

impl PacketlessMachine {
    /// A machine in which nothing was made.
    pub fn make(alloc: Global) -> PacketlessMachine
        ensures { result ≡ empty }
    {
        PacketlessMachine {
            contexts: Vec::new(alloc),
            keys: Vec::new(alloc),
            numbers: Vec::new(alloc),
        }
    }

    pub(crate) fn context(&self, name: Name) -> Option<&Context>
        ensures some { IfSome result (λ c. (c.now ≡ context_of self.now name)
            × (has_context self.now name ≡ true)) }
        ensures none { IfNone result ((has_context self.now name ≡ false)
            × (context_of self.now name ≡ no_context name)) }
    {
        find(&self.contexts, name)
    }

    pub(crate) fn end(&self, o: &ObjName) -> Option<&End>
        ensures some { IfSome result (λ e. (e.now ≡ end_of self.now o.now)
            × (has_end self.now o.now ≡ true)) }
        ensures none { IfNone result ((has_end self.now o.now ≡ false)
            × (end_of self.now o.now ≡ nobody o.now)) }
    {
        let context = self.context(o.context)?;
        find(&context.ends, o.name)
    }

    /// The end of that name, and its context.
    pub(crate) fn home(&self, o: &ObjName) -> Option<(&Context, &End)>
        ensures some { IfSome result (λ p. (p.0.now ≡ context_of self.now o.now.context)
            × (p.1.now ≡ end_of self.now o.now) × (has_end self.now o.now ≡ true)) }
        ensures none { IfNone result ((has_end self.now o.now ≡ false)
            × (end_of self.now o.now ≡ nobody o.now)) }
    {
        let context = self.context(o.context)?;
        let end = find(&context.ends, o.name)?;
        Some((context, end))
    }

    pub(crate) fn queue(&self, context: Name, name: Name) -> Option<&Queue>
        ensures some { IfSome result (λ q. (q.now ≡ queue_of self.now context name)
            × (has_queue self.now context name ≡ true)) }
        ensures none { IfNone result ((has_queue self.now context name ≡ false)
            × (queue_of self.now context name ≡ no_queue)) }
    {
        let context = self.context(context)?;
        find(&context.queues, name)
    }

    pub(crate) fn region(&self, o: &ObjName) -> Option<&Region>
        ensures some { IfSome result (λ r. (r.now ≡ region_of self.now o.now)
            × (has_region self.now o.now ≡ true)) }
        ensures none { IfNone result ((has_region self.now o.now ≡ false)
            × (region_of self.now o.now ≡ no_region)) }
    {
        let context = self.context(o.context)?;
        find(&context.regions, o.name)
    }

    #[tactic(auto, unfolding(crate::specs::Machine::context_of, crate::specs::Machine::with_context, crate::specs::Tables::replaced), using(crate::proofs::Places::by_names, crate::proofs::Same::same_context))]
    pub(crate) fn context_mut(&mut self, name: Name) -> Option<&mut Context>
        ensures* lends { sem 𝓛 (LendsContext self.entry name result) }
        ensures some { IfSome result (λ c. c.now ≡ context_of self.old name) }
        ensures none { IfNone result ((c : ContextRecord)
            → with_context self.old name c ≡ self.old) }
        ensures same { with_context self.old name (context_of self.old name) ≡ self.old }
    {
        let place = place_of(&self.contexts, name);
        self.contexts.get_mut(place)
    }

    pub(crate) fn end_mut(&mut self, o: &ObjName) -> Option<&mut End>
        ensures* lends { sem 𝓛 (LendsEnd self.entry o.now result) }
        ensures some { IfSome result (λ e. e.now ≡ end_of self.old o.now) }
        ensures none { IfNone result ((e : EndRecord) → with_end self.old o.now e ≡ self.old) }
        ensures same { with_end self.old o.now (end_of self.old o.now) ≡ self.old }
    {
        let context = self.context_mut(o.context)?;
        context.end_mut(o.name)
    }

    pub(crate) fn queue_mut(&mut self, context: Name, name: Name) -> Option<&mut Queue>
        ensures* lends { sem 𝓛 (LendsQueue self.entry context name result) }
        ensures some { IfSome result (λ q. q.now ≡ queue_of self.old context name) }
        ensures none { IfNone result ((q : CompletionQueue)
            → with_queue self.old context name q ≡ self.old) }
        ensures same { with_queue self.old context name (queue_of self.old context name)
            ≡ self.old }
    {
        let context = self.context_mut(context)?;
        context.queue_mut(name)
    }

    /// The completion queues of a context are replaced.
    pub(crate) fn set_queues(&mut self, context: Name, queues: Vec<Queue>)
        ensures { self.new ≡ with_queues self.old context queues.items }
    {
        if let Some(context) = self.context_mut(context) {
            context.queues = queues;
        }
    }

    /// Bytes are put at a place of a context.
    pub(crate) fn put(&mut self, context: Name, place: &KeyedRange, new: &[u8])
        requires { place.now.count ≡ length new.now }
        ensures { self.new ≡ with_regions self.old context
            (put_at (key_by place.now.kind) place.now.key place.now.address new.now
            (regions_of self.old context)) }
    {
        if let Some(context) = self.context_mut(context) {
            put_at(&mut context.regions, place, new);
        }
    }
}
