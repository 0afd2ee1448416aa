//! Contexts: the objects of one application.
#![tactic(auto, unfolding(crate::specs::Machine::with_end_in, crate::specs::Machine::with_queue_in, crate::specs::Tables::replaced), using(crate::proofs::Places::by_names))]

ghost use Rattle.std.specs.Prelude.{◌≡◌, ◌++◌, ◌∷◌, [], IfSome, IfNone, length, true};
ghost use Rattle.std.specs.Borrow.{sem};
ghost use Rattle.rdma_types.specs.Lists.{named, has_name, without};
ghost use Rattle.rdma_types.specs.Memory.{holds};
ghost use Rattle.packetless_machine.specs.Tables.{replaced};
ghost use Rattle.packetless_machine.specs.Verbs.{overwritten};
ghost use Rattle.rdma_types.specs.Objects.{no_queue, no_region, CompletionQueue};
ghost use Rattle.packetless_machine.specs.Machine.{no_context, End as EndRecord, with_end_in, with_queue_in};
ghost use Rattle.packetless_machine.specs.Lending.{LendsEndOf, LendsQueueOf};

use crate::end::End;
use crate::named::{Named, find, place_of};
use crate::queue::Queue;
use crate::region::Region;
use rdma_types::Name;
use std::alloc::Global;
use std::marker::Model;

/// The objects of one application.
#[derive(Drop)]
pub struct Context {
    name: Name,
    pub(crate) domains: Vec<Name>,
    pub(crate) regions: Vec<Region>,
    pub(crate) queues: Vec<Queue>,
    pub(crate) ends: Vec<End>,
}

impl Model for Context {
    ghost use Rattle.packetless_machine.specs.Machine.{Context as ContextRecord};

    ghost Value = { ContextRecord };

    ghost view = { λ c. record {
      name = c.name;
      domains = c.domains.items;
      regions = c.regions.items;
      queues = c.queues.items;
      ends = c.ends.items;
    } };
}

impl Named for Context {
    ghost named = { λ c. c.name };

    fn name(&self) -> Name {
        self.name
    }
}

impl Context {
    /// A context with nothing in it.
    pub fn make(alloc: Global, name: Name) -> Context
        ensures { result ≡ no_context name }
    {
        Context {
            name,
            domains: Vec::new(alloc),
            regions: Vec::new(alloc),
            queues: Vec::new(alloc),
            ends: Vec::new(alloc),
        }
    }

    /// The end of that name, lent out: the context ends with the last value that is written to it. None where the
    /// context has no such end.
    pub fn end_mut(&mut self, name: Name) -> Option<&mut End>
        ensures* lends { sem 𝓛 (LendsEndOf self.entry name result) }
        ensures some { IfSome result (λ e. (none : EndRecord)
            → e.now ≡ named (λ x. x.name) none name self.old.ends) }
        ensures none { IfNone result ((e : EndRecord) → with_end_in self.old name e ≡ self.old) }
    {
        let place = place_of(&self.ends, name);
        self.ends.get_mut(place)
    }

    /// The completion queue of that name, lent out: the context ends with the last value that is written to it. None
    /// where the context has no such queue.
    pub fn queue_mut(&mut self, name: Name) -> Option<&mut Queue>
        ensures* lends { sem 𝓛 (LendsQueueOf self.entry name result) }
        ensures some { IfSome result (λ q. q.now
            ≡ named (λ x. x.name) no_queue name self.old.queues) }
        ensures none { IfNone result ((q : CompletionQueue)
            → with_queue_in self.old name q ≡ self.old) }
    {
        let place = place_of(&self.queues, name);
        self.queues.get_mut(place)
    }

    /// Whether a domain has the name.
    pub fn has_domain(&self, name: Name) -> bool
        ensures { result ≡ has_name (λ d. d) name self.now.domains }
    {
        find(&self.domains, name).is_some()
    }

    /// The region of a name is taken out.
    pub fn drop_region(&mut self, name: Name)
        ensures { self.new
            ≡ record self.old { regions = without (λ r. r.name) name self.old.regions } }
    {
        let place = place_of(&self.regions, name);
        if place < self.regions.len() {
            let _ = self.regions.remove(place);
        }
    }

    /// Bytes of the region of a name are overwritten from an address on.
    pub fn store(&mut self, name: Name, address: u64, bytes: &[u8])
        requires { holds (named (λ r. r.name) no_region name self.old.regions) address
            (length bytes.now) ≡ true }
        ensures { self.new
            ≡ record self.old {
              regions = replaced (λ r. r.name) name
                  (overwritten (named (λ r. r.name) no_region name self.old.regions) address bytes.now)
                  self.old.regions;
            } }
    {
        let place = place_of(&self.regions, name);
        if let Some(region) = self.regions.get_mut(place) {
            region.overwrite(u128::from(address), bytes);
        }
    }
}
