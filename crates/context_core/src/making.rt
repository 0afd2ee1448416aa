//! Domains, completion queues and queue pairs made, and queue pairs connected.

ghost use Rattle.std.specs.Prelude.{◌≡◌, Some, OnErr, OnOk, is_none, map, nat_le};
ghost use Rattle.std.specs.Result.{result_err};
ghost use Rattle.rdma_types.specs.Causes.{first_cause};
ghost use Rattle.rdma_types.specs.Limits.{AreTerms, most_numbers};
ghost use Rattle.rdma_types.specs.declared.answers.Answer.TheVariants as answer;
ghost use Rattle.rdma_types.specs.declared.names.Name.{Name};
ghost use Rattle.page_pool.specs.Pool.{Pool};
ghost use Rattle.protocol.specs.DeviceStep.{answers, connects, counting_qp, makes_domain, makes_end, makes_queue, number_of, with_context};
ghost use Rattle.protocol.specs.Memory.{pages_of_context};
ghost use Rattle.protocol.specs.Refusals.{qp_causes};
ghost use Rattle.protocol.specs.State.{Device, end_at};
ghost use Rattle.context_core.specs.Causes.{connect_causes, domain_causes, queue_causes};
ghost use Rattle.context_core.specs.Context.{IsContext, context_in, lists_of};
ghost use Rattle.context_core.specs.Faults.{refusal_of};

use crate::{ContextFault, ContextState, domains, ends, new_ends, queues};
use rdma_types::{Address, Name, Refusal, Terms};
use std::alloc::Global;

/// What is asked of a new queue pair. A domain or completion queue that is named in another context is None.
#[derive(Clone, Copy)]
pub struct NewEnd {
    pub name: Name,
    pub domain: Option<Name>,
    pub send_cq: Option<Name>,
    pub recv_cq: Option<Name>,
    pub send_depth: u32,
    pub recv_depth: u32,
}

impl ContextState {
    /// Makes a domain behind the others. Errors: refused for the first of these causes that holds (this project's
    /// choice): `NumberTaken` where a domain has the name, `TooMany` where there are 64 domains; or `OutOfMemory`.
    /// Nothing has changed then.
    pub fn make_domain(&mut self, name: Name) -> Result<(), ContextFault>
        ensures refused { (pool : Pool) (n : Name)
            → refusal_of result ≡ first_cause (domain_causes (context_in pool n self.old) name) }
        ensures made { (pool : Pool) (n : Name) (d : Device)
            → OnOk result (makes_domain d (context_in pool n self.old) name
            ≡ answers (with_context d (context_in pool n self.new)) answer.Done) }
        ensures is { (pool : Pool) → IsContext pool self.old → IsContext pool self.new }
        ensures lists { lists_of self.new ≡ lists_of self.old }
        ensures pages { (pool : Pool) (n : Name) → IsContext pool self.old
            → pages_of_context (context_in pool n self.new)
            ≡ pages_of_context (context_in pool n self.old) }
        ensures numbers { (pool : Pool) (n : Name)
            → map (λ e. e.number) (context_in pool n self.new).ends
            ≡ map (λ e. e.number) (context_in pool n self.old).ends }
        ensures err { OnErr result (self.new ≡ self.old) }
    {
        domains::make(&mut self.domains, name)
    }

    /// Makes an empty completion queue behind the others, for `capacity` entries. Errors: refused for the first of
    /// these causes that holds (this project's choice): `NumberTaken` where a completion queue has the name, `TooMany`
    /// where there are 64 of them; or `OutOfMemory`. Nothing has changed then.
    pub fn make_cq(&mut self, alloc: Global, name: Name, capacity: u32) -> Result<(), ContextFault>
        ensures refused { (pool : Pool) (n : Name)
            → refusal_of result ≡ first_cause (queue_causes (context_in pool n self.old) name) }
        ensures made { (pool : Pool) (n : Name) (d : Device) → IsContext pool self.old
            → OnOk result (makes_queue d (context_in pool n self.old) name capacity ≡ answers (with_context d (context_in pool n self.new)) answer.Done) }
        ensures is { (pool : Pool) → IsContext pool self.old → IsContext pool self.new }
        ensures lists { lists_of self.new ≡ lists_of self.old }
        ensures pages { (pool : Pool) (n : Name) → IsContext pool self.old
            → pages_of_context (context_in pool n self.new)
            ≡ pages_of_context (context_in pool n self.old) }
        ensures numbers { (pool : Pool) (n : Name)
            → map (λ e. e.number) (context_in pool n self.new).ends
            ≡ map (λ e. e.number) (context_in pool n self.old).ends }
        ensures err { OnErr result (self.new ≡ self.old) }
    {
        queues::make(&mut self.queues, alloc, name, capacity)
    }

    /// Makes a queue pair in Init behind the others, with the device's next number, or None where it has no more of
    /// them. Errors: refused for the first of these causes that holds (this project's choice): `NoSuch` where the
    /// domain or a completion queue is not in this context, `NumberTaken` where a queue pair has the name, `TooMany`
    /// where there are 64 queue pairs or no number is left; or `OutOfMemory`. Nothing has changed then.
    pub fn make_qp(
        &mut self,
        alloc: Global,
        new: &NewEnd,
        number: Option<u32>,
    ) -> Result<(), ContextFault>
        ensures refused { (pool : Pool) (n : Name) (d : Device) → IsContext pool self.old → nat_le most_numbers d.qp_count ≡ is_none number
            → refusal_of result ≡ first_cause (qp_causes d (context_in pool n self.old) new.now.name new.now.domain new.now.send_cq new.now.recv_cq) }
        ensures made { (pool : Pool) (n : Name) (d : Device) → IsContext pool self.old → number ≡ Some (number_of d)
            → OnOk result (makes_end d (context_in pool n self.old) new.now.name new.now.domain new.now.send_cq new.now.recv_cq new.now.send_depth new.now.recv_depth
            ≡ answers (with_context (counting_qp d) (context_in pool n self.new)) (answer.Qp (number_of d))) }
        ensures is { (pool : Pool) → IsContext pool self.old → IsContext pool self.new }
        ensures lists { lists_of self.new ≡ lists_of self.old }
        ensures pages { (pool : Pool) (n : Name) → IsContext pool self.old
            → pages_of_context (context_in pool n self.new)
            ≡ pages_of_context (context_in pool n self.old) }
        ensures err { OnErr result (self.new ≡ self.old) }
    {
        new_ends::make(
            &self.domains,
            &self.queues,
            &mut self.ends,
            alloc,
            new,
            number,
        )
    }

    /// Why [`ContextState::make_qp`] makes no such queue pair, besides being out of memory.
    pub fn qp_refusal(&self, new: &NewEnd, number: Option<u32>) -> Option<Refusal>
        ensures { (pool : Pool) (n : Name) (d : Device) → IsContext pool self.now → nat_le most_numbers d.qp_count ≡ is_none number
            → result ≡ first_cause (qp_causes d (context_in pool n self.now) new.now.name new.now.domain new.now.send_cq new.now.recv_cq) }
    {
        new_ends::refusal(&self.domains, &self.queues, &self.ends, new, number)
    }

    /// Connects a queue pair in Init to its partner. It takes no memory. Errors: `NoSuch` where no queue pair has the
    /// name, and else `BadState` where it is connected already. Nothing has changed then.
    pub fn connect(
        &mut self,
        name: Name,
        peer: u32,
        partner: Address,
        terms: &Terms,
    ) -> Result<(), Refusal>
        requires terms { AreTerms terms.now }
        requires is { (pool : Pool) × IsContext pool self.old }
        ensures refused { (pool : Pool) (n : Name)
            → result_err result ≡ first_cause (connect_causes (context_in pool n self.old) name) }
        ensures connected { (pool : Pool) (n : Name) (d : Device) → IsContext pool self.old
            → OnOk result (connects d (context_in pool n self.old) (end_at (context_in pool n self.old) name) peer partner terms.now
            ≡ answers (with_context d (context_in pool n self.new)) answer.Done) }
        ensures is { (pool : Pool) → IsContext pool self.old → IsContext pool self.new }
        ensures lists { lists_of self.new ≡ lists_of self.old }
        ensures pages { (pool : Pool) (n : Name) → IsContext pool self.old
            → pages_of_context (context_in pool n self.new)
            ≡ pages_of_context (context_in pool n self.old) }
        ensures numbers { (pool : Pool) (n : Name)
            → map (λ e. e.number) (context_in pool n self.new).ends
            ≡ map (λ e. e.number) (context_in pool n self.old).ends }
        ensures err { OnErr result (self.new ≡ self.old) }
    {
        let place = ends::unconnected(&self.ends, name)?;
        let slot = self.ends.get_index_mut(place).unwrap();
        slot.endpoint.connect(peer, partner, terms).unwrap();
        Ok(())
    }
}
