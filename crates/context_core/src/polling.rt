//! Completions polled.

ghost use Rattle.std.specs.Prelude.{◌≡◌, IfOk, OnErr, map};
ghost use Rattle.rdma_types.specs.Causes.{first_cause};
ghost use Rattle.rdma_types.specs.declared.answers.Answer.TheVariants as answer;
ghost use Rattle.rdma_types.specs.declared.names.Name.{Name};
ghost use Rattle.page_pool.specs.Pool.{Pool};
ghost use Rattle.protocol.specs.DeviceStep.{answers, polls, with_context};
ghost use Rattle.protocol.specs.Memory.{pages_of_context};
ghost use Rattle.protocol.specs.State.{Device, queue_at};
ghost use Rattle.context_core.specs.Causes.{poll_causes};
ghost use Rattle.context_core.specs.Context.{IsContext, context_in, lists_of};
ghost use Rattle.context_core.specs.Faults.{refusal_of};

use crate::{ContextFault, ContextState, queues};
use rdma_types::{Completion, Items, Name};
use std::alloc::Global;

impl ContextState {
    /// Hands out the oldest completions of a queue, as many as there are or as are asked for. Errors: refused with
    /// `NoSuch` exactly where no completion queue has the name; or `OutOfMemory`. Nothing has changed then.
    pub fn poll(
        &mut self,
        alloc: Global,
        name: Name,
        most: u32,
    ) -> Result<Items<Completion>, ContextFault>
        ensures refused { (pool : Pool) (n : Name)
            → refusal_of result ≡ first_cause (poll_causes (context_in pool n self.old) name) }
        ensures polled { (pool : Pool) (n : Name) (d : Device)
            → IfOk result (λ entries. polls d (context_in pool n self.old) (queue_at (context_in pool n self.old) name) most
            ≡ answers (with_context d (context_in pool n self.new)) (answer.Polled entries)) }
        ensures is { (pool : Pool) → IsContext pool self.old → IsContext pool self.new }
        ensures lists { lists_of self.new ≡ lists_of self.old }
        ensures pages { (pool : Pool) (n : Name) → IsContext pool self.old
            → pages_of_context (context_in pool n self.new)
            ≡ pages_of_context (context_in pool n self.old) }
        ensures numbers { (pool : Pool) (n : Name)
            → map (λ e. e.number) (context_in pool n self.new).ends
            ≡ map (λ e. e.number) (context_in pool n self.old).ends }
        ensures err { OnErr result (self.new ≡ self.old) }
    {
        queues::poll(&mut self.queues, alloc, name, most)
    }
}
