//! The timers of an end.

ghost use Rattle.std.specs.Prelude.{◌≡◌, IfOk, OnErr, map, if◌then◌else◌};
ghost use Rattle.std.specs.Result.{result_err};
ghost use Rattle.rdma_types.specs.Causes.{first_cause};
ghost use Rattle.rdma_types.specs.declared.answers.Answer.TheVariants as answer;
ghost use Rattle.rdma_types.specs.declared.names.Name.{Name};
ghost use Rattle.page_pool.specs.Pool.{Pool};
ghost use Rattle.protocol.specs.DeviceStep.{answers, expires, rnr_over, with_context};
ghost use Rattle.protocol.specs.Memory.{pages_of_context};
ghost use Rattle.protocol.specs.Refusals.{connected_causes};
ghost use Rattle.protocol.specs.State.{Device, end_at};
ghost use Rattle.context_core.specs.Context.{IsContext, Moves, context_in, lists_of};

use crate::{ContextState, ends};
use endpoint_core::EndMemory;
use page_pool::PagePool;
use rdma_types::{Answer, Name, Refusal};

impl ContextState {
    /// The retransmission timeout of an end. It takes no memory. Errors: `NoSuch` where no queue pair has the name, and
    /// else `BadState` where it is in Init. Nothing has changed then.
    pub fn expire(&mut self, pool: &mut PagePool, name: Name) -> Result<Answer, Refusal>
        requires is { IsContext pool.old self.old }
        ensures refused { (n : Name) → result_err result
            ≡ first_cause (connected_causes (context_in pool.old n self.old) name) }
        ensures expired { (n : Name) (d : Device) → with_context d (context_in pool.old n self.old) ≡ d
            → IfOk result (λ a. expires d (context_in pool.old n self.old) (end_at (context_in pool.old n self.old) name)
            ≡ answers (with_context d (context_in pool.new n self.new)) a) }
        ensures is { IsContext pool.new self.new }
        ensures moves { Moves pool.old pool.new self.old self.new }
        ensures numbers { (n : Name) → map (λ e. e.number) (context_in pool.new n self.new).ends
            ≡ map (λ e. e.number) (context_in pool.old n self.old).ends }
        ensures err { OnErr result (self.new ≡ self.old) }
        ensures err_pool { OnErr result (pool.new ≡ pool.old) }
    {
        let place = ends::connected(&self.ends, name)?;
        let slot = self.ends.get_index_mut(place).unwrap();
        let memory = EndMemory {
            pool,
            regions: &mut self.regions,
            queues: &mut self.queues,
            send: slot.send,
            recv: slot.recv,
        };
        Ok(slot.endpoint.expire(memory))
    }

    /// The RNR timer of an end is over. It takes no memory. Errors: `NoSuch` where no queue pair has the name, and else
    /// `BadState` where it is in Init. Nothing has changed then.
    pub fn rnr_over(&mut self, name: Name) -> Result<Answer, Refusal>
        ensures refused { (pool : Pool) (n : Name)
            → result_err result ≡ first_cause (connected_causes (context_in pool n self.old) name) }
        ensures over { (pool : Pool) (n : Name) (d : Device) → IsContext pool self.old → with_context d (context_in pool n self.old) ≡ d
            → IfOk result (λ a. rnr_over d (context_in pool n self.old) (end_at (context_in pool n self.old) name)
            ≡ answers (with_context d (context_in pool n self.new)) a) }
        ensures is { (pool : Pool) → IsContext pool self.old → IsContext pool self.new }
        ensures lists { lists_of self.new ≡ lists_of self.old }
        ensures pages { (pool : Pool) (n : Name) → IsContext pool self.old
            → pages_of_context (context_in pool n self.new)
            ≡ pages_of_context (context_in pool n self.old) }
        ensures numbers { (pool : Pool) (n : Name)
            → map (λ e. e.number) (context_in pool n self.new).ends
            ≡ map (λ e. e.number) (context_in pool n self.old).ends }
        ensures err { OnErr result (self.new ≡ self.old) }
    {
        let place = ends::connected(&self.ends, name)?;
        let slot = self.ends.get_index_mut(place).unwrap();
        Ok(over(slot.endpoint.rnr_over()))
    }
}

/// Whether an end waited for the RNR timer.
fn over(waited: bool) -> Answer
    ensures { result ≡ (if waited then answer.Over else answer.NotWaiting) }
{
    if waited {
        Answer::Over
    } else {
        Answer::NotWaiting
    }
}
