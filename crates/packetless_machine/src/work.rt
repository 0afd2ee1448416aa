//! What a failed end completes, and what a queue has reserved.
#![tactic(auto, unfolding(crate::specs::Steps::untold, crate::specs::Steps::failed_requests, crate::specs::Steps::failed_receives, crate::specs::Steps::failed_queues, crate::specs::Machine::reserved_by, crate::specs::Machine::used_count, crate::specs::Machine::untold_count))]

ghost use Rattle.std.specs.Prelude.{◌≡◌, ◌++◌, ◌≤◌, ◌+◌, ◌<◌, ◌^◌, IfOk, sum_by};
ghost use Rattle.packetless_machine.specs.Machine.{reserved_by};
ghost use Rattle.packetless_machine.specs.Steps.{untold, failed_requests, failed_receives, failed_queues, receives_of};

use crate::end::End;
use crate::kinds::{receive_done, request_done};
use crate::queue::{Queue, complete};
use rdma_types::{Completion, Name, Receive, WcKind, WcStatus};
use std::alloc::{AllocError, Global};

impl End {
    /// Completions of its untold requests: the first has the status, the others are flushed. Errors: `AllocError` when
    /// out of memory.
    pub fn failed_requests(
        &self,
        alloc: Global,
        status: WcStatus,
    ) -> Result<Vec<Completion>, AllocError>
        ensures { IfOk result (λ v. v.items ≡ failed_requests self.now.number status
            (untold self.now)) }
    {
        let number = self.number;
        let untold = self.untold();
        let mut all = Vec::new(alloc);
        let mut next = status;
        for r in untold {
            all.push(request_done(number, r, next, 0))?;
            next = WcStatus::Flush;
        }
        Ok(all)
    }

    /// The receive in use, and then the unused ones. Errors: `AllocError` when out of memory.
    pub fn receives(&self, alloc: Global) -> Result<Vec<Receive>, AllocError>
        ensures { IfOk result (λ v. v.items ≡ receives_of self.now) }
    {
        let mut all = Vec::new(alloc);
        if let Some(v) = self.in_use {
            all.push(v)?;
        }
        all.extend_from_slice(&self.unused)?;
        Ok(all)
    }

    /// All its work is completed in these queues. Errors: `AllocError` when out of memory; what the queues then hold is
    /// not said.
    pub fn fail_in(
        &self,
        alloc: Global,
        status: WcStatus,
        receives: &[Receive],
        queues: &mut Vec<Queue>,
    ) -> Result<(), AllocError>
        ensures { IfOk result (λ _. queues.new.items
            ≡ failed_queues self.now status receives.now queues.old.items) }
    {
        let requests = self.failed_requests(alloc, status)?;
        complete(queues, self.send_queue, &requests)?;
        let receives = flushed(alloc, self.number, receives)?;
        complete(queues, self.receive_queue, &receives)
    }

    /// The entries of a queue that its work reserves.
    pub fn reserved_by(&self, queue: Name) -> u128
        ensures value { result ≡ reserved_by queue self.now }
        ensures small { result < 2 ^ 66 }
    {
        let requests = if self.send_queue == queue {
            self.untold_count() as u128
        } else {
            0
        };
        let receives = if self.receive_queue == queue {
            u128::from(self.in_use.is_some()) + self.unused.len() as u128
        } else {
            0
        };
        requests + receives
    }
}

/// Completions of receives that are flushed.
fn flushed(alloc: Global, number: u32, receives: &[Receive]) -> Result<Vec<Completion>, AllocError>
    ensures { IfOk result (λ v. v.items ≡ failed_receives number receives.now) }
{
    receives
        .iter()
        .map(|v| receive_done(number, *v, WcKind::Recv, WcStatus::Flush, 0, None))
        .collect(alloc)
}

/// The entries of a queue that the work of these ends reserves.
pub fn reserved(ends: &[End], queue: Name) -> u128
    ensures { result ≡ sum_by (reserved_by queue) ends.now }
{
    let mut total = 0;
    for end in ends {
        total += end.reserved_by(queue);
    }
    total
}
