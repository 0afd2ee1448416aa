//! Laws of runs of the packetless machine. What comes once: completions with statuses 12 and 13, and the bytes of a message.
//! And isolation: who may change what a context holds.
//!
//! The functions do nothing. Each promises the law that it names.
#![tactic(auto)]

ghost use Rattle.packetless_machine.specs.declared.steps.MachineStep.TheVariants.{Expire, Wait};
ghost use Rattle.law_simulation.specs.Spent.{IsLastExpiry, IsLastWait};
ghost use Rattle.law_machine_runs.specs.Counted.{GrowsByOne, GrowsOnlyBy, is_retry_exceeded, is_rnr_exceeded};
ghost use Rattle.law_machine_runs.specs.Put.{PutOnce};

pub mod isolation;

/// At the machine only an expiry of an end whose counted expiries are all that it has gives completions with status 12, and only a
/// wait of an end whose counted waits are all that it has gives one with status 13. It gives exactly one, in the queue of that end's
/// requests, and no other queue has one more.
pub fn limits_are_counted()
    ensures expiries { GrowsOnlyBy is_retry_exceeded IsLastExpiry }
    ensures waits { GrowsOnlyBy is_rnr_exceeded IsLastWait }
    ensures one_expiry { GrowsByOne is_retry_exceeded IsLastExpiry (λ o. Expire o) }
    ensures one_wait { GrowsByOne is_rnr_exceeded IsLastWait (λ o. Wait o) }
{}

/// In each run of the machine a byte of a Write or Send that is in place was put there by one step and no more, and one that is not
/// was put by none.
pub fn bytes_are_put_once()
    ensures { PutOnce }
{}
