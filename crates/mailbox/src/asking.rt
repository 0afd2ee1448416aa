//! A context is asked for something.

ghost use Rattle.std.specs.Prelude.{◌≡◌, IfOk, OnErr};
ghost use Rattle.protocol.specs.Events.{IsHandedOn, IsLawfulEvent};
ghost use Rattle.protocol.specs.WorldStep.{world_step};
ghost use Rattle.protocol.specs.declared.events.WorldEvent.TheVariants as world_event;
ghost use Rattle.mailbox_rules.specs.Working as rules;
ghost use Rattle.mailbox.specs.Steps.{IsAsked};

use rdma_types::{Answer, Refusal};
use std::alloc::{AllocError, Global};
use world_core::{Event, World, WorldEvent};

/// A context is asked for something.
pub(crate) fn ask(alloc: Global, world: &mut World, event: Event) -> Result<Answer, AllocError>
    requires { IsHandedOn event × IsLawfulEvent event }
    ensures own { IfOk result (λ answer. answer
        ≡ (world_step world.old (world_event.At event)).answer) }
    ensures ok { IfOk result (λ answer. IsAsked world.old world.new event answer) }
    ensures err { OnErr result (world.new ≡ world.old) }
{
    world.step(alloc, &WorldEvent::At { event })
}

/// Whether a posting was refused since the packet numbers of its end are used up.
pub(crate) fn is_too_many(answer: &Answer) -> bool
    ensures { result ≡ rules.is_too_many answer.now }
{
    matches!(answer, Answer::Refused(Refusal::TooMany))
}
