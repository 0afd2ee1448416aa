//! Verbs of events, and what they give.
#![tactic(auto)]

ghost use Rattle.std.specs.Prelude.{◌≡◌};
ghost use Rattle.law_simulation.specs.Kept as kept;
ghost use Rattle.law_simulation.specs.Named as named;
ghost use Rattle.protocol.specs.State as state;
ghost use Rattle.trace_record.specs.Events.{made_by};

use protocol::WorldEvent;
use rdma_types::{Answer, Refusal, Verb};
use verb_events::verb_in;

/// The verb that an event is; `made` says whether the device of a new context was there.
#[tactic(auto, unfolding(law_simulation::specs::Kept::verb_of))]
pub(crate) fn verb_of(event: WorldEvent, made: bool) -> Option<Verb>
    ensures { (w : state.World) → made ≡ made_by w event → result ≡ kept.verb_of w event }
{
    match event {
        WorldEvent::MakeContext { name, .. } => Some(Verb::Context { name, made }),
        WorldEvent::At { event } => verb_in(event),
        WorldEvent::Connect { one, two, terms } => Some(Verb::Connect { one, two, terms }),
        _ => None,
    }
}

/// Whether the packetless machine does not know the reason of a refusal.
#[tactic(auto, unfolding(law_simulation::specs::Kept::is_unmade_by))]
fn is_unknown(refusal: Refusal) -> bool
    ensures { result ≡ kept.is_unmade_by refusal }
{
    match refusal {
        Refusal::Stopped | Refusal::TooMany | Refusal::NoPage => true,
        _ => false,
    }
}

/// Whether the answer is a refusal for a reason that the packetless machine does not know: the verb counts as not made.
#[tactic(auto, unfolding(law_simulation::specs::Kept::is_unmade))]
pub(crate) fn is_unmade(answer: &Answer) -> bool
    ensures { result ≡ kept.is_unmade answer.now }
{
    match answer {
        Answer::Refused(refusal) => is_unknown(*refusal),
        _ => false,
    }
}

/// The local key or the number that an answer gives, and 0 where it gives none.
pub(crate) fn given_in(answer: &Answer) -> u32
    ensures { result ≡ named.given_in answer.now }
{
    match answer {
        Answer::Region(keys) => keys.local,
        Answer::Qp(number) => *number,
        _ => 0,
    }
}
