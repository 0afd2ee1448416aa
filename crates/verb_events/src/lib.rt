//! Verbs as events of a world, and events of a device as verbs.
#![tactic(auto)]

ghost use Rattle.std.specs.Prelude.{◌≡◌, IfSome};
ghost use Rattle.law_headline.specs.Does as rules;
ghost use Rattle.law_simulation.specs.Kept as kept;
ghost use Rattle.protocol.specs.Events.{IsLawfulWorldEvent};
ghost use Rattle.script_lang.specs.Ranges.{IsLawfulVerb};

use protocol::{Event, WorldEvent};
use rdma_types::Verb;

/// The event of a world that a verb is. A new context has none, since its verb names no device.
#[inline(always)]
pub fn event_of(verb: Verb) -> Option<WorldEvent>
    ensures event { result ≡ rules.event_of verb }
    ensures lawful { IsLawfulVerb verb → IfSome result IsLawfulWorldEvent }
{
    let event = match verb {
        Verb::Context { .. } => return None,
        Verb::Connect { one, two, terms } => {
            return Some(WorldEvent::Connect { one, two, terms });
        }
        Verb::MakeDomain { name } => Event::MakeDomain { name },
        Verb::MakeRegion {
            name,
            domain,
            base,
            length,
            rights,
        } => Event::MakeRegion {
            name,
            domain,
            base,
            length,
            rights,
        },
        Verb::MakeCq { name, capacity } => Event::MakeCq { name, capacity },
        Verb::MakeQp {
            name,
            domain,
            send_cq,
            recv_cq,
            send_depth,
            recv_depth,
        } => Event::MakeQp {
            name,
            domain,
            send_cq,
            recv_cq,
            send_depth,
            recv_depth,
        },
        Verb::DropRegion { name } => Event::DropRegion { name },
        Verb::Store { region, at, bytes } => Event::Store { region, at, bytes },
        Verb::Load { region, at, length } => Event::Load { region, at, length },
        Verb::PostSend { end, request } => Event::PostSend { end, request },
        Verb::PostRecv { end, receive } => Event::PostRecv { end, receive },
        Verb::Poll { cq, max } => Event::Poll { cq, max },
    };
    Some(WorldEvent::At { event })
}

/// The verb that a device's event is.
#[tactic(auto, unfolding(law_simulation::specs::Kept::verb_in))]
pub fn verb_in(event: Event) -> Option<Verb>
    ensures { result ≡ kept.verb_in event }
{
    let verb = match event {
        Event::MakeDomain { name } => Verb::MakeDomain { name },
        Event::MakeRegion {
            name,
            domain,
            base,
            length,
            rights,
        } => Verb::MakeRegion {
            name,
            domain,
            base,
            length,
            rights,
        },
        Event::MakeCq { name, capacity } => Verb::MakeCq { name, capacity },
        Event::MakeQp {
            name,
            domain,
            send_cq,
            recv_cq,
            send_depth,
            recv_depth,
        } => Verb::MakeQp {
            name,
            domain,
            send_cq,
            recv_cq,
            send_depth,
            recv_depth,
        },
        Event::DropRegion { name } => Verb::DropRegion { name },
        Event::Store { region, at, bytes } => Verb::Store { region, at, bytes },
        Event::Load { region, at, length } => Verb::Load { region, at, length },
        Event::PostSend { end, request } => Verb::PostSend { end, request },
        Event::PostRecv { end, receive } => Verb::PostRecv { end, receive },
        Event::Poll { cq, max } => Verb::Poll { cq, max },
        _ => return None,
    };
    Some(verb)
}
