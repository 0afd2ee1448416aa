//! What a line asks for.

ghost use Rattle.std.specs.Prelude.{◌≡◌};
ghost use Rattle.law_headline.specs.Does as rules;
ghost use Rattle.script_runner.specs.Actions.{happening_by};

use protocol::{Event, WorldEvent};
use rdma_types::Name;
use script_lang::Line;
use verb_events::event_of;

/// What a line asks for that is not blank.
#[derive(Drop)]
pub enum Action {
    Event(WorldEvent),
    /// The dump of a carried context is shown.
    Dump(Name),
    Settle,
}

/// An event of the device where its context lives.
fn at(event: Event) -> WorldEvent
    ensures { result ≡ WorldEvent.At event }
{
    WorldEvent::At { event }
}

/// What a line asks for; a blank line asks for nothing.
#[inline(always)]
pub fn action_of(line: Line) -> Option<Action>
    ensures { happening_by result ≡ rules.happening_of line }
{
    let event = match line {
        Line::Blank => return None,
        Line::Dump(name) => return Some(Action::Dump(name)),
        Line::Settle => return Some(Action::Settle),
        Line::Verb(verb) => event_of(verb)?,
        Line::Device { id, address } => WorldEvent::AddDevice { id, address },
        Line::Context { name, device } => WorldEvent::MakeContext { name, device },
        Line::Go(end) => at(Event::Transmit { end }),
        Line::Expire(end) => at(Event::Expire { end }),
        Line::Rnr(end) => at(Event::RnrOver { end }),
        Line::Deliver(k) => WorldEvent::Deliver { k },
        Line::Lose(k) => WorldEvent::Lose { k },
        Line::Wire(k) => WorldEvent::Wire { k },
        Line::Stop(context) => WorldEvent::Stop { context },
        Line::Restore { name, device } => WorldEvent::Restore {
            context: name,
            device,
        },
        Line::Release { name, device } => WorldEvent::Release {
            context: name,
            device,
        },
    };
    Some(Action::Event(event))
}
