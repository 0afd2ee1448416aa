//! Events that workers and the mover ask for.

ghost use Rattle.std.specs.Prelude.{◌≡◌, IsTrue, true, codes};
ghost use Rattle.law_simulation.specs.Law.{IsRequestInRange};
ghost use Rattle.order_rules.specs.Bridge.{IsAskable, is_work};
ghost use Rattle.order_rules.specs.Work.{is_fetch_add};

use protocol::Event;
use rdma_types::{Kind, Name, Request};

/// The context a.
fn name_a() -> Name
    ensures { result ≡ codes "a" }
{
    Name::read(b"a").unwrap()
}

/// The context b.
pub fn name_b() -> Name
    ensures { result ≡ codes "b" }
{
    Name::read(b"b").unwrap()
}

/// Whether a request is an addition, with the fields that each has.
fn is_whole_addition(request: Request) -> bool
    ensures { IsTrue result → IsRequestInRange request × (is_fetch_add request.shape.kind ≡ true) }
{
    request.shape.kind == Kind::FetchAdd && request.shape.length == 8 && request.shape.compare == 0
}

/// Whether workers and the mover ask for this event at the device with that id, and its fields are in their ranges.
pub fn is_asked(device: u8, event: &Event) -> bool
    ensures { IsTrue result → (is_work device event.now ≡ true) × IsAskable event.now }
{
    match event {
        Event::PostSend { end, request } => {
            device == 1 && end.context == name_a() && is_whole_addition(*request)
        }
        Event::Poll { cq, .. } => device == 1 && cq.context == name_a(),
        Event::Stop { context, .. } => *context == name_b(),
        Event::Transmit { .. }
        | Event::Arrive { .. }
        | Event::Expire { .. }
        | Event::RnrOver { .. }
        | Event::Restore { .. }
        | Event::Release { .. } => true,
        _ => false,
    }
}
