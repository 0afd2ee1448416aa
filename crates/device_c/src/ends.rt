//! What is told of queue pairs of a device.

ghost use Rattle.std.specs.Prelude.{◌≡◌, Some};
ghost use Rattle.device_c.specs.Told as told;

use c_layout::codes::state_code;
use c_layout::layout::CEnd;
use c_layout::told::{bit, object_told};
use device_core::{Device, LinkView};
use rdma_types::{EndState, EndView};

/// Whether a queue pair sends requests: it is Running, and does not wait for the RNR timer.
fn runs(view: &EndView) -> bool
    ensures { result ≡ told.runs view.now }
{
    matches!(view.state, EndState::Running) && !view.rnr_wait
}

/// Whether a queue pair is Resuming.
fn is_resuming(state: EndState) -> bool
    ensures { result ≡ told.is_resuming state }
{
    matches!(state, EndState::Resuming)
}

/// What is told of a queue pair without a connection.
fn unconnected(view: &EndView) -> CEnd
    ensures { result ≡ told.end_by view.now None }
{
    CEnd {
        name: object_told(&view.name),
        una: view.una,
        next: view.next,
        last: 0,
        number: view.number,
        peer: view.peer,
        state: state_code(view.state),
        untold: view.untold,
        moves: 0,
        rnr: u32::from(view.rnr),
        rnr_wait: bit(view.rnr_wait),
        may_send: 0,
        in_flight: 0,
        reserved: 0,
    }
}

/// What is told of a queue pair with a connection.
fn connected(view: &EndView, link: &LinkView) -> CEnd
    ensures { result ≡ told.end_by view.now (Some link.now) }
{
    let runs = runs(view);
    CEnd {
        last: link.last,
        moves: u32::from(link.moves),
        may_send: bit(is_resuming(view.state) || runs && view.next < link.last),
        in_flight: bit(runs && view.una < view.next),
        ..unconnected(view)
    }
}

/// What is told of a queue pair of a device, where there is one.
pub(crate) fn end_told(device: &Device, view: Option<EndView>) -> Option<CEnd>
    ensures { result ≡ told.end_told device.now view }
{
    let view = view?;
    match device.link_named(&view.name) {
        Some(link) => Some(connected(&view, &link)),
        None => Some(unconnected(&view)),
    }
}
