//! Completions of requests and receives.

ghost use Rattle.std.specs.Prelude.{◌≡◌, None};
ghost use Rattle.rdma_types.specs.Kinds.{completed_kind as kind_of_completion, receive_done, request_done};
ghost use Rattle.requester.specs.Sending.{bare};

use end_queues::work_queues::QueuedRequest;
use rdma_types::{Completion, Kind, Receive, WcKind, WcStatus};

/// The kind of completion of a request.
fn completed_kind(kind: Kind) -> WcKind
    ensures { result ≡ kind_of_completion kind }
{
    match kind {
        Kind::Write => WcKind::Write,
        Kind::Send => WcKind::Send,
        Kind::Read => WcKind::Read,
        Kind::CompareSwap => WcKind::CompareSwap,
        Kind::FetchAdd => WcKind::FetchAdd,
    }
}

/// The completion of a request of the queue pair with this number.
#[tactic(auto, unfolding(rdma_types::specs::Kinds::request_done))]
pub fn done(number: u32, p: &QueuedRequest, status: WcStatus, length: u32) -> Completion
    ensures { result ≡ request_done number (bare p.now) status length }
{
    Completion {
        qp: number,
        id: p.request.id,
        kind: completed_kind(p.request.shape.kind),
        status,
        length,
        imm: None,
    }
}

/// The completion of a receive that no message used to its end.
#[tactic(auto, unfolding(rdma_types::specs::Kinds::receive_done))]
pub fn received(number: u32, r: &Receive, status: WcStatus) -> Completion
    ensures { result ≡ receive_done number r.now WcKind.Recv status 0 None }
{
    Completion {
        qp: number,
        id: r.id,
        kind: WcKind::Recv,
        status,
        length: 0,
        imm: None,
    }
}
