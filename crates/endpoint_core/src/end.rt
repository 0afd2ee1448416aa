//! An end and its connection.

use end_queues::work_queues::{RecvQueue, SendQueue};
use rdma_types::{Name, Terms};
use requester::Requester;
use responder::Responder;
use transport::move_core::MoveState;

/// A queue pair. `unlinked` is there exactly until it is connected, and `link` from then on.
#[derive(Drop)]
pub struct Endpoint {
    pub number: u32,
    pub domain: Name,
    pub send_depth: u32,
    pub recv_depth: u32,
    /// The posted receives that no message uses yet.
    pub recvs: RecvQueue,
    /// The send queue, before it is connected.
    pub unlinked: Option<SendQueue>,
    pub link: Option<EndLink>,
}

/// What a connected end has besides.
#[derive(Drop)]
pub struct EndLink {
    /// The partner's queue pair number.
    pub peer: u32,
    pub terms: Terms,
    /// It is in Error.
    pub ended: bool,
    pub requester: Requester,
    pub responder: Responder,
    pub moves: MoveState,
}
