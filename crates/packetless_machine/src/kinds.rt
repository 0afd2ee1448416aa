//! Kinds of requests, and the completions of requests and receives.
#![tactic(auto, unfolding(rdma_types::specs::Kinds::request_done, rdma_types::specs::Kinds::receive_done, crate::specs::Steps::right_for))]

ghost use Rattle.std.specs.Prelude.{◌≡◌};
ghost use Rattle.rdma_types.specs.Kinds.{completed_kind, request_done, receive_done, lands, is_atomic, is_read, is_send, is_write};
ghost use Rattle.packetless_machine.specs.Steps.{right_for};
ghost use Rattle.packetless_machine.specs.Keyed.{right_of};

use crate::posted::IdealRequest;
use crate::region::Need;
use rdma_types::{Completion, Kind, Receive, WcKind, WcStatus};

/// Bytes or an old value land in its local place.
pub fn lands(kind: Kind) -> bool
    ensures { result ≡ lands kind }
{
    match kind {
        Kind::Write | Kind::Send => false,
        Kind::Read | Kind::CompareSwap | Kind::FetchAdd => true,
    }
}

/// Whether it is a CompareSwap or a FetchAdd.
pub fn is_atomic(kind: Kind) -> bool
    ensures { result ≡ is_atomic kind }
{
    match kind {
        Kind::Write | Kind::Send | Kind::Read => false,
        Kind::CompareSwap | Kind::FetchAdd => true,
    }
}

/// Whether it is a Read.
pub fn is_read(kind: Kind) -> bool
    ensures { result ≡ is_read kind }
{
    match kind {
        Kind::Read => true,
        Kind::Write | Kind::Send | Kind::CompareSwap | Kind::FetchAdd => false,
    }
}

/// Whether it is a Send.
pub fn is_send(kind: Kind) -> bool
    ensures { result ≡ is_send kind }
{
    match kind {
        Kind::Send => true,
        Kind::Write | Kind::Read | Kind::CompareSwap | Kind::FetchAdd => false,
    }
}

/// Whether it is a Write.
pub fn is_write(kind: Kind) -> bool
    ensures { result ≡ is_write kind }
{
    match kind {
        Kind::Write => true,
        Kind::Send | Kind::Read | Kind::CompareSwap | Kind::FetchAdd => false,
    }
}

/// The right that a request needs at its peer.
pub fn need_of(kind: Kind) -> Need
    ensures { right_of result ≡ right_for kind }
{
    match kind {
        Kind::Write => Need::RemoteWrite,
        Kind::Send => Need::Nothing,
        Kind::Read => Need::RemoteRead,
        Kind::CompareSwap | Kind::FetchAdd => Need::RemoteAtomic,
    }
}

fn completed_kind(kind: Kind) -> WcKind
    ensures { result ≡ completed_kind kind }
{
    match kind {
        Kind::Write => WcKind::Write,
        Kind::Send => WcKind::Send,
        Kind::Read => WcKind::Read,
        Kind::CompareSwap => WcKind::CompareSwap,
        Kind::FetchAdd => WcKind::FetchAdd,
    }
}

/// The completion of a request of the end with that number.
pub fn request_done(number: u32, r: &IdealRequest, status: WcStatus, length: u32) -> Completion
    ensures { result ≡ request_done number r.now status length }
{
    let request = r.request;
    Completion {
        qp: number,
        id: request.id,
        kind: completed_kind(request.shape.kind),
        status,
        length,
        imm: None,
    }
}

/// The completion of a receive of the end with that number.
pub fn receive_done(
    number: u32,
    v: Receive,
    kind: WcKind,
    status: WcStatus,
    length: u32,
    imm: Option<u32>,
) -> Completion
    ensures { result ≡ receive_done number v kind status length imm }
{
    Completion {
        qp: number,
        id: v.id,
        kind,
        status,
        length,
        imm,
    }
}
