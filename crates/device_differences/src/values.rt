//! Plain values as arrays of numbers, in the order of their fields.

ghost use Rattle.std.specs.Prelude.{◌≡◌, []};
ghost use Rattle.memory_keys.specs.Regions.{blank_region};
ghost use Rattle.transport.specs.Table.{moving_of, phase_of};
ghost use Rattle.requester.specs.Sending.{sender_with};
ghost use Rattle.responder.specs.Receiving.{progress_of, receiver_of};
ghost use Rattle.device_differences.specs.Numbers.{flag as flag_code, has_number as is_there, number_in as number_of, kind_code as code_of_kind, wc_kind_code as code_of_wc_kind, status_code as code_of_status, phase_code as code_of_phase, numbers_of_receive, numbers_of_request, numbers_of_completion, numbers_of_region, numbers_of_terms, numbers_of_moving, numbers_of_sender, numbers_of_progress, numbers_of_receiver};

use memory_keys::RegionHead;
use rdma_types::{Completion, Kind, Receive, Request, Terms, WcKind, WcStatus};
use requester::RequesterParts;
use responder::{Flow, ResponderParts};
use transport::move_core::{MoveState, Phase};

/// A flag: 1 where it is set.
pub fn flag(is: bool) -> u64
    ensures { result ≡ flag_code is }
{
    if is { 1 } else { 0 }
}

/// Whether a number is there.
fn has_number(number: Option<u32>) -> u64
    ensures { result ≡ is_there number }
{
    flag(number.is_some())
}

/// A number that may be there, and else 0.
fn number_in(number: Option<u32>) -> u64
    ensures { result ≡ number_of number }
{
    u64::from(number.unwrap_or(0))
}

/// The kind of a request.
fn kind_code(kind: Kind) -> u64
    ensures { result ≡ code_of_kind kind }
{
    match kind {
        Kind::Write => 0,
        Kind::Send => 1,
        Kind::Read => 2,
        Kind::CompareSwap => 3,
        Kind::FetchAdd => 4,
    }
}

/// The kind of a completion.
fn wc_kind_code(kind: WcKind) -> u64
    ensures { result ≡ code_of_wc_kind kind }
{
    match kind {
        WcKind::Write => 0,
        WcKind::Send => 1,
        WcKind::Read => 2,
        WcKind::CompareSwap => 3,
        WcKind::FetchAdd => 4,
        WcKind::Recv => 5,
        WcKind::RecvImm => 6,
    }
}

/// How work ended, by its number (IBA chapter 11).
fn status_code(status: WcStatus) -> u64
    ensures { result ≡ code_of_status status }
{
    match status {
        WcStatus::Success => 0,
        WcStatus::LocalLength => 1,
        WcStatus::Flush => 5,
        WcStatus::RemoteInvalid => 9,
        WcStatus::RemoteAccess => 10,
        WcStatus::RetryExceeded => 12,
        WcStatus::RnrExceeded => 13,
    }
}

/// A phase of moving.
fn phase_code(phase: Phase) -> u64
    ensures { result ≡ code_of_phase (phase_of phase) }
{
    match phase {
        Phase::Running => 0,
        Phase::Paused => 1,
        Phase::Resuming => 2,
    }
}

/// A receive.
pub fn receive_numbers(r: &Receive) -> [u64; 4]
    ensures { result ≡ numbers_of_receive r.now }
{
    [r.id, u64::from(r.lkey), r.local, u64::from(r.length)]
}

/// A request.
pub fn request_numbers(r: &Request) -> [u64; 13]
    ensures { result ≡ numbers_of_request r.now }
{
    [
        r.id,
        kind_code(r.shape.kind),
        u64::from(r.shape.length),
        r.shape.remote,
        u64::from(r.shape.rkey),
        has_number(r.shape.imm),
        number_in(r.shape.imm),
        r.shape.swap_add,
        r.shape.compare,
        u64::from(r.lkey),
        r.local,
        flag(r.signaled),
        flag(r.fence),
    ]
}

/// A completion.
pub fn completion_numbers(c: &Completion) -> [u64; 7]
    ensures { result ≡ numbers_of_completion c.now }
{
    [
        u64::from(c.qp),
        c.id,
        wc_kind_code(c.kind),
        status_code(c.status),
        u64::from(c.length),
        has_number(c.imm),
        number_in(c.imm),
    ]
}

/// A region, but for its names and its bytes.
pub fn region_numbers(r: &RegionHead) -> [u64; 5]
    ensures { result ≡ numbers_of_region (blank_region r.now) }
{
    [
        r.base,
        u64::from(r.length),
        u64::from(r.rights.0),
        u64::from(r.keys.local),
        u64::from(r.keys.remote),
    ]
}

/// The terms of a connection.
pub fn terms_numbers(t: &Terms) -> [u64; 6]
    ensures { result ≡ numbers_of_terms t.now }
{
    [
        u64::from(t.mtu),
        u64::from(t.own_start),
        u64::from(t.peer_start),
        u64::from(t.retry),
        u64::from(t.rnr),
        u64::from(t.reads),
    ]
}

/// How far an end and its partner have moved.
pub fn moving_numbers(m: &MoveState) -> [u64; 5]
    ensures { result ≡ numbers_of_moving (moving_of m.now) }
{
    [
        phase_code(m.phase),
        u64::from(m.own),
        u64::from(m.recorded),
        u64::from(m.partner.ip),
        u64::from(m.partner.port),
    ]
}

/// A requester, but for its requests.
pub fn sender_numbers(n: &RequesterParts) -> [u64; 7]
    ensures { result ≡ numbers_of_sender (sender_with [] n.now) }
{
    [
        n.first,
        n.una,
        n.next,
        n.top,
        u64::from(n.spent),
        u64::from(n.waits),
        flag(n.rnr_wait),
    ]
}

/// A responder, but for its message in progress and the kept replies.
pub fn receiver_numbers(r: &ResponderParts) -> [u64; 3]
    ensures { result ≡ numbers_of_receiver (receiver_of r.now []) }
{
    [r.expected, flag(r.nak_sent), u64::from(r.msn)]
}

/// A message in progress.
pub fn progress_numbers(flow: &Flow) -> [u64; 6]
    ensures { result ≡ numbers_of_progress (progress_of flow.now) }
{
    match flow {
        Flow::Idle => [0; 6],
        Flow::Send { done, receive: r } => [
            1,
            u64::from(*done),
            r.id,
            u64::from(r.lkey),
            r.local,
            u64::from(r.length),
        ],
        Flow::Write { spot, done } => [
            2,
            u64::from(spot.region),
            u64::from(spot.off),
            u64::from(spot.length),
            u64::from(*done),
            0,
        ],
    }
}
