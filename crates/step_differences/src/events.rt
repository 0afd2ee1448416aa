//! Where two events differ.

ghost use Rattle.std.specs.Prelude.{◌≡◌, ◌↔◌, IsTrue, true};
ghost use Rattle.step_differences.specs.Differing.{TellsApart};
ghost use Rattle.step_differences.specs.Kinds.{is_making, is_moving, is_owning, is_posting, is_timing, kind_of_event};

use crate::images::same_image;
use protocol::Event;
use rdma_types::Request;

/// The number of an event's kind.
fn kind_of(event: &Event) -> u64
    ensures { result ≡ kind_of_event event.now }
{
    match event {
        Event::MakeContext { .. } => 0,
        Event::MakeDomain { .. } => 1,
        Event::MakeRegion { .. } => 2,
        Event::MakeCq { .. } => 3,
        Event::MakeQp { .. } => 4,
        Event::Connect { .. } => 5,
        Event::DropRegion { .. } => 6,
        Event::Store { .. } => 7,
        Event::Load { .. } => 8,
        Event::PostSend { .. } => 9,
        Event::PostRecv { .. } => 10,
        Event::Poll { .. } => 11,
        Event::Transmit { .. } => 12,
        Event::Arrive { .. } => 13,
        Event::Expire { .. } => 14,
        Event::RnrOver { .. } => 15,
        Event::Stop { .. } => 16,
        Event::Restore { .. } => 17,
        Event::Release { .. } => 18,
    }
}

/// Equal events of making.
fn same_making(a: &Event, b: &Event) -> bool
    ensures { IsTrue result ↔ (is_making a.now ≡ true) × (a.now ≡ b.now) }
{
    match (a, b) {
        (Event::MakeContext { name: x }, Event::MakeContext { name: y }) => x == y,
        (Event::MakeDomain { name: x }, Event::MakeDomain { name: y }) => x == y,
        (
            Event::MakeRegion {
                name: x,
                domain: in_x,
                base: base_x,
                length: length_x,
                rights: rights_x,
            },
            Event::MakeRegion {
                name: y,
                domain: in_y,
                base: base_y,
                length: length_y,
                rights: rights_y,
            },
        ) => {
            x == y
                && in_x == in_y
                && base_x == base_y
                && length_x == length_y
                && rights_x == rights_y
        }
        (
            Event::MakeQp {
                name: x,
                domain: in_x,
                send_cq: send_x,
                recv_cq: recv_x,
                send_depth: sends_x,
                recv_depth: recvs_x,
            },
            Event::MakeQp {
                name: y,
                domain: in_y,
                send_cq: send_y,
                recv_cq: recv_y,
                send_depth: sends_y,
                recv_depth: recvs_y,
            },
        ) => {
            x == y
                && in_x == in_y
                && send_x == send_y
                && recv_x == recv_y
                && sends_x == sends_y
                && recvs_x == recvs_y
        }
        (
            Event::MakeCq {
                name: x,
                capacity: m,
            },
            Event::MakeCq {
                name: y,
                capacity: n,
            },
        ) => x == y && m == n,
        _ => false,
    }
}

/// Equal events of an owner of memory and of queues.
fn same_owning(a: &Event, b: &Event) -> bool
    ensures { IsTrue result ↔ (is_owning a.now ≡ true) × (a.now ≡ b.now) }
{
    match (a, b) {
        (
            Event::Connect {
                end: x,
                peer: m,
                partner: to_x,
                terms: terms_x,
            },
            Event::Connect {
                end: y,
                peer: n,
                partner: to_y,
                terms: terms_y,
            },
        ) => x == y && m == n && to_x == to_y && terms_x == terms_y,
        (Event::DropRegion { name: x }, Event::DropRegion { name: y }) => x == y,
        (
            Event::Store {
                region: x,
                at: m,
                bytes: left,
            },
            Event::Store {
                region: y,
                at: n,
                bytes: right,
            },
        ) => x == y && m == n && left.as_slice() == right.as_slice(),
        (
            Event::Load {
                region: x,
                at: m,
                length: k,
            },
            Event::Load {
                region: y,
                at: n,
                length: l,
            },
        ) => x == y && m == n && k == l,
        (Event::Poll { cq: x, max: m }, Event::Poll { cq: y, max: n }) => x == y && m == n,
        _ => false,
    }
}

/// Equal requests.
fn same_request(a: &Request, b: &Request) -> bool
    ensures { IsTrue result ↔ (a.now ≡ b.now) }
{
    a == b
}

/// Equal postings.
fn same_posting(a: &Event, b: &Event) -> bool
    ensures { IsTrue result ↔ (is_posting a.now ≡ true) × (a.now ≡ b.now) }
{
    match (a, b) {
        (Event::PostSend { end: x, request: r }, Event::PostSend { end: y, request: s }) => x == y
            && same_request(r, s),
        (Event::PostRecv { end: x, receive: r }, Event::PostRecv { end: y, receive: s }) => x == y
            && r == s,
        _ => false,
    }
}

/// Equal transmissions and timers.
fn same_timing(a: &Event, b: &Event) -> bool
    ensures { IsTrue result ↔ (is_timing a.now ≡ true) × (a.now ≡ b.now) }
{
    match (a, b) {
        (Event::Transmit { end: x }, Event::Transmit { end: y }) => x == y,
        (Event::Expire { end: x }, Event::Expire { end: y }) => x == y,
        (Event::RnrOver { end: x }, Event::RnrOver { end: y }) => x == y,
        _ => false,
    }
}

/// Equal arrivals and moves.
fn same_moving(a: &Event, b: &Event) -> bool
    ensures { IsTrue result ↔ (is_moving a.now ≡ true) × (a.now ≡ b.now) }
{
    match (a, b) {
        (
            Event::Arrive {
                from: x,
                bytes: left,
            },
            Event::Arrive {
                from: y,
                bytes: right,
            },
        ) => x == y && left.as_slice() == right.as_slice(),
        (
            Event::Stop {
                context: x,
                alone: m,
            },
            Event::Stop {
                context: y,
                alone: n,
            },
        ) => x == y && m == n,
        (Event::Restore { image: x }, Event::Restore { image: y }) => same_image(x, y),
        (Event::Release { context: x }, Event::Release { context: y }) => x == y,
        _ => false,
    }
}

/// Equal events.
#[tactic(auto, using(crate::proofs::Groups::event_groups))]
fn same_event(a: &Event, b: &Event) -> bool
    ensures { IsTrue result ↔ (a.now ≡ b.now) }
{
    same_posting(a, b)
        || same_timing(a, b)
        || same_moving(a, b)
        || same_owning(a, b)
        || same_making(a, b)
}

/// Two values that tell two events apart: the numbers of their kinds where these differ, and else 0 and 1. None where
/// the events are equal.
pub fn event_difference(a: &Event, b: &Event) -> Option<(u64, u64)>
    ensures { TellsApart a.now b.now result }
{
    let (left, right) = (kind_of(a), kind_of(b));
    if left != right {
        Some((left, right))
    } else if same_event(a, b) {
        None
    } else {
        Some((0, 1))
    }
}
