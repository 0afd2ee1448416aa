//! What is asked: events that threads may ask for, and requests that a device takes.

ghost use Rattle.std.specs.Prelude.{◌≡◌};
ghost use Rattle.rdma_types.specs.Kinds as kinds;
ghost use Rattle.rdma_types.specs.Shapes as shapes;
ghost use Rattle.law_orders.specs.Asked as asked;

use protocol::Event;
use rdma_types::{Kind, Request, Rights, Shape};

/// Bytes of a region at most.
const MOST_REGION_BYTES: u32 = 16_777_216;

/// Entries of a completion queue at most.
const MOST_CAPACITY: u32 = 16_384;

/// Requests or receives of a queue at most.
const MOST_DEPTH: u32 = 256;

/// A compare and swap, or an addition.
fn is_atomic(kind: Kind) -> bool
    ensures { result ≡ kinds.is_atomic kind }
{
    matches!(kind, Kind::CompareSwap | Kind::FetchAdd)
}

/// A compare and swap.
fn is_swap(kind: Kind) -> bool
    ensures { result ≡ shapes.is_swap kind }
{
    matches!(kind, Kind::CompareSwap)
}

/// Its bytes are taken as it is posted.
fn takes_bytes(kind: Kind) -> bool
    ensures { result ≡ kinds.takes_bytes kind }
{
    matches!(kind, Kind::Write | Kind::Send)
}

/// All but a Send have a place at the partner.
fn has_remote(kind: Kind) -> bool
    ensures { result ≡ shapes.has_remote kind }
{
    !matches!(kind, Kind::Send)
}

/// Whether only a compare and swap has a compare value, and an atomic is of one word.
fn has_fields_of_kind(shape: Shape) -> bool
    ensures { result ≡ asked.has_fields_of_kind shape }
{
    (is_swap(shape.kind) || shape.compare == 0) && (!is_atomic(shape.kind) || shape.length == 8)
}

/// Whether the fields of a request are in their ranges.
fn is_request_in_range(request: Request) -> bool
    ensures { result ≡ asked.is_request_in_range request }
{
    has_fields_of_kind(request.shape)
}

/// Whether the bytes of a store are in their ranges, which their type says.
fn are_bytes(bytes: &[u8]) -> bool
    ensures { result ≡ asked.are_bytes bytes.now }
{
    let _ = bytes;
    true
}

/// Whether a region may have this base, this length and these rights.
fn is_region(base: u64, length: u32, rights: Rights) -> bool
    ensures { result ≡ asked.is_region base length rights.0 }
{
    length >= 1 && length <= MOST_REGION_BYTES && base <= 1 << 63 && rights.0 < 16
}

/// Whether a queue may have this depth.
fn is_depth(depth: u32) -> bool
    ensures { result ≡ asked.is_depth depth }
{
    depth >= 1 && depth <= MOST_DEPTH
}

/// Whether threads may ask for an event: it connects no end alone, and its fields are in their ranges.
pub fn is_askable(event: &Event) -> bool
    ensures { result ≡ asked.is_askable event.now }
{
    match event {
        Event::Connect { .. } => false,
        Event::MakeRegion {
            base,
            length,
            rights,
            ..
        } => is_region(*base, *length, *rights),
        Event::MakeCq { capacity, .. } => *capacity >= 1 && *capacity <= MOST_CAPACITY,
        Event::MakeQp {
            send_depth,
            recv_depth,
            ..
        } => is_depth(*send_depth) && is_depth(*recv_depth),
        Event::Store { bytes, .. } => are_bytes(bytes.as_slice()),
        Event::PostSend { request, .. } => is_request_in_range(*request),
        _ => true,
    }
}

/// Whether what the kind does not use is 0 or None, and an atomic has length 8.
fn is_lawful_shape(shape: Shape) -> bool
    ensures { result ≡ asked.is_lawful_shape shape }
{
    let kind = shape.kind;
    (!is_atomic(kind) || shape.length == 8)
        && (takes_bytes(kind) || shape.imm.is_none())
        && (has_remote(kind) || shape.remote == 0 && shape.rkey == 0)
        && (is_atomic(kind) || shape.swap_add == 0)
        && (is_swap(kind) || shape.compare == 0)
}

/// Whether an event posts no request of another shape.
pub fn is_lawfully_posted(event: &Event) -> bool
    ensures { result ≡ asked.is_lawfully_posted event.now }
{
    match event {
        Event::PostSend { request, .. } => is_lawful_shape(request.shape),
        _ => true,
    }
}
