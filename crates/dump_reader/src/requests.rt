//! Untold requests.

ghost use Rattle.std.specs.Prelude.{◌≡◌, ℕ, ◌+◌, ◌*◌, ◌<◌, ◌≤◌, ◌^◌, ◌==◌, ◌&&◌, ◌||◌, not, length, [], nat_lt, nat_le, true, IfOk, IfNone, Some, None, if◌then◌else◌};
ghost use Rattle.rdma_types.specs.Kinds.{takes_bytes, is_atomic, lands};
ghost use Rattle.rdma_types.specs.Shapes.{has_remote, is_swap};
ghost use Rattle.rdma_types.specs.Memory.{is_granted, landing_right, local_key};
ghost use Rattle.protocol.specs.Dumps.{kind_of, has_flag, keeps_numbers, shape_of_length};
ghost use Rattle.dump_reader.specs.Latched.{Parsed, Reads};
ghost use Rattle.dump_reader.specs.Groups.{regions_of, link_of_head, may_be_flags, may_be_length, request_head_field, request_places_field, request_start_field, payload_length};

use crate::cursor::{Cursor, Offence};
use crate::fields::Fields;
use crate::heads::{LinkImageHead, RequestHead, RequestPosition};
use crate::places::{RangeQuery, Scope, is_place_granted};
use rdma_types::{Kind, Request, Shape};

fn takes(kind: Kind) -> bool
    ensures { result ≡ takes_bytes kind }
{
    matches!(kind, Kind::Write | Kind::Send)
}

fn is_atomic_kind(kind: Kind) -> bool
    ensures { result ≡ is_atomic kind }
{
    matches!(kind, Kind::CompareSwap | Kind::FetchAdd)
}

/// Bytes or an old value land at its local place.
pub fn lands_bytes(kind: Kind) -> bool
    ensures { result ≡ lands kind }
{
    matches!(kind, Kind::Read | Kind::CompareSwap | Kind::FetchAdd)
}

fn names_remote(kind: Kind) -> bool
    ensures { result ≡ has_remote kind }
{
    !matches!(kind, Kind::Send)
}

fn compares(kind: Kind) -> bool
    ensures { result ≡ is_swap kind }
{
    matches!(kind, Kind::CompareSwap)
}

fn kind_of_byte(n: u8) -> Kind
    ensures { result ≡ kind_of n }
{
    match n {
        0 => Kind::Write,
        1 => Kind::Send,
        2 => Kind::Read,
        3 => Kind::CompareSwap,
        _ => Kind::FetchAdd,
    }
}

fn flags_fit(standing: &RequestPosition, top: u64, kind: Kind, flags: u8) -> bool
    ensures { result
        ≡ may_be_flags standing.now.version top standing.now.low standing.now.landing kind flags }
{
    let imm = flags / 2 % 2 == 1;
    let fence = flags / 4 % 2 == 1;
    flags < 8
        && (!imm || takes(kind))
        && (!fence || standing.version == 2)
        && !(fence && standing.landing && standing.low < top)
}

/// How many numbers a request takes.
#[tactic(auto, unfolding(rdma_types::specs::Spans::span, rdma_types::specs::Spans::pieces))]
pub fn span_of(kind: Kind, length: u32, mtu: u32) -> u64
    ensures { result ≡ shape_of_length kind length mtu }
{
    if is_atomic_kind(kind) {
        return 1;
    }
    let (length, mtu) = (length as u64, mtu as u64);
    let pieces = (length + mtu.saturating_sub(1)).checked_div(mtu);
    1.max(pieces.unwrap_or(0))
}

fn keeps_order(link: &LinkImageHead, standing: &RequestPosition, kind: Kind, high: u64) -> bool
    ensures test { result
        ≡ keeps_numbers (link_of_head link.now []) standing.now.count standing.now.index kind
        standing.now.low high }
    ensures limit { result ≡ true → high < 2 ^ 62 }
{
    let numbers = &link.numbers;
    let inside = standing.low < numbers.next && numbers.next < high;
    high < 1 << 62
        && (standing.index != 0 || numbers.una < high)
        && !(kind == Kind::Read && inside && numbers.next != numbers.una)
        && ((standing.index as u32 + 1) < standing.count as u32 || numbers.top <= high)
}

fn size_fits(kind: Kind, length: u32) -> bool
    ensures { result ≡ (if is_atomic kind then length == 8 else nat_le length 1048576) }
{
    if is_atomic_kind(kind) {
        length == 8
    } else {
        length <= 1_048_576
    }
}

fn length_fits(link: &LinkImageHead, standing: &RequestPosition, kind: Kind, length: u32) -> bool
    ensures test { result
        ≡ may_be_length (link_of_head link.now []) standing.now.count standing.now.index
        standing.now.low kind length }
    ensures limit { result ≡ true → standing.now.low
        + shape_of_length kind length link.now.terms.mtu < 2 ^ 62 }
{
    let span = span_of(kind, length, link.terms.mtu);
    match standing.low.checked_add(span) {
        Some(high) => size_fits(kind, length) && keeps_order(link, standing, kind, high),
        None => false,
    }
}

/// A request up to its length. Faults: `Short` or `Field`.
fn read_request_head(
    fields: &mut Fields<'_>,
    link: &LinkImageHead,
    standing: &RequestPosition,
) -> RequestHead
    ensures head { Reads (request_head_field standing.now.version
        (link_of_head link.now []) standing.now.count standing.now.index standing.now.low
        standing.now.landing) fields.old fields.new result }
    ensures limit { IfNone fields.new.fault (standing.now.low
        + shape_of_length result.kind result.length link.now.terms.mtu < 2 ^ 62) }
{
    let id = fields.u64();
    let code = fields.u8_up_to(4);
    let kind = kind_of_byte(code);
    let flags = fields.u8();
    fields.keep(flags_fit(standing, link.numbers.top, kind, flags));
    let imm = fields.u32_if(flags / 2 % 2 == 1);
    let length = fields.u32();
    fields.keep(length_fits(link, standing, kind, length));
    RequestHead {
        id,
        kind,
        flags,
        imm,
        length,
    }
}

fn imm_of(head: &RequestHead) -> Option<u32>
    ensures { result ≡ (if has_flag 2 head.now.flags then Some head.now.imm else None) }
{
    let _flags = head.flags;
    if head.flags / 2 % 2 == 1 {
        Some(head.imm)
    } else {
        None
    }
}

fn may_stand(scope: &Scope<'_>, head: &RequestHead, lkey: u32, at: u64) -> bool
    ensures { result
        ≡ is_granted local_key (regions_of scope.now.domains.now scope.now.regions.now)
        scope.now.domain.now lkey at head.now.length (landing_right head.now.kind) }
{
    let asked = RangeQuery {
        lkey,
        at,
        count: head.length,
        lands: lands_bytes(head.kind),
    };
    is_place_granted(scope, &asked)
}

/// The places and operands of a request. Faults: `Short` or `Field`.
fn read_request_places(fields: &mut Fields<'_>, scope: &Scope<'_>, head: &RequestHead) -> Request
    ensures kind { result.shape.kind ≡ head.now.kind }
    ensures length { result.shape.length ≡ head.now.length }
    ensures request { Reads (request_places_field
        (regions_of scope.now.domains.now scope.now.regions.now) scope.now.domain.now head.now)
        fields.old fields.new result }
{
    let kind = head.kind;
    let lkey = fields.u32();
    let local = fields.u64();
    fields.keep(may_stand(scope, head, lkey, local));
    let remote = fields.u64_if(names_remote(kind));
    let rkey = fields.u32_if(names_remote(kind));
    let swap_add = fields.u64_if(is_atomic_kind(kind));
    let compare = fields.u64_if(compares(kind));
    let flags = head.flags;
    let shape = Shape {
        kind,
        length: head.length,
        remote,
        rkey,
        imm: imm_of(head),
        swap_add,
        compare,
    };
    Request {
        id: head.id,
        shape,
        lkey,
        local,
        signaled: flags % 2 == 1,
        fence: flags / 4 % 2 == 1,
    }
}

/// A request up to its payload. Errors: the first fault of its fields, with its place: `Short` or `Field`.
pub fn read_request(
    c: &mut Cursor<'_>,
    link: &LinkImageHead,
    standing: &RequestPosition,
    scope: &Scope<'_>,
) -> Result<Request, Offence>
    ensures request { Parsed (request_start_field standing.now (link_of_head link.now [])
        (regions_of scope.now.domains.now scope.now.regions.now) scope.now.domain.now) c.old c.new
        result }
    ensures limit { IfOk result (λ r. standing.now.low
        + shape_of_length r.shape.kind r.shape.length link.now.terms.mtu < 2 ^ 62) }
{
    let mut fields = Fields::of(c);
    let head = read_request_head(&mut fields, link, standing);
    let request = read_request_places(&mut fields, scope, &head);
    fields.end(c, request)
}

/// How many bytes a request took.
pub fn payload_len(request: &Request) -> u32
    ensures { result ≡ payload_length request.now }
{
    let _length = request.shape.length;
    if takes(request.shape.kind) {
        request.shape.length
    } else {
        0
    }
}
