//! Messages cut into packets: how many packets a request takes, where each piece stands, and what its headers say
//! (IBA 9.4 and 9.7).

ghost use Rattle.std.specs.Prelude.{◌≡◌, ℕ, List, zero, suc, ◌+◌, ◌-◌, ◌*◌, ◌%◌, ◌^◌, ◌<◌, ◌≤◌, ◌==◌, ◌&&◌, length, Some, None, is_some, if◌then◌else◌};
ghost use Rattle.rdma_types.specs.declared.requests.Shape.{Shape};
ghost use Rattle.rdma_types.specs.Objects.{Posted};
ghost use Rattle.rdma_types.specs.Kinds.{takes_bytes};
ghost use Rattle.rdma_types.specs.Spans.{pieces, span, piece_length};
ghost use Rattle.protocol.specs.Segments.{is_last_piece, opcode_of, packet_of_piece};
ghost use Rattle.protocol.specs.Bytes.{bytes_at};
ghost use Rattle.transport.specs.Heads.{Asks, packet_with};
ghost use Rattle.transport.specs.Cut.{front};

mod head;
mod kinds;
mod opcodes;

pub use head::PacketHead;
use rdma_types::Shape;

/// How many pieces a message of `length` bytes is cut into: one for each MTU begun, and one where there are no bytes.
pub fn pieces_of(length: u32, mtu: u32) -> u64
    requires { 0 < mtu }
    ensures enough { length ≤ result * mtu }
    ensures least { 1 < result → (result - 1) * mtu < length }
    ensures positive { 0 < result }
    ensures rule { result ≡ pieces length mtu }
{
    u64::from(length).div_ceil(u64::from(mtu)).max(1)
}

/// How many packet numbers a request takes: an atomic one, a Read as many as it has responses, and a Write or Send one
/// for each piece.
#[tactic(auto, using(crate::proofs::Pieces::pieces_positive), unfolding(rdma_types::specs::Spans::span))]
pub fn span_of(shape: &Shape, mtu: u32) -> u64
    requires { 0 < mtu }
    ensures rule { result ≡ span shape.now mtu }
    ensures within { result ≤ pieces shape.now.length mtu }
    ensures positive { 0 < result }
{
    if kinds::is_atomic(shape.kind) {
        1
    } else {
        pieces_of(shape.length, mtu)
    }
}

/// Where piece `k` of a message of `length` bytes begins, and how many bytes it has: the MTU, or what is left.
pub fn piece_at(length: u32, k: u64, mtu: u32) -> (u32, u32)
    requires mtu { 0 < mtu }
    requires inside { k < pieces length mtu }
    ensures offset { result.0 ≡ k * mtu }
    ensures length { result.1 ≡ piece_length length k mtu }
    ensures within { result.0 + result.1 ≤ length }
{
    let offset = (k * u64::from(mtu)) as u32;
    (offset, mtu.min(length - offset))
}

/// What the headers and the payload of packet `k` of a request say, which takes `count` numbers.
pub fn packet_of(shape: &Shape, k: u64, count: u64, mtu: u32) -> PacketHead
    requires mtu { 0 < mtu }
    requires count { count ≡ span shape.now mtu }
    requires inside { k < span shape.now mtu }
    ensures opcode { result.opcode ≡ opcode_of shape.now.kind (k == 0)
        (is_last_piece shape.now mtu k) (is_some result.imm) }
    ensures remote { result.remote ≡ (shape.now.remote + k * mtu) % 2 ^ 64 }
    ensures rest { result.rest ≡ shape.now.length - k * mtu }
    ensures imm { result.imm
        ≡ (if takes_bytes shape.now.kind && is_last_piece shape.now mtu k then shape.now.imm else None) }
    ensures off { result.off ≡ (if takes_bytes shape.now.kind then k * mtu else 0) }
    ensures length { result.length ≡ (if takes_bytes shape.now.kind
        then piece_length shape.now.length k mtu else 0) }

    // With its request, a destination and a wire number it makes the packet of the protocol's rules.
    ensures rule { (p : Posted) (dest psn : ℕ) → Asks p shape.now
        → packet_with result p dest psn ≡ packet_of_piece p mtu k dest psn }
{
    let (offset, length) = piece_at(shape.length, k, mtu);
    let last = k + 1 == count;
    let carries = kinds::takes_bytes(shape.kind);
    let imm = if carries && last { shape.imm } else { None };
    PacketHead {
        opcode: opcodes::opcode_at(shape.kind, k == 0, last, imm.is_some()),
        remote: shape.remote.wrapping_add(u64::from(offset)),
        rest: shape.length - offset,
        imm,
        off: if carries { offset } else { 0 },
        length: if carries { length } else { 0 },
    }
}

/// The pieces of a message in order are the message, each but the last has the MTU's bytes, and the last has some bytes
/// unless the message has none.
pub fn pieces_are_the_message()
    ensures whole { (message : List ℕ) (mtu : ℕ) → 0 < mtu
        → front message mtu (pieces (length message) mtu) ≡ message }
    ensures full { (message : List ℕ) (mtu k : ℕ) → 0 < mtu → k + 1 < pieces (length message) mtu
        → length (bytes_at (k * mtu) mtu message) ≡ mtu }
    ensures last { (message : List ℕ) (mtu k : ℕ) → 0 < mtu → k + 1 ≡ pieces (length message) mtu → 0 < length message
        → 0 < length (bytes_at (k * mtu) mtu message) }
    ensures sizes { (message : List ℕ) (mtu k : ℕ)
        → length (bytes_at (k * mtu) mtu message) ≡ piece_length (length message) k mtu }
{}
