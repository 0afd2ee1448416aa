//! Datagrams that are sent.

ghost use Rattle.std.specs.Prelude.{◌≡◌, ◌⊎◌, ◌<◌, ◌≤◌, ◌^◌, ◌%◌, ◌==◌, ◌||◌, ◌∷◌, [], IfOk, IsSomeAnd, IsTrue, None, OnOk, Some, length, vec_capacity};
ghost use Rattle.rdma_types.specs.Objects as objects;
ghost use Rattle.protocol.specs.Bytes.{bytes_at};
ghost use Rattle.protocol.specs.Numbers.{wire_number};
ghost use Rattle.protocol.specs.Wire.{Fits, fits_syndrome, plain, wire_of};
ghost use Rattle.roce_headers.specs.Packets.{packet};
ghost use Rattle.transport.specs.Heads.{has_atomic, has_reth, packet_with};

use crate::sending::MOST_HEADERS;
use protocol::{Aeth, AtomicEth, ResumeBody, Reth};
use rdma_types::{Items, Shape};
use roce_headers::opcodes::{
    COMPARE_SWAP, FETCH_ADD, READ_REQUEST, WRITE_FIRST, WRITE_ONLY, WRITE_ONLY_IMM,
};
use roce_headers::{Datagram, encode_in};
use transport::psn_math::{WIRE_NUMBERS, wire_of};
use transport::segmenter::PacketHead;

/// How many queue pair numbers there are: they have 24 bits.
const QP_NUMBERS: u32 = 16_777_216;

/// A datagram of at most so many bytes is written into memory of its own, and not into a large buffer.
pub const FEW_BYTES: usize = 256;

/// .. and one of at most so many bytes into less memory still.
pub const FEWEST_BYTES: usize = 64;

/// The bytes of a datagram in this memory. It takes no other, and gives back what is not used where it is much.
#[inline(always)]
pub fn written(d: &Datagram<'_>, memory: Vec<u8>) -> Items<u8>
    requires fits { Fits (packet d.now) }
    requires empty { memory.items ≡ [] }
    requires room { length (wire_of (packet d.now)) ≤ vec_capacity memory }
    ensures { result ≡ wire_of (packet d.now) }
{
    let mut bytes = encode_in(d, memory);
    give_back(&mut bytes);
    Items::new(bytes)
}

/// Gives back the memory that is not used, where it is more than headers take and the bytes are not few.
fn give_back(bytes: &mut Vec<u8>)
    ensures { bytes.new.items ≡ bytes.old.items }
{
    if bytes.capacity() > FEW_BYTES && bytes.capacity() - bytes.len() > MOST_HEADERS {
        bytes.shrink_to_fit();
    }
}

/// A response, an acknowledge or a NAK, of number `n`.
#[tactic(auto, unfolding(protocol::specs::Numbers::wire_number))]
pub fn answer<'a>(
    opcode: u8,
    peer: u32,
    start: u32,
    n: u64,
    aeth: Option<Aeth>,
    old: Option<u64>,
    payload: &'a [u8],
) -> Datagram<'a>
    ensures { packet result
        ≡ record (plain opcode (peer % 16777216) (wire_number start n))
        { aeth = aeth; old = old; payload = payload.now } }
{
    Datagram {
        opcode,
        dest: peer % QP_NUMBERS,
        ack_request: false,
        psn: wire_of(n % u64::from(WIRE_NUMBERS), start),
        reth: None,
        imm: None,
        aeth,
        atomic: None,
        old,
        resume: None,
        payload,
    }
}

/// RESUME or RESUME_ACK, with this body.
pub fn moving(opcode: u8, peer: u32, body: ResumeBody) -> Datagram<'static>
    requires { (opcode ≡ 0x1E) ⊎ (opcode ≡ 0x1F) }
    ensures says { packet result
        ≡ record (plain opcode (peer % 16777216) 0) { resume = Some body } }
    ensures fits { Fits (packet result) }
{
    Datagram {
        opcode,
        dest: peer % QP_NUMBERS,
        ack_request: false,
        psn: 0,
        reth: None,
        imm: None,
        aeth: None,
        atomic: None,
        old: None,
        resume: Some(body),
        payload: &[],
    }
}

/// A RETH is in a packet of this opcode.
fn with_reth(opcode: u8) -> bool
    ensures { result ≡ has_reth opcode }
{
    matches!(
        opcode,
        WRITE_FIRST | WRITE_ONLY | WRITE_ONLY_IMM | READ_REQUEST
    )
}

/// An AtomicETH is in a packet of this opcode.
fn with_atomic(opcode: u8) -> bool
    ensures { result ≡ has_atomic opcode }
{
    matches!(opcode, COMPARE_SWAP | FETCH_ADD)
}

/// The packet of a head of a request, under a wire number and with these bytes.
pub fn request<'a>(
    head: &PacketHead,
    shape: &Shape,
    peer: u32,
    psn: u32,
    payload: &'a [u8],
) -> Datagram<'a>
    ensures { (p : objects.Posted) → p.request.shape ≡ shape.now → bytes_at head.now.off head.now.length p.payload ≡ payload.now
        → packet result ≡ packet_with head.now p (peer % 16777216) psn }
{
    let reth = Reth {
        address: head.remote,
        rkey: shape.rkey,
        length: head.rest,
    };
    let atomic = AtomicEth {
        address: head.remote,
        rkey: shape.rkey,
        swap_add: shape.swap_add,
        compare: shape.compare,
    };
    Datagram {
        opcode: head.opcode,
        dest: peer % QP_NUMBERS,
        ack_request: head.asks_for_ack(psn),
        psn,
        reth: with_reth(head.opcode).then_some(reth),
        imm: head.imm,
        aeth: None,
        atomic: with_atomic(head.opcode).then_some(atomic),
        old: None,
        resume: None,
        payload,
    }
}
