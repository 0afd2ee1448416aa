//! Check 1: invalid requests.

ghost use Rattle.std.specs.Prelude.{◌≡◌, ◌+◌, ◌<◌, ◌^◌, length};
ghost use Rattle.protocol.specs.Responder as words;
ghost use Rattle.responder.specs.Kinds.{part_in};
ghost use Rattle.responder.specs.Receiving.{Receiving, progress_of};
ghost use Rattle.responder.specs.Taking.{link_with};
ghost use Rattle.roce_headers.specs.Packets.{packet};

use crate::kinds::{Part, is_read_request, is_send, is_write};
use crate::{Flow, Responder};
use rdma_types::limits::MOST_BYTES;
use roce_headers::{AtomicEth, Datagram, Reth};

/// A message is in progress.
fn in_message(flow: &Flow) -> bool
    ensures { result ≡ words.in_message (progress_of flow.now) }
{
    !matches!(flow, Flow::Idle)
}

/// The message in progress is of this opcode's kind.
fn same_kind(opcode: u8, flow: &Flow) -> bool
    ensures { result ≡ words.same_kind opcode (progress_of flow.now) }
{
    match flow {
        Flow::Idle => false,
        Flow::Send { .. } => is_send(opcode),
        Flow::Write { .. } => is_write(opcode),
    }
}

/// A First or Only inside a message, or a Middle or Last outside one or of another kind.
fn is_out_of_place(part: Part, opcode: u8, flow: &Flow) -> bool
    ensures { result ≡ words.is_out_of_place (part_in part) opcode (progress_of flow.now) }
{
    match part {
        Part::First | Part::Only => in_message(flow),
        Part::Middle | Part::Last => !same_kind(opcode, flow),
        Part::NoPart => false,
    }
}

/// A First or Middle without exactly as many bytes as the MTU, a Last with none or more, or an Only with more.
fn is_missized(part: Part, size: usize, mtu: u32) -> bool
    ensures { result ≡ words.is_missized (part_in part) size mtu }
{
    let mtu = mtu as usize;
    match part {
        Part::First | Part::Middle => size != mtu,
        Part::Last => size == 0 || mtu < size,
        Part::Only => mtu < size,
        Part::NoPart => false,
    }
}

/// How many bytes a WRITE has.
fn write_length(reth: Option<Reth>, flow: &Flow) -> u32
    ensures { result ≡ words.write_length reth (progress_of flow.now) }
{
    match (reth, flow) {
        (Some(reth), _) => reth.length,
        (None, Flow::Write { spot, .. }) => spot.length,
        (None, _) => 0,
    }
}

/// How many bytes of the message were there before.
pub fn bytes_before(reth: Option<Reth>, flow: &Flow) -> u32
    ensures { result ≡ words.bytes_before reth (progress_of flow.now) }
{
    match (reth, flow) {
        (None, Flow::Send { done, .. } | Flow::Write { done, .. }) => *done,
        _ => 0,
    }
}

/// A First or Middle after which no byte of the message is left, or a Last or Only that does not end it.
fn is_mistotalled(part: Part, done: u64, length: u32) -> bool
    ensures { result ≡ words.is_mistotalled (part_in part) done length }
{
    let length = u64::from(length);
    match part {
        Part::First | Part::Middle => length <= done,
        Part::Last | Part::Only => done != length,
        Part::NoPart => false,
    }
}

/// A WRITE of more bytes than a message may have, or with other bytes than its length says.
fn is_bad_write(d: &Datagram<'_>, part: Part, flow: &Flow) -> bool
    requires part { part_in part ≡ words.part_of d.now.opcode }
    ensures { result ≡ words.is_bad_write (packet d.now) (progress_of flow.now) }
{
    let length = write_length(d.reth, flow);
    let done = d.payload.len() as u64 + u64::from(bytes_before(d.reth, flow));
    length > MOST_BYTES || is_mistotalled(part, done, length)
}

/// A READ of more bytes than a message may have.
fn is_bad_read(reth: Option<Reth>) -> bool
    ensures { result ≡ words.is_bad_read reth }
{
    reth.is_some_and(|reth| reth.length > MOST_BYTES)
}

/// An atomic whose word is not aligned to 8 bytes.
fn is_unaligned(atomic: Option<AtomicEth>) -> bool
    ensures { result ≡ words.is_unaligned atomic }
{
    atomic.is_some_and(|atomic| atomic.address % 8 != 0)
}

impl Responder {
    /// Check 1.
    #[tactic(auto, unfolding(protocol::specs::Responder::is_invalid))]
    pub(crate) fn is_invalid(&self, d: &Datagram<'_>) -> bool
        ensures { result ≡ words.is_invalid (link_with self.now) (packet d.now) }
    {
        let part = Part::of(d.opcode);
        let flow = &self.parts.flow;
        is_out_of_place(part, d.opcode, flow)
            || is_missized(part, d.payload.len(), self.terms.mtu)
            || is_write(d.opcode) && is_bad_write(d, part, flow)
            || is_read_request(d.opcode) && is_bad_read(d.reth)
            || is_unaligned(d.atomic)
    }
}
