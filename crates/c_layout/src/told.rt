//! What C is told.

ghost use Rattle.std.specs.Prelude.{◌≡◌};
ghost use Rattle.c_layout.specs.Told as told;

use crate::codes::{
    dump_code, effect_code, effect_detail, ignored_code, refusal_code, state_code, status_code,
    wc_code,
};
use crate::layout::{CAddress, CCompletion, CDatagram, CEnd, CFault, CName, CObject, COutcome};
use protocol::{DumpWhy, EndImage, LinkImage};
use rdma_types::{Address, Answer, Completion, EndState, Name, ObjName, Sent};

/// An address.
pub fn address_told(address: Address) -> CAddress
    ensures { result ≡ told.address_told address }
{
    CAddress {
        ip: address.ip,
        port: address.port,
        reserved: 0,
    }
}

/// An answer without more, and how many datagrams were sent.
fn plain(answer: u32, sent: u64) -> COutcome
    ensures { result ≡ told.plain answer sent }
{
    COutcome {
        answer,
        cause: 0,
        detail: 0,
        number: 0,
        local_key: 0,
        remote_key: 0,
        count: 0,
        sent,
    }
}

/// An answer with a count.
fn counted(answer: u32, count: u64, sent: u64) -> COutcome
    ensures { result ≡ told.counted answer count sent }
{
    COutcome {
        count,
        ..plain(answer, sent)
    }
}

/// An answer with a cause.
fn caused(answer: u32, cause: u32, sent: u64) -> COutcome
    ensures { result ≡ told.caused answer cause sent }
{
    COutcome {
        cause,
        ..plain(answer, sent)
    }
}

/// The outcome of a step with this answer and so many datagrams.
#[inline(always)]
pub fn outcome_told(answer: &Answer, sent: u64) -> COutcome
    ensures { result ≡ told.outcome_told answer.now sent }
{
    match answer {
        Answer::Done => plain(1, sent),
        Answer::Stopped => plain(2, sent),
        Answer::Region(keys) => COutcome {
            local_key: keys.local,
            remote_key: keys.remote,
            ..plain(3, sent)
        },
        Answer::Qp(number) => COutcome {
            number: *number,
            ..plain(4, sent)
        },
        Answer::Bytes(bytes) => counted(5, bytes.len() as u64, sent),
        Answer::Polled(completions) => counted(6, completions.len() as u64, sent),
        Answer::Sent { .. } => plain(7, sent),
        Answer::Idle => plain(8, sent),
        Answer::WindowFull => plain(9, sent),
        Answer::ReadsFull => plain(10, sent),
        Answer::Fenced => plain(11, sent),
        Answer::Waiting => plain(12, sent),
        Answer::Took { took, count, .. } => COutcome {
            cause: effect_code(*took),
            detail: effect_detail(*took),
            count: *count,
            ..plain(13, sent)
        },
        Answer::Expired(count) => counted(14, u64::from(*count), sent),
        Answer::Spent => plain(15, sent),
        Answer::NotCounted(why) => caused(16, ignored_code(*why), sent),
        Answer::Over => plain(17, sent),
        Answer::NotWaiting => plain(18, sent),
        Answer::Refused(refusal) => caused(19, refusal_code(*refusal), sent),
        _ => plain(0, sent),
    }
}

/// A completion.
pub fn completion_told(completion: &Completion) -> CCompletion
    ensures { result ≡ told.completion_told completion.now }
{
    let (imm, flags) = match completion.imm {
        Some(imm) => (imm, 4),
        None => (0, 0),
    };
    CCompletion {
        id: completion.id,
        qp: completion.qp,
        kind: wc_code(completion.kind),
        status: status_code(completion.status),
        length: completion.length,
        imm,
        flags,
    }
}

/// What is told of a datagram.
pub fn datagram_told(sent: &Sent) -> CDatagram
    ensures { result ≡ told.datagram_told sent.now }
{
    let (number, has_number) = match sent.number {
        Some(number) => (number, 1),
        None => (0, 0),
    };
    CDatagram {
        to: address_told(sent.to),
        number,
        length: sent.bytes.len() as u64,
        has_number,
        reserved: 0,
    }
}

/// A name, with zeros behind it.
pub fn name_told(name: &Name) -> CName
    ensures { result ≡ told.name_told name.now }
{
    let text = name.as_bytes();
    let mut bytes = [0; 16];
    bytes[..text.len()].copy_from_slice(text);
    CName { bytes }
}

/// A thing of a context.
pub fn object_told(object: &ObjName) -> CObject
    ensures { result ≡ told.object_told object.now }
{
    CObject {
        context: name_told(&object.context),
        name: name_told(&object.name),
    }
}

/// A truth value as a number.
pub fn bit(holds: bool) -> u32
    ensures { result ≡ told.bit holds }
{
    if holds { 1 } else { 0 }
}

/// The state of a connected end of an image.
fn state_of(link: &LinkImage) -> EndState
    ensures { result ≡ told.image_state link.now }
{
    if link.ended {
        EndState::Error
    } else if link.resuming {
        EndState::Resuming
    } else {
        EndState::Running
    }
}

/// What is told of a queue pair of an image that was never connected.
fn unconnected(context: &Name, end: &EndImage) -> CEnd
    ensures { result ≡ told.unconnected_image context.now end.now }
{
    CEnd {
        name: CObject {
            context: name_told(context),
            name: name_told(&end.name),
        },
        una: 0,
        next: 0,
        last: 0,
        number: end.number,
        peer: 0,
        state: state_code(EndState::Init),
        untold: end.untold.len().min(u32::MAX as usize) as u32,
        moves: 0,
        rnr: 0,
        rnr_wait: 0,
        may_send: 0,
        in_flight: 0,
        reserved: 0,
    }
}

/// What is told of a queue pair of an image, in the context of that name.
pub fn image_end_told(context: &Name, end: &EndImage) -> CEnd
    ensures { result ≡ told.image_end_told context.now end.now }
{
    let told = unconnected(context, end);
    match &end.linked {
        None => told,
        Some(link) => CEnd {
            una: link.una,
            next: link.next,
            peer: link.peer,
            state: state_code(state_of(link)),
            moves: u32::from(link.moves),
            rnr: u32::from(link.terms.rnr),
            rnr_wait: bit(link.rnr_wait),
            ..told
        },
    }
}

/// Why bytes are no dump, and where.
pub fn fault_told(place: usize, why: DumpWhy) -> CFault
    ensures { result ≡ told.fault_told place why }
{
    CFault {
        place: place as u64,
        why: dump_code(why),
        reserved: 0,
    }
}
