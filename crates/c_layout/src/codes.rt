//! The numbers by which C knows the variants.

ghost use Rattle.std.specs.Prelude.{◌≡◌};
ghost use Rattle.c_layout.specs.Codes as codes;

use protocol::DumpWhy;
use rdma_types::{
    ArrivalEffect, DropReason, EndState, ExpiryIgnored, Refusal, RefusalReason, WcKind, WcStatus,
};

/// The result of a call that is done.
pub const OK: u32 = 0;

/// The allocator refused memory.
pub const NO_MEMORY: u32 = 1;

/// An argument is outside of what the function allows.
pub const INVALID: u32 = 2;

/// The bytes are no dump.
pub const BAD_DUMP: u32 = 3;

/// Nothing is there.
pub const NONE: u32 = 4;

/// The buffer has less room than is needed.
pub const TOO_SMALL: u32 = 5;

/// Why a step is refused.
pub fn refusal_code(refusal: Refusal) -> u32
    ensures { result ≡ codes.refusal_code refusal }
{
    match refusal {
        Refusal::NoSuch => 1,
        Refusal::NumberTaken => 2,
        Refusal::TooMany => 3,
        Refusal::BadState => 4,
        Refusal::SqFull => 5,
        Refusal::RqFull => 6,
        Refusal::CqFull => 7,
        Refusal::BadKey => 8,
        Refusal::TooLong => 9,
        Refusal::InUse => 10,
        Refusal::Stopped => 11,
        Refusal::PeerMoving => 12,
        Refusal::Spent => 13,
        Refusal::NoPage => 14,
    }
}

/// Why a responder refuses a request.
fn reason_code(reason: RefusalReason) -> u32
    ensures { result ≡ codes.reason_code reason }
{
    match reason {
        RefusalReason::Invalid => 1,
        RefusalReason::Access => 2,
        RefusalReason::Length => 3,
    }
}

/// Why an expiry is not counted.
pub fn ignored_code(ignored: ExpiryIgnored) -> u32
    ensures { result ≡ codes.ignored_code ignored }
{
    match ignored {
        ExpiryIgnored::Ended => 1,
        ExpiryIgnored::Paused => 2,
        ExpiryIgnored::Resuming => 3,
        ExpiryIgnored::Rnr => 4,
        ExpiryIgnored::Nothing => 5,
    }
}

/// Why a datagram has no effect.
fn drop_code(reason: DropReason) -> u32
    ensures { result ≡ codes.drop_code reason }
{
    match reason {
        DropReason::Malformed => 1,
        DropReason::Unknown => 2,
        DropReason::Ended => 3,
        DropReason::Paused => 4,
        DropReason::NakSent => 5,
        DropReason::NoRepeat => 6,
        DropReason::Useless => 7,
        DropReason::Stale => 8,
    }
}

/// How a work request ended.
pub fn status_code(status: WcStatus) -> u32
    ensures { result ≡ codes.status_code status }
{
    match status {
        WcStatus::Success => 0,
        WcStatus::LocalLength => 1,
        WcStatus::Flush => 5,
        WcStatus::RemoteInvalid => 9,
        WcStatus::RemoteAccess => 10,
        WcStatus::RetryExceeded => 12,
        WcStatus::RnrExceeded => 13,
    }
}

/// The kind of a completion.
pub fn wc_code(kind: WcKind) -> u32
    ensures { result ≡ codes.wc_code kind }
{
    match kind {
        WcKind::Write => 1,
        WcKind::Send => 2,
        WcKind::Read => 3,
        WcKind::CompareSwap => 4,
        WcKind::FetchAdd => 5,
        WcKind::Recv => 6,
        WcKind::RecvImm => 7,
    }
}

/// The state of a queue pair.
pub fn state_code(state: EndState) -> u32
    ensures { result ≡ codes.state_code state }
{
    match state {
        EndState::Init => 1,
        EndState::Running => 2,
        EndState::Paused => 3,
        EndState::Resuming => 4,
        EndState::Error => 5,
    }
}

/// Why bytes are no dump.
pub fn dump_code(why: DumpWhy) -> u32
    ensures { result ≡ codes.dump_code why }
{
    match why {
        DumpWhy::Short => 1,
        DumpWhy::Magic => 2,
        DumpWhy::Version => 3,
        DumpWhy::Name => 4,
        DumpWhy::Count => 5,
        DumpWhy::Field => 6,
        DumpWhy::Trailing => 7,
    }
}

/// What an arrival did.
pub fn effect_code(effect: ArrivalEffect) -> u32
    ensures { result ≡ codes.effect_code effect }
{
    match effect {
        ArrivalEffect::Acted => 1,
        ArrivalEffect::Ack => 2,
        ArrivalEffect::Bytes => 3,
        ArrivalEffect::Old => 4,
        ArrivalEffect::SeqNak => 5,
        ArrivalEffect::NotReady => 6,
        ArrivalEffect::DupAck => 7,
        ArrivalEffect::Refused(_) => 8,
        ArrivalEffect::Acked => 9,
        ArrivalEffect::Landed => 10,
        ArrivalEffect::Rewound => 11,
        ArrivalEffect::Waits => 12,
        ArrivalEffect::Ended(_) => 13,
        ArrivalEffect::Stopped => 14,
        ArrivalEffect::Paused => 15,
        ArrivalEffect::Resumed => 16,
        ArrivalEffect::ResumeAck => 17,
        ArrivalEffect::Running => 18,
        ArrivalEffect::Silent(_) => 19,
    }
}

/// Why it did that, where it has a reason; else 0.
pub fn effect_detail(effect: ArrivalEffect) -> u32
    ensures { result ≡ codes.effect_detail effect }
{
    match effect {
        ArrivalEffect::Refused(reason) => reason_code(reason),
        ArrivalEffect::Ended(status) => status_code(status),
        ArrivalEffect::Silent(reason) => drop_code(reason),
        _ => 0,
    }
}
