//! What is told of a call of a context.

ghost use Rattle.std.specs.Prelude.{◌≡◌, ◌+◌, ◌<◌, ◌≤◌, ◌^◌, ◌++◌, [], Some, None, IfOk, IsOk, is_ok, length, if◌then◌else◌};
ghost use Rattle.device_core.specs.Done.{AreFew, IsNotOutOfMemory, plain, region_answer, number_answer, told_arrival as arrival_told, told_by, told_memory as memory_told, told_plainly, told_sent as sent_told, told_transmission as transmission_told};

use crate::device::answered;
use context_core::{Answered, ArrivalOutcome, ContextFault};
use protocol::Outcome;
use rdma_types::{Answer, Completion, Items, Keys, Refusal};
use std::alloc::{AllocError, Global};

/// One more, where a thing was made.
pub(crate) fn counted(count: u32, made: &Result<(), ContextFault>) -> u32
    requires { count + 1 < 2 ^ 32 }
    ensures { result ≡ (if is_ok made.now then count + 1 else count) }
{
    if made.is_ok() { count + 1 } else { count }
}

/// The answer that tells the keys of a region.
pub(crate) fn told_keys(keys: Option<Keys>) -> Answer
    ensures { result ≡ region_answer keys }
{
    match keys {
        Some(keys) => Answer::Region(keys),
        None => Answer::Done,
    }
}

/// The answer that tells the number of a queue pair.
pub(crate) fn told_number(number: Option<u32>) -> Answer
    ensures { result ≡ number_answer number }
{
    match number {
        Some(number) => Answer::Qp(number),
        None => Answer::Done,
    }
}

/// A call that hands nothing out, and its answer.
pub(crate) fn told(
    alloc: Global,
    made: Result<(), ContextFault>,
    answer: Answer,
) -> Result<Outcome, ContextFault>
    ensures { result ≡ told_by (λ x. plain answer) made }
{
    match made {
        Ok(()) => Ok(answered(alloc, answer)),
        Err(fault) => Err(fault),
    }
}

/// A call that hands nothing out and takes no memory.
pub(crate) fn outcome_of_done(
    alloc: Global,
    made: Result<(), Refusal>,
) -> Result<Outcome, ContextFault>
    ensures told { result ≡ told_plainly (λ x. plain Answer.Done) made }
    ensures never_out_of_memory { IsNotOutOfMemory result }
{
    match made {
        Ok(()) => Ok(answered(alloc, Answer::Done)),
        Err(refusal) => Err(ContextFault::Refused(refusal)),
    }
}

/// A call that answers and takes no memory.
pub(crate) fn told_answer(
    alloc: Global,
    made: Result<Answer, Refusal>,
) -> Result<Outcome, ContextFault>
    ensures told { result ≡ told_plainly plain made }
    ensures never_out_of_memory { IsNotOutOfMemory result }
{
    match made {
        Ok(answer) => Ok(answered(alloc, answer)),
        Err(refusal) => Err(ContextFault::Refused(refusal)),
    }
}

/// The bytes of a range.
pub(crate) fn told_bytes(
    alloc: Global,
    loaded: Result<Items<u8>, ContextFault>,
) -> Result<Outcome, ContextFault>
    ensures { result ≡ told_by (λ bytes. plain (Answer.Bytes bytes)) loaded }
{
    match loaded {
        Ok(bytes) => Ok(answered(alloc, Answer::Bytes(bytes))),
        Err(fault) => Err(fault),
    }
}

/// The completions of a queue.
pub(crate) fn told_polled(
    alloc: Global,
    polled: Result<Items<Completion>, ContextFault>,
) -> Result<Outcome, ContextFault>
    ensures { result ≡ told_by (λ entries. plain (Answer.Polled entries)) polled }
{
    match polled {
        Ok(entries) => Ok(answered(alloc, Answer::Polled(entries))),
        Err(fault) => Err(fault),
    }
}

/// What is told of a transmission: a refusal is an answer.
pub(crate) fn told_transmission(
    alloc: Global,
    sent: Result<Answered, ContextFault>,
) -> Result<Answered, AllocError>
    ensures { result ≡ transmission_told sent }
{
    match sent {
        Ok(answered) => Ok(answered),
        Err(ContextFault::Refused(refusal)) => Ok(refused(alloc, refusal)),
        Err(ContextFault::OutOfMemory) => Err(AllocError),
    }
}

/// A refusal as an answer.
pub(crate) fn refused(alloc: Global, refusal: Refusal) -> Answered
    ensures { result ≡ record { answer = Answer.Refused refusal; sent = [] } }
{
    Answered {
        answer: Answer::Refused(refusal),
        sent: Items::new(Vec::new(alloc)),
    }
}

/// What is sent, and its answer.
pub(crate) fn told_sent(sent: Result<Answered, AllocError>) -> Result<Outcome, ContextFault>
    ensures { result ≡ memory_told (sent_told sent) }
{
    match sent {
        Ok(Answered { answer, sent }) => Ok(Outcome {
            answer,
            sent,
            image: None,
        }),
        Err(_) => Err(ContextFault::OutOfMemory),
    }
}

/// What a datagram did, as an answer, and what is sent for it.
pub(crate) fn told_arrival(
    arrived: Result<ArrivalOutcome, AllocError>,
) -> Result<Answered, AllocError>
    ensures { sent_told result ≡ arrival_told arrived }
{
    match arrived {
        Ok(ArrivalOutcome { took, sent }) => {
            let count = sent.len() as u64;
            let answer = Answer::Took {
                took,
                first: 0,
                count,
            };
            Ok(Answered { answer, sent })
        }
        Err(fault) => Err(fault),
    }
}

/// A step that may run out of memory.
pub(crate) fn told_memory(done: Result<Outcome, AllocError>) -> Result<Outcome, ContextFault>
    ensures told { result ≡ memory_told done }
    ensures bounded { IfOk done (λ o. length o.sent ≤ 2 ^ 32) → AreFew result }
    ensures never_out_of_memory { IsOk done → IsNotOutOfMemory result }
{
    match done {
        Ok(outcome) => Ok(outcome),
        Err(_) => Err(ContextFault::OutOfMemory),
    }
}
