//! The events that workers and the mover ask for, and what they are told.

ghost use Rattle.std.specs.Prelude.{◌≤◌, IfOk, IfSome};
ghost use Rattle.protocol.specs.Events.{IsLawfulEvent};
ghost use Rattle.protocol.specs.Lawful.{IsLawful};

use protocol::{Event, Outcome};
use rdma_types::{Address, Answer, ArrivalEffect, ExpiryIgnored, Items, Name, ObjName};
use std::alloc::{AllocError, Global};
use step_differences::copy_image;

/// The context a or b.
#[derive(Clone, Copy)]
pub enum Side {
    A,
    B,
}

/// A context's name.
pub fn context_of(side: Side) -> Name {
    match side {
        Side::A => Name::read(b"a").unwrap(),
        Side::B => Name::read(b"b").unwrap(),
    }
}

/// The end of a worker in a context.
pub fn end_of(side: Side, worker: u32) -> ObjName
    requires { worker ≤ 9 }
{
    ObjName {
        context: context_of(side),
        name: Name::read(&[b'q', 48 + worker as u8]).unwrap(),
    }
}

/// The next packet of an end.
pub fn transmits(side: Side, worker: u32) -> Event
    requires { worker ≤ 9 }
    ensures { IsLawfulEvent result }
{
    Event::Transmit {
        end: end_of(side, worker),
    }
}

/// The retransmission timeout of a worker's end.
pub fn expires(worker: u32) -> Event
    requires { worker ≤ 9 }
    ensures { IsLawfulEvent result }
{
    Event::Expire {
        end: end_of(Side::A, worker),
    }
}

/// The oldest completions of a's queue, which holds 256.
pub fn polls() -> Event
    ensures { IsLawfulEvent result }
{
    Event::Poll {
        cq: ObjName {
            context: context_of(Side::A),
            name: Name::read(b"c").unwrap(),
        },
        max: 256,
    }
}

/// A datagram arrives from an address. Errors: out of memory.
pub fn arrives(alloc: Global, from: Address, bytes: &[u8]) -> Result<Event, AllocError>
    ensures { IfOk result IsLawfulEvent }
{
    let bytes = Items::new(Vec::from_slice(alloc, bytes)?);
    Ok(Event::Arrive { from, bytes })
}

/// The context b becomes an image, where no end of it waits for its partner's move.
pub fn stops() -> Event
    ensures { IsLawfulEvent result }
{
    Event::Stop {
        context: context_of(Side::B),
        alone: true,
    }
}

/// The husk of b is forgotten.
pub fn releases() -> Event
    ensures { IsLawfulEvent result }
{
    Event::Release {
        context: context_of(Side::B),
    }
}

/// The event that restores the image that a stop handed out. Errors: out of memory.
pub fn restore_of(alloc: Global, outcome: &Outcome) -> Result<Option<Event>, AllocError>
    requires { IfSome outcome.now.image (λ i. IsLawful i) }
    ensures { IfOk result (λ event. IfSome event (λ e. IsLawfulEvent e)) }
{
    let Some(image) = &outcome.image else {
        return Ok(None);
    };
    let image = copy_image(alloc, image)?;
    Ok(Some(Event::Restore { image }))
}

/// What an answer tells a worker.
#[derive(Clone, Copy, Debug, PartialEq, Eq)]
pub enum StepEffect {
    Accepted,
    /// There is nothing to send.
    Idle,
    /// The end is in Error.
    Ended,
    /// Nothing is in flight.
    NothingInFlight,
    /// Nothing changed.
    Unchanged,
    Sent,
    /// Completions were polled.
    Polled,
    Changed,
}

/// What an answer tells.
pub fn told_by(answer: &Answer) -> StepEffect {
    match answer {
        Answer::Done => StepEffect::Accepted,
        Answer::Idle => StepEffect::Idle,
        Answer::NotCounted(ExpiryIgnored::Ended) => StepEffect::Ended,
        Answer::NotCounted(ExpiryIgnored::Nothing) => StepEffect::NothingInFlight,
        Answer::NotCounted(_)
        | Answer::Refused(_)
        | Answer::WindowFull
        | Answer::ReadsFull
        | Answer::Fenced
        | Answer::Waiting
        | Answer::NotWaiting => StepEffect::Unchanged,
        Answer::Took {
            took: ArrivalEffect::Silent(_),
            ..
        } => StepEffect::Unchanged,
        Answer::Polled(completions) if completions.len() == 0 => StepEffect::Unchanged,
        Answer::Polled(_) => StepEffect::Polled,
        Answer::Sent { .. } => StepEffect::Sent,
        _ => StepEffect::Changed,
    }
}
