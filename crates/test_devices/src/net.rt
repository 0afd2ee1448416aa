//! Three devices, and the datagrams between them in order of sending. What a call gives is None where memory is short.

ghost use Rattle.std.specs.Prelude.{◌≡◌, IfSome};
ghost use Rattle.protocol.specs.Events.{IsLawfulEvent};
ghost use Rattle.protocol.specs.Lawful.{IsLawful};

use device_core::Device;
use protocol::{ContextImage, Event, Outcome};
use rdma_types::{Address, Answer, Completion, Items, Keys, Name, ObjName, Refusal, Sent};
use std::alloc::Global;
use std::marker::Model;

/// A thing of a context; None where a text spells no name.
pub(crate) fn object(context: &[u8], text: &[u8]) -> Option<ObjName> {
    Some(ObjName {
        context: Name::read(context)?,
        name: Name::read(text)?,
    })
}

/// The address of a device: 10.0.0.1 to 10.0.0.3, port 4791.
pub(crate) fn address_of(place: u8) -> Address {
    Address {
        ip: 0x0a00_0000 | u32::from(place),
        port: 4791,
    }
}

/// What a device answers.
#[derive(Clone, Copy, PartialEq, Eq)]
pub(crate) enum Said {
    Done,
    Region(Keys),
    Qp(u32),
    Sent,
    Refused(Refusal),
    Other,
}

fn word(answer: &Answer) -> Said {
    match answer {
        Answer::Done => Said::Done,
        Answer::Region(keys) => Said::Region(*keys),
        Answer::Qp(number) => Said::Qp(*number),
        Answer::Sent { .. } => Said::Sent,
        Answer::Refused(refusal) => Said::Refused(*refusal),
        _ => Said::Other,
    }
}

fn is_polled(answer: &Answer, entries: &[Completion]) -> bool {
    match answer {
        Answer::Polled(polled) => polled.as_slice() == entries,
        _ => false,
    }
}

fn is_bytes(answer: &Answer, bytes: &[u8]) -> bool {
    match answer {
        Answer::Bytes(held) => held.as_slice() == bytes,
        _ => false,
    }
}

/// A datagram that was sent.
#[derive(Drop)]
struct Flight {
    from: Address,
    sent: Sent,
}

/// Devices 1, 2 and 3. Contracts see nothing of them.
#[derive(Drop)]
pub(crate) struct Net {
    alloc: Global,
    devices: Vec<Device>,
    flights: Vec<Flight>,
}

impl Model for Net {
    ghost Value = { Unit {0} };

    ghost view = { λ _. tt };
}

impl Net {
    /// Devices without contexts.
    pub(crate) fn make(alloc: Global) -> Option<Net> {
        let mut devices = Vec::new(alloc);
        for id in 1..4 {
            let device = Device::make(alloc, id, address_of(id)).ok()?;
            devices.push(device).ok()?;
        }
        Some(Net {
            alloc,
            devices,
            flights: Vec::new(alloc),
        })
    }

    /// How many datagrams were sent.
    pub(crate) fn flown(&self) -> usize {
        self.flights.len()
    }

    /// The device with an id.
    fn device(&mut self, id: u8) -> Option<&mut Device> {
        let place = usize::from(id).checked_sub(1)?;
        self.devices.get_mut(place)
    }

    /// A copy of a device.
    pub(crate) fn copy(&mut self, id: u8) -> Option<Device> {
        let alloc = self.alloc;
        self.device(id)?.copy(alloc).ok()
    }

    /// Where a device differs from another.
    pub(crate) fn differs(&mut self, id: u8, other: &Device) -> Option<Option<(u64, u64)>> {
        let device = self.device(id)?;
        Some(device.differs(other))
    }

    /// Keeps what a device sent.
    fn keep(&mut self, from: Address, sent: Items<Sent>) -> Option<()> {
        for sent in sent.into_vec() {
            self.flights.push(Flight { from, sent }).ok()?;
        }
        Some(())
    }

    /// Keeps what a device sent, and gives the rest.
    fn told(&mut self, from: Address, outcome: Outcome) -> Option<(Answer, Option<ContextImage>)>
        ensures { IfSome result (λ p. p.1 ≡ outcome.image) }
    {
        let Outcome {
            answer,
            sent,
            image,
        } = outcome;
        self.keep(from, sent)?;
        Some((answer, image))
    }

    /// A step of one device.
    fn step(&mut self, place: u8, event: &Event) -> Option<(Answer, Option<ContextImage>)>
        requires { IsLawfulEvent event.now }
        ensures { IfSome result (λ p. IfSome p.1 (λ i. IsLawful i)) }
    {
        let alloc = self.alloc;
        let outcome = self.device(place)?.step(alloc, event).ok()?;
        self.told(address_of(place), outcome)
    }

    /// The answer of a step.
    fn answer(&mut self, place: u8, event: &Event) -> Option<Answer>
        requires { IsLawfulEvent event.now }
    {
        let (answer, _) = self.step(place, event)?;
        Some(answer)
    }

    /// The answer of a step, where it is no list.
    pub(crate) fn ask(&mut self, place: u8, event: Event) -> Option<Said>
        requires { IsLawfulEvent event }
    {
        let answer = self.answer(place, &event)?;
        Some(word(&answer))
    }

    /// Datagram `k`, from 0, arrives where it was sent to; None where there is none.
    pub(crate) fn deliver(&mut self, k: usize) -> Option<Said> {
        let flight = self.flights.get(k)?;
        let place = (flight.sent.to.ip % 256) as u8;
        let event = Event::Arrive {
            from: flight.from,
            bytes: Items::new(flight.sent.bytes.as_slice().to_vec(self.alloc).ok()?),
        };
        self.ask(place, event)
    }

    /// For how many bytes there is room in the memory of the next datagram of an end. The device takes that memory back.
    pub(crate) fn room(&mut self, place: u8, context: &[u8]) -> Option<usize> {
        let end = object(context, b"q")?;
        let alloc = self.alloc;
        let device = self.device(place)?;
        let Outcome { sent, .. } = device.step(alloc, &Event::Transmit { end }).ok()?;
        let mut list = sent.into_vec();
        let Sent { bytes, .. } = list.pop()?;
        let bytes = bytes.into_vec();
        let room = bytes.capacity();
        device.give_back(Items::new(bytes));
        device.give_back_list(list);
        Some(room)
    }

    /// Whether the next four completions of a context's queue, or as many as there are, are these.
    pub(crate) fn tells(
        &mut self,
        place: u8,
        context: &[u8],
        entries: &[Completion],
    ) -> Option<bool> {
        let cq = object(context, b"c")?;
        let answer = self.answer(place, &Event::Poll { cq, max: 4 })?;
        Some(is_polled(&answer, entries))
    }

    /// Whether a context's region has these bytes from an address on.
    pub(crate) fn holds(
        &mut self,
        place: u8,
        context: &[u8],
        at: u64,
        bytes: &[u8],
    ) -> Option<bool> {
        let region = object(context, b"m")?;
        let length = u32::try_from(bytes.len()).ok()?;
        let answer = self.answer(place, &Event::Load { region, at, length })?;
        Some(is_bytes(&answer, bytes))
    }

    /// The image of a context that leaves its device; None where it does not.
    pub(crate) fn stop(&mut self, place: u8, context: &[u8]) -> Option<ContextImage>
        ensures { IfSome result (λ i. IsLawful i) }
    {
        let context = Name::read(context)?;
        let event = Event::Stop {
            context,
            alone: false,
        };
        let (_, image) = self.step(place, &event)?;
        image
    }

    /// Puts an image, which stays with its owner, on a device.
    pub(crate) fn restore(&mut self, place: u8, image: &ContextImage) -> Option<Said>
        requires { IsLawful image.now }
    {
        let alloc = self.alloc;
        let outcome = self.device(place)?.restore(alloc, image).ok()?;
        Some(word(&outcome.answer))
    }
}
