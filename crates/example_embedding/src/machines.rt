//! Machines with a device each, and the link between them.

ghost use Rattle.std.specs.Prelude.{◌≡◌, IfOk, IfSome};
ghost use Rattle.protocol.specs.Events.{IsLawfulEvent};
ghost use Rattle.protocol.specs.Lawful.{IsLawful};

use crate::fault::Fault;
use context_dump::{decode_dump, encode_dump};
use device_core::Device;
use protocol::{ContextImage, Event, Outcome};
use rdma_types::{Address, Answer, EndState, EndView, Items, Name, ObjName, Sent};
use script_lang::print_answer;
use std::alloc::Global;
use std::collections::VecDeque;
use std::marker::Model;

/// The address of a machine: 10.0.0.1 to 10.0.0.3, port 4791.
pub(crate) fn address_of(id: u8) -> Address {
    Address {
        ip: 0x0a00_0000 | u32::from(id),
        port: 4791,
    }
}

/// A name of a context or of a thing in it.
pub(crate) fn name(text: &[u8]) -> Result<Name, Fault> {
    Name::read(text).ok_or(Fault::NoName)
}

/// A thing of a context.
pub(crate) fn object(context: &[u8], text: &[u8]) -> Result<ObjName, Fault> {
    let context = name(context)?;
    let name = name(text)?;
    Ok(ObjName { context, name })
}

/// A datagram on its way.
#[derive(Drop)]
struct Flight {
    from: Address,
    sent: Sent,
}

/// Machines 1, 2 and 3, the datagrams on their way between them, and what the devices answered. Contracts see nothing of
/// them.
#[derive(Drop)]
pub(crate) struct Machines {
    alloc: Global,
    devices: Vec<Device>,
    link: VecDeque<Flight>,
    told: Vec<u8>,
}

impl Model for Machines {
    ghost Value = { Unit {0} };

    ghost view = { λ _. tt };
}

impl Machines {
    /// Machines whose devices have no contexts.
    pub(crate) fn make(alloc: Global) -> Result<Machines, Fault> {
        let mut devices = Vec::new(alloc);
        for id in 1..4 {
            devices.push(Device::make(alloc, id, address_of(id))?)?;
        }
        Ok(Machines {
            alloc,
            devices,
            link: VecDeque::new(alloc),
            told: Vec::new(alloc),
        })
    }

    /// What the devices answered, a line each.
    pub(crate) fn told(&self) -> &str {
        str::from_utf8(self.told.as_slice()).unwrap_or("")
    }

    fn device(&mut self, id: u8) -> Result<&mut Device, Fault> {
        let place = usize::from(id).wrapping_sub(1);
        self.devices.get_mut(place).ok_or(Fault::NoDevice)
    }

    /// Notes the answer, sends what is to be sent, and gives the image.
    fn take_in(&mut self, id: u8, outcome: Outcome) -> Result<Option<ContextImage>, Fault>
        ensures { IfOk result (λ image. image ≡ outcome.image) }
    {
        self.told.push(b'0' + id % 10)?;
        self.told.push(b' ')?;
        print_answer(&outcome.answer, &mut self.told)?;
        for sent in outcome.sent.into_vec() {
            let from = address_of(id);
            self.link.push_back(Flight { from, sent })?;
        }
        Ok(outcome.image)
    }

    /// A step of one device.
    pub(crate) fn step(&mut self, id: u8, event: Event) -> Result<Option<ContextImage>, Fault>
        requires { IsLawfulEvent event }
        ensures { IfOk result (λ image. IfSome image (λ i. IsLawful i)) }
    {
        let alloc = self.alloc;
        let outcome = self.device(id)?.step(alloc, &event)?;
        self.take_in(id, outcome)
    }

    /// The oldest datagram on its way arrives.
    pub(crate) fn deliver(&mut self) -> Result<(), Fault> {
        let Some(Flight { from, sent }) = self.link.pop_front() else {
            return Ok(());
        };
        let id = (sent.to.ip % 256) as u8;
        let alloc = self.alloc;
        let outcome = self.device(id)?.arrive(alloc, from, sent.bytes.as_slice())?;
        self.take_in(id, outcome)?;
        Ok(())
    }

    /// The dump of a context that leaves its device.
    pub(crate) fn stop(&mut self, id: u8, context: &[u8]) -> Result<Vec<u8>, Fault> {
        let event = Event::Stop {
            context: name(context)?,
            alone: true,
        };
        let image = self.step(id, event)?.ok_or(Fault::NoImage)?;
        Ok(encode_dump(self.alloc, &image)?)
    }

    /// Puts the context of a dump on a device.
    pub(crate) fn restore(&mut self, id: u8, dump: &[u8]) -> Result<(), Fault> {
        let alloc = self.alloc;
        let image = decode_dump(alloc, dump)?;
        let outcome = self.device(id)?.restore(alloc, &image)?;
        self.take_in(id, outcome)?;
        Ok(())
    }
}

/// Turns. In this program a machine has one context, with one end, at most.
impl Machines {
    /// The end that lives on a machine.
    fn end(&mut self, id: u8) -> Result<Option<EndView>, Fault> {
        let device = self.device(id)?;
        let Some(context) = device.context_at(0) else {
            return Ok(None);
        };
        Ok(device.end_at(context, 0))
    }

    /// One packet of an end, where it may send one now.
    fn send_one(&mut self, id: u8, end: ObjName) -> Result<bool, Fault> {
        let before = self.link.len();
        self.step(id, Event::Transmit { end })?;
        Ok(self.link.len() > before)
    }

    /// The end of a machine sends what it may now. One that is Running sends until it has nothing to send, or its window is
    /// full; one that is Resuming sends its RESUME once.
    pub(crate) fn transmit(&mut self, id: u8) -> Result<(), Fault> {
        let Some(end) = self.end(id)? else {
            return Ok(());
        };
        let most = match end.state {
            EndState::Running => 16,
            EndState::Resuming => 1,
            _ => 0,
        };
        for _ in 0..most {
            if !self.send_one(id, end.name)? {
                break;
            }
        }
        Ok(())
    }

    /// The retransmission clock of a machine's end is over, where packets are in flight.
    fn expire(&mut self, id: u8) -> Result<(), Fault> {
        let Some(end) = self.end(id)? else {
            return Ok(());
        };
        if end.state == EndState::Running && end.una < end.next {
            self.step(id, Event::Expire { end: end.name })?;
        }
        Ok(())
    }

    /// One turn: each datagram on its way arrives, and then each end sends what it may. Where nothing is on its way then,
    /// the retransmission clocks are over.
    pub(crate) fn turn(&mut self) -> Result<(), Fault> {
        for _ in 0..self.link.len() {
            self.deliver()?;
        }
        for id in 1..4 {
            self.transmit(id)?;
        }
        if self.link.is_empty() {
            for id in 1..4 {
                self.expire(id)?;
            }
        }
        Ok(())
    }

    /// The husk of a context is forgotten.
    pub(crate) fn release(&mut self, id: u8, context: &[u8]) -> Result<(), Fault> {
        let context = name(context)?;
        self.step(id, Event::Release { context })?;
        Ok(())
    }
}
