//! Contexts that leave. A stop is made on a copy of the device, which becomes the device once the dump is published; so all
//! is as before where it is not.

ghost use Rattle.std.specs.Prelude.{◌≡◌, ◌++◌, Some, None, IfOk, IfSome, map};
ghost use Rattle.protocol.specs.Lawful.{IsLawful};
ghost use Rattle.serve_rules.specs.Moving as rules;
ghost use Rattle.protocol.specs.DeviceStep.{device_step};
ghost use Rattle.protocol.specs.Dumps.{dump_bytes};
ghost use Rattle.node_rules.specs.Lines.{version};
ghost use Rattle.serve_engine.specs.Preparing.{IsStopOf, IsStopOfImage, PublishLeaves, reply_to};

use crate::state::Server;
use device_core::{ContextImage, Device, Event, Outcome};
use dump_writer::encode_dump;
use host_ports::{Store, StoreFault};
use protocol::EndImage;
use rdma_types::{Answer, Name, Refusal};
use serve_rules::Reply;
use std::alloc::{AllocError, Global};

/// What is there after a context left, and its dump.
#[derive(Drop)]
pub struct Leaving {
    pub device: Device,
    pub gone: Vec<(Name, u32)>,
    pub dump: Vec<u8>,
}

/// A stop that was not yet made, or why it is refused.
#[derive(Drop)]
pub enum Stop {
    Refused(Answer),
    Made(Leaving),
}

/// The numbers of the ends of a context behind these. Errors: `AllocError` when out of memory.
fn with_leaving(
    alloc: Global,
    gone: &[(Name, u32)],
    name: Name,
    ends: &[EndImage],
) -> Result<Vec<(Name, u32)>, AllocError>
    ensures { IfOk result (λ r. r.items ≡ gone.now ++ rules.leaving name ends.now) }
{
    let mut numbers = Vec::from_slice(alloc, gone)?;
    for end in ends {
        numbers.push((name, end.number))?;
    }
    Ok(numbers)
}

/// Whether a queue pair with that number left.
fn has_left(gone: &[(Name, u32)], number: u32) -> bool
    ensures { result ≡ rules.has_left gone.now number }
{
    gone.iter().any(|left| left.1 == number)
}

/// The answer where a store did not do what it was asked.
pub(crate) fn fault_reply(fault: StoreFault) -> Reply
    ensures { result ≡ reply_to fault }
{
    match fault {
        StoreFault::Missing => Reply::Missing,
        StoreFault::Taken => Reply::Taken,
        StoreFault::Failed => Reply::Depot,
        StoreFault::OutOfMemory => Reply::Memory,
    }
}

/// The device after the step of a stop, and what it gives. Errors: `AllocError` when out of memory.
fn stopped(alloc: Global, device: &Device, name: Name) -> Result<(Device, Outcome), AllocError>
    ensures step { IfOk result (λ d. device_step device.now (rules.stop_of name)
        ≡ record { device = d.0; outcome = d.1 }) }
    ensures image { IfOk result (λ d. IfSome d.1.image (λ i. IsLawful i)) }
{
    let mut copy = device.copy(alloc)?;
    let event = Event::Stop {
        context: name,
        alone: true,
    };
    let outcome = copy.step(alloc, &event)?;
    Ok((copy, outcome))
}

impl Server {
    /// Whether a queue pair with this number left from here, or lives here and is not heard in its new place yet.
    fn is_moving(&self, number: u32) -> bool
        ensures { result ≡ rules.is_moving self.now number }
    {
        has_left(self.gone.as_slice(), number) || self.device.has_resuming_end(number)
    }

    /// Whether the partner of an end moves, as far as it can be seen here.
    fn peer_moves(&self, end: &EndImage) -> bool
        ensures { result ≡ rules.peer_moves self.now end.now.linked }
    {
        match &end.linked {
            Some(link) => !link.ended && self.is_moving(link.peer),
            None => false,
        }
    }

    /// Whether the partner of one of these ends moves.
    fn any_moves(&self, ends: &[EndImage]) -> bool
        ensures { result ≡ rules.any_moves self.now ends.now }
    {
        ends.iter().any(|end| self.peer_moves(end))
    }

    /// What is there after a context left with that image. Errors: `AllocError` when out of memory.
    fn leaving(
        &self,
        alloc: Global,
        device: Device,
        image: &ContextImage,
    ) -> Result<Leaving, AllocError>
        requires { IsLawful image.now }
        ensures device { IfOk result (λ l. l.device ≡ device) }
        ensures gone { IfOk result (λ l. l.gone.items
            ≡ self.now.gone ++ rules.leaving image.now.name image.now.ends) }
        ensures dump { IfOk result (λ l. l.dump.items ≡ dump_bytes version image.now) }
    {
        Ok(Leaving {
            device,
            gone: with_leaving(
                alloc,
                self.gone.as_slice(),
                image.name,
                image.ends.as_slice(),
            )?,
            dump: encode_dump(alloc, image)?,
        })
    }

    /// The stop of a context with that image. Errors: `AllocError` when out of memory.
    fn stop_of(
        &self,
        alloc: Global,
        device: Device,
        image: &ContextImage,
    ) -> Result<Stop, AllocError>
        requires { IsLawful image.now }
        ensures { IfOk result (λ s. IsStopOfImage self.now device image.now s) }
    {
        if self.any_moves(image.ends.as_slice()) {
            return Ok(Stop::Refused(Answer::Refused(Refusal::PeerMoving)));
        }
        Ok(Stop::Made(self.leaving(alloc, device, image)?))
    }

    /// The stop of a context, on a copy of the device. Errors: `AllocError` when out of memory.
    #[tactic(auto, unfolding(serve_rules::specs::Server::after, serve_rules::specs::Server::outcome_of, serve_rules::specs::Moving::refused_stop))]
    fn prepare_stop(&self, alloc: Global, name: Name) -> Result<Stop, AllocError>
        ensures { IfOk result (λ s. IsStopOf self.now name s) }
    {
        let (device, outcome) = stopped(alloc, &self.device, name)?;
        let image = outcome.image;
        match &image {
            None => Ok(Stop::Refused(outcome.answer)),
            Some(image) => self.stop_of(alloc, device, image),
        }
    }

    /// A context is gone from here.
    fn let_go(&mut self, leaving: Leaving)
        ensures { self.new ≡ record self.old
            { device = leaving.device; gone = leaving.gone.items } }
    {
        self.device = leaving.device;
        self.gone = leaving.gone;
    }

    /// A context leaves, where its dump is published.
    fn publish<S: Store>(
        &mut self,
        alloc: Global,
        store: &mut S,
        file: Name,
        leaving: Leaving,
    ) -> Reply
        ensures { PublishLeaves self.old leaving file result self.new
            (record { dumps = S.dumps store.old; claims = S.claims store.old })
            (record { dumps = S.dumps store.new; claims = S.claims store.new }) }
    {
        match store.publish(alloc, file, leaving.dump.as_slice()) {
            Ok(()) => {
                self.let_go(leaving);
                Reply::Stopped
            }
            Err(fault) => fault_reply(fault),
        }
    }

    /// Stops a context and publishes its dump. Where that fails, all is as before, here and in the store.
    pub(crate) fn stop<S: Store>(
        &mut self,
        alloc: Global,
        store: &mut S,
        name: Name,
        file: Name,
    ) -> Reply
        ensures { rules.StopLeaves self.old name file result self.new
            (record { dumps = S.dumps store.old; claims = S.claims store.old })
            (record { dumps = S.dumps store.new; claims = S.claims store.new }) }
    {
        match self.prepare_stop(alloc, name) {
            Err(AllocError) => Reply::Memory,
            Ok(Stop::Refused(answer)) => Reply::Device(answer),
            Ok(Stop::Made(leaving)) => self.publish(alloc, store, file, leaving),
        }
    }
}
