//! A device with the journal of its steps.

ghost use Rattle.std.specs.Prelude.{◌≡◌, ◌<◌, length, slice_get, option_map, IfOk, IfSome, OnErr};
ghost use Rattle.std.specs.Arc.{arc_value};
ghost use Rattle.protocol.specs.Events.{IsLawfulEvent};
ghost use Rattle.shared_device.specs.Books.{IsBookStep, IsStepOf, device_of, opened_with};

use crate::Step;
use device_core::Device;
use protocol::{Event, Outcome};
use rdma_types::{Answer, Items};
use std::alloc::{AllocError, Global};
use std::marker::Model;
use std::sync::Arc;

/// A device, as it opened and as it is, with the steps that led from the one to the other. Contracts see the opening
/// and the events; the device and the outcomes are what the rules give for them. The journal has no limit.
#[derive(Drop)]
pub struct Book {
    opening: Device,
    journal: Vec<Arc<Step>>,
    device: Device,
}

impl Model for Book {
    ghost use Rattle.shared_device.specs.Books.{BookView, IsHeld, events_of, steps_in};

    ghost Value = { BookView };

    ghost view = { λ b. record { opening = b.opening; journal = events_of (steps_in b.journal.items) } };

    ghost invariant = { λ b. IsHeld b.opening (steps_in b.journal.items) b.device };
}

/// A step whose outcome is still to come.
fn asked(alloc: Global, event: Event) -> Step
    ensures { result.event ≡ event }
{
    Step {
        event,
        outcome: Outcome {
            answer: Answer::Idle,
            sent: Items::new(Vec::new(alloc)),
            image: None,
        },
    }
}

impl Book {
    /// The book of a device, with an empty journal and a copy of the device. Errors: `AllocError` when out of memory.
    pub fn make(alloc: Global, device: Device) -> Result<Book, AllocError>
        ensures { IfOk result (λ b. b ≡ opened_with device) }
    {
        let opening = device.copy(alloc)?;
        Ok(Book {
            opening,
            journal: Vec::new(alloc),
            device,
        })
    }

    /// Steps the device on a lawful event, and journals the step; the answer is its place in the journal, from 0. Errors:
    /// `AllocError` when out of memory; the book is then as before.
    pub fn step(&mut self, alloc: Global, event: Event) -> Result<u64, AllocError>
        requires { IsLawfulEvent event }
        ensures ok { IfOk result (IsBookStep self.old self.new event) }
        ensures err { OnErr result (self.new ≡ self.old) }
    {
        self.journal.try_reserve(1)?;
        let mut step = Arc::new(alloc, asked(alloc, event))?;
        let Some(noted) = Arc::get_mut(&mut step) else {
            return Err(AllocError);
        };
        noted.outcome = self.device.step(alloc, &noted.event)?;
        let place = self.journal.len() as u64;
        self.journal.push(step).unwrap();
        Ok(place)
    }

    /// Step `place`, from 0; None where there are fewer.
    pub fn step_at(&self, place: u64) -> Option<&Step>
        ensures event { option_map (λ s. s.now.event) result ≡ slice_get self.now.journal place }
        ensures is { IfSome result (λ s. IsStepOf self.now place s.now) }
    {
        match self.journal.get(place as usize) {
            Some(step) => Some(step),
            None => None,
        }
    }

    /// Step `place`, from 0, shared with the journal. Errors: `AllocError` where 2^63 share it.
    pub fn share(&self, place: u64) -> Result<Arc<Step>, AllocError>
        requires { place < length self.now.journal }
        ensures { IfOk result (λ s. IsStepOf self.now place (arc_value s)) }
    {
        Ok(Arc::try_clone(&self.journal[place as usize])?)
    }

    /// The device as it opened.
    pub fn opening(&self) -> &Device
        ensures { result.now ≡ self.now.opening }
    {
        &self.opening
    }

    /// The device as it is.
    pub fn device(&self) -> &Device
        ensures { result.now ≡ device_of self.now }
    {
        &self.device
    }

    /// The same, without its journal.
    pub fn into_device(self) -> Device
        ensures { result ≡ device_of self }
    {
        let Book { device, .. } = self;
        device
    }

    /// How many steps there are.
    pub fn len(&self) -> u64
        ensures { result ≡ length self.now.journal }
    {
        self.journal.len() as u64
    }
}
