//! What a worker holds of a step that it asked of a device.

ghost use Rattle.std.specs.Prelude.{◌≡◌};
ghost use Rattle.std.specs.Arc.{arc_value};

use protocol::{Event, Outcome};
use std::marker::Model;
use std::sync::Arc;

/// A step of a device: the event that it was asked for, and its outcome.
#[derive(Drop)]
pub struct Step {
    pub event: Event,
    pub outcome: Outcome,
}

/// What a worker holds of a step that it asked of a device. The step is shared with the journal of the device.
#[derive(Drop)]
pub struct Receipt {
    worker: u32,
    device: u8,
    place: u64,
    step: Arc<Step>,
}

impl Model for Receipt {
    ghost use Rattle.std.specs.Arc.{arc_value};
    ghost use Rattle.order_rules.specs.declared.Receipt as told;

    ghost Value = { told.Receipt };

    ghost view = { λ r. record { worker = r.worker; device = r.device; place = r.place; event = (arc_value r.step).event; outcome = (arc_value r.step).outcome } };
}

impl Receipt {
    /// The receipt of a step, which is number `place` of the device with that id, counted from 0.
    pub fn new(worker: u32, device: u8, place: u64, step: Arc<Step>) -> Receipt
        ensures { result
            ≡ record {
              worker = worker;
              device = device;
              place = place;
              event = (arc_value step).event;
              outcome = (arc_value step).outcome;
            } }
    {
        Receipt {
            worker,
            device,
            place,
            step,
        }
    }

    /// The number of the worker who asked.
    pub fn worker(&self) -> u32
        ensures { result ≡ self.now.worker }
    {
        self.worker
    }

    /// The device's id.
    pub fn device(&self) -> u8
        ensures { result ≡ self.now.device }
    {
        self.device
    }

    /// Which step of that device it was, counted from 0.
    pub fn place(&self) -> u64
        ensures { result ≡ self.now.place }
    {
        self.place
    }

    /// What was asked.
    pub fn event(&self) -> &Event
        ensures { result.now ≡ self.now.event }
    {
        &self.step.event
    }

    /// What the step gave.
    pub fn outcome(&self) -> &Outcome
        ensures { result.now ≡ self.now.outcome }
    {
        &self.step.outcome
    }
}
