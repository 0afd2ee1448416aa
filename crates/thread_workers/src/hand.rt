//! One who makes steps at shared devices, with the receipts of them.

ghost use Rattle.std.specs.Prelude.{IfOk, IfSome};
ghost use Rattle.protocol.specs.Events.{IsLawfulEvent};
ghost use Rattle.protocol.specs.Lawful.{IsLawful};

use crate::events::{StepEffect, arrives, told_by};
use crate::gate::Gate;
use crate::site::SharedDevices;
use protocol::Event;
use rdma_types::{Address, Items};
use shared_device::{Receipt, Station, StationGuard};
use std::alloc::Global;
use std::sync::Wait;
use thread_plan::PlanFault;

/// A worker, or as number 0 the mover or the caller.
#[derive(Drop)]
pub struct Stepper<'a, G> {
    site: &'a SharedDevices,
    gate: &'a G,
    worker: u32,
    /// It passed the gate for the next step already, before it took the lock.
    has_passed: bool,
    receipts: Items<Receipt>,
    /// The receipts before this place have no datagram that is still to arrive.
    arriving: usize,
    /// How many datagrams of the receipt at that place have arrived.
    arrived: usize,
    /// Since its turn began, a step changed something or a datagram arrived.
    has_worked: bool,
    /// .. a datagram arrived or completions were polled: another one may go on.
    has_news: bool,
}

impl<'a, G: Gate> Stepper<'a, G> {
    /// One with that number, who holds these receipts; all that they sent has arrived.
    pub fn new(
        site: &'a SharedDevices,
        gate: &'a G,
        worker: u32,
        receipts: Items<Receipt>,
    ) -> Stepper<'a, G> {
        let arriving = receipts.len();
        Stepper {
            site,
            gate,
            worker,
            has_passed: false,
            receipts,
            arriving,
            arrived: 0,
            has_worked: false,
            has_news: false,
        }
    }

    /// The receipts.
    pub fn into_receipts(self) -> Items<Receipt> {
        let Stepper { receipts, .. } = self;
        receipts
    }

    /// Takes the lock of a device, after the gate.
    fn lock_at<R: Wait>(&mut self, rt: &R, station: &'a Station) -> StationGuard<'a> {
        self.gate.pass(self.worker);
        self.has_passed = true;
        station.lock(rt, &self.site.orders)
    }

    /// Takes the lock of the device with an id, after the gate, for one call and more. Errors: where there is no such device.
    pub fn lock<R: Wait>(&mut self, rt: &R, id: u8) -> Result<StationGuard<'a>, PlanFault> {
        let site = self.site;
        match site.station(id) {
            Some(station) => Ok(self.lock_at(rt, station)),
            None => Err(PlanFault::NotAsPlanned),
        }
    }

    /// Asks a device for an event, after the gate; the receipt is still to be kept. Errors: out of memory.
    pub fn ask<R: Wait>(
        &mut self,
        rt: &R,
        alloc: Global,
        guard: &mut StationGuard<'_>,
        event: Event,
    ) -> Result<Receipt, PlanFault>
        requires { IsLawfulEvent event }
        ensures { IfOk result (λ r. IfSome r.outcome.image (λ i. IsLawful i)) }
    {
        if !self.has_passed {
            self.gate.pass(self.worker);
        }
        self.has_passed = false;
        let receipt = guard.call(rt, alloc, self.worker, event)?;
        Ok(receipt)
    }

    /// Notes what its turn did.
    fn note(&mut self, told: StepEffect) {
        match told {
            StepEffect::Accepted | StepEffect::Sent => self.has_worked = true,
            StepEffect::Polled | StepEffect::Changed => {
                self.has_worked = true;
                self.has_news = true;
            }
            StepEffect::Idle
            | StepEffect::Ended
            | StepEffect::NothingInFlight
            | StepEffect::Unchanged => {}
        }
    }

    /// Keeps a receipt, and says what it tells.
    pub fn keep(&mut self, receipt: Receipt) -> Result<StepEffect, PlanFault> {
        let told = told_by(&receipt.outcome().answer);
        self.note(told);
        self.receipts.push(receipt)?;
        Ok(told)
    }

    /// Asks, and keeps the receipt.
    pub fn call<R: Wait>(
        &mut self,
        rt: &R,
        alloc: Global,
        guard: &mut StationGuard<'_>,
        event: Event,
    ) -> Result<StepEffect, PlanFault>
        requires { IsLawfulEvent event }
    {
        let receipt = self.ask(rt, alloc, guard, event)?;
        self.keep(receipt)
    }

    /// Where the oldest datagram goes that its steps sent and that is still to arrive.
    fn next_address(&mut self) -> Option<Address> {
        for at in self.arriving..self.receipts.len() {
            let receipt = self.receipts.as_slice().get(at)?;
            if let Some(sent) = receipt.outcome().sent.as_slice().get(self.arrived) {
                return Some(sent.to);
            }
            self.arriving = at + 1;
            self.arrived = 0;
        }
        None
    }

    /// The arrival of that datagram.
    fn arrival(&self, alloc: Global) -> Result<Option<Event>, PlanFault>
        ensures { IfOk result (λ event. IfSome event (λ e. IsLawfulEvent e)) }
    {
        let Some(receipt) = self.receipts.as_slice().get(self.arriving) else {
            return Ok(None);
        };
        let Some(sent) = receipt.outcome().sent.as_slice().get(self.arrived) else {
            return Ok(None);
        };
        let Some(station) = self.site.station(receipt.device()) else {
            return Ok(None);
        };
        let event = arrives(alloc, station.address(), sent.bytes.as_slice())?;
        Ok(Some(event))
    }

    /// That datagram arrives at a device.
    fn bring<R: Wait>(
        &mut self,
        rt: &R,
        alloc: Global,
        guard: &mut StationGuard<'_>,
    ) -> Result<(), PlanFault> {
        let arrival = self.arrival(alloc)?;
        self.arrived = self.arrived.saturating_add(1);
        if let Some(event) = arrival {
            self.call(rt, alloc, guard, event)?;
            self.note(StepEffect::Changed);
        }
        Ok(())
    }

    /// The oldest datagrams arrive at a device, as long as they go there; the answer is how many did.
    pub fn bring_all<R: Wait>(
        &mut self,
        rt: &R,
        alloc: Global,
        guard: &mut StationGuard<'_>,
    ) -> Result<u32, PlanFault> {
        let mut came = 0u32;
        for _ in rt.forever() {
            if self.next_address() != Some(guard.address()) {
                break;
            }
            self.bring(rt, alloc, guard)?;
            came = came.saturating_add(1);
        }
        Ok(came)
    }

    /// Delivers what its steps sent, oldest first, until nothing is left or the oldest goes to the device with the id `but`. What
    /// goes to no device is lost.
    pub fn deliver<R: Wait>(
        &mut self,
        rt: &R,
        alloc: Global,
        but: Option<u8>,
    ) -> Result<(), PlanFault> {
        let site = self.site;
        for _ in rt.forever() {
            let Some(to) = self.next_address() else {
                break;
            };
            let Some(station) = site.station_at(to) else {
                self.arrived = self.arrived.saturating_add(1);
                continue;
            };
            if but == Some(station.id()) {
                break;
            }
            let mut guard = self.lock_at(rt, station);
            self.bring_all(rt, alloc, &mut guard)?;
        }
        Ok(())
    }

    /// Whether its turn did something so far.
    pub fn has_worked(&self) -> bool {
        self.has_worked
    }

    /// Ends a turn, and where it has news wakes those that wait for it. The answer is how many turns of all have ended with news.
    pub fn end_turn<R: Wait>(&mut self, rt: &R) -> u64 {
        let has_news = self.has_news;
        self.has_worked = false;
        self.has_news = false;
        if has_news {
            self.site.orders.end_turn(rt)
        } else {
            self.site.orders.turns(rt)
        }
    }

    /// Whether all was halted.
    pub fn is_halted<R: Wait>(&self, rt: &R) -> bool {
        self.site.orders.is_halted(rt)
    }

    /// Where its turn did nothing, waits until another one's turn has ended with news. Says whether to go on, and not where all
    /// was halted.
    pub fn wait_for_news<R: Wait>(&mut self, rt: &R, seen: u64) -> bool {
        self.has_worked || self.site.orders.wait_past(rt, seen)
    }
}
