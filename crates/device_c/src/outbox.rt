//! The datagrams of the last step of a device.

ghost use Rattle.std.specs.Prelude.{◌≡◌, ◌<◌, ◌^◌, [], length, slice_get, IfOk, IsSome, None, OnErr};
ghost use Rattle.std.specs.Option.{option_copied};
ghost use Rattle.rdma_types.specs.declared.names.ObjName as names;
ghost use Rattle.protocol.specs.DeviceStep.{device_step};
ghost use Rattle.protocol.specs.declared.events.Event.TheVariants as event;
ghost use Rattle.device_core.specs.Finding.{IsAt};

use device_core::{Device, Draft, EndPlace, destination};
use rdma_types::{Address, Answer, Items, Sent};
use std::alloc::{AllocError, Global};
use std::marker::Model;

/// The datagrams that the last step sent, and a draft for those of the next. Contracts see the datagrams.
#[derive(Drop)]
pub(crate) struct Outbox {
    last: Draft,
    next: Draft,
}

impl Model for Outbox {
    ghost use Rattle.std.specs.Prelude.{List};
    ghost use Rattle.rdma_types.specs.declared.answers.Sent as answers;

    ghost Value = { List answers.Sent };

    ghost view = { λ o. o.last };
}

impl Outbox {
    /// No datagram. Errors: `AllocError` when out of memory.
    pub(crate) fn make(alloc: Global) -> Result<Outbox, AllocError>
        ensures { IfOk result (λ o. o ≡ []) }
    {
        Ok(Outbox {
            last: Draft::make(alloc)?,
            next: Draft::make(alloc)?,
        })
    }

    /// How many datagrams there are.
    pub(crate) fn count(&self) -> u64
        ensures { result ≡ length self.now }
    {
        self.last.len()
    }

    /// Datagram `i`.
    pub(crate) fn get(&self, i: usize) -> Option<&Sent>
        ensures datagram { option_copied result ≡ slice_get self.now i }
        ensures few { IsSome result → i < 2 ^ 63 }
    {
        self.last.get(i)
    }

    /// The datagrams of a step, in place of those that were there.
    #[inline(always)]
    pub(crate) fn put(&mut self, sent: Items<Sent>)
        ensures { self.new ≡ sent }
    {
        self.last.put_all(sent);
    }

    /// The queue pair at a place of the device sends its next packet. Errors: `AllocError` when out of memory, and then all
    /// is as before.
    pub(crate) fn transmit(
        &mut self,
        alloc: Global,
        device: &mut Device,
        at: EndPlace,
    ) -> Result<Answer, AllocError>
        requires { (o : names.ObjName) × IsAt device.old o at }
        ensures ok { (o : names.ObjName) → IsAt device.old o at
            → IfOk result (λ a. device_step device.old (event.Transmit o)
            ≡ record {
              device = device.new;
              outcome = record { answer = a; sent = self.new; image = None };
            }) }
        ensures err { OnErr result ((device.new ≡ device.old) × (self.new ≡ self.old)) }
    {
        let row = device.transmit_at(alloc, &mut self.next, at)?;
        std::mem::swap(&mut self.last, &mut self.next);
        Ok(row.answer())
    }

    /// Bytes arrive at the device. Errors: `AllocError` when out of memory, and then all is as before.
    pub(crate) fn arrive(
        &mut self,
        alloc: Global,
        device: &mut Device,
        from: Address,
        bytes: &[u8],
    ) -> Result<Answer, AllocError>
        ensures ok { IfOk result (λ a. device_step device.old (event.Arrive from bytes.now)
            ≡ record {
              device = device.new;
              outcome = record { answer = a; sent = self.new; image = None };
            }) }
        ensures err { OnErr result ((device.new ≡ device.old) × (self.new ≡ self.old)) }
    {
        let found = device.find_end(destination(bytes));
        let took = device.arrive_into(alloc, &mut self.next, from, bytes, found)?;
        std::mem::swap(&mut self.last, &mut self.next);
        let count = self.last.len();
        Ok(Answer::Took {
            took,
            first: 0,
            count,
        })
    }
}
