//! Datagrams of a world: delivered, lost and shown.

ghost use Rattle.std.specs.Prelude.{◌≡◌, ℕ, ◌≤◌, ◌<◌, ◌^◌, length, slice_get, is_some, true, IfOk, IsOk, OnErr, OnOk, Option, Some};
ghost use Rattle.std.specs.List.{position};
ghost use Rattle.rdma_types.specs.declared.answers.Answer.TheVariants as answer;
ghost use Rattle.device_core.specs.Done.{arrived};
ghost use Rattle.device_core.specs.Finding.{IsFound};
ghost use Rattle.device_core.specs.Readings.{DoNothing};
ghost use Rattle.law_arrivals.specs.Touched.{ChangesOnly, is_touched};
ghost use Rattle.protocol.specs.Bytes.{byte_at, number_at};
ghost use Rattle.protocol.specs.DeviceStep.{device_step};
ghost use Rattle.protocol.specs.Fabric.{kept_flight};
ghost use Rattle.protocol.specs.State as state;
ghost use Rattle.protocol.specs.Wire.{packet_of};
ghost use Rattle.protocol.specs.WorldStep as rules;
ghost use Rattle.protocol.specs.declared.events.Event.TheVariants as event;
ghost use Rattle.protocol.specs.declared.events.WorldEvent.TheVariants as world_event;
ghost use Rattle.world_core.specs.Delivered.{ChangesWorldOnly, is_delivered, is_touched_on};
ghost use Rattle.world_core.specs.Kept.{IsReady, Makes, TakesNoMemory};
ghost use Rattle.world_core.specs.Sites.{IsDelivery, IsFoundOn};

use crate::World;
use crate::running::{first_number, send_draft};
use device_core::{Device, Draft, FoundEnd, destination};
use fabric::{DatagramState, Fabric, Flight};
use rdma_types::{Answer, ArrivalEffect, DropReason, Items};
use roce_headers::opcodes::is_request;
use std::alloc::{AllocError, Global};

/// What becomes of a datagram that is delivered.
#[derive(Clone, Copy)]
pub(crate) enum Delivery {
    Gone,
    Lost,
    Aged,
    /// No device has its address.
    Nowhere,
    /// It comes to the device at a place, and there to a connected queue pair, if there is one.
    Comes(usize, Option<FoundEnd>),
}

/// The opcode of bytes; 0 where there are none.
fn opcode(bytes: &[u8]) -> u8
    ensures { result ≡ byte_at 0 bytes.now }
{
    bytes.first().copied().unwrap_or(0)
}

/// What the end that bytes are for keeps, which was found before: its expected number for a request and its `top` for a
/// response; 0 where there is no such end.
#[inline(always)]
fn mark_of(found: Option<FoundEnd>, bytes: &[u8]) -> u64
    ensures { (o : Option state.Device) → IsFoundOn o bytes.now found
        → result ≡ rules.now_at o bytes.now }
{
    match found {
        Some(end) if is_request(opcode(bytes)) => end.expected,
        Some(end) => end.top,
        None => 0,
    }
}

/// What a datagram did where it came, the number of the first datagram that answers it, and how many do.
#[derive(Clone, Copy)]
pub(crate) struct Reached {
    pub(crate) took: ArrivalEffect,
    pub(crate) first: u64,
    pub(crate) count: u64,
}

/// A kept datagram reaches a device, where the end that it is for was found before. The device hands out no image for it.
#[inline(always)]
fn reach(
    fabric: &Fabric,
    device: &mut Device,
    draft: &mut Draft,
    alloc: Global,
    k: u64,
    found: Option<FoundEnd>,
) -> Result<ArrivalEffect, AllocError>
    requires kept { is_some (kept_flight fabric.now k) ≡ true }
    requires found { (f : state.Flight) → kept_flight fabric.now k ≡ Some f
        → IsFound device.old (number_at 5 3 f.bytes) found }
    ensures ok { IfOk result (λ took. (f : state.Flight) → kept_flight fabric.now k ≡ Some f
        → device_step device.old (event.Arrive f.from f.bytes)
        ≡ record { device = device.new; outcome = arrived took draft.new }) }
    ensures bounded { OnOk result (length draft.new ≤ 2 ^ 32) }
    ensures touched { (f : state.Flight) → kept_flight fabric.now k ≡ Some f
        → ChangesOnly (is_touched device.old f.bytes) device.old device.new }
    ensures never_out_of_memory { ((f : state.Flight) → kept_flight fabric.now k ≡ Some f
        → DoNothing device.old (packet_of f.bytes)) → IsOk result }
    ensures same { (device.new.id ≡ device.old.id) × (device.new.address ≡ device.old.address) }
    ensures err { OnErr result (device.new ≡ device.old) }
{
    let flight = fabric.kept(k).unwrap();
    device.arrive_into(
        alloc,
        draft,
        flight.from,
        flight.sent.bytes.as_slice(),
        found,
    )
}

impl World {
    /// The connected queue pair that a datagram is for, where the device with its address is at a place; None where there
    /// is no such device or queue pair.
    fn end_for(&self, place: Option<usize>, flight: &Flight) -> Option<FoundEnd>
        requires { place
            ≡ position (λ d. rules.same_address d.address flight.now.to) self.now.devices }
        ensures { IsFoundOn (rules.device_with self.now flight.now.to) flight.now.bytes result }
    {
        match place {
            Some(place) => {
                let number = destination(flight.sent.bytes.as_slice());
                self.devices[place].find_end(number)
            }
            None => None,
        }
    }

    /// What becomes of datagram k.
    fn delivery(&self, k: u64) -> Delivery
        ensures { IsDelivery self.now k result }
    {
        let Some(flight) = self.fabric.kept(k) else {
            return Delivery::Gone;
        };
        let place = self.place_with(flight.sent.to);
        let found = self.end_for(place, flight);
        match flight.look(mark_of(found, flight.sent.bytes.as_slice())) {
            DatagramState::Gone => Delivery::Gone,
            DatagramState::Lost => Delivery::Lost,
            DatagramState::Aged => Delivery::Aged,
            DatagramState::Here(_) => match place {
                Some(place) => Delivery::Comes(place, found),
                None => Delivery::Nowhere,
            },
        }
    }

    /// Datagram k is delivered.
    pub(crate) fn deliver(&mut self, alloc: Global, k: u64) -> Result<Answer, AllocError>
        requires ready { IsReady self.old }
        ensures ok { IfOk result (λ answer. Makes (rules.delivers self.old k) answer self.new) }
        ensures touched { IfOk result (λ answer. ChangesWorldOnly
            (is_delivered self.old k) self.old self.new) }
        ensures never_out_of_memory { TakesNoMemory self.old (world_event.Deliver k) → IsOk result }
        ensures err { OnErr result (self.new ≡ self.old) }
    {
        match self.delivery(k) {
            Delivery::Gone => Ok(Answer::Gone),
            Delivery::Lost => Ok(Answer::Lost),
            Delivery::Aged => {
                self.fabric.took(k);
                Ok(Answer::Aged)
            }
            Delivery::Nowhere => {
                self.fabric.took(k);
                Ok(Answer::Took {
                    took: ArrivalEffect::Silent(DropReason::Unknown),
                    first: 0,
                    count: 0,
                })
            }
            Delivery::Comes(place, found) => {
                let Reached { took, first, count } = self.arrive(alloc, place, k, found)?;
                Ok(Answer::Took { took, first, count })
            }
        }
    }

    /// Datagram k reaches the device at a place, where the end that it is for was found before, and what that does is done
    /// to the world.
    #[inline(always)]
    fn arrive(
        &mut self,
        alloc: Global,
        place: usize,
        k: u64,
        found: Option<FoundEnd>,
    ) -> Result<Reached, AllocError>
        requires place { place < length self.old.devices }
        requires kept { is_some (kept_flight self.old.sent k) ≡ true }
        requires found { (f : state.Flight) → (d : state.Device)
            → kept_flight self.old.sent k ≡ Some f → slice_get self.old.devices place ≡ Some d
            → IsFound d (number_at 5 3 f.bytes) found }
        requires ready { IsReady self.old }
        ensures ok { IfOk result (λ r. (f : state.Flight) → (d : state.Device)
            → kept_flight self.old.sent k ≡ Some f → slice_get self.old.devices place ≡ Some d
            → Makes (rules.reaches (rules.with_taken self.old k) f (Some d))
            (answer.Took r.took r.first r.count) self.new) }
        ensures touched { IfOk result (λ _. (f : state.Flight) → (d : state.Device)
            → kept_flight self.old.sent k ≡ Some f → slice_get self.old.devices place ≡ Some d
            → ChangesWorldOnly (is_touched_on d f) self.old self.new) }
        ensures never_out_of_memory { ((f : state.Flight) → (d : state.Device)
            → kept_flight self.old.sent k ≡ Some f → slice_get self.old.devices place ≡ Some d
            → DoNothing d (packet_of f.bytes)) → IsOk result }
        ensures err { OnErr result (self.new ≡ self.old) }
    {
        let device = &mut self.devices[place];
        let took = reach(&self.fabric, device, &mut self.draft, alloc, k, found)?;
        let address = device.address();
        self.fabric.took(k);
        let count = self.draft.len();
        let first = first_number(count, self.fabric.next());
        send_draft(&mut self.fabric, &mut self.draft, address);
        Ok(Reached { took, first, count })
    }

    /// Datagram k is lost.
    pub(crate) fn lose(&mut self, k: u64) -> Answer
        requires ready { IsReady self.old }
        ensures { Makes (rules.loses self.old k) result self.new }
    {
        if self.fabric.lose(k) {
            Answer::Done
        } else {
            Answer::Gone
        }
    }

    /// The bytes of datagram k, also where it is lost.
    pub(crate) fn wire(&self, alloc: Global, k: u64) -> Result<Answer, AllocError>
        requires ready { IsReady self.now }
        ensures { IfOk result (λ answer. Makes (rules.wires self.now k) answer self.now) }
    {
        match self.fabric.kept(k) {
            Some(flight) => {
                let bytes = Vec::from_slice(alloc, flight.sent.bytes.as_slice())?;
                Ok(Answer::Wire(Items::new(bytes)))
            }
            None => Ok(Answer::Gone),
        }
    }
}
