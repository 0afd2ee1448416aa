//! One step of a device.

ghost use Rattle.std.specs.Prelude.{◌≡◌, ◌≤◌, ◌^◌, [], length, IfOk, IfSome, IsOk, None, OnErr, OnOk};
ghost use Rattle.context_core.specs.Sending.{send_answer};
ghost use Rattle.rdma_types.specs.declared.names.ObjName as names;
ghost use Rattle.protocol.specs.declared.events.Event.{Event};
ghost use Rattle.protocol.specs.Bytes.{number_at};
ghost use Rattle.protocol.specs.DeviceStep.{device_step};
ghost use Rattle.law_arrivals.specs.Touched.{ChangesOnly, is_touched};
ghost use Rattle.law_arrivals.specs.Turns.{IsOfTurn, is_touched_by_event};
ghost use Rattle.protocol.specs.Events.{IsLawfulEvent};
ghost use Rattle.protocol.specs.Lawful.{IsLawful};
ghost use Rattle.protocol.specs.Refusals.{refusal_of};
ghost use Rattle.protocol.specs.Wire.{packet_of};
ghost use Rattle.device_core.specs.Done.{AreFew, AreLawful, IsDone, IsNotOutOfMemory, arrived, giving, told_step as step_told};
ghost use Rattle.device_core.specs.Finding.{IsAt, IsFound};
ghost use Rattle.device_core.specs.Readings.{DoNothing, TakesNoMemoryAt};

use crate::Device;
use crate::device::answered;
use crate::finding::{EndPlace, FoundEnd, destination};
use crate::telling::{refused, told_arrival, told_memory, told_sent, told_transmission};
use context_core::{Answered, ContextFault, Draft, NewEnd, SendRow};
use law_arrivals::turns_change_what_arrivals_may;
use protocol::{ContextImage, Event, Outcome};
use rdma_types::{Address, Answer, ArrivalEffect, Items, ObjName, Sent};
use std::alloc::{AllocError, Global};

/// What is told of a step: a refusal is an answer.
fn told_step(alloc: Global, done: Result<Outcome, ContextFault>) -> Result<Outcome, AllocError>
    ensures { result ≡ step_told done }
{
    match done {
        Ok(outcome) => Ok(outcome),
        Err(ContextFault::Refused(refusal)) => Ok(answered(alloc, Answer::Refused(refusal))),
        Err(ContextFault::OutOfMemory) => Err(AllocError),
    }
}

impl Device {
    /// What an event does, each by its own call.
    #[inline(always)]
    fn run(&mut self, alloc: Global, event: &Event) -> Result<Outcome, ContextFault>
        requires { IsLawfulEvent event.now }
        ensures done { IsDone self.old event.now self.new result }
        ensures bounded { AreFew result }
        ensures image { AreLawful result }
        ensures never_out_of_memory { TakesNoMemoryAt self.old event.now → IsNotOutOfMemory result }
    {
        match event {
            Event::MakeContext { name } => self.make_context(alloc, *name),
            Event::MakeRegion {
                name,
                domain,
                base,
                length,
                rights,
            } => { self.make_region(alloc, name, *domain, *base, *length, *rights) }
            Event::MakeQp {
                name,
                domain,
                send_cq,
                recv_cq,
                send_depth,
                recv_depth,
            } => {
                let asked = NewEnd {
                    name: name.name,
                    domain: *domain,
                    send_cq: *send_cq,
                    recv_cq: *recv_cq,
                    send_depth: *send_depth,
                    recv_depth: *recv_depth,
                };
                self.make_qp(alloc, name.context, &asked)
            }
            Event::Transmit { end } => told_sent(self.transmit(alloc, end)),
            Event::Arrive { from, bytes } => {
                told_memory(self.arrive(alloc, *from, bytes.as_slice()))
            }
            Event::Stop { context, alone } => self.stop(alloc, *context, *alone),
            Event::Restore { image } => self.put_image(alloc, image),
            Event::Release { context } => self.release(alloc, *context),
            Event::MakeDomain { name } | Event::MakeCq { name, .. } | Event::DropRegion { name } =>
                { self.act(alloc, name.context, event) }
            Event::Store { region, .. } | Event::Load { region, .. } => {
                self.act(alloc, region.context, event)
            }
            Event::Poll { cq, .. } => self.act(alloc, cq.context, event),
            Event::Connect { end, .. }
            | Event::PostSend { end, .. }
            | Event::PostRecv { end, .. }
            | Event::Expire { end }
            | Event::RnrOver { end } => self.act(alloc, end.context, event),
        }
    }

    /// What arrives here will change only what it may, and a transmission, an expiry or the end of a timer no memory.
    fn bounds_turns(&self)
        ensures { (e : Event) → IsOfTurn e
            → ChangesOnly (is_touched_by_event self.now e) self.now
            (device_step self.now e).device }
    {
        turns_change_what_arrivals_may();
        let _ = &self.id;
    }

    /// One step on an event. A refusal is an answer, and the device is then as before. Errors: `AllocError` when out of
    /// memory, and then no refusal is due; the device is as before. Connect, DropRegion, Store, PostRecv, Expire, RnrOver,
    /// Release and bytes that do nothing (as at `arrive`) take no memory. Transmit, Expire and RnrOver change no byte of a
    /// region, and Arrive only those that `arrive` may change.
    pub fn step(&mut self, alloc: Global, event: &Event) -> Result<Outcome, AllocError>
        requires { IsLawfulEvent event.now }
        ensures ok { IfOk result (λ o. device_step self.old event.now
            ≡ record { device = self.new; outcome = o }) }
        ensures bounded { IfOk result (λ o. length o.sent ≤ 2 ^ 32) }
        ensures image { IfOk result (λ o. IfSome o.image (λ i. IsLawful i)) }
        ensures id { self.new.id ≡ self.old.id }
        ensures address { self.new.address ≡ self.old.address }
        ensures never_out_of_memory { TakesNoMemoryAt self.old event.now → IsOk result }
        ensures refused_first { OnErr result (refusal_of self.old event.now ≡ None) }
        ensures touched { IsOfTurn event.now
            → ChangesOnly (is_touched_by_event self.old event.now) self.old self.new }
        ensures err { OnErr result (self.new ≡ self.old) }
    {
        self.bounds_turns();
        let done = self.run(alloc, event);
        told_step(alloc, done)
    }

    /// The step on `Event::Restore`, with an image that stays with its owner. Errors: `AllocError` when out of memory, and
    /// then no refusal is due; the device is as before.
    pub fn restore(&mut self, alloc: Global, image: &ContextImage) -> Result<Outcome, AllocError>
        requires { IsLawful image.now }
        ensures ok { IfOk result (λ o. device_step self.old (Event.Restore image.now)
            ≡ record { device = self.new; outcome = o }) }
        ensures bounded { IfOk result (λ o. length o.sent ≤ 2 ^ 32) }
        ensures id { self.new.id ≡ self.old.id }
        ensures address { self.new.address ≡ self.old.address }
        ensures refused_first { OnErr result (refusal_of self.old (Event.Restore image.now)
            ≡ None) }
        ensures err { OnErr result (self.new ≡ self.old) }
    {
        let done = self.put_image(alloc, image);
        told_step(alloc, done)
    }

    /// The step on `Event::Arrive`, with bytes that stay with their owner. Errors: `AllocError` when out of memory; the
    /// device is then as before. No memory is taken for bytes that are no datagram, for a datagram whose number is not
    /// here, nor for a message of moving that reaches a husk. Whatever the bytes are, they change no byte of a region but
    /// those that the queue pair that they name let them change (`is_touched`).
    pub fn arrive(
        &mut self,
        alloc: Global,
        from: Address,
        bytes: &[u8],
    ) -> Result<Outcome, AllocError>
        ensures ok { IfOk result (λ o. device_step self.old (Event.Arrive from bytes.now)
            ≡ record { device = self.new; outcome = o }) }
        ensures bounded { IfOk result (λ o. length o.sent ≤ 2 ^ 32) }
        ensures id { self.new.id ≡ self.old.id }
        ensures address { self.new.address ≡ self.old.address }
        ensures never_out_of_memory { DoNothing self.old (packet_of bytes.now) → IsOk result }
        ensures touched { ChangesOnly (is_touched self.old bytes.now) self.old self.new }
        ensures err { OnErr result (self.new ≡ self.old) }
    {
        let found = self.find_end(destination(bytes));
        let Answered { answer, sent } = self.arrive_at(alloc, from, bytes, found)?;
        Ok(Outcome {
            answer,
            sent,
            image: None,
        })
    }

    /// What `arrive` does, where the queue pair that the bytes are for was looked up before: by `find_end`, with the
    /// number in the bytes (`destination`), on the device as it is now.
    #[inline(always)]
    pub fn arrive_at(
        &mut self,
        alloc: Global,
        from: Address,
        bytes: &[u8],
        found: Option<FoundEnd>,
    ) -> Result<Answered, AllocError>
        requires { IsFound self.old (number_at 5 3 bytes.now) found }
        ensures ok { IfOk result (λ a. device_step self.old (Event.Arrive from bytes.now)
            ≡ record {
              device = self.new;
              outcome = record
                  { answer = a.answer; sent = a.sent; image = None };
            }) }
        ensures bounded { IfOk result (λ a. length a.sent ≤ 2 ^ 32) }
        ensures id { self.new.id ≡ self.old.id }
        ensures address { self.new.address ≡ self.old.address }
        ensures never_out_of_memory { DoNothing self.old (packet_of bytes.now) → IsOk result }
        ensures touched { ChangesOnly (is_touched self.old bytes.now) self.old self.new }
        ensures err { OnErr result (self.new ≡ self.old) }
    {
        self.bounds_turns();
        let arrived = self.take_bytes(alloc, from, bytes, found);
        told_arrival(arrived)
    }

    /// What `arrive_at` does, and what answers the bytes is in the draft; what was there before is gone. The answer is what
    /// the bytes did. Errors: `AllocError` when out of memory; the device is then as before.
    #[inline(always)]
    pub fn arrive_into(
        &mut self,
        alloc: Global,
        draft: &mut Draft,
        from: Address,
        bytes: &[u8],
        found: Option<FoundEnd>,
    ) -> Result<ArrivalEffect, AllocError>
        requires { IsFound self.old (number_at 5 3 bytes.now) found }
        ensures ok { IfOk result (λ took. device_step self.old (Event.Arrive from bytes.now)
            ≡ record { device = self.new; outcome = arrived took draft.new }) }
        ensures bounded { OnOk result (length draft.new ≤ 2 ^ 32) }
        ensures id { self.new.id ≡ self.old.id }
        ensures address { self.new.address ≡ self.old.address }
        ensures never_out_of_memory { DoNothing self.old (packet_of bytes.now) → IsOk result }
        ensures touched { ChangesOnly (is_touched self.old bytes.now) self.old self.new }
        ensures err { OnErr result (self.new ≡ self.old) }
    {
        self.bounds_turns();
        self.take_bytes_into(alloc, draft, from, bytes, found)
    }

    /// The step on `Event::Transmit`: the next packet of an end, where it may send one. A refusal is an answer, and the
    /// device is then as before. Errors: `AllocError` when out of memory, and then no refusal is due; the device is as
    /// before.
    #[inline(always)]
    pub fn transmit(&mut self, alloc: Global, end: &ObjName) -> Result<Answered, AllocError>
        ensures ok { IfOk result (λ a. device_step self.old (Event.Transmit end.now)
            ≡ record {
              device = self.new;
              outcome = record
                  { answer = a.answer; sent = a.sent; image = None };
            }) }
        ensures bounded { IfOk result (λ a. length a.sent ≤ 2 ^ 32) }
        ensures id { self.new.id ≡ self.old.id }
        ensures address { self.new.address ≡ self.old.address }
        ensures refused_first { OnErr result (refusal_of self.old (Event.Transmit end.now) ≡ None) }
        ensures err { OnErr result (self.new ≡ self.old) }
    {
        let Some(state) = self.contexts.get_mut(&end.context) else {
            return Ok(refused(alloc, self.missing(end.context)));
        };
        let own = self.address;
        let sent = state.transmit(alloc, &mut self.draft, &self.pool, end.name, own);
        told_transmission(alloc, sent)
    }

    /// What `transmit` does, where the queue pair was looked up before: by `place_of`, on the device as it is now. What is
    /// sent is in the draft, and what was there before is gone. Errors: `AllocError` when out of memory; the device is
    /// then as before, and nothing is in the draft.
    #[inline(always)]
    pub fn transmit_at(
        &mut self,
        alloc: Global,
        draft: &mut Draft,
        at: EndPlace,
    ) -> Result<SendRow, AllocError>
        requires { (o : names.ObjName) × IsAt self.old o at }
        ensures ok { (o : names.ObjName) → IsAt self.old o at
            → IfOk result (λ row. device_step self.old (Event.Transmit o)
            ≡ record { device = self.new; outcome = giving (send_answer row) draft.new }) }
        ensures bounded { length draft.new ≤ 1 }
        ensures id { self.new.id ≡ self.old.id }
        ensures address { self.new.address ≡ self.old.address }
        ensures err { OnErr result (self.new ≡ self.old) }
        ensures err_draft { OnErr result (draft.new ≡ []) }
    {
        let own = self.address;
        let state = &mut self.contexts[at.context];
        state.transmit_at(alloc, draft, &self.pool, at.place, own)
    }

    /// Takes the memory of a datagram back, to be filled again.
    pub fn give_back(&mut self, bytes: Items<u8>)
        ensures { self.new ≡ self.old }
    {
        self.draft.give(bytes);
    }

    /// Takes the memory of a list of datagrams back, to be filled again. What is in the list goes.
    pub fn give_back_list(&mut self, list: Vec<Sent>)
        ensures { self.new ≡ self.old }
    {
        self.draft.give_list(list);
    }
}
