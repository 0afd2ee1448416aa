//! What a device's step does to a world.

ghost use Rattle.std.specs.Prelude.{◌≡◌, ℕ, ◌+◌, ◌==◌, ◌≤◌, ◌<◌, ◌^◌, ◌++◌, ◌∷◌, [], length, reverse, slice_get, true, if◌then◌else◌, IfOk, IsOk, OnErr, OnOk, Option, Some, None};
ghost use Rattle.protocol.specs.Events.{IsLawfulEvent};
ghost use Rattle.protocol.specs.Fabric.{forgetting, sending};
ghost use Rattle.protocol.specs.State.{Device};
ghost use Rattle.protocol.specs.declared.events.Event.TheVariants as event;
ghost use Rattle.protocol.specs.Refusals.{refusal_of};
ghost use Rattle.protocol.specs.WorldStep.{numbered, runs};
ghost use Rattle.context_core.specs.Sending.{send_answer};
ghost use Rattle.rdma_types.specs.declared.names.ObjName as names;
ghost use Rattle.device_core.specs.Finding.{IsAt};
ghost use Rattle.device_core.specs.Readings.{TakesNoMemory};
ghost use Rattle.indexmap.specs.IndexMap.{spare};
ghost use Rattle.world_core.specs.Causes.{told_due};
ghost use Rattle.world_core.specs.Homes.{MakesOrStops, mover};
ghost use Rattle.world_core.specs.Kept.{IsReady, Makes};
ghost use Rattle.world_core.specs.Places.{images_of, names_of};

use crate::World;
use crate::index::{moved_context, note_home};
use crate::stops::Stops;
use device_core::{ContextImage, Device, Draft, EndPlace, SendRow};
use fabric::{Fabric, Flight};
use indexmap::IndexMap;
use protocol::{Event, Outcome};
use rdma_types::{Address, Answer, Items, Name, ObjName, Refusal, Sent};
use std::alloc::{AllocError, Global};

/// Sends a datagram. The memory of the one that the network forgets for it is filled again.
#[inline(always)]
fn send_one(fabric: &mut Fabric, draft: &mut Draft, from: Address, datagram: Sent)
    requires { length fabric.old + 1 < 2 ^ 63 }
    ensures sent { fabric.new ≡ forgetting (sending fabric.old from (datagram ∷ [])) }
    ensures count { length fabric.new ≡ length fabric.old + 1 }
    ensures draft { draft.new ≡ draft.old }
{
    if let Some(forgotten) = fabric.send(from, datagram) {
        let Flight { sent, .. } = forgotten;
        draft.give(sent.bytes);
    }
}

/// Sends datagrams in their order. The memory of those that the network forgets for them, and that of their list, is
/// filled again.
fn send_all(fabric: &mut Fabric, draft: &mut Draft, from: Address, sent: Items<Sent>)
    requires kept { forgetting fabric.old ≡ fabric.old }
    requires bounded { length fabric.old + length sent < 2 ^ 63 }
    ensures sent { fabric.new ≡ forgetting (sending fabric.old from sent) }
    ensures draft { draft.new ≡ draft.old }
{
    let mut list = sent.into_vec();
    list.reverse();
    while let Some(datagram) = list.pop() {
        send_one(fabric, draft, from, datagram);
    }
    draft.give_list(list);
}

/// Sends the datagrams in a draft, in their order. The memory of those that the network forgets for them is filled again.
#[inline(always)]
pub(crate) fn send_draft(fabric: &mut Fabric, draft: &mut Draft, from: Address)
    requires kept { forgetting fabric.old ≡ fabric.old }
    requires bounded { length fabric.old + length draft.old < 2 ^ 63 }
    ensures sent { fabric.new ≡ forgetting (sending fabric.old from draft.old) }
    ensures empty { draft.new ≡ [] }
{
    while let Some(datagram) = draft.pop() {
        send_one(fabric, draft, from, datagram);
    }
}

/// The number of the first of so many datagrams, where the next one has the number `next`; 0 where there are none.
pub(crate) fn first_number(count: u64, next: u64) -> u64
    ensures { result ≡ (if count == 0 then 0 else next) }
{
    if count == 0 { 0 } else { next }
}

/// The answer of a device with the number of the first datagram that it sent.
fn number(answer: Answer, next: u64) -> Answer
    ensures { result ≡ numbered next answer }
{
    match answer {
        Answer::Took { took, first, count } => Answer::Took {
            took,
            first: first_number(count, next),
            count,
        },
        Answer::Sent { first: _ } => Answer::Sent { first: next },
        other => other,
    }
}

/// Sends the datagrams of a step of a device with this address, and gives its answer with the number of the first.
pub(crate) fn send_outcome(
    fabric: &mut Fabric,
    draft: &mut Draft,
    from: Address,
    answer: Answer,
    sent: Items<Sent>,
) -> Answer
    requires { length fabric.old + length sent < 2 ^ 63 }
    ensures sent { fabric.new ≡ forgetting (sending fabric.old from sent) }
    ensures answer { result ≡ numbered (length fabric.old + 1) answer }
{
    let next = fabric.next();
    send_all(fabric, draft, from, sent);
    number(answer, next)
}

/// An image is carried, behind all others, and its context was stopped. There must be room for it.
fn carry(stops: &mut Stops, image: Option<ContextImage>)
    requires { stops.old.has_room ≡ true }
    ensures carried { stops.new.carried ≡ stops.old.carried ++ images_of image }
    ensures stopped { stops.new.stopped ≡ reverse (names_of image) ++ stops.old.stopped }
{
    if let Some(image) = image {
        stops.carry(image);
    }
}

/// Makes room for a context that is made or stopped: for where it lives, and for its image. Errors: `AllocError` when out
/// of memory.
fn make_room(homes: &mut IndexMap<Name, usize>, stops: &mut Stops) -> Result<(), AllocError>
    ensures home { OnOk result (0 < spare homes.new) }
    ensures image { OnOk result (stops.new.has_room ≡ true) }
    ensures homes { homes.new.entries ≡ homes.old.entries }
    ensures carried { stops.new.carried ≡ stops.old.carried }
    ensures stopped { stops.new.stopped ≡ stops.old.stopped }
{
    homes.reserve(1)?;
    stops.reserve()
}

/// Why a device does not make or stop a context.
fn move_refusal(device: &Device, event: &Event) -> Option<Refusal>
    requires { MakesOrStops event.now }
    ensures { result ≡ refusal_of device.now event.now }
{
    match event {
        Event::MakeContext { name } => device.context_refusal(*name),
        Event::Stop { context, alone } => device.stop_refusal(*context, *alone),
        _ => unreachable!(),
    }
}

/// What is answered where there is no memory: the refusal that is due. Errors: `AllocError` where none is.
pub(crate) fn refused_or_lacking(due: Option<Refusal>) -> Result<Answer, AllocError>
    ensures { result ≡ told_due due }
{
    match due {
        Some(refusal) => Ok(Answer::Refused(refusal)),
        None => Err(AllocError),
    }
}

impl World {
    /// The device at a place makes a step that makes, stops and restores no context, and its datagrams are sent.
    #[inline(always)]
    pub(crate) fn run(
        &mut self,
        alloc: Global,
        place: usize,
        event: &Event,
    ) -> Result<Answer, AllocError>
        requires place { place < length self.old.devices }
        requires event { IsLawfulEvent event.now }
        requires stays { mover event.now ≡ None }
        requires ready { IsReady self.old }
        ensures ok { IfOk result (λ answer. (d : Device) → slice_get self.old.devices place ≡ Some d
            → Makes (runs self.old d event.now) answer self.new) }
        ensures never_out_of_memory { TakesNoMemory event.now → IsOk result }
        ensures refused_first { OnErr result ((d : Device) → slice_get self.old.devices place
            ≡ Some d → refusal_of d event.now ≡ None) }
        ensures err { OnErr result (self.new ≡ self.old) }
    {
        match self.devices[place].step(alloc, event) {
            Ok(
                Outcome {
                    answer,
                    sent,
                    image: _,
                },
            ) => {
                let address = self.devices[place].address();
                Ok(send_outcome(&mut self.fabric, &mut self.draft, address, answer, sent))
            }
            Err(fault) => Err(fault),
        }
    }

    /// The device at a place makes or stops a context, and what it did is done to the world: its datagrams are sent, and the
    /// image of a stopped context is carried.
    pub(crate) fn run_moving(
        &mut self,
        alloc: Global,
        place: usize,
        event: &Event,
    ) -> Result<Answer, AllocError>
        requires place { place < length self.old.devices }
        requires event { IsLawfulEvent event.now }
        requires moves { MakesOrStops event.now }
        requires ready { IsReady self.old }
        ensures ok { IfOk result (λ answer. (d : Device) → slice_get self.old.devices place ≡ Some d
            → Makes (runs self.old d event.now) answer self.new) }
        ensures refused_first { OnErr result ((d : Device) → slice_get self.old.devices place
            ≡ Some d → refusal_of d event.now ≡ None) }
        ensures err { OnErr result (self.new ≡ self.old) }
    {
        if make_room(&mut self.homes, &mut self.stops).is_err() {
            return refused_or_lacking(move_refusal(&self.devices[place], event));
        }
        match self.devices[place].step(alloc, event) {
            Ok(
                Outcome {
                    answer,
                    sent,
                    image,
                },
            ) => {
                let address = self.devices[place].address();
                let answer = send_outcome(&mut self.fabric, &mut self.draft, address, answer, sent);
                carry(&mut self.stops, image);
                note_home(
                    &mut self.homes,
                    self.devices.as_slice(),
                    moved_context(event),
                );
                Ok(answer)
            }
            Err(fault) => Err(fault),
        }
    }

    /// The connected end of a name on the device at a place, which was looked up before, transmits once, and its datagram is
    /// sent.
    #[inline(always)]
    pub(crate) fn transmit_end(
        &mut self,
        alloc: Global,
        place: usize,
        at: EndPlace,
    ) -> Result<SendRow, AllocError>
        requires place { place < length self.old.devices }
        requires at { (d : Device) → slice_get self.old.devices place ≡ Some d
            → (o : names.ObjName) × IsAt d o at }
        requires ready { IsReady self.old }
        ensures ok { IfOk result (λ row. (d : Device) (o : names.ObjName)
            → slice_get self.old.devices place ≡ Some d → IsAt d o at
            → Makes (runs self.old d (event.Transmit o))
            (numbered (length self.old.sent + 1) (send_answer row)) self.new) }
        ensures err { OnErr result (self.new ≡ self.old) }
    {
        let device = &mut self.devices[place];
        let row = device.transmit_at(alloc, &mut self.draft, at)?;
        let address = device.address();
        send_draft(&mut self.fabric, &mut self.draft, address);
        Ok(row)
    }

    /// An end of a context of the device at a place transmits once, and its datagram is sent.
    #[inline(always)]
    pub(crate) fn transmit_from(
        &mut self,
        alloc: Global,
        place: usize,
        end: &ObjName,
    ) -> Result<Answer, AllocError>
        requires place { place < length self.old.devices }
        requires ready { IsReady self.old }
        ensures ok { IfOk result (λ answer. (d : Device) → slice_get self.old.devices place ≡ Some d
            → Makes (runs self.old d (event.Transmit end.now)) answer self.new) }
        ensures refused_first { OnErr result ((d : Device) → slice_get self.old.devices place
            ≡ Some d → refusal_of d (event.Transmit end.now) ≡ None) }
        ensures err { OnErr result (self.new ≡ self.old) }
    {
        let device = &self.devices[place];
        let Some(at) = device.place_of(end) else {
            return Ok(Answer::Refused(device.transmit_refusal(end)));
        };
        let next = self.fabric.next();
        let row = self.transmit_end(alloc, place, at)?;
        Ok(number(row.answer(), next))
    }
}
