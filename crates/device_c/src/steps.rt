//! Steps of what a handle holds, told as C is.

ghost use Rattle.std.specs.Prelude.{◌≡◌, ◌==◌, length, is_some, IfSome, Some, option_map, if◌then◌else◌};
ghost use Rattle.protocol.specs.Events.{IsLawfulEvent};
ghost use Rattle.protocol.specs.Lawful.{IsLawful};
ghost use Rattle.rdma_types.specs.declared.names.ObjName as names;
ghost use Rattle.device_core.specs.Finding.{IsAt};
ghost use Rattle.protocol.specs.declared.events.Event.TheVariants as event;
ghost use Rattle.c_layout.specs.Told.{outcome_told as told_of};
ghost use Rattle.device_c.specs.Steps as steps;

use crate::content::{Content, HeldDevice, HeldImage};
use c_layout::asked;
use c_layout::buffers::{copy, write_completions};
use c_layout::codes::{INVALID, NO_MEMORY, OK};
use c_layout::layout::{CCompletion, COutcome};
use c_layout::told::outcome_told;
use context_dump::DumpReader;
use device_core::EndPlace;
use protocol::{ContextImage, Event, Outcome};
use rdma_types::{Address, Answer, Completion, Items, ObjName, Sent};
use std::alloc::Global;

/// The result of a step that is done, or for which memory ran out.
fn result_of(done: bool) -> u32
    ensures done { (result == 0) ≡ done }
    ensures result { result ≡ (if result == 1 then 1 else 0) }
{
    if done { OK } else { NO_MEMORY }
}

impl HeldDevice {
    /// Keeps the datagrams of a step to be read, and tells its answer.
    #[inline(always)]
    fn tell(&mut self, answer: &Answer, sent: Items<Sent>, outcome: &mut COutcome)
        ensures held { self.new ≡ record { device = self.old.device; sent = sent; read = 0 } }
        ensures told { outcome.new ≡ told_of answer.now (length sent) }
    {
        self.sent.put(sent);
        self.tell_sent(answer, outcome);
    }

    /// The datagrams that are kept are those of a step with this answer.
    #[inline(never)]
    fn tell_sent(&mut self, answer: &Answer, outcome: &mut COutcome)
        ensures held { self.new ≡ record { device = self.old.device; sent = self.old.sent; read = 0 } }
        ensures told { outcome.new ≡ told_of answer.now (length self.old.sent) }
    {
        *outcome = outcome_told(answer, self.sent.count());
        self.read = 0;
    }

    /// A step. It says whether there was memory.
    fn step(&mut self, alloc: Global, event: &Event, outcome: &mut COutcome) -> bool
        requires { IsLawfulEvent event.now }
        ensures held { self.new ≡ steps.device_after result self.old event.now }
        ensures told { outcome.new ≡ steps.told_after_step result self.old event.now outcome.old }
    {
        let Ok(Outcome { answer, sent, .. }) = self.device.step(alloc, event) else {
            return false;
        };
        self.tell(&answer, sent, outcome);
        true
    }

    /// The owner reads its region. It says whether there was memory.
    fn load(
        &mut self,
        alloc: Global,
        event: &Event,
        bytes: &mut [u8],
        outcome: &mut COutcome,
    ) -> bool
        requires { IsLawfulEvent event.now }
        ensures held { self.new ≡ steps.device_after result self.old event.now }
        ensures told { outcome.new ≡ steps.told_after_step result self.old event.now outcome.old }
        ensures bytes { bytes.new ≡ steps.loaded_by_step result self.old event.now bytes.old }
    {
        let Ok(Outcome { answer, sent, .. }) = self.device.step(alloc, event) else {
            return false;
        };
        copy(bytes_of(&answer), bytes);
        self.tell(&answer, sent, outcome);
        true
    }

    /// The oldest completions of a queue. It says whether there was memory.
    fn poll(
        &mut self,
        alloc: Global,
        event: &Event,
        completions: &mut [CCompletion],
        outcome: &mut COutcome,
    ) -> bool
        requires { IsLawfulEvent event.now }
        ensures held { self.new ≡ steps.device_after result self.old event.now }
        ensures told { outcome.new ≡ steps.told_after_step result self.old event.now outcome.old }
        ensures completions { completions.new ≡ steps.polled_by_step result self.old event.now completions.old }
    {
        let Ok(Outcome { answer, sent, .. }) = self.device.step(alloc, event) else {
            return false;
        };
        write_completions(completions_of(&answer), completions);
        self.tell(&answer, sent, outcome);
        true
    }

    /// A context leaves, with its image, unless it is refused; None when out of memory.
    fn stop(
        &mut self,
        alloc: Global,
        event: &Event,
        outcome: &mut COutcome,
    ) -> Option<Option<ContextImage>>
        requires { IsLawfulEvent event.now }
        ensures held { self.new ≡ steps.device_after (is_some result) self.old event.now }
        ensures told { outcome.new ≡ steps.told_after_step (is_some result) self.old event.now outcome.old }
        ensures image { IfSome result (λ image. image ≡ (steps.outcome_of self.old event.now).image) }
        ensures lawful { IfSome result (λ image. IfSome image IsLawful) }
    {
        match self.device.step(alloc, event) {
            Ok(
                Outcome {
                    answer,
                    sent,
                    image,
                },
            ) => {
                self.tell(&answer, sent, outcome);
                Some(image)
            }
            Err(_) => None,
        }
    }

    /// The queue pair at a place sends its next packet. It says whether there was memory.
    fn transmit_at(&mut self, alloc: Global, at: EndPlace, outcome: &mut COutcome) -> bool
        requires { (o : names.ObjName) × IsAt self.old.device o at }
        ensures held { (o : names.ObjName) → IsAt self.old.device o at
            → self.new ≡ steps.device_after result self.old (event.Transmit o) }
        ensures told { (o : names.ObjName) → IsAt self.old.device o at
            → outcome.new ≡ steps.told_after_step result self.old (event.Transmit o) outcome.old }
    {
        let Ok(answer) = self.sent.transmit(alloc, &mut self.device, at) else {
            return false;
        };
        self.tell_sent(&answer, outcome);
        true
    }

    /// A transmission of no connected queue pair, which is refused. It says whether there was memory.
    #[inline(never)]
    fn refuse_transmission(&mut self, alloc: Global, end: &ObjName, outcome: &mut COutcome) -> bool
        ensures held { self.new ≡ steps.device_after result self.old (event.Transmit end.now) }
        ensures told { outcome.new
            ≡ steps.told_after_step result self.old (event.Transmit end.now) outcome.old }
    {
        self.step(alloc, &Event::Transmit { end: *end }, outcome)
    }

    /// A queue pair sends its next packet. It says whether there was memory.
    fn transmit(&mut self, alloc: Global, end: &ObjName, outcome: &mut COutcome) -> bool
        ensures held { self.new ≡ steps.device_after result self.old (event.Transmit end.now) }
        ensures told { outcome.new
            ≡ steps.told_after_step result self.old (event.Transmit end.now) outcome.old }
    {
        match self.device.place_of(end) {
            Some(at) => self.transmit_at(alloc, at, outcome),
            None => self.refuse_transmission(alloc, end, outcome),
        }
    }

    /// Bytes arrive. It says whether there was memory.
    fn arrive(&mut self, alloc: Global, from: Address, bytes: &[u8], outcome: &mut COutcome) -> bool
        ensures held { self.new ≡ steps.device_after result self.old (event.Arrive from bytes.now) }
        ensures told { outcome.new ≡ steps.told_after_step result self.old (event.Arrive from bytes.now) outcome.old }
    {
        let Ok(answer) = self.sent.arrive(alloc, &mut self.device, from, bytes) else {
            return false;
        };
        self.tell_sent(&answer, outcome);
        true
    }

    /// A context comes. It says whether there was memory.
    fn restore(&mut self, alloc: Global, image: &ContextImage, outcome: &mut COutcome) -> bool
        requires { IsLawful image.now }
        ensures held { self.new ≡ steps.device_after result self.old (event.Restore image.now) }
        ensures told { outcome.new ≡ steps.told_after_step result self.old (event.Restore image.now) outcome.old }
    {
        match self.device.restore(alloc, image) {
            Ok(Outcome { answer, sent, .. }) => {
                self.tell(&answer, sent, outcome);
                true
            }
            Err(_) => false,
        }
    }
}

/// The bytes that an answer has.
fn bytes_of(answer: &Answer) -> &[u8]
    ensures { result.now ≡ steps.bytes_of answer.now }
{
    match answer {
        Answer::Bytes(bytes) => bytes.as_slice(),
        _ => &[],
    }
}

/// The completions that an answer has.
fn completions_of(answer: &Answer) -> &[Completion]
    ensures { result.now ≡ steps.completions_of answer.now }
{
    match answer {
        Answer::Polled(completions) => completions.as_slice(),
        _ => &[],
    }
}

/// An image in the room for it.
fn boxed(mut room: Box<Content>, image: Option<ContextImage>) -> Option<Box<Content>>
    requires { IfSome image IsLawful }
    ensures { option_map (λ b. b.value) result ≡ steps.image_content image }
{
    let image = image?;
    *room = Content::Image(HeldImage { image });
    Some(room)
}

impl Content {
    /// A step on an event.
    pub(crate) fn step(&mut self, alloc: Global, event: &Event, outcome: &mut COutcome) -> u32
        requires { IsLawfulEvent event.now }
        ensures held { self.new ≡ steps.content_after result self.old event.now }
        ensures told { outcome.new ≡ steps.told_of result self.old event.now outcome.old }
        ensures result { result ≡ steps.result_of (result == 1) self.old }
    {
        match self {
            Content::Device(held) => result_of(held.step(alloc, event, outcome)),
            _ => INVALID,
        }
    }

    /// The owner reads its region.
    pub(crate) fn load(
        &mut self,
        alloc: Global,
        event: &Event,
        bytes: &mut [u8],
        outcome: &mut COutcome,
    ) -> u32
        requires { IsLawfulEvent event.now }
        ensures held { self.new ≡ steps.content_after result self.old event.now }
        ensures told { outcome.new ≡ steps.told_of result self.old event.now outcome.old }
        ensures result { result ≡ steps.result_of (result == 1) self.old }
        ensures bytes { bytes.new ≡ steps.loaded_of result self.old event.now bytes.old }
    {
        match self {
            Content::Device(held) => result_of(held.load(alloc, event, bytes, outcome)),
            _ => INVALID,
        }
    }

    /// The oldest completions of a queue.
    pub(crate) fn poll(
        &mut self,
        alloc: Global,
        event: &Event,
        completions: &mut [CCompletion],
        outcome: &mut COutcome,
    ) -> u32
        requires { IsLawfulEvent event.now }
        ensures held { self.new ≡ steps.content_after result self.old event.now }
        ensures told { outcome.new ≡ steps.told_of result self.old event.now outcome.old }
        ensures result { result ≡ steps.result_of (result == 1) self.old }
        ensures completions { completions.new ≡ steps.polled_of result self.old event.now completions.old }
    {
        match self {
            Content::Device(held) => result_of(held.poll(alloc, event, completions, outcome)),
            _ => INVALID,
        }
    }

    /// The owner writes its region.
    pub(crate) fn store(
        &mut self,
        alloc: Global,
        region: ObjName,
        at: u64,
        bytes: &[u8],
        outcome: &mut COutcome,
    ) -> u32
        ensures held { self.new ≡ steps.content_after result self.old (event.Store region at bytes.now) }
        ensures told { outcome.new ≡ steps.told_of result self.old (event.Store region at bytes.now) outcome.old }
        ensures result { result ≡ steps.result_of (result == 1) self.old }
    {
        let Content::Device(held) = self else {
            return INVALID;
        };
        let Ok(event) = asked::store(alloc, region, at, bytes) else {
            return NO_MEMORY;
        };
        result_of(held.step(alloc, &event, outcome))
    }

    /// A queue pair sends its next packet.
    pub(crate) fn transmit(&mut self, alloc: Global, end: &ObjName, outcome: &mut COutcome) -> u32
        ensures held { self.new ≡ steps.content_after result self.old (event.Transmit end.now) }
        ensures told { outcome.new
            ≡ steps.told_of result self.old (event.Transmit end.now) outcome.old }
        ensures result { result ≡ steps.result_of (result == 1) self.old }
    {
        match self {
            Content::Device(held) => result_of(held.transmit(alloc, end, outcome)),
            _ => INVALID,
        }
    }

    /// Bytes arrive.
    pub(crate) fn arrive(
        &mut self,
        alloc: Global,
        from: Address,
        bytes: &[u8],
        outcome: &mut COutcome,
    ) -> u32
        ensures held { self.new ≡ steps.content_after result self.old (event.Arrive from bytes.now) }
        ensures told { outcome.new ≡ steps.told_of result self.old (event.Arrive from bytes.now) outcome.old }
        ensures result { result ≡ steps.result_of (result == 1) self.old }
    {
        match self {
            Content::Device(held) => result_of(held.arrive(alloc, from, bytes, outcome)),
            _ => INVALID,
        }
    }

    /// A context leaves; with its image, unless it is refused. The room for the image is taken before.
    pub(crate) fn stop(
        &mut self,
        alloc: Global,
        event: &Event,
        outcome: &mut COutcome,
    ) -> (u32, Option<Box<Content>>)
        requires { IsLawfulEvent event.now }
        ensures held { self.new ≡ steps.content_after result.0 self.old event.now }
        ensures told { outcome.new ≡ steps.told_of result.0 self.old event.now outcome.old }
        ensures result { result.0 ≡ steps.result_of (result.0 == 1) self.old }
        ensures image { option_map (λ b. b.value) result.1 ≡ steps.image_content (steps.image_of result.0 self.old event.now) }
    {
        let Content::Device(held) = self else {
            return (INVALID, None);
        };
        let Ok(room) = Box::new(alloc, Content::Reader(DumpReader::make(alloc))) else {
            return (NO_MEMORY, None);
        };
        match held.stop(alloc, event, outcome) {
            Some(image) => (OK, boxed(room, image)),
            None => (NO_MEMORY, None),
        }
    }

    /// A context comes.
    #[tactic(auto, unfolding(crate::specs::Steps::held_after, crate::specs::Steps::told_after, crate::specs::Steps::result_after))]
    pub(crate) fn restore(&mut self, alloc: Global, image: &Content, outcome: &mut COutcome) -> u32
        ensures held { Some self.new ≡ steps.held_after result (Some self.old) (steps.restore_by image.now) }
        ensures told { outcome.new ≡ steps.told_after result (Some self.old) (steps.restore_by image.now) outcome.old }
        ensures result { result ≡ steps.result_after (result == 1) (Some self.old) (steps.restore_by image.now) }
    {
        let Content::Image(stopped) = image else {
            return INVALID;
        };
        match self {
            Content::Device(held) => result_of(held.restore(alloc, &stopped.image, outcome)),
            _ => INVALID,
        }
    }
}
