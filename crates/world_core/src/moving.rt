//! Contexts that are stopped, carried and restored.

ghost use Rattle.std.specs.Prelude.{◌==◌, ◌&&◌, ◌≡◌, ℕ, ◌<◌, length, slice_get, IfOk, IsOk, None, OnErr, Some};
ghost use Rattle.protocol.specs.State as state;
ghost use Rattle.protocol.specs.State.{context_at};
ghost use Rattle.protocol.specs.declared.events.Event.TheVariants as event;
ghost use Rattle.protocol.specs.declared.events.WorldEvent.TheVariants as world_event;
ghost use Rattle.protocol.specs.declared.images.ContextImage as image;
ghost use Rattle.protocol.specs.Refusals.{refusal_of};
ghost use Rattle.protocol.specs.WorldStep as rules;
ghost use Rattle.rdma_types.specs.Lists.{some};
ghost use Rattle.world_core.specs.Causes.{world_refusal};
ghost use Rattle.world_core.specs.Kept.{IsReady, Makes};
ghost use Rattle.world_core.specs.Sites.{is_rts, put_back, view_moves};

use crate::World;
use crate::index::note_home;
use crate::running::{refused_or_lacking, send_outcome};
use device_core::{ContextImage, Device, Event, Outcome};
use protocol::EndImage;
use rdma_types::{Answer, EndState, EndView, Name, Refusal};
use std::alloc::{AllocError, Global};

/// Whether an end is in Rts.
fn is_in_rts(state: EndState) -> bool
    ensures { result ≡ is_rts state }
{
    matches!(
        state,
        EndState::Running | EndState::Paused | EndState::Resuming
    )
}

/// Whether the image of an end is of one in Rts with a number.
fn is_linked(end: &EndImage, number: u32) -> bool
    ensures { result ≡ (end.now.number == number && rules.is_linked_image end.now.linked) }
{
    match &end.linked {
        Some(link) => end.number == number && !link.ended,
        None => false,
    }
}

/// Whether an image has an end in Rts with a number.
fn has_linked_end(image: &ContextImage, number: u32) -> bool
    ensures { result ≡ some (λ e. e.number == number
        && rules.is_linked_image e.linked) image.now.ends }
{
    image
        .ends
        .as_slice()
        .iter()
        .any(|end| is_linked(end, number))
}

impl World {
    /// Whether a carried end in Rts has a number.
    fn is_carried_end(&self, number: u32) -> bool
        ensures { result ≡ rules.is_carried_end self.now number }
    {
        self.stops
            .images()
            .iter()
            .any(|image| has_linked_end(image, number))
    }

    /// Whether a live end with a number is Resuming.
    fn is_resuming_end(&self, number: u32) -> bool
        ensures { result ≡ rules.is_resuming_end self.now number }
    {
        self.devices
            .iter()
            .any(|device| device.has_resuming_end(number))
    }

    /// Whether the partner of an end moves.
    fn partner_moves(&self, end: &EndView) -> bool
        ensures { result ≡ view_moves self.now end.now }
    {
        is_in_rts(end.state) && (self.is_carried_end(end.peer) || self.is_resuming_end(end.peer))
    }

    /// Whether the partner of an end of a context of a device moves.
    fn some_partner_moves(&self, home: &Device, context: Name) -> bool
        ensures { result ≡ some (λ e. rules.partner_moves self.now e.link)
            (context_at home.now context).ends }
    {
        for i in 0..home.end_count(context) {
            let end = home.end_at(context, i).unwrap();
            if self.partner_moves(&end) {
                return true;
            }
        }
        false
    }

    /// Whether the partner of an end of a live context moves.
    fn is_held(&self, place: usize, context: Name) -> bool
        requires { place < length self.now.devices }
        ensures { (d : state.Device) → slice_get self.now.devices place ≡ Some d
            → result ≡ some (λ e. rules.partner_moves self.now e.link) (context_at d context).ends }
    {
        self.some_partner_moves(&self.devices[place], context)
    }

    /// A context is stopped, and its image is carried. A context whose partner moves is not stopped.
    pub(crate) fn stop(&mut self, alloc: Global, context: Name) -> Result<Answer, AllocError>
        requires ready { IsReady self.old }
        ensures ok { IfOk result (λ answer. Makes (rules.stops self.old context) answer self.new) }
        ensures refused_first { OnErr result (world_refusal self.old (world_event.Stop context)
            ≡ None) }
        ensures err { OnErr result (self.new ≡ self.old) }
    {
        let place = match self.home(context) {
            Ok(place) => place,
            Err(refusal) => return Ok(Answer::Refused(refusal)),
        };
        if self.is_held(place, context) {
            return Ok(Answer::Refused(Refusal::PeerMoving));
        }
        let alone = false;
        self.run_moving(alloc, place, &Event::Stop { context, alone })
    }

    /// The carried image of a context is put on a device. It is carried on where the device refuses it.
    pub(crate) fn restore(
        &mut self,
        alloc: Global,
        context: Name,
        device: u8,
    ) -> Result<Answer, AllocError>
        requires ready { IsReady self.old }
        ensures ok { IfOk result (λ answer. Makes
            (rules.restores self.old context device) answer self.new) }
        ensures refused_first { OnErr result
            (world_refusal self.old (world_event.Restore context device) ≡ None) }
        ensures err { OnErr result (self.new ≡ self.old) }
    {
        let Some(place) = self.place_of(device) else {
            return Ok(Answer::Refused(Refusal::NoSuch));
        };
        if !self.was_stopped(context) {
            return Ok(Answer::Refused(Refusal::NoSuch));
        }
        let Some(spot) = self.image_of(context) else {
            return Ok(Answer::Refused(Refusal::Spent));
        };
        self.put_back(alloc, place, spot)
    }

    /// The carried image at a spot is put on the device at a place, and is carried no more where that is done.
    fn put_back(&mut self, alloc: Global, place: usize, spot: usize) -> Result<Answer, AllocError>
        requires place { place < length self.old.devices }
        requires spot { spot < length self.old.carried }
        requires ready { IsReady self.old }
        ensures ok { IfOk result (λ answer. (d : state.Device) → (x : image.ContextImage)
            → slice_get self.old.devices place ≡ Some d → slice_get self.old.carried spot ≡ Some x
            → Makes (put_back (rules.runs self.old d (event.Restore x)) spot) answer self.new) }
        ensures refused_first { OnErr result ((d : state.Device) → (x : image.ContextImage)
            → slice_get self.old.devices place ≡ Some d → slice_get self.old.carried spot ≡ Some x
            → refusal_of d (event.Restore x) ≡ None) }
        ensures err { OnErr result (self.new ≡ self.old) }
    {
        let image = &self.stops.images()[spot];
        if self.homes.reserve(1).is_err() {
            return refused_or_lacking(self.devices[place].restore_refusal(image));
        }
        let name = image.name;
        let outcome = self.devices[place].restore(alloc, image)?;
        let Outcome {
            answer,
            sent,
            image: _,
        } = outcome;
        let address = self.devices[place].address();
        let answer = send_outcome(&mut self.fabric, &mut self.draft, address, answer, sent);
        note_home(&mut self.homes, self.devices.as_slice(), Some(name));
        if let Answer::Done = answer {
            self.stops.remove(spot);
        }
        Ok(answer)
    }

    /// The husk of a context on a device is forgotten.
    pub(crate) fn release(
        &mut self,
        alloc: Global,
        context: Name,
        device: u8,
    ) -> Result<Answer, AllocError>
        requires ready { IsReady self.old }
        ensures ok { IfOk result (λ answer. Makes
            (rules.releases self.old context device) answer self.new) }
        ensures never_out_of_memory { IsOk result }
        ensures err { OnErr result (self.new ≡ self.old) }
    {
        match self.place_of(device) {
            Some(place) => self.run(alloc, place, &Event::Release { context }),
            None => Ok(Answer::Refused(Refusal::NoSuch)),
        }
    }
}
