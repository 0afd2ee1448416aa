//! Handles.

ghost use Rattle.std.specs.Prelude.{◌≡◌, None, Some, option_map, is_none, IfSome, ◌==◌, if◌then◌else◌};
ghost use Rattle.protocol.specs.Events.{IsLawfulEvent};
ghost use Rattle.protocol.specs.declared.events.Event.TheVariants as event;
ghost use Rattle.device_c.specs.Steps as steps;

use crate::content::{Content, HeldDevice};
use crate::pointer::Pointer;
use c_layout::codes::{INVALID, NO_MEMORY, OK};
use c_layout::layout::{CCompletion, COutcome};
use device_core::Device;
use protocol::Event;
use rdma_types::{Address, ObjName};
use std::alloc::Global;

/// A handle of C: a struct of the caller's, which holds something or nothing.
#[repr(C)]
#[derive(Drop)]
pub struct Handle {
    pub held: Pointer,
    there: u64,
    ghost told: { is_none held.value ≡ (there == 0) },
}

impl Handle {
    /// A handle that holds nothing.
    pub(crate) fn nothing() -> Handle
        ensures { result.held.value ≡ None }
    {
        Handle {
            held: Pointer::none(),
            there: 0,
        }
    }

    /// Whether it holds nothing.
    pub(crate) fn is_free(&self) -> bool
        ensures { result ≡ is_none self.now.held.value }
    {
        self.there == 0
    }

    /// Takes out what it holds.
    pub(crate) fn take(&mut self, alloc: Global) -> Option<Box<Content>>
        ensures value { option_map (λ b. b.value) result ≡ self.old.held.value }
        ensures gone { self.new.held.value ≡ None }
    {
        let Handle { held, there } = std::mem::replace(self, Handle::nothing());
        if there == 0 {
            return None;
        }
        Some(held.into_box(alloc))
    }

    /// Puts something in. What it held before is lost.
    pub(crate) fn put(&mut self, content: Box<Content>)
        ensures { self.new.held.value ≡ Some content.value }
    {
        *self = Handle {
            held: Pointer::of(content),
            there: 1,
        };
    }
}

/// Making and freeing.
impl Handle {
    /// A device is made, in a handle that holds nothing.
    pub(crate) fn make(&mut self, alloc: Global, id: u32, address: Address) -> u32
        ensures result { result ≡ (if steps.may_make id self.old.held.value then (if result == 1 then 1 else 0) else 2) }
        ensures held { self.new.held.value ≡ (if result == 0 then Some (steps.made id address) else self.old.held.value) }
    {
        if id == 0 || id > 255 || !self.is_free() {
            return INVALID;
        }
        let Ok(device) = Device::make(alloc, id as u8, address) else {
            return NO_MEMORY;
        };
        let Ok(held) = HeldDevice::new(alloc, device) else {
            return NO_MEMORY;
        };
        match Box::new(alloc, Content::Device(held)) {
            Ok(content) => {
                self.put(content);
                OK
            }
            Err(_) => NO_MEMORY,
        }
    }

    /// What it holds is freed.
    pub(crate) fn free(&mut self, alloc: Global) -> u32
        ensures held { self.new.held.value ≡ None }
        ensures result { result ≡ 0 }
    {
        let _ = self.take(alloc);
        OK
    }
}

/// Steps of what a handle holds. An event that is None stands for arguments that are outside of what is allowed.
impl Handle {
    /// A step on an event.
    #[tactic(auto, unfolding(crate::specs::Steps::held_after, crate::specs::Steps::told_after, crate::specs::Steps::result_after))]
    pub(crate) fn step(
        &mut self,
        alloc: Global,
        event: Option<Event>,
        outcome: &mut COutcome,
    ) -> u32
        requires { IfSome event IsLawfulEvent }
        ensures held { self.new.held.value ≡ steps.held_after result self.old.held.value event }
        ensures told { outcome.new ≡ steps.told_after result self.old.held.value event outcome.old }
        ensures result { result ≡ steps.result_after (result == 1) self.old.held.value event }
    {
        let Some(event) = event else {
            return INVALID;
        };
        let Some(mut content) = self.take(alloc) else {
            return INVALID;
        };
        let result = content.step(alloc, &event, outcome);
        self.put(content);
        result
    }

    /// The owner reads its region.
    #[tactic(auto, unfolding(crate::specs::Steps::held_after, crate::specs::Steps::told_after, crate::specs::Steps::result_after, crate::specs::Steps::loaded_after))]
    pub(crate) fn load(
        &mut self,
        alloc: Global,
        event: Option<Event>,
        bytes: &mut [u8],
        outcome: &mut COutcome,
    ) -> u32
        requires { IfSome event IsLawfulEvent }
        ensures held { self.new.held.value ≡ steps.held_after result self.old.held.value event }
        ensures told { outcome.new ≡ steps.told_after result self.old.held.value event outcome.old }
        ensures result { result ≡ steps.result_after (result == 1) self.old.held.value event }
        ensures bytes { bytes.new ≡ steps.loaded_after result self.old.held.value event bytes.old }
    {
        let Some(event) = event else {
            return INVALID;
        };
        let Some(mut content) = self.take(alloc) else {
            return INVALID;
        };
        let result = content.load(alloc, &event, bytes, outcome);
        self.put(content);
        result
    }

    /// The oldest completions of a queue.
    #[tactic(auto, unfolding(crate::specs::Steps::held_after, crate::specs::Steps::told_after, crate::specs::Steps::result_after, crate::specs::Steps::polled_after))]
    pub(crate) fn poll(
        &mut self,
        alloc: Global,
        event: Option<Event>,
        completions: &mut [CCompletion],
        outcome: &mut COutcome,
    ) -> u32
        requires { IfSome event IsLawfulEvent }
        ensures held { self.new.held.value ≡ steps.held_after result self.old.held.value event }
        ensures told { outcome.new ≡ steps.told_after result self.old.held.value event outcome.old }
        ensures result { result ≡ steps.result_after (result == 1) self.old.held.value event }
        ensures completions { completions.new ≡ steps.polled_after result self.old.held.value event completions.old }
    {
        let Some(event) = event else {
            return INVALID;
        };
        let Some(mut content) = self.take(alloc) else {
            return INVALID;
        };
        let result = content.poll(alloc, &event, completions, outcome);
        self.put(content);
        result
    }

    /// The owner writes its region.
    #[tactic(auto, unfolding(crate::specs::Steps::held_after, crate::specs::Steps::told_after, crate::specs::Steps::result_after))]
    pub(crate) fn store(
        &mut self,
        alloc: Global,
        region: Option<ObjName>,
        at: u64,
        bytes: &[u8],
        outcome: &mut COutcome,
    ) -> u32
        ensures held { self.new.held.value ≡ steps.held_after result self.old.held.value (option_map (λ x. event.Store x at bytes.now) region) }
        ensures told { outcome.new ≡ steps.told_after result self.old.held.value (option_map (λ x. event.Store x at bytes.now) region) outcome.old }
        ensures result { result ≡ steps.result_after (result == 1) self.old.held.value (option_map (λ x. event.Store x at bytes.now) region) }
    {
        let Some(region) = region else {
            return INVALID;
        };
        let Some(mut content) = self.take(alloc) else {
            return INVALID;
        };
        let result = content.store(alloc, region, at, bytes, outcome);
        self.put(content);
        result
    }

    /// A queue pair sends its next packet.
    #[tactic(auto, unfolding(crate::specs::Steps::held_after, crate::specs::Steps::told_after, crate::specs::Steps::result_after))]
    pub(crate) fn transmit(
        &mut self,
        alloc: Global,
        end: Option<ObjName>,
        outcome: &mut COutcome,
    ) -> u32
        ensures held { self.new.held.value
            ≡ steps.held_after result self.old.held.value
            (option_map (λ x. event.Transmit x) end) }
        ensures told { outcome.new
            ≡ steps.told_after result self.old.held.value
            (option_map (λ x. event.Transmit x) end) outcome.old }
        ensures result { result
            ≡ steps.result_after (result == 1) self.old.held.value
            (option_map (λ x. event.Transmit x) end) }
    {
        let Some(end) = end else {
            return INVALID;
        };
        let Some(mut content) = self.take(alloc) else {
            return INVALID;
        };
        let result = content.transmit(alloc, &end, outcome);
        self.put(content);
        result
    }

    /// Bytes arrive.
    #[tactic(auto, unfolding(crate::specs::Steps::held_after, crate::specs::Steps::told_after, crate::specs::Steps::result_after))]
    pub(crate) fn arrive(
        &mut self,
        alloc: Global,
        from: Address,
        bytes: &[u8],
        outcome: &mut COutcome,
    ) -> u32
        ensures held { self.new.held.value ≡ steps.held_after result self.old.held.value (Some (event.Arrive from bytes.now)) }
        ensures told { outcome.new ≡ steps.told_after result self.old.held.value (Some (event.Arrive from bytes.now)) outcome.old }
        ensures result { result ≡ steps.result_after (result == 1) self.old.held.value (Some (event.Arrive from bytes.now)) }
    {
        let Some(mut content) = self.take(alloc) else {
            return INVALID;
        };
        let result = content.arrive(alloc, from, bytes, outcome);
        self.put(content);
        result
    }

    /// A context leaves, and its image goes into a handle that holds nothing.
    #[tactic(auto, unfolding(crate::specs::Steps::held_after, crate::specs::Steps::told_after, crate::specs::Steps::result_after, crate::specs::Steps::image_after))]
    pub(crate) fn stop(
        &mut self,
        alloc: Global,
        event: Option<Event>,
        image: &mut Handle,
        outcome: &mut COutcome,
    ) -> u32
        requires { IfSome event IsLawfulEvent }
        ensures held { self.new.held.value ≡ steps.held_after result self.old.held.value (steps.stop_into image.old.held.value event) }
        ensures told { outcome.new ≡ steps.told_after result self.old.held.value (steps.stop_into image.old.held.value event) outcome.old }
        ensures result { result ≡ steps.result_after (result == 1) self.old.held.value (steps.stop_into image.old.held.value event) }
        ensures image { image.new.held.value ≡ steps.image_after result self.old.held.value (steps.stop_into image.old.held.value event) image.old.held.value }
    {
        let Some(event) = event else {
            return INVALID;
        };
        if !image.is_free() {
            return INVALID;
        }
        let Some(mut content) = self.take(alloc) else {
            return INVALID;
        };
        let (result, stopped) = content.stop(alloc, &event, outcome);
        self.put(content);
        if let Some(stopped) = stopped {
            image.put(stopped);
        }
        result
    }

    /// The context of an image comes.
    #[tactic(auto, unfolding(crate::specs::Steps::held_after, crate::specs::Steps::told_after, crate::specs::Steps::result_after))]
    fn restore_content(&mut self, alloc: Global, image: &Content, outcome: &mut COutcome) -> u32
        ensures held { self.new.held.value ≡ steps.held_after result self.old.held.value (steps.restore_by image.now) }
        ensures told { outcome.new ≡ steps.told_after result self.old.held.value (steps.restore_by image.now) outcome.old }
        ensures result { result ≡ steps.result_after (result == 1) self.old.held.value (steps.restore_by image.now) }
    {
        let Some(mut content) = self.take(alloc) else {
            return INVALID;
        };
        let result = content.restore(alloc, image, outcome);
        self.put(content);
        result
    }

    /// The context of the image that a handle holds comes. The image stays there.
    #[tactic(auto, unfolding(crate::specs::Steps::held_after, crate::specs::Steps::told_after, crate::specs::Steps::result_after))]
    pub(crate) fn restore(
        &mut self,
        alloc: Global,
        image: &mut Handle,
        outcome: &mut COutcome,
    ) -> u32
        ensures held { self.new.held.value ≡ steps.held_after result self.old.held.value (steps.restore_event image.old.held.value) }
        ensures told { outcome.new ≡ steps.told_after result self.old.held.value (steps.restore_event image.old.held.value) outcome.old }
        ensures result { result ≡ steps.result_after (result == 1) self.old.held.value (steps.restore_event image.old.held.value) }
        ensures image { image.new.held.value ≡ image.old.held.value }
    {
        let Some(held) = image.take(alloc) else {
            return INVALID;
        };
        let result = self.restore_content(alloc, &held, outcome);
        image.put(held);
        result
    }
}
