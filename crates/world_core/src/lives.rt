//! What settling looks at of a world.

ghost use Rattle.std.specs.Prelude.{◌≡◌, ◌+◌, ◌^◌, ◌<◌, ◌≤◌, ◌==◌, ◌&&◌, length, option_map, All, IfOk, IfSome};
ghost use Rattle.law_kept_datagrams.specs.Alike.{with_kept_datagrams};
ghost use Rattle.rdma_types.specs.Lists.{some};
ghost use Rattle.protocol.specs.Lawful.{IsLawful};
ghost use Rattle.protocol.specs.Settle.{is_ended_image, is_ended_live, link_at};
ghost use Rattle.world_core.specs.Lives.{has_ended, is_pending, link_view, live_list};

use crate::World;
use device_core::{LinkView, LiveEnd};
use protocol::{ContextImage, EndImage};
use rdma_types::{Items, ObjName};
use std::alloc::{AllocError, Global};

/// Whether an end has a number and is in Error.
fn is_ended(end: &EndImage, number: u32) -> bool
    ensures { result ≡ (end.now.number == number && is_ended_image end.now) }
{
    match &end.linked {
        Some(link) => end.number == number && link.ended,
        None => false,
    }
}

/// Whether an image has an end in Error with a number.
fn has_ended_end(image: &ContextImage, number: u32) -> bool
    ensures { result ≡ some (λ e. e.number == number && is_ended_image e) image.now.ends }
{
    image
        .ends
        .as_slice()
        .iter()
        .any(|end| is_ended(end, number))
}

impl World {
    /// The number that the next datagram gets. The carried images keep the rules of images.
    pub fn next(&self) -> u64
        ensures number { result ≡ length self.now.sent + 1 }
        ensures bounded { result ≤ 2 ^ 63 }
        ensures kept { with_kept_datagrams self.now ≡ self.now }
        ensures lawful { All IsLawful self.now.carried }
    {
        self.fabric.next()
    }

    /// Whether datagram `k` is kept and neither lost nor taken.
    pub fn is_pending(&self, k: u64) -> bool
        ensures { result ≡ is_pending self.now.sent k }
    {
        self.fabric.is_pending(k)
    }

    /// The live ends, in order of devices, contexts and queue pairs. Errors: `AllocError` when out of memory.
    pub fn live_ends(&self, alloc: Global) -> Result<Items<LiveEnd>, AllocError>
        ensures { IfOk result (λ ends. ends ≡ live_list self.now) }
    {
        let mut live = Vec::new(alloc);
        for place in 0..self.devices.len() {
            self.devices[place].push_ends(&mut live)?;
        }
        Ok(Items::new(live))
    }

    /// The link of a live end; None where it is in Init or not there.
    #[inline(always)]
    pub fn link_at(&self, end: &ObjName) -> Option<LinkView>
        ensures link { result ≡ option_map link_view (link_at self.now end.now) }
        ensures bounded { IfSome result (λ link. link.last < 2 ^ 62) }
    {
        let place = self.home_of(end.context)?;
        self.devices[place].link_named(end)
    }

    /// Whether a live end with a number is in Error.
    fn has_ended_live(&self, number: u32) -> bool
        ensures { result ≡ is_ended_live self.now number }
    {
        self.devices.iter().any(|d| d.has_ended_end(number))
    }

    /// Whether a carried end with a number is in Error.
    fn has_ended_carried(&self, number: u32) -> bool
        ensures { result
            ≡ some (λ c. some (λ e. e.number == number && is_ended_image e) c.ends)
            self.now.carried }
    {
        self.stops
            .images()
            .iter()
            .any(|image| has_ended_end(image, number))
    }

    /// Whether an end with a number, live or carried, is in Error.
    pub fn has_ended(&self, number: u32) -> bool
        ensures { result ≡ has_ended self.now number }
    {
        self.has_ended_live(number) || self.has_ended_carried(number)
    }

    /// The carried images, in order of their stops.
    pub fn images(&self) -> &[ContextImage]
        ensures { result.now ≡ self.now.carried }
    {
        self.stops.images()
    }
}
