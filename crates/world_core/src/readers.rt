//! What a world tells. No reader takes memory.

ghost use Rattle.std.specs.Prelude.{◌≡◌, ℕ, slice_get, Option, IfSome};
ghost use Rattle.protocol.specs.Lawful.{IsLawful};
ghost use Rattle.std.specs.Option.{option_copied};
ghost use Rattle.protocol.specs.Fabric as fabric;
ghost use Rattle.protocol.specs.Fabric.{kept_flight};
ghost use Rattle.protocol.specs.Readers.{carried_name, context_name, device_id, world_end_view};
ghost use Rattle.protocol.specs.WorldStep.{carried_image};
ghost use Rattle.rdma_types.specs.Lists.{has};
ghost use Rattle.world_core.specs.Reached.{view_reached};
ghost use Rattle.world_core.specs.Told.{name_on};

use crate::World;
use device_core::ContextImage;
use fabric::Flight;
use rdma_types::{Address, EndView, Name};

impl World {
    /// The image of a carried context, which keeps the rules of images; None exactly where it is not carried.
    pub fn carried(&self, context: Name) -> Option<&ContextImage>
        ensures image { option_copied result ≡ carried_image self.now context }
        ensures lawful { IfSome result (λ image. IsLawful image.now) }
    {
        self.stops.image_of(context)
    }

    /// The name of carried context `i`, in order of their stops.
    pub fn carried_at(&self, i: usize) -> Option<Name>
        ensures { result ≡ carried_name self.now i }
    {
        Some(self.stops.images().get(i)?.name)
    }

    /// The id of device `i`, in order of making.
    pub fn device_at(&self, i: usize) -> Option<u8>
        ensures { result ≡ device_id self.now i }
    {
        Some(self.devices.get(i)?.id())
    }

    /// The name of live context `i` of a device, in order of making or restoring.
    pub fn context_at(&self, device: u8, i: usize) -> Option<Name>
        ensures { result ≡ name_on self.now device i }
    {
        let place = self.place_of(device)?;
        self.devices[place].context_at(i)
    }

    /// End `i` of a live context, in order of making.
    pub fn end_at(&self, context: Name, i: usize) -> Option<EndView>
        ensures { result ≡ world_end_view self.now context i }
    {
        let place = self.home_of(context)?;
        self.devices[place].end_at(context, i)
    }

    /// Whether there is a device with an id.
    pub fn has_device(&self, id: u8) -> bool
        ensures { result ≡ has (λ d. d.id) id self.now.devices }
    {
        self.place_of(id).is_some()
    }

    /// The connected end with a queue pair number on the device that has an address; None where there is none.
    pub fn end_reached(&self, at: Address, number: u32) -> Option<EndView>
        ensures { result ≡ view_reached self.now at number }
    {
        let place = self.place_with(at)?;
        self.devices[place].end_numbered(number)
    }

    /// Datagram `k`, whether lost or not; None where the network keeps it no more.
    pub fn flight(&self, k: u64) -> Option<&Flight>
        ensures { option_copied result ≡ kept_flight self.now.sent k }
    {
        self.fabric.kept(k)
    }

    /// The least number of a datagram that is kept and neither lost nor taken.
    pub fn pending(&self) -> Option<u64>
        ensures { result ≡ fabric.pending self.now.sent }
    {
        self.fabric.pending()
    }
}
