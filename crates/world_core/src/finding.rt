//! Where things are in a world.

ghost use Rattle.std.specs.Prelude.{◌≡◌, ◌==◌, ℕ, bytes_eq, is_some};
ghost use Rattle.std.specs.List.{position};
ghost use Rattle.rdma_types.specs.Lists.{has_word};
ghost use Rattle.protocol.specs.Refusals.{has_context};
ghost use Rattle.protocol.specs.WorldStep.{is_carried, same_address};

use crate::World;
use rdma_types::{Address, Name};

impl World {
    /// The place of the device with an id.
    pub(crate) fn place_of(&self, id: u8) -> Option<usize>
        ensures { result ≡ position (λ d. d.id == id) self.now.devices }
    {
        self.ids.get(&id).copied()
    }

    /// The place of the device with an address.
    #[inline(always)]
    pub(crate) fn place_with(&self, address: Address) -> Option<usize>
        ensures { result ≡ position (λ d. same_address d.address address) self.now.devices }
    {
        self.ports.get(&(address.ip, address.port)).copied()
    }

    /// The place of the device where a context lives.
    pub(crate) fn home_of(&self, name: Name) -> Option<usize>
        ensures { result ≡ position (λ d. has_context d name) self.now.devices }
    {
        self.homes.get(&name).copied()
    }

    /// The place of the carried image of a context.
    pub(crate) fn image_of(&self, name: Name) -> Option<usize>
        ensures { result ≡ position (λ c. bytes_eq c.name name) self.now.carried }
    {
        self.stops.place_of(name)
    }

    /// Whether a context was ever stopped.
    pub(crate) fn was_stopped(&self, name: Name) -> bool
        ensures { result ≡ has_word name self.now.stopped }
    {
        self.stops.was_stopped(name)
    }

    /// Whether an image of a context is carried.
    pub(crate) fn is_carried(&self, name: Name) -> bool
        ensures { result ≡ is_carried self.now name }
    {
        self.stops.is_carried(name)
    }
}
