//! The contexts of a world that were stopped: the images that are carried, and the names of all of them.

ghost use Rattle.std.specs.Prelude.{◌≡◌, ◌<◌, ◌++◌, ◌∷◌, [], true, length, OnOk, bytes_eq};
ghost use Rattle.std.specs.List.{position, remove as list_without};
ghost use Rattle.std.specs.Option.{option_copied};
ghost use Rattle.rdma_types.specs.Lists.{first_that, has_name, has_word};

use indexmap::IndexSet;
use protocol::ContextImage;
use rdma_types::Name;
use std::alloc::{AllocError, Global};
use std::marker::Model;

/// The images that are carried, in order of their stops, and the names of all contexts that were ever stopped. Whether a
/// context is carried or was stopped is told without looking through them.
#[derive(Drop)]
pub(crate) struct Stops {
    images: Vec<ContextImage>,
    /// The name of each stop, the last one behind all others.
    names: Vec<Name>,
    /// The names of the images.
    carried: IndexSet<Name>,
    /// The names, once each.
    stopped: IndexSet<Name>,
}

impl Model for Stops {
    ghost use Rattle.std.specs.Prelude.{◌&&◌, bytes_eq, length, nat_lt, reverse};
    ghost use Rattle.std.specs.Vec.{vec_capacity};
    ghost use Rattle.indexmap.specs.IndexSet.{contains, spare};
    ghost use Rattle.world_core.specs.Stops.{AreMarked, Stopped};

    ghost Value = { Stopped };

    ghost view = { λ s. record { carried = s.images.items; stopped = reverse s.names.items; has_room = nat_lt (length s.images.items) (vec_capacity s.images) && (nat_lt (length s.names.items) (vec_capacity s.names) && (nat_lt 0 (spare s.carried) && nat_lt 0 (spare s.stopped))) } };

    ghost invariant = { λ s. AreMarked s.images.items (reverse s.names.items) (contains bytes_eq s.carried) (contains bytes_eq s.stopped) };
}

impl Stops {
    /// None was stopped.
    pub(crate) fn make(alloc: Global) -> Stops
        ensures carried { result.carried ≡ [] }
        ensures stopped { result.stopped ≡ [] }
    {
        Stops {
            images: Vec::new(alloc),
            names: Vec::new(alloc),
            carried: IndexSet::new(alloc),
            stopped: IndexSet::new(alloc),
        }
    }

    /// Makes room for one stop more. Errors: `AllocError` when out of memory.
    pub(crate) fn reserve(&mut self) -> Result<(), AllocError>
        ensures room { OnOk result (self.new.has_room ≡ true) }
        ensures carried { self.new.carried ≡ self.old.carried }
        ensures stopped { self.new.stopped ≡ self.old.stopped }
    {
        self.images.reserve(1)?;
        self.names.reserve(1)?;
        self.carried.reserve(1)?;
        self.stopped.reserve(1)
    }

    /// An image is carried, behind all others, and its context was stopped. There must be room for it.
    pub(crate) fn carry(&mut self, image: ContextImage)
        requires { self.old.has_room ≡ true }
        ensures carried { self.new.carried ≡ self.old.carried ++ image ∷ [] }
        ensures stopped { self.new.stopped ≡ image.name ∷ self.old.stopped }
    {
        let _ = self.carried.insert(image.name).unwrap();
        let _ = self.stopped.insert(image.name).unwrap();
        self.names.push_reserved(image.name);
        self.images.push_reserved(image);
    }

    /// The image at a place is carried no more.
    pub(crate) fn remove(&mut self, place: usize)
        requires { place < length self.old.carried }
        ensures carried { self.new.carried ≡ list_without self.old.carried place }
        ensures stopped { self.new.stopped ≡ self.old.stopped }
    {
        let image = self.images.remove(place);
        if !self.images.iter().any(|other| other.name == image.name) {
            self.carried.swap_remove(&image.name);
        }
    }

    /// Whether an image of the context is carried.
    pub(crate) fn is_carried(&self, name: Name) -> bool
        ensures { result ≡ has_name (λ c. c.name) name self.now.carried }
    {
        self.carried.contains(&name)
    }

    /// Whether the context was ever stopped.
    pub(crate) fn was_stopped(&self, name: Name) -> bool
        ensures { result ≡ has_word name self.now.stopped }
    {
        self.stopped.contains(&name)
    }

    /// The place of the first image of a context.
    pub(crate) fn place_of(&self, name: Name) -> Option<usize>
        ensures { result ≡ position (λ c. bytes_eq c.name name) self.now.carried }
    {
        if !self.is_carried(name) {
            return None;
        }
        self.images.iter().position(|image| image.name == name)
    }

    /// The first image of a context.
    pub(crate) fn image_of(&self, name: Name) -> Option<&ContextImage>
        ensures { option_copied result ≡ first_that (λ c. bytes_eq c.name name) self.now.carried }
    {
        if !self.is_carried(name) {
            return None;
        }
        self.images.iter().find(|image| image.name == name)
    }

    /// The images.
    pub(crate) fn images(&self) -> &[ContextImage]
        ensures { result.now ≡ self.now.carried }
    {
        self.images.as_slice()
    }
}
