//! Where things are, by key.

ghost use Rattle.std.specs.Prelude.{◌≡◌, ◌<◌, Some, bytes_eq, if◌then◌else◌};
ghost use Rattle.indexmap.specs.IndexMap.{get, spare};
ghost use Rattle.std.specs.List.{position};
ghost use Rattle.protocol.specs.Refusals.{has_context};
ghost use Rattle.rdma_types.specs.declared.names.Name as name_of;
ghost use Rattle.world_core.specs.Homes.{looked_up, mover};

use device_core::{Device, Event};
use indexmap::IndexMap;
use rdma_types::Name;
use std::hash::Hash;

/// Notes the place of a key. There must be room for it.
pub(crate) fn put_place<K: Eq + Hash + Drop>(index: &mut IndexMap<K, usize>, key: K, place: usize)
    requires { 0 < spare index.old }
    ensures { (k : K)
        → get K.eq index.new k ≡ (if K.eq key k then Some place else get K.eq index.old k) }
{
    let _ = index.insert(key, place).unwrap();
}

/// The context that an event makes, stops or restores.
pub(crate) fn moved_context(event: &Event) -> Option<Name>
    ensures { result ≡ mover event.now }
{
    match event {
        Event::MakeContext { name } => Some(*name),
        Event::Stop { context, .. } => Some(*context),
        Event::Restore { image } => Some(image.name),
        _ => None,
    }
}

/// The place of the device where a context lives.
fn home_among(devices: &[Device], name: Name) -> Option<usize>
    ensures { result ≡ position (λ d. has_context d name) devices.now }
{
    devices.iter().position(|d| d.has_context(name))
}

/// Notes the place of the device where a context lives, or that it lives nowhere. There must be room for it.
fn put_home(homes: &mut IndexMap<Name, usize>, name: Name, place: Option<usize>)
    requires { 0 < spare homes.old }
    ensures { (m : name_of.Name) → get bytes_eq homes.new m
        ≡ (if bytes_eq name m then place else get bytes_eq homes.old m) }
{
    match place {
        Some(place) => put_place(homes, name, place),
        None => {
            let _ = homes.swap_remove(&name);
        }
    }
}

/// Notes where the context lives that was made, stopped or restored, if there is one.
pub(crate) fn note_home(homes: &mut IndexMap<Name, usize>, devices: &[Device], moved: Option<Name>)
    requires { 0 < spare homes.old }
    ensures { (m : name_of.Name) → get bytes_eq homes.new m
        ≡ looked_up moved devices.now (λ k. get bytes_eq homes.old k) m }
{
    if let Some(name) = moved {
        put_home(homes, name, home_among(devices, name));
    }
}
