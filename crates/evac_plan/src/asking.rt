//! What a world has: its devices, and the contexts on one of them.

ghost use Rattle.std.specs.Prelude.{◌≡◌, ◌==◌, ◌∷◌, map, IfOk};
ghost use Rattle.std.specs.List.{list_all, list_any};
ghost use Rattle.evac_rules.specs.Evacuation as rules;

use rdma_types::Name;
use std::alloc::{AllocError, Global};
use world_core::World;

/// The ids of all devices.
fn device_ids(alloc: Global, world: &World) -> Result<Vec<u8>, AllocError>
    ensures { IfOk result (λ ids. ids.items ≡ map (λ d. d.id) world.now.devices) }
{
    let mut ids = Vec::new(alloc);
    while let Some(id) = world.device_at(ids.len()) {
        ids.push(id)?;
    }
    Ok(ids)
}

/// Whether an id is among ids.
fn is_among(ids: &[u8], id: u8) -> bool
    ensures { result ≡ list_any (λ k. k == id) ids.now }
{
    ids.iter().any(|k| *k == id)
}

/// Whether all are among ids.
fn are_among(ids: &[u8], wanted: &[u8]) -> bool
    ensures { result ≡ list_all (λ k. list_any (λ j. j == k) ids.now) wanted.now }
{
    wanted.iter().all(|id| is_among(ids, *id))
}

/// Whether the device and all targets are there.
pub(crate) fn are_devices(
    alloc: Global,
    world: &World,
    from: u8,
    targets: &[u8],
) -> Result<bool, AllocError>
    ensures { IfOk result (λ there. there ≡ rules.are_devices world.now (from ∷ targets.now)) }
{
    let ids = device_ids(alloc, world)?;
    let ids = ids.as_slice();
    if !is_among(ids, from) {
        return Ok(false);
    }
    Ok(are_among(ids, targets))
}

/// The names of the contexts that live on a device, in order of making or restoring.
pub(crate) fn names_on(alloc: Global, world: &World, device: u8) -> Result<Vec<Name>, AllocError>
    ensures { IfOk result (λ names. names.items ≡ rules.names_on world.now device) }
{
    let mut names = Vec::new(alloc);
    while let Some(name) = world.context_at(device, names.len()) {
        names.push(name)?;
    }
    Ok(names)
}
