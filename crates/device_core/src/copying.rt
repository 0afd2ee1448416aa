//! Equal devices.

ghost use Rattle.std.specs.Prelude.{◌≡◌, IfOk};

use crate::Device;
use crate::husks::HuskEntry;
use crate::index::EndLocation;
use crate::named::put_named;
use context_core::{ContextState, Draft};
use indexmap::IndexMap;
use rdma_types::{Items, Name};
use std::alloc::{AllocError, Global};

/// Equal contexts, for a copy of their pool.
fn copy_contexts(
    alloc: Global,
    contexts: &IndexMap<Name, ContextState>,
) -> Result<IndexMap<Name, ContextState>, AllocError>
    ensures { IfOk result (λ copy. copy.entries ≡ contexts.now.entries) }
{
    let mut copy = IndexMap::new(alloc);
    for i in 0..contexts.len() {
        let (name, state) = contexts.get_index(i).unwrap();
        put_named(&mut copy, *name, state.copy(alloc)?)?;
    }
    Ok(copy)
}

/// Equal husks.
fn copy_husks(
    alloc: Global,
    husks: &IndexMap<Name, Items<HuskEntry>>,
) -> Result<IndexMap<Name, Items<HuskEntry>>, AllocError>
    ensures { IfOk result (λ copy. copy.entries ≡ husks.now.entries) }
{
    let mut copy = IndexMap::new(alloc);
    for i in 0..husks.len() {
        let (name, entries) = husks.get_index(i).unwrap();
        let left = Vec::from_slice(alloc, entries.as_slice())?;
        put_named(&mut copy, *name, Items::new(left))?;
    }
    Ok(copy)
}

/// An equal index.
fn copy_index(
    alloc: Global,
    index: &IndexMap<u32, EndLocation>,
) -> Result<IndexMap<u32, EndLocation>, AllocError>
    ensures { IfOk result (λ copy. copy.entries ≡ index.now.entries) }
{
    let mut copy = IndexMap::new(alloc);
    for i in 0..index.len() {
        let (number, spot) = index.get_index(i).unwrap();
        copy.insert(*number, *spot)?;
    }
    Ok(copy)
}

impl Device {
    /// An equal device. What is done to the one is not seen at the other. All its bytes are copied, but for pages that it
    /// shares with images: these both devices share. Errors: `AllocError` when out of memory.
    pub fn copy(&self, alloc: Global) -> Result<Device, AllocError>
        ensures { IfOk result (λ d. d ≡ self.now) }
    {
        Ok(Device {
            id: self.id,
            address: self.address,
            qp_count: self.qp_count,
            key_count: self.key_count,
            pool: self.pool.copy(alloc)?,
            husks: copy_husks(alloc, &self.husks)?,
            index: copy_index(alloc, &self.index)?,
            contexts: copy_contexts(alloc, &self.contexts)?,
            draft: Draft::make(alloc)?,
        })
    }
}
