//! Contexts that leave the device and come to it, and their husks.

ghost use Rattle.std.specs.Prelude.{ℕ, ◌≡◌, ◌+◌, ◌<◌, ◌≤◌, ◌++◌, ◌∷◌, ◌&&◌, ◌||◌, ◌==◌, [], Some, None, IfOk, IfNone, IfSome, OnErr, OnOk, IsSome, All, length, nat_eq, nat_le, bytes_eq, slice_get, if◌then◌else◌};
ghost use Rattle.indexmap.specs.IndexMap.{get, spare};
ghost use Rattle.rdma_types.specs.Causes.{first_cause};
ghost use Rattle.protocol.specs.Events.{IsLawfulEvent};
ghost use Rattle.protocol.specs.Lawful.{IsLawful};
ghost use Rattle.protocol.specs.Refusals.{causes_of};
ghost use Rattle.device_core.specs.Done.{IsDone, IsNotOutOfMemory};
ghost use Rattle.device_core.specs.Index.{numbers_in, without_numbers};

use crate::Device;
use crate::husks::HuskEntry;
use crate::index::{EndLocation, drop_location};
use crate::telling::outcome_of_done;
use context_core::ContextFault;
use indexmap::IndexMap;
use protocol::{Event, Outcome};
use rdma_types::{Items, Name, Refusal};
use std::alloc::Global;

/// Forgets the numbers of a husk's entries.
fn drop_entries(index: &mut IndexMap<u32, EndLocation>, entries: &[HuskEntry])
    ensures { (k : ℕ) → get nat_eq index.new k
        ≡ without_numbers (numbers_in entries.now) k (get nat_eq index.old k) }
{
    for entry in entries {
        drop_location(index, entry.number);
    }
}

impl Device {
    /// A husk is forgotten. It takes no memory.
    pub(crate) fn release(&mut self, alloc: Global, name: Name) -> Result<Outcome, ContextFault>
        ensures done { IsDone self.old (Event.Release name) self.new result }
        ensures never_out_of_memory { IsNotOutOfMemory result }
    {
        let Some(entries) = self.husks.shift_remove(&name) else {
            return Err(ContextFault::Refused(Refusal::NoSuch));
        };
        drop_entries(&mut self.index, entries.as_slice());
        outcome_of_done(alloc, Ok(()))
    }
}
