//! A device.

ghost use Rattle.std.specs.Prelude.{ℕ, ◌≡◌, ◌≢◌, ◌<◌, ◌≤◌, ◌∷◌, [], List, length, IfOk, IfNone, IfSome, IfErr, OnErr, Some, None, IsTrue, is_none, nat_le, false, if◌then◌else◌};
ghost use Rattle.rdma_types.specs.Causes.{Cause, cause, first_cause};
ghost use Rattle.rdma_types.specs.declared.answers.Refusal.TheVariants.{NoSuch, Stopped};
ghost use Rattle.rdma_types.specs.Limits.{most_keys, most_numbers};
ghost use Rattle.protocol.specs.DeviceStep.{answers as answers_with, device_step, keys_of, number_of};
ghost use Rattle.protocol.specs.Events.{IsLawfulEvent};
ghost use Rattle.protocol.specs.Lawful.{IsLawful};
ghost use Rattle.protocol.specs.Refusals.{has_context as has_context_named, within};
ghost use Rattle.protocol.specs.State.{Context};
ghost use Rattle.device_core.specs.Done.{IsDone};
ghost use Rattle.device_core.specs.Readings.{new_device};

use crate::husks::HuskEntry;
use crate::index::EndLocation;
use context_core::{ContextFault, ContextState, Draft};
use indexmap::IndexMap;
use page_pool::PagePool;
use protocol::{Event, Outcome};
use rdma_types::{Address, Answer, Items, Keys, Name, Refusal};
use std::alloc::{AllocError, Global};
use std::marker::Model;

/// Pages of a device.
const PAGES: u32 = 8192;

/// Queue pair numbers of a device at most.
const MOST_NUMBERS: u32 = 65_535;

/// Pairs of keys of a device at most.
const MOST_KEYS: u32 = 8_388_607;

/// A device. Contracts see it as the protocol's rules do.
#[derive(Drop)]
pub struct Device {
    pub(crate) id: u8,
    pub(crate) address: Address,
    pub(crate) qp_count: u32,
    pub(crate) key_count: u32,
    pub(crate) pool: PagePool,
    pub(crate) contexts: IndexMap<Name, ContextState>,
    pub(crate) husks: IndexMap<Name, Items<HuskEntry>>,
    pub(crate) index: IndexMap<u32, EndLocation>,
    pub(crate) draft: Draft,
}

impl Model for Device {
    ghost use Rattle.std.specs.Prelude.{nat_eq};
    ghost use Rattle.indexmap.specs.IndexMap.{get};
    ghost use Rattle.protocol.specs.State as state;
    ghost use Rattle.device_core.specs.Parts.{device_of};
    ghost use Rattle.device_core.specs.Held.{IsHeld};

    ghost Value = { state.Device };

    ghost view = { λ d. device_of d.id d.address d.qp_count d.key_count d.pool d.contexts.entries d.husks.entries };

    ghost invariant = { λ d. IsHeld d.pool d.contexts.entries (λ k. get nat_eq d.index k) (device_of d.id d.address d.qp_count d.key_count d.pool d.contexts.entries d.husks.entries) };
}

/// What an answer without datagrams gives.
pub(crate) fn answered(alloc: Global, answer: Answer) -> Outcome
    ensures { result ≡ record { answer = answer; sent = []; image = None } }
{
    Outcome {
        answer,
        sent: Items::new(Vec::new(alloc)),
        image: None,
    }
}

impl Device {
    /// A device without contexts. It takes all pages that its regions and posted requests will ever have. Errors:
    /// `AllocError` when out of memory.
    pub fn make(alloc: Global, id: u8, address: Address) -> Result<Device, AllocError>
        requires { 1 ≤ id }
        ensures { IfOk result (λ d. d ≡ new_device id address) }
    {
        let pool = PagePool::make(alloc, PAGES)?;
        let draft = Draft::make(alloc)?;
        Ok(Device {
            id,
            address,
            qp_count: 0,
            key_count: 0,
            pool,
            contexts: IndexMap::new(alloc),
            husks: IndexMap::new(alloc),
            index: IndexMap::new(alloc),
            draft,
        })
    }

    /// Why an event of a context that does not live here is refused.
    pub(crate) fn missing(&self, name: Name) -> Refusal
        requires { has_context_named self.now name ≡ false }
        ensures { (causes : Context → List Cause)
            → first_cause (within self.now name causes) ≡ Some result }
    {
        if self.husks.contains_key(&name) {
            Refusal::Stopped
        } else {
            Refusal::NoSuch
        }
    }

    /// The keys of the next region, and None where all are used.
    pub(crate) fn next_keys(&self) -> Option<Keys>
        ensures all { is_none result ≡ nat_le most_keys self.now.key_count }
        ensures next { IfSome result (λ keys. keys ≡ keys_of self.now) }
    {
        if self.key_count >= MOST_KEYS {
            return None;
        }
        let local = u32::from(self.id) * 16_777_216 + 2 * (self.key_count + 1);
        Some(Keys {
            local,
            remote: local + 1,
        })
    }

    /// The number of the next queue pair, and None where all are used.
    pub(crate) fn next_number(&self) -> Option<u32>
        ensures all { is_none result ≡ nat_le most_numbers self.now.qp_count }
        ensures next { IfSome result (λ number. number ≡ number_of self.now) }
    {
        if self.qp_count >= MOST_NUMBERS {
            return None;
        }
        Some(u32::from(self.id) * 65_536 + (self.qp_count + 1))
    }
}
