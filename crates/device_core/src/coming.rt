//! Contexts that come to the device.

ghost use Rattle.std.specs.Prelude.{ℕ, ◌≡◌, ◌+◌, ◌<◌, ◌≤◌, ◌++◌, ◌∷◌, ◌||◌, [], None, length, nat_eq, nat_le, bytes_eq};
ghost use Rattle.std.specs.List.{list_any};
ghost use Rattle.indexmap.specs.IndexMap.{get, spare};
ghost use Rattle.rdma_types.specs.Causes.{cause, first_cause};
ghost use Rattle.rdma_types.specs.Limits.{most_contexts};
ghost use Rattle.rdma_types.specs.declared.requests.Keys.{Keys};
ghost use Rattle.protocol.specs.Events.{IsLawfulEvent};
ghost use Rattle.protocol.specs.DeviceStep.{highest as highest_of};
ghost use Rattle.protocol.specs.Lawful.{IsLawful};
ghost use Rattle.protocol.specs.Refusals.{causes_of, number_is_taken};
ghost use Rattle.device_core.specs.Coming.{brings_taken, has_moved_image, higher as higher_of, numbers_of_ends, pair_is_taken, pairs_of};
ghost use Rattle.device_core.specs.Done.{IsDone};
ghost use Rattle.device_core.specs.Leaving.{placed};

use crate::Device;
use crate::device::answered;
use crate::index::{EndLocation, put_location};
use crate::named::put_named;
use context_core::{ContextFault, ContextState};
use indexmap::IndexMap;
use protocol::{ContextImage, EndImage, Event, Outcome, RegionImage};
use rdma_types::{Answer, Keys, Name, Refusal};
use std::alloc::Global;
use transport::move_core::MOST_MOVES;

/// Whether an end in Rts was moved as often as may be.
fn has_moved_out(end: &EndImage) -> bool
    ensures { result ≡ has_moved_image end.now.linked }
{
    match &end.linked {
        Some(link) => !link.ended && link.moves >= MOST_MOVES,
        None => false,
    }
}

/// Whether one of them was.
fn have_moved_out(ends: &[EndImage]) -> bool
    ensures { result ≡ list_any (λ e. has_moved_image e.linked) ends.now }
{
    ends.iter().any(|end| has_moved_out(end))
}

/// The greater count, if a number is one of the device's own.
fn higher(id: u8, size: u32, number: u32, count: u32) -> u32
    requires { 0 < size }
    ensures { result ≡ higher_of id size number count }
{
    if number / size == u32::from(id) {
        count.max(number % size)
    } else {
        count
    }
}

/// The count of queue pairs that goes on past those of an image.
fn highest_number(id: u8, ends: &[EndImage], count: u32) -> u32
    ensures { result ≡ highest_of id 65536 (numbers_of_ends ends.now) count }
{
    let mut highest = count;
    for end in ends {
        highest = higher(id, 65_536, end.number, highest);
    }
    highest
}

/// The count of pairs of keys that goes on past those of an image.
fn highest_pair(id: u8, regions: &[RegionImage], count: u32) -> u32
    ensures { result ≡ highest_of id 8388608 (pairs_of regions.now) count }
{
    let mut highest = count;
    for region in regions {
        highest = higher(id, 8_388_608, region.keys.local / 2, highest);
    }
    highest
}

/// Notes each end at its place in the context.
fn put_ends(index: &mut IndexMap<u32, EndLocation>, name: Name, ends: &[EndImage])
    requires { length ends.now ≤ spare index.old }
    ensures { (k : ℕ) → get nat_eq index.new k
        ≡ placed name 0 (numbers_of_ends ends.now) k (get nat_eq index.old k) }
{
    for place in 0..ends.len() {
        put_location(
            index,
            ends[place].number,
            EndLocation {
                context: name,
                place,
            },
        );
    }
}

/// Puts a new context behind the others. There must be room for it.
fn put_context(contexts: &mut IndexMap<Name, ContextState>, name: Name, state: ContextState)
    requires absent { get bytes_eq contexts.old name ≡ None }
    requires room { 0 < spare contexts.old }
    ensures { contexts.new.entries ≡ contexts.old.entries ++ (name, state) ∷ [] }
{
    put_named(contexts, name, state).unwrap();
}

/// Which cause of a restore counts.
#[tactic(auto, unfolding(rdma_types::specs::Causes::first_cause))]
fn restore_cause(taken: bool, full: bool, lacks_pages: bool) -> Option<Refusal>
    ensures { result ≡ first_cause (cause Refusal.NumberTaken taken ∷ cause Refusal.TooMany full
        ∷ cause Refusal.NoPage lacks_pages ∷ []) }
{
    if taken {
        Some(Refusal::NumberTaken)
    } else if full {
        Some(Refusal::TooMany)
    } else if lacks_pages {
        Some(Refusal::NoPage)
    } else {
        None
    }
}

impl Device {
    /// Whether a queue pair number lives here, or stands in a husk.
    fn is_noted(&self, number: u32) -> bool
        ensures { result ≡ number_is_taken self.now number }
    {
        self.index.contains_key(&number)
    }

    /// Whether one of these numbers does.
    fn are_noted(&self, ends: &[EndImage]) -> bool
        ensures { result ≡ list_any (λ e. number_is_taken self.now e.number) ends.now }
    {
        ends.iter().any(|end| self.is_noted(end.number))
    }

    /// Whether a key of a pair lives here.
    fn is_used(&self, keys: Keys) -> bool
        ensures { result ≡ pair_is_taken self.now keys }
    {
        for place in 0..self.contexts.len() {
            let (_, state) = self.contexts.get_index(place).unwrap();
            if state.has_keys(keys) {
                return true;
            }
        }
        false
    }

    /// Whether a key of these regions does.
    fn are_used(&self, regions: &[RegionImage]) -> bool
        ensures { result ≡ list_any (λ r. pair_is_taken self.now r.keys) regions.now }
    {
        regions.iter().any(|region| self.is_used(region.keys))
    }

    /// Whether an image brings a name, a number or a key that lives here.
    fn meets_own(&self, image: &ContextImage) -> bool
        ensures { result ≡ brings_taken self.now image.now }
    {
        self.is_taken(image.name)
            || self.are_noted(image.ends.as_slice())
            || self.are_used(image.regions.as_slice())
    }

    /// Whether no context comes any more, or not this one.
    fn takes_none(&self, image: &ContextImage) -> bool
        ensures { result ≡ (nat_le most_contexts (length self.now.contexts)
            || list_any (λ e. has_moved_image e.linked) image.now.ends) }
    {
        self.is_full() || have_moved_out(image.ends.as_slice())
    }

    /// Why an image is not put on the device; None where it is.
    pub fn restore_refusal(&self, image: &ContextImage) -> Option<Refusal>
        requires { IsLawful image.now }
        ensures { result ≡ first_cause (causes_of self.now (Event.Restore image.now)) }
    {
        restore_cause(
            self.meets_own(image),
            self.takes_none(image),
            ContextState::lacks_pages(&self.pool, image),
        )
    }

    /// An image is put on the device.
    pub(crate) fn put_image(
        &mut self,
        alloc: Global,
        image: &ContextImage,
    ) -> Result<Outcome, ContextFault>
        requires { IsLawfulEvent (Event.Restore image.now) }
        ensures { IsDone self.old (Event.Restore image.now) self.new result }
    {
        if let Some(refusal) = self.restore_refusal(image) {
            return Err(ContextFault::Refused(refusal));
        }
        if self.contexts.reserve(1).is_err() {
            return Err(ContextFault::OutOfMemory);
        }
        if self.index.reserve(image.ends.len()).is_err() {
            return Err(ContextFault::OutOfMemory);
        }
        let state = match ContextState::from_image(alloc, &mut self.pool, image) {
            Ok(state) => state,
            Err(fault) => return Err(fault),
        };
        put_ends(&mut self.index, image.name, image.ends.as_slice());
        self.qp_count = highest_number(self.id, image.ends.as_slice(), self.qp_count);
        self.key_count = highest_pair(self.id, image.regions.as_slice(), self.key_count);
        put_context(&mut self.contexts, image.name, state);
        Ok(answered(alloc, Answer::Done))
    }
}
