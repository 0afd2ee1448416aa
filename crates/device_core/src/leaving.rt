//! Contexts that leave the device.

ghost use Rattle.std.specs.Prelude.{ℕ, ◌≡◌, ◌++◌, ◌&&◌, ◌||◌, ◌<◌, true, ◌∷◌, [], None, Some, OnOk, IfOk, IsSome, All, bytes_eq, length, map, nat_eq, nat_le, slice_get};
ghost use Rattle.indexmap.specs.IndexMap.{get, spare};
ghost use Rattle.rdma_types.specs.Causes.{cause, first_cause};
ghost use Rattle.rdma_types.specs.Limits.{most_husks};
ghost use Rattle.rdma_types.specs.Lists.{some};
ghost use Rattle.protocol.specs.EndWords.{is_paused_link};
ghost use Rattle.page_pool.specs.Pool.{Pool};
ghost use Rattle.protocol.specs.State.{End, context_at};
ghost use Rattle.protocol.specs.DeviceStep.{husk_of};
ghost use Rattle.protocol.specs.Images.{image_of};
ghost use Rattle.protocol.specs.Refusals.{causes_of, has_context, has_moved_out, links_of};
ghost use Rattle.context_core.specs.Context.{context_in};
ghost use Rattle.context_core.specs.Links.{SendByTerms};
ghost use Rattle.device_core.specs.Done.{AreLawful, IsDone};
ghost use Rattle.device_core.specs.Index.{numbers_in, without_numbers};
ghost use Rattle.device_core.specs.Leaving.{gone_in, in_list, left_by, placed};
ghost use Rattle.device_core.specs.Parts.{entry_of};

use crate::Device;
use crate::husks::HuskEntry;
use crate::index::{EndLocation, drop_location, move_location};
use crate::named::put_named;
use context_core::{ContextFault, ContextState};
use indexmap::IndexMap;
use protocol::{ContextImage, Event, Outcome};
use rdma_types::{Answer, Items, Name, Refusal};
use std::alloc::{AllocError, Global};

/// Husks of a device at most.
const MOST_HUSKS: usize = 256;

/// What the end at a place leaves: an entry, where it is in Rts.
fn entry_left(state: &ContextState, name: Name, place: usize) -> Option<HuskEntry>
    requires { SendByTerms state.now }
    ensures { (pool : Pool) (e : End) → slice_get (context_in pool name state.now).ends place
        ≡ Some e → map entry_of (in_list result) ≡ left_by e }
{
    let Some(end) = state.end_at(name, place) else {
        return None;
    };
    match end.link {
        Some(link) if !link.ended => Some(HuskEntry {
            number: end.number,
            peer: link.peer,
            moves: link.moves,
        }),
        _ => None,
    }
}

/// Puts an entry behind the others, if it is there.
fn put_entry(entries: &mut Items<HuskEntry>, entry: Option<HuskEntry>) -> Result<(), AllocError>
    ensures { OnOk result (entries.new ≡ entries.old ++ in_list entry) }
{
    if let Some(entry) = entry {
        entries.push(entry)?;
    }
    Ok(())
}

/// The entries that a context of that name leaves.
fn entries_left(
    alloc: Global,
    state: &ContextState,
    name: Name,
) -> Result<Items<HuskEntry>, AllocError>
    requires { SendByTerms state.now }
    ensures { IfOk result (λ es. (pool : Pool)
        → map entry_of es ≡ (husk_of (context_in pool name state.now)).entries) }
{
    let mut entries = Items::new(Vec::new(alloc));
    for place in 0..state.end_count() {
        put_entry(&mut entries, entry_left(state, name, place))?;
    }
    Ok(entries)
}

/// Notes each entry at its place in the husk.
fn move_entries(index: &mut IndexMap<u32, EndLocation>, name: Name, entries: &[HuskEntry])
    requires { All (λ e. IsSome (get nat_eq index.old e.number)) entries.now }
    ensures { (k : ℕ) → get nat_eq index.new k
        ≡ placed name 0 (numbers_in entries.now) k (get nat_eq index.old k) }
{
    for place in 0..entries.len() {
        move_location(
            index,
            entries[place].number,
            EndLocation {
                context: name,
                place,
            },
        );
    }
}

/// Forgets the number of the end at a place, where it leaves nothing.
fn drop_end(index: &mut IndexMap<u32, EndLocation>, state: &ContextState, name: Name, place: usize)
    requires { SendByTerms state.now }
    ensures { (pool : Pool) (e : End) → slice_get (context_in pool name state.now).ends place
        ≡ Some e → (k : ℕ) → get nat_eq index.new k
        ≡ without_numbers (gone_in (e ∷ [])) k (get nat_eq index.old k) }
{
    let Some(end) = state.end_at(name, place) else {
        return;
    };
    if entry_left(state, name, place).is_none() {
        drop_location(index, end.number);
    }
}

/// Forgets the numbers of the ends of a context of that name that leave nothing.
fn drop_ends(index: &mut IndexMap<u32, EndLocation>, state: &ContextState, name: Name)
    requires { SendByTerms state.now }
    ensures { (pool : Pool) (k : ℕ) → get nat_eq index.new k
        ≡ without_numbers (gone_in (context_in pool name state.now).ends) k
        (get nat_eq index.old k) }
{
    for place in 0..state.end_count() {
        drop_end(index, state, name, place);
    }
}

/// The answer of a stop.
fn stopped(alloc: Global, image: ContextImage) -> Outcome
    ensures { result ≡ record { answer = Answer.Stopped; sent = []; image = Some image } }
{
    Outcome {
        answer: Answer::Stopped,
        sent: Items::new(Vec::new(alloc)),
        image: Some(image),
    }
}

/// Whether an end is Paused where that stops the stop.
fn pauses(state: &ContextState, alone: bool) -> bool
    ensures { (pool : Pool) (n : Name) → result
        ≡ (alone && some is_paused_link (links_of (context_in pool n state.now))) }
{
    alone && state.has_paused()
}

/// Which cause of a stop counts.
#[tactic(auto, unfolding(rdma_types::specs::Causes::first_cause))]
fn stop_cause(paused: bool, full: bool) -> Option<Refusal>
    ensures { result ≡ first_cause (cause Refusal.PeerMoving paused ∷ cause Refusal.TooMany full
        ∷ []) }
{
    if paused {
        Some(Refusal::PeerMoving)
    } else if full {
        Some(Refusal::TooMany)
    } else {
        None
    }
}

/// Puts a new husk behind the others. There must be room for it.
fn put_husk(husks: &mut IndexMap<Name, Items<HuskEntry>>, name: Name, entries: Items<HuskEntry>)
    requires absent { get bytes_eq husks.old name ≡ None }
    requires room { 0 < spare husks.old }
    ensures { husks.new.entries ≡ husks.old.entries ++ (name, entries) ∷ [] }
{
    put_named(husks, name, entries).unwrap();
}

impl Device {
    /// Whether a context leaves no husk.
    fn leaves_none(&self, state: &ContextState) -> bool
        ensures { (pool : Pool) (n : Name) → result
            ≡ (nat_le most_husks (length self.now.husks)
            || some has_moved_out (links_of (context_in pool n state.now))) }
    {
        self.husks.len() >= MOST_HUSKS || state.has_moved_out()
    }

    /// Why a context is not stopped; None where it is.
    pub fn stop_refusal(&self, name: Name, alone: bool) -> Option<Refusal>
        ensures { result ≡ first_cause (causes_of self.now (Event.Stop name alone)) }
    {
        let Some(state) = self.contexts.get(&name) else {
            return Some(self.missing(name));
        };
        stop_cause(pauses(state, alone), self.leaves_none(state))
    }

    /// What a context takes along and what it leaves, made before anything changes.
    fn parting(
        &self,
        alloc: Global,
        name: Name,
    ) -> Result<(ContextImage, Items<HuskEntry>), AllocError>
        requires { has_context self.now name ≡ true }
        ensures image { IfOk result (λ p. p.0 ≡ image_of (context_at self.now name)) }
        ensures entries { IfOk result (λ p. map entry_of p.1
            ≡ (husk_of (context_at self.now name)).entries) }
    {
        let state = self.contexts.get(&name).unwrap();
        let image = state.image(alloc, &self.pool, name)?;
        let entries = entries_left(alloc, state, name)?;
        Ok((image, entries))
    }

    /// A context becomes an image, and a husk stays.
    pub(crate) fn stop(
        &mut self,
        alloc: Global,
        name: Name,
        alone: bool,
    ) -> Result<Outcome, ContextFault>
        ensures done { IsDone self.old (Event.Stop name alone) self.new result }
        ensures image { AreLawful result }
    {
        if let Some(refusal) = self.stop_refusal(name, alone) {
            return Err(ContextFault::Refused(refusal));
        }
        let Ok((image, entries)) = self.parting(alloc, name) else {
            return Err(ContextFault::OutOfMemory);
        };
        if self.husks.reserve(1).is_err() {
            return Err(ContextFault::OutOfMemory);
        }
        let state = self.contexts.shift_remove(&name).unwrap();
        move_entries(&mut self.index, name, entries.as_slice());
        drop_ends(&mut self.index, &state, name);
        state.release(&mut self.pool);
        put_husk(&mut self.husks, name, entries);
        Ok(stopped(alloc, image))
    }
}
