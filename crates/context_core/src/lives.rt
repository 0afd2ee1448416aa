//! What is told of queue pairs.

ghost use Rattle.std.specs.Prelude.{◌≡◌, ◌++◌, List, IfOk, map};
ghost use Rattle.std.specs.List.{list_any};
ghost use Rattle.std.specs.Option.{option_map};
ghost use Rattle.indexmap.specs.IndexMap.{values};
ghost use Rattle.rdma_types.specs.Lists.{some};
ghost use Rattle.rdma_types.specs.declared.names.Name.{Name};
ghost use Rattle.page_pool.specs.Pool.{Pool};
ghost use Rattle.end_queues.specs.Completions.{Queue};
ghost use Rattle.protocol.specs.EndWords.{is_paused_link};
ghost use Rattle.protocol.specs.Refusals.{has_moved_out as link_has_moved_out, links_of};
ghost use Rattle.protocol.specs.State.{Context, end_at};
ghost use Rattle.endpoint_core.specs.Ends.{link_in};
ghost use Rattle.context_core.specs.Context.{context_in, end_of};
ghost use Rattle.context_core.specs.Links.{SendByTerms, SendsByTerms, is_moved_out_by, is_paused_by, link_at, link_marks, link_view as view_of_link, live_end as view_of_end, live_end_at};

use crate::image_links::{is_paused, is_resuming};
use crate::{ContextState, EndSlot};
use endpoint_core::EndLink;
use indexmap::IndexMap;
use rdma_types::{Name, ObjName};
use std::alloc::AllocError;
use transport::move_core::MOST_MOVES;

/// What is told of a connected end.
#[derive(Clone, Copy)]
pub struct LinkView {
    /// It is in Error, and else in Rts.
    pub ended: bool,
    /// The partner's queue pair number.
    pub peer: u32,
    pub paused: bool,
    pub resuming: bool,
    /// How often this end moved.
    pub moves: u16,
    /// The oldest unacknowledged packet number.
    pub una: u64,
    /// The next packet number to send.
    pub next: u64,
    /// The packet number past the last posted request.
    pub last: u64,
    /// Posted requests that are not told.
    pub untold: u32,
    /// The rnr of its terms.
    pub rnr: u8,
    /// Whether it waits for the RNR timer.
    pub rnr_wait: bool,
}

/// A live end: its name and number, and its link, which is None in Init.
#[derive(Clone, Copy)]
pub struct LiveEnd {
    pub name: ObjName,
    pub number: u32,
    pub link: Option<LinkView>,
}

/// What is told of a connection.
fn link_view(link: &EndLink) -> LinkView
    requires { SendsByTerms (Some link.now) }
    ensures { (pool : Pool) → result ≡ view_of_link (link_in pool link.now) }
{
    let numbers = link.requester.parts();
    LinkView {
        ended: link.ended,
        peer: link.peer,
        paused: is_paused(link.moves.phase),
        resuming: is_resuming(link.moves.phase),
        moves: link.moves.own,
        una: numbers.una,
        next: numbers.next,
        last: link.requester.end(),
        untold: link.requester.untold(),
        rnr: link.terms.rnr,
        rnr_wait: numbers.rnr_wait,
    }
}

/// What is told of the connection of a queue pair; None in Init.
fn link_of(slot: &EndSlot) -> Option<LinkView>
    requires { SendsByTerms slot.now.endpoint.link }
    ensures { (pool : Pool)
        → result ≡ option_map view_of_link (option_map (link_in pool) slot.now.endpoint.link) }
{
    match &slot.endpoint.link {
        None => None,
        Some(link) => Some(link_view(link)),
    }
}

/// What is told of a queue pair.
fn live_end(context: Name, name: Name, slot: &EndSlot) -> LiveEnd
    requires { SendsByTerms slot.now.endpoint.link }
    ensures { (pool : Pool) (queues : List (Name × Queue)) (c : Context) → c.name ≡ context
        → result ≡ view_of_end c (end_of pool queues (name, slot.now)) }
{
    LiveEnd {
        name: ObjName { context, name },
        number: slot.endpoint.number,
        link: link_of(slot),
    }
}

/// The number of the next packet to execute of a connection, and one past the highest number sent.
fn marks(link: &EndLink) -> (u64, u64)
    ensures { (pool : Pool) → result ≡ link_marks (link_in pool link.now) }
{
    (link.expected(), link.requester.parts().top)
}

/// Whether an end is connected, not in Error, and Paused.
fn is_paused_end(slot: &EndSlot) -> bool
    ensures { result ≡ is_paused_by slot.now.endpoint.link }
{
    match &slot.endpoint.link {
        None => false,
        Some(link) => !link.ended && is_paused(link.moves.phase),
    }
}

/// Whether an end is connected, not in Error, and moved as often as may be.
fn is_moved_out(slot: &EndSlot) -> bool
    ensures { result ≡ is_moved_out_by slot.now.endpoint.link }
{
    match &slot.endpoint.link {
        None => false,
        Some(link) => !link.ended && link.moves.own >= MOST_MOVES,
    }
}

/// Whether one of the ends is Paused.
fn any_paused(ends: &IndexMap<Name, EndSlot>) -> bool
    ensures { result ≡ list_any (λ s. is_paused_by s.endpoint.link) (values ends.now) }
{
    ends.values().any(|slot| is_paused_end(slot))
}

/// Whether one of the ends moved as often as may be.
fn any_moved_out(ends: &IndexMap<Name, EndSlot>) -> bool
    ensures { result ≡ list_any (λ s. is_moved_out_by s.endpoint.link) (values ends.now) }
{
    ends.values().any(|slot| is_moved_out(slot))
}

impl ContextState {
    /// Appends what is told of the queue pairs of a context of that name, in order of making. Errors: `AllocError` when
    /// out of memory.
    pub fn push_ends(&self, context: Name, live: &mut Vec<LiveEnd>) -> Result<(), AllocError>
        requires { SendByTerms self.now }
        ensures { (pool : Pool) → IfOk result (λ _. live.new.items
            ≡ live.old.items ++ map (view_of_end (context_in pool context self.now)) (context_in pool context self.now).ends) }
    {
        live.try_reserve(self.ends.len())?;
        for place in 0..self.ends.len() {
            let (name, slot) = self.ends.get_index(place).unwrap();
            live.push(live_end(context, *name, slot))?;
        }
        Ok(())
    }

    /// What is told of the queue pair at a place of a context of that name; None where there are fewer.
    pub fn end_at(&self, context: Name, place: usize) -> Option<LiveEnd>
        requires { SendByTerms self.now }
        ensures { (pool : Pool) → result ≡ live_end_at (context_in pool context self.now) place }
    {
        let (name, slot) = self.ends.get_index(place)?;
        Some(live_end(context, *name, slot))
    }

    /// The connection of the queue pair of a name; None where it is in Init or there is none.
    pub fn link_named(&self, end: Name) -> Option<LinkView>
        requires { SendByTerms self.now }
        ensures { (pool : Pool) (n : Name) → result
            ≡ option_map view_of_link (end_at (context_in pool n self.now) end).link }
    {
        match self.ends.get(&end) {
            None => None,
            Some(slot) => link_of(slot),
        }
    }

    /// The number of the next packet to execute, and one past the highest number sent, of the connected queue pair at a
    /// place; None where there is none.
    pub fn marks_at(&self, place: usize) -> Option<(u64, u64)>
        ensures { (pool : Pool) (n : Name) → result
            ≡ option_map link_marks (link_at (context_in pool n self.now) place) }
    {
        let Some((_, slot)) = self.ends.get_index(place) else {
            return None;
        };
        match &slot.endpoint.link {
            None => None,
            Some(link) => Some(marks(link)),
        }
    }

    /// Whether an end is connected, not in Error, and Paused.
    pub fn has_paused(&self) -> bool
        ensures { (pool : Pool) (n : Name) → result
            ≡ some is_paused_link (links_of (context_in pool n self.now)) }
    {
        any_paused(&self.ends)
    }

    /// Whether an end is connected, not in Error, and moved 65,535 times.
    pub fn has_moved_out(&self) -> bool
        ensures { (pool : Pool) (n : Name) → result
            ≡ some link_has_moved_out (links_of (context_in pool n self.now)) }
    {
        any_moved_out(&self.ends)
    }
}
