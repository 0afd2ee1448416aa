//! Readers, which take no memory.

ghost use Rattle.std.specs.Prelude.{◌≡◌, ◌<◌, ◌^◌, IfSome, length};
ghost use Rattle.protocol.specs.Readers.{context_name, end_view};
ghost use Rattle.protocol.specs.Refusals as refusals;
ghost use Rattle.protocol.specs.State as state;
ghost use Rattle.device_core.specs.Numbered.{numbered_view};
ghost use Rattle.device_core.specs.Readings as readings;
ghost use Rattle.device_core.specs.Readings.{connected_view, link_state, live_ended, live_resumes, live_view};

use crate::Device;
use context_core::{LinkView, LiveEnd};
use rdma_types::{Address, EndState, EndView, Name, ObjName};

/// The state of a connected end.
fn state_of(link: &LinkView) -> EndState
    ensures { result ≡ link_state link.now }
{
    if link.ended {
        EndState::Error
    } else if link.paused {
        EndState::Paused
    } else if link.resuming {
        EndState::Resuming
    } else {
        EndState::Running
    }
}

/// The view of an end; in Init all its numbers but its own are 0.
fn view_of(end: &LiveEnd) -> EndView
    ensures { result ≡ live_view end.now }
{
    match end.link {
        None => EndView {
            name: end.name,
            number: end.number,
            peer: 0,
            state: EndState::Init,
            una: 0,
            next: 0,
            untold: 0,
            rnr: 0,
            rnr_wait: false,
        },
        Some(link) => EndView {
            name: end.name,
            number: end.number,
            peer: link.peer,
            state: state_of(&link),
            una: link.una,
            next: link.next,
            untold: link.untold,
            rnr: link.rnr,
            rnr_wait: link.rnr_wait,
        },
    }
}

impl Device {
    /// The id, from 1 on.
    pub fn id(&self) -> u8
        ensures { result ≡ self.now.id }
    {
        self.id
    }

    /// The address.
    pub fn address(&self) -> Address
        ensures { result ≡ self.now.address }
    {
        self.address
    }

    /// Whether a live context has the name.
    pub fn has_context(&self, name: Name) -> bool
        ensures { result ≡ refusals.has_context self.now name }
    {
        self.contexts.contains_key(&name)
    }

    /// The name of live context `i` in order of coming, from 0; None where there are fewer.
    pub fn context_at(&self, i: usize) -> Option<Name>
        ensures { result ≡ context_name self.now i }
    {
        let Some((name, _)) = self.contexts.get_index(i) else {
            return None;
        };
        Some(*name)
    }

    /// How many queue pairs a live context has; 0 where none has the name.
    pub fn end_count(&self, context: Name) -> usize
        ensures { result ≡ length (state.context_at self.now context).ends }
    {
        match self.contexts.get(&context) {
            Some(held) => held.end_count(),
            None => 0,
        }
    }

    /// Queue pair `i` of a live context in order of making, from 0.
    fn view_at(&self, context: Name, i: usize) -> Option<EndView>
        ensures view { result ≡ end_view self.now context i }
        ensures number { IfSome result (λ v. v.number < 2 ^ 24) }
    {
        let Some(held) = self.contexts.get(&context) else {
            return None;
        };
        let Some(end) = held.end_at(context, i) else {
            return None;
        };
        Some(view_of(&end))
    }

    /// Queue pair `i` of a live context in order of making, from 0; None where there are fewer, or no such context.
    pub fn end_at(&self, context: Name, i: usize) -> Option<EndView>
        ensures { result ≡ end_view self.now context i }
    {
        self.view_at(context, i)
    }

    /// The queue pair that a word names; None where it does not live here. Its number is below 2^24.
    pub fn end_named(&self, end: &ObjName) -> Option<EndView>
        ensures view { result ≡ readings.end_named self.now end.now }
        ensures number { IfSome result (λ v. v.number < 2 ^ 24) }
    {
        let Some(held) = self.contexts.get(&end.context) else {
            return None;
        };
        let Some(place) = held.place_of_end(end.name) else {
            return None;
        };
        self.view_at(end.context, place)
    }

    /// What is told of the live queue pair with a number.
    fn live_end(&self, number: u32) -> Option<LiveEnd>
        ensures view { numbered_view self.now number ≡ connected_view result }
        ensures resumes { readings.has_resuming_end self.now number ≡ live_resumes result }
        ensures ended { readings.has_ended_end self.now number ≡ live_ended result }
    {
        let Some(spot) = self.index.get(&number) else {
            return None;
        };
        let Some(held) = self.contexts.get(&spot.context) else {
            return None;
        };
        held.end_at(spot.context, spot.place)
    }

    /// The connected queue pair with a number; None where none lives here.
    pub fn end_numbered(&self, number: u32) -> Option<EndView>
        ensures { result ≡ numbered_view self.now number }
    {
        let Some(end) = self.live_end(number) else {
            return None;
        };
        match end.link {
            None => None,
            Some(_) => Some(view_of(&end)),
        }
    }

    /// The number of the next packet to execute, and one past the highest number sent, of the connected queue pair with a
    /// number; None where there is none.
    pub fn marks(&self, number: u32) -> Option<(u64, u64)>
        ensures { result ≡ readings.marks_at self.now number }
    {
        let found = self.find_end(number)?;
        Some((found.expected, found.top))
    }

    /// Whether the live queue pair with a number is Resuming.
    pub fn has_resuming_end(&self, number: u32) -> bool
        ensures { result ≡ readings.has_resuming_end self.now number }
    {
        let Some(end) = self.live_end(number) else {
            return false;
        };
        match end.link {
            Some(link) => !link.ended && link.resuming,
            None => false,
        }
    }

    /// Whether the live queue pair with a number is in Error.
    pub fn has_ended_end(&self, number: u32) -> bool
        ensures { result ≡ readings.has_ended_end self.now number }
    {
        let Some(end) = self.live_end(number) else {
            return false;
        };
        match end.link {
            Some(link) => link.ended,
            None => false,
        }
    }
}
