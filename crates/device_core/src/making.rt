//! Contexts and queue pairs made.

ghost use Rattle.std.specs.Prelude.{ℕ, ◌≡◌, ◌+◌, ◌<◌, ◌++◌, ◌∷◌, ◌&&◌, ◌||◌, ◌==◌, length, nat_le, [], Some, None, OnOk, OnErr, IsSome, nat_eq, bytes_eq, is_ok, if◌then◌else◌};
ghost use Rattle.indexmap.specs.IndexMap.{get, spare};
ghost use Rattle.rdma_types.specs.Causes.{first_cause};
ghost use Rattle.protocol.specs.Events.{IsLawfulEvent};
ghost use Rattle.rdma_types.specs.Limits.{most_contexts};
ghost use Rattle.protocol.specs.Refusals.{causes_of, has_context, has_husk};
ghost use Rattle.device_core.specs.Done.{IsDone, qp_event};
ghost use Rattle.device_core.specs.Index.{noted};

use crate::Device;
use crate::index::{EndLocation, put_location};
use crate::named::put_named;
use crate::telling::{counted, told, told_number};
use context_core::{ContextFault, ContextState, NewEnd};
use indexmap::IndexMap;
use protocol::{Event, Outcome};
use rdma_types::{Answer, Name, Refusal};
use std::alloc::Global;

/// Live contexts of a device at most.
pub(crate) const MOST_CONTEXTS: usize = 64;

/// Puts a new context behind the others.
pub(crate) fn add_context(
    contexts: &mut IndexMap<Name, ContextState>,
    name: Name,
    state: ContextState,
) -> Result<(), ContextFault>
    requires { get bytes_eq contexts.old name ≡ None }
    ensures ok { OnOk result (contexts.new.entries ≡ contexts.old.entries ++ (name, state) ∷ []) }
    ensures err { OnErr result (contexts.new.entries ≡ contexts.old.entries) }
    ensures memory { OnErr result (result ≡ Err ContextFault.OutOfMemory) }
{
    match put_named(contexts, name, state) {
        Ok(()) => Ok(()),
        Err(_) => Err(ContextFault::OutOfMemory),
    }
}

/// Notes the place of a queue pair, where it was made.
fn note_end(
    index: &mut IndexMap<u32, EndLocation>,
    made: &Result<(), ContextFault>,
    number: Option<u32>,
    spot: EndLocation,
)
    requires { 0 < spare index.old }
    ensures { (k : ℕ) → get nat_eq index.new k
        ≡ noted (is_ok made.now) number spot k (get nat_eq index.old k) }
{
    if let (true, Some(number)) = (made.is_ok(), number) {
        put_location(index, number, spot);
    }
}

impl Device {
    /// Whether a context has the name, or a husk.
    pub(crate) fn is_taken(&self, name: Name) -> bool
        ensures { result ≡ (has_context self.now name || has_husk self.now name) }
    {
        self.contexts.contains_key(&name) || self.husks.contains_key(&name)
    }

    /// Whether no more contexts may live here.
    pub(crate) fn is_full(&self) -> bool
        ensures { result ≡ nat_le most_contexts (length self.now.contexts) }
    {
        self.contexts.len() >= MOST_CONTEXTS
    }

    /// Why no context of that name is made; None where one is.
    #[tactic(auto, unfolding(rdma_types::specs::Causes::first_cause))]
    pub fn context_refusal(&self, name: Name) -> Option<Refusal>
        ensures { result ≡ first_cause (causes_of self.now (Event.MakeContext name)) }
    {
        if self.is_taken(name) {
            Some(Refusal::NumberTaken)
        } else if self.is_full() {
            Some(Refusal::TooMany)
        } else {
            None
        }
    }

    /// A context without things.
    pub(crate) fn make_context(
        &mut self,
        alloc: Global,
        name: Name,
    ) -> Result<Outcome, ContextFault>
        ensures { IsDone self.old (Event.MakeContext name) self.new result }
    {
        if let Some(refusal) = self.context_refusal(name) {
            return Err(ContextFault::Refused(refusal));
        }
        let _spelled = name.as_bytes();
        let made = add_context(&mut self.contexts, name, ContextState::make(alloc));
        told(alloc, made, Answer::Done)
    }

    /// Why no such queue pair is made in a context.
    fn qp_refusal(&self, context: Name, asked: &NewEnd) -> Option<Refusal>
        ensures { result ≡ first_cause (causes_of self.now (qp_event context asked.now)) }
    {
        match self.contexts.get(&context) {
            None => Some(self.missing(context)),
            Some(state) => state.qp_refusal(asked, self.next_number()),
        }
    }

    /// A queue pair in Init, with the device's next number.
    pub(crate) fn make_qp(
        &mut self,
        alloc: Global,
        context: Name,
        asked: &NewEnd,
    ) -> Result<Outcome, ContextFault>
        requires { IsLawfulEvent (qp_event context asked.now) }
        ensures { IsDone self.old (qp_event context asked.now) self.new result }
    {
        if let Some(refusal) = self.qp_refusal(context, asked) {
            return Err(ContextFault::Refused(refusal));
        }
        if self.index.reserve(1).is_err() {
            return Err(ContextFault::OutOfMemory);
        }
        let _spelled = asked.name.as_bytes();
        let number = self.next_number();
        let state = self.contexts.get_mut(&context).unwrap();
        let place = state.end_count();
        let made = state.make_qp(alloc, asked, number);
        self.qp_count = counted(self.qp_count, &made);
        let spot = EndLocation { context, place };
        note_end(&mut self.index, &made, number, spot);
        told(alloc, made, told_number(number))
    }
}
