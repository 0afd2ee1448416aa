//! Events of one context.

ghost use Rattle.std.specs.Prelude.{◌≡◌, IfSome, IsSome, Some};
ghost use Rattle.protocol.specs.Events.{IsLawfulEvent};
ghost use Rattle.context_core.specs.Context.{IsContext};
ghost use Rattle.law_devices.specs.Sound.{GivesNames};
ghost use Rattle.device_core.specs.Acting.{Acts, context_named};
ghost use Rattle.device_core.specs.Done.{AreFew, AreLawful, IsDone, IsNotOutOfMemory};
ghost use Rattle.device_core.specs.Readings.{TakesNoMemory};

use crate::Device;
use crate::telling::{
    counted, outcome_of_done, told, told_answer, told_bytes, told_keys, told_polled,
};
use context_core::{ContextFault, ContextState, NewRegion};
use page_pool::PagePool;
use protocol::{Event, Outcome};
use rdma_types::{Answer, Name, ObjName, Rights};
use std::alloc::Global;

/// What an event does in its context, whose bytes lie in these pages.
fn act_in(
    state: &mut ContextState,
    pool: &mut PagePool,
    alloc: Global,
    event: &Event,
) -> Result<Outcome, ContextFault>
    requires is { IsContext pool.old state.old }
    requires named { IsSome (context_named event.now) }
    requires lawful { IsLawfulEvent event.now }
    ensures acts { IfSome (context_named event.now)
        (Acts event.now pool.old pool.new state.old state.new result) }
    ensures names { GivesNames event.now }
    ensures never_out_of_memory { TakesNoMemory event.now → IsNotOutOfMemory result }
{
    match event {
        Event::MakeDomain { name } => {
            let _spelled = name.name.as_bytes();
            told(alloc, state.make_domain(name.name), Answer::Done)
        }
        Event::MakeCq { name, capacity } => {
            let _spelled = name.name.as_bytes();
            told(
                alloc,
                state.make_cq(alloc, name.name, *capacity),
                Answer::Done,
            )
        }
        Event::Connect {
            end,
            peer,
            partner,
            terms,
        } => outcome_of_done(alloc, state.connect(end.name, *peer, *partner, terms)),
        Event::DropRegion { name } => outcome_of_done(alloc, state.drop_region(pool, name.name)),
        Event::Store { region, at, bytes } => {
            outcome_of_done(alloc, state.store(pool, region.name, *at, bytes.as_slice()))
        }
        Event::Load { region, at, length } => {
            told_bytes(alloc, state.load(alloc, pool, region.name, *at, *length))
        }
        Event::PostSend { end, request } => {
            told(
                alloc,
                state.post_send(alloc, pool, end.name, request),
                Answer::Done,
            )
        }
        Event::PostRecv { end, receive } => {
            outcome_of_done(alloc, state.post_recv(pool, end.name, receive))
        }
        Event::Poll { cq, max } => told_polled(alloc, state.poll(alloc, cq.name, *max)),
        Event::Expire { end } => told_answer(alloc, state.expire(pool, end.name)),
        Event::RnrOver { end } => told_answer(alloc, state.rnr_over(end.name)),
        _ => unreachable!(),
    }
}

impl Device {
    /// An event of a context, where the context lives here. A connection takes no memory.
    #[inline(always)]
    pub(crate) fn act(
        &mut self,
        alloc: Global,
        name: Name,
        event: &Event,
    ) -> Result<Outcome, ContextFault>
        requires named { context_named event.now ≡ Some name }
        requires lawful { IsLawfulEvent event.now }
        ensures done { IsDone self.old event.now self.new result }
        ensures bounded { AreFew result }
        ensures image { AreLawful result }
        ensures never_out_of_memory { TakesNoMemory event.now → IsNotOutOfMemory result }
    {
        let Some(state) = self.contexts.get_mut(&name) else {
            return Err(ContextFault::Refused(self.missing(name)));
        };
        act_in(state, &mut self.pool, alloc, event)
    }

    /// A memory region of zeros, with the device's next keys.
    pub(crate) fn make_region(
        &mut self,
        alloc: Global,
        o: &ObjName,
        domain: Option<Name>,
        base: u64,
        length: u32,
        rights: Rights,
    ) -> Result<Outcome, ContextFault>
        requires { IsLawfulEvent (Event.MakeRegion o.now domain base length rights) }
        ensures { IsDone self.old (Event.MakeRegion o.now domain base length rights) self.new
            result }
    {
        if !self.contexts.contains_key(&o.context) {
            return Err(ContextFault::Refused(self.missing(o.context)));
        }
        let _spelled = o.name.as_bytes();
        let new = NewRegion {
            name: o.name,
            domain,
            base,
            length,
            rights,
        };
        let keys = self.next_keys();
        let state = self.contexts.get_mut(&o.context).unwrap();
        let made = state.make_region(alloc, &mut self.pool, &new, keys);
        self.key_count = counted(self.key_count, &made);
        told(alloc, made, told_keys(keys))
    }
}
