//! A context that goes, and gives its pages back.

ghost use Rattle.end_completions.specs.Payloads.{AreApart, GivesBack};
ghost use Rattle.endpoint_core.specs.Ends.{untold_by};
ghost use Rattle.context_core.specs.Context.{IsContext, Moves, no_holding, posted_of};

use crate::{ContextState, EndSlot};
use endpoint_core::Endpoint;
use indexmap::IndexMap;
use page_pool::PagePool;
use rdma_types::Name;
use requester::Requester;

/// Gives the pages of the requests' payloads back.
fn give_requests(requester: &mut Requester, pool: &mut PagePool)
    requires { AreApart pool.old requester.old.items }
    ensures { GivesBack pool.old pool.new requester.old.items }
{
    while let Some(p) = requester.cut() {
        pool.give(p.payload.list);
    }
}

/// Gives the pages of a queue pair's payloads back.
fn give_end(end: &mut Endpoint, pool: &mut PagePool)
    requires { AreApart pool.old (untold_by end.old.link) }
    ensures { GivesBack pool.old pool.new (untold_by end.old.link) }
{
    if let Some(link) = &mut end.link {
        give_requests(&mut link.requester, pool);
    }
}

/// Gives the pages of the payloads of queue pairs back.
fn give_ends(ends: &mut IndexMap<Name, EndSlot>, pool: &mut PagePool)
    requires { AreApart pool.old (posted_of ends.old.entries) }
    ensures { GivesBack pool.old pool.new (posted_of ends.old.entries) }
{
    while let Some((_, mut slot)) = ends.pop() {
        give_end(&mut slot.endpoint, pool);
    }
}

impl ContextState {
    /// Gives all pages back. It takes no memory.
    pub fn release(self, pool: &mut PagePool)
        requires { IsContext pool.old self }
        ensures { Moves pool.old pool.new self no_holding }
    {
        let ContextState {
            domains: _,
            regions,
            queues: _,
            mut ends,
        } = self;
        give_ends(&mut ends, pool);
        regions.release(pool);
    }
}
