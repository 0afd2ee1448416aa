//! Equal ends over memory of their own.

ghost use Rattle.std.specs.Prelude.{◌≡◌, IfOk, None, OnOk};

use crate::end::{EndLink, Endpoint};
use end_queues::work_queues::{SendQueue, copy_recvs, copy_sends};
use std::alloc::{AllocError, Global};

/// Puts an equal send queue in its place, at an end that is not connected yet.
fn copy_unlinked(
    alloc: Global,
    copy: &mut Option<SendQueue>,
    unlinked: &Option<SendQueue>,
) -> Result<(), AllocError>
    requires { copy.old ≡ None }
    ensures { OnOk result (copy.new ≡ unlinked.now) }
{
    if let Some(queue) = unlinked {
        *copy = Some(copy_sends(alloc, queue)?);
    }
    Ok(())
}

/// Puts an equal connection in its place, at a connected end.
fn copy_link(
    alloc: Global,
    copy: &mut Option<EndLink>,
    link: &Option<EndLink>,
) -> Result<(), AllocError>
    requires { copy.old ≡ None }
    ensures { OnOk result (copy.new ≡ link.now) }
{
    if let Some(link) = link {
        *copy = Some(link.copy(alloc)?);
    }
    Ok(())
}

impl EndLink {
    /// An equal connection, for a copy of the pool of its payloads. Errors: `AllocError` when out of memory.
    fn copy(&self, alloc: Global) -> Result<EndLink, AllocError>
        ensures { IfOk result (λ l. l ≡ self.now) }
    {
        Ok(EndLink {
            peer: self.peer,
            terms: self.terms,
            ended: self.ended,
            requester: self.requester.copy(alloc)?,
            responder: self.responder.copy(),
            moves: self.moves,
        })
    }
}

impl Endpoint {
    /// An equal end, for a copy of the pool of its payloads. Errors: `AllocError` when out of memory.
    pub fn copy(&self, alloc: Global) -> Result<Endpoint, AllocError>
        ensures { IfOk result (λ e. e ≡ self.now) }
    {
        let mut copy = Endpoint {
            number: self.number,
            domain: self.domain,
            send_depth: self.send_depth,
            recv_depth: self.recv_depth,
            recvs: copy_recvs(alloc, &self.recvs)?,
            unlinked: None,
            link: None,
        };
        copy.fill(alloc, self)?;
        Ok(copy)
    }

    /// Puts the queue or the connection of an end into one that has all else of it.
    fn fill(&mut self, alloc: Global, other: &Endpoint) -> Result<(), AllocError>
        requires { self.old ≡ record other.now { unlinked = None; link = None } }
        ensures { OnOk result (self.new ≡ other.now) }
    {
        copy_unlinked(alloc, &mut self.unlinked, &other.unlinked)?;
        copy_link(alloc, &mut self.link, &other.link)
    }
}
