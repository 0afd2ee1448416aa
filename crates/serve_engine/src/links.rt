//! Datagrams that are taken from a link, and those that leave over it.

ghost use Rattle.std.specs.Prelude.{◌≤◌, length, IfOk, OnOk};
ghost use Rattle.host_ports.specs.Links.{FitsIn, TakesFirst, got_of, longest_datagram};
ghost use Rattle.serve_rules.specs.Links.{HasTaken, LeavesAtMost};

use crate::state::Server;
use host_ports::{Failed, Got, Link};
use rdma_types::Items;
use std::alloc::{AllocError, Global};

/// Datagrams that are taken in a turn at most.
const TAKES: usize = 64;

/// Datagrams that leave in a turn at most.
const LEAVES: usize = 32;

impl Server {
    /// The link is asked once for a datagram, and whether it gave one. A call that fails gives none. `buffer` has room for
    /// the longest. Errors: `AllocError` when out of memory.
    fn take<L: Link>(
        &mut self,
        alloc: Global,
        link: &mut L,
        buffer: &mut [u8],
    ) -> Result<bool, AllocError>
        requires { longest_datagram ≤ length buffer.old }
        ensures { OnOk result (HasTaken self.old (L.waiting link.old) self.new
            (L.waiting link.new)) }
    {
        match link.take(buffer) {
            Ok(Got::Datagram { from, length }) => {
                let bytes = Vec::from_slice(alloc, &buffer[..length])?;
                self.inbox.push_back((from, Items::new(bytes)))?;
                Ok(true)
            }
            Ok(Got::Nothing) | Err(Failed) => Ok(false),
        }
    }

    /// Takes up to 64 datagrams, until none waits. Errors: `AllocError` when out of memory.
    fn take_many<L: Link>(
        &mut self,
        alloc: Global,
        link: &mut L,
        buffer: &mut [u8],
    ) -> Result<(), AllocError>
        requires { longest_datagram ≤ length buffer.old }
        ensures { OnOk result (HasTaken self.old (L.waiting link.old) self.new
            (L.waiting link.new)) }
    {
        for _ in 0..TAKES {
            if !self.take(alloc, link, buffer)? {
                return Ok(());
            }
        }
        Ok(())
    }

    /// Takes up to 64 datagrams, where all that were taken before have arrived. `buffer` has room for the longest. Errors:
    /// `AllocError` when out of memory.
    pub(crate) fn take_all<L: Link>(
        &mut self,
        alloc: Global,
        link: &mut L,
        buffer: &mut [u8],
    ) -> Result<(), AllocError>
        requires { longest_datagram ≤ length buffer.old }
        ensures { OnOk result (HasTaken self.old (L.waiting link.old) self.new
            (L.waiting link.new)) }
    {
        if self.inbox.len() > 0 {
            return Ok(());
        }
        self.take_many(alloc, link, buffer)
    }

    /// The first of the datagrams that wait leaves, if there is one. One that the link does not send is lost.
    fn leave_first<L: Link>(&mut self, link: &mut L)
        ensures { LeavesAtMost 1 self.old self.new }
    {
        let Some(datagram) = self.outgoing.pop_front() else {
            return;
        };
        let went = link.send_to(datagram.to, datagram.bytes.as_slice()).is_ok();
        self.tallies.count_left(went);
        self.device.give_back(datagram.bytes);
    }

    /// Last part of a turn: up to 32 datagrams leave, the oldest first.
    pub(crate) fn leave<L: Link>(&mut self, link: &mut L)
        ensures { LeavesAtMost 32 self.old self.new }
    {
        for _ in 0..LEAVES {
            self.leave_first(link);
        }
    }
}
