//! A whole run.

ghost use Rattle.std.specs.Prelude.{◌≤◌, length};
ghost use Rattle.host_ports.specs.Links.{longest_datagram};

use crate::ServeFault;
use crate::ports::ServePorts;
use crate::printing::{kept_text, reply_text};
use crate::state::Server;
use host_ports::{
    Control, Heard, LONGEST_DATAGRAM, Link, Sink, Store, Ticks, WriteFault, write_all_of,
};
use rdma_types::{Address, Name};
use serve_rules::{Pending, Reply};
use std::alloc::{AllocError, Global};

/// How a device is served.
#[derive(Clone, Copy)]
pub struct ServeOptions {
    /// The base of the timers, in milliseconds, from 1 on.
    pub timeout: u64,
    /// Whether contexts that live here at the end are stopped into the store.
    pub keep: bool,
}

/// Writes a text whole.
fn write<K: Sink>(output: &mut K, text: &[u8]) -> Result<(), ServeFault> {
    match write_all_of(output, text) {
        Ok(()) => Ok(()),
        Err(WriteFault) => Err(ServeFault::WriteFault),
    }
}

/// Writes an answer whole, if there is one.
fn answer<K: Sink>(alloc: Global, output: &mut K, reply: &Reply) -> Result<(), ServeFault> {
    if let Reply::Nothing = reply {
        return Ok(());
    }
    let text = reply_text(alloc, reply)?;
    write(output, text.as_slice())
}

impl Server {
    /// One turn: datagrams are taken and arrive, queue pairs send, timers expire, and datagrams leave.
    fn serve<L: Link, T: Ticks>(
        &mut self,
        alloc: Global,
        link: &mut L,
        ticks: &mut T,
        buffer: &mut [u8],
    ) -> Result<(), ServeFault>
        requires { longest_datagram ≤ length buffer.old }
    {
        self.take_all(alloc, link, buffer)?;
        self.turn(alloc, ticks.now())?;
        self.leave(link);
        Ok(())
    }

    /// Answers the line that waits, once that can be.
    fn look<K: Sink>(&mut self, alloc: Global, output: &mut K) -> Result<(), ServeFault> {
        let reply = self.pending_reply();
        if let Reply::Nothing = reply {
            return Ok(());
        }
        self.pending = Pending::Line;
        answer(alloc, output, &reply)
    }

    /// Does what a line says, and answers it.
    fn obey<K: Sink, S: Store>(
        &mut self,
        alloc: Global,
        output: &mut K,
        store: &mut S,
        line: &[u8],
    ) -> Result<(), ServeFault> {
        let reply = self.read_line(alloc, store, line)?;
        answer(alloc, output, &reply)
    }

    /// Asks for the next line, does what it says, and answers it. Whether lines may still come.
    fn listen<L, K: Sink, S: Store, C: Control, T>(
        &mut self,
        alloc: Global,
        ports: &mut ServePorts<L, K, S, C, T>,
    ) -> Result<bool, ServeFault> {
        match ports.control.next(alloc)? {
            Heard::Ended => Ok(false),
            Heard::Nothing => Ok(true),
            Heard::Line(line) => {
                self.obey(alloc, &mut ports.output, &mut ports.store, line.as_slice())?;
                Ok(true)
            }
        }
    }

    /// Looks after the line that waits, or asks for the next one. Whether lines may still come.
    fn attend<L, K: Sink, S: Store, C: Control, T>(
        &mut self,
        alloc: Global,
        ports: &mut ServePorts<L, K, S, C, T>,
    ) -> Result<bool, ServeFault> {
        match self.pending {
            Pending::Line => self.listen(alloc, ports),
            _ => {
                self.look(alloc, &mut ports.output)?;
                Ok(true)
            }
        }
    }

    /// Stops a context into the store at the end.
    fn keep<K: Sink, S: Store>(
        &mut self,
        alloc: Global,
        output: &mut K,
        store: &mut S,
        name: Name,
    ) -> Result<(), ServeFault> {
        let reply = self.stop(alloc, store, name, name);
        let text = kept_text(alloc, &name, &reply)?;
        write(output, text.as_slice())
    }

    /// Stops each context that lives here into the store.
    fn keep_all<K: Sink, S: Store>(
        &mut self,
        alloc: Global,
        output: &mut K,
        store: &mut S,
    ) -> Result<(), ServeFault> {
        let names = self.names(alloc)?;
        for name in names.as_slice() {
            self.keep(alloc, output, store, *name)?;
        }
        Ok(())
    }

    /// Turns, with a look at the lines after each, until the lines end.
    fn run<L: Link, K: Sink, S: Store, C: Control, T: Ticks>(
        &mut self,
        alloc: Global,
        ports: &mut ServePorts<L, K, S, C, T>,
    ) -> Result<(), ServeFault> {
        let mut buffer = [0; LONGEST_DATAGRAM];
        for _ in 0..u64::MAX {
            self.serve(alloc, &mut ports.link, &mut ports.ticks, &mut buffer)?;
            if !self.attend(alloc, ports)? {
                return Ok(());
            }
        }
        Ok(())
    }

    /// Turns until the lines end, and then stops contexts into the store, where they are to be kept.
    fn run_to_end<L: Link, K: Sink, S: Store, C: Control, T: Ticks>(
        &mut self,
        alloc: Global,
        keep: bool,
        ports: &mut ServePorts<L, K, S, C, T>,
    ) -> Result<(), ServeFault> {
        self.run(alloc, ports)?;
        if keep {
            self.keep_all(alloc, &mut ports.output, &mut ports.store)
        } else {
            Ok(())
        }
    }
}

/// Serves a new device with this id and address over a link that is started first, until the lines end.
///
/// # Errors
///
/// `LinkFault` where the link does not start, `WriteFault` where an answer cannot be written, and `OutOfMemory` where a turn
/// lacks memory, or a line behind its step or for the text of its answer. Any other line that lacks memory is answered so,
/// and the run goes on.
pub fn run_serve<L: Link, K: Sink, S: Store, C: Control, T: Ticks>(
    alloc: Global,
    id: u8,
    own: Address,
    options: ServeOptions,
    ports: &mut ServePorts<L, K, S, C, T>,
) -> Result<(), ServeFault>
    requires { 1 ≤ id }
{
    if ports.link.start(own).is_err() {
        return Err(ServeFault::LinkFault);
    }
    match Server::make(alloc, id, own, options.timeout) {
        Ok(mut server) => server.run_to_end(alloc, options.keep, ports),
        Err(AllocError) => Err(ServeFault::OutOfMemory),
    }
}
