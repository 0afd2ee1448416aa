//! What `show` tells.

use crate::state::Server;
use device_core::LinkView;
use rdma_types::{EndState, EndView, Items, Name, ObjName};
use serve_rules::Reply;
use std::alloc::{AllocError, Global};

/// Appends words and a number. Errors: `AllocError` when out of memory.
fn put(out: &mut Vec<u8>, words: &[u8], number: u64) -> Result<(), AllocError> {
    let mut digits = itoa::Buffer::new();
    out.extend_from_slice(words)?;
    out.extend_from_slice(digits.format(number).as_bytes())
}

/// Appends bytes. Errors: `AllocError` when out of memory.
fn put_bytes(out: &mut Vec<u8>, words: &[u8], bytes: &[u8]) -> Result<(), AllocError> {
    out.extend_from_slice(words)?;
    out.extend_from_slice(bytes)
}

/// The word of a state.
fn state_text(state: EndState) -> &'static [u8] {
    match state {
        EndState::Init => b"init",
        EndState::Running => b"running",
        EndState::Paused => b"paused",
        EndState::Resuming => b"resuming",
        EndState::Error => b"error",
    }
}

/// How often an end moved; 0 in Init.
fn moves_of(link: &Option<LinkView>) -> u64 {
    match link {
        Some(link) => u64::from(link.moves),
        None => 0,
    }
}

/// How long from now on.
fn from_now(moment: Option<u64>, now: u64) -> u64 {
    match moment {
        Some(moment) => moment.saturating_sub(now),
        None => 0,
    }
}

impl Server {
    /// Appends what is told of the numbers of a queue pair. Errors: `AllocError` when out of memory.
    fn put_numbers(&self, out: &mut Vec<u8>, view: &EndView) -> Result<(), AllocError> {
        put(out, b" una ", view.una)?;
        put(out, b" next ", view.next)?;
        put(out, b" untold ", u64::from(view.untold))?;
        put(out, b" rnrwait ", u64::from(view.rnr_wait))?;
        let timer = self.timer_of(view);
        put(out, b" due ", from_now(timer.due, self.clock))?;
        put(out, b" doubled ", u64::from(timer.doublings))
    }

    /// Appends what is told of a queue pair. Errors: `AllocError` when out of memory.
    fn put_end(&self, out: &mut Vec<u8>, view: &EndView) -> Result<(), AllocError> {
        put_bytes(out, b"qp ", view.name.context.as_bytes())?;
        put_bytes(out, b".", view.name.name.as_bytes())?;
        put(out, b" number ", u64::from(view.number))?;
        put(out, b" peer ", u64::from(view.peer))?;
        put_bytes(out, b" state ", state_text(view.state))?;
        let link = self.device.link_named(&view.name);
        put(out, b" moves ", moves_of(&link))?;
        self.put_numbers(out, view)?;
        out.extend_from_slice(b"\n")
    }

    /// What `show` tells of a queue pair. Errors: `AllocError` when out of memory.
    pub(crate) fn show_end(&self, alloc: Global, end: &ObjName) -> Result<Reply, AllocError> {
        let Some(view) = self.device.end_named(end) else {
            return Ok(Reply::NoSuch);
        };
        let mut out = Vec::new(alloc);
        self.put_end(&mut out, &view)?;
        Ok(Reply::Shown(Items::new(out)))
    }

    /// What `show` tells of a context. Errors: `AllocError` when out of memory.
    pub(crate) fn show_context(&self, alloc: Global, name: Name) -> Result<Reply, AllocError> {
        if !self.device.has_context(name) {
            return Ok(Reply::NoSuch);
        }
        let mut out = Vec::new(alloc);
        put_bytes(&mut out, b"context ", name.as_bytes())?;
        put(&mut out, b" ends ", self.device.end_count(name) as u64)?;
        out.extend_from_slice(b"\n")?;
        Ok(Reply::Shown(Items::new(out)))
    }

    /// The names of the contexts that live here. Errors: `AllocError` when out of memory.
    pub(crate) fn names(&self, alloc: Global) -> Result<Vec<Name>, AllocError> {
        let mut names = Vec::new(alloc);
        for place in 0..usize::MAX {
            let Some(name) = self.device.context_at(place) else {
                return Ok(names);
            };
            names.push(name)?;
        }
        Ok(names)
    }

    /// Appends what was counted. Errors: `AllocError` when out of memory.
    fn put_tallies(&self, out: &mut Vec<u8>) -> Result<(), AllocError> {
        let tallies = &self.tallies;
        let [
            malformed,
            unknown,
            ended,
            paused,
            nak_sent,
            no_repeat,
            useless,
            stale,
        ] = tallies.dropped;
        put(out, b" made ", tallies.made)?;
        put(out, b" sent ", tallies.sent)?;
        put(out, b" unsent ", tallies.unsent)?;
        put(out, b" waiting ", self.outgoing.len() as u64)?;
        put(out, b" taken ", tallies.taken)?;
        put(out, b" malformed ", malformed)?;
        put(out, b" unknown ", unknown)?;
        put(out, b" ended ", ended)?;
        put(out, b" paused ", paused)?;
        put(out, b" naksent ", nak_sent)?;
        put(out, b" norepeat ", no_repeat)?;
        put(out, b" useless ", useless)?;
        put(out, b" stale ", stale)
    }

    /// What `show` tells of the node. Errors: `AllocError` when out of memory.
    pub(crate) fn show_node(&self, alloc: Global) -> Result<Reply, AllocError> {
        let mut out = Vec::new(alloc);
        put(&mut out, b"node ", u64::from(self.device.id()))?;
        put(&mut out, b" contexts ", self.names(alloc)?.len() as u64)?;
        self.put_tallies(&mut out)?;
        out.extend_from_slice(b"\n")?;
        Ok(Reply::Shown(Items::new(out)))
    }
}
