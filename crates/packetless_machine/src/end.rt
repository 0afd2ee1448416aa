//! Ends of connections.
#![tactic(auto, unfolding(crate::specs::Steps::untold, crate::specs::Steps::closed, crate::specs::Steps::first_receive, crate::specs::Steps::receive_for, crate::specs::Steps::unused_after, crate::specs::Steps::may_add, crate::specs::Steps::acted_with, crate::specs::Steps::advanced, crate::specs::Steps::denied, crate::specs::Steps::dried_at, crate::specs::Steps::with_offer, crate::specs::Steps::with_known, crate::specs::Steps::told_one, crate::specs::Steps::expired, crate::specs::Steps::waited, crate::specs::Verbs::joined, crate::specs::Machine::untold_count, crate::specs::Machine::used_count, crate::specs::Steps::is_read_part, crate::specs::Steps::receiving))]

ghost use Rattle.std.specs.Prelude.{◌≡◌, ◌++◌, ◌∷◌, [], ◌+◌, ◌<◌, ◌≤◌, ◌^◌, length, drop, IfOk, OnOk, OnErr, IfNone, IfSome, true, false, slice_get, MatchOption, ◌==◌};
ghost use Rattle.std.specs.List.{list_any};
ghost use Rattle.rdma_types.specs.Kinds.{size_of, lands, kind_of};
ghost use Rattle.packetless_machine.specs.Machine.{new_end, untold_count, posted_at};
ghost use Rattle.packetless_machine.specs.Steps.{may_add, lands_before, is_read_part, next_bytes, receiving, untold, current, front, closed, receive_for, unused_after, acted_with, advanced, fills, denied, dried_at, with_offer, with_known, told_one, expired, waited};
ghost use Rattle.packetless_machine.specs.Verbs.{in_use_names, request_names, receive_names, joined, with_request, with_receive};

use crate::kinds::{is_read, is_send, lands};
use crate::mark::Mark;
use crate::named::Named;
use crate::passed::Passed;
use crate::posted::{IdealRequest, Offered};
use crate::reply::Reply;
use rdma_types::{Name, ObjName, Receive, RefusalReason, Shape, Terms};
use std::alloc::{AllocError, Global};
use std::marker::Model;

/// An end of a connection, with all that it ever posted.
#[derive(Drop)]
pub struct End {
    pub(crate) name: Name,
    pub(crate) number: u32,
    pub(crate) domain: Name,
    pub(crate) send_queue: Name,
    pub(crate) receive_queue: Name,
    pub(crate) send_depth: u32,
    pub(crate) receive_depth: u32,
    pub(crate) connected: bool,
    pub(crate) peer: ObjName,
    pub(crate) mtu: u32,
    pub(crate) retry: u8,
    pub(crate) rnr: u8,
    pub(crate) posted: Vec<IdealRequest>,
    pub(crate) told: usize,
    pub(crate) known: u32,
    pub(crate) acted: usize,
    pub(crate) into: u32,
    pub(crate) answers: Vec<Reply>,
    pub(crate) offers: Vec<Offered>,
    pub(crate) dry: Vec<usize>,
    pub(crate) spent: u8,
    pub(crate) waits: u8,
    pub(crate) unused: Vec<Receive>,
    pub(crate) in_use: Option<Receive>,
    pub(crate) ended: bool,
    pub(crate) mark: Mark,
    pub(crate) passed: Passed,
}

impl Model for End {
    ghost use Rattle.packetless_machine.specs.Machine.{End as EndRecord};
    ghost use Rattle.packetless_machine.specs.Counted.{IsCounted};

    ghost Value = { EndRecord };

    ghost view = { λ e. record {
      name = e.name;
      number = e.number;
      domain = e.domain;
      send_queue = e.send_queue;
      receive_queue = e.receive_queue;
      send_depth = e.send_depth;
      receive_depth = e.receive_depth;
      connected = e.connected;
      peer = e.peer;
      mtu = e.mtu;
      retry = e.retry;
      rnr = e.rnr;
      posted = e.posted.items;
      told = e.told;
      known = e.known;
      acted = e.acted;
      into = e.into;
      answers = e.answers.items;
      offers = e.offers.items;
      dry = e.dry.items;
      spent = e.spent;
      waits = e.waits;
      unused = e.unused.items;
      in_use = e.in_use;
      ended = e.ended;
    } };

    ghost invariant = { λ e. IsCounted e.retry e.rnr e.spent e.waits e.posted.items e.mtu e.mark.place e.mark.number e.offers.items e.passed.count e.passed.below };
}

/// One of these requests is a Read or atomic.
#[tactic(auto)]
fn some_land(requests: &[IdealRequest]) -> bool
    ensures { result ≡ list_any (λ r. lands (kind_of r)) requests.now }
{
    for r in requests {
        if lands(r.request.shape.kind) {
            return true;
        }
    }
    false
}

impl Named for End {
    ghost named = { λ e. e.name };

    fn name(&self) -> Name {
        self.name
    }
}

impl End {
    /// An end that is not connected.
    pub fn make(
        alloc: Global,
        name: &ObjName,
        number: u32,
        domain: Name,
        queues: (Name, Name),
        depths: (u32, u32),
    ) -> End
        ensures { result ≡ new_end name.now number domain queues.0 queues.1 depths.0 depths.1 }
    {
        End {
            name: name.name,
            number,
            domain,
            send_queue: queues.0,
            receive_queue: queues.1,
            send_depth: depths.0,
            receive_depth: depths.1,
            connected: false,
            peer: *name,
            mtu: 0,
            retry: 0,
            rnr: 0,
            posted: Vec::new(alloc),
            told: 0,
            known: 0,
            acted: 0,
            into: 0,
            answers: Vec::new(alloc),
            offers: Vec::new(alloc),
            dry: Vec::new(alloc),
            spent: 0,
            waits: 0,
            unused: Vec::new(alloc),
            in_use: None,
            ended: false,
            mark: Mark {
                place: 0,
                number: 0,
            },
            passed: Passed { count: 0, below: 0 },
        }
    }

    /// It is connected to a peer.
    pub fn join(&mut self, peer: &ObjName, terms: &Terms)
        ensures { self.new ≡ joined peer.now terms.now self.old }
    {
        self.connected = true;
        self.peer = *peer;
        self.mtu = terms.mtu;
        self.mark = Mark {
            place: 0,
            number: 0,
        };
        self.retry = terms.retry;
        self.rnr = terms.rnr;
        self.spent = 0;
        self.waits = 0;
    }

    /// A request is posted. Errors: `AllocError` when out of memory; nothing has changed.
    pub fn post(&mut self, r: IdealRequest) -> Result<(), AllocError>
        ensures ok { OnOk result (self.new ≡ with_request r self.old) }
        ensures err { OnErr result (self.new ≡ self.old) }
    {
        self.posted.push(r)?;
        Ok(())
    }

    /// A receive is posted. Errors: `AllocError` when out of memory; nothing has changed.
    pub fn receive(&mut self, v: Receive) -> Result<(), AllocError>
        ensures ok { OnOk result (self.new ≡ with_receive v self.old) }
        ensures err { OnErr result (self.new ≡ self.old) }
    {
        self.unused.push(v)?;
        Ok(())
    }

    /// The requests that are not finished for their owner.
    pub fn untold(&self) -> &[IdealRequest]
        ensures { result.now ≡ untold self.now }
    {
        &self.posted[self.told.min(self.posted.len())..]
    }

    /// How many requests are not finished for their owner.
    pub fn untold_count(&self) -> usize
        ensures { result ≡ untold_count self.now }
    {
        self.posted.len().saturating_sub(self.told)
    }

    /// The next n bytes make its current request r whole.
    pub fn fills(&self, r: &IdealRequest, n: u32) -> bool
        requires { r.now ≡ current self.now }
        ensures whole { result ≡ fills self.now n }
        ensures small { size_of (current self.now) < 2 ^ 32 }
    {
        u64::from(self.into) + u64::from(n) == u64::from(r.request.shape.length)
    }

    /// So many bytes of its current request r may come next.
    pub fn may_add(&self, r: &IdealRequest, n: u32) -> bool
        requires { r.now ≡ current self.now }
        ensures { result ≡ may_add self.now n }
    {
        let length = r.request.shape.length;
        (n >= 1 || length == 0) && u64::from(self.into) + u64::from(n) <= u64::from(length)
    }

    /// A Read or atomic before the current request is not told.
    #[tactic(auto, unfolding(crate::specs::Steps::lands_before, crate::specs::Steps::untold))]
    pub fn lands_before(&self) -> bool
        ensures { result ≡ lands_before self.now }
    {
        let untold = self.untold();
        let before = untold.len().min(self.acted.saturating_sub(self.told));
        some_land(&untold[..before])
    }

    /// Request number i, where it is a Read that had its turn and has n bytes from an offset on.
    pub fn read_part(&self, i: usize, off: u32, n: u32) -> Option<&IdealRequest>
        ensures some { IfSome result (λ r. (r.now ≡ posted_at self.now.posted i)
            × (is_read_part self.now i off n ≡ true) × (off + n < 2 ^ 32)) }
        ensures none { IfNone result (is_read_part self.now i off n ≡ false) }
    {
        let r = self.posted.get(i)?;
        if i < self.acted
            && is_read(r.request.shape.kind)
            && u64::from(off) + u64::from(n) <= u64::from(r.length())
        {
            return Some(r);
        }
        None
    }

    /// A copy of the next n bytes of its current request r. Errors: `AllocError` when out of memory.
    #[tactic(auto, unfolding(rdma_types::specs::Memory::cut))]
    pub fn next_bytes(&self, alloc: Global, r: &IdealRequest, n: u32) -> Result<Vec<u8>, AllocError>
        requires { r.now ≡ current self.now }
        ensures { IfOk result (λ v. v.items ≡ next_bytes self.now n) }
    {
        let from = r.payload.len().min(self.into as usize);
        let rest = &r.payload[from..];
        Vec::from_slice(alloc, &rest[..rest.len().min(n as usize)])
    }

    /// Copies of its unused receives, once a Send has its receive in use. Errors: `AllocError` when out of memory.
    pub fn unused_after(&self, alloc: Global) -> Result<Vec<Receive>, AllocError>
        ensures { IfOk result (λ v. v.items ≡ unused_after self.now) }
    {
        let first = usize::from(self.in_use.is_none());
        let count = self.unused.len();
        Vec::from_slice(alloc, &self.unused[first.min(count)..])
    }

    /// The next n bytes of its current request are in place, and make it whole or not. Errors: `AllocError` when out of
    /// memory; nothing has changed.
    pub fn advance(&mut self, n: u32, whole: bool) -> Result<(), AllocError>
        requires whole { whole ≡ fills self.old n }
        requires small { self.old.into + n < 2 ^ 32 }
        requires posted { self.old.acted < length self.old.posted }
        ensures ok { OnOk result (self.new ≡ advanced self.old n) }
        ensures err { OnErr result (self.new ≡ self.old) }
    {
        if whole {
            return self.act(Reply::Finished);
        }
        self.into += n;
        Ok(())
    }

    /// A request of this shape uses its receive here.
    pub fn use_receive(&mut self, shape: &Shape, whole: bool)
        ensures { self.new ≡ receiving shape.now whole self.old }
    {
        if is_send(shape.kind) {
            let v = self.receive_for();
            if self.in_use.is_none() {
                self.drop_unused();
            }
            self.in_use = if whole { None } else { v };
        } else if shape.imm.is_some() && whole {
            self.drop_unused();
        }
    }

    fn drop_unused(&mut self)
        ensures { self.new ≡ record self.old { unused = drop 1 self.old.unused } }
    {
        if !self.unused.is_empty() {
            let _ = self.unused.remove(0);
        }
    }

    /// An untold request that is not empty names a local key.
    #[tactic(auto, unfolding(crate::specs::Steps::untold))]
    pub fn requests_name(&self, key: u32) -> bool
        ensures { result ≡ list_any (request_names key) (untold self.now) }
    {
        let untold = self.untold();
        for r in untold {
            if r.names(key) {
                return true;
            }
        }
        false
    }

    /// An unused receive that is not empty names a local key.
    #[tactic(auto)]
    pub fn receives_name(&self, key: u32) -> bool
        ensures { result ≡ list_any (receive_names key) self.now.unused }
    {
        self.unused.iter().any(|v| v.length != 0 && v.lkey == key)
    }

    /// The receive in use names a local key.
    #[tactic(auto, unfolding(crate::specs::Verbs::in_use_names))]
    pub fn in_use_names(&self, key: u32) -> bool
        ensures { result ≡ in_use_names key self.now.in_use }
    {
        match self.in_use {
            Some(v) => v.lkey == key,
            None => false,
        }
    }

    /// Its first untold request met no receive.
    #[tactic(auto)]
    pub fn is_dry(&self) -> bool
        ensures { result ≡ list_any (λ i. self.now.told == i) self.now.dry }
    {
        self.dry.contains(&self.told)
    }

    /// The receive that a Send towards it goes to.
    pub fn receive_for(&self) -> Option<Receive>
        ensures { result ≡ receive_for self.now }
    {
        match self.in_use {
            Some(v) => Some(v),
            None => self.unused.get(0).copied(),
        }
    }

    /// The current request has acted. Errors: `AllocError` when out of memory; nothing has changed.
    pub fn act(&mut self, reply: Reply) -> Result<(), AllocError>
        requires { self.old.acted < length self.old.posted }
        ensures ok { OnOk result (self.new ≡ acted_with self.old reply) }
        ensures err { OnErr result (self.new ≡ self.old) }
    {
        self.answers.push(reply)?;
        self.acted += 1;
        self.into = 0;
        Ok(())
    }

    /// The current request is refused. Errors: `AllocError` when out of memory; nothing has changed.
    pub fn deny(&mut self, why: RefusalReason) -> Result<(), AllocError>
        ensures ok { OnOk result (self.new ≡ denied self.old why) }
        ensures err { OnErr result (self.new ≡ self.old) }
    {
        self.answers.push(Reply::Denied(why))?;
        Ok(())
    }

    /// The current request met no receive. Errors: `AllocError` when out of memory; nothing has changed.
    pub fn dry(&mut self) -> Result<(), AllocError>
        ensures ok { OnOk result (self.new ≡ dried_at self.old) }
        ensures err { OnErr result (self.new ≡ self.old) }
    {
        self.dry.push(self.acted)?;
        Ok(())
    }

    /// Bytes of a Read are offered. Errors: `AllocError` when out of memory; nothing has changed.
    pub fn offer(&mut self, offer: Offered) -> Result<(), AllocError>
        ensures ok { OnOk result (self.new
            ≡ with_offer self.old offer.request offer.offset offer.bytes) }
        ensures err { OnErr result (self.new ≡ self.old) }
    {
        self.offers.push(offer)?;
        Ok(())
    }

    /// Its owner knows so many bytes of its first untold request.
    pub fn know(&mut self, bytes: u32)
        ensures { self.new ≡ with_known self.old bytes }
    {
        self.known = bytes;
        self.spent = 0;
        self.waits = 0;
    }

    /// One more request is finished for its owner.
    pub fn tell(&mut self)
        requires { self.old.told < length self.old.posted }
        ensures { self.new ≡ told_one self.old }
    {
        self.mark = self.mark.after(&self.posted, self.mtu);
        self.told += 1;
        self.passed = self.passed.on(&self.offers, self.told);
        self.know(0);
    }

    /// An expiry is counted.
    pub fn expire(&mut self)
        requires { (self.old.spent == self.old.retry) ≡ false }
        ensures { self.new ≡ expired self.old }
    {
        self.spent += 1;
    }

    /// A wait is counted.
    pub fn wait(&mut self)
        requires { (self.old.waits == self.old.rnr) ≡ false }
        ensures { self.new ≡ waited self.old }
    {
        self.waits += 1;
    }

    /// It failed, and has no work left.
    pub fn close(&mut self)
        ensures { self.new ≡ closed self.old }
    {
        self.ended = true;
        self.told = self.posted.len();
        self.know(0);
        self.unused.clear();
        self.in_use = None;
    }
}
