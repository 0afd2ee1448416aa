//! What landed is copied.

ghost use Rattle.std.specs.Prelude.{◌≡◌, IfOk, OnErr, OnOk, is_none};
ghost use Rattle.std.specs.List.{position};
ghost use Rattle.protocol.specs.declared.events.Event.TheVariants as event;
ghost use Rattle.mailbox_rules.specs.Opening as opening;
ghost use Rattle.mailbox_rules.specs.Working as working;
ghost use Rattle.mailbox.specs.Steps.{IsCopied, IsFilled, IsLoaded};

use crate::asking::ask;
use crate::channels::Channel;
use crate::events::{landing_address, loads, place_address};
use crate::headers::{body_of, header_of};
use mailbox_rules::{Arrival, Fetch, Header};
use rdma_types::{Answer, Items};
use std::alloc::{AllocError, Global};
use world_core::World;

/// The bytes of a load's answer.
fn bytes_in(alloc: Global, answer: Answer) -> Items<u8>
    ensures { result ≡ working.bytes_in answer }
{
    match answer {
        Answer::Bytes(bytes) => bytes,
        _ => Items::new(Vec::new(alloc)),
    }
}

/// The receiver's bytes at an address of its region for sender `i`.
pub(crate) fn load(
    alloc: Global,
    world: &mut World,
    i: u8,
    at: u64,
    length: u32,
) -> Result<Items<u8>, AllocError>
    ensures ok { IfOk result (λ bytes. IsLoaded world.old world.new
        (event.Load (opening.receiver_region i) at length) bytes) }
    ensures err { OnErr result (world.new ≡ world.old) }
{
    let answer = ask(alloc, world, loads(i, at, length))?;
    Ok(bytes_in(alloc, answer))
}

/// What a header says of a body that is to be fetched.
pub(crate) fn fetch_of(header: &Header) -> Option<Fetch>
    ensures { result ≡ working.fetch_of header.now }
{
    if !header.fetched {
        return None;
    }
    Some(Fetch {
        length: header.length,
        rkey: header.rkey,
    })
}

/// A letter that arrived: without its body where that is to be fetched.
fn arrival_of(header: &Header, message: Items<u8>) -> Arrival
    ensures { result ≡ working.arrival_of header.now message }
{
    let body = if header.fetched {
        None
    } else {
        Some(body_of(message))
    };
    Arrival {
        tag: header.tag,
        body,
    }
}

/// Where the first letter without a body stands.
fn first_lacking(arrived: &[Arrival]) -> Option<usize>
    ensures { result ≡ position (λ a. is_none a.body) arrived.now }
{
    arrived.iter().position(|a| a.body.is_none())
}

/// The first letter without a body gets it, where there is one.
fn fill(arrived: &mut Vec<Arrival>, body: Items<u8>)
    ensures { arrived.new.items ≡ working.filled body arrived.old.items }
{
    if let Some(k) = first_lacking(arrived.as_slice()) {
        arrived[k].body = Some(body);
    }
}

impl Channel {
    /// A message is copied out of a place of the receiver, and its letter arrived; and what is then to be fetched.
    pub(crate) fn copy_message(
        &mut self,
        alloc: Global,
        world: &mut World,
        i: u8,
        place: u8,
        length: u32,
    ) -> Result<Option<Fetch>, AllocError>
        ensures ok { IfOk result (λ fetch. IsCopied world.old world.new
            (event.Load (opening.receiver_region i) (opening.place_address i place) length) self.old
            self.new fetch) }
        ensures world { OnErr result (world.new ≡ world.old) }
        ensures err { OnErr result (self.new ≡ self.old) }
    {
        let receives = self.receives.checked_add(1).ok_or(AllocError)?;
        self.arrived.reserve(1)?;
        let message = load(alloc, world, i, place_address(i, place), length)?;
        let header = header_of(message.as_slice());
        self.arrived.push_reserved(arrival_of(&header, message));
        self.receives = receives;
        Ok(fetch_of(&header))
    }

    /// The body that was fetched is copied.
    pub(crate) fn copy_body(
        &mut self,
        alloc: Global,
        world: &mut World,
        i: u8,
        length: u32,
    ) -> Result<(), AllocError>
        ensures ok { OnOk result (IsFilled world.old world.new
            (event.Load (opening.receiver_region i) (opening.landing_address i) length) self.old
            self.new) }
        ensures world { OnErr result (world.new ≡ world.old) }
        ensures err { OnErr result (self.new ≡ self.old) }
    {
        let reads = self.reads.checked_add(1).ok_or(AllocError)?;
        let body = load(alloc, world, i, landing_address(i), length)?;
        fill(&mut self.arrived, body);
        self.reads = reads;
        Ok(())
    }
}
