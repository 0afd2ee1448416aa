//! What is due is done.

ghost use Rattle.std.specs.Prelude.{◌≡◌, ◌<◌, if◌then◌else◌, IfOk, OnOk, OnErr, length, vec_len};
ghost use Rattle.protocol.specs.Events.{IsHandedOn, IsLawfulEvent};
ghost use Rattle.mailbox_rules.specs.Working as rules;
ghost use Rattle.mailbox_rules.specs.State as state;
ghost use Rattle.mailbox_rules.specs.State.{Mail};
ghost use Rattle.mailbox_rules.specs.declared.due.Due.TheVariants as due;
ghost use Rattle.mailbox.specs.Steps.{Advances, Goes, IsAdvanced, Shows, changed};

use crate::Mailbox;
use crate::asking::{ask, is_too_many};
use crate::channels::{Channel, end_at, free_at, has_ended_at, place_of};
use crate::copying::{fetch_of, load};
use crate::events::{
    frees, landing_address, place_address, reads, receiver_receives, sender_receives,
};
use crate::headers::header_of;
use mailbox_rules::{Due, Fetch, Side};
use rdma_types::Answer;
use std::alloc::{AllocError, Global};
use world_core::Event;

/// What is due next where one thing is done: nothing, or another thing in its place.
fn replace_due(owed: &mut Vec<Due>, k: usize, next: Option<Due>)
    requires { k < vec_len owed.old }
    ensures { owed.new.items ≡ rules.due_next owed.old.items k next }
{
    match next {
        None => {
            owed.remove(k);
        }
        Some(due) => owed[k] = due,
    }
}

/// The fetching of a body as what is due.
fn read_due(i: u8, fetch: Option<Fetch>) -> Option<Due>
    ensures { result ≡ rules.read_due i fetch }
{
    Some(Due::PostRead { i, fetch: fetch? })
}

/// A posting at one end of connection `i` was answered so.
fn note_posted(channels: &mut Vec<Channel>, side: Side, i: u8, answer: &Answer)
    ensures { channels.new.items ≡ (if rules.is_too_many answer.now
        then changed channels.old.items i (state.ending side) else channels.old.items) }
{
    if is_too_many(answer) {
        end_at(channels, side, i);
    }
}

impl Mailbox {
    /// Posts at one end of connection `i`, unless a completion of that end with an error was polled.
    pub(crate) fn post(
        &mut self,
        alloc: Global,
        side: Side,
        i: u8,
        event: Event,
    ) -> Result<(), AllocError>
        requires { IsHandedOn event × IsLawfulEvent event }
        ensures ok { OnOk result (Goes self.old self.new (λ m. rules.posting m side i event)) }
        ensures owed { self.new.owed ≡ self.old.owed }
        ensures err { OnErr result (self.new ≡ self.old) }
    {
        if has_ended_at(self.channels.as_slice(), side, i) {
            return Ok(());
        }
        let answer = ask(alloc, &mut self.world, event)?;
        note_posted(&mut self.channels, side, i, &answer);
        Ok(())
    }

    /// A message is copied out of its place, and its letter arrived.
    fn copy_message(
        &mut self,
        alloc: Global,
        i: u8,
        place: u8,
        length: u32,
    ) -> Result<Option<Due>, AllocError>
        ensures ok { IfOk result (IsAdvanced self.old self.new (due.CopyMessage i place length)) }
        ensures owed { self.new.owed ≡ self.old.owed }
        ensures err { OnErr result (self.new ≡ self.old) }
    {
        let k = place_of(i);
        let fetch = if k < self.channels.len() {
            self.channels[k].copy_message(alloc, &mut self.world, i, place, length)?
        } else {
            let message = load(alloc, &mut self.world, i, place_address(i, place), length)?;
            fetch_of(&header_of(message.as_slice()))
        };
        Ok(Some(Due::Repost { i, place, fetch }))
    }

    /// A body that was fetched is copied, and its letter is here.
    fn copy_body(&mut self, alloc: Global, i: u8, length: u32) -> Result<Option<Due>, AllocError>
        ensures ok { IfOk result (IsAdvanced self.old self.new (due.CopyBody i length)) }
        ensures owed { self.new.owed ≡ self.old.owed }
        ensures err { OnErr result (self.new ≡ self.old) }
    {
        let k = place_of(i);
        if k < self.channels.len() {
            self.channels[k].copy_body(alloc, &mut self.world, i, length)?;
        } else {
            load(alloc, &mut self.world, i, landing_address(i), length)?;
        }
        Ok(Some(Due::PostFree { i }))
    }

    /// Posts at one end, and gives what is due next.
    fn post_then(
        &mut self,
        alloc: Global,
        side: Side,
        i: u8,
        event: Event,
        next: Option<Due>,
    ) -> Result<Option<Due>, AllocError>
        requires { IsHandedOn event × IsLawfulEvent event }
        ensures ok { IfOk result (λ then'. (m : Mail) → Shows self.old m
            → Advances self.new then'
            (record { mail = rules.posting m side i event; next = next })) }
        ensures owed { self.new.owed ≡ self.old.owed }
        ensures err { OnErr result (self.new ≡ self.old) }
    {
        self.post(alloc, side, i, event)?;
        Ok(next)
    }

    /// One thing is done; and what is then due in its place.
    fn advance(&mut self, alloc: Global, due: Due) -> Result<Option<Due>, AllocError>
        ensures ok { IfOk result (IsAdvanced self.old self.new due) }
        ensures owed { self.new.owed ≡ self.old.owed }
        ensures err { OnErr result (self.new ≡ self.old) }
    {
        let receiver = Side::AtReceiver;
        match due {
            Due::CopyMessage { i, place, length } => self.copy_message(alloc, i, place, length),
            Due::CopyBody { i, length } => self.copy_body(alloc, i, length),
            Due::Repost { i, place, fetch } => {
                let next = read_due(i, fetch);
                self.post_then(alloc, receiver, i, receiver_receives(i, place), next)
            }
            Due::PostRead { i, fetch } => self.post_then(alloc, receiver, i, reads(i, fetch), None),
            Due::PostFree { i } => self.post_then(alloc, receiver, i, frees(i), None),
            Due::FreeSlot { i, place } => {
                free_at(&mut self.channels, i);
                Ok(Some(Due::RepostAtSender { i, place }))
            }
            Due::RepostAtSender { i, place } => {
                let event = sender_receives(i, place);
                self.post_then(alloc, Side::AtSender, i, event, None)
            }
        }
    }

    /// The thing at place `k` of the list is done.
    pub(crate) fn do_due(&mut self, alloc: Global, k: usize, due: Due) -> Result<(), AllocError>
        requires { k < length self.old.owed }
        ensures ok { OnOk result (Goes self.old self.new (λ m. rules.doing m k due)) }
        ensures err { OnErr result (self.new ≡ self.old) }
    {
        let next = self.advance(alloc, due)?;
        replace_due(&mut self.owed, k, next);
        Ok(())
    }
}
