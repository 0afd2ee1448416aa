//! A letter is sent.

ghost use Rattle.std.specs.Prelude.{◌≡◌, ◌≤◌, true, false, if◌then◌else◌, length, IfErr, IfNone, IfOk, IfSome, OnErr, OnOk};
ghost use Rattle.rdma_types.specs.Limits.{most_bytes};
ghost use Rattle.mailbox_rules.specs.Calls as rules;
ghost use Rattle.mailbox_rules.specs.Opening as opening;
ghost use Rattle.mailbox_rules.specs.State as state;
ghost use Rattle.mailbox.specs.Steps.{ByFault, Goes, IsPartOfSend, IsStoredOnly, Replies, Shows, message_with, sent_with};

use crate::Mailbox;
use crate::asking::{ask, is_too_many};
use crate::channels::{end_at, has_ended_at, is_slot_used, use_slot_at};
use crate::events::{SLOT, STAGING, sender_remote_key, sends};
use crate::headers::put_message;
use crate::names::{sender, sender_region};
use crate::working::is_away;
use mailbox_rules::{Header, MailFault, Side};
use rdma_types::Items;
use rdma_types::limits::MOST_BYTES;
use std::alloc::{AllocError, Global};
use world_core::Event;

/// Most bytes of a body that comes with its header.
const MOST_EAGER: usize = 4080;

/// Most untold requests of an end.
const DEPTH: u32 = 16;

/// The header of a letter of sender `i`, whose body has at most the bytes of a message.
fn header_for(i: u8, tag: u32, body: &[u8]) -> Header
    requires { length body.now ≤ most_bytes }
    ensures { result ≡ rules.header_for i (record { tag = tag; body = body.now }) }
{
    let fetched = body.len() > MOST_EAGER;
    Header {
        fetched,
        tag,
        length: body.len() as u32,
        rkey: if fetched { sender_remote_key(i) } else { 0 },
    }
}

impl Mailbox {
    /// The number of a sender; None where no sender has it.
    pub(crate) fn sender_of(&self, from: u32) -> Option<u8>
        ensures some { IfSome result (λ i. (i ≡ from) × (state.is_sender self.now from ≡ true)) }
        ensures none { IfNone result (state.is_sender self.now from ≡ false) }
    {
        if from < 1 || from as usize > self.channels.len() {
            return None;
        }
        Some(from as u8)
    }

    /// The end may have no more requests, or the body needs a slot that is not free.
    fn is_full(&self, i: u8, body: &[u8]) -> bool
        requires { state.is_sender self.now i ≡ true }
        ensures { result ≡ rules.is_full self.now i body.now }
    {
        let untold = match self.world.end_at(sender(i), 0) {
            Some(view) => view.untold,
            None => 0,
        };
        untold >= DEPTH || body.len() > MOST_EAGER && is_slot_used(self.channels.as_slice(), i)
    }

    /// Why a letter of a sender is refused.
    fn refusal(&self, i: u8, body: &[u8]) -> Option<MailFault>
        requires { state.is_sender self.now i ≡ true }
        ensures { result ≡ rules.send_fault self.now i body.now }
    {
        if body.len() > MOST_BYTES as usize {
            Some(MailFault::TooLong)
        } else if is_away(&self.world, i) {
            Some(MailFault::Moving)
        } else if has_ended_at(self.channels.as_slice(), Side::AtSender, i) {
            Some(MailFault::Ended)
        } else if self.is_full(i, body) {
            Some(MailFault::Full)
        } else {
            None
        }
    }

    /// Bytes are stored in the region of sender `i`.
    fn store(&mut self, alloc: Global, i: u8, at: u64, bytes: Vec<u8>) -> Result<(), AllocError>
        ensures ok { OnOk result (Goes self.old self.new (λ m. rules.storing m i at bytes.items)) }
        ensures err { OnErr result (self.new ≡ self.old) }
    {
        let event = Event::Store {
            region: sender_region(i),
            at,
            bytes: Items::new(bytes),
        };
        ask(alloc, &mut self.world, event)?;
        Ok(())
    }

    /// A body that is to be fetched is stored in the slot.
    fn store_body(
        &mut self,
        alloc: Global,
        i: u8,
        is_fetched: bool,
        body: &[u8],
    ) -> Result<(), AllocError>
        ensures ok { OnOk result (Goes self.old self.new (λ m. if is_fetched
            then rules.storing m i opening.slot_address body.now else m)) }
        ensures err { OnErr result (self.new ≡ self.old) }
    {
        if !is_fetched {
            return Ok(());
        }
        let held = Vec::from_slice(alloc, body)?;
        self.store(alloc, i, SLOT, held)
    }

    /// The message of a letter is stored; and its length.
    fn store_message(
        &mut self,
        alloc: Global,
        i: u8,
        header: &Header,
        body: &[u8],
    ) -> Result<u32, AllocError>
        requires { header.now.fetched ≡ false → length body.now ≤ 4080 }
        ensures ok { IfOk result (λ n. Goes self.old self.new
            (λ m. rules.storing m i opening.staging_address (message_with header.now body.now))) }
        ensures length { IfOk result (λ n. n ≡ length (message_with header.now body.now)) }
        ensures err { OnErr result (self.new ≡ self.old) }
    {
        let mut message = Vec::new(alloc);
        put_message(&mut message, header, body)?;
        let length = message.len() as u32;
        self.store(alloc, i, STAGING, message)?;
        Ok(length)
    }

    /// The Send of a message of so many bytes is posted.
    fn post_message(
        &mut self,
        alloc: Global,
        i: u8,
        length: u32,
        is_stored: bool,
    ) -> Result<(), MailFault>
        ensures ok { OnOk result ((m : state.Mail) → Shows self.old m
            → Replies self.new rules.IsSent (sent_with m i length is_stored)) }
        ensures err { IfErr result (λ why. ByFault why (self.new ≡ self.old) ((m : state.Mail)
            → Shows self.old m
            → Replies self.new (rules.Refused why) (sent_with m i length is_stored))) }
    {
        let answer = ask(alloc, &mut self.world, sends(i, length))?;
        if is_too_many(&answer) {
            end_at(&mut self.channels, Side::AtSender, i);
            return Err(MailFault::Ended);
        }
        use_slot_at(&mut self.channels, i, is_stored);
        Ok(())
    }

    /// The letter is stored, and its Send posted.
    fn post_letter(&mut self, alloc: Global, i: u8, tag: u32, body: &[u8]) -> Result<(), MailFault>
        requires { length body.now ≤ most_bytes }
        ensures ok { OnOk result ((m : state.Mail) → Shows self.old m
            → Replies self.new rules.IsSent (rules.posts_letter m i
            (record { tag = tag; body = body.now }))) }
        ensures err { IfErr result (λ why. ByFault why ((m : state.Mail) → Shows self.old m
            → IsStoredOnly self.new m i (record { tag = tag; body = body.now })) ((m : state.Mail)
            → Shows self.old m
            → Replies self.new (rules.Refused why)
            (rules.posts_letter m i (record { tag = tag; body = body.now })))) }
    {
        let header = header_for(i, tag, body);
        self.store_body(alloc, i, header.fetched, body)?;
        let length = self.store_message(alloc, i, &header, body)?;
        self.post_message(alloc, i, length, header.fetched)
    }

    /// Works, and sends a letter of at most 1,048,576 bytes from a sender, counted from 1.
    ///
    /// # Errors
    ///
    /// The first that holds after the work: `NoSender`, `TooLong`, `Moving` where the sender's context is carried, `Ended` where
    /// a completion of its end had an error, `Full` where it has 16 untold requests, or the body is over 4,080 bytes and an earlier
    /// one is still to be fetched. The letter is then not sent. `OutOfMemory` after some of the steps; the letter is not sent.
    pub fn send(&mut self, alloc: Global, from: u32, tag: u32, body: &[u8]) -> Result<(), MailFault>
        ensures ok { OnOk result ((m : state.Mail) → Shows self.old m
            → Replies self.new rules.IsSent (rules.calls m (rules.Send from tag body.now))) }
        ensures err { IfErr result (λ why. ByFault why ((m : state.Mail) → Shows self.old m
            → IsPartOfSend self.new m from (record { tag = tag; body = body.now }))
            ((m : state.Mail) → Shows self.old m
            → Replies self.new (rules.Refused why)
            (rules.calls m (rules.Send from tag body.now)))) }
    {
        self.work(alloc)?;
        let Some(i) = self.sender_of(from) else {
            return Err(MailFault::NoSender);
        };
        match self.refusal(i, body) {
            Some(fault) => Err(fault),
            None => self.post_letter(alloc, i, tag, body),
        }
    }
}
