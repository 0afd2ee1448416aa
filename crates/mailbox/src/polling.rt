//! Completions are polled.

ghost use Rattle.std.specs.Prelude.{◌≡◌, ◌+◌, ◌<◌, ◌≤◌, IfOk, OnErr, length, vec_len, vec_capacity};
ghost use Rattle.protocol.specs.State.{World};
ghost use Rattle.mailbox_rules.specs.Opening as opening;
ghost use Rattle.mailbox_rules.specs.State as state;
ghost use Rattle.mailbox_rules.specs.Working as rules;
ghost use Rattle.mailbox.specs.Steps.{Polls, Shows, failed};

use crate::Mailbox;
use crate::asking::ask;
use crate::channels::{Channel, end_at};
use crate::events::polls;
use mailbox_rules::{Due, Side};
use rdma_types::{Answer, Completion, Items, WcKind, WcStatus};
use std::alloc::{AllocError, Global};

/// Most completions of one poll.
const MOST_POLLED: usize = 256;

/// The completions of a poll's answer; a poll of a carried context is refused, and has none.
fn entries_in(alloc: Global, answer: Answer) -> Items<Completion>
    ensures { result ≡ rules.entries_in answer }
{
    match answer {
        Answer::Polled(entries) => entries,
        _ => Items::new(Vec::new(alloc)),
    }
}

/// The connection of the receiver's end with a queue pair number.
fn connection_of(number: u32) -> u8
    ensures { result ≡ opening.connection_of number }
{
    (number % 256) as u8
}

/// The place of a receive.
fn place_in(completion: &Completion) -> u8
    ensures { result ≡ rules.place_in completion.now }
{
    (completion.id % 16) as u8
}

/// What a completion of the receiver with success makes due.
fn received(completion: &Completion) -> Option<Due>
    ensures { result ≡ rules.received completion.now completion.now.kind }
{
    let i = connection_of(completion.qp);
    let length = completion.length;
    match completion.kind {
        WcKind::Recv => Some(Due::CopyMessage {
            i,
            place: place_in(completion),
            length,
        }),
        WcKind::Read => Some(Due::CopyBody { i, length }),
        _ => None,
    }
}

/// What a completion of sender `i` with success makes due.
fn heard(i: u8, completion: &Completion) -> Option<Due>
    ensures { result ≡ rules.heard i completion.now completion.now.kind }
{
    match completion.kind {
        WcKind::Recv => Some(Due::FreeSlot {
            i,
            place: place_in(completion),
        }),
        _ => None,
    }
}

/// What a completion of context `n` with success makes due.
fn due_of(n: u8, completion: &Completion) -> Option<Due>
    ensures { result ≡ rules.due_of n completion.now }
{
    if n == 0 {
        received(completion)
    } else {
        heard(n, completion)
    }
}

/// The end of a completion of context `n` with an error has ended.
fn fail(channels: &mut Vec<Channel>, n: u8, completion: &Completion)
    ensures { channels.new.items ≡ failed channels.old.items n completion.now }
{
    if n == 0 {
        end_at(channels, Side::AtReceiver, connection_of(completion.qp));
    } else {
        end_at(channels, Side::AtSender, n);
    }
}

/// A completion of context `n` was polled; there is room for what it makes due.
fn note(channels: &mut Vec<Channel>, owed: &mut Vec<Due>, n: u8, completion: &Completion)
    requires { vec_len owed.old < vec_capacity owed.old }
    ensures noted { (w : World)
        → record { world = w; channels = channels.new.items; owed = owed.new.items }
        ≡ rules.noting n
        (record { world = w; channels = channels.old.items; owed = owed.old.items })
        completion.now }
    ensures channels { length channels.new.items ≡ length channels.old.items }
    ensures room { vec_len owed.new ≤ vec_len owed.old + 1 }
    ensures capacity { vec_capacity owed.new ≡ vec_capacity owed.old }
{
    if completion.status != WcStatus::Success {
        fail(channels, n, completion);
    } else if let Some(due) = due_of(n, completion) {
        owed.push_reserved(due);
    }
}

/// Completions of context `n` were polled; there is room for what they make due.
fn note_all(channels: &mut Vec<Channel>, owed: &mut Vec<Due>, n: u8, entries: &[Completion])
    requires { vec_len owed.old + length entries.now ≤ vec_capacity owed.old }
    ensures noted { (w : World)
        → record { world = w; channels = channels.new.items; owed = owed.new.items }
        ≡ rules.noting_all n
        (record { world = w; channels = channels.old.items; owed = owed.old.items }) entries.now }
    ensures channels { length channels.new.items ≡ length channels.old.items }
{
    for entry in entries {
        note(channels, owed, n, entry);
    }
}

impl Mailbox {
    /// Context `n` is polled; and the context that is polled next.
    pub(crate) fn visit(&mut self, alloc: Global, n: u8) -> Result<u8, AllocError>
        requires { n ≤ 8 }
        ensures ok { IfOk result (λ next. (m : state.Mail) → Shows self.old m
            → Polls self.new next (rules.polled n (rules.asking m (rules.poll_event n)))) }
        ensures next { IfOk result (λ next. next ≤ 9) }
        ensures err { OnErr result (self.new ≡ self.old) }
    {
        self.owed.reserve(MOST_POLLED)?;
        let answer = ask(alloc, &mut self.world, polls(n))?;
        let entries = entries_in(alloc, answer);
        if entries.len() == 0 {
            return Ok(n + 1);
        }
        note_all(&mut self.channels, &mut self.owed, n, entries.as_slice());
        Ok(n)
    }
}
