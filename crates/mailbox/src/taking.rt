//! A letter is taken.

ghost use Rattle.std.specs.Prelude.{◌≡◌, IfErr, IfOk};
ghost use Rattle.std.specs.List.{position};
ghost use Rattle.mailbox_rules.specs.Calls as rules;
ghost use Rattle.mailbox_rules.specs.Calls.{Gives, Refused, Take, calls};
ghost use Rattle.mailbox_rules.specs.State as state;
ghost use Rattle.mailbox.specs.Steps.{ByFault, IsPartOfWork, Replies, Shows, given};

use crate::Mailbox;
use crate::channels::{Channel, place_of};
use mailbox_rules::{Arrival, Letter, MailFault};
use std::alloc::Global;

/// Whether a letter has the asked tag, or any is asked.
fn is_asked(tag: Option<u32>, arrival: &Arrival) -> bool
    ensures { result ≡ rules.is_asked tag arrival.now.tag }
{
    match tag {
        Some(tag) => tag == arrival.tag,
        None => true,
    }
}

/// Where the first letter with the asked tag stands.
fn first_asked(arrived: &[Arrival], tag: Option<u32>) -> Option<usize>
    ensures { result ≡ position (λ a. rules.is_asked tag a.tag) arrived.now }
{
    arrived.iter().position(|arrival| is_asked(tag, arrival))
}

impl Channel {
    /// The first letter with an asked tag, where its body is here.
    fn take(&mut self, tag: Option<u32>) -> Option<Letter>
        ensures channel { self.new ≡ (given self.old tag).channel }
        ensures letter { result ≡ (given self.old tag).letter }
    {
        let k = first_asked(self.arrived.as_slice(), tag)?;
        if self.arrived[k].body.is_none() {
            return None;
        }
        let arrival = self.arrived.remove(k);
        Some(Letter {
            tag: arrival.tag,
            body: arrival.body?,
        })
    }
}

impl Mailbox {
    /// Works, and takes the first letter of a sender, counted from 1, that has a tag, or the first one of all; None where none has
    /// arrived, or the body of the first one is not here yet.
    ///
    /// # Errors
    ///
    /// `NoSender`; or `OutOfMemory` after some of the steps of work, where no letter is taken.
    pub fn take(
        &mut self,
        alloc: Global,
        from: u32,
        tag: Option<u32>,
    ) -> Result<Option<Letter>, MailFault>
        ensures ok { IfOk result (λ letter. (m : state.Mail) → Shows self.old m
            → Replies self.new (Gives letter) (calls m (Take from tag))) }
        ensures err { IfErr result (λ why. ByFault why ((m : state.Mail) → Shows self.old m
            → IsPartOfWork self.new m) ((m : state.Mail) → Shows self.old m
            → Replies self.new (Refused why) (calls m (Take from tag)))) }
    {
        self.work(alloc)?;
        let Some(i) = self.sender_of(from) else {
            return Err(MailFault::NoSender);
        };
        Ok(self.channels[place_of(i)].take(tag))
    }
}
