//! A plan of letters is run.

ghost use Rattle.std.specs.Prelude.{◌≡◌, ◌≤◌, ◌==◌, [], ◌∷◌, ◌++◌, None, is_none, if◌then◌else◌, IfOk, OnOk};
ghost use Rattle.protocol.specs.Events.{IsLawfulWorldEvent};
ghost use Rattle.mailbox_rules.specs.Calls.{Network, Send, Settle, Take, Work, calls, settled_thrice};
ghost use Rattle.mailbox_rules.specs.Command as rules;
ghost use Rattle.mailbox_rules.specs.State as state;
ghost use Rattle.mailbox.specs.Runs.{IsGivenOrNot, IsRefusal, IsRun, count_of, send_reply};
ghost use Rattle.mailbox.specs.Steps.{Replies, Shows};

use crate::Mailbox;
use crate::names::receiver;
use mailbox_rules::{MailFault, MailPlan};
use rand_core::Rng;
use rand_pcg::Lcg64Xsh32;
use std::alloc::{AllocError, Global};
use world_core::{Settler, WorldEvent};

/// The letters that were sent, and those that were taken.
#[derive(Clone, Copy, Debug, PartialEq, Eq)]
pub struct MailSum {
    pub letters: u64,
    pub taken: u64,
}

/// So many bytes that count up from a number, modulo 256.
fn counting_bytes(alloc: Global, from: u32, length: u32) -> Result<Vec<u8>, AllocError>
    ensures { IfOk result (λ bytes. bytes.items ≡ rules.counting_bytes from length) }
{
    let mut bytes = Vec::with_capacity(alloc, length as usize)?;
    let mut next = (from % 256) as u8;
    for _made in 0..length {
        bytes.push(next)?;
        next = next.wrapping_add(1);
    }
    Ok(bytes)
}

/// Bytes of a body, by the word of its letter: one in eight is long.
fn body_length(word: u32) -> u32
    ensures value { result ≡ rules.body_length word }
    ensures within { result ≤ 65_000 }
{
    if word / 32 % 8 == 0 {
        5000 + word / 256 % 60_000
    } else {
        word / 256 % 4081
    }
}

/// A call was refused, and not cut off. Errors: `AllocError` where it was cut off, since memory ran out.
fn refused(fault: MailFault) -> Result<(), AllocError>
    ensures { OnOk result (IsRefusal fault) }
{
    match fault {
        MailFault::OutOfMemory => Err(AllocError),
        _ => Ok(()),
    }
}

/// Whether a letter was refused since its end or its slot is full.
fn is_full(fault: Option<MailFault>) -> bool
    ensures { result ≡ rules.is_refused_full (send_reply fault) }
{
    matches!(fault, Some(MailFault::Full))
}

/// Whether a letter was sent: it was not refused.
fn was_sent(fault: Option<MailFault>) -> bool
    ensures { result ≡ is_none fault }
{
    match fault {
        None => true,
        Some(_) => false,
    }
}

/// How many letters were sent, one or none.
fn count(sent: bool) -> u64
    ensures { result ≡ count_of sent }
{
    if sent { 1 } else { 0 }
}

impl Mailbox {
    /// Settles and works.
    fn settle_and_work<T: Settler>(&mut self, alloc: Global, settler: &T) -> Result<(), AllocError>
        ensures { OnOk result (IsRun self.old self.new 0 0 (λ m. Settle ∷ Work ∷ [])) }
    {
        self.settle(alloc, settler)?;
        self.work(alloc)
    }

    /// Settles and works three times.
    fn settle_thrice<T: Settler>(&mut self, alloc: Global, settler: &T) -> Result<(), AllocError>
        ensures { OnOk result (IsRun self.old self.new 0 0 (λ m. settled_thrice)) }
    {
        self.settle_and_work(alloc, settler)?;
        self.settle_and_work(alloc, settler)?;
        self.settle_and_work(alloc, settler)
    }

    /// The network has an event, whatever the answer is.
    fn have(&mut self, alloc: Global, event: &WorldEvent) -> Result<(), AllocError>
        requires { IsLawfulWorldEvent event.now }
        ensures { OnOk result (IsRun self.old self.new 0 0 (λ m. Network event.now ∷ [])) }
    {
        match self.network(alloc, event) {
            Ok(_) => Ok(()),
            Err(fault) => refused(fault),
        }
    }

    /// The receiver moves from one device to another.
    fn transfer<T: Settler>(
        &mut self,
        alloc: Global,
        settler: &T,
        old: u8,
        new: u8,
    ) -> Result<(), AllocError>
        ensures { OnOk result (IsRun self.old self.new 0 0 (λ m. rules.transfer old new)) }
    {
        let context = receiver();
        self.have(alloc, &WorldEvent::Stop { context })?;
        let restore = WorldEvent::Restore {
            context,
            device: new,
        };
        self.have(alloc, &restore)?;
        self.settle(alloc, settler)?;
        let release = WorldEvent::Release {
            context,
            device: old,
        };
        self.have(alloc, &release)
    }

    /// Move `k`, where it stands after letter `j`.
    fn move_at<T: Settler>(
        &mut self,
        alloc: Global,
        settler: &T,
        plan: &MailPlan,
        j: u32,
        k: u32,
    ) -> Result<(), AllocError>
        requires letters { plan.now.letters ≤ 500 }
        requires moves { plan.now.moves ≤ 16 }
        requires k { k ≤ 16 }
        ensures { OnOk result (IsRun self.old self.new 0 0 (λ m. if rules.place_of plan.now k == j
            then rules.move_calls k else [])) }
    {
        if k * plan.letters / (plan.moves + 1) != j {
            return Ok(());
        }
        let odd = (k % 2) as u8;
        self.transfer(alloc, settler, 3 - 2 * odd, 1 + 2 * odd)
    }

    /// Those moves that stand after letter `j`.
    fn move_after<T: Settler>(
        &mut self,
        alloc: Global,
        settler: &T,
        plan: &MailPlan,
        j: u32,
    ) -> Result<(), AllocError>
        requires letters { plan.now.letters ≤ 500 }
        requires moves { plan.now.moves ≤ 16 }
        ensures { OnOk result (IsRun self.old self.new 0 0
            (λ m. rules.moves_after plan.now j plan.now.moves)) }
    {
        for k in 0..plan.moves {
            self.move_at(alloc, settler, plan, j, k + 1)?;
        }
        Ok(())
    }

    /// A letter is sent; or why it was refused.
    fn try_send(
        &mut self,
        alloc: Global,
        from: u32,
        tag: u32,
        body: &[u8],
    ) -> Result<Option<MailFault>, AllocError>
        ensures { IfOk result (λ why. (m : state.Mail) → Shows self.old m
            → Replies self.new (send_reply why) (calls m (Send from tag body.now))) }
    {
        match self.send(alloc, from, tag, body) {
            Ok(()) => Ok(None),
            Err(fault) => {
                refused(fault)?;
                Ok(Some(fault))
            }
        }
    }

    /// A letter is sent, and once more after settling where it was refused as Full; and whether it was sent.
    fn send_twice<T: Settler>(
        &mut self,
        alloc: Global,
        settler: &T,
        from: u32,
        tag: u32,
        body: &[u8],
    ) -> Result<bool, AllocError>
        ensures { IfOk result (λ sent. IsRun self.old self.new (count_of sent) 0
            (λ m. rules.sending_calls m (Send from tag body.now))) }
    {
        let first = self.try_send(alloc, from, tag, body)?;
        if !is_full(first) {
            return Ok(was_sent(first));
        }
        self.settle_thrice(alloc, settler)?;
        let second = self.try_send(alloc, from, tag, body)?;
        Ok(was_sent(second))
    }

    /// Letter `j` is sent, by its word; and whether it was sent.
    fn send_by<T: Settler>(
        &mut self,
        alloc: Global,
        settler: &T,
        plan: &MailPlan,
        j: u32,
        word: u32,
    ) -> Result<bool, AllocError>
        requires { (1 ≤ plan.now.peers) × (plan.now.peers ≤ 8) }
        ensures { IfOk result (λ sent. IsRun self.old self.new (count_of sent) 0
            (λ m. rules.sending_calls m (rules.send_of plan.now j word))) }
    {
        let body = counting_bytes(alloc, j, body_length(word))?;
        self.send_twice(
            alloc,
            settler,
            word % plan.peers + 1,
            word / 8 % 4,
            body.as_slice(),
        )
    }

    /// Letter `j` is sent, and the moves after it are made; and how many letters were sent.
    fn turn<T: Settler>(
        &mut self,
        alloc: Global,
        settler: &T,
        plan: &MailPlan,
        j: u32,
        word: u32,
    ) -> Result<u64, AllocError>
        requires peers { (1 ≤ plan.now.peers) × (plan.now.peers ≤ 8) }
        requires letters { plan.now.letters ≤ 500 }
        requires moves { plan.now.moves ≤ 16 }
        ensures run { IfOk result (λ sent. IsRun self.old self.new sent 0
            (λ m. rules.sending_calls m (rules.send_of plan.now j word)
            ++ rules.moves_after plan.now j plan.now.moves)) }
        ensures within { IfOk result (λ sent. sent ≤ 1) }
    {
        let sent = self.send_by(alloc, settler, plan, j, word)?;
        self.move_after(alloc, settler, plan, j)?;
        Ok(count(sent))
    }

    /// All letters are sent, with the moves between them; and how many letters were sent.
    fn send_all<T: Settler>(
        &mut self,
        alloc: Global,
        settler: &T,
        plan: &MailPlan,
    ) -> Result<u64, AllocError>
        requires peers { (1 ≤ plan.now.peers) × (plan.now.peers ≤ 8) }
        requires letters { plan.now.letters ≤ 500 }
        requires moves { plan.now.moves ≤ 16 }
        ensures { IfOk result (λ sent. IsRun self.old self.new sent 0
            (rules.letters_calls plan.now 1 plan.now.letters)) }
    {
        let mut words = Lcg64Xsh32::new(plan.seed, 1);
        let mut sent = 0;
        for i in 0..plan.letters {
            let word = words.next_u32();
            let more = self.turn(alloc, settler, plan, i + 1, word)?;
            sent += more;
        }
        Ok(sent)
    }

    /// A letter of a sender is taken; and whether one was given.
    fn take_one(&mut self, alloc: Global, from: u32) -> Result<bool, AllocError>
        ensures { IfOk result (λ given. (m : state.Mail) → Shows self.old m
            → IsGivenOrNot self.new given (calls m (Take from None))) }
    {
        match self.take(alloc, from, None) {
            Ok(letter) => Ok(letter.is_some()),
            Err(fault) => {
                refused(fault)?;
                Ok(false)
            }
        }
    }

    /// The letters of a sender are taken until none is given, in so many calls at most; and how many there were.
    fn take_all(&mut self, alloc: Global, from: u32, most: u32) -> Result<u64, AllocError>
        ensures run { IfOk result (λ taken. IsRun self.old self.new 0 taken
            (rules.taking_calls most from)) }
        ensures within { IfOk result (λ taken. taken ≤ most) }
    {
        for k in 0..most {
            let given = self.take_one(alloc, from)?;
            if !given {
                return Ok(u64::from(k));
            }
        }
        Ok(u64::from(most))
    }

    /// The letters of each sender are taken; and how many there were.
    fn take_letters(&mut self, alloc: Global, plan: &MailPlan) -> Result<u64, AllocError>
        requires { plan.now.letters ≤ 500 }
        ensures { IfOk result (λ taken. IsRun self.old self.new 0 taken
            (rules.all_taking_calls plan.now.letters 1 plan.now.peers)) }
    {
        let mut taken = 0;
        for i in 0..plan.peers {
            let more = self.take_all(alloc, i + 1, plan.letters + 1)?;
            taken += more;
        }
        Ok(taken)
    }
}

/// Sends the letters of a plan, with the moves of the receiver between them, and takes all of them. Errors: `AllocError` when out
/// of memory.
pub fn run_mail<T: Settler>(
    alloc: Global,
    plan: &MailPlan,
    settler: &T,
) -> Result<MailSum, AllocError>
    requires peers { (1 ≤ plan.now.peers) × (plan.now.peers ≤ 8) }
    requires letters { plan.now.letters ≤ 500 }
    requires moves { plan.now.moves ≤ 16 }
    ensures sent { IfOk result (λ sum. sum.letters
        ≡ rules.letters_sent (rules.mail_replies plan.now)) }
    ensures taken { IfOk result (λ sum. sum.taken
        ≡ rules.letters_taken (rules.mail_replies plan.now)) }
{
    let mut mail = Mailbox::make(alloc, plan.peers as u8)?;
    mail.move_after(alloc, settler, plan, 0)?;
    let letters = mail.send_all(alloc, settler, plan)?;
    mail.settle_thrice(alloc, settler)?;
    let taken = mail.take_letters(alloc, plan)?;
    Ok(MailSum { letters, taken })
}
