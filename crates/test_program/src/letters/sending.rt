//! Letters that are sent by code, and taken: out of order, and by a receiver that moves in between.

use mailbox::{MailFault, MailPlan, Mailbox, run_mail};
use rdma_types::Name;
use settle_core::Rounds;
use std::alloc::Global;
use world_core::WorldEvent;

/// The tag and the first byte of a letter that is taken; None where there is none.
fn taken(
    alloc: Global,
    mail: &mut Mailbox,
    tag: Option<u32>,
) -> Result<Option<(u32, u8)>, MailFault> {
    let Some(letter) = mail.take(alloc, 1, tag)? else {
        return Ok(None);
    };
    Ok(Some((
        letter.tag,
        letter.body.as_slice().first().copied().unwrap_or(0),
    )))
}

/// Two letters are sent and taken out of order.
fn two_letters(alloc: Global, mail: &mut Mailbox) -> Result<[Option<(u32, u8)>; 4], MailFault> {
    mail.send(alloc, 1, 5, &[0xaa])?;
    mail.send(alloc, 1, 6, &[0xbb])?;
    let early = taken(alloc, mail, Some(6))?;
    mail.settle(alloc, &Rounds)?;
    let second = taken(alloc, mail, Some(6))?;
    let first = taken(alloc, mail, None)?;
    Ok([early, second, first, taken(alloc, mail, None)?])
}

/// A call is refused since there is no such sender, and another since the slot is not free.
fn refusals(alloc: Global, mail: &mut Mailbox) -> Result<[Option<MailFault>; 3], MailFault> {
    let none = mail.send(alloc, 2, 0, &[]).err();
    let long = Vec::from_elem(alloc, 0xcc, 5000)?;
    let sent = mail.send(alloc, 1, 0, long.as_slice()).err();
    Ok([none, sent, mail.send(alloc, 1, 0, long.as_slice()).err()])
}

/// A long letter and a short one are sent while the receiver leaves device 1, and taken when it lives on device 3.
fn to_a_moving_receiver(
    alloc: Global,
    mail: &mut Mailbox,
) -> Result<[Option<(u32, u8)>; 4], MailFault> {
    let Some(context) = Name::read(b"r") else {
        return Err(MailFault::NoSender);
    };
    let long = Vec::from_elem(alloc, 0xcc, 5000)?;
    mail.send(alloc, 1, 5, long.as_slice())?;
    mail.network(alloc, &WorldEvent::Stop { context })?;
    mail.send(alloc, 1, 6, &[0xbb])?;
    mail.settle(alloc, &Rounds)?;
    let carried = taken(alloc, mail, None)?;
    mail.network(alloc, &WorldEvent::Restore { context, device: 3 })?;
    for _ in 0..2 {
        mail.settle(alloc, &Rounds)?;
        mail.work(alloc)?;
    }
    let short = taken(alloc, mail, Some(6))?;
    let first = taken(alloc, mail, None)?;
    Ok([carried, short, first, taken(alloc, mail, None)?])
}

#[test]
fn letters_follow_a_receiver_that_moves(rt: HostRuntime) -> Result<(), MailFault> {
    let mut mail = Mailbox::make(rt.alloc(), 1)?;
    let told = to_a_moving_receiver(rt.alloc(), &mut mail)?;
    assert!(rt; told == [None, Some((6, 0xbb)), Some((5, 0xcc)), None]);
    Ok(())
}

#[test]
fn two_letters_are_taken_out_of_order(rt: HostRuntime) -> Result<(), MailFault> {
    let mut mail = Mailbox::make(rt.alloc(), 1)?;
    let told = two_letters(rt.alloc(), &mut mail)?;
    assert!(rt; told == [None, Some((6, 0xbb)), Some((5, 0xaa)), None]);
    let told = refusals(rt.alloc(), &mut mail)?;
    assert!(rt; told == [Some(MailFault::NoSender), None, Some(MailFault::Full)]);
    Ok(())
}

#[test]
fn all_letters_of_a_plan_are_taken(rt: HostRuntime) -> Result<(), MailFault> {
    let plan = MailPlan {
        seed: 7,
        peers: 4,
        letters: 200,
        moves: 3,
    };
    let sum = run_mail(rt.alloc(), &plan, &Rounds)?;
    assert_eq!(rt; (sum.letters, sum.taken), (200, 200));
    Ok(())
}
