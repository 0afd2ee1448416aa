//! Connections, and what queue pairs have besides their names and numbers.
#![tactic(auto, using(crate::proofs::Found::looked), unfolding(crate::specs::Differences::sender_difference, crate::specs::Differences::receiver_difference, crate::specs::Differences::link_difference, crate::specs::Differences::work_difference))]

ghost use Rattle.std.specs.Prelude.{◌≡◌, All};
ghost use Rattle.std.specs.Option.{option_map};
ghost use Rattle.page_pool.specs.Held.{HoldsPayload};
ghost use Rattle.requester.specs.Sending.{sender_in};
ghost use Rattle.endpoint_core.specs.Ends.{Names, end_in, link_in, untold_by};
ghost use Rattle.device_differences.specs.Differing.{maybe};
ghost use Rattle.device_differences.specs.Differences.{link_difference, receiver_difference, sender_difference, work_difference};

use crate::between::numbers;
use crate::lists::{receives, replies};
use crate::requests::requests;
use crate::values::{
    flag, moving_numbers, progress_numbers, receiver_numbers, sender_numbers, terms_numbers,
};
use endpoint_core::{EndLink, Endpoint};
use page_pool::PagePool;
use requester::Requester;
use responder::Responder;

/// Two requesters.
fn senders(
    pool: &PagePool,
    a: &Requester,
    other_pool: &PagePool,
    b: &Requester,
) -> Option<(u64, u64)>
    requires held { All (λ p. HoldsPayload pool.now p.payload) a.now.items }
    requires other_held { All (λ p. HoldsPayload other_pool.now p.payload) b.now.items }
    ensures { result ≡ sender_difference (sender_in pool.now a.now)
        (sender_in other_pool.now b.now) }
{
    let found = requests(pool, a, other_pool, b);
    if found.is_some() {
        return found;
    }
    numbers(&sender_numbers(&a.parts()), &sender_numbers(&b.parts()))
}

/// Two responders.
fn receivers(a: &Responder, b: &Responder) -> Option<(u64, u64)>
    ensures { result ≡ receiver_difference a.now.receiver b.now.receiver }
{
    let x = a.parts();
    let y = b.parts();
    let found = numbers(&receiver_numbers(&x), &receiver_numbers(&y));
    if found.is_some() {
        return found;
    }
    let found = numbers(&progress_numbers(&x.flow), &progress_numbers(&y.flow));
    if found.is_some() {
        return found;
    }
    replies(a.kept(), b.kept())
}

/// Two connections.
fn link(pool: &PagePool, a: &EndLink, other_pool: &PagePool, b: &EndLink) -> Option<(u64, u64)>
    requires held { All (λ p. HoldsPayload pool.now p.payload) a.now.requester.items }
    requires other_held { All (λ p. HoldsPayload other_pool.now p.payload) b.now.requester.items }
    ensures { result ≡ link_difference (link_in pool.now a.now) (link_in other_pool.now b.now) }
{
    let found = numbers(
        &[flag(a.ended), u64::from(a.peer)],
        &[flag(b.ended), u64::from(b.peer)],
    );
    if found.is_some() {
        return found;
    }
    let found = numbers(&terms_numbers(&a.terms), &terms_numbers(&b.terms));
    if found.is_some() {
        return found;
    }
    let found = numbers(&moving_numbers(&a.moves), &moving_numbers(&b.moves));
    if found.is_some() {
        return found;
    }
    let found = senders(pool, &a.requester, other_pool, &b.requester);
    if found.is_some() {
        return found;
    }
    receivers(&a.responder, &b.responder)
}

/// Two connections that may be there.
fn links(
    pool: &PagePool,
    a: &Option<EndLink>,
    other_pool: &PagePool,
    b: &Option<EndLink>,
) -> Option<(u64, u64)>
    requires held { All (λ p. HoldsPayload pool.now p.payload) (untold_by a.now) }
    requires other_held { All (λ p. HoldsPayload other_pool.now p.payload) (untold_by b.now) }
    ensures { result ≡ maybe link_difference (option_map (link_in pool.now) a.now)
        (option_map (link_in other_pool.now) b.now) }
{
    match (a, b) {
        (None, None) => None,
        (None, Some(_)) => Some((0, 1)),
        (Some(_), None) => Some((1, 0)),
        (Some(a), Some(b)) => link(pool, a, other_pool, b),
    }
}

/// What two queue pairs have besides their names and numbers.
pub fn work(
    pool: &PagePool,
    a: &Endpoint,
    other_pool: &PagePool,
    b: &Endpoint,
) -> Option<(u64, u64)>
    requires held { All (λ p. HoldsPayload pool.now p.payload) (untold_by a.now.link) }
    requires other_held { All (λ p. HoldsPayload other_pool.now p.payload) (untold_by b.now.link) }
    ensures { (names other_names : Names) → result
        ≡ work_difference (end_in pool.now names a.now) (end_in other_pool.now other_names b.now) }
{
    let found = numbers(
        &[u64::from(a.send_depth), u64::from(a.recv_depth)],
        &[u64::from(b.send_depth), u64::from(b.recv_depth)],
    );
    if found.is_some() {
        return found;
    }
    let found = receives(&a.recvs, &b.recvs);
    if found.is_some() {
        return found;
    }
    links(pool, &a.link, other_pool, &b.link)
}
