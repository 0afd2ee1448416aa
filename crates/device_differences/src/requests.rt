//! Posted requests.
#![tactic(auto, using(crate::proofs::Found::looked), unfolding(crate::specs::Differing::apart, crate::specs::Differences::posted_difference))]

ghost use Rattle.std.specs.Prelude.{◌≡◌, All};
ghost use Rattle.page_pool.specs.Held.{HoldsPayload};
ghost use Rattle.end_queues.specs.Untold.{posted_in, untold_in};
ghost use Rattle.device_differences.specs.Differing.{across};
ghost use Rattle.device_differences.specs.Differences.{posted_difference};

use crate::between::{apart, numbers};
use crate::memory::payloads;
use crate::values::request_numbers;
use end_queues::work_queues::QueuedRequest;
use page_pool::PagePool;
use requester::Requester;

/// Two posted requests, with the bytes of their payloads.
fn posted(
    pool: &PagePool,
    x: &QueuedRequest,
    other_pool: &PagePool,
    y: &QueuedRequest,
) -> Option<(u64, u64)>
    requires held { HoldsPayload pool.now x.now.payload }
    requires other_held { HoldsPayload other_pool.now y.now.payload }
    ensures { result ≡ posted_difference (posted_in pool.now x.now)
        (posted_in other_pool.now y.now) }
{
    let found = numbers(&request_numbers(&x.request), &request_numbers(&y.request));
    if found.is_some() {
        return found;
    }
    payloads(pool, &x.payload, other_pool, &y.payload)
}

/// The untold requests of two requesters.
pub fn requests(
    pool: &PagePool,
    a: &Requester,
    other_pool: &PagePool,
    b: &Requester,
) -> Option<(u64, u64)>
    requires held { All (λ p. HoldsPayload pool.now p.payload) a.now.items }
    requires other_held { All (λ p. HoldsPayload other_pool.now p.payload) b.now.items }
    ensures { result ≡ across posted_difference (untold_in pool.now a.now.items)
        (untold_in other_pool.now b.now.items) }
{
    for i in 0..a.untold().min(b.untold()) {
        let x = a.posted(i as usize).unwrap();
        let y = b.posted(i as usize).unwrap();
        let found = posted(pool, x, other_pool, y);
        if found.is_some() {
            return found;
        }
    }
    apart(u64::from(a.untold()), u64::from(b.untold()))
}
