//! How many receipts tell of an accepted addition, of a stop or of a restore.

ghost use Rattle.std.specs.Prelude.{◌≡◌, ◌+◌, ◌∷◌, [], cond, count_by, IfSome, IsTrue};
ghost use Rattle.order_rules.specs.Work.{is_addition as adds_here};
ghost use Rattle.thread_plan.specs.Planned.{IsPlan, all_adds as planned_adds, is_accepted, restores_b, stops_b};
ghost use Rattle.thread_plan.specs.Seen.{AreTallied};

use crate::adding::all_adds;
use crate::plan::ThreadPlan;
use crate::working::name_b;
use protocol::Event;
use rdma_types::{Answer, Kind};
use shared_device::Receipt;

/// Whether an event posts an addition.
fn is_addition(event: &Event) -> bool
    ensures { result ≡ adds_here event.now }
{
    match event {
        Event::PostSend { request, .. } => matches!(request.shape.kind, Kind::FetchAdd),
        _ => false,
    }
}

/// Whether a receipt is of an accepted addition.
pub fn accepts(receipt: &Receipt) -> bool
    ensures { result ≡ is_accepted receipt.now }
{
    is_addition(receipt.event()) && matches!(receipt.outcome().answer, Answer::Done)
}

/// Whether a receipt is of a stop of b that was made.
fn stops(receipt: &Receipt) -> bool
    ensures { result ≡ stops_b receipt.now }
{
    match receipt.event() {
        Event::Stop { context, .. } => {
            *context == name_b() && matches!(receipt.outcome().answer, Answer::Stopped)
        }
        _ => false,
    }
}

/// Whether a receipt is of a restore of b that was made.
fn restores(receipt: &Receipt) -> bool
    ensures { result ≡ restores_b receipt.now }
{
    match receipt.event() {
        Event::Restore { image } => {
            image.name == name_b() && matches!(receipt.outcome().answer, Answer::Done)
        }
        _ => false,
    }
}

/// A number, and one more where that is so; None where it would have more than 64 bits.
fn one_more_if(is_so: bool, count: u64) -> Option<u64>
    ensures { IfSome result (λ n. n ≡ count + cond is_so 1 0) }
{
    count.checked_add(u64::from(is_so))
}

/// How many receipts are of accepted additions, of stops of b and of restores of b.
#[derive(Clone, Copy)]
pub struct Tallies {
    accepted: u64,
    stopped: u64,
    restored: u64,
}

impl Tallies {
    /// Those of no receipt.
    pub fn none() -> Tallies
        ensures { result ≡ record { accepted = 0; stopped = 0; restored = 0 } }
    {
        Tallies {
            accepted: 0,
            stopped: 0,
            restored: 0,
        }
    }

    /// Those with one receipt more; None where a number would have more than 64 bits.
    pub fn with_receipt(self, receipt: &Receipt) -> Option<Tallies>
        ensures { IfSome result (AreTallied (λ test. count_by test (receipt.now ∷ [])) self) }
    {
        Some(Tallies {
            accepted: one_more_if(accepts(receipt), self.accepted)?,
            stopped: one_more_if(stops(receipt), self.stopped)?,
            restored: one_more_if(restores(receipt), self.restored)?,
        })
    }

    /// Whether there are as many as planned.
    pub fn are_as_many(self, plan: &ThreadPlan) -> bool
        requires { IsPlan plan.now }
        ensures { IsTrue result → (self.accepted ≡ planned_adds plan.now)
            × (self.stopped ≡ plan.now.moves) × (self.restored ≡ plan.now.moves) }
    {
        let moves = u64::from(plan.moves);
        self.accepted == all_adds(plan) && self.stopped == moves && self.restored == moves
    }
}
