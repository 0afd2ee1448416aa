//! How many of the offers to an end are of earlier requests.
#![tactic(auto, using(crate::proofs::Passing::passing))]

ghost use Rattle.std.specs.Prelude.{◌≤◌};
ghost use Rattle.packetless_machine.specs.Counted.{IsPassed};

use crate::posted::Offered;

/// Each of the first `count` offers is of a request before number `below`.
#[derive(Clone, Copy)]
pub(crate) struct Passed {
    pub(crate) count: usize,
    pub(crate) below: usize,
}

/// How many offers are passed, where so many are: it goes on to the first of a request from `below` on.
fn passed_on(offers: &[Offered], count: usize, below: usize) -> usize
    requires { IsPassed offers.now count below }
    ensures { IsPassed offers.now result below }
{
    for i in count..offers.len() {
        let offer = &offers[i];
        if offer.request >= below {
            return i;
        }
    }
    offers.len()
}

impl Passed {
    /// The offers of requests before number `below` are passed, up to the first of a later one.
    pub(crate) fn on(self, offers: &[Offered], below: usize) -> Passed
        requires { IsPassed offers.now self.count self.below }
        ensures { IsPassed offers.now result.count result.below }
    {
        if below < self.below {
            return self;
        }
        Passed {
            count: passed_on(offers, self.count, below),
            below,
        }
    }
}
